// The history of a run, and what of it is printed.
ghost use Rattle.std.specs.Prelude.{◌≡◌, ◌<◌, ◌≤◌, ◌||◌, ◌++◌, ◌∷◌, [], not, vec_len, vec_capacity, length};
ghost use Rattle.mesa_invariant_spec.specs.mesa_history_spec.Refused.{is_refusal as refuses};
ghost use Rattle.mesa_model.specs.Entry.{IsShort};
ghost use Rattle.mesa_model.specs.Query.{Heading};
ghost use Rattle.mesa_engine.specs.Failure.{cause_in};
ghost use Rattle.mesa_engine.specs.Printing.{GoesOn, PrintsBlock, page_text};
ghost use Rattle.mesa_script.specs.Rows.{body_of};
ghost use Rattle.mesa_invariant_spec.specs.Causes.{outcome_of, reply_of, told_at};
ghost use Rattle.mesa_invariant_spec.specs.Printing.{IsPut};
ghost use Rattle.mesa_invariant_spec.specs.Turns.{entry};

use crate::{Failure, Who};
use mesa_io::Sink;
use mesa_model::{Entry, Kind, Reply};
use mesa_print::Printer;
use mesa_script::Rendered;

/// The turns of a run, and the sink that their blocks are printed on.
#[derive(Drop)]
pub struct Log<K> {
    pub printer: Printer<K>,
    pub history: Vec<Entry>,
    /// Whether some reply was a refusal.
    pub refused: bool,
}

// Whether a reply is a refusal.
fn is_refusal(reply: &Reply) -> bool
    ensures { result ≡ refuses reply.now }
{
    matches!(reply, Reply::Refused(_))
}

impl<K: Sink> Log<K> {
    /// The position of the turn that comes next.
    pub fn position(&self) -> u64
        ensures { result ≡ length self.now.history.items }
    {
        self.history.len() as u64
    }

    /// Whether the sink hasn't failed.
    pub fn runs(&self) -> bool
        ensures { result ≡ not self.now.printer.broken }
    {
        !self.printer.broken
    }

    /// Adds a turn that prints nothing. There is room for it.
    pub fn pass(&mut self, turn: Entry)
        requires { vec_len self.old.history < vec_capacity self.old.history }
        ensures items { self.new.history.items ≡ self.old.history.items ++ turn ∷ [] }
        ensures room { vec_capacity self.old.history ≤ vec_capacity self.new.history }
        ensures printer { self.new.printer ≡ self.old.printer }
        ensures refused { self.new.refused ≡ self.old.refused }
    {
        let _ = self.history.push(turn);
    }

    /// Adds a turn that tells a reply at a position, and prints its block, whose lines behind the head
    /// line are made already. There is room for it.
    pub fn tell(&mut self, turn: Entry, at: u64, reply: &Reply, body: &[u8])
        requires { vec_len self.old.history < vec_capacity self.old.history }
        ensures items { self.new.history.items ≡ self.old.history.items ++ turn ∷ [] }
        ensures room { vec_capacity self.old.history ≤ vec_capacity self.new.history }
        ensures told { (heading : Heading) → body.now ≡ body_of heading reply.now → PrintsBlock K.held K.faults self.old.printer self.new.printer turn (record { at = at; reply = reply.now; heading = heading }) }
        ensures refused { self.new.refused ≡ (self.old.refused || refuses reply.now) }
    {
        self.pass(turn);
        self.printer
            .put_block(turn.session, turn.command, at, reply, body);
        self.refused = self.refused || is_refusal(reply);
    }

    /// Adds the turn that closes a query, and prints the page that answers it at a position. There is
    /// room for it.
    pub fn answer(&mut self, turn: Entry, at: u64, version: u32, page: &Rendered)
        requires { vec_len self.old.history < vec_capacity self.old.history }
        ensures items { self.new.history.items ≡ self.old.history.items ++ turn ∷ [] }
        ensures room { vec_capacity self.old.history ≤ vec_capacity self.new.history }
        ensures put { IsPut (page_text turn at version page.now) (not self.new.printer.broken) (K.held self.old.printer.sink) (K.held self.new.printer.sink) }
        ensures goes { GoesOn K.faults self.old.printer self.new.printer }
        ensures refused { self.new.refused ≡ self.old.refused }
    {
        self.pass(turn);
        let reply = Reply::Rows {
            rows: page.rows,
            version,
            more: page.more,
        };
        let body = page.body.as_slice();
        self.printer
            .put_block(turn.session, turn.command, at, &reply, body);
    }

    /// Adds a turn that did nothing for its command, and prints why. There is room for it.
    pub fn fail(&mut self, who: Who, kind: Kind, moment: u64, failure: Failure)
        requires { vec_len self.old.history < vec_capacity self.old.history }
        ensures items { self.new.history.items ≡ self.old.history.items ++ entry who.session who.command kind (outcome_of (cause_in failure)) moment ∷ [] }
        ensures room { vec_capacity self.old.history ≤ vec_capacity self.new.history }
        ensures told { PrintsBlock K.held K.faults self.old.printer self.new.printer (entry who.session who.command kind (outcome_of (cause_in failure)) moment) (told_at (length self.old.history.items) (reply_of (cause_in failure))) }
        ensures refused { self.new.refused ≡ (self.old.refused || refuses (reply_of (cause_in failure))) }
        ensures short { IsShort (entry who.session who.command kind (outcome_of (cause_in failure)) moment) }
    {
        let turn = who.turn(kind, failure.outcome(), moment);
        let at = self.position();
        let reply = failure.into_reply();
        self.tell(turn, at, &reply, b"");
    }
}
