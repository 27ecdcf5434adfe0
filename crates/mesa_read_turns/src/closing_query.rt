// A query's last turn.
ghost use Rattle.std.specs.Prelude.{◌≡◌, ◌<◌, ◌≤◌, ◌||◌, ◌++◌, ◌∷◌, [], true, false, not, is_some, length, vec_capacity, vec_len, IfErr};
ghost use Rattle.mesa_read_turns.specs.Closing.{IsPageOf, IsSomePageOf, IsToClose, cause_if, cause_of, closing_entry, closing_text};
ghost use Rattle.mesa_open_files.specs.Errors.{HasDiffered};
ghost use Rattle.mesa_engine.specs.mesa_history_spec.Run.{Finished};
ghost use Rattle.mesa_engine.specs.Turned.{answered_state};
ghost use Rattle.mesa_engine.specs.Failure.{cause_in};
ghost use Rattle.mesa_engine.specs.Printing.{GoesOn};
ghost use Rattle.mesa_engine.specs.Memory.{is_of_another};
ghost use Rattle.mesa_model.specs.Entry.{IsShort};
ghost use Rattle.mesa_model.specs.declared.entries.Kind.TheVariants as kind;
ghost use Rattle.mesa_engine.specs.mesa_history_spec.Rows.{Rows, no_rows};
ghost use Rattle.mesa_open_files.specs.GivingBack.{SomeFailed, pinned_inputs};
ghost use Rattle.mesa_engine.specs.mesa_invariant_spec.Printing.{IsPut};
ghost use Rattle.mesa_engine.specs.mesa_invariant_spec.Queries.{closing_fault, closing_outcome};
ghost use Rattle.mesa_engine.specs.mesa_invariant_spec.Turns.{AnswersDisk, SomeRose, Takes};
ghost use Rattle.mesa_engine.specs.mesa_invariant_spec.Undamaged.{is_damaged};
ghost use Rattle.mesa_engine.specs.mesa_invariant_spec.Invariant.{run_at};

use crate::damages::may_be_told;
use mesa_delta::FileError;
use mesa_disk::{Disk, Made};
use mesa_engine::{Engine, Failure, Log, Naming, Who};
use mesa_io::Sink;
use mesa_model::{Kind, Outcome};
use mesa_open_files::{Pinned, retire_pinned};
use mesa_script::Rendered;

// Why a query has no answer.
pub(crate) fn failed(error: FileError) -> Failure
    ensures { cause_in result ≡ cause_of error }
{
    match error {
        FileError::Read => Failure::Unread,
        FileError::Damaged(damage) => Failure::Damaged(damage),
        FileError::Memory => Failure::Memory,
    }
}

// Adds the turn that closes a query, and prints its page under a position, or why there is none.
fn print<K: Sink>(
    log: &mut Log<K>,
    who: Who,
    moment: u64,
    at: u64,
    version: u32,
    answered: Result<Rendered, FileError>,
)
    requires { vec_len log.old.history < vec_capacity log.old.history }
    ensures items { log.new.history.items ≡ log.old.history.items ++ closing_entry who.session who.command answered moment ∷ [] }
    ensures short { IsShort (closing_entry who.session who.command answered moment) }
    ensures room { vec_capacity log.old.history ≤ vec_capacity log.new.history }
    ensures put { IsPut (closing_text (closing_entry who.session who.command answered moment) at version answered) (not log.new.printer.broken) (K.held log.old.printer.sink) (K.held log.new.printer.sink) }
    ensures goes { GoesOn K.faults log.old.printer log.new.printer }
    ensures refused { log.new.refused ≡ (log.old.refused || is_some (cause_if answered)) }
{
    match answered {
        Ok(page) => {
            let turn = who.turn(Kind::Close, Outcome::Stands, moment);
            log.answer(turn, at, version, &page);
        }
        Err(error) => {
            let failure = failed(error);
            let turn = who.turn(Kind::Close, failure.outcome(), moment);
            let reply = failure.into_reply();
            log.tell(turn, at, &reply, b"");
        }
    }
}

/// The turn that closes a query: its page, or why there is none, is printed under the position of the
/// query's first turn, and all that was held for it is given back. Takes no memory.
pub fn close_query<N: Naming, M: Made, D: Disk<M>, K: Sink>(
    engine: &mut Engine<N, M, D, K>,
    who: Who,
    pinned: Pinned<D::Reader>,
    answered: Result<Rendered, FileError>,
)
    // The page is one under the answer's heading, at its version; on a sound store it is that of the answer, whatever rows the files had when the run began.
    requires due { (w : Rows) → IsToClose N.script (run_at N.script (N.start w) engine.old.shown.history) who.session who.command pinned.at (λ answer. IsSomePageOf answered pinned.version answer × (N.sound w → IsPageOf answered pinned.version answer)) }
    requires damaged { IfErr answered HasDiffered }
    requires read { closing_fault (cause_if answered) ≡ true → SomeFailed D.Reader.faults (pinned_inputs pinned) }
    // Nor does damage come in its place.
    requires undamaged { (w : Rows) → N.sound w → is_damaged (closing_outcome (cause_if answered)) ≡ false }
    requires room { length engine.old.shown.history < N.room }
    requires runs { engine.old.shown.running ≡ true }
    ensures turn { Takes N.script (N.start no_rows) engine.old.shown engine.new.shown who.session who.command kind.Close Finished }
    ensures disk { AnswersDisk N.script (N.start no_rows) engine.old.shown engine.new.shown (SomeRose engine.old.faults engine.new.faults) }
    // It ends as its answer says: with want of memory, a fault or damage only where that has it.
    ensures outcome { engine.new.shown.history ≡ engine.old.shown.history ++ closing_entry who.session who.command answered engine.new.shown.clock ∷ [] }
    // And it prints that answer, or of what kept it back what was handed in: no other damage.
    ensures prints { IsPut (closing_text (closing_entry who.session who.command answered engine.new.shown.clock) pinned.at pinned.version answered) engine.new.shown.running engine.old.sink engine.new.sink }
    // What the query held is given back.
    ensures state { engine.new.state ≡ answered_state engine.old.state (is_of_another who.session) }
    ensures catalogue { engine.new.state.catalogue ≡ engine.old.state.catalogue }
{
    may_be_told(&answered);
    let at = pinned.at;
    let version = pinned.version;
    retire_pinned(&mut engine.disk, pinned);
    engine.metadata.close_query(who.session);
    let moment = engine.disk.clock();
    print(&mut engine.log, who, moment, at, version, answered);
}
