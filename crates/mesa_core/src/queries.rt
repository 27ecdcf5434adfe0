// The turns of a query.
ghost use Rattle.std.specs.Prelude.{◌≡◌, ◌<◌, ◌++◌, ◌∷◌, [], true, length, IfSome, Some};
ghost use Rattle.mesa_recast_turns.specs.mesa_read_turns.Closing.{closing_entry, closing_text};
ghost use Rattle.mesa_recast_turns.specs.mesa_read_turns.Opening.{HasItsFiles};
ghost use Rattle.mesa_core.specs.Handing.{Tells};
ghost use Rattle.mesa_recast_turns.specs.mesa_history_spec.Legal.{is_query};
ghost use Rattle.mesa_filter.specs.declared.words.QueryWords.{QueryWords};
ghost use Rattle.mesa_recast_turns.specs.mesa_history_spec.Run.{Finished, First, command_at};
ghost use Rattle.mesa_model.specs.declared.commands.Command.TheVariants as command;
ghost use Rattle.mesa_model.specs.declared.entries.Kind.TheVariants as kind;
ghost use Rattle.mesa_core.specs.Pins.{HasAnswered, IsOpenQuery, TakesQuery, known_pin};
ghost use Rattle.mesa_recast_turns.specs.mesa_history_spec.Rows.{no_rows};
ghost use Rattle.mesa_recast_turns.specs.mesa_invariant_spec.Printing.{IsPut};
ghost use Rattle.mesa_recast_turns.specs.mesa_invariant_spec.Turns.{AnswersDisk, Asks, SomeRose, Takes};
ghost use Rattle.mesa_recast_turns.specs.mesa_invariant_spec.Invariant.{run_at};

use crate::Vault;
use crate::asked::words_of;
use mesa_delta::FileError;
use mesa_disk::{Disk, Made};
use mesa_engine::{Naming, Who};
use mesa_io::Sink;
use mesa_model::Kind;
use mesa_open_files::{DeltaDisk, Pinned};
use mesa_recast_turns::{close_query, give_back_query, pin_query};
use mesa_script::Rendered;

impl<'s, N: Naming, M: Made, D: DeltaDisk<M>, K: Sink> Vault<'s, N, M, D, K> {
    /// A query's deciding turn: the files that answer it. They have to come back by `close_query`.
    pub fn pin_query(&mut self, who: Who) -> Option<Pinned<D::Reader>>
        requires due { Asks N.script (run_at N.script (N.start no_rows) self.old.shown.history) who.session who.command First is_query }
        requires room { length self.old.shown.history < N.room }
        ensures turn { TakesQuery D.Reader.bytes N.script N.start (λ past. Tells N.sound) self.old.shown self.new.shown who.session who.command result }
        ensures disk { AnswersDisk N.script (N.start no_rows) self.old.shown self.new.shown (SomeRose self.old.faults self.new.faults) }
        // They are those of the plan at the version asked, by the tables that the query saw before the turn.
        ensures files { (words : QueryWords) → command_at N.script who.session who.command ≡ Some (command.Query words) → IfSome result (HasItsFiles D.Reader.bytes D.Reader.faults self.old.told self.old.state who.session words) }
    {
        if !self.engine.running() {
            self.engine.skip(who, Kind::Decide);
            return None;
        }
        let words = words_of(self.script, who);
        pin_query(&mut self.engine, who, words)
    }
}

impl<'s, N: Naming, M: Made, D: Disk<M>, K: Sink> Vault<'s, N, M, D, K> {
    /// A query's last turn, in which its answer is printed. Takes no memory.
    pub fn close_query(
        &mut self,
        who: Who,
        pinned: Pinned<D::Reader>,
        answer: Result<Rendered, FileError>,
    )
        requires open { IsOpenQuery N.script N.start self.old.shown.history who.session who.command pinned.at (λ past. Tells N.sound (known_pin D.Reader.bytes pinned)) }
        requires answer { HasAnswered D.Reader.bytes D.Reader.faults pinned answer }
        requires room { length self.old.shown.history < N.room }
        ensures turn { Takes N.script (N.start no_rows) self.old.shown self.new.shown who.session who.command kind.Close Finished }
        ensures disk { AnswersDisk N.script (N.start no_rows) self.old.shown self.new.shown (SomeRose self.old.faults self.new.faults) }
        // It ends as its answer says, with want of memory, a fault or damage only where that has it, and prints it: its page, or what kept it back.
        ensures outcome { self.old.shown.running ≡ true → self.new.shown.history ≡ self.old.shown.history ++ closing_entry who.session who.command answer self.new.shown.clock ∷ [] }
        ensures prints { self.old.shown.running ≡ true → IsPut (closing_text (closing_entry who.session who.command answer self.new.shown.clock) pinned.at pinned.version answer) self.new.shown.running self.old.sink self.new.sink }
    {
        if !self.engine.running() {
            self.engine.skip(who, Kind::Close);
            give_back_query(&mut self.engine, pinned);
            return;
        }
        close_query(&mut self.engine, who, pinned, answer);
    }
}
