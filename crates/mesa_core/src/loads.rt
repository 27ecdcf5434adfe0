// The turns of a load.
ghost use Rattle.std.specs.Prelude.{◌≡◌, ◌<◌, List, true, Err, Some, IfOk, OnOk, length};
ghost use Rattle.mesa_batch.specs.declared.words.RowWords.{RowWords as AnyWords};
ghost use Rattle.mesa_recast_turns.specs.mesa_write_turns.Writing.{KeepsFiles};
ghost use Rattle.mesa_disk.specs.Story.{Steps};
ghost use Rattle.mesa_recast_turns.specs.mesa_history_spec.Run.{Finished, First, Looked, command_at};
ghost use Rattle.mesa_model.specs.declared.commands.Command.TheVariants as command;
ghost use Rattle.mesa_model.specs.declared.entries.Kind.TheVariants as kind;
ghost use Rattle.mesa_core.specs.Sight.{sight_after};
ghost use Rattle.mesa_recast_turns.specs.mesa_history_spec.Rows.{no_rows};
ghost use Rattle.mesa_open_files.specs.Batches.{HasPrepared};
ghost use Rattle.mesa_open_files.specs.declared.prepared.LoadError.TheVariants as load;
ghost use Rattle.mesa_recast_turns.specs.mesa_invariant_spec.Turns.{AnswersDisk, AnswersDraft, Asks, SomeRose, Takes, is_load};
ghost use Rattle.mesa_recast_turns.specs.mesa_invariant_spec.Invariant.{run_at};

use crate::Vault;
use crate::asked::rows_of;
use crate::standing::{allocator, catalogue};
use mesa_batch::Glance;
use mesa_disk::{Disk, Made};
use mesa_engine::{Naming, Who};
use mesa_io::Sink;
use mesa_model::Kind;
use mesa_open_files::{LoadError, Prepared};
use mesa_recast_turns::{look, publish};
use std::alloc::AllocError;

impl<'s, N: Naming, M: Made, D: Disk<M>, K: Sink> Vault<'s, N, M, D, K> {
    /// A load's first turn: what it sees of the tables.
    pub fn look(&mut self, who: Who) -> Result<Glance, AllocError>
        requires due { Asks N.script (run_at N.script (N.start no_rows) self.old.shown.history) who.session who.command First is_load }
        requires room { length self.old.shown.history < N.room }
        ensures turn { Takes N.script (N.start no_rows) self.old.shown self.new.shown who.session who.command kind.Look Looked }
        ensures disk { AnswersDisk N.script (N.start no_rows) self.old.shown self.new.shown (SomeRose self.old.faults self.new.faults) }
        ensures ran { OnOk result (self.old.shown.running ≡ true) }
        ensures glance { IfOk result (λ g. g ≡ sight_after N.script (N.start no_rows) (N.origin no_rows).generation self.new.shown.history) }
    {
        if !self.engine.running() {
            self.engine.skip(who, Kind::Look);
            return Err(AllocError);
        }
        let glance = look(&mut self.engine, who);
        catalogue(&self.engine);
        glance
    }

    /// A load's deciding turn: its rows, as they were read by the tables of this moment.
    pub fn publish(&mut self, who: Who, made: Result<Prepared<M>, LoadError>)
        requires due { Asks N.script (run_at N.script (N.start no_rows) self.old.shown.history) who.session who.command Looked is_load }
        requires made { (rows : List AnyWords) → command_at N.script who.session who.command ≡ Some (command.Load rows)
            → HasPrepared M.bytes M.id_of (sight_after N.script (N.start no_rows) (N.origin no_rows).generation self.old.shown.history) rows made }
        requires room { length self.old.shown.history < N.room }
        ensures turn { Takes N.script (N.start no_rows) self.old.shown self.new.shown who.session who.command kind.Decide Finished }
        ensures disk { AnswersDisk N.script (N.start no_rows) self.old.shown self.new.shown (SomeRose self.old.faults self.new.faults) }
        ensures keeps { Steps KeepsFiles self.old.told self.new.told }
        ensures draft { AnswersDraft N.script (N.start no_rows) self.old.shown self.new.shown who.session (made ≡ Err load.Draft) }
    {
        if !self.engine.running() {
            self.engine.skip(who, Kind::Decide);
            return;
        }
        catalogue(&self.engine);
        let alloc = allocator(&self.engine);
        let rows = rows_of(self.script, who);
        publish(alloc, &mut self.engine, who, rows, made);
    }
}
