// The one turn of a command that is no load, no query, no work and no recast.
ghost use Rattle.std.specs.Prelude.{◌<◌, length};
ghost use Rattle.mesa_recast_turns.specs.mesa_write_turns.Writing.{KeepsFiles};
ghost use Rattle.mesa_disk.specs.Story.{Steps};
ghost use Rattle.mesa_recast_turns.specs.mesa_history_spec.Run.{Finished, First};
ghost use Rattle.mesa_model.specs.declared.entries.Kind.TheVariants as kind;
ghost use Rattle.mesa_recast_turns.specs.mesa_history_spec.Rows.{no_rows};
ghost use Rattle.mesa_recast_turns.specs.mesa_invariant_spec.Turns.{AnswersDisk, Asks, SomeRose, Takes, is_simple};
ghost use Rattle.mesa_recast_turns.specs.mesa_invariant_spec.Invariant.{run_at};

use crate::Vault;
use crate::asked::command_of;
use crate::standing::allocator;
use mesa_disk::{Disk, Made};
use mesa_engine::{Naming, Who};
use mesa_io::Sink;
use mesa_model::{Command, Kind};
use mesa_recast_turns::{alter, expire, explain, pin, release, table, view};

impl<'s, N: Naming, M: Made, D: Disk<M>, K: Sink> Vault<'s, N, M, D, K> {
    /// The one turn of a command that is no load, no query, no work and no recast.
    pub fn simple(&mut self, who: Who)
        requires due { Asks N.script (run_at N.script (N.start no_rows) self.old.shown.history) who.session who.command First is_simple }
        requires room { length self.old.shown.history < N.room }
        ensures turn { Takes N.script (N.start no_rows) self.old.shown self.new.shown who.session who.command kind.Decide Finished }
        ensures disk { AnswersDisk N.script (N.start no_rows) self.old.shown self.new.shown (SomeRose self.old.faults self.new.faults) }
        ensures keeps { Steps KeepsFiles self.old.told self.new.told }
    {
        if !self.engine.running() {
            self.engine.skip(who, Kind::Decide);
            return;
        }
        let alloc = allocator(&self.engine);
        match command_of(self.script, who) {
            Some(Command::Table(words)) => table(alloc, &mut self.engine, who, words),
            Some(Command::View(words)) => view(alloc, &mut self.engine, who, words),
            Some(Command::Alter(words)) => alter(alloc, &mut self.engine, who, words),
            Some(Command::Explain(words)) => explain(alloc, &mut self.engine, who, words),
            Some(Command::Pin(asked)) => pin(&mut self.engine, who, *asked),
            Some(Command::Release(token)) => release(&mut self.engine, who, *token),
            Some(Command::Expire { table, version }) => {
                expire(alloc, &mut self.engine, who, table, *version)
            }
            _ => unreachable!(),
        }
    }
}
