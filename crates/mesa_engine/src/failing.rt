// Turns that do nothing for their command.
ghost use Rattle.std.specs.Prelude.{◌≡◌, ◌<◌, true, false, length};
ghost use Rattle.mesa_engine.specs.Failing.{Comes, Fails};
ghost use Rattle.mesa_invariant_spec.specs.mesa_history_spec.Run.{Finished, Stage};
ghost use Rattle.mesa_engine.specs.EngineState.{books_of};
ghost use Rattle.mesa_engine.specs.Failure.{cause_in};
ghost use Rattle.mesa_invariant_spec.specs.mesa_history_spec.Rows.{Rows, no_rows};
ghost use Rattle.mesa_invariant_spec.specs.Turns.{AnswersDisk, AnswersDraft, Takes};
ghost use Rattle.mesa_invariant_spec.specs.Invariant.{run_at};

use crate::{Engine, Failure, Naming, Who};
use mesa_disk::{Disk, Made};
use mesa_io::Sink;
use mesa_model::{Kind, Outcome};

impl<N: Naming, M: Made, D: Disk<M>, K: Sink> Engine<N, M, D, K> {
    /// A turn of a session once the sink has failed: nothing is done, and the session is cut off.
    pub fn skip(&mut self, who: Who, kind: Kind)
        requires due { (w : Rows) → Comes N.script (run_at N.script (N.start w) self.old.shown.history) who.session who.command kind }
        requires room { length self.old.shown.history < N.room }
        requires failed { self.old.shown.running ≡ false }
        ensures turn { (stage : Stage) → Takes N.script (N.start no_rows) self.old.shown self.new.shown who.session who.command kind stage }
        ensures draft { AnswersDraft N.script (N.start no_rows) self.old.shown self.new.shown who.session ⊥ }
        ensures disk { AnswersDisk N.script (N.start no_rows) self.old.shown self.new.shown ⊥ }
        ensures state { self.new.state ≡ self.old.state }
        ensures told { self.new.told ≡ self.old.told }
    {
        let turn = who.turn(kind, Outcome::Skipped, self.disk.clock());
        self.log.pass(turn);
    }

    /// A turn that does nothing for its command, and prints why.
    pub fn fail(&mut self, who: Who, kind: Kind, failure: Failure)
        requires fails { Fails N.script (run_at N.script (N.start no_rows) self.old.shown.history) (books_of no_rows self.old.state) (length self.old.shown.history) who.session who.command kind (cause_in failure) }
        requires room { length self.old.shown.history < N.room }
        requires runs { self.old.shown.running ≡ true }
        ensures turn { Takes N.script (N.start no_rows) self.old.shown self.new.shown who.session who.command kind Finished }
        ensures draft { AnswersDraft N.script (N.start no_rows) self.old.shown self.new.shown who.session ⊥ }
        ensures disk { AnswersDisk N.script (N.start no_rows) self.old.shown self.new.shown ⊥ }
        ensures state { self.new.state ≡ self.old.state }
        ensures told { self.new.told ≡ self.old.told }
    {
        let moment = self.disk.clock();
        self.log.fail(who, kind, moment, failure);
    }
}
