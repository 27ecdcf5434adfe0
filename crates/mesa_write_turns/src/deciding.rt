// The turn of a command that brings no files.
ghost use Rattle.std.specs.Prelude.{◌≡◌, ◌<◌, true, length};
ghost use Rattle.std.specs.Fn.{FnOnceReturnsAt};
ghost use Rattle.mesa_disk.specs.Story.{Steps};
ghost use Rattle.mesa_file_records.specs.mesa_history_spec.Run.{Finished};
ghost use Rattle.mesa_model.specs.declared.entries.Kind.TheVariants as kind;
ghost use Rattle.mesa_file_records.specs.mesa_history_spec.Rows.{no_rows};
ghost use Rattle.mesa_engine.specs.mesa_invariant_spec.Turns.{AnswersDisk, SomeRose, Takes};
ghost use Rattle.mesa_engine.specs.mesa_invariant_spec.Invariant.{run_at};
ghost use Rattle.mesa_write_turns.specs.Ruling.{IsRuledBy};
ghost use Rattle.mesa_write_turns.specs.Writing.{KeepsFiles};

use crate::writing::{Change, write};
use mesa_disk::{Disk, Made};
use mesa_engine::{Engine, Failure, Metadata, Naming, Who};
use mesa_io::Sink;
use mesa_model::Kind;
use mesa_validate::Ruled;
use std::alloc::Global;

// The one turn of a command, which a rule decides.
pub(crate) fn decide<
    N: Naming,
    M: Made,
    D: Disk<M>,
    K: Sink,
    F: FnOnce(&Metadata) -> Result<Ruled, Failure>,
>(alloc: Global, engine: &mut Engine<N, M, D, K>, who: Who, rule: F)
    requires callable { F.IsAlwaysCallable rule }
    requires ruled { IsRuledBy N.script (run_at N.script (N.start no_rows) engine.old.shown.history) who.session who.command (FnOnceReturnsAt F.FnOnce rule) }
    requires room { length engine.old.shown.history < N.room }
    requires runs { engine.old.shown.running ≡ true }
    ensures turn { Takes N.script (N.start no_rows) engine.old.shown engine.new.shown who.session who.command kind.Decide Finished }
    ensures disk { AnswersDisk N.script (N.start no_rows) engine.old.shown engine.new.shown (SomeRose engine.old.faults engine.new.faults) }
    ensures keeps { Steps KeepsFiles engine.old.told engine.new.told }
{
    match rule(&engine.metadata) {
        Ok(Ruled { writes, tells }) => {
            let adopted = engine.metadata.adopted();
            let change = Change {
                writes,
                made: Vec::new(alloc),
                adopted,
                tells,
            };
            write(alloc, engine, who, change);
        }
        Err(failure) => engine.fail(who, Kind::Decide, failure),
    }
}
