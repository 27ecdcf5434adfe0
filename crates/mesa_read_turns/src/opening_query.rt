// A query's first turn.
ghost use Rattle.std.specs.Prelude.{◌≡◌, ◌<◌, true, length, IfNone, IfSome, OnSome};
ghost use Rattle.mesa_read_turns.specs.Opening.{HasItsFiles, IsHeaded, asked_state};
ghost use Rattle.mesa_engine.specs.mesa_history_spec.Run.{First, Finished};
ghost use Rattle.mesa_engine.specs.mesa_history_spec.Turns.{IsDue};
ghost use Rattle.mesa_model.specs.declared.commands.Command.TheVariants as command;
ghost use Rattle.mesa_model.specs.declared.entries.Kind.TheVariants as kind;
ghost use Rattle.mesa_pick_files.specs.Told.{Tells};
ghost use Rattle.mesa_columns.specs.Columns.{Columns};
ghost use Rattle.mesa_engine.specs.mesa_history_spec.Rows.{no_rows};
ghost use Rattle.mesa_open_files.specs.Pins.{IsPinned};
ghost use Rattle.mesa_engine.specs.mesa_invariant_spec.Queries.{IsOpen};
ghost use Rattle.mesa_engine.specs.mesa_invariant_spec.Turns.{AnswersDisk, IsSeen, IsTurn, SomeRose, Takes};
ghost use Rattle.mesa_engine.specs.mesa_invariant_spec.Invariant.{run_at};

use crate::holding::hold_files;
use mesa_disk::Made;
use mesa_engine::{Engine, Naming, Who};
use mesa_filter::QueryWords;
use mesa_io::Sink;
use mesa_model::{Kind, Outcome};
use mesa_open_files::{DeltaDisk, Pinned};

/// The turn that opens a query: the files that answer it, which are held until it is closed, unless the rules answer none, or a file couldn't be opened.
pub fn pin_query<N: Naming, M: Made, D: DeltaDisk<M>, K: Sink>(
    engine: &mut Engine<N, M, D, K>,
    who: Who,
    words: &QueryWords,
) -> Option<Pinned<D::Reader>>
    requires due { IsDue N.script (run_at N.script (N.start no_rows) engine.old.shown.history) who.session who.command (command.Query words.now) First }
    requires room { length engine.old.shown.history < N.room }
    requires runs { engine.old.shown.running ≡ true }
    // Whatever rows the files had when the run began, the query is answered at its files' version, under their heading, and not closed; on a sound store its files tell the answer.
    ensures opened { IfSome result (λ p. IsOpen N.script N.start engine.new.shown.history who.session who.command words.now p.at (λ w answer. IsHeaded p.query p.version answer × (N.sound w → Tells D.Reader.bytes p answer))) }
    ensures pinned { IfSome result (λ p. (s : Columns) × IsPinned D.Reader.bytes s p) }
    // They are those of the plan at the version asked, by the tables that it saw before the turn; of a view, each delta's own file of it where it has one, and else the table's.
    ensures files { IfSome result (HasItsFiles D.Reader.bytes D.Reader.faults engine.old.told engine.old.state who.session words.now) }
    ensures turn { OnSome result (IsTurn engine.old.shown engine.new.shown who.session who.command kind.Decide) }
    ensures seen { IsSeen N.script (N.start no_rows) engine.new.shown }
    ensures held { OnSome result (engine.new.state ≡ asked_state engine.old.state who.session words.now.version (length engine.old.shown.history)) }
    // Or it is over.
    ensures over { IfNone result (Takes N.script (N.start no_rows) engine.old.shown engine.new.shown who.session who.command kind.Decide Finished) }
    ensures kept { IfNone result (engine.new.state ≡ engine.old.state) }
    ensures disk { AnswersDisk N.script (N.start no_rows) engine.old.shown engine.new.shown (SomeRose engine.old.faults engine.new.faults) }
{
    let alloc = *engine.log.history.allocator();
    let at = engine.log.position();
    let held = hold_files(
        alloc,
        &mut engine.disk,
        &mut engine.metadata,
        who.session,
        words,
        at,
    );
    let moment = engine.disk.clock();
    match held {
        Ok(pinned) => {
            let turn = who.turn(Kind::Decide, Outcome::Stands, moment);
            engine.log.pass(turn);
            Some(pinned)
        }
        Err(failure) => {
            engine.log.fail(who, Kind::Decide, moment, failure);
            None
        }
    }
}
