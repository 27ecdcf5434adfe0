// A load's first turn.
ghost use Rattle.std.specs.Prelude.{◌≡◌, ◌<◌, true, length, IfOk};
ghost use Rattle.mesa_batch.specs.Glance.{tables_of};
ghost use Rattle.mesa_engine.specs.mesa_catalog.Lookups.{sight_of};
ghost use Rattle.mesa_engine.specs.mesa_history_spec.Run.{First, Looked};
ghost use Rattle.mesa_model.specs.declared.entries.Kind.TheVariants as kind;
ghost use Rattle.mesa_engine.specs.mesa_history_spec.Rows.{no_rows};
ghost use Rattle.mesa_engine.specs.mesa_invariant_spec.Sight.{tables_seen};
ghost use Rattle.mesa_engine.specs.mesa_invariant_spec.Turns as spec;
ghost use Rattle.mesa_engine.specs.mesa_invariant_spec.Turns.{AnswersDisk, Asks, Takes, is_load};
ghost use Rattle.mesa_engine.specs.mesa_invariant_spec.Invariant.{run_at};

use mesa_batch::Glance;
use mesa_disk::{Disk, Made};
use mesa_engine::{Engine, Naming, Who};
use mesa_io::Sink;
use mesa_model::{Kind, Outcome};
use std::alloc::AllocError;

// How a look ends.
fn looking(found: bool) -> Outcome
    ensures { result ≡ spec.looking true found }
{
    if found {
        Outcome::Stands
    } else {
        Outcome::Memory
    }
}

/// A load's first turn: what it sees of the tables, unless there is no memory.
pub fn look<N: Naming, M: Made, D: Disk<M>, K: Sink>(
    engine: &mut Engine<N, M, D, K>,
    who: Who,
) -> Result<Glance, AllocError>
    requires due { Asks N.script (run_at N.script (N.start no_rows) engine.old.shown.history) who.session who.command First is_load }
    requires room { length engine.old.shown.history < N.room }
    requires runs { engine.old.shown.running ≡ true }
    ensures turn { Takes N.script (N.start no_rows) engine.old.shown engine.new.shown who.session who.command kind.Look Looked }
    ensures disk { AnswersDisk N.script (N.start no_rows) engine.old.shown engine.new.shown ⊥ }
    ensures glance { IfOk result (λ g. g ≡ sight_of engine.new.state.catalogue) }
    ensures tables { IfOk result (λ g. tables_of g ≡ tables_seen (run_at N.script (N.start no_rows) engine.new.shown.history)) }
    ensures state { engine.new.state ≡ engine.old.state }
{
    let glance = engine.glance();
    let turn = who.turn(Kind::Look, looking(glance.is_ok()), engine.disk.clock());
    engine.log.pass(turn);
    glance
}
