// What holds of an engine between turns, by its history.
ghost use Rattle.std.specs.Prelude.{◌≡◌, ℕ};
ghost use Rattle.mesa_core.specs.Standing.{IsCatalogAfter};
ghost use Rattle.mesa_recast_turns.specs.mesa_history_spec.Claims.{HasClaimAt, HasRanges};
ghost use Rattle.mesa_recast_turns.specs.mesa_history_spec.Run.{place_of};
ghost use Rattle.mesa_recast_turns.specs.mesa_history_spec.Rows.{no_rows};
ghost use Rattle.mesa_recast_turns.specs.mesa_invariant_spec.Turns.{IsSeen};
ghost use Rattle.mesa_recast_turns.specs.mesa_invariant_spec.Invariant.{run_at};

use mesa_disk::{Disk, Made};
use mesa_engine::{Engine, Naming};
use mesa_io::Sink;
use std::alloc::Global;

// Each entry is one that the run may have.
pub(crate) fn standing<N: Naming, M: Made, D: Disk<M>, K: Sink>(engine: &Engine<N, M, D, K>)
    ensures { IsSeen N.script (N.start no_rows) engine.now.shown }
{
    engine.log.runs();
}

// The catalogue is what the history says.
pub(crate) fn catalogue<N: Naming, M: Made, D: Disk<M>, K: Sink>(engine: &Engine<N, M, D, K>)
    ensures { IsCatalogAfter N.script N.start (N.origin no_rows).generation engine.now.shown.history engine.now.state.catalogue }
{
    engine.metadata.generation();
}

// The leases are what the history says, and so is what each session's work or recast was granted.
pub(crate) fn claims<N: Naming, M: Made, D: Disk<M>, K: Sink>(engine: &Engine<N, M, D, K>)
    ensures leases { engine.now.state.leases ≡ (run_at N.script (N.start no_rows) engine.now.shown.history).state.machine.leases }
    ensures claims { (session : ℕ) → HasClaimAt (run_at N.script (N.start no_rows) engine.now.shown.history).state (place_of (run_at N.script (N.start no_rows) engine.now.shown.history) session).stage }
    ensures ranges { HasRanges (N.start no_rows) }
{
    engine.log.runs();
}

// What allocates for it.
pub(crate) fn allocator<N: Naming, M: Made, D: Disk<M>, K: Sink>(
    engine: &Engine<N, M, D, K>,
) -> Global {
    *engine.log.history.allocator()
}
