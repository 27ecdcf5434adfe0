// Giving back what a query was handed.
ghost use Rattle.std.specs.Prelude.{◌≡◌};
ghost use Rattle.mesa_engine.specs.mesa_invariant_spec.Turns.{NoneFell};

use mesa_disk::{Disk, Made};
use mesa_engine::{Engine, Naming};
use mesa_io::Sink;
use mesa_open_files::{Pinned, retire_pinned};

/// Gives back the readers of a query. Those that have failed are counted by the disk.
pub fn give_back_query<N: Naming, M: Made, D: Disk<M>, K: Sink>(
    engine: &mut Engine<N, M, D, K>,
    pinned: Pinned<D::Reader>,
)
    ensures shown { engine.new.shown ≡ engine.old.shown }
    ensures state { engine.new.state ≡ engine.old.state }
    ensures told { engine.new.told ≡ engine.old.told }
    ensures sink { engine.new.sink ≡ engine.old.sink }
    ensures faults { NoneFell engine.old.faults engine.new.faults }
{
    retire_pinned(&mut engine.disk, pinned);
}
