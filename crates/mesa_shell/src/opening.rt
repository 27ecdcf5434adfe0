// Opening a store for a run.
ghost use Rattle.std.specs.Prelude.{IfErr, IfOk};
ghost use Rattle.mesa_shell.specs.Unopened.{IsUnopened};
ghost use Rattle.mesa_shell.specs.Begun.{HasBegun};

use mesa_disk::{Disk, Made};
use mesa_recover::{Begun, OpenError, begin, read};
use std::alloc::Global;

/// Reads a store, and begins a run on it.
pub(crate) fn open<M: Made, D: Disk<M>>(alloc: Global, disk: D) -> Result<Begun<D>, (OpenError, D)>
    ensures begun { IfOk result (HasBegun D.story (D.story disk)) }
    ensures unopened { IfErr result (λ e. IsUnopened (D.story disk) (D.story e.1) e.0) }
{
    match read(alloc, disk) {
        Ok(opened) => begin(alloc, opened),
        Err(failed) => Err(failed),
    }
}
