// Checks of a store.
ghost use Rattle.std.specs.Prelude.{◌≡◌, ◌≢◌, Err, IfErr, IfOk};
ghost use Rattle.mesa_disk.specs.Story.{Unmoved};
ghost use Rattle.mesa_shell.specs.Exit as spec;
ghost use Rattle.mesa_recover.specs.Opening.{HasReason, ReadsAs};
ghost use Rattle.mesa_recover.specs.declared.error.OpenError.TheVariants as open_error;
ghost use Rattle.mesa_check.specs.Verdict.{IsFirstFault, fault_told};
ghost use Rattle.mesa_shell.specs.Ports.{ports};
ghost use Rattle.mesa_shell.specs.Unopened.{HasSameCounts};
ghost use Rattle.mesa_engine.specs.mesa_store_spec.Catalog.{Catalog};

use crate::{Devices, Done, ended_checked, ended_opening};
use mesa_check::{CheckError, Verdict, check};
use mesa_disk::{Bench, Made};
use mesa_io::Sink;
use mesa_open_files::DeltaDisk;
use mesa_recover::{OpenError, Opened, read};
use std::alloc::Global;

// The disk of a store that was read.
pub(crate) fn disk_of<D>(opened: Opened<D>) -> D
    ensures { result ≡ opened.disk }
{
    let Opened { disk, catalog, .. } = opened;
    drop(catalog);
    disk
}

// The verdict on a store, or why it can't be read; and its disk, on which nothing moved, and on which no count rose but for a fault.
fn verdict<M: Made, D: DeltaDisk<M>>(alloc: Global, disk: D) -> (Result<Verdict, OpenError>, D)
    ensures verdict { IfOk result.0 (λ v. (c : Catalog) × ReadsAs (D.story disk) c × IsFirstFault (D.story disk) c (fault_told v)) }
    ensures reason { IfErr result.0 (HasReason (D.story disk) (D.story result.1)) }
    ensures other { IfErr result.0 (λ e. e ≢ open_error.RunsFull) }
    ensures unmoved { Unmoved (D.story disk) (D.story result.1) }
    ensures quiet { result.0 ≢ Err open_error.Fault → HasSameCounts (D.story disk) (D.story result.1) }
{
    let mut opened = match read(alloc, disk) {
        Ok(opened) => opened,
        Err((error, disk)) => return (Err(error), disk),
    };
    match check(alloc, &mut opened) {
        Ok(verdict) => (Ok(verdict), disk_of(opened)),
        Err(CheckError::Read) => (Err(OpenError::Fault), disk_of(opened)),
        Err(CheckError::Memory) => (Err(OpenError::Memory), disk_of(opened)),
    }
}

/// Reads the store, and tells that it is sound, or its first fault.
pub(crate) fn check_store<M: Made, D: DeltaDisk<M>, K: Sink, B: Bench<M>>(
    alloc: Global,
    given: Devices<K, D, B>,
) -> Done<K, D, B>
    ensures { spec.EndsCheck (ports K.held K.faults D.story M.bytes B.faults) given result }
{
    let Devices { out, disk, benches } = given;
    let (verdict, disk) = verdict(alloc, disk);
    let given = Devices { out, disk, benches };
    match verdict {
        Ok(verdict) => ended_checked(alloc, given, &verdict),
        Err(error) => ended_opening(alloc, given, &error),
    }
}
