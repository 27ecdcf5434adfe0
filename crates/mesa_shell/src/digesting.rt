// Digests of a relation.
ghost use Rattle.mesa_shell.specs.Exit as spec;
ghost use Rattle.mesa_shell.specs.Ports.{ports};

use crate::checking::disk_of;
use crate::{Devices, Done, ended, ended_digest, ended_opening, statuses};
use mesa_delta::FileError;
use mesa_disk::{Bench, Made};
use mesa_io::Sink;
use mesa_open_files::DeltaDisk;
use mesa_recover::{OpenError, read};
use mesa_store_digest::{LookError, look};
use std::alloc::Global;

// The lines of a digest that is refused.
const NO_TABLE: &[u8] = b"digest refused no_table\n";

const NO_VERSION: &[u8] = b"digest refused future asked=latest newest=none\n";

/// Reads the store, and prints the digests of the relation of a name at the newest version, or why
/// there are none.
pub(crate) fn digest_relation<M: Made, D: DeltaDisk<M>, K: Sink, B: Bench<M>>(
    alloc: Global,
    given: Devices<K, D, B>,
    relation: &[u8],
) -> Done<K, D, B>
    ensures { spec.EndsDigest (ports K.held K.faults D.story M.bytes B.faults) given result relation.now }
{
    let Devices { out, disk, benches } = given;
    let mut opened = match read(alloc, disk) {
        Ok(opened) => opened,
        Err((error, disk)) => return ended_opening(alloc, Devices { out, disk, benches }, &error),
    };
    let looked = look(alloc, &mut opened, relation);
    let disk = disk_of(opened);
    let given = Devices { out, disk, benches };
    match looked {
        Ok((version, pair)) => ended_digest(alloc, given, relation, version, &pair),
        Err(LookError::NoTable) => ended(alloc, given, statuses::REFUSED, NO_TABLE),
        Err(LookError::NoVersion) => ended(alloc, given, statuses::REFUSED, NO_VERSION),
        Err(LookError::File(FileError::Damaged(damage))) => {
            ended_opening(alloc, given, &OpenError::File(damage))
        }
        Err(LookError::File(FileError::Read)) => ended_opening(alloc, given, &OpenError::Fault),
        Err(LookError::File(FileError::Memory)) => ended_opening(alloc, given, &OpenError::Memory),
        Err(LookError::Memory) => ended_opening(alloc, given, &OpenError::Memory),
    }
}
