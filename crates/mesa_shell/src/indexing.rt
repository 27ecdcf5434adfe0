// A call over a disk that keeps the indexes of its files.
ghost use Rattle.std.specs.Prelude.{◌≡◌};

use crate::{Devices, Done};
use mesa_disk::{Disk, Made};
use mesa_index_cache::IndexedDisk;
use std::alloc::Global;

/// The devices, with a disk that keeps indexes.
pub(crate) fn with_indexes<M: Made, D: Disk<M>, K, B>(
    alloc: Global,
    given: Devices<K, D, B>,
) -> Devices<K, IndexedDisk<M, D>, B>
    ensures { result ≡ given }
{
    let Devices { out, disk, benches } = given;
    let disk = IndexedDisk::new(alloc, disk);
    Devices { out, disk, benches }
}

/// What a call leaves, with the disk itself.
pub(crate) fn without_indexes<M: Made, D: Disk<M>, K, B>(
    done: Done<K, IndexedDisk<M, D>, B>,
) -> Done<K, D, B>
    ensures { result ≡ done }
{
    let Done {
        status,
        out,
        disk,
        benches,
        history,
    } = done;
    let disk = disk.into_inner();
    Done {
        status,
        out,
        disk,
        benches,
        history,
    }
}
