// Opening a list of files once for each part of a merge.
ghost use Rattle.std.specs.Prelude.{◌≡◌, ◌-◌, ◌≤◌, ◌++◌, flat_map, IfOk, None};
ghost use Rattle.std.specs.List.{AllByRecursion};
ghost use Rattle.mesa_disk.specs.Story.{Unmoved};
ghost use Rattle.mesa_open_files.specs.GivingBack.{GivesBack, spare_inputs};
ghost use Rattle.mesa_open_files.specs.Opening.{Counted, HasEpoch};
ghost use Rattle.mesa_pick_files.specs.Gathered.{is_fault_among};
ghost use Rattle.mesa_pick_files.specs.Parts.{ArePartsOf, AreReaders, IsPartOf};

use mesa_disk::{Disk, Made};
use mesa_file::Damage;
use mesa_open_files::{
    DeltaDisk, Opened, Spare, Unopened, Wanted, open_all, retire_spare, retire_spares,
};
use std::alloc::Global;

/// Readers of a list of files, up to the first that isn't the recorded one.
pub(crate) struct Part<R> {
    pub(crate) readers: Spare<R>,
    pub(crate) damage: Option<Damage>,
}

/// Readers of a list of files for each part of a merge. No further ones stay where a file is damaged.
pub(crate) struct Parts<R> {
    pub(crate) first: Part<R>,
    pub(crate) spare: Vec<Spare<R>>,
}

/// Opens files once for each part, at least once, and one part after the other. A file that isn't the recorded one at
/// a later opening ends all: its damage is told beside the files of that opening alone.
pub(crate) fn open_parts<M: Made, D: DeltaDisk<M>>(
    alloc: Global,
    disk: &mut D,
    wanted: &[Wanted],
    parts: u8,
) -> Result<Parts<D::Reader>, Unopened>
    requires { AllByRecursion HasEpoch wanted.now }
    ensures unmoved { Unmoved (D.story disk.old) (D.story disk.new) }
    ensures counted { Counted (D.story disk.old) (D.story disk.new) (is_fault_among result) }
    ensures opened { IfOk result (ArePartsOf D.Reader.bytes D.Reader.faults (D.story disk.old).told wanted.now (parts - 1)) }
{
    let Part { readers, damage } = match open_part(alloc, disk, wanted) {
        Ok(part) => part,
        Err(unopened) => return Err(unopened),
    };
    match damage {
        Some(_) => Ok(Parts {
            first: Part { readers, damage },
            spare: Vec::new(alloc),
        }),
        None => open_further(alloc, disk, wanted, parts.saturating_sub(1), readers),
    }
}

// Opens files so many times more, all of which the first opening found whole.
fn open_further<M: Made, D: DeltaDisk<M>>(
    alloc: Global,
    disk: &mut D,
    wanted: &[Wanted],
    more: u8,
    first: Spare<D::Reader>,
) -> Result<Parts<D::Reader>, Unopened>
    requires epochs { AllByRecursion HasEpoch wanted.now }
    requires first { AreReaders D.Reader.bytes D.Reader.faults (D.story disk.old).told wanted.now None first }
    ensures unmoved { Unmoved (D.story disk.old) (D.story disk.new) }
    ensures counted { Counted (D.story disk.old) (D.story disk.new) (is_fault_among result) }
    ensures opened { IfOk result (ArePartsOf D.Reader.bytes D.Reader.faults (D.story disk.old).told wanted.now more) }
{
    let Ok(mut spare) = Vec::with_capacity(alloc, more as usize) else {
        retire_spare(disk, first);
        return Err(Unopened::Memory);
    };
    'parts: for _ in 0..more {
        match open_part(alloc, disk, wanted) {
            Ok(part) => {
                let Part { readers, damage } = part;
                match damage {
                    None => spare.push_reserved(readers),
                    Some(_) => {
                        retire_both(disk, first, spare);
                        return Ok(Parts {
                            first: Part { readers, damage },
                            spare: Vec::new(alloc),
                        });
                    }
                }
            }
            Err(unopened) => {
                retire_both(disk, first, spare);
                return Err(unopened);
            }
        }
    }
    Ok(Parts {
        first: Part {
            readers: first,
            damage: None,
        },
        spare,
    })
}

// Gives back the first part's readers, and those of further ones.
fn retire_both<M: Made, D: Disk<M>>(
    disk: &mut D,
    first: Spare<D::Reader>,
    spare: Vec<Spare<D::Reader>>,
)
    ensures unmoved { Unmoved (D.story disk.old) (D.story disk.new) }
    ensures given { GivesBack D.Reader.faults (spare_inputs first ++ flat_map spare_inputs spare.items) (D.story disk.old) (D.story disk.new) }
{
    retire_spare(disk, first);
    retire_spares(disk, spare);
}

// Opens files for one part.
fn open_part<M: Made, D: DeltaDisk<M>>(
    alloc: Global,
    disk: &mut D,
    wanted: &[Wanted],
) -> Result<Part<D::Reader>, Unopened>
    requires { AllByRecursion HasEpoch wanted.now }
    ensures unmoved { Unmoved (D.story disk.old) (D.story disk.new) }
    ensures counted { Counted (D.story disk.old) (D.story disk.new) (is_fault_among result) }
    ensures opened { IfOk result (IsPartOf D.Reader.bytes D.Reader.faults (D.story disk.old).told wanted.now) }
{
    match open_all(alloc, disk, wanted) {
        Ok(Opened { inputs, damage }) => Ok(Part {
            readers: Spare { inputs },
            damage,
        }),
        Err(unopened) => Err(unopened),
    }
}
