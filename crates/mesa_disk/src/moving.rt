ghost use Rattle.std.specs.Prelude.{◌≡◌, ◌≤◌, ℕ, List, Some, OnOk, OnErr};
ghost use Rattle.mesa_disk.specs.declared.area.Area.{Area};
ghost use Rattle.mesa_disk.specs.Image.{Image};
ghost use Rattle.mesa_disk.specs.Files.{files_of, AddsAll, AddsFirst, AddsSome, AreAbsent, AreGone, AreThere, HasDistinctIds, HasOtherIds, IsNoneOf, LosesAll, LosesFirst, LosesSome, OthersStay};
ghost use Rattle.mesa_disk.specs.Story.{Steps, After, Follows, Elapses};
ghost use Rattle.mesa_io.specs.Causes.{HasCause, Rose};

use crate::{Disk, DiskFailed, FileId, Made};

/// A finished file and the id under which it is adopted.
#[derive(Drop)]
pub struct Adoption<M: Drop> {
    pub made: M,
    pub id: FileId,
}

/// Adopts each file in order until one fails; the rest is dropped.
pub fn adopt_all<M: Made, D: Disk<M>>(
    disk: &mut D,
    made: Vec<Adoption<M>>,
) -> Result<(), DiskFailed>
    requires distinct { HasDistinctIds (files_of M.bytes made.items) }
    requires new { (i : Image) → (D.story disk.old).told ≡ Some i → AreAbsent (files_of M.bytes made.items) i }

    // After it a read gives each file.
    ensures adopted { OnOk result (Steps (AddsAll (files_of M.bytes made.items)) (D.story disk.old).told (D.story disk.new).told) }
    ensures all { OnOk result ((i : Image) → (D.story disk.new).told ≡ Some i → AreThere (files_of M.bytes made.items) i) }

    // Whatever it answers, a read gives the first few of them more, and else what it gave before.
    ensures partly { Steps (AddsFirst (files_of M.bytes made.items)) (D.story disk.old).told (D.story disk.new).told }
    ensures only { Steps (OthersStay (λ id. HasOtherIds id (files_of M.bytes made.items))) (D.story disk.old).told (D.story disk.new).told }

    // A crash at any moment, and whatever it answers a crash now, leaves what one before would have left, with none, some or all of the files.
    ensures any_moment { Elapses (After (AddsSome (files_of M.bytes made.items)) (D.story disk.old).may_leave) (D.story disk.old) (D.story disk.new) }
    ensures left { Follows (AddsSome (files_of M.bytes made.items)) (D.story disk.old).may_leave (D.story disk.new).may_leave }

    ensures len { (a : Area) → (D.story disk.new).len a ≡ (D.story disk.old).len a }
    ensures clock { OnErr result (Rose (D.story disk.old).moment (D.story disk.new).moment) }
    ensures cause { HasCause (D.story disk.old).faults (D.story disk.new).faults result }
    ensures read_cause { (D.story disk.new).read_faults ≡ (D.story disk.old).read_faults }
{
    for adoption in made {
        disk.adopt(adoption.made, adoption.id)?;
    }
    Ok(())
}

/// Removes each file in order until one fails.
pub fn remove_all<M: Made, D: Disk<M>>(disk: &mut D, ids: &[FileId]) -> Result<(), DiskFailed>
    ensures removed { OnOk result (Steps (LosesAll ids.now) (D.story disk.old).told (D.story disk.new).told) }

    ensures all { OnOk result ((i : Image) → (D.story disk.new).told ≡ Some i → AreGone ids.now i) }

    // Whatever it answers, a read gives the first few of them no more, and else what it gave before.
    ensures partly { Steps (LosesFirst ids.now) (D.story disk.old).told (D.story disk.new).told }
    ensures only { Steps (OthersStay (IsNoneOf ids.now)) (D.story disk.old).told (D.story disk.new).told }

    // A crash at any moment, and whatever it answers a crash now, leaves what one before would have left, with none, some or all of the files missing.
    ensures any_moment { Elapses (After (LosesSome ids.now) (D.story disk.old).may_leave) (D.story disk.old) (D.story disk.new) }
    ensures left { Follows (LosesSome ids.now) (D.story disk.old).may_leave (D.story disk.new).may_leave }

    ensures len { (a : Area) → (D.story disk.new).len a ≡ (D.story disk.old).len a }
    ensures cause { HasCause (D.story disk.old).faults (D.story disk.new).faults result }
    ensures read_cause { (D.story disk.new).read_faults ≡ (D.story disk.old).read_faults }
{
    for id in ids {
        disk.remove(*id)?;
    }
    Ok(())
}
