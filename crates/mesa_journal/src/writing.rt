ghost use Rattle.std.specs.Prelude.{◌≡◌, ◌+◌, ◌<◌, ◌≤◌, ℕ, List, [], ◌∷◌, ◌++◌, length, IfOk, OnOk, Some};
ghost use Rattle.mesa_disk.specs.mesa_io.Causes.{Rose, HasCause};
ghost use Rattle.mesa_disk.specs.Story.{Steps, After, Follows, Elapses};
ghost use Rattle.mesa_disk.specs.Image.{Image, area_of, InArea, AnyChange};
ghost use Rattle.mesa_disk.specs.declared.area.Area.{Area};
ghost use Rattle.mesa_disk.specs.mesa_key.Spelling.{AreBytes};
ghost use Rattle.mesa_journal.specs.Areas.{MayClose, Closes};
ghost use Rattle.mesa_journal.specs.Settled.{IsSettled, IsWithinAppend};

use crate::Framed;
use mesa_disk::{Area, Disk, DiskFailed, Made};

/// Adds a body behind the gate at `end`, which it opens once the body is on the disk. Gives the new end.
///
/// What is said of bodies holds where the area's bodies end at `end`, in what a read gives and in each
/// image that a crash may leave, with a gate there that isn't open.
pub fn append<M: Made, D: Disk<M>>(
    disk: &mut D,
    area: Area,
    end: u64,
    framed: &Framed,
) -> Result<u64, DiskFailed>
    requires { end < (D.story disk.old).len area }
    ensures end { IfOk result (λ new_end. new_end ≡ end + length framed.now + 5) }
    ensures bytes { AreBytes framed.now }

    // After it a read gives one body more, and each image has it.
    ensures acknowledged { OnOk result ((bodies : List (List ℕ)) → IsSettled (D.story disk.old) area bodies end
        → IsSettled (D.story disk.new) area (bodies ++ framed.now ∷ []) (end + length framed.now + 5)) }

    // A crash at any moment, and whatever it answers a crash now, leaves the bodies without this one, and all else as a crash before would have left it; or with this one, and all else as a read gave it.
    ensures any_moment { (bodies : List (List ℕ)) → IsSettled (D.story disk.old) area bodies end
        → Elapses (IsWithinAppend (D.story disk.old) area bodies end framed.now) (D.story disk.old) (D.story disk.new) }
    ensures left { (bodies : List (List ℕ)) → IsSettled (D.story disk.old) area bodies end
        → (c : Image) → (D.story disk.new).may_leave c → IsWithinAppend (D.story disk.old) area bodies end framed.now c }

    ensures durable { OnOk result ((c : Image) → (D.story disk.new).may_leave c → (D.story disk.new).told ≡ Some c) }
    ensures told { Steps (AnyChange area) (D.story disk.old).told (D.story disk.new).told }
    ensures longer { IfOk result (λ new_end. new_end < (D.story disk.new).len area) }
    ensures other { (a : Area) → (a ≡ area → ⊥) → (D.story disk.new).len a ≡ (D.story disk.old).len a }
    ensures clock { Rose (D.story disk.old).moment (D.story disk.new).moment }
    ensures cause { HasCause (D.story disk.old).faults (D.story disk.new).faults result }
    ensures read_cause { (D.story disk.new).read_faults ≡ (D.story disk.old).read_faults }
{
    let bytes = framed.behind_gate();
    disk.journal_write(area, end + 1, bytes)?;
    disk.journal_sync()?; // the body is on the disk before its gate is opened
    disk.journal_write(area, end, framed.gate())?;
    disk.journal_sync()?; // and the gate before the body is acknowledged
    Ok(end + bytes.len() as u64)
}

/// Closes the first gate of an area: of one of no or one byte, which has none yet, or of one whose bodies
/// are to count no more.
pub fn close_gate<M: Made, D: Disk<M>>(disk: &mut D, area: Area) -> Result<(), DiskFailed>
    requires { (i : Image) → (D.story disk.old).told ≡ Some i → MayClose (area_of area i) }
    ensures settled { OnOk result (IsSettled (D.story disk.new) area [] 0) }

    // A crash at any moment, and whatever it answers a crash now, leaves an area without a body or the area as it was, and all else as a crash before would have left it.
    ensures any_moment { ((c : Image) → (D.story disk.old).may_leave c → MayClose (area_of area c))
        → Elapses (After (InArea area Closes) (D.story disk.old).may_leave) (D.story disk.old) (D.story disk.new) }
    ensures left { ((c : Image) → (D.story disk.old).may_leave c → MayClose (area_of area c))
        → Follows (InArea area Closes) (D.story disk.old).may_leave (D.story disk.new).may_leave }

    ensures durable { OnOk result ((c : Image) → (D.story disk.new).may_leave c → (D.story disk.new).told ≡ Some c) }
    ensures told { Steps (AnyChange area) (D.story disk.old).told (D.story disk.new).told }
    ensures longer { OnOk result (0 < (D.story disk.new).len area) }
    ensures other { (a : Area) → (a ≡ area → ⊥) → (D.story disk.new).len a ≡ (D.story disk.old).len a }
    ensures clock { Rose (D.story disk.old).moment (D.story disk.new).moment }
    ensures cause { HasCause (D.story disk.old).faults (D.story disk.new).faults result }
    ensures read_cause { (D.story disk.new).read_faults ≡ (D.story disk.old).read_faults }
{
    disk.journal_write(area, 0, &[0])?;
    disk.journal_sync()
}
