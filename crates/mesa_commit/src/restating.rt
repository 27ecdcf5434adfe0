ghost use Rattle.std.specs.Prelude.{◌≡◌, ◌+◌, ◌<◌, ◌≤◌, ℕ, List, [], ◌∷◌, length, IfOk, OnOk, Some};
ghost use Rattle.mesa_disk.specs.mesa_io.Causes.{HasCause, Rose};
ghost use Rattle.mesa_disk.specs.Image.{Image, area_of, InArea, AnyChange};
ghost use Rattle.mesa_disk.specs.Story.{After, Spans, Steps};
ghost use Rattle.mesa_disk.specs.declared.area.Area.{Area};
ghost use Rattle.mesa_journal.specs.Areas.{Closes, holds_body, other_of};
ghost use Rattle.mesa_journal.specs.Settled.{IsSettled};
ghost use Rattle.mesa_commit.specs.Images.{Stands};
ghost use Rattle.mesa_commit.specs.Restated.{OldOrRestated, TakesOver};

use mesa_disk::{Area, Disk, DiskFailed, Made};
use mesa_journal::{Framed, append, close_gate, other_area};

/// States a journal anew, by one body, in the area that isn't live; `holds` says whether that area holds a
/// body. Gives the end of the new journal. It takes no memory.
///
/// The area's first gate is closed first, so that nothing which the body is written over counts any more;
/// the body counts once its own gate is open, and then its greater number makes its area the live one.
pub fn restate<M: Made, D: Disk<M>>(
    disk: &mut D,
    live: Area,
    holds: bool,
    framed: &Framed,
) -> Result<u64, DiskFailed>
    requires { (i : Image) → (D.story disk.old).told ≡ Some i → holds ≡ holds_body (area_of (other_of live) i) }
    ensures end { IfOk result (λ end. end ≡ length framed.now + 5) }
    ensures longer { IfOk result (λ end. end < (D.story disk.new).len (other_of live)) }

    // At each moment, and now whatever it answers, an image has the old journal or the new one.
    ensures images { (bodies : List (List ℕ)) (end : ℕ) (files : List (ℕ × List ℕ)) → TakesOver (D.story disk.old) live bodies end files framed.now
        → Spans (OldOrRestated live bodies end files framed.now) (D.story disk.old) (D.story disk.new) }

    // After it each image, and what a read gives, has the new one.
    ensures done { OnOk result ((bodies : List (List ℕ)) (end : ℕ) (files : List (ℕ × List ℕ)) → TakesOver (D.story disk.old) live bodies end files framed.now
        → Stands (D.story disk.new) (other_of live) (framed.now ∷ []) (length framed.now + 5) files) }

    ensures told { Steps (AnyChange (other_of live)) (D.story disk.old).told (D.story disk.new).told }
    ensures other { (D.story disk.new).len live ≡ (D.story disk.old).len live }
    ensures clock { (D.story disk.old).moment ≤ (D.story disk.new).moment }
    ensures cause { HasCause (D.story disk.old).faults (D.story disk.new).faults result }
    ensures read_cause { (D.story disk.new).read_faults ≡ (D.story disk.old).read_faults }
{
    let to = other_area(live);
    make_ready(disk, to, holds)?;
    let end = append(disk, to, 0, framed)?;
    Ok(end)
}

// Closes the first gate of an area, where it has none yet or holds a body; otherwise it is closed already.
fn make_ready<M: Made, D: Disk<M>>(disk: &mut D, area: Area, holds: bool) -> Result<(), DiskFailed>
    requires { (i : Image) → (D.story disk.old).told ≡ Some i → holds ≡ holds_body (area_of area i) }
    ensures settled { OnOk result (((c : Image) → (D.story disk.old).may_leave c → (D.story disk.old).told ≡ Some c) → IsSettled (D.story disk.new) area [] 0) }
    ensures images { ((c : Image) → (D.story disk.old).may_leave c → (D.story disk.old).told ≡ Some c)
        → Spans (After (InArea area Closes) (D.story disk.old).may_leave) (D.story disk.old) (D.story disk.new) }
    ensures told { Steps (AnyChange area) (D.story disk.old).told (D.story disk.new).told }
    ensures longer { OnOk result (0 < (D.story disk.new).len area) }
    ensures other { (a : Area) → (a ≡ area → ⊥) → (D.story disk.new).len a ≡ (D.story disk.old).len a }
    ensures clock { (D.story disk.old).moment ≤ (D.story disk.new).moment }
    ensures cause { HasCause (D.story disk.old).faults (D.story disk.new).faults result }
    ensures read_cause { (D.story disk.new).read_faults ≡ (D.story disk.old).read_faults }
{
    if !holds && disk.journal_len(area) > 1 {
        return Ok(());
    }
    close_gate(disk, area)?;
    Ok(())
}
