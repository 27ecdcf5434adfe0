ghost use Rattle.std.specs.Prelude.{◌≡◌, ◌+◌, ◌<◌, ◌≤◌, ℕ, List, [], ◌∷◌, length, IfOk, OnOk, Some};
ghost use Rattle.mesa_commit.specs.mesa_io.Causes.{HasCause};
ghost use Rattle.mesa_disk.specs.Image.{AnyChange, Image, area_of};
ghost use Rattle.mesa_disk.specs.Story.{Spans, Steps};
ghost use Rattle.mesa_journal.specs.Areas.{holds_body, other_of};
ghost use Rattle.mesa_store_spec.specs.Catalog.{Catalog};
ghost use Rattle.mesa_store_spec.specs.Contents.{Rows, kept_of};
ghost use Rattle.mesa_store_spec.specs.Sound.{StandsFor};
ghost use Rattle.mesa_store_spec.specs.Held.{IsHeld};
ghost use Rattle.mesa_store.specs.Store.{Restates};

use mesa_disk::{Area, Disk, DiskFailed, Made};
use mesa_journal::Framed;

/// Writes a checkpoint of a store into the area that isn't live, which is live from then on; `holds` says
/// whether that area holds a body. Gives the end of the new journal. It takes no memory.
pub fn restate<M: Made, D: Disk<M>>(
    disk: &mut D,
    live: Area,
    holds: bool,
    framed: &Framed,
) -> Result<u64, DiskFailed>
    requires { (i : Image) → (D.story disk.old).told ≡ Some i → holds ≡ holds_body (area_of (other_of live) i) }
    ensures end { IfOk result (λ end. end ≡ length framed.now + 5) }
    ensures longer { IfOk result (λ end. end < (D.story disk.new).len (other_of live)) }

    // At each moment, and now whatever it answers, an image stands for what it stood for.
    ensures images { (bodies : List (List ℕ)) (end : ℕ) (c : Catalog) (rows : Rows) → Restates (D.story disk.old) live bodies end c rows framed.now
        → Spans (λ x. StandsFor x (kept_of rows c)) (D.story disk.old) (D.story disk.new) }

    // After it the disk holds the same store in the other area.
    ensures done { OnOk result ((bodies : List (List ℕ)) (end : ℕ) (c : Catalog) (rows : Rows) → Restates (D.story disk.old) live bodies end c rows framed.now
        → IsHeld (D.story disk.new) (other_of live) (framed.now ∷ []) (length framed.now + 5) c rows) }

    // A read gives each file as before.
    ensures told { Steps (AnyChange (other_of live)) (D.story disk.old).told (D.story disk.new).told }
    ensures clock { (D.story disk.old).moment ≤ (D.story disk.new).moment }
    ensures cause { HasCause (D.story disk.old).faults (D.story disk.new).faults result }
    ensures read_cause { (D.story disk.new).read_faults ≡ (D.story disk.old).read_faults }
{
    let end = mesa_commit::restate(disk, live, holds, framed)?;
    Ok(end)
}
