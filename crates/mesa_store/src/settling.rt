ghost use Rattle.std.specs.Prelude.{◌≡◌, ◌<◌, ◌≤◌, ℕ, List, OnOk, Some};
ghost use Rattle.mesa_commit.specs.mesa_io.Causes.{HasCause};
ghost use Rattle.mesa_disk.specs.Image.{AnyChange, Image};
ghost use Rattle.mesa_disk.specs.Story.{Spans, Steps};
ghost use Rattle.mesa_disk.specs.declared.area.Area.{Area};
ghost use Rattle.mesa_store_spec.specs.Catalog.{Catalog};
ghost use Rattle.mesa_store_spec.specs.Contents.{Rows, kept_of};
ghost use Rattle.mesa_store_spec.specs.Sound.{StandsFor};
ghost use Rattle.mesa_store_spec.specs.Held.{IsHeld};
ghost use Rattle.mesa_store.specs.Store.{IsFound};

use mesa_disk::{Area, Disk, DiskFailed, Made};
use mesa_journal::close_gate;

/// Makes what a read gives the only image that a crash leaves, with a closed gate behind the bodies of its
/// live area.
pub fn settle<M: Made, D: Disk<M>>(disk: &mut D, live: Area) -> Result<(), DiskFailed>
    // At each moment, and now whatever it answers, an image stands for what was found.
    ensures images { (bodies : List (List ℕ)) (end : ℕ) (c : Catalog) (rows : Rows) → IsFound (D.story disk.old) live bodies end c rows → Spans (λ x. StandsFor x (kept_of rows c)) (D.story disk.old) (D.story disk.new) }
    ensures done { OnOk result ((bodies : List (List ℕ)) (end : ℕ) (c : Catalog) (rows : Rows) → IsFound (D.story disk.old) live bodies end c rows → IsHeld (D.story disk.new) live bodies end c rows) }

    // A read gives each file as before.
    ensures told { Steps (AnyChange live) (D.story disk.old).told (D.story disk.new).told }
    ensures alone { OnOk result ((x : Image) → (D.story disk.new).may_leave x → (D.story disk.new).told ≡ Some x) }

    ensures longer { OnOk result (0 < (D.story disk.new).len live) }
    ensures kept { OnOk result ((D.story disk.old).len live ≤ (D.story disk.new).len live) }
    ensures other { (a : Area) → (a ≡ live → ⊥) → (D.story disk.new).len a ≡ (D.story disk.old).len a }
    ensures clock { (D.story disk.old).moment ≤ (D.story disk.new).moment }
    ensures cause { HasCause (D.story disk.old).faults (D.story disk.new).faults result }
    ensures read_cause { (D.story disk.new).read_faults ≡ (D.story disk.old).read_faults }
{
    disk.journal_sync()?;
    if disk.journal_len(live) > 1 {
        return Ok(());
    }
    close_gate(disk, live)?; // an area without a record has no gate yet that a first one could follow
    Ok(())
}
