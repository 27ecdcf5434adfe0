ghost use Rattle.std.specs.Prelude.{◌≡◌, ◌+◌, ◌<◌, ◌≤◌, ℕ, List, [], ◌∷◌, length, IfOk, OnOk, Some, Option};
ghost use Rattle.mesa_commit.specs.mesa_io.Causes.{HasCause};
ghost use Rattle.mesa_disk.specs.Image.{Image, area_of, file_of};
ghost use Rattle.mesa_disk.specs.Story.{Spans, Steps};
ghost use Rattle.mesa_disk.specs.declared.area.Area.{Area};
ghost use Rattle.mesa_journal.specs.Areas.{holds_body, other_of};
ghost use Rattle.mesa_store_spec.specs.Catalog.{Catalog};
ghost use Rattle.mesa_store_spec.specs.Contents.{Rows, kept_of};
ghost use Rattle.mesa_store_spec.specs.Sound.{StandsFor};
ghost use Rattle.mesa_store_spec.specs.Held.{IsHeld};
ghost use Rattle.mesa_store.specs.Store.{IsFound, StatesIfAny, area_after, bodies_after, end_after};

use crate::{restate, settle};
use mesa_disk::{Area, Disk, DiskFailed, Made};
use mesa_journal::{Framed, other_area};

/// Makes what a read gives the only image that a crash leaves, and where a checkpoint is given states the
/// journal anew by it in the other area; `holds` says whether that area holds a body. Gives the area in
/// which the store goes on, and where its journal ends.
pub fn carry_on<M: Made, D: Disk<M>>(
    disk: &mut D,
    live: Area,
    holds: bool,
    checkpoint: Option<Framed>,
    end: u64,
) -> Result<(Area, u64), DiskFailed>
    requires gate { 1 < (D.story disk.old).len live → end < (D.story disk.old).len live }
    requires none { (D.story disk.old).len live ≤ 1 → end ≡ 0 }
    requires holds { (i : Image) → (D.story disk.old).told ≡ Some i → holds ≡ holds_body (area_of (other_of live) i) }
    ensures area { IfOk result (λ x. x.0 ≡ area_after live checkpoint) }
    ensures end { IfOk result (λ x. x.1 ≡ end_after end checkpoint) }
    ensures room { IfOk result (λ x. x.1 < (D.story disk.new).len x.0) }

    // At each moment, and now whatever it answers, an image stands for what was found.
    ensures images { (bodies : List (List ℕ)) (c : Catalog) (rows : Rows) → IsFound (D.story disk.old) live bodies end c rows → StatesIfAny live bodies c checkpoint
        → Spans (λ x. StandsFor x (kept_of rows c)) (D.story disk.old) (D.story disk.new) }

    // After it the disk holds that store.
    ensures held { OnOk result ((bodies : List (List ℕ)) (c : Catalog) (rows : Rows) → IsFound (D.story disk.old) live bodies end c rows → StatesIfAny live bodies c checkpoint
        → IsHeld (D.story disk.new) (area_after live checkpoint) (bodies_after bodies checkpoint) (end_after end checkpoint) c rows) }

    // A read gives each file as before.
    ensures stays { Steps (λ i j. (id : ℕ) → file_of j id ≡ file_of i id) (D.story disk.old).told (D.story disk.new).told }

    ensures clock { (D.story disk.old).moment ≤ (D.story disk.new).moment }
    ensures cause { HasCause (D.story disk.old).faults (D.story disk.new).faults result }
    ensures read_cause { (D.story disk.new).read_faults ≡ (D.story disk.old).read_faults }
{
    settle(disk, live)?;
    let Some(framed) = checkpoint else {
        return Ok((live, end));
    };
    let end = restate(disk, live, holds, &framed)?;
    Ok((other_area(live), end))
}
