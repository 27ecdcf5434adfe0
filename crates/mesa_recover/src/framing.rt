// Beginning a run.
ghost use Rattle.std.specs.Prelude.{◌≡◌, ◌<◌, ◌≤◌, ℕ, List, [], Some, IfOk, OnOk, Ok, IsTrue};
ghost use Rattle.mesa_store.specs.mesa_key.Spelling.{AreBytes};
ghost use Rattle.mesa_store.specs.mesa_io.Causes.{HasCause};
ghost use Rattle.mesa_disk.specs.Image.{Image as AnyImage, area_of};
ghost use Rattle.mesa_disk.specs.Story.{Spans};
ghost use Rattle.mesa_journal.specs.Areas.{holds_body, other_of};
ghost use Rattle.mesa_store.specs.mesa_commit.Filed.{AreNamedOrWait};
ghost use Rattle.mesa_record.specs.Reading.{record_at};
ghost use Rattle.mesa_record.specs.Rules.{keeps_rules};
ghost use Rattle.mesa_store_spec.specs.Catalog.{Catalog as AnyCatalog, applied};
ghost use Rattle.mesa_store_spec.specs.Contents.{Rows, kept_of};
ghost use Rattle.mesa_store_spec.specs.Sound.{StandsFor};
ghost use Rattle.mesa_store_spec.specs.Ids.{named};
ghost use Rattle.mesa_store.specs.Store.{IsFound, StatesIfAny, area_after};
ghost use Rattle.mesa_recover.specs.Strays.{AreStrays};
ghost use Rattle.mesa_recover.specs.Opening.{BeginsRun, IsHeldAs, run_record};

use mesa_disk::{Area, Disk, DiskFailed, FileId, Made};
use mesa_journal::Framed;
use mesa_record::{Record, encode};
use mesa_store::{carry_on, write_record};
use std::alloc::{AllocError, Global};

/// Makes what is read stay, states the journal anew in the other area where a checkpoint is given, appends
/// the record of a run, and removes strays. Gives the area in which the store goes on, and the journal's new
/// end there.
pub fn write_run<M: Made, D: Disk<M>>(
    alloc: Global,
    disk: &mut D,
    live: Area,
    holds: bool,
    checkpoint: Option<Framed>,
    end: u64,
    framed: &Framed,
    strays: &[FileId],
) -> Result<(Area, u64), DiskFailed>
    requires gate { 1 < (D.story disk.old).len live → end < (D.story disk.old).len live }
    requires none { (D.story disk.old).len live ≤ 1 → end ≡ 0 }
    requires holds { (i : AnyImage) → (D.story disk.old).told ≡ Some i → holds ≡ holds_body (area_of (other_of live) i) }
    ensures images { (bodies : List (List ℕ)) (c : AnyCatalog) (rows : Rows) (number : ℕ) → IsFound (D.story disk.old) live bodies end c rows → StatesIfAny live bodies c checkpoint → BeginsRun c number framed.now strays.now
        → Spans (λ x. StandsFor x (kept_of rows c)) (D.story disk.old) (D.story disk.new) }
    ensures area { IfOk result (λ x. x.0 ≡ area_after live checkpoint) }
    ensures held { IfOk result (λ x. (bodies : List (List ℕ)) (c : AnyCatalog) (rows : Rows) (number : ℕ) → IsFound (D.story disk.old) live bodies end c rows → StatesIfAny live bodies c checkpoint → BeginsRun c number framed.now strays.now
        → IsHeldAs (D.story disk.new) x.0 x.1 (applied c (run_record number)) rows) }
    ensures named { OnOk result ((c : AnyCatalog) → AreStrays (D.story disk.old) c strays.now → AreNamedOrWait (named c) [] (D.story disk.new).told) }
    ensures told { (i : AnyImage) → (D.story disk.old).told ≡ Some i → (j : AnyImage) × ((D.story disk.new).told ≡ Some j) }
    ensures room { IfOk result (λ x. x.1 < (D.story disk.new).len x.0) }
    ensures clock { (D.story disk.old).moment ≤ (D.story disk.new).moment }
    ensures cause { HasCause (D.story disk.old).faults (D.story disk.new).faults result }
    ensures read_cause { (D.story disk.new).read_faults ≡ (D.story disk.old).read_faults }
{
    let (area, end) = carry_on(disk, live, holds, checkpoint, end)?;
    let end = write_record(disk, area, Vec::new(alloc), end, framed, strays)?;
    Ok((area, end))
}

/// A record's body in its frame.
pub fn frame(alloc: Global, record: &Record) -> Result<Framed, AllocError>
    requires { IsTrue (keeps_rules «record».now) }
    ensures reads { IfOk result (λ framed. record_at framed ≡ Ok «record».now) }
    ensures bytes { IfOk result (λ framed. AreBytes framed) }
{
    let body = encode(alloc, record)?;
    frame_bytes(alloc, &body)
}

fn frame_bytes(alloc: Global, body: &[u8]) -> Result<Framed, AllocError>
    ensures body { IfOk result (λ framed. framed ≡ body.now) }
    ensures bytes { IfOk result (λ framed. AreBytes framed) }
{
    let framed = Framed::new(alloc, body)?;
    Ok(framed)
}
