ghost use Rattle.std.specs.Prelude.{◌≡◌, ◌+◌, ◌<◌, ◌≤◌, ℕ, List, [], ◌∷◌, ◌++◌, length, IfOk, OnOk, Some};
ghost use Rattle.mesa_commit.specs.mesa_io.Causes.{HasCause, Rose};
ghost use Rattle.mesa_store_spec.specs.mesa_key.Spelling.{AreBytes};
ghost use Rattle.mesa_disk.specs.Image.{Image};
ghost use Rattle.mesa_disk.specs.Files.{files_of, AreAbsent, AreGone, AreThere, HasDistinctIds};
ghost use Rattle.mesa_disk.specs.Story.{Spans, Steps};
ghost use Rattle.mesa_disk.specs.declared.area.Area.{Area};
ghost use Rattle.mesa_commit.specs.Turn.{AreApart, MovesOnly, made_ids};
ghost use Rattle.mesa_store_spec.specs.mesa_record.declared.record.Record.{Record};
ghost use Rattle.mesa_store_spec.specs.Catalog.{Catalog, applied};
ghost use Rattle.mesa_store_spec.specs.Contents.{Rows, kept_of};
ghost use Rattle.mesa_store_spec.specs.Held.{IsHeld, StandsForEither};
ghost use Rattle.mesa_store.specs.Store.{Writes};

use mesa_commit::commit_turn;
use mesa_disk::{Adoption, Area, Disk, DiskFailed, FileId, Made};
use mesa_journal::Framed;

/// Writes a record to a store: adopts the files that it brings, appends its body behind the gate at `end`,
/// and removes files that it drops. Gives the new end. It takes no memory.
pub fn write_record<M: Made, D: Disk<M>>(
    disk: &mut D,
    live: Area,
    made: Vec<Adoption<M>>,
    end: u64,
    framed: &Framed,
    dropped: &[FileId],
) -> Result<u64, DiskFailed>
    requires distinct { HasDistinctIds (files_of M.bytes made.items) }
    requires new { (i : Image) → (D.story disk.old).told ≡ Some i → AreAbsent (files_of M.bytes made.items) i }
    requires room { end < (D.story disk.old).len live }
    ensures end { IfOk result (λ new_end. new_end ≡ end + length framed.now + 5) }
    ensures longer { IfOk result (λ new_end. new_end < (D.story disk.new).len live) }
    ensures bytes { OnOk result (AreBytes framed.now) }

    // At each moment, and now whatever it answers, an image stands for the store before the record or after it.
    ensures images { (bodies : List (List ℕ)) (c : Catalog) (rows : Rows) (r : Record) → Writes (D.story disk.old) live bodies end c rows r framed.now (files_of M.bytes made.items) dropped.now
        → Spans (StandsForEither (kept_of rows c) (kept_of rows (applied c r))) (D.story disk.old) (D.story disk.new) }

    // After it the disk holds the store after the record.
    ensures done { OnOk result ((bodies : List (List ℕ)) (c : Catalog) (rows : Rows) (r : Record) → Writes (D.story disk.old) live bodies end c rows r framed.now (files_of M.bytes made.items) dropped.now
        → IsHeld (D.story disk.new) live (bodies ++ framed.now ∷ []) (end + length framed.now + 5) (applied c r) rows) }

    // Whatever it answers, a read gives each other file as before.
    ensures only { Steps (MovesOnly (files_of M.bytes made.items) dropped.now) (D.story disk.old).told (D.story disk.new).told }
    ensures gone { OnOk result ((i : Image) → (D.story disk.new).told ≡ Some i → AreGone dropped.now i) }
    ensures adopted { OnOk result ((i : Image) → (D.story disk.new).told ≡ Some i → AreApart dropped.now (made_ids (files_of M.bytes made.items)) → AreThere (files_of M.bytes made.items) i) }

    ensures other { (a : Area) → (a ≡ live → ⊥) → (D.story disk.new).len a ≡ (D.story disk.old).len a }
    ensures clock { (D.story disk.old).moment ≤ (D.story disk.new).moment }
    ensures risen { Rose (D.story disk.old).moment (D.story disk.new).moment }
    ensures cause { HasCause (D.story disk.old).faults (D.story disk.new).faults result }
    ensures read_cause { (D.story disk.new).read_faults ≡ (D.story disk.old).read_faults }
{
    let end = commit_turn(disk, live, made, end, framed, dropped)?;
    Ok(end)
}
