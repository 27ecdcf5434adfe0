ghost use Rattle.std.specs.Prelude.{◌≡◌, ◌+◌, ◌<◌, ◌≤◌, ℕ, List, [], ◌∷◌, ◌++◌, map, length, IfOk, OnOk, Some};
ghost use Rattle.mesa_disk.specs.mesa_io.Causes.{HasCause, Rose};
ghost use Rattle.mesa_journal.specs.mesa_key.Spelling.{AreBytes};
ghost use Rattle.mesa_disk.specs.Image.{Image};
ghost use Rattle.mesa_disk.specs.Files.{files_of, AreAbsent, AreGone, AreThere, HasDistinctIds};
ghost use Rattle.mesa_disk.specs.Story.{Spans, Steps};
ghost use Rattle.mesa_disk.specs.declared.area.Area.{Area};
ghost use Rattle.mesa_commit.specs.Images.{ids_of, Stands};
ghost use Rattle.mesa_commit.specs.Turn.{told_files, AreApart, Brings, OldOrNew, MovesOnly, made_ids};

use mesa_disk::{Adoption, Area, Disk, DiskFailed, FileId, Made, adopt_all, remove_all};
use mesa_journal::{Framed, append};

/// Adopts files, appends a body behind the gate at `end`, and removes files, until one of these fails.
/// Gives the new end. It takes no memory.
///
/// A file is adopted before the record that names it, and removed after the record that drops it; and a
/// record's gate is opened behind a sync, with which the files come to the disk. So at each moment the
/// bodies that a crash leaves find their files.
pub fn commit_turn<M: Made, D: Disk<M>>(
    disk: &mut D,
    area: Area,
    made: Vec<Adoption<M>>,
    end: u64,
    framed: &Framed,
    dropped: &[FileId],
) -> Result<u64, DiskFailed>
    requires distinct { HasDistinctIds (files_of M.bytes made.items) }
    requires new { (i : Image) → (D.story disk.old).told ≡ Some i → AreAbsent (files_of M.bytes made.items) i }
    requires room { end < (D.story disk.old).len area }
    ensures end { IfOk result (λ new_end. new_end ≡ end + length framed.now + 5) }
    ensures longer { IfOk result (λ new_end. new_end < (D.story disk.new).len area) }
    ensures bytes { OnOk result (AreBytes framed.now) }

    // At each moment, and now whatever it answers, an image is as before the turn or as after it.
    ensures images { (bodies : List (List ℕ)) (before brought after : List (ℕ × List ℕ)) → files_of M.bytes made.items ≡ told_files brought → Brings (D.story disk.old) area bodies end before brought after dropped.now
        → Spans (OldOrNew area bodies end before framed.now after) (D.story disk.old) (D.story disk.new) }

    // After it each image, and what a read gives, is as after it.
    ensures done { OnOk result ((bodies : List (List ℕ)) (before brought after : List (ℕ × List ℕ)) → files_of M.bytes made.items ≡ told_files brought → Brings (D.story disk.old) area bodies end before brought after dropped.now
        → Stands (D.story disk.new) area (bodies ++ framed.now ∷ []) (end + length framed.now + 5) after) }

    // Whatever it answers, a read gives each other file as before.
    ensures only { Steps (MovesOnly (files_of M.bytes made.items) dropped.now) (D.story disk.old).told (D.story disk.new).told }
    ensures gone { OnOk result ((i : Image) → (D.story disk.new).told ≡ Some i → AreGone dropped.now i) }
    ensures adopted { OnOk result ((i : Image) → (D.story disk.new).told ≡ Some i → AreApart dropped.now (made_ids (files_of M.bytes made.items)) → AreThere (files_of M.bytes made.items) i) }

    ensures other { (a : Area) → (a ≡ area → ⊥) → (D.story disk.new).len a ≡ (D.story disk.old).len a }
    ensures clock { (D.story disk.old).moment ≤ (D.story disk.new).moment }
    ensures risen { Rose (D.story disk.old).moment (D.story disk.new).moment }
    ensures cause { HasCause (D.story disk.old).faults (D.story disk.new).faults result }
    ensures read_cause { (D.story disk.new).read_faults ≡ (D.story disk.old).read_faults }
{
    adopt_all(disk, made)?;
    let end = append(disk, area, end, framed)?;
    remove_all(disk, dropped)?;
    Ok(end)
}
