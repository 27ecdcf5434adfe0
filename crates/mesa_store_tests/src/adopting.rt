// The device work of a turn: the files that a record brings are adopted, the record is written, and files are removed.
ghost use Rattle.std.specs.Prelude.{◌≡◌, Some, IsTrue};
ghost use Rattle.mesa_disk.specs.Image.{Image};
ghost use Rattle.mesa_disk.specs.Files.{files_of, AreAbsent, HasDistinctIds, HasOtherIds};
ghost use Rattle.mesa_disk.specs.Memory.{story_of};
ghost use Rattle.mesa_disk.specs.MemFiles.{made_bytes};

use crate::spelled::{FILES, FIRST_FILE};
use mesa_disk::{
    Adoption, Area, Bench, Disk, Draft, FileId, MemBench, MemDisk, MemDraft, MemMade, OpenFault,
};
use mesa_journal::Framed;
use mesa_store::write_record;
use std::alloc::Global;
use std::process::Abort;

// A draft's file, once these bytes are written.
fn finished(rt: &impl Abort, mut draft: MemDraft, bytes: &[u8]) -> MemMade {
    let Ok(()) = draft.append(bytes) else {
        panic!(rt; "not written");
    };
    let Ok(made) = draft.finish() else {
        panic!(rt; "not finished");
    };
    made
}

// A finished file of these bytes.
fn made_of(rt: &impl Abort, alloc: Global, bytes: &[u8]) -> MemMade {
    let mut bench = MemBench::new(alloc, Vec::new(alloc));
    let Ok(draft) = bench.draft(FileId::of(0)) else {
        panic!(rt; "no draft");
    };
    finished(rt, draft, bytes)
}

// The file of a number, which is to be adopted.
fn adoption(rt: &impl Abort, alloc: Global, number: usize) -> Adoption<MemMade> {
    assert!(rt; number < FILES.len());
    let bytes = hex::decode(alloc, FILES[number]).expect(rt, "digits");
    Adoption {
        made: made_of(rt, alloc, &bytes),
        id: FileId::of(FIRST_FILE.saturating_add(number as u64)),
    }
}

// The files of these numbers.
fn adoptions(rt: &impl Abort, alloc: Global, files: (usize, usize)) -> Vec<Adoption<MemMade>> {
    let (from, to) = files;
    let mut made = Vec::new(alloc);
    for number in from..to {
        if made.push(adoption(rt, alloc, number)).is_err() {
            panic!(rt; "no memory");
        }
    }
    made
}

// Whether no file of a disk has the id of one of these.
fn are_new(disk: &mut MemDisk, made: &[Adoption<MemMade>]) -> bool
    ensures told { (story_of disk.new).told ≡ (story_of disk.old).told }
    ensures new { IsTrue result → (i : Image) → (story_of disk.old).told ≡ Some i → AreAbsent (files_of (λ m. Some (made_bytes m)) made.now) i }
{
    let Some((first, others)) = made.split_first() else {
        return true;
    };
    match disk.reader(first.id) {
        Err(OpenFault::Absent) => are_new(disk, others),
        Ok(reader) => {
            disk.retire(reader);
            false
        }
        Err(_) => false,
    }
}

// Whether none of these has this id.
fn have_others(id: FileId, made: &[Adoption<MemMade>]) -> bool
    ensures { IsTrue result → HasOtherIds id (files_of (λ m. Some (made_bytes m)) made.now) }
{
    match made.split_first() {
        Some((first, others)) => first.id != id && have_others(id, others),
        None => true,
    }
}

// Whether the ids of these differ from each other.
fn differ(made: &[Adoption<MemMade>]) -> bool
    ensures { IsTrue result → HasDistinctIds (files_of (λ m. Some (made_bytes m)) made.now) }
{
    match made.split_first() {
        Some((first, others)) => have_others(first.id, others) && differ(others),
        None => true,
    }
}

// Writes a record behind the gate at `end` of an area. Gives the journal's new end.
fn write_framed(
    rt: &impl Abort,
    disk: &mut MemDisk,
    area: Area,
    made: Vec<Adoption<MemMade>>,
    end: u64,
    framed: &Framed,
    dropped: &[FileId],
) -> u64 {
    let distinct = differ(&made);
    assert!(rt; distinct);
    let new = are_new(disk, &made);
    assert!(rt; new);
    assert!(rt; end < disk.journal_len(area));
    let Ok(end) = write_record(disk, area, made, end, framed, dropped) else {
        panic!(rt; "not written");
    };
    end
}

/// Writes a record's body behind the gate at `end` of an area, with the files of these numbers, and removes those that it drops. Gives the journal's new end.
pub fn write_turn(
    rt: &impl Abort,
    alloc: Global,
    disk: &mut MemDisk,
    area: Area,
    end: u64,
    body: &[u8],
    files: (usize, usize),
    dropped: &[FileId],
) -> u64 {
    let framed = Framed::new(alloc, body).expect(rt, "a frame");
    let made = adoptions(rt, alloc, files);
    write_framed(rt, disk, area, made, end, &framed, dropped)
}
