// The images of each moment and each pick, over calls that fail and calls that don't. What is expected
// was written down from the model of a disk.
use crate::expected::expect_same;
use mesa_disk::{
    Area, Bench, ByteList, Disk, DiskFailed, Draft, DraftError, FileId, FileReader, Made, MemBench,
    MemDisk, MemMade, MemReader, OpenFault,
};
use std::alloc::Global;
use std::process::Abort;

// A disk whose area 0 is 10, 20, and whose one file 5 is the byte 50.
fn disk_of(rt: &impl Abort, alloc: Global, fails: &[u64]) -> MemDisk {
    let bytes = ByteList::from_bytes(alloc, &[50]).expect(rt, "memory");
    let files = vec![in alloc; (FileId::of(5), bytes)].expect(rt, "memory");
    let zero = [10, 20].to_vec(alloc).expect(rt, "memory");
    let fails = fails.to_vec(alloc).expect(rt, "memory");
    MemDisk::new(alloc, zero, Vec::new(alloc), files, fails)
}

// The finished file 9 of the byte 90.
fn made(rt: &impl Abort, alloc: Global) -> MemMade {
    let mut bench = MemBench::new(alloc, Vec::new(alloc));
    let mut draft = bench.draft(FileId::of(9)).expect(rt, "a draft");
    draft.append(&[90]).expect(rt, "a draft of one byte");
    match draft.finish() {
        Ok(made) => made,
        Err(_) => panic!(rt; "not finished"),
    }
}

// The bytes of an area.
fn area_of(rt: &impl Abort, alloc: Global, disk: &mut MemDisk, area: Area) -> Vec<u8> {
    let len = disk.journal_len(area) as usize;
    let mut bytes = vec![in alloc; 0u8; len].expect(rt, "memory");
    disk.journal_read(area, 0, &mut bytes).expect(rt, "an area");
    bytes
}

// The bytes of a file.
fn file_of(rt: &impl Abort, alloc: Global, disk: &mut MemDisk, id: FileId) -> Vec<u8> {
    let mut reader = disk.reader(id).expect(rt, "a reader");
    let mut bytes = vec![in alloc; 0u8; reader.len() as usize].expect(rt, "memory");
    reader.read_at(0, &mut bytes).expect(rt, "a file");
    disk.retire(reader);
    bytes
}

fn push_file(rt: &impl Abort, alloc: Global, disk: &mut MemDisk, id: FileId, text: &mut String) {
    let bytes = file_of(rt, alloc, disk, id);
    let part = format!(in alloc; " {}={bytes:?}", id.number()).expect(rt, "memory");
    text.push_str(part.as_str()).expect(rt, "memory");
}

// Both areas, and each file with its id.
fn shown(rt: &impl Abort, alloc: Global, disk: &mut MemDisk) -> String {
    let zero = area_of(rt, alloc, disk, Area::Zero);
    let one = area_of(rt, alloc, disk, Area::One);
    let mut text = format!(in alloc; "{zero:?} {one:?}").expect(rt, "memory");
    let ids = disk.file_ids().expect(rt, "a list of files");
    for id in &ids {
        push_file(rt, alloc, disk, *id, &mut text);
    }
    text
}

fn writes(
    rt: &impl Abort,
    disk: &mut MemDisk,
    area: Area,
    at: u64,
    bytes: &[u8],
) -> Result<(), DiskFailed> {
    assert!(rt; at <= disk.journal_len(area));
    disk.journal_write(area, at, bytes)
}

/// Adopts file 9, which isn't there.
pub fn adopts(rt: &impl Abort, alloc: Global, disk: &mut MemDisk) -> bool {
    let Err(OpenFault::Absent) = disk.reader(FileId::of(9)) else {
        panic!(rt; "file 9 is there");
    };
    disk.adopt(made(rt, alloc), FileId::of(9)).is_ok()
}

// A call of the disk.
#[derive(Clone, Copy)]
enum Call {
    Write(Area, u64, &'static [u8]),
    Sync,
    // File 9 is adopted.
    Adopt,
    // File 5 is removed.
    Remove,
}

// Whether a call succeeds.
fn succeeds(rt: &impl Abort, alloc: Global, disk: &mut MemDisk, call: Call) -> bool {
    match call {
        Call::Write(area, at, bytes) => writes(rt, disk, area, at, bytes).is_ok(),
        Call::Sync => disk.journal_sync().is_ok(),
        Call::Adopt => adopts(rt, alloc, disk),
        Call::Remove => disk.remove(FileId::of(5)).is_ok(),
    }
}

// A call, and whether it succeeds.
type Step = (Call, bool);

// Makes calls, and stops the test where one ends otherwise, or where the clock isn't their count at last.
fn walk(rt: &impl Abort, alloc: Global, disk: &mut MemDisk, calls: &[Step]) {
    for (place, (call, want)) in calls.iter().enumerate() {
        let found = succeeds(rt, alloc, disk, *call);
        expect_same(rt, &found, want, &place);
    }
    let count = calls.len() as u64;
    expect_same(rt, &disk.clock(), &count, &"the clock");
}

static CALLS: [Step; 7] = [
    (Call::Write(Area::Zero, 1, &[21, 31]), true),
    (Call::Sync, true),
    (Call::Adopt, true),
    (Call::Write(Area::One, 0, &[41]), true),
    (Call::Remove, true),
    (Call::Sync, false),
    (Call::Sync, true),
];

// A moment, a pick, and the image there. Both files have odd ids, so that pick 3 loses what came of them.
static ROWS: [(u64, u8, &str); 34] = [
    (0, 0, "[10, 20] [] 5=[50]"),
    (0, 1, "[10, 20] [] 5=[50]"),
    (0, 2, "[10, 20] [] 5=[50]"),
    // 21, 31 is written over area 0 from place 1 on
    (1, 0, "[10, 20] [] 5=[50]"),
    (1, 1, "[10, 21, 31] [] 5=[50]"),
    (1, 2, "[10, 1, 1] [] 5=[50]"),
    // synced
    (2, 0, "[10, 21, 31] [] 5=[50]"),
    (2, 1, "[10, 21, 31] [] 5=[50]"),
    (2, 2, "[10, 21, 31] [] 5=[50]"),
    // file 9 is adopted
    (3, 0, "[10, 21, 31] [] 5=[50]"),
    (3, 1, "[10, 21, 31] [] 5=[50] 9=[90]"),
    (3, 2, "[10, 21, 31] [] 5=[50] 9=[90]"),
    (3, 3, "[10, 21, 31] [] 5=[50]"),
    (3, 4, "[10, 21, 31] [] 5=[50] 9=[90]"),
    // 41 is written to area 1
    (4, 0, "[10, 21, 31] [] 5=[50]"),
    (4, 1, "[10, 21, 31] [41] 5=[50] 9=[90]"),
    (4, 2, "[10, 21, 31] [1] 5=[50] 9=[90]"),
    (4, 3, "[10, 21, 31] [41] 5=[50]"),
    (4, 4, "[10, 21, 31] [41] 5=[50] 9=[90]"),
    // file 5 is removed
    (5, 0, "[10, 21, 31] [] 5=[50]"),
    (5, 1, "[10, 21, 31] [41] 9=[90]"),
    (5, 2, "[10, 21, 31] [1] 9=[90]"),
    (5, 3, "[10, 21, 31] [41] 5=[50]"),
    (5, 4, "[10, 21, 31] [41] 9=[90]"),
    // a sync fails
    (6, 0, "[10, 21, 31] [] 5=[50]"),
    (6, 1, "[10, 21, 31] [41] 9=[90]"),
    (6, 2, "[10, 21, 31] [1] 9=[90]"),
    (6, 3, "[10, 21, 31] [41] 5=[50]"),
    (6, 4, "[10, 21, 31] [41] 9=[90]"),
    // a sync succeeds
    (7, 0, "[10, 21, 31] [41] 9=[90]"),
    (7, 1, "[10, 21, 31] [41] 9=[90]"),
    (7, 2, "[10, 21, 31] [41] 9=[90]"),
    (7, 3, "[10, 21, 31] [41] 9=[90]"),
    (7, 4, "[10, 21, 31] [41] 9=[90]"),
];

// Stops the test of an image that shows something else.
fn expect_image(
    rt: &impl Abort,
    alloc: Global,
    disk: &MemDisk,
    moment: u64,
    pick: u8,
    wanted: &'static str,
) {
    let mut image = disk.image(moment, pick).expect(rt, "memory");
    let found = shown(rt, alloc, &mut image);
    expect_same(rt, &found.as_str(), &wanted, &(moment, pick));
}

#[test]
fn each_moment_and_pick_has_its_image(rt: HostRuntime) {
    let mut disk = disk_of(&rt, rt.alloc(), &[6]);
    walk(&rt, rt.alloc(), &mut disk, &CALLS);
    for (moment, pick, want) in &ROWS {
        expect_image(&rt, rt.alloc(), &disk, *moment, *pick, want);
    }
}

static FAILED: [Step; 4] = [
    (Call::Write(Area::Zero, 1, &[21, 31]), false),
    (Call::Sync, false),
    (Call::Adopt, false),
    (Call::Remove, false),
];

static AT_FIRST: &str = "[10, 20] [] 5=[50]";

fn expect_as_at_first(rt: &impl Abort, alloc: Global, disk: &mut MemDisk) {
    let found = shown(rt, alloc, disk);
    expect_same(rt, &found.as_str(), &AT_FIRST, &"the disk");
}

#[test]
fn a_failed_call_changes_no_area_and_no_file(rt: HostRuntime) {
    let mut disk = disk_of(&rt, rt.alloc(), &[0, 1, 3, 4]);
    walk(&rt, rt.alloc(), &mut disk, &FAILED);
    expect_as_at_first(&rt, rt.alloc(), &mut disk);
    expect_image(&rt, rt.alloc(), &disk, 4, 1, AT_FIRST);
}

// Reads a file's one byte, and stops the test where that ends otherwise.
fn read_byte(rt: &impl Abort, reader: &mut MemReader, succeeds: bool) {
    let mut byte = [0];
    assert_eq!(rt; reader.len(), 1);
    expect_same(
        rt,
        &reader.read_at(0, &mut byte).is_ok(),
        &succeeds,
        &"whether a read succeeds",
    );
}

// The second read of file 5 fails.
fn read_twice(rt: &impl Abort, disk: &mut MemDisk) {
    disk.spoil_read(FileId::of(5), 1);
    let mut reader = disk.reader(FileId::of(5)).expect(rt, "a reader");
    read_byte(rt, &mut reader, true);
    read_byte(rt, &mut reader, false);
    disk.retire(reader);
}

#[test]
fn a_spoiled_read_fails_once(rt: HostRuntime) {
    let mut disk = disk_of(&rt, rt.alloc(), &[]);
    read_twice(&rt, &mut disk);
    expect_as_at_first(&rt, rt.alloc(), &mut disk);
}

// A draft whose second append fails.
fn spoil_a_draft(rt: &impl Abort, bench: &mut MemBench) {
    let mut draft = bench.draft(FileId::new(1, 2, 3)).expect(rt, "a draft");
    expect_same(rt, &draft.append(&[1]), &Ok(()), &"the first append");
    let failed = Err(DraftError::Failed);
    expect_same(rt, &draft.append(&[2]), &failed, &"the second append");
    bench.spoil(draft);
}

// A draft that is made at the second attempt.
fn make_a_draft(rt: &impl Abort, bench: &mut MemBench) {
    assert!(rt; bench.draft(FileId::of(9)).is_err());
    let draft = bench.draft(FileId::of(9)).expect(rt, "a draft");
    let Ok(file) = draft.finish() else {
        panic!(rt; "not finished");
    };
    expect_same(
        rt,
        &(file.id().number(), file.len()),
        &(9, 0),
        &"a file's id and length",
    );
}

#[test]
fn the_named_calls_on_drafts_fail(rt: HostRuntime) {
    let calls = [(0, 2), (1, 0)].to_vec(rt.alloc()).expect(&rt, "memory");
    let mut bench = MemBench::new(rt.alloc(), calls);
    spoil_a_draft(&rt, &mut bench);
    make_a_draft(&rt, &mut bench);
}

// Stops the test of a bench that gives a draft under the id 9.
fn expect_refused(rt: &impl Abort, bench: &mut MemBench, when: &str) {
    let failed = Some(DraftError::Failed);
    expect_same(rt, &bench.draft(FileId::of(9)).err(), &failed, &when);
}

#[test]
fn a_bench_gives_an_id_once(rt: HostRuntime) {
    let mut bench = MemBench::new(rt.alloc(), Vec::new(rt.alloc()));
    let first = bench.draft(FileId::of(9)).expect(&rt, "a draft");
    expect_refused(&rt, &mut bench, "while it is written");
    bench.spoil(first);
    expect_refused(&rt, &mut bench, "once it was given back");
    let other = bench.draft(FileId::of(8)).expect(&rt, "another draft");
    bench.spoil(other);
}
