// Journals of runs that are stated anew in the other area, stopped at every moment.
ghost use Rattle.std.specs.Prelude.{◌≡◌, IfSome, Some};
ghost use Rattle.mesa_disk.specs.Image.{Image, area_of};
ghost use Rattle.mesa_disk.specs.Memory.{story_of};
ghost use Rattle.mesa_journal.specs.Areas.{holds_body, other_of};

use crate::expected::expect_same;
use mesa_commit::restate;
use mesa_disk::{Area, Disk, MemDisk};
use mesa_journal::{Framed, LiveJournal, append, other_area, read_live};
use std::alloc::Global;
use std::process::Abort;

// So many runs end at 65,540.
const RUNS: u32 = 6554;

fn put(rt: &impl Abort, out: &mut Vec<u8>, bytes: &[u8]) {
    out.extend_from_slice(bytes).expect(rt, "memory");
}

// Adds the records of the runs from one on to another, and a closed gate.
fn put_runs(rt: &impl Abort, out: &mut Vec<u8>, first: u32, last: u32) {
    for run in first..last {
        put(rt, out, &[1, 0, 0, 0, 5, 1]);
        put(rt, out, &run.to_be_bytes());
    }
    put(rt, out, &[0]);
}

// The checkpoint of an empty warehouse.
fn checkpoint(rt: &impl Abort, alloc: Global, number: u32, run: u32) -> Framed {
    let mut body = Vec::new(alloc);
    put(rt, &mut body, &[15]);
    put(rt, &mut body, &number.to_be_bytes());
    put(rt, &mut body, &run.to_be_bytes());
    put(rt, &mut body, &[0; 10]);
    Framed::new(alloc, &body).expect(rt, "memory")
}

fn run_record(rt: &impl Abort, alloc: Global, run: u32) -> Framed {
    let mut body = Vec::new(alloc);
    put(rt, &mut body, &[1]);
    put(rt, &mut body, &run.to_be_bytes());
    Framed::new(alloc, &body).expect(rt, "memory")
}

// The journal of both areas, if it is read.
fn read_both(alloc: Global, disk: &mut MemDisk) -> Option<LiveJournal>
    ensures { IfSome result (λ x. (i : Image) → (story_of disk.new).told ≡ Some i → x.holds ≡ holds_body (area_of (other_of x.live) i)) }
{
    match read_live(alloc, disk) {
        Ok(journal) => Some(journal),
        Err(_) => None,
    }
}

fn read(rt: &impl Abort, alloc: Global, disk: &mut MemDisk) -> LiveJournal {
    read_both(alloc, disk).expect(rt, "a journal")
}

// The number of the last run, by a journal's last body.
fn last_run(journal: &LiveJournal) -> Option<u32> {
    let body = journal.read.bodies.as_slice().last()?;
    match body.bytes.as_slice() {
        [1, a, b, c, d] => Some(u32::from_be_bytes([*a, *b, *c, *d])),
        [15, _, _, _, _, a, b, c, d, ..] => Some(u32::from_be_bytes([*a, *b, *c, *d])),
        _ => None,
    }
}

// States the journal anew by a checkpoint of this number, behind which it writes the record of a run.
fn begin(rt: &impl Abort, alloc: Global, disk: &mut MemDisk, number: u32, run: u32) -> bool {
    if disk.journal_sync().is_err() {
        return false;
    }
    let Some(LiveJournal { live, holds, .. }) = read_both(alloc, disk) else {
        return false;
    };
    let stated = checkpoint(rt, alloc, number, run);
    let next = run_record(rt, alloc, run.wrapping_add(1));
    let Ok(end) = restate(disk, live, holds, &stated) else {
        return false;
    };
    append(disk, other_area(live), end, &next).is_ok()
}

// The calls that change the disk are: a sync; the closed gate and a sync; the checkpoint, a sync, its gate and a sync; the run, a
// sync, its gate and a sync. So the other area is live once the checkpoint's gate has come to the disk, and
// the run is there once its own gate has.
fn expect_images(
    rt: &impl Abort,
    alloc: Global,
    disk: &MemDisk,
    moment: u64,
    live: Area,
    run: u32,
) {
    for pick in 0..5_u8 {
        let mut image = disk.image(moment, pick).expect(rt, "memory");
        let found = read(rt, alloc, &mut image);
        let stated = moment >= 7 || (moment == 6 && pick != 0);
        let began = moment >= 11 || (moment == 10 && pick != 0);
        let area = if stated { other_area(live) } else { live };
        let last = run.wrapping_add(u32::from(began));
        assert!(rt; found.live == area);
        expect_same(rt, &last_run(&found), &Some(last), &(moment, pick));
    }
}

fn area_bytes(rt: &impl Abort, alloc: Global, disk: &mut MemDisk, area: Area) -> Vec<u8> {
    let mut bytes = vec![in alloc; 0; disk.journal_len(area) as usize].expect(rt, "memory");
    assert!(rt; disk.journal_read(area, 0, &mut bytes).is_ok());
    bytes
}

const ROW: [u8; 35] = [
    1, 0, 0, 0, 0x13, 15, 0, 0, 0, 1, 0, 0, 0x19, 0x9a, 0, 0, 0, 0, 0, 0, 0, 0, 0, 0, 1, 0, 0, 0,
    5, 1, 0, 0, 0x19, 0x9b, 0,
];

fn disk_of(rt: &impl Abort, alloc: Global, zero: Vec<u8>, one: Vec<u8>, fails: &[u64]) -> MemDisk {
    let fails = fails.to_vec(alloc).expect(rt, "memory");
    MemDisk::new(alloc, zero, one, Vec::new(alloc), fails)
}

fn first_runs(rt: &impl Abort, alloc: Global) -> Vec<u8> {
    let mut zero = Vec::new(alloc);
    put_runs(rt, &mut zero, 1, RUNS + 1);
    zero
}

#[test]
fn an_empty_area_is_taken(rt: HostRuntime) {
    let alloc = rt.alloc();
    let zero = first_runs(&rt, alloc);
    let mut disk = disk_of(&rt, alloc, zero, Vec::new(alloc), &[]);
    assert!(rt; begin(&rt, alloc, &mut disk, 1, RUNS));
    let one = area_bytes(&rt, alloc, &mut disk, Area::One);
    assert_eq!(rt; one.as_slice(), ROW.as_slice());
    let zero = area_bytes(&rt, alloc, &mut disk, Area::Zero);
    assert_eq!(rt; zero.as_slice(), first_runs(&rt, alloc).as_slice());
    for moment in 0..12_u64 {
        expect_images(&rt, alloc, &disk, moment, Area::Zero, RUNS);
    }
}

// Area 1 with the checkpoint of the number 1, and as many runs behind it.
fn next_runs(rt: &impl Abort, alloc: Global) -> Vec<u8> {
    let mut one = Vec::new(alloc);
    put(rt, &mut one, &ROW[..24]);
    put_runs(rt, &mut one, RUNS + 1, 2 * RUNS + 1);
    one
}

#[test]
fn an_older_area_is_taken(rt: HostRuntime) {
    let alloc = rt.alloc();
    let zero = first_runs(&rt, alloc);
    let mut disk = disk_of(&rt, alloc, zero, next_runs(&rt, alloc), &[]);
    assert!(rt; begin(&rt, alloc, &mut disk, 2, 2 * RUNS));
    let found = read(&rt, alloc, &mut disk);
    assert_eq!(rt; (found.number, found.read.bodies.len()), (2, 2));
    for moment in 0..12_u64 {
        expect_images(&rt, alloc, &disk, moment, Area::One, 2 * RUNS);
    }
}

// Stops the test where a beginning that fails at this call leaves another run than the last one or the next.
fn expect_stopped(rt: &impl Abort, alloc: Global, call: u64) {
    let zero = first_runs(rt, alloc);
    let mut disk = disk_of(rt, alloc, zero, next_runs(rt, alloc), &[call]);
    assert!(rt; !begin(rt, alloc, &mut disk, 2, 2 * RUNS));
    let last = last_run(&read(rt, alloc, &mut disk)).expect(rt, "a run");
    assert!(rt; last == 2 * RUNS || last == 2 * RUNS + 1);
}

#[test]
fn each_call_fails(rt: HostRuntime) {
    for call in 0..13_u64 {
        expect_stopped(&rt, rt.alloc(), call);
    }
}
