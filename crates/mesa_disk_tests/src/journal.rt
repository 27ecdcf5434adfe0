// Journals in an area of a disk in memory.
use crate::disk::adopts;
use crate::expected::expect_same;
use mesa_disk::{Area, Disk, FileId, MemDisk};
use mesa_journal::{Framed, JournalError, JournalRead, append, close_gate, read_journal};
use std::alloc::Global;
use std::process::Abort;

fn disk_of(rt: &impl Abort, alloc: Global, zero: &[u8], fails: &[u64]) -> MemDisk {
    let zero = zero.to_vec(alloc).expect(rt, "memory");
    let fails = fails.to_vec(alloc).expect(rt, "memory");
    MemDisk::new(alloc, zero, Vec::new(alloc), Vec::new(alloc), fails)
}

fn read(rt: &impl Abort, alloc: Global, disk: &mut MemDisk) -> JournalRead {
    read_journal(alloc, disk, Area::Zero).expect(rt, "a journal")
}

// Whether the body of the first run is appended to an area that ends at 0.
fn appended(rt: &impl Abort, alloc: Global, disk: &mut MemDisk) -> bool {
    let framed = Framed::new(alloc, &[1, 0, 0, 0, 1]).expect(rt, "memory");
    assert!(rt; disk.journal_len(Area::Zero) > 0);
    match append(disk, Area::Zero, 0, &framed) {
        Ok(end) => {
            expect_same(rt, &end, &10, &"the end");
            true
        }
        Err(_) => false,
    }
}

fn closed(rt: &impl Abort, disk: &mut MemDisk) -> bool {
    assert!(rt; disk.journal_len(Area::Zero) <= 1);
    close_gate(disk, Area::Zero).is_ok()
}

#[test]
fn a_shut_gate_ends_the_journal(rt: HostRuntime) {
    let area = [1, 0, 0, 0, 5, 1, 0, 0, 0, 1, 2, 0, 0, 0, 5, 1, 0];
    let mut disk = disk_of(&rt, rt.alloc(), &area, &[]);
    let read = read(&rt, rt.alloc(), &mut disk);
    expect_same(&rt, &read.end, &10, &"the end");
    assert_eq!(rt; read.bodies.len(), 1);
    let body = &read.bodies.as_slice()[0];
    expect_same(&rt, &body.at, &0, &"where the body stands");
    expect_same(
        &rt,
        &body.bytes.as_slice(),
        &[1, 0, 0, 0, 1].as_slice(),
        &"the body's bytes",
    );
}

// At which place an area is damaged, and how many bytes were wanted and found.
fn damage_of(alloc: Global, disk: &mut MemDisk) -> Option<(u64, u64, u64)> {
    match read_journal(alloc, disk, Area::Zero) {
        Err(JournalError::Damaged { at, want, found }) => Some((at, want, found)),
        _ => None,
    }
}

#[test]
fn a_record_cut_short_is_damage(rt: HostRuntime) {
    let area = [1, 0, 0, 0, 5, 1, 0, 0, 0, 1, 1, 0, 0, 0, 5, 1, 0];
    let mut disk = disk_of(&rt, rt.alloc(), &area, &[]);
    let damage = damage_of(rt.alloc(), &mut disk);
    expect_same(&rt, &damage, &Some((10, 21, 17)), &area);
}

// Stops the test of an area that isn't the first run's.
fn expect_first_run(rt: &impl Abort, disk: &mut MemDisk) {
    let mut bytes = [9; 11];
    assert_eq!(rt; disk.journal_len(Area::Zero), 11);
    assert!(rt; disk.journal_read(Area::Zero, 0, &mut bytes).is_ok());
    expect_same(rt, &bytes, &[1, 0, 0, 0, 5, 1, 0, 0, 0, 1, 0], &"the bytes");
}

fn begin(rt: &impl Abort, alloc: Global, disk: &mut MemDisk) {
    assert!(rt; closed(rt, disk));
    assert!(rt; appended(rt, alloc, disk));
    expect_same(rt, &disk.clock(), &6, &"the clock");
    expect_first_run(rt, disk);
}

#[test]
fn the_first_run_takes_eleven_bytes(rt: HostRuntime) {
    let mut disk = disk_of(&rt, rt.alloc(), &[], &[]);
    begin(&rt, rt.alloc(), &mut disk);
    for moment in 0..7_u64 {
        expect_images(&rt, rt.alloc(), &disk, moment);
    }
}

// How many bodies an image has.
fn bodies(rt: &impl Abort, alloc: Global, disk: &MemDisk, moment: u64, pick: u8) -> usize {
    let mut image = disk.image(moment, pick).expect(rt, "memory");
    read(rt, alloc, &mut image).bodies.len()
}

// The calls are: the closed gate and a sync, the body and a sync, the open gate and a sync. So the body
// is there from the last sync on, and before that sync only where the gate has come to the disk.
fn expect_images(rt: &impl Abort, alloc: Global, disk: &MemDisk, moment: u64) {
    for pick in 0..5_u8 {
        let count = bodies(rt, alloc, disk, moment, pick);
        let there = moment == 6 || (moment == 5 && pick != 0);
        expect_same(rt, &count, &usize::from(there), &(moment, pick));
    }
}

// Stops the test of an append that is stopped at this call and leaves a body on the disk otherwise, or one in its image.
fn expect_stopped(rt: &impl Abort, alloc: Global, call: u64) {
    let mut disk = disk_of(rt, alloc, &[0], &[call]);
    assert!(rt; !appended(rt, alloc, &mut disk));
    let found = read(rt, alloc, &mut disk).bodies.len();
    let image = bodies(rt, alloc, &disk, 4, 0);
    expect_same(rt, &(found, image), &(usize::from(call == 3), 0), &call);
}

#[test]
fn an_append_that_is_stopped_leaves_no_body(rt: HostRuntime) {
    for call in 0..4_u64 {
        expect_stopped(&rt, rt.alloc(), call);
    }
}

// Whether file 9 is there in an image of a disk, and whether a body is.
fn named(rt: &impl Abort, alloc: Global, disk: &MemDisk, moment: u64, pick: u8) -> (bool, bool) {
    let mut image = disk.image(moment, pick).expect(rt, "memory");
    let ids = image.file_ids().expect(rt, "a list of files");
    let bodies = read(rt, alloc, &mut image).bodies.len();
    (ids.contains(&FileId::of(9)), bodies == 1)
}

// The calls are: the adoption, the body and a sync, the open gate and a sync. The file's name is on the disk from the first
// sync on, and before it where the pick leaves the names of odd ids; so no image has the body and not the file.
#[test]
fn a_file_comes_to_the_disk_before_its_record(rt: HostRuntime) {
    let mut disk = disk_of(&rt, rt.alloc(), &[0], &[]);
    assert!(rt; adopts(&rt, rt.alloc(), &mut disk));
    assert!(rt; appended(&rt, rt.alloc(), &mut disk));
    for moment in 0..6_u64 {
        for pick in 0..5_u8 {
            let file = moment > 2 || (moment > 0 && pick != 0 && pick != 3);
            let body = moment == 5 || (moment == 4 && pick != 0);
            let found = named(&rt, rt.alloc(), &disk, moment, pick);
            expect_same(&rt, &found, &(file, body), &(moment, pick));
        }
    }
}
