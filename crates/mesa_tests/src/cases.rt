// Tables of calls, and of what they leave.
use crate::call::{Case, Left, call_over, empty_disk, run};
use crate::expected::{expect_same, expect_that};
use crate::stores::shown::{are_numbered, shown, spelled};
use crate::texts::{Part, whole};
use mesa_disk::{Disk, FileId, MemDisk};
use std::alloc::Global;
use std::process::Abort;
use std::str;
use std::sync::Wait;
use std::thread::Threads;

fn expect_turns(rt: &impl Abort, case: &Case<'_>, left: &Left) {
    let turns = left.history.len();
    let wanted = case.turns.unwrap_or(turns);
    expect_same(rt, &turns, &wanted, &("the turns of", case.name));
}

fn expect_files(rt: &impl Abort, case: &Case<'_>, disk: &mut MemDisk) {
    if let Some(files) = case.files {
        let ids = disk.file_ids().expect(rt, "a list of files");
        let are_same = are_numbered(&ids, files);
        expect_that(rt, are_same, &ids.as_slice(), &("the files of", case.name));
    }
}

/// Stops the test where a disk holds another store.
pub fn expect_store(rt: &impl Abort, alloc: Global, disk: &mut MemDisk, store: &str, name: &str) {
    let left = shown(rt, alloc, disk);
    expect_same(rt, &left.as_str(), &store, &name);
}

/// Stops the test of a call that printed another text or ended with another status.
pub fn expect_text(rt: &impl Abort, name: &str, left: &Left, status: u8, text: &str) {
    let printed = str::from_utf8(&left.text).unwrap_or("no text");
    expect_same(rt, &(left.status, printed), &(status, text), &name);
}

/// Stops the test of a case over a disk whose call leaves something else; gives back the disk.
pub fn expect_over<R: Abort + Threads + Wait + Sync>(
    rt: &R,
    alloc: Global,
    disk: MemDisk,
    case: &Case<'_>,
) -> MemDisk {
    let mut left = call_over(rt, alloc, disk, case);
    expect_text(rt, case.name, &left, case.status, case.text);
    expect_turns(rt, case, &left);
    expect_files(rt, case, &mut left.disk);
    if let Some(store) = case.left {
        expect_store(rt, alloc, &mut left.disk, store, case.name);
    }
    left.disk
}

/// The same over the case's own store.
pub fn expect_case<R: Abort + Threads + Wait + Sync>(
    rt: &R,
    alloc: Global,
    case: &Case<'_>,
) -> MemDisk {
    let mut disk = spelled(rt, alloc, case.store, &[]);
    if let Some((file, nth)) = case.read_fails {
        disk.spoil_read(FileId::of(file), nth);
    }
    expect_over(rt, alloc, disk, case)
}

/// The same of each case.
pub fn expect_cases<R: Abort + Threads + Wait + Sync>(rt: &R, alloc: Global, cases: &[Case<'_>]) {
    for case in cases {
        let _disk = expect_case(rt, alloc, case);
    }
}

/// The same of one case after the other over one disk.
pub fn expect_in_turn_over<R: Abort + Threads + Wait + Sync>(
    rt: &R,
    alloc: Global,
    mut disk: MemDisk,
    cases: &[Case<'_>],
) {
    for case in cases {
        disk = expect_over(rt, alloc, disk, case);
    }
}

/// The same over a disk that is empty at first.
pub fn expect_in_turn<R: Abort + Threads + Wait + Sync>(rt: &R, alloc: Global, cases: &[Case<'_>]) {
    expect_in_turn_over(rt, alloc, empty_disk(alloc), cases);
}

/// A script by templates, and what its run over an empty store prints.
pub struct LongCase {
    pub name: &'static str,
    pub script: &'static [Part],
    pub status: u8,
    pub text: &'static [Part],
}

fn expect_long_case<R: Abort + Threads + Wait + Sync>(rt: &R, alloc: Global, case: &LongCase) {
    let script = whole(rt, alloc, case.script);
    let text = whole(rt, alloc, case.text);
    let left = run(rt, alloc, script.as_str());
    expect_text(rt, case.name, &left, case.status, text.as_str());
}

/// Stops the test of a long case whose run prints something else.
pub fn expect_long_cases<R: Abort + Threads + Wait + Sync>(
    rt: &R,
    alloc: Global,
    cases: &[LongCase],
) {
    for case in cases {
        expect_long_case(rt, alloc, case);
    }
}
