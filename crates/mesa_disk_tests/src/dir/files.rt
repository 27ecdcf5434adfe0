// Drafts, and adopted files as they are read.
use crate::dir::folders::{expect_exists, opened, remove};
use crate::expected::expect_same;
use mesa_dir::{DirBench, DirDisk, DirMade, DirReader, Host};
use mesa_disk::{Bench, Disk, Draft, FileId, FileReader, Made, OpenFault};
use std::fs;
use std::process::Abort;
use std::thread::Threads;

// The file of these bytes.
fn made<R: Abort + Threads + Sync + Copy + Send>(
    rt: &R,
    bench: &mut DirBench<Host<R>>,
    id: FileId,
    bytes: &[u8],
) -> DirMade<Host<R>> {
    let mut draft = bench.draft(id).expect(rt, "a draft");
    draft.append(bytes).expect(rt, "written bytes");
    match draft.finish() {
        Ok(made) => made,
        Err(_) => panic!(rt; "not finished"),
    }
}

// The file's name once it is adopted.
fn adopted() -> FileId {
    FileId::of(0x10000000000)
}

// Adopts a file under another name than its draft's.
fn adopt<R: Abort + Threads + Sync + Copy + Send>(
    rt: &R,
    files: HostRuntime,
    disk: &mut DirDisk<Host<R>>,
) {
    let mut bench = disk.bench().expect(rt, "a bench");
    let file = made(
        rt,
        &mut bench,
        FileId::of(0x0100000001),
        b"rowsmore".as_slice(),
    );
    expect_exists(rt, files, "mesa_dir_files/0000000100000001.draft", true);
    assert_eq!(rt; file.len(), 8);
    assert!(rt; disk.adopt(file, adopted()).is_ok());
    expect_exists(rt, files, "mesa_dir_files/0000000100000001.draft", false);
    expect_exists(rt, files, "mesa_dir_files/0000010000000000.mesa", true);
}

// Removes the file, of which there may be no name any more.
fn remove_twice<R: Abort + Threads + Sync + Copy + Send>(rt: &R, disk: &mut DirDisk<Host<R>>) {
    assert!(rt; disk.remove(adopted()).is_ok());
    assert!(rt; disk.remove(adopted()).is_ok());
    assert!(rt; disk.journal_sync().is_ok());
}

// Stops the test of a reader that doesn't read the file.
fn expect_read<R: Abort + Threads + Sync + Copy + Send>(rt: &R, reader: &mut DirReader<Host<R>>) {
    assert_eq!(rt; reader.len(), 8);
    let mut five = [0u8; 5];
    assert!(rt; reader.read_at(3, &mut five).is_ok());
    expect_same(rt, &five, &*b"smore", &"five bytes");
}

// A reader outlasts the name of its file.
fn read_removed<R: Abort + Threads + Sync + Copy + Send>(rt: &R, disk: &mut DirDisk<Host<R>>) {
    let mut reader = disk.reader(adopted()).expect(rt, "a reader");
    remove_twice(rt, disk);
    expect_read(rt, &mut reader);
    disk.retire(reader);
    assert!(rt; matches!(disk.reader(adopted()), Err(OpenFault::Absent)));
}

#[test]
fn a_draft_becomes_a_file(rt: HostRuntime) {
    let name = "mesa_dir_files";
    let mut disk = opened(&rt, rt, name);
    adopt(&rt, rt, &mut disk);
    read_removed(&rt, &mut disk);
    drop(disk);
    remove(&rt, rt, name);
}

// A finished file is let go; no other draft takes its name meanwhile.
fn let_go<R: Abort + Threads + Sync + Copy + Send>(rt: &R, bench: &mut DirBench<Host<R>>) {
    let file = made(rt, bench, FileId::of(2), b"a".as_slice());
    assert!(rt; bench.draft(FileId::of(2)).is_err());
    drop(file);
}

// A draft is given up.
fn give_up<R: Abort + Threads + Sync + Copy + Send>(
    rt: &R,
    files: HostRuntime,
    bench: &mut DirBench<Host<R>>,
) {
    let draft = bench.draft(FileId::of(3)).expect(rt, "a draft");
    expect_exists(rt, files, "mesa_dir_drafts/0000000000000003.draft", true);
    bench.spoil(draft);
}

fn drafts_go<R: Abort + Threads + Sync + Copy + Send>(
    rt: &R,
    files: HostRuntime,
    bench: &mut DirBench<Host<R>>,
) {
    let_go(rt, bench);
    expect_exists(rt, files, "mesa_dir_drafts/0000000000000002.draft", false);
    give_up(rt, files, bench);
    expect_exists(rt, files, "mesa_dir_drafts/0000000000000003.draft", false);
}

#[test]
fn a_file_that_is_not_adopted_goes(rt: HostRuntime) {
    let name = "mesa_dir_drafts";
    let disk = opened(&rt, rt, name);
    let mut bench = disk.bench().expect(&rt, "a bench");
    drafts_go(&rt, rt, &mut bench);
    drop(bench);
    drop(disk);
    remove(&rt, rt, name);
}

static NAMES: [&str; 6] = [
    "mesa_dir_names/0000010000000AAA.mesa",
    "mesa_dir_names/x.mesa",
    "mesa_dir_names/x.draft",
    "mesa_dir_names/0000000000000009.mesa",
    "mesa_dir_names/0000000000000007.mesa",
    "mesa_dir_names/0000000100000003.draft",
];

fn write_names(rt: &impl Abort, files: HostRuntime, name: &str) {
    let _ = fs::remove_dir_all(&files, name);
    fs::create_dir(&files, name).expect(rt, "a folder");
    for path in &NAMES {
        fs::write(&files, *path, b"".as_slice()).expect(rt, "a written file");
    }
}

// The numbers of a disk's files.
fn expect_ids<R: Abort + Threads + Sync + Copy + Send>(rt: &R, disk: &mut DirDisk<Host<R>>) {
    let ids = disk.file_ids().expect(rt, "a list of files");
    assert_eq!(rt; ids.len(), 2);
    let numbers = (ids[0].number(), ids[1].number());
    expect_same(rt, &numbers, &(7, 9), &"the numbers of the files");
}

#[test]
fn other_names_are_left_alone(rt: HostRuntime) {
    let name = "mesa_dir_names";
    write_names(&rt, rt, name);
    let mut disk = DirDisk::open(Host::new(rt, rt), name).expect(&rt, "a disk");
    expect_ids(&rt, &mut disk);
    drop(disk);
    expect_exists(&rt, rt, "mesa_dir_names/0000000100000003.draft", false);
    expect_exists(&rt, rt, "mesa_dir_names/x.draft", true);
    expect_exists(&rt, rt, "mesa_dir_names/0000010000000AAA.mesa", true);
    remove(&rt, rt, name);
}

static CUT: &str = "mesa_dir_cut/0000000000000005.mesa";

// Stops the test of a reader that reads a file of four bytes which is shorter meanwhile.
fn expect_fault<R: Abort + Threads + Sync + Copy + Send>(rt: &R, reader: &mut DirReader<Host<R>>) {
    let mut four = [0u8; 4];
    assert_eq!(rt; reader.len(), 4);
    assert!(rt; reader.read_at(0, &mut four).is_err());
}

#[test]
fn a_file_that_was_cut_is_a_read_fault(rt: HostRuntime) {
    let name = "mesa_dir_cut";
    let mut disk = opened(&rt, rt, name);
    fs::write(&rt, CUT, b"four".as_slice()).expect(&rt, "a written file");
    let mut reader = disk.reader(FileId::of(5)).expect(&rt, "a reader");
    fs::write(&rt, CUT, b"f".as_slice()).expect(&rt, "a written file");
    expect_fault(&rt, &mut reader);
    disk.retire(reader);
    drop(disk);
    remove(&rt, rt, name);
}
