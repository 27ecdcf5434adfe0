// Folders that can't be opened.
use crate::dir::folders::{opened, remove};
use crate::expected::expect_same;
use mesa_dir::{DirDisk, Host};
use mesa_disk::{Area, Bench, Disk, FileId, OpenFault};
use std::fs;
use std::process::Abort;
use std::thread::Threads;

// Asserts that each call that can fail does, and that the areas are told as two bytes long.
fn fails_in_each_call<R: Abort + Threads + Sync + Copy + Send>(
    rt: &R,
    disk: &mut DirDisk<Host<R>>,
) {
    let mut two = [0u8; 2];
    assert_eq!(rt; disk.journal_len(Area::Zero), 2);
    assert!(rt; disk.journal_read(Area::Zero, 0, &mut two).is_err());
    assert_eq!(rt; disk.journal_len(Area::One), 2);
    assert!(rt; disk.journal_read(Area::One, 0, &mut two).is_err());
    assert!(rt; disk.journal_write(Area::Zero, 0, b"a".as_slice()).is_err());
    assert!(rt; disk.journal_sync().is_err());
    assert!(rt; disk.remove(FileId::of(1)).is_err());
    assert!(rt; matches!(disk.reader(FileId::of(1)), Err(OpenFault::Failed)));
    assert!(rt; disk.file_ids().is_err());
    let mut bench = disk.bench().expect(rt, "a bench");
    assert!(rt; bench.draft(FileId::of(1)).is_err());
    expect_same(rt, &disk.clock(), &3, &"the clock");
}

// Opens a folder that isn't to be had.
fn open_in_vain<R: Abort + Threads + Sync + Copy + Send>(rt: &R, files: HostRuntime, name: &str) {
    let mut disk = DirDisk::open(Host::new(*rt, files), name).expect(rt, "a disk");
    fails_in_each_call(rt, &mut disk);
}

#[test]
fn a_folder_that_is_none_fails(rt: HostRuntime) {
    let name = "mesa_dir_flat";
    fs::write(&rt, name, b"no folder".as_slice()).expect(&rt, "a written file");
    open_in_vain(&rt, rt, name);
    fs::remove_file(&rt, name).expect(&rt, "a file that goes");
}

// A disk is opened, and in vain a second time; the first goes on unharmed.
fn open_twice<R: Abort + Threads + Sync + Copy + Send>(rt: &R, files: HostRuntime, name: &str) {
    let mut first = opened(rt, files, name);
    let written = first.journal_write(Area::Zero, 0, b"abc".as_slice());
    assert!(rt; written.is_ok());
    open_in_vain(rt, files, name);
    assert!(rt; first.journal_sync().is_ok());
}

// Once the first is let go the folder can be opened.
#[test]
fn a_folder_that_another_has_fails(rt: HostRuntime) {
    let name = "mesa_dir_locked";
    open_twice(&rt, rt, name);
    let third = DirDisk::open(Host::new(rt, rt), name).expect(&rt, "a disk");
    assert_eq!(rt; third.journal_len(Area::Zero), 3);
    drop(third);
    remove(&rt, rt, name);
}
