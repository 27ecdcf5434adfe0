// The journal areas of a folder.
use crate::dir::folders::{opened, remove};
use crate::expected::expect_same;
use mesa_dir::{DirDisk, Host};
use mesa_disk::{Area, Disk};
use std::process::Abort;
use std::thread::Threads;

// Writes into both areas of a new disk.
fn write_areas<R: Abort + Threads + Sync + Copy + Send>(rt: &R, disk: &mut DirDisk<Host<R>>) {
    assert_eq!(rt; disk.journal_len(Area::Zero), 0);
    assert_eq!(rt; disk.journal_len(Area::One), 0);
    assert!(rt;
        disk.journal_write(Area::Zero, 0, b"abcd".as_slice())
            .is_ok()
    );
    assert!(rt; disk.journal_write(Area::Zero, 1, b"X".as_slice()).is_ok());
    assert!(rt; disk.journal_write(Area::One, 0, b"one".as_slice()).is_ok());
    assert!(rt; disk.journal_sync().is_ok());
    assert_eq!(rt; disk.journal_len(Area::Zero), 4);
    expect_same(rt, &disk.clock(), &4, &"the clock");
}

// Reads what was written.
fn read_areas<R: Abort + Threads + Sync + Copy + Send>(rt: &R, disk: &mut DirDisk<Host<R>>) {
    let mut four = [0u8; 4];
    assert_eq!(rt; disk.journal_len(Area::Zero), 4);
    assert!(rt; disk.journal_read(Area::Zero, 0, &mut four).is_ok());
    expect_same(rt, &four, &*b"aXcd", &"four bytes");
    let mut two = [0u8; 2];
    assert_eq!(rt; disk.journal_len(Area::One), 3);
    assert!(rt; disk.journal_read(Area::One, 1, &mut two).is_ok());
    expect_same(rt, &two, &*b"ne", &"two bytes");
    expect_same(rt, &disk.clock(), &0, &"the clock");
}

#[test]
fn areas_are_found_again(rt: HostRuntime) {
    let name = "mesa_dir_areas";
    let mut new = opened(&rt, rt, name);
    write_areas(&rt, &mut new);
    drop(new);
    let mut again = DirDisk::open(Host::new(rt, rt), name).expect(&rt, "a disk");
    read_areas(&rt, &mut again);
    remove(&rt, rt, name);
}
