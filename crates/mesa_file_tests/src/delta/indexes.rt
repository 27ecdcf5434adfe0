// Files that are opened on a disk that keeps their indexes.
use crate::delta::files::{ONE_DIGEST, ONE_FILE, disk_with, reference, schema};
use crate::expected::expect_same;
use mesa_disk::{Disk, FileRef, MemDisk, MemMade};
use mesa_index_cache::IndexedDisk;
use mesa_key::{Format, KeyType};
use mesa_open_files::{DeltaDisk, Met, Wanted, open_one};
use mesa_schema::Evolving;
use std::alloc::Global;
use std::process::Abort;
use std::sync::Arc;

// How many rows the first block of the file has, once it is opened.
fn open_and_count(
    rt: &impl Abort,
    alloc: Global,
    disk: &mut IndexedDisk<MemMade, MemDisk>,
    file: &FileRef,
    evolving: &Arc<Evolving>,
) -> usize {
    let wanted = Wanted {
        file,
        evolving,
        epoch: 0,
    };
    let mut input = match open_one(alloc, disk, &wanted) {
        Met::Input(input) => input,
        Met::Damaged(_) | Met::Fault | Met::Memory => panic!(rt; "not opened"),
    };
    let Ok(block) = input.reader.block(0) else {
        panic!(rt; "no block");
    };
    block.len()
}

// Stops the test where the file's index is kept and isn't to be, or the other way round.
fn expect_kept(
    rt: &impl Abort,
    disk: &IndexedDisk<MemMade, MemDisk>,
    file: &FileRef,
    table: &Evolving,
    wanted: bool,
) {
    let found = disk.find_index(file, table.present()).is_some();
    expect_same(rt, &found, &wanted, &"an index is kept");
}

#[test]
fn keeps_an_index_until_its_file_is_removed(rt: HostRuntime) {
    let alloc = rt.alloc();
    let bytes = Vec::from_slice(alloc, &ONE_FILE).expect(&rt, "memory");
    let mut disk = IndexedDisk::new(alloc, disk_with(&rt, alloc, bytes));
    let file = reference(alloc, Format::One, 103, 1, 1, ONE_DIGEST);
    let table = Evolving::new(alloc, schema(&rt, alloc, KeyType::Int));
    let table = Arc::new(alloc, table).expect(&rt, "memory");
    expect_kept(&rt, &disk, &file, &table, false);
    for times in 0..2 {
        let rows = open_and_count(&rt, alloc, &mut disk, &file, &table);
        expect_same(&rt, &rows, &1, &times);
        expect_kept(&rt, &disk, &file, &table, true);
    }
    expect_same(&rt, &disk.remove(file.id).is_ok(), &true, &"removed");
    expect_kept(&rt, &disk, &file, &table, false);
    drop(disk.into_inner());
}
