// Versions that bring nothing cost nothing, however many tables there are.
use crate::store::take_in;
use mesa_catalog::Catalog;
use std::alloc::Global;
use std::fs;
use std::process::Abort;
use std::test::Fail;

// Takes in the record of a table, whose name has two letters for its number.
fn add_table(rt: &impl Abort, alloc: Global, catalog: &mut Catalog, number: u8) {
    let name = [b'a' + number / 16 % 2, b'a' + number % 16];
    let body = [2, 2, name[0], name[1], 1, 1, b'k', 0, 1, 1, b'v', 0];
    take_in(rt, alloc, catalog, &body);
}

// Takes in the record of a version without rows.
fn add_version(rt: &impl Abort, alloc: Global, catalog: &mut Catalog, version: u32) {
    let [a, b, c, d] = version.to_be_bytes();
    take_in(rt, alloc, catalog, &[5, a, b, c, d, 0, 0]);
}

// How many pages of memory the process has.
fn pages(files: HostRuntime) -> Result<u64, Fail> {
    let text = fs::read_to_string(&files, "/proc/self/statm")?;
    let word = text.as_str().split(' ').nth(1).ok_or("no second word")?;
    Ok(word.parse::<u64>()?)
}

// A byte for each version and table would take 7,812 pages of 4 KiB.
fn grow(rt: &impl Abort, files: HostRuntime, catalog: &mut Catalog) -> Result<(), Fail> {
    for number in 0..32_u8 {
        add_table(rt, files.alloc(), catalog, number);
    }
    let before = pages(files)?;
    for version in 0..1_000_000_u32 {
        add_version(rt, files.alloc(), catalog, version);
    }
    let grown = pages(files)?.saturating_sub(before);
    assert!(rt; grown < 1000, "{grown} pages");
    assert_eq!(rt; (catalog.tables(), catalog.newest()), (32, Some(999_999)));
    Ok(())
}

#[test]
fn a_million_empty_versions_take_no_memory_for_each_table(rt: HostRuntime) -> Result<(), Fail> {
    let mut catalog = Catalog::new(rt.alloc());
    grow(&rt, rt, &mut catalog)
}
