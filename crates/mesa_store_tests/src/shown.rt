// What a store says, as text.
use crate::spelled::{FILES, FIRST_FILE};
use mesa_catalog::Catalog;
use mesa_disk::{Area, Disk, FileId, FileReader, MemDisk, MemReader};
use mesa_schema::Evolving;
use mesa_span::Ranges;
use std::alloc::{AllocError, Global};
use std::process::Abort;
use std::test::Fail;

// The versions, and how often tables, views and columns were made or changed.
fn put_versions(alloc: Global, out: &mut String, catalog: &Catalog) -> Result<(), AllocError> {
    let floor = catalog.floor();
    let newest = catalog.newest();
    let generation = catalog.generation();
    let part = format!(in alloc; "floor={floor} newest={newest:?} generation={generation}")?;
    out.push_str(part.as_str())
}

// A table with its oldest version, whose deltas have these ranges.
fn put_meta(
    alloc: Global,
    out: &mut String,
    evolving: &Evolving,
    oldest: u32,
    totals: &[u128],
    ranges: &Ranges,
) -> Result<(), AllocError> {
    let views = evolving.views();
    let epoch = evolving.epoch();
    let base = ranges.base_to;
    let cumulatives = ranges.cumulatives.as_slice();
    let part = format!(in alloc;
        "; views={views} epoch={epoch} oldest={oldest} totals={totals:?} base={base:?} cumulatives={cumulatives:?}"
    )?;
    out.push_str(part.as_str())
}

fn put_table(
    rt: &impl Abort,
    alloc: Global,
    out: &mut String,
    catalog: &Catalog,
    table: u16,
) -> Result<(), AllocError> {
    assert!(rt; table < catalog.tables());
    let ranges = catalog.ranges(table)?;
    let totals = catalog.totals(table).as_slice();
    let oldest = catalog.oldest(table);
    put_meta(alloc, out, catalog.evolving(table), oldest, totals, &ranges)
}

fn put_number(alloc: Global, out: &mut String, number: u64) -> Result<(), AllocError> {
    let part = format!(in alloc; " {number}")?;
    out.push_str(part.as_str())
}

// The numbers in their run of the files that the catalogue names, rising.
fn put_files(alloc: Global, out: &mut String, catalog: &Catalog) -> Result<(), AllocError> {
    for file in &catalog.recorded_files(alloc)? {
        put_number(alloc, out, file.id.number() % FIRST_FILE)?;
    }
    Ok(())
}

fn put_catalog(
    rt: &impl Abort,
    alloc: Global,
    out: &mut String,
    catalog: &Catalog,
) -> Result<(), AllocError> {
    put_versions(alloc, out, catalog)?;
    for table in 0..catalog.tables() {
        put_table(rt, alloc, out, catalog, table)?;
    }
    out.push_str("; files")?;
    put_files(alloc, out, catalog)
}

/// The versions, the tables and the files that a catalogue names.
pub fn shown(rt: &impl Abort, alloc: Global, catalog: &Catalog) -> Result<String, AllocError> {
    let mut text = String::new(alloc);
    put_catalog(rt, alloc, &mut text, catalog)?;
    Ok(text)
}

// The bytes of a file.
fn bytes_of(alloc: Global, reader: &mut MemReader) -> Result<Vec<u8>, Fail> {
    let mut bytes = vec![in alloc; 0u8; reader.len() as usize]?;
    reader.read_at(0, &mut bytes).map_err(|_| "file not read")?;
    Ok(bytes)
}

fn file_of(alloc: Global, disk: &mut MemDisk, id: FileId) -> Result<Vec<u8>, Fail> {
    let mut reader = disk.reader(id).map_err(|_| "not opened")?;
    let bytes = bytes_of(alloc, &mut reader);
    disk.retire(reader);
    bytes
}

// Bytes in digits.
fn digits_of(alloc: Global, bytes: &[u8]) -> Result<String, Fail> {
    Ok(hex::encode(alloc, bytes)?)
}

// Stops the test where a file isn't the one that was written down for its number.
fn expect_file(rt: &impl Abort, alloc: Global, disk: &mut MemDisk, id: FileId) -> Result<(), Fail> {
    let bytes = file_of(alloc, disk, id)?;
    let digits = digits_of(alloc, &bytes)?;
    let number = (id.number() % FIRST_FILE) as usize;
    assert!(rt; number < FILES.len());
    assert_eq!(rt; digits.as_bytes(), FILES[number]);
    Ok(())
}

/// Stops the test where a file that is named isn't there as it was written down, or where another one is there.
pub fn expect_files(
    rt: &impl Abort,
    alloc: Global,
    disk: &mut MemDisk,
    catalog: &Catalog,
) -> Result<(), Fail> {
    let named = catalog.named_files(alloc)?;
    let adopted = disk.file_ids().expect(rt, "adopted files").len();
    assert_eq!(rt; adopted, named.len());
    for id in &named {
        expect_file(rt, alloc, disk, *id)?;
    }
    Ok(())
}

/// The bytes of area 0, in digits.
pub fn area_of(alloc: Global, disk: &mut MemDisk) -> Result<String, Fail> {
    let mut bytes = vec![in alloc; 0u8; disk.journal_len(Area::Zero) as usize]?;
    disk.journal_read(Area::Zero, 0, &mut bytes)
        .map_err(|_| "area not read")?;
    digits_of(alloc, &bytes)
}
