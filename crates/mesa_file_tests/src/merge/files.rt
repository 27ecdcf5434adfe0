// Files of a key column and a value, written byte by byte, and inputs over them.
ghost use Rattle.std.specs.Prelude.{◌≡◌, ◌<◌, [], length};
ghost use Rattle.mesa_file_tests.specs.Opened.{IsOpened};

use mesa_delta::{DeltaReader, Input};
use mesa_disk::{ByteList, Disk, FileId, FileReader, FileRef, MemDisk, MemReader};
use mesa_key::{Format, KeyType};
use mesa_list::Items;
use mesa_schema::{Evolving, KeyColumn, MAX_VIEWS, Name, Schema, ValueColumn};
use mesa_value::{Agg, Amount};
use sha2::{Digest, Sha256};
use std::alloc::{AllocError, Global};
use std::process::Abort;
use std::sync::Arc;

/// A name that is known to be one.
pub fn name(rt: &impl Abort, alloc: Global, text: &str) -> Name {
    Name::read(alloc, text.as_bytes()).expect(rt, "a name")
}

/// A list of one name.
pub fn names(rt: &impl Abort, alloc: Global, text: &str) -> Vec<Name> {
    vec![in alloc; name(rt, alloc, text)].expect(rt, "memory")
}

fn keys(rt: &impl Abort, alloc: Global) -> Vec<KeyColumn> {
    let name = name(rt, alloc, "k");
    let kind = KeyType::Int;
    vec![in alloc; KeyColumn { name, kind }].expect(rt, "memory")
}

fn values(rt: &impl Abort, alloc: Global, agg: Agg) -> Vec<ValueColumn> {
    let name = name(rt, alloc, "v");
    vec![in alloc; ValueColumn { name, agg }].expect(rt, "memory")
}

// The columns `k` and `v`, whose values are put together in this way.
fn schema(rt: &impl Abort, alloc: Global, agg: Agg) -> Schema {
    let keys = keys(rt, alloc);
    let values = values(rt, alloc, agg);
    Schema::build(keys, values).ok().expect(rt, "a schema")
}

// Adds a view of both columns.
fn add_view(rt: &impl Abort, alloc: Global, table: &mut Evolving)
    requires few { length table.old.views < MAX_VIEWS }
    ensures begun { table.new.begins ≡ table.old.begins }
    ensures unchanged { table.new.changes ≡ table.old.changes }
{
    let view = name(rt, alloc, "w");
    let keys = names(rt, alloc, "k");
    let values = names(rt, alloc, "v");
    let Ok(()) = table.add_view(view, keys, values) else {
        panic!(rt; "no view");
    };
}

/// A table of these columns, with a view of both where its values may stand in one.
pub fn table(rt: &impl Abort, alloc: Global, agg: Agg) -> Evolving
    ensures begun { result.begins ≡ 0 }
    ensures unchanged { result.changes ≡ [] }
{
    let mut table = Evolving::new(alloc, schema(rt, alloc, agg));
    if agg != Agg::Replace {
        add_view(rt, alloc, &mut table);
    }
    table
}

/// How a file spells its rows: its format, and how its values are put together.
#[derive(Clone, Copy)]
pub struct Form {
    pub format: Format,
    pub agg: Agg,
}

/// A key as it is spelled.
pub fn spelled(key: i64) -> [u8; 8] {
    (key ^ i64::MIN).to_be_bytes()
}

// The first key of some rows as it is spelled.
fn first_key(rows: &[(i64, Amount)]) -> [u8; 8] {
    rows.first().map_or([0; 8], |(key, _)| spelled(*key))
}

// Puts a value: in the second format a sum has sixteen bytes, and every other value has the last eight of them.
fn put_value(bytes: &mut Vec<u8>, form: Form, value: Amount) -> Result<(), AllocError> {
    let cell = value.to_be_bytes();
    match (form.format, form.agg) {
        (Format::Two, Agg::Sum) => bytes.extend_from_slice(&cell),
        _ => bytes.extend_from_slice(&cell[8..]),
    }
}

// Puts the block of these rows.
fn put_block(bytes: &mut Vec<u8>, form: Form, rows: &[(i64, Amount)]) -> Result<(), AllocError> {
    bytes.push(0)?;
    bytes.extend_from_slice(&(rows.len().min(1024) as u16).to_be_bytes())?;
    for (key, _) in rows {
        bytes.extend_from_slice(&spelled(*key))?;
    }
    for (_, value) in rows {
        put_value(bytes, form, *value)?;
    }
    Ok(())
}

// Puts the entry of the block of these rows, which begins at this place and has these bytes.
fn put_entry(
    tail: &mut Vec<u8>,
    rows: &[(i64, Amount)],
    place: u64,
    block: &[u8],
) -> Result<(), AllocError> {
    tail.extend_from_slice(&first_key(rows))?;
    tail.extend_from_slice(&[0; 8])?;
    tail.extend_from_slice(&place.to_be_bytes())?;
    tail.extend_from_slice(&(block.len().min(65536) as u32).to_be_bytes())?;
    tail.extend_from_slice(&Sha256::digest(block))
}

// What a file ends with.
fn ending(format: Format) -> &'static [u8; 10] {
    match format {
        Format::One => b"\x01\x01MESADLT1",
        Format::Two => b"\x01\x01MESADLT2",
    }
}

// Puts what follows the entries of so many blocks of rows.
fn put_counts(
    tail: &mut Vec<u8>,
    form: Form,
    rows: &[(i64, Amount)],
    blocks: u32,
) -> Result<(), AllocError> {
    tail.extend_from_slice(&[0, u8::from(form.agg == Agg::Replace) * 3])?;
    tail.extend_from_slice(&(rows.len() as u64).to_be_bytes())?;
    tail.extend_from_slice(&blocks.to_be_bytes())?;
    tail.extend_from_slice(ending(form.format))
}

// Puts a block of rows, and its entry in the tail.
fn put_part(
    rt: &impl Abort,
    alloc: Global,
    form: Form,
    rows: &[(i64, Amount)],
    bytes: &mut Vec<u8>,
    tail: &mut Vec<u8>,
) {
    let mut block = Vec::new(alloc);
    put_block(&mut block, form, rows).expect(rt, "memory");
    put_entry(tail, rows, bytes.len() as u64, &block).expect(rt, "memory");
    bytes.extend_from_slice(&block).expect(rt, "memory");
}

// Puts the blocks of these rows, and gives how many they are.
fn put_blocks(
    rt: &impl Abort,
    alloc: Global,
    form: Form,
    rows: &[(i64, Amount)],
    bytes: &mut Vec<u8>,
    tail: &mut Vec<u8>,
) -> u32 {
    let mut blocks: u32 = 0;
    for part in rows.chunks(1024) {
        put_part(rt, alloc, form, part, bytes, tail);
        blocks = blocks.saturating_add(1);
    }
    blocks
}

/// The file of these rows, 1,024 in each block, with its reference.
pub fn file_of(
    rt: &impl Abort,
    alloc: Global,
    id: FileId,
    form: Form,
    rows: &[(i64, Amount)],
) -> (Vec<u8>, FileRef) {
    let mut bytes = Vec::new(alloc);
    let mut tail = Vec::new(alloc);
    let blocks = put_blocks(rt, alloc, form, rows, &mut bytes, &mut tail);
    put_counts(&mut tail, form, rows, blocks).expect(rt, "memory");
    bytes.extend_from_slice(&tail).expect(rt, "memory");
    let last = rows.last().map_or([0; 8], |(key, _)| spelled(*key));
    let file = FileRef {
        format: form.format,
        id,
        len: bytes.len() as u64,
        rows: rows.len() as u64,
        blocks,
        first: Items::new(alloc),
        last: Items::from_bytes(alloc, &last).expect(rt, "memory"),
        aggregates: Items::new(alloc),
        digest: Sha256::digest(tail.as_slice()),
    };
    (bytes, file)
}

// A disk with this file, of which this read fails, counted from 0.
fn disk_with(
    rt: &impl Abort,
    alloc: Global,
    id: FileId,
    bytes: Vec<u8>,
    fails: Option<u64>,
) -> MemDisk {
    let file = (id, ByteList::from_vec(bytes));
    let files = vec![in alloc; file].expect(rt, "memory");
    let (zero, one) = (Vec::new(alloc), Vec::new(alloc));
    let mut disk = MemDisk::new(alloc, zero, one, files, Vec::new(alloc));
    if let Some(nth) = fails {
        disk.spoil_read(id, nth);
    }
    disk
}

/// A reader of these bytes, of which this read fails, counted from 0.
pub fn reader_of(
    rt: &impl Abort,
    alloc: Global,
    id: FileId,
    bytes: Vec<u8>,
    fails: Option<u64>,
) -> MemReader {
    let mut disk = disk_with(rt, alloc, id, bytes, fails);
    disk.reader(id).expect(rt, "a reader")
}

/// An input over the file of this reference, of a table that was never changed.
pub fn input_of<R: FileReader + Drop>(
    rt: &impl Abort,
    alloc: Global,
    reader: R,
    file: &FileRef,
    table: &Arc<Evolving>,
) -> Input<R>
    requires { table.now.value.changes ≡ [] }
    ensures { IsOpened R.bytes file.now table.now.value result }
{
    let Ok(reader) = DeltaReader::attach(alloc, reader, file, table.present()) else {
        panic!(rt; "not attached");
    };
    Input {
        reader,
        evolving: table.clone().expect(rt, "memory"),
        epoch: 0,
    }
}
