// Files that were written by hand, and how they are read.
use mesa_delta::{DeltaReader, FileError};
use mesa_disk::{ByteList, Disk, FileId, FileRef, MemDisk, MemReader};
use mesa_key::{Format, KeyType};
use mesa_list::Items;
use mesa_schema::{KeyColumn, Name, Schema, ValueColumn};
use mesa_value::Agg;
use std::alloc::Global;
use std::process::Abort;

/// The file of the row with key 1 and value 5, of format 1.
pub const ONE_FILE: [u8; 103] = [
    0, 0, 1, 128, 0, 0, 0, 0, 0, 0, 1, 0, 0, 0, 0, 0, 0, 0, 5, 128, 0, 0, 0, 0, 0, 0, 1, 0, 0, 0,
    0, 0, 0, 0, 0, 0, 0, 0, 0, 0, 0, 0, 0, 0, 0, 0, 19, 203, 67, 254, 254, 55, 84, 230, 198, 84,
    125, 181, 212, 239, 64, 215, 52, 100, 147, 35, 235, 84, 218, 181, 125, 32, 47, 24, 237, 180,
    26, 30, 254, 0, 0, 0, 0, 0, 0, 0, 0, 0, 1, 0, 0, 0, 1, 1, 1, 77, 69, 83, 65, 68, 76, 84, 49,
];

/// The SHA-256 of its tail.
pub const ONE_DIGEST: [u8; 32] = [
    96, 132, 91, 33, 213, 96, 80, 188, 204, 191, 190, 245, 49, 59, 129, 144, 116, 74, 200, 187,
    215, 95, 173, 114, 0, 217, 81, 254, 18, 104, 211, 147,
];

/// The same row's file of format 2.
pub const TWO_FILE: [u8; 111] = [
    0, 0, 1, 128, 0, 0, 0, 0, 0, 0, 1, 0, 0, 0, 0, 0, 0, 0, 0, 0, 0, 0, 0, 0, 0, 0, 5, 128, 0, 0,
    0, 0, 0, 0, 1, 0, 0, 0, 0, 0, 0, 0, 0, 0, 0, 0, 0, 0, 0, 0, 0, 0, 0, 0, 27, 59, 103, 161, 157,
    110, 16, 159, 86, 153, 69, 92, 123, 135, 158, 42, 172, 156, 35, 155, 197, 100, 162, 148, 215,
    52, 23, 77, 174, 190, 32, 202, 148, 0, 0, 0, 0, 0, 0, 0, 0, 0, 1, 0, 0, 0, 1, 1, 1, 77, 69, 83,
    65, 68, 76, 84, 50,
];

/// The SHA-256 of its tail.
pub const TWO_DIGEST: [u8; 32] = [
    200, 28, 41, 111, 15, 110, 218, 207, 96, 57, 150, 61, 93, 239, 42, 45, 186, 5, 44, 252, 221,
    128, 37, 57, 2, 58, 191, 60, 134, 28, 199, 54,
];

/// Their id.
pub const ONE_ID: u64 = 1 << 40;

fn name(rt: &impl Abort, alloc: Global, text: &str) -> Name {
    Name::read(alloc, text.as_bytes()).expect(rt, "a name")
}

fn keys(rt: &impl Abort, alloc: Global, kind: KeyType) -> Vec<KeyColumn> {
    let name = name(rt, alloc, "k");
    vec![in alloc; KeyColumn { name, kind }].expect(rt, "memory")
}

fn values(rt: &impl Abort, alloc: Global) -> Vec<ValueColumn> {
    let name = name(rt, alloc, "v");
    let agg = Agg::Sum;
    vec![in alloc; ValueColumn { name, agg }].expect(rt, "memory")
}

/// One key column of this type, and one sum.
pub fn schema(rt: &impl Abort, alloc: Global, kind: KeyType) -> Schema {
    let keys = keys(rt, alloc, kind);
    let values = values(rt, alloc);
    Schema::build(keys, values).ok().expect(rt, "a schema")
}

/// A reference with no keys and no aggregates, which no reader looks at.
pub fn reference(
    alloc: Global,
    format: Format,
    len: u64,
    rows: u64,
    blocks: u32,
    digest: [u8; 32],
) -> FileRef {
    FileRef {
        format,
        id: FileId::of(ONE_ID),
        len,
        rows,
        blocks,
        first: Items::new(alloc),
        last: Items::new(alloc),
        aggregates: Items::new(alloc),
        digest,
    }
}

/// A disk with a file of these bytes.
pub fn disk_with(rt: &impl Abort, alloc: Global, bytes: Vec<u8>) -> MemDisk {
    let file = (FileId::of(ONE_ID), ByteList::from_vec(bytes));
    let files = vec![in alloc; file].expect(rt, "memory");
    let (zero, one) = (Vec::new(alloc), Vec::new(alloc));
    MemDisk::new(alloc, zero, one, files, Vec::new(alloc))
}

/// A reader of these bytes, of which this read fails, counted from 0.
pub fn open_file(rt: &impl Abort, alloc: Global, bytes: Vec<u8>, fails: Option<u64>) -> MemReader {
    let mut disk = disk_with(rt, alloc, bytes);
    if let Some(nth) = fails {
        disk.spoil_read(FileId::of(ONE_ID), nth);
    }
    disk.reader(FileId::of(ONE_ID)).expect(rt, "a reader")
}

/// The file of this reference, over these bytes.
pub fn attach(
    alloc: Global,
    reader: MemReader,
    file: &FileRef,
    schema: &Schema,
) -> Result<DeltaReader<MemReader>, FileError> {
    match DeltaReader::attach(alloc, reader, file, schema) {
        Ok(reader) => Ok(reader),
        Err((error, reader)) => {
            drop(reader);
            Err(error)
        }
    }
}

/// How many rows the file's blocks have, read one after the other; at most four are.
pub fn count_rows(
    alloc: Global,
    reader: MemReader,
    file: &FileRef,
    schema: &Schema,
) -> Result<usize, FileError> {
    match attach(alloc, reader, file, schema) {
        Ok(mut reader) => {
            let counted = count_blocks(&mut reader);
            drop(reader.detach());
            counted
        }
        Err(error) => Err(error),
    }
}

fn count_blocks(reader: &mut DeltaReader<MemReader>) -> Result<usize, FileError> {
    let mut rows: usize = 0;
    for i in 0..4 {
        if i < reader.blocks() {
            rows = rows.saturating_add(reader.block(i)?.len());
        }
    }
    Ok(rows)
}

/// How many rows the blocks of these bytes have, of which this read fails.
pub fn count_bytes(
    rt: &impl Abort,
    alloc: Global,
    bytes: Vec<u8>,
    fails: Option<u64>,
    file: &FileRef,
    kind: KeyType,
) -> Result<usize, FileError> {
    let reader = open_file(rt, alloc, bytes, fails);
    let schema = schema(rt, alloc, kind);
    count_rows(alloc, reader, file, &schema)
}
