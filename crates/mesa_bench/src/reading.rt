// Reading a file of rows, in memory.
use crate::columns::schema;
use crate::failure::Failure;
use mesa_delta::{DeltaReader, FileError};
use mesa_disk::{Disk, FileId, FileReader, FileRef, MemDisk, MemMade, MemReader, OpenFault};
use mesa_schema::Schema;
use mesa_value::Amount;
use std::alloc::Global;

/// The amounts of all rows of a file, added up.
pub fn read_file(alloc: Global, made: MemMade, file: &FileRef) -> Result<Amount, Failure> {
    let reader = adopted(alloc, made, file.id)?;
    let schema = schema(alloc)?;
    match read_all(alloc, reader, file, &schema) {
        Ok(total) => Ok(total),
        Err(_) => Err(Failure::Refused),
    }
}

// A reader of the file, on a disk of its own.
fn adopted(alloc: Global, made: MemMade, id: FileId) -> Result<MemReader, Failure> {
    let mut disk = MemDisk::new(
        alloc,
        Vec::new(alloc),
        Vec::new(alloc),
        Vec::new(alloc),
        Vec::new(alloc),
    );
    let Err(OpenFault::Absent) = disk.reader(id) else {
        return Err(Failure::Refused);
    };
    if disk.adopt(made, id).is_err() {
        return Err(Failure::Refused);
    }
    match disk.reader(id) {
        Ok(reader) => Ok(reader),
        Err(_) => Err(Failure::Refused),
    }
}

// The amounts of all rows of the file that a reader reads.
fn read_all<R: FileReader + Drop>(
    alloc: Global,
    reader: R,
    file: &FileRef,
    schema: &Schema,
) -> Result<Amount, FileError> {
    let mut reader = match DeltaReader::attach(alloc, reader, file, schema) {
        Ok(reader) => reader,
        Err((error, reader)) => {
            drop(reader);
            return Err(error);
        }
    };
    let total = add_up(&mut reader);
    let _ = reader.detach();
    total
}

// The amounts of all rows, block by block.
fn add_up<R: FileReader>(reader: &mut DeltaReader<R>) -> Result<Amount, FileError> {
    let mut total: Amount = 0;
    for i in 0..reader.blocks() {
        let block = reader.block(i)?;
        for place in 0..block.len() {
            if let Some(amount) = block.row(place).values.first() {
                total = total.wrapping_add(*amount);
            }
        }
    }
    Ok(total)
}
