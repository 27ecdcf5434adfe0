// Writing a file of rows, in memory.
ghost use Rattle.std.specs.Prelude.{◌<◌, [], OnOk};
ghost use Rattle.mesa_delta.specs.Writing.{HasTaken, columns_of};
ghost use Rattle.mesa_bench.specs.Made.{HasColumns, rows_below};

use crate::columns::schema;
use crate::failure::Failure;
use crate::rows::{row, rows_follow};
use mesa_delta::{DeltaWriter, WriteError};
use mesa_disk::{Bench, Draft, FileId, FileRef, Made, MemBench, MemMade};
use mesa_schema::Schema;
use std::alloc::Global;

// The id of the file.
const FILE: u64 = 1;

// Gives a writer the first rows.
fn push_rows<M: Made, T: Draft<M>>(
    alloc: Global,
    writer: &mut DeltaWriter<M, T>,
    rows: u32,
) -> Result<(), WriteError>
    requires columns { HasColumns (columns_of writer.old) }
    requires none { HasTaken T.bytes writer.old [] }
    ensures { OnOk result (HasTaken T.bytes writer.new (rows_below rows)) }
{
    rows_follow();
    for number in 0..rows {
        let row = row(alloc, number)?;
        writer.push(row.lend())?;
    }
    Ok(())
}

fn write_rows(
    alloc: Global,
    bench: &mut MemBench,
    schema: &Schema,
    rows: u32,
) -> Result<(MemMade, FileRef), Failure>
    requires some { 0 < rows }
    requires columns { HasColumns schema.now }
{
    let id = FileId::of(FILE);
    let Ok(draft) = bench.draft(id) else {
        return Err(Failure::Refused);
    };
    let Ok(mut writer) = DeltaWriter::new(alloc, draft, id, schema) else {
        return Err(Failure::Memory);
    };
    let Ok(()) = push_rows(alloc, &mut writer, rows) else {
        let _ = writer.abandon();
        return Err(Failure::Refused);
    };
    writer.finish().or(Err(Failure::Refused))
}

/// Writes the file of so many rows, at least one.
pub fn write_file(alloc: Global, rows: u32) -> Result<(MemMade, FileRef), Failure> {
    if rows == 0 {
        return Err(Failure::Words);
    }
    let schema = schema(alloc)?;
    let mut bench = MemBench::new(alloc, Vec::new(alloc));
    write_rows(alloc, &mut bench, &schema, rows)
}
