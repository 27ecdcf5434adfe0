// Rows written into memory, as csv's default writer does. Writing there takes memory alone, so
// that nothing else makes it fail.
ghost use Rattle.std.specs.Prelude.{◌≡◌, ◌++◌, [], IfOk, OnOk};
ghost use Rattle.csv.specs.Records.{fields_of};
ghost use Rattle.csv.specs.Writing.{default_writer, row_text};
ghost use Rattle.mesa_print.specs.Writing.{IsBetween, lines_written};

use csv::{ByteRecord, Writer, WriterBuilder};
use std::alloc::{AllocError, Global};

/// A writer of rows, which may differ in length.
pub(crate) fn row_writer(alloc: Global) -> Writer<Vec<u8>>
    ensures empty { lines_written result ≡ [] }
    ensures between { IsBetween result }
{
    WriterBuilder::new()
        .flexible(true)
        .from_writer(Vec::new(alloc))
}

/// Writes the line of a row.
pub(crate) fn write_row(writer: &mut Writer<Vec<u8>>, fields: &ByteRecord) -> Result<(), AllocError>
    requires { IsBetween writer.old }
    ensures line { OnOk result (lines_written writer.new ≡ lines_written writer.old ++ row_text default_writer (fields_of fields.now)) }
    ensures between { OnOk result (IsBetween writer.new) }
{
    match writer.write_byte_record(fields) {
        Ok(()) => Ok(()),
        Err(_) => Err(AllocError),
    }
}

/// The lines that were written.
pub(crate) fn into_lines(writer: Writer<Vec<u8>>) -> Result<Vec<u8>, AllocError>
    ensures { IfOk result (λ lines. lines.items ≡ lines_written writer) }
{
    match writer.into_inner() {
        Ok(lines) => Ok(lines),
        Err(_) => Err(AllocError),
    }
}
