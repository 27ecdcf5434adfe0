// One file of rows.
ghost use Rattle.std.specs.Prelude.{◌≡◌, ◌<◌, ℕ, List, [], Some, length, IfOk, IfErr, OnOk};
ghost use Rattle.mesa_open_files.specs.mesa_io.Causes.{HasFaultCause};
ghost use Rattle.mesa_delta.specs.declared.error.WriteError.TheVariants.{Draft as DraftFault};
ghost use Rattle.mesa_delta.specs.Writing.{HasTaken, columns_of, draft_of, id_of};
ghost use Rattle.mesa_open_files.specs.mesa_columns.declared.rows.Row.{Row as AnyRow};
ghost use Rattle.mesa_open_files.specs.Made.{IsMadeFile};
ghost use Rattle.mesa_load.specs.Filing.{AreFileRows, file_rows};
ghost use Rattle.mesa_load.specs.FilesToWrite.{IsCause};

use crate::file_rows::FileRows;
use mesa_delta::{DeltaWriter, WriteError};
use mesa_disk::{Draft, Made};
use mesa_file::FileId;
use mesa_open_files::MadeFile;
use mesa_schema::Schema;
use std::alloc::Global;

/// Writes the file of these rows through an empty draft.
pub(crate) fn write_file<M: Made, T: Draft<M>>(
    alloc: Global,
    draft: T,
    id: FileId,
    schema: &Schema,
    rows: FileRows,
) -> Result<MadeFile<M>, (WriteError, T)>
    requires empty { (bytes : List ℕ) → T.bytes draft ≡ Some bytes → bytes ≡ [] }
    requires own { T.id_of draft ≡ id }
    requires some { 0 < length (file_rows rows) }
    requires rows { AreFileRows schema.now (file_rows rows) }
    ensures made { IfOk result (λ made. IsMadeFile M.bytes M.id_of (record { columns = schema.now; rows = file_rows rows.entry }) made) }
    ensures id { IfOk result (λ made. M.id_of made.made ≡ id) }
    ensures cause { IfErr result (λ e. IsCause (T.faults draft) (T.faults e.1) e.0) }
{
    let mut writer = match DeltaWriter::new(alloc, draft, id, schema) {
        Ok(writer) => writer,
        Err((_, draft)) => return Err((WriteError::Memory, draft)),
    };
    match push_rows(&mut writer, rows) {
        Ok(()) => finish(writer),
        Err(error) => Err((error, writer.abandon())),
    }
}

// Gives a writer the rows.
fn push_rows<M: Made, T: Draft<M>>(
    writer: &mut DeltaWriter<M, T>,
    rows: FileRows,
) -> Result<(), WriteError>
    requires none { HasTaken T.bytes writer.old [] }
    requires rows { AreFileRows (columns_of writer.old) (file_rows rows) }
    ensures taken { OnOk result (HasTaken T.bytes writer.new (file_rows rows.entry)) }
    ensures columns { columns_of writer.new ≡ columns_of writer.old }
    ensures id { id_of writer.new ≡ id_of writer.old }
    ensures draft { T.id_of (draft_of writer.new) ≡ T.id_of (draft_of writer.old) }
    ensures cause { HasFaultCause (λ e. e ≡ DraftFault) (T.faults (draft_of writer.old)) (T.faults (draft_of writer.new)) result }
{
    'rows: for place in 0..rows.len() {
        writer.push(rows.row(place))?;
    }
    Ok(())
}

// The file of all rows that a writer has taken.
fn finish<M: Made, T: Draft<M>>(writer: DeltaWriter<M, T>) -> Result<MadeFile<M>, (WriteError, T)>
    requires taken { (rows : List AnyRow) × (0 < length rows) × HasTaken T.bytes writer rows }
    requires own { T.id_of (draft_of writer) ≡ id_of writer }
    ensures made { IfOk result (λ made. (rows : List AnyRow) → 0 < length rows → HasTaken T.bytes writer rows → IsMadeFile M.bytes M.id_of (record { columns = columns_of writer; rows = rows }) made) }
    ensures id { IfOk result (λ made. M.id_of made.made ≡ id_of writer) }
    ensures cause { IfErr result (λ e. IsCause (T.faults (draft_of writer)) (T.faults e.1) e.0) }
{
    writer.held();
    let (made, file) = writer.finish()?;
    Ok(MadeFile { made, file })
}
