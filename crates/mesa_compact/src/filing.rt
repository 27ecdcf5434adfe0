// One file: begun through a new draft, finished, or given up.
ghost use Rattle.std.specs.Prelude.{◌≡◌, ◌<◌, ◌≤◌, ℕ, List, [], length, IfOk};
ghost use Rattle.mesa_open_files.specs.mesa_io.Causes.{Rose};
ghost use Rattle.mesa_open_files.specs.mesa_columns.declared.rows.Row.{Row as AnyRow};
ghost use Rattle.mesa_delta.specs.Writing.{HasTaken, columns_of, draft_of, id_of};
ghost use Rattle.mesa_open_files.specs.Made.{IsMadeFile};
ghost use Rattle.mesa_compact.specs.Writing.{HasCauses};

use mesa_delta::{DeltaWriter, FileError};
use mesa_disk::{Bench, DraftError, Made};
use mesa_file::FileId;
use mesa_open_files::{CompactError, MadeFile};
use mesa_schema::Schema;
use std::alloc::Global;

/// A file of no rows yet, through a new draft under this id.
pub fn begin_file<M: Made, B: Bench<M>>(
    alloc: Global,
    bench: &mut B,
    id: FileId,
    schema: &Schema,
) -> Result<DeltaWriter<M, B::Draft>, CompactError>
    ensures taken { IfOk result (λ w. HasTaken B.Draft.bytes w []) }
    ensures columns { IfOk result (λ w. columns_of w ≡ schema.now) }
    ensures own { IfOk result (λ w. B.Draft.id_of (draft_of w) ≡ id_of w) }
    ensures id { IfOk result (λ w. id_of w ≡ id) }
    ensures fresh { IfOk result (λ w. B.Draft.faults (draft_of w) ≡ 0) }
    ensures causes { (reads : List ℕ) → HasCauses (B.faults bench.old) (B.faults bench.new) reads reads (λ d. ⊥) result }
{
    let draft = match bench.draft(id) {
        Ok(draft) => draft,
        Err(DraftError::Failed) => return Err(CompactError::Draft),
        Err(DraftError::Memory) => return Err(CompactError::File(FileError::Memory)),
    };
    match DeltaWriter::new(alloc, draft, id, schema) {
        Ok(writer) => Ok(writer),
        Err((_, draft)) => {
            bench.spoil(draft);
            Err(CompactError::File(FileError::Memory))
        }
    }
}

/// The file of all rows that a writer has taken.
pub fn end_file<M: Made, B: Bench<M>>(
    bench: &mut B,
    writer: DeltaWriter<M, B::Draft>,
) -> Result<MadeFile<M>, CompactError>
    requires taken { (rows : List AnyRow) × (0 < length rows) × HasTaken B.Draft.bytes writer rows }
    requires own { B.Draft.id_of (draft_of writer) ≡ id_of writer }
    requires fresh { B.Draft.faults (draft_of writer) ≡ 0 }
    ensures made { IfOk result (λ made. (rows : List AnyRow) → 0 < length rows → HasTaken B.Draft.bytes writer rows → IsMadeFile M.bytes M.id_of (record { columns = columns_of writer; rows = rows }) made) }
    ensures id { IfOk result (λ made. M.id_of made.made ≡ id_of writer) }
    ensures causes { (reads : List ℕ) → HasCauses (B.faults bench.old) (B.faults bench.new) reads reads (λ d. ⊥) result }
{
    writer.held();
    match writer.finish() {
        Ok((made, file)) => Ok(MadeFile { made, file }),
        Err((error, draft)) => {
            bench.spoil(draft);
            Err(CompactError::from(error))
        }
    }
}

/// Gives back the draft of a file that isn't finished.
pub fn give_up<M: Made, B: Bench<M>>(bench: &mut B, writer: DeltaWriter<M, B::Draft>)
    ensures counted { 0 < B.Draft.faults (draft_of writer) → Rose (B.faults bench.old) (B.faults bench.new) }
    ensures quiet { B.Draft.faults (draft_of writer) ≡ 0 → B.faults bench.new ≡ B.faults bench.old }
    ensures later { B.faults bench.old ≤ B.faults bench.new }
{
    bench.spoil(writer.abandon());
}
