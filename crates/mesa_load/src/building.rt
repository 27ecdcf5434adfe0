// The files of a batch, written side by side.
ghost use Rattle.std.specs.Prelude.{◌≡◌, ◌<◌, ℕ, List, [], Some, length, slice_index_or, IfOk, IfSome};
ghost use Rattle.std.specs.List.{AllByRecursion};
ghost use Rattle.std.specs.Thread.{IsSend};
ghost use Rattle.mesa_open_files.specs.mesa_columns.Rows.{AreRowsOf};
ghost use Rattle.mesa_batch.specs.Gathered.{rows_at};
ghost use Rattle.mesa_load.specs.declared.building.FileToWrite.{FileToWrite as AnyFileToWrite};
ghost use Rattle.mesa_load.specs.Collected.{HasCause, IsBegun};
ghost use Rattle.mesa_load.specs.Filing.{AreFileRows, file_rows};
ghost use Rattle.mesa_load.specs.FilesToWrite.{AreDone, HasFiled, HaveIds, HasWritten, IsFit, IsReady, ProgressOf, content_in, view_in};
ghost use Rattle.mesa_schema.specs.Changes.{columns_of};
ghost use Rattle.mesa_schema.specs.Views.{view_columns, view_rows};

use crate::file_rows::FileRows;
use crate::viewing::viewed;
use crate::writing::write_file;
use mesa_batch::Batch;
use mesa_delta::WriteError;
use mesa_disk::{Draft, Made};
use mesa_file::FileId;
use mesa_open_files::MadeFile;
use mesa_schema::{Evolving, RowList, Schema, groups_rise};
use std::alloc::{AllocError, Global};
use std::thread::Threads;
use std::{mem, thread};

/// How many threads write a batch's files at most.
const THREADS: usize = 8;

/// A file of a batch that is to be written: of a table's rows, or of one of its views over them.
#[derive(Drop)]
pub(crate) struct FileToWrite<'a> {
    pub evolving: &'a Evolving,
    pub view: Option<u8>,
    pub batch: &'a Batch,
    pub table: u16,
}

/// How far a file is.
pub(crate) enum WriteState<M, T> {
    /// Its draft, which will have this id, is empty.
    Begun(FileId, T),
    Finished(MadeFile<M>),
    Failed(WriteError, T),
    /// Its draft is being written to.
    Lent,
}

// The file of rows as far as it comes.
fn write_rows<M: Made, T: Draft<M>>(
    alloc: Global,
    id: FileId,
    draft: T,
    schema: &Schema,
    rows: FileRows,
) -> WriteState<M, T>
    requires empty { (bytes : List ℕ) → T.bytes draft ≡ Some bytes → bytes ≡ [] }
    requires own { T.id_of draft ≡ id }
    requires some { 0 < length (file_rows rows) }
    requires rows { AreFileRows schema.now (file_rows rows) }
    ensures { HasWritten M.bytes M.id_of T.faults (record { columns = schema.now; rows = file_rows rows.entry }) id draft result }
{
    match write_file(alloc, draft, id, schema, rows) {
        Ok(file) => WriteState::Finished(file),
        Err((error, draft)) => WriteState::Failed(error, draft),
    }
}

// A view's columns, and its content over these rows.
fn view_content(
    alloc: Global,
    evolving: &Evolving,
    view: u8,
    batch: &Batch,
    table: u16,
) -> Result<(Schema, RowList), AllocError>
    requires there { view < length evolving.now.views }
    requires some { 0 < length (rows_at table batch.now) }
    requires rows { AreFileRows (columns_of evolving.now) (rows_at table batch.now) }
    ensures columns { IfOk result (λ x. x.0 ≡ view_columns (columns_of evolving.now) (view_in evolving.now view)) }
    ensures content { IfOk result (λ x. x.1 ≡ view_rows (columns_of evolving.now) (view_in evolving.now view) (rows_at table batch.now)) }
    ensures some { IfOk result (λ x. 0 < length x.1) }
    ensures rows { IfOk result (λ x. AreFileRows x.0 x.1) }
{
    groups_rise();
    let schema = evolving.view_schema(view)?;
    let found = viewed(alloc, evolving, view, batch, table)?;
    Ok((schema, found))
}

// Writes the file of a job through this draft.
fn write_draft<M: Made, T: Draft<M>>(
    alloc: Global,
    job: &FileToWrite,
    id: FileId,
    draft: T,
) -> WriteState<M, T>
    requires empty { (bytes : List ℕ) → T.bytes draft ≡ Some bytes → bytes ≡ [] }
    requires own { T.id_of draft ≡ id }
    requires fit { IsFit job.now }
    ensures { HasWritten M.bytes M.id_of T.faults (content_in job.now) id draft result }
{
    let evolving = job.evolving;
    let Some(view) = job.view else {
        let rows = FileRows::Batched {
            batch: job.batch,
            table: job.table,
        };
        return write_rows(alloc, id, draft, evolving.present(), rows);
    };
    match view_content(alloc, evolving, view, job.batch, job.table) {
        Ok((schema, found)) => {
            let rows = FileRows::Listed(found.as_slice());
            write_rows(alloc, id, draft, &schema, rows)
        }
        Err(_) => WriteState::Failed(WriteError::Memory, draft),
    }
}

// Writes the file of a job.
fn write_job<M: Made, T: Draft<M>>(
    alloc: Global,
    job: &FileToWrite,
    progress: &mut WriteState<M, T>,
)
    requires { IsReady T.bytes T.id_of job.now progress.old }
    ensures { HasFiled M.bytes M.id_of T.faults job.now progress.old progress.new }
{
    let before = mem::replace(progress, WriteState::Lent);
    let WriteState::Begun(id, draft) = before else {
        unreachable!()
    };
    let after = write_draft(alloc, job, id, draft);
    let lent = mem::replace(progress, after);
    let WriteState::Lent = lent else {
        unreachable!()
    };
}

/// Writes the files of all jobs through these drafts, in a few threads.
pub(crate) fn write_all<R: Threads + Sync, M: Made, T: Draft<M>>(
    rt: &R,
    alloc: Global,
    jobs: &[FileToWrite],
    mut files: Vec<WriteState<M, T>>,
) -> Vec<WriteState<M, T>>
    requires each { length files.items ≡ length jobs.now }
    requires begun { AllByRecursion (IsBegun T.bytes T.id_of T.faults) files.items }
    requires fit { AllByRecursion IsFit jobs.now }
    ensures done { AreDone M.bytes M.id_of T.faults jobs.now result.items }
    ensures causes { AllByRecursion (HasCause T.faults) result.items }
    ensures each { length result.items ≡ length files.items }
    ensures numbered { (ids : List ℕ) → HaveIds M.id_of ids files.items → HaveIds M.id_of ids result.items }
{
    write_jobs(rt, alloc, jobs, &mut files);
    files
}

// Writes the files of all jobs, each in its place.
fn write_jobs<R: Threads + Sync, M: Made, T: Draft<M>>(
    rt: &R,
    alloc: Global,
    jobs: &[FileToWrite],
    files: &mut [WriteState<M, T>],
)
    requires each { length files.old ≡ length jobs.now }
    requires ready { (i : ℕ) (j : AnyFileToWrite) (p : ProgressOf M T) → i < length jobs.now → IsReady T.bytes T.id_of (slice_index_or jobs.now i j) (slice_index_or files.old i p) }
    ensures { (i : ℕ) (j : AnyFileToWrite) (p : ProgressOf M T) → i < length jobs.now → HasFiled M.bytes M.id_of T.faults (slice_index_or jobs.now i j) (slice_index_or files.old i p) (slice_index_or files.new i p) }
{
    let write = |i: usize, file: &mut WriteState<M, T>|
        requires { IsSend M.row × IsSend T.row × (i < length jobs.now) × ((j : AnyFileToWrite) → IsReady T.bytes T.id_of (slice_index_or jobs.now i j) file.now) }
        ensures { (j : AnyFileToWrite) → HasFiled M.bytes M.id_of T.faults (slice_index_or jobs.entry.now i j) file.entry.now file.exit.now }
    { write_job(alloc, &jobs[i], file) };
    thread::for_each_mut(rt, files, THREADS, &write);
}
