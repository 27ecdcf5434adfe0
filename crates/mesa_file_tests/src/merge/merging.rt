// Files merged into one.
ghost use Rattle.std.specs.Prelude.{◌≡◌, [], None};
ghost use Rattle.std.specs.List.{AllByRecursion};
ghost use Rattle.mesa_file.specs.declared.file_ref.FileRef.{FileRef as AnyFile};
ghost use Rattle.mesa_open_files.specs.Spares.{IsSpareOf};
ghost use Rattle.mesa_open_files.specs.Tasks.{IsTask};
ghost use Rattle.mesa_file_tests.specs.Opened.{AreOpened, IsOpenedPart};

use crate::merge::files::{Form, file_of, input_of, reader_of, table};
use mesa_compact::merge_task;
use mesa_delta::Input;
use mesa_disk::{FileId, FileReader, FileRef, MemBench, MemMade, MemReader};
use mesa_file::Serials;
use mesa_key::Format;
use mesa_open_files::{CompactError, NewDelta, Spare, Task};
use mesa_schema::Evolving;
use mesa_span::Work;
use mesa_value::{Agg, Amount};
use std::alloc::Global;
use std::process::Abort;
use std::sync::Arc;

/// What came of a merge.
pub type Merged = Result<NewDelta<MemMade>, CompactError>;

/// Rows of an older and a newer file, whose ids are 1 and 2, and the formats of both.
#[derive(Clone, Copy)]
pub struct Two<'a> {
    pub agg: Agg,
    pub formats: (Format, Format),
    pub older: &'a [(i64, Amount)],
    pub newer: &'a [(i64, Amount)],
}

/// A file's bytes, and its reference.
#[derive(Drop)]
pub struct Written {
    pub bytes: Vec<u8>,
    pub file: FileRef,
}

/// The files of an older and a newer batch of rows.
#[derive(Drop)]
pub struct Files {
    pub older: Written,
    pub newer: Written,
}

/// The files of these rows.
pub fn files_of(rt: &impl Abort, alloc: Global, two: &Two) -> Files {
    let agg = two.agg;
    let (format, later) = two.formats;
    let first = Form { format, agg };
    let second = Form { format: later, agg };
    let (bytes, file) = file_of(rt, alloc, FileId::of(1), first, two.older);
    let older = Written { bytes, file };
    let (bytes, file) = file_of(rt, alloc, FileId::of(2), second, two.newer);
    let newer = Written { bytes, file };
    Files { older, newer }
}

/// A reader of a file, of which this read fails, counted from 0.
pub fn reader_over(
    rt: &impl Abort,
    alloc: Global,
    written: &Written,
    fails: Option<u64>,
) -> MemReader {
    let bytes = Vec::from_slice(alloc, &written.bytes).expect(rt, "memory");
    reader_of(rt, alloc, written.file.id, bytes, fails)
}

/// Inputs over both files.
pub fn inputs_of<R: FileReader + Drop>(
    rt: &impl Abort,
    alloc: Global,
    files: &Files,
    table: &Arc<Evolving>,
    older: R,
    newer: R,
) -> Vec<Input<R>>
    requires { table.now.value.changes ≡ [] }
    ensures { AreOpened R.bytes files.now.older.file files.now.newer.file table.now.value result.items }
{
    let mut inputs = Vec::new(alloc);
    inputs
        .push(input_of(rt, alloc, older, &files.older.file, table))
        .expect(rt, "memory");
    inputs
        .push(input_of(rt, alloc, newer, &files.newer.file, table))
        .expect(rt, "memory");
    inputs
}

/// The inputs of one part of a merge of these files, over readers of both.
pub fn part_of<R: FileReader + Drop>(
    rt: &impl Abort,
    alloc: Global,
    files: &Files,
    table: &Arc<Evolving>,
    older: R,
    newer: R,
) -> Spare<R>
    requires { table.now.value.changes ≡ [] }
    ensures { IsOpenedPart R.bytes files.now.older.file files.now.newer.file table.now.value result }
{
    let inputs = inputs_of(rt, alloc, files, table, older, newer);
    Spare { inputs }
}

/// The task of a merge of two files to a base, with readers for its first part and for further ones.
pub fn task_of<R: FileReader + Drop>(
    table: &Evolving,
    first: Spare<R>,
    spare: Vec<Spare<R>>,
) -> Task<R>
    requires begun { table.now.begins ≡ 0 }
    requires unchanged { table.now.changes ≡ [] }
    requires opened { (older newer : AnyFile) × IsOpenedPart R.bytes older newer table.now first × AllByRecursion (IsOpenedPart R.bytes older newer table.now) spare.items }
    ensures task { IsTask R.bytes table.now result }
    ensures spare { ((r : R) → R.bytes r ≡ None) → AllByRecursion (IsSpareOf R.bytes result) result.spare.items }
{
    let Spare { inputs } = first;
    Task {
        table: 0,
        work: Work::Base { to: 1 },
        lease: 0,
        epoch: 0,
        inputs,
        damage: None,
        spare,
    }
}

// Merges two files in one thread, over readers of both.
fn merge_files<R: FileReader + Drop>(
    rt: &impl Abort,
    alloc: Global,
    bench: &mut MemBench,
    agg: Agg,
    files: &Files,
    older: R,
    newer: R,
) -> Merged {
    let table = Arc::new(alloc, table(rt, alloc, agg)).expect(rt, "memory");
    let part = part_of(rt, alloc, files, &table, older, newer);
    let mut task = task_of(&table, part, Vec::new(alloc));
    let mut ids = Serials::new(1, 2);
    merge_task(alloc, bench, &mut ids, &mut task)
}

/// Merges two files through a bench of which these calls fail. In each this read fails, counted from 0.
pub fn merged(
    rt: &impl Abort,
    alloc: Global,
    two: &Two,
    calls: &[(u64, u64)],
    fails: Option<u64>,
) -> Merged {
    let calls = Vec::from_slice(alloc, calls).expect(rt, "memory");
    let mut bench = MemBench::new(alloc, calls);
    let files = files_of(rt, alloc, two);
    let older = reader_over(rt, alloc, &files.older, fails);
    let newer = reader_over(rt, alloc, &files.newer, fails);
    merge_files(rt, alloc, &mut bench, two.agg, &files, older, newer)
}
