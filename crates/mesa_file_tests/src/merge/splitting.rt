// Files merged in parts.
ghost use Rattle.std.specs.Prelude.{◌≡◌, [], None};
ghost use Rattle.std.specs.List.{AllByRecursion};
ghost use Rattle.mesa_file_tests.specs.Opened.{IsOpenedPart};

use crate::merge::files::table;
use crate::merge::merging::{Files, Merged, Two, files_of, part_of, reader_over, task_of};
use crate::merge::watched::{Gate, PartReader};
use mesa_disk::{FileReader, MemBench, MemReader};
use mesa_file::Serials;
use mesa_open_files::Spare;
use mesa_schema::Evolving;
use mesa_split::{merge_split, sample};
use mesa_value::Agg;
use std::alloc::Global;
use std::process::Abort;
use std::sync::Arc;
use std::thread::Threads;

/// Two files that are merged in parts.
#[derive(Clone, Copy)]
pub struct Case<'a> {
    pub two: &'a Two<'a>,
    pub parts: u8,
    /// The part whose readers fail when they read their first block.
    pub fails: Option<u8>,
    /// Whether the first block of the older file isn't the recorded one.
    pub is_damaged: bool,
}

// Readers of both files for one part.
type Pair<'a> = (PartReader<'a, MemReader>, PartReader<'a, MemReader>);

fn pair<'a>(
    rt: &impl Abort,
    alloc: Global,
    case: &Case,
    files: &Files,
    part: u8,
    gate: &'a Gate,
) -> Pair<'a> {
    let fails = (case.fails == Some(part)).then_some(1);
    let older = reader_over(rt, alloc, &files.older, fails);
    let newer = reader_over(rt, alloc, &files.newer, fails);
    (
        PartReader::new(older, part, gate),
        PartReader::new(newer, part, gate),
    )
}

// Readers for each part after the first.
fn further<'a>(
    rt: &impl Abort,
    alloc: Global,
    case: &Case,
    files: &Files,
    gate: &'a Gate,
) -> Vec<Pair<'a>> {
    let mut pairs = Vec::new(alloc);
    for part in 1..case.parts {
        pairs
            .push(pair(rt, alloc, case, files, part, gate))
            .expect(rt, "memory");
    }
    pairs
}

// The inputs and views of each part after the first.
fn spares_of<R: FileReader + Drop>(
    rt: &impl Abort,
    alloc: Global,
    files: &Files,
    table: &Arc<Evolving>,
    pairs: Vec<(R, R)>,
) -> Vec<Spare<R>>
    requires { table.now.value.changes ≡ [] }
    ensures { AllByRecursion (IsOpenedPart R.bytes files.now.older.file files.now.newer.file table.now.value) result.items }
{
    let mut spare = Vec::new(alloc);
    'pairs: for (older, newer) in pairs {
        spare
            .push(part_of(rt, alloc, files, table, older, newer))
            .expect(rt, "memory");
    }
    spare
}

// Merges two files in at most so many parts: the first over this pair of readers, and each other one over a further pair.
fn split_files<T: Abort + Threads + Sync, R: FileReader + Drop>(
    rt: &T,
    alloc: Global,
    bench: &mut MemBench,
    agg: Agg,
    parts: u8,
    files: &Files,
    first: (R, R),
    further: Vec<(R, R)>,
) -> Merged
    requires { (r : R) → R.bytes r ≡ None }
{
    let table = Arc::new(alloc, table(rt, alloc, agg)).expect(rt, "memory");
    let (older, newer) = first;
    let part = part_of(rt, alloc, files, &table, older, newer);
    let spare = spares_of(rt, alloc, files, &table, further);
    let mut task = task_of(&table, part, spare);
    let cuts = sample(alloc, &task.inputs, parts).expect(rt, "memory");
    assert!(rt; cuts.len() <= task.spare.len());
    let mut ids = Serials::new(1, 2);
    merge_split(rt, alloc, bench, &mut ids, &mut task, &cuts)
}

/// Changes a byte of a file's first block.
pub fn damage(bytes: &mut [u8]) {
    if let Some(byte) = bytes.get_mut(4) {
        *byte ^= 1;
    }
}

/// Merges two files in parts through a bench of which these calls fail. The readers come by a gate.
pub fn split<T: Abort + Threads + Sync>(
    rt: &T,
    alloc: Global,
    case: &Case,
    calls: &[(u64, u64)],
    gate: &Gate,
) -> Merged {
    let calls = Vec::from_slice(alloc, calls).expect(rt, "memory");
    let mut bench = MemBench::new(alloc, calls);
    let mut files = files_of(rt, alloc, case.two);
    if case.is_damaged {
        damage(&mut files.older.bytes);
    }
    let first = pair(rt, alloc, case, &files, 0, gate);
    let more = further(rt, alloc, case, &files, gate);
    let agg = case.two.agg;
    split_files(rt, alloc, &mut bench, agg, case.parts, &files, first, more)
}
