// Merges of several files, of which first blocks are read before one is tested.
ghost use Rattle.std.specs.Prelude.{◌≡◌, []};
ghost use Rattle.mesa_schema.specs.Changes.{columns_of};
ghost use Rattle.mesa_merge.specs.Inputs.{AreInputs};
ghost use Rattle.mesa_merge.specs.Merged.{IsGoing};

use crate::expected::expect_same;
use crate::merge::files::{Form, file_of, input_of, table};
use crate::merge::merging::{Written, reader_over};
use crate::merge::splitting::damage;
use mesa_delta::{FileError, Input};
use mesa_disk::{FileId, FileReader, FileRef, MemReader};
use mesa_key::Format;
use mesa_merge::Merge;
use mesa_schema::Evolving;
use mesa_value::{Agg, Amount};
use std::alloc::Global;
use std::process::Abort;
use std::sync::Arc;

// Files of one block each, whose ids are 1 and so on.
#[derive(Clone, Copy)]
struct Case {
    count: i64,
    /// The file whose block isn't the recorded one.
    damaged: Option<i64>,
    /// The file whose block can't be read.
    unread: Option<i64>,
}

// The file with this id: a row of a key that each file holds, and one of its own.
fn written(rt: &impl Abort, alloc: Global, case: &Case, id: i64) -> Written {
    let form = Form {
        format: Format::Two,
        agg: Agg::Sum,
    };
    let rows = [(0, 1), (id, 1)];
    let (bytes, file) = file_of(rt, alloc, FileId::of(id.unsigned_abs()), form, &rows);
    let mut bytes = bytes;
    if case.damaged == Some(id) {
        damage(&mut bytes);
    }
    Written { bytes, file }
}

// Readers of the files, each with its reference. The first read is of a file's tail, and none is asked for its block twice.
fn readers(rt: &impl Abort, alloc: Global, case: &Case) -> Vec<(MemReader, FileRef)> {
    let mut readers = Vec::new(alloc);
    for id in 1..=case.count {
        let written = written(rt, alloc, case, id);
        let fails = if case.unread == Some(id) { 1 } else { 2 };
        let reader = reader_over(rt, alloc, &written, Some(fails));
        readers.push((reader, written.file)).expect(rt, "memory");
    }
    readers
}

// Inputs over the files.
fn inputs_over<R: FileReader + Drop>(
    rt: &impl Abort,
    alloc: Global,
    table: &Arc<Evolving>,
    readers: Vec<(R, FileRef)>,
) -> Vec<Input<R>>
    requires { table.now.value.changes ≡ [] }
    ensures { AreInputs R.bytes (columns_of table.now.value) result.items }
{
    let mut inputs = Vec::new(alloc);
    'readers: for (reader, file) in readers {
        inputs
            .push(input_of(rt, alloc, reader, &file, table))
            .expect(rt, "memory");
    }
    inputs
}

// A merge of the files, of which nothing is read yet.
fn merge_over<R: FileReader + Drop>(
    rt: &impl Abort,
    alloc: Global,
    readers: Vec<(R, FileRef)>,
) -> Merge<R>
    ensures { IsGoing R.bytes result }
{
    let table = Arc::new(alloc, table(rt, alloc, Agg::Sum)).expect(rt, "memory");
    let inputs = inputs_over(rt, alloc, &table, readers);
    match Merge::new(alloc, inputs) {
        Ok(merge) => merge,
        Err(_) => panic!(rt; "no merge"),
    }
}

// Stops the test where the first row isn't the sum over all files, behind which each has a row at hand.
fn expect_sum(rt: &impl Abort, alloc: Global, count: i64) {
    let case = Case {
        count,
        damaged: None,
        unread: None,
    };
    let mut merge = merge_over(rt, alloc, readers(rt, alloc, &case));
    expect_same(rt, &merge.next(), &Ok(true), &count);
    let total = merge.row().values.first().copied();
    expect_same(rt, &total, &Some(Amount::from(count)), &count);
    expect_same(rt, &merge.held(), &count.unsigned_abs(), &count);
}

// As many files as have first blocks read at once, and one less and one more; and several times as many.
#[test]
fn adds_up_over_all_files(rt: HostRuntime) {
    for count in [3, 4, 5, 11] {
        expect_sum(&rt, rt.alloc(), count);
    }
}

// What is told of a merge's first row, which can't be given: the same when it is asked again.
fn told(rt: &impl Abort, alloc: Global, case: &Case) -> FileError {
    let mut merge = merge_over(rt, alloc, readers(rt, alloc, case));
    let Err(told) = merge.next() else {
        panic!(rt; "a first row");
    };
    let first = told;
    expect_same(rt, &merge.next().err(), &Some(told), &"asked again");
    first
}

#[test]
fn tells_damage_of_the_third_of_four(rt: HostRuntime) {
    let case = Case {
        count: 4,
        damaged: Some(3),
        unread: None,
    };
    let FileError::Damaged(damage) = told(&rt, rt.alloc(), &case) else {
        panic!(&rt; "not damaged");
    };
    expect_same(&rt, &damage.file, &FileId::of(3), &"third");
}

// A read that fails is told and no damage, whichever of the files that are read at once is damaged.
#[test]
fn tells_a_failed_read_of_the_third_of_four(rt: HostRuntime) {
    for damaged in [None, Some(1), Some(2), Some(4)] {
        let case = Case {
            count: 4,
            damaged,
            unread: Some(3),
        };
        let told = told(&rt, rt.alloc(), &case);
        expect_same(&rt, &told, &FileError::Read, &damaged);
    }
}
