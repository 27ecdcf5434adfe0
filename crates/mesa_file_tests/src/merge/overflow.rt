// A merge that is asked again behind a sum that leaves its type.
ghost use Rattle.mesa_merge.specs.Merged.{IsGoing};

use crate::expected::expect_same;
use crate::merge::files::table;
use crate::merge::merging::{Files, Two, files_of, inputs_of, reader_over};
use mesa_delta::{FileError, Input};
use mesa_disk::{Damage, FileId, FileReader, MemReader, Seen};
use mesa_key::Format;
use mesa_merge::Merge;
use mesa_value::{Agg, Amount};
use std::alloc::Global;
use std::process::Abort;
use std::sync::Arc;

// A merge of two files, of which nothing is read yet.
fn merge_of<R: FileReader + Drop>(
    rt: &impl Abort,
    alloc: Global,
    files: &Files,
    older: R,
    newer: R,
) -> Merge<R>
    ensures { IsGoing R.bytes result }
{
    let table = Arc::new(alloc, table(rt, alloc, Agg::Sum)).expect(rt, "memory");
    let inputs = inputs_of(rt, alloc, files, &table, older, newer);
    match Merge::new(alloc, inputs) {
        Ok(merge) => merge,
        Err(_) => panic!(rt; "no merge"),
    }
}

// Asks three times for a row that can't be given: each time the same is told.
fn ask_again<R: FileReader + Drop>(rt: &impl Abort, merge: &mut Merge<R>, wanted: FileError)
    requires { IsGoing R.bytes merge.old }
{
    let Err(told) = merge.next() else {
        panic!(rt; "a sum that leaves its type");
    };
    expect_same(rt, &told, &wanted, &"asked");
    expect_same(rt, &merge.next().err(), &Some(wanted), &"asked again");
    expect_same(rt, &merge.next().err(), &Some(wanted), &"asked once more");
}

// The sum of the one key that both files hold leaves its type.
static ONE_KEY: Two<'static> = Two {
    agg: Agg::Sum,
    formats: (Format::Two, Format::Two),
    older: &[(5, Amount::MAX)],
    newer: &[(5, 1)],
};

#[test]
fn tells_a_sum_again(rt: HostRuntime) {
    let alloc = rt.alloc();
    let files = files_of(&rt, alloc, &ONE_KEY);
    let older = reader_over(&rt, alloc, &files.older, None);
    let newer = reader_over(&rt, alloc, &files.newer, None);
    let mut merge = merge_of(&rt, alloc, &files, older, newer);
    let damage = Damage {
        file: FileId::of(2),
        place: 0,
        want: Seen::Fits,
        found: Seen::Misfit(0),
    };
    ask_again(&rt, &mut merge, FileError::Damaged(damage));
    let inputs: Vec<Input<MemReader>> = merge.into_inputs();
    expect_same(&rt, &inputs.len(), &2, &"inputs that are given back");
}
