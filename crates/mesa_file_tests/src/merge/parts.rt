// What comes of merging two files in parts.
use crate::expected::expect_same;
use crate::merge::merging::{Merged, Two, merged};
use crate::merge::splitting::{Case, split};
use crate::merge::watched::Gate;
use mesa_delta::FileError;
use mesa_disk::FileRef;
use mesa_key::Format;
use mesa_open_files::CompactError;
use mesa_value::{Agg, Amount};
use std::alloc::Global;
use std::process::Abort;
use std::thread::Threads;

// So many rows whose keys are at these distances.
fn rows(rt: &impl Abort, alloc: Global, step: i64, count: i64) -> Vec<(i64, Amount)> {
    let mut rows = Vec::new(alloc);
    for i in 0..count {
        let row = (i.wrapping_mul(step), Amount::from(i));
        rows.push(row).expect(rt, "memory");
    }
    rows
}

/// What tells a file from another one but for its id: the digest is of its tail, which has the digests of its blocks.
type Told = (u64, u64, u32, [u8; 32]);

fn told(file: &FileRef) -> Told {
    (file.len, file.rows, file.blocks, file.digest)
}

// What tells the files of a merged range, the table's and its views'.
fn all_told(rt: &impl Abort, alloc: Global, merged: Merged) -> Vec<Told> {
    let Ok(delta) = merged else {
        panic!(rt; "not merged");
    };
    let Some(files) = &delta.files else {
        panic!(rt; "no file");
    };
    let mut all = vec![in alloc; told(&files.file.file)].expect(rt, "memory");
    for view in &files.views {
        all.push(told(&view.file.file)).expect(rt, "memory");
    }
    all
}

// Stops the test where the files of a merge in parts, of one to so many, aren't those of a merge in one thread.
fn expect_parts<T: Abort + Threads + Sync>(rt: &T, alloc: Global, two: &Two, most: u8) {
    let wanted = all_told(rt, alloc, merged(rt, alloc, two, &[], None));
    for parts in 1..=most {
        let case = Case {
            two: &*two,
            parts,
            fails: None,
            is_damaged: false,
        };
        let found = all_told(rt, alloc, split(rt, alloc, &case, &[], &Gate::open()));
        expect_same(rt, &found, &wanted, &parts);
    }
}

// Files of these rows, of different formats.
fn two<'a>(agg: Agg, older: &'a [(i64, Amount)], newer: &'a [(i64, Amount)]) -> Two<'a> {
    Two {
        agg,
        formats: (Format::One, Format::Two),
        older,
        newer,
    }
}

#[test]
fn files_are_those_of_one_thread(rt: HostRuntime) {
    let alloc = rt.alloc();
    let older = rows(&rt, alloc, 3, 2500);
    let newer = rows(&rt, alloc, 2, 8500);
    expect_parts(&rt, alloc, &two(Agg::Sum, &older, &newer), 8);
    expect_parts(&rt, alloc, &two(Agg::Replace, &older, &newer), 8);
    let one = rows(&rt, alloc, 1, 1);
    expect_parts(&rt, alloc, &two(Agg::Sum, &one, &newer), 8);
    expect_parts(&rt, alloc, &two(Agg::Sum, &one, &one), 8);
}

// Files of some 30 and 50 blocks, which one part merges in five rounds and two in two.
#[test]
fn files_of_many_rounds_are_those_of_one_thread(rt: HostRuntime) {
    let alloc = rt.alloc();
    let older = rows(&rt, alloc, 3, 30_000);
    let newer = rows(&rt, alloc, 2, 50_000);
    expect_parts(&rt, alloc, &two(Agg::Sum, &older, &newer), 3);
}

// A reader of the first part doesn't answer until one of the second was asked, or it has given up.
#[test]
fn parts_are_merged_beside_each_other(rt: HostRuntime) {
    let alloc = rt.alloc();
    let older = rows(&rt, alloc, 3, 2500);
    let newer = rows(&rt, alloc, 2, 8500);
    let case = Case {
        two: &two(Agg::Sum, &older, &newer),
        parts: 4,
        fails: None,
        is_damaged: false,
    };
    let gate = Gate::new();
    assert!(&rt; split(&rt, alloc, &case, &[], &gate).is_ok());
    assert_eq!(&rt; gate.given_up(), 0);
}

// Stops the test of a merge in three parts that isn't refused for this reason.
fn expect_refusal<T: Abort + Threads + Sync>(
    rt: &T,
    alloc: Global,
    case: &Case,
    calls: &[(u64, u64)],
    wanted: CompactError,
) {
    let found = split(rt, alloc, case, calls, &Gate::open()).err();
    expect_same(rt, &found, &Some(wanted), &calls);
}

#[test]
fn a_failed_read_comes_before_damage(rt: HostRuntime) {
    let alloc = rt.alloc();
    let older = rows(&rt, alloc, 3, 2500);
    let newer = rows(&rt, alloc, 2, 8500);
    let damaged = Case {
        two: &two(Agg::Sum, &older, &newer),
        parts: 3,
        fails: None,
        is_damaged: true,
    };
    let found = split(&rt, alloc, &damaged, &[], &Gate::open()).err();
    assert!(&rt; matches!(found, Some(CompactError::File(FileError::Damaged(_)))));
    let unread = CompactError::File(FileError::Read);
    for part in 0..3 {
        let fails = Some(part);
        let case = Case { fails, ..damaged };
        expect_refusal(&rt, alloc, &case, &[], unread);
    }
}

static ONE_ROW_EACH: Two<'static> = Two {
    agg: Agg::Sum,
    formats: (Format::One, Format::Two),
    older: &[(1, 2)],
    newer: &[(1, 3)],
};

// Of the drafts of a table and its view the making, the appends of the block and of the tail, and the end.
#[test]
fn a_failed_call_of_a_draft_is_told(rt: HostRuntime) {
    let case = Case {
        two: &ONE_ROW_EACH,
        parts: 2,
        fails: None,
        is_damaged: false,
    };
    for draft in 0..2 {
        for call in 0..4 {
            let calls = [(draft, call)];
            expect_refusal(&rt, rt.alloc(), &case, &calls, CompactError::Draft);
        }
    }
}
