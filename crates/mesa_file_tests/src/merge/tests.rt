// What comes of merging two files.
use crate::expected::expect_same;
use crate::merge::files::{Form, file_of};
use crate::merge::merging::{Two, merged};
use mesa_delta::FileError;
use mesa_disk::{Damage, FileId, Seen};
use mesa_key::Format;
use mesa_open_files::CompactError;
use mesa_value::{Agg, Amount};
use std::alloc::Global;
use std::process::Abort;

// A file that was written before and a new one; a merged one and one behind it that was written before; two new ones.
const OLD_NEW: (Format, Format) = (Format::One, Format::Two);

const NEW_OLD: (Format, Format) = (Format::Two, Format::One);

const BOTH_NEW: (Format, Format) = (Format::Two, Format::Two);

// The greatest value and the least of 64 bits.
const MOST: Amount = 9_223_372_036_854_775_807;

const LEAST: Amount = -9_223_372_036_854_775_808;

// Two files, and the rows that they merge to. Of a key the newest value stays or all are added up, and one with the
// sum 0 stays too. The values 5, 6 and 4 come to the same whichever two are merged first.
static MERGES: [(Two<'static>, &[(i64, Amount)]); 6] = [
    (
        Two {
            agg: Agg::Replace,
            formats: OLD_NEW,
            older: &[(1, 6)],
            newer: &[(1, 4)],
        },
        &[(1, 4)],
    ),
    (
        Two {
            agg: Agg::Replace,
            formats: NEW_OLD,
            older: &[(1, 5)],
            newer: &[(1, 4)],
        },
        &[(1, 4)],
    ),
    (
        Two {
            agg: Agg::Sum,
            formats: OLD_NEW,
            older: &[(-3, 2), (1, 5), (4, 1)],
            newer: &[(1, -5), (2, 7), (4, 2)],
        },
        &[(-3, 2), (1, 0), (2, 7), (4, 3)],
    ),
    // Sums that have more than 64 bits.
    (
        Two {
            agg: Agg::Sum,
            formats: OLD_NEW,
            older: &[(1, MOST), (2, LEAST), (3, 1)],
            newer: &[(1, 1), (2, -1)],
        },
        &[(1, MOST + 1), (2, LEAST - 1), (3, 1)],
    ),
    (
        Two {
            agg: Agg::Sum,
            formats: NEW_OLD,
            older: &[(1, MOST + 1), (2, LEAST - 1)],
            newer: &[(1, -1), (2, MOST), (3, LEAST)],
        },
        &[(1, MOST), (2, -2), (3, LEAST)],
    ),
    (
        Two {
            agg: Agg::Sum,
            formats: BOTH_NEW,
            older: &[(1, Amount::MAX - 2), (2, -1)],
            newer: &[(1, 1)],
        },
        &[(1, Amount::MAX - 1), (2, -1)],
    ),
];

// Stops the test where the table's merged file, or that of the view of all its columns, isn't the file of these rows,
// whose tail has the digests of its blocks.
fn expect_rows(rt: &impl Abort, alloc: Global, two: &Two, rows: &[(i64, Amount)]) {
    let form = Form {
        format: Format::Two,
        agg: two.agg,
    };
    let (_, wanted) = file_of(rt, alloc, FileId::of(3), form, rows);
    let Ok(delta) = merged(rt, alloc, two, &[], None) else {
        panic!(rt; "not merged");
    };
    let Some(files) = &delta.files else {
        panic!(rt; "no file");
    };
    expect_same(rt, &files.file.file.digest, &wanted.digest, &rows);
    for view in &files.views {
        expect_same(rt, &view.file.file.digest, &wanted.digest, &rows);
    }
}

#[test]
fn merges_in_version_order(rt: HostRuntime) {
    for (two, rows) in &MERGES {
        expect_rows(&rt, rt.alloc(), two, rows);
    }
}

// Files that aren't merged: the sum of a key leaves its bound, or the total of several keys' absolute values.
static OVERFLOWS: [Two<'static>; 3] = [
    Two {
        agg: Agg::Sum,
        formats: BOTH_NEW,
        older: &[(5, Amount::MAX)],
        newer: &[(5, 1), (6, 1)],
    },
    Two {
        agg: Agg::Sum,
        formats: OLD_NEW,
        older: &[(5, -1)],
        newer: &[(5, Amount::MIN)],
    },
    Two {
        agg: Agg::Sum,
        formats: BOTH_NEW,
        older: &[(5, Amount::MAX)],
        newer: &[(6, Amount::MAX), (7, 2)],
    },
];

// The damage that is told of this file.
fn overflow(file: u64) -> CompactError {
    CompactError::File(FileError::Damaged(Damage {
        file: FileId::of(file),
        place: 0,
        want: Seen::Fits,
        found: Seen::Misfit(0),
    }))
}

// Stops the test of two files that are merged, or not merged for another reason.
fn expect_fault(
    rt: &impl Abort,
    alloc: Global,
    two: &Two,
    calls: &[(u64, u64)],
    fails: Option<u64>,
    wanted: Option<CompactError>,
) {
    let found = merged(rt, alloc, two, calls, fails).err();
    expect_same(rt, &found, &wanted, &calls);
}

#[test]
fn tells_a_sum_of_the_newest_file(rt: HostRuntime) {
    for two in &OVERFLOWS {
        expect_fault(&rt, rt.alloc(), two, &[], None, Some(overflow(2)));
    }
}

// Files whose total over several keys leaves its type with a key that only the older file holds.
static OLDER_KEY: Two<'static> = Two {
    agg: Agg::Sum,
    formats: BOTH_NEW,
    older: &[(6, Amount::MAX)],
    newer: &[(5, Amount::MAX)],
};

#[test]
fn tells_a_total_of_the_newest_file_that_holds_its_key(rt: HostRuntime) {
    expect_fault(&rt, rt.alloc(), &OLDER_KEY, &[], None, Some(overflow(1)));
}

// Ten blocks of rows.
fn ten_blocks(rt: &impl Abort, alloc: Global) -> Vec<(i64, Amount)> {
    let mut rows = Vec::new(alloc);
    for key in 0..10240 {
        rows.push((key, 1)).expect(rt, "memory");
    }
    rows
}

// The rows aren't kept: where the first append fails, no fourth block was read of either file, whose read would fail.
#[test]
fn writes_as_it_reads(rt: HostRuntime) {
    let rows = ten_blocks(&rt, rt.alloc());
    let two = Two {
        agg: Agg::Sum,
        formats: OLD_NEW,
        older: &rows,
        newer: &rows,
    };
    expect_fault(
        &rt,
        rt.alloc(),
        &two,
        &[(0, 1)],
        Some(4),
        Some(CompactError::Draft),
    );
    let unread = CompactError::File(FileError::Read);
    expect_fault(&rt, rt.alloc(), &two, &[], Some(4), Some(unread));
    expect_fault(&rt, rt.alloc(), &two, &[], None, None);
}

static ONE_ROW_EACH: Two<'static> = Two {
    agg: Agg::Sum,
    formats: OLD_NEW,
    older: &[(1, 2)],
    newer: &[(1, 3)],
};

// Of the drafts of a table and its view the making, the appends of the block and of the tail, and the end.
#[test]
fn tells_each_failed_call_of_a_draft(rt: HostRuntime) {
    for draft in 0..2 {
        for call in 0..4 {
            let calls = [(draft, call)];
            let failed = Some(CompactError::Draft);
            expect_fault(&rt, rt.alloc(), &ONE_ROW_EACH, &calls, None, failed);
        }
    }
}
