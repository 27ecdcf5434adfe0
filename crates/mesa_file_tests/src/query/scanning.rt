// Files of which only some blocks are read.
ghost use Rattle.mesa_scan.specs.Cursors.{IsInput};

use crate::query::inputs::{Source, cached, input_of, source_of};
use crate::query::tables::table;
use crate::query::vectors::{PAIRS, TEXTS, VECTORS, Vector};
use mesa_delta::Input;
use mesa_disk::FileReader;
use mesa_filter::Filter;
use mesa_key::KeyType;
use mesa_list::Items;
use mesa_scan::{ScanCount, scan};
use std::alloc::Global;
use std::process::Abort;

/// A filter, how many rows it finds, how many blocks are read, and of how many.
type Scanned = (&'static str, usize, u32, u32);

// Stops the test where a filter finds another count of rows, or where other blocks are read.
fn expect_scan<R: FileReader + Drop>(
    rt: &impl Abort,
    alloc: Global,
    input: &mut Input<R>,
    case: &Scanned,
)
    requires { IsInput R.bytes input.old }
{
    let (text, rows, blocks_read, blocks) = case;
    let Ok(filter) = Filter::parse(alloc, input.evolving.present(), text.as_bytes()) else {
        panic!(rt; "no filter {text}");
    };
    let mut found = Items::new(alloc);
    let count = scan(input, &filter, &mut found);
    let want = ScanCount {
        blocks_read: *blocks_read,
        blocks: *blocks,
    };
    assert_eq!(rt; count, Ok(want), "{text}");
    assert_eq!(rt; found.len(), *rows, "{text}");
}

// The same over a file of a table of these key columns.
fn expect_scan_in<R: FileReader + Drop>(
    rt: &impl Abort,
    alloc: Global,
    source: Source<R>,
    names: &[&str],
    kind: KeyType,
    case: &Scanned,
) {
    let table = table(rt, alloc, names, kind);
    let mut input = input_of(rt, alloc, source, &table);
    expect_scan(rt, alloc, &mut input, case);
}

// The same of a file as it is, and through a cache of two of its pages.
fn expect_scan_of(
    rt: &impl Abort,
    alloc: Global,
    vector: &Vector,
    names: &[&str],
    kind: KeyType,
    case: &Scanned,
) {
    let plain = source_of(rt, alloc, vector, None);
    expect_scan_in(rt, alloc, plain, names, kind, case);
    let source = source_of(rt, alloc, vector, None);
    let cached = cached(rt, alloc, source, 2);
    expect_scan_in(rt, alloc, cached, names, kind, case);
}

// Of two blocks with equal short keys both may have the row.
static EQUAL_SHORT_KEYS: [Scanned; 2] = [
    ("k=aaaaaaaaaaaaaaaa1024", 1, 2, 2),
    ("k=aaaaaaaaaaaaaaaa1023", 1, 2, 2),
];

#[test]
fn equal_short_keys(rt: HostRuntime) {
    for case in &EQUAL_SHORT_KEYS {
        expect_scan_of(
            &rt,
            rt.alloc(),
            &VECTORS[TEXTS],
            &["k"],
            KeyType::Text,
            case,
        );
    }
}

// The blocks begin at 0,0 and 0,1024 and 1,0 and 1,1024. In the second `a` isn't the same throughout.
static LATER_COLUMN: [Scanned; 3] = [("b=2000", 2, 2, 4), ("a=1", 2048, 3, 4), ("", 4096, 4, 4)];

#[test]
fn later_column_prunes(rt: HostRuntime) {
    for case in &LATER_COLUMN {
        expect_scan_of(
            &rt,
            rt.alloc(),
            &VECTORS[PAIRS],
            &["a", "b"],
            KeyType::Int,
            case,
        );
    }
}
