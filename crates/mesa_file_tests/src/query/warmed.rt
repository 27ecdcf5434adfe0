// Queries answered through caches of two pages, and then without them.
ghost use Rattle.mesa_query.specs.mesa_columns.Columns.{Columns};
ghost use Rattle.mesa_open_files.specs.Pins.{IsPinned};

use crate::query::answering::{Asked, query_of};
use crate::query::inputs::{Source, one, own, source_of};
use crate::query::tables::table;
use crate::query::vectors::{PAIRS, TEXTS, VECTORS, Vector, spelled};
use mesa_disk::FileReader;
use mesa_key::KeyType;
use mesa_model::Page;
use mesa_open_files::Pinned;
use mesa_query::{Warm, answer};
use mesa_schema::Row;
use std::alloc::Global;
use std::process::Abort;
use std::thread::Threads;

/// A filter, and the keys of the page's rows in digits.
type Answered = (&'static str, &'static [&'static str]);

// The row of this key, whose value is 1.
fn expect_row(rt: &impl Abort, alloc: Global, row: &Row, key: &str) {
    let key = spelled(rt, alloc, key);
    assert_eq!(rt; row.key.as_slice(), key.as_slice());
    assert_eq!(rt; row.values.as_slice(), [1].as_slice());
}

fn expect_rows(rt: &impl Abort, alloc: Global, page: &Page, keys: &[&str]) {
    assert_eq!(rt; page.rows.len(), keys.len());
    for (row, key) in page.rows.as_slice().iter().zip(keys) {
        expect_row(rt, alloc, row, key);
    }
}

// What is answered through caches.
fn expect_warm<T: Abort + Threads + Sync, R: FileReader + Drop>(
    rt: &T,
    alloc: Global,
    warm: &mut Warm<R>,
    keys: &[&str],
)
    ensures { (s : Columns) → IsPinned R.bytes s warm.old → IsPinned R.bytes s warm.new }
{
    match warm.answer(rt) {
        Ok(page) => expect_rows(rt, alloc, &page, keys),
        Err(error) => panic!(rt; "{error:?}"),
    }
}

// What is answered without them.
fn expect_cold<T: Abort + Threads + Sync, R: FileReader + Drop>(
    rt: &T,
    alloc: Global,
    pinned: &mut Pinned<R>,
    keys: &[&str],
)
    requires { (s : Columns) × IsPinned R.bytes s pinned.old }
{
    match answer(rt, alloc, pinned) {
        Ok(page) => expect_rows(rt, alloc, &page, keys),
        Err(error) => panic!(rt; "{error:?}"),
    }
}

// The same rows, whether blocks are read for the first time, from pages that are kept, or from the file itself.
fn expect_answers<T: Abort + Threads + Sync, R: FileReader + Drop>(
    rt: &T,
    alloc: Global,
    mut warm: Warm<R>,
    keys: &[&str],
)
    requires { (s : Columns) × IsPinned R.bytes s warm }
{
    expect_warm(rt, alloc, &mut warm, keys);
    expect_warm(rt, alloc, &mut warm, keys);
    let mut pinned = warm.cool();
    expect_cold(rt, alloc, &mut pinned, keys);
}

// The query with caches of two pages.
fn warmed<R: FileReader + Drop>(rt: &impl Abort, alloc: Global, pinned: Pinned<R>) -> Warm<R>
    requires { (s : Columns) × IsPinned R.bytes s pinned }
    ensures { (s : Columns) × IsPinned R.bytes s result }
{
    let Ok(warm) = Warm::new(alloc, pinned, 2) else {
        panic!(rt; "no memory");
    };
    warm
}

// The query with a filter, of a table of these key columns with one file.
fn pinned_of<R: FileReader + Drop>(
    rt: &impl Abort,
    alloc: Global,
    source: Source<R>,
    names: &[&str],
    kind: KeyType,
    filter: &str,
) -> Pinned<R>
    ensures { (s : Columns) × IsPinned R.bytes s result }
{
    let table = table(rt, alloc, names, kind);
    let asked = Asked {
        filter,
        group: "",
        resume: "",
    };
    let query = query_of(rt, alloc, &table, "t", asked);
    let file = own(rt, alloc, source, &table);
    Pinned {
        query,
        version: 3,
        view: None,
        at: 0,
        inputs: one(rt, alloc, file),
    }
}

fn expect_case<T: Abort + Threads + Sync>(
    rt: &T,
    alloc: Global,
    vector: &Vector,
    names: &[&str],
    kind: KeyType,
    case: &Answered,
) {
    let (filter, keys) = case;
    let source = source_of(rt, alloc, vector, None);
    let pinned = pinned_of(rt, alloc, source, names, kind, filter);
    expect_answers(rt, alloc, warmed(rt, alloc, pinned), keys);
}

// The only row of the second block, and the last of the first, which begins with the same short key.
static EQUAL_SHORT_KEYS: [Answered; 2] = [
    (
        "k=aaaaaaaaaaaaaaaa1024",
        &["616161616161616161616161616161613130323400"],
    ),
    (
        "k=aaaaaaaaaaaaaaaa1023",
        &["616161616161616161616161616161613130323300"],
    ),
];

#[test]
fn equal_short_keys(rt: HostRuntime) {
    for case in &EQUAL_SHORT_KEYS {
        expect_case(
            &rt,
            rt.alloc(),
            &VECTORS[TEXTS],
            &["k"],
            KeyType::Text,
            case,
        );
    }
}

// Two rows in two of the four blocks, and the first two of many.
static LATER_COLUMN: [Answered; 2] = [
    (
        "b=2000",
        &[
            "800000000000000080000000000007d0",
            "800000000000000180000000000007d0",
        ],
    ),
    (
        "a=1",
        &[
            "80000000000000018000000000000000",
            "80000000000000018000000000000001",
        ],
    ),
];

#[test]
fn later_column_prunes(rt: HostRuntime) {
    for case in &LATER_COLUMN {
        expect_case(
            &rt,
            rt.alloc(),
            &VECTORS[PAIRS],
            &["a", "b"],
            KeyType::Int,
            case,
        );
    }
}
