// Queries of enough blocks for threads, against what one thread answers, which reads the files one after the other.
ghost use Rattle.std.specs.Prelude.{◌≡◌, [], None};
ghost use Rattle.std.specs.List.{AllByRecursion};
ghost use Rattle.mesa_schema.specs.Changes.{columns_of};
ghost use Rattle.mesa_query.specs.mesa_columns.Columns.{Columns};
ghost use Rattle.mesa_open_files.specs.Pins.{IsPinned, IsPinnedInput};

use crate::query::answering::{Asked, by_a, query_of};
use crate::query::inputs::{Source, more, own, source_failing, source_of};
use crate::query::tables::table;
use crate::query::vectors::{APART, MORE, MOST, PAIRS, VECTORS};
use mesa_delta::FileError;
use mesa_disk::{Damage, FileId, FileReader, MemReader, Seen};
use mesa_key::KeyType;
use mesa_model::Page;
use mesa_open_files::{Pinned, PinnedInput};
use mesa_query::{answer, whole};
use mesa_schema::{Evolving, Row, RowList};
use std::alloc::Global;
use std::process::Abort;
use std::sync::Arc;
use std::test::Fail;
use std::thread::Threads;

// How many files of four blocks are read. Each of four threads begins or ends within one.
const FILES: u64 = 10;

// The files of pairs, which differ in their ids.
#[derive(Clone, Copy)]
enum Pairs {
    Sound,
    // In the file of this id a bit of the third block is another.
    Turned(u64),
    // Of the file of this id this read fails, counted from 0. The first is of its tail.
    Failing(u64, u64),
}

fn source_at(rt: &impl Abort, alloc: Global, pairs: Pairs, id: u64) -> Source<MemReader> {
    let vector = &VECTORS[PAIRS];
    let mut source = match pairs {
        Pairs::Turned(at) if at == id => source_of(rt, alloc, vector, Some(50_000)),
        Pairs::Failing(at, nth) if at == id => source_failing(rt, alloc, vector, nth),
        _ => source_of(rt, alloc, vector, None),
    };
    source.file.id = FileId::of(id);
    source
}

fn sources_of(rt: &impl Abort, alloc: Global, pairs: Pairs) -> Vec<Source<MemReader>> {
    let mut sources = Vec::new(alloc);
    for id in 1..=FILES {
        let source = source_at(rt, alloc, pairs, id);
        assert!(rt; sources.push(source).is_ok());
    }
    sources
}

// Files of the table itself, in this order.
fn inputs_of<R: FileReader + Drop>(
    rt: &impl Abort,
    alloc: Global,
    sources: Vec<Source<R>>,
    table: &Arc<Evolving>,
) -> Vec<PinnedInput<R>>
    requires { table.now.value.changes ≡ [] }
    ensures { AllByRecursion (IsPinnedInput R.bytes (columns_of table.now.value) None) result.items }
{
    let mut inputs = Vec::new(alloc);
    'each_source: for source in sources {
        more(rt, &mut inputs, own(rt, alloc, source, table));
    }
    inputs
}

// A query of a table with these files.
fn pinned_of<R: FileReader + Drop>(
    rt: &impl Abort,
    alloc: Global,
    sources: Vec<Source<R>>,
    asked: Asked,
) -> Pinned<R>
    ensures { (s : Columns) × IsPinned R.bytes s result }
{
    let table = table(rt, alloc, &["a", "b"], KeyType::Int);
    Pinned {
        query: query_of(rt, alloc, &table, "t", asked),
        version: 3,
        view: None,
        at: 0,
        inputs: inputs_of(rt, alloc, sources, &table),
    }
}

fn expect_row(rt: &impl Abort, row: &Row, want: &Row) {
    assert_eq!(rt; row.key.as_slice(), want.key.as_slice());
    assert_eq!(rt; row.values.as_slice(), want.values.as_slice());
}

// A page of two rows, behind so many of all of them.
fn expect_rows(rt: &impl Abort, page: &Page, all: &RowList, behind: usize) {
    assert_eq!(rt; page.rows.len(), 2);
    let all = all.as_slice().iter().skip(behind);
    for (row, want) in page.rows.as_slice().iter().zip(all) {
        expect_row(rt, row, want);
    }
}

fn expect_page<T: Abort + Threads + Sync>(
    rt: &T,
    alloc: Global,
    asked: Asked,
    behind: usize,
) -> Result<(), Fail> {
    let mut pinned = pinned_of(rt, alloc, sources_of(rt, alloc, Pairs::Sound), asked);
    let page = answer(rt, alloc, &mut pinned)?;
    let all = whole(alloc, &mut pinned)?;
    expect_rows(rt, &page, &all, behind);
    Ok(())
}

// What is asked, and how many of all rows stand before the page.
static PAGES: [(Asked<'static>, usize); 4] = [
    (
        Asked {
            filter: "",
            group: "a",
            resume: "",
        },
        0,
    ),
    (
        Asked {
            filter: "b>=100",
            group: "b",
            resume: "",
        },
        0,
    ),
    (
        Asked {
            filter: "",
            group: "b",
            resume: "t/3/0/b/80000000000003ff",
        },
        1024,
    ),
    (
        Asked {
            filter: "b<1500",
            group: "a;b",
            resume: "",
        },
        0,
    ),
];

#[test]
fn a_page_by_threads_has_the_rows_of_one_thread(rt: HostRuntime) -> Result<(), Fail> {
    for (asked, behind) in &PAGES {
        expect_page(&rt, rt.alloc(), *asked, *behind)?;
    }
    Ok(())
}

// What is told of files one of which is spoiled, by threads and by one.
fn told<T: Abort + Threads + Sync>(rt: &T, alloc: Global, pairs: Pairs) -> (FileError, FileError) {
    let mut pinned = pinned_of(rt, alloc, sources_of(rt, alloc, pairs), by_a(""));
    let Err(beside) = answer(rt, alloc, &mut pinned) else {
        panic!(rt; "a page");
    };
    let mut pinned = pinned_of(rt, alloc, sources_of(rt, alloc, pairs), by_a(""));
    let Err(alone) = whole(alloc, &mut pinned) else {
        panic!(rt; "rows");
    };
    (beside, alone)
}

// In the first run, in the middle, and in the last one.
static FILES_SPOILED: [u64; 3] = [1, 6, 10];

fn expect_damage<T: Abort + Threads + Sync>(rt: &T, alloc: Global, id: u64) {
    let (beside, alone) = told(rt, alloc, Pairs::Turned(id));
    assert_eq!(rt; beside, alone, "of file {id}");
    let FileError::Damaged(damage) = beside else {
        panic!(rt; "{beside:?}");
    };
    assert_eq!(rt; damage.file, FileId::of(id));
}

#[test]
fn damage_is_told_as_by_one_thread(rt: HostRuntime) {
    for id in &FILES_SPOILED {
        expect_damage(&rt, rt.alloc(), *id);
    }
}

fn expect_fault<T: Abort + Threads + Sync>(rt: &T, alloc: Global, id: u64, nth: u64) {
    let (beside, alone) = told(rt, alloc, Pairs::Failing(id, nth));
    assert_eq!(rt; beside, FileError::Read, "read {nth} of file {id}");
    assert_eq!(rt; alone, FileError::Read, "read {nth} of file {id}");
}

#[test]
fn a_fault_of_any_read_is_answered(rt: HostRuntime) {
    for id in &FILES_SPOILED {
        for nth in 1..5 {
            expect_fault(&rt, rt.alloc(), *id, nth);
        }
    }
}

// Files of one row each, the first with the greatest amount and the last with one more of its group. Those between have rows of another group.
fn sources_apart(rt: &impl Abort, alloc: Global) -> Vec<Source<MemReader>> {
    let mut sources = Vec::new(alloc);
    let most = source_of(rt, alloc, &VECTORS[MOST], None);
    assert!(rt; sources.push(most).is_ok());
    for _ in 0..FILES * 4 {
        let other = source_of(rt, alloc, &VECTORS[APART], None);
        assert!(rt; sources.push(other).is_ok());
    }
    let last = source_of(rt, alloc, &VECTORS[MORE], None);
    assert!(rt; sources.push(last).is_ok());
    sources
}

// No thread's own rows make the sum leave its type.
#[test]
fn a_sum_that_leaves_its_type_at_joining_is_told(rt: HostRuntime) {
    let sources = sources_apart(&rt, rt.alloc());
    let mut pinned = pinned_of(&rt, rt.alloc(), sources, by_a(""));
    let Err(error) = answer(&rt, rt.alloc(), &mut pinned) else {
        panic!(&rt; "a page");
    };
    let want = Damage {
        file: FileId::of(2),
        place: 0,
        want: Seen::Fits,
        found: Seen::Misfit(0),
    };
    assert_eq!(&rt; error, FileError::Damaged(want));
}
