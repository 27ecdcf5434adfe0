// A view, of which the first version has no file: a table with the rows 1,1,5 and 1,2,7 gets the view of `a` and `v`, and then the row 1,3,1.
use crate::query::answering::{by_a, page_of, query_of, shown};
use crate::query::inputs::{Source, derived, input_of, own, source_of, two};
use crate::query::tables::{view_of, viewed};
use crate::query::vectors::{BEFORE, OWN, VECTORS};
use mesa_delta::FileError;
use mesa_disk::FileReader;
use mesa_model::Page;
use mesa_schema::Row;
use mesa_value::Amount;
use mesa_view::derive;
use std::alloc::Global;
use std::process::Abort;
use std::test::Fail;
use std::thread::Threads;

// The one row of key 1 and of this value.
fn expect_one(rt: &impl Abort, rows: &[Row], value: Amount) {
    assert_eq!(rt; rows.len(), 1);
    for row in rows {
        assert_eq!(rt; row.key.as_slice(), [0x80, 0, 0, 0, 0, 0, 0, 1].as_slice());
        assert_eq!(rt; row.values.as_slice(), [value].as_slice());
    }
}

fn expect_derived(rt: &impl Abort, alloc: Global) -> Result<(), Fail> {
    let table = viewed(rt, alloc);
    let source = source_of(rt, alloc, &VECTORS[BEFORE], None);
    let mut input = input_of(rt, alloc, source, &table);
    assert!(rt; input.evolving.views() == 1);
    let rows = derive(alloc, &mut input, 0)?;
    expect_one(rt, rows.as_slice(), 12);
    Ok(())
}

#[test]
fn derives_the_rows_of_a_view(rt: HostRuntime) -> Result<(), Fail> {
    expect_derived(&rt, rt.alloc())
}

// What a query of the view is answered from a file of its table and a file of its own.
fn answered<T: Abort + Threads + Sync, R: FileReader + Drop>(
    rt: &T,
    alloc: Global,
    older: Source<R>,
    newer: Source<R>,
) -> Result<Page, FileError> {
    let table = viewed(rt, alloc);
    let view = view_of(rt, alloc, &table);
    let query = query_of(rt, alloc, &view, "w", by_a(""));
    let first = derived(rt, alloc, older, &table);
    let second = own(rt, alloc, newer, &view);
    let inputs = two(rt, alloc, first, second);
    page_of(rt, alloc, query, Some(0), inputs)
}

fn expect_answered<T: Abort + Threads + Sync>(rt: &T, alloc: Global) -> Result<(), Fail> {
    let older = source_of(rt, alloc, &VECTORS[BEFORE], None);
    let newer = source_of(rt, alloc, &VECTORS[OWN], None);
    let page = answered(rt, alloc, older, newer)?;
    let text = shown(alloc, &page)?;
    assert_eq!(rt; text.as_str(), "Some(1) Some(13), more: false");
    Ok(())
}

#[test]
fn derived_view(rt: HostRuntime) -> Result<(), Fail> {
    expect_answered(&rt, rt.alloc())
}
