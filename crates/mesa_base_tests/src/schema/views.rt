// Views of a table, and changes of it.
ghost use Rattle.std.specs.Prelude.{◌≡◌, []};

use crate::expected::expect_same;
use crate::schema::columns::{key_columns, name, names, value_columns};
use mesa_list::TryCopy;
use mesa_schema::{Change, Evolving, Name, Schema, ViewError};
use std::alloc::Global;
use std::process::Abort;

/// The table `k int;c text,v sum;r replace`.
pub fn table(rt: &impl Abort, alloc: Global) -> Evolving
    ensures { result.views ≡ [] }
{
    let keys = key_columns(rt, alloc, b"c");
    let values = value_columns(rt, alloc);
    let schema = Schema::build(keys, values).ok();
    Evolving::new(alloc, schema.expect(rt, "a schema"))
}

// The name of a refusal; nothing where there is none.
fn told(answer: &Result<(), ViewError>) -> &'static str {
    match answer {
        Ok(()) => "",
        Err(ViewError::NoColumn) => "no_column",
        Err(ViewError::NoKey) => "no_key",
        Err(ViewError::NoValue) => "no_value",
        Err(ViewError::NameTwice) => "name_twice",
        Err(ViewError::ReplaceInView { .. }) => "replace_group",
        Err(ViewError::Memory) => "memory",
    }
}

// The key columns and the value columns of a view, and why a table allows no such key columns and no such value columns; nothing where it does.
type Choice = (&'static str, &'static str, &'static str, &'static str);

static CHOICES: [Choice; 11] = [
    ("c", "v", "", ""),
    ("c;k", "v", "", ""),
    ("c", "r", "", "replace_group"),
    ("c", "v;r", "", "replace_group"),
    ("z", "v", "no_column", ""),
    ("", "v", "no_key", ""),
    ("c;c", "v", "name_twice", ""),
    ("c", "z", "", "no_column"),
    ("c", "", "", "no_value"),
    ("c", "v;v", "", "name_twice"),
    // What is wrong with the key columns is told first.
    ("c;c", "z", "name_twice", "no_column"),
];

// What is wrong with a view: with its key columns, else with its value columns.
fn fault_of(case: &Choice) -> &'static str {
    if case.2.is_empty() { case.3 } else { case.2 }
}

// What is wrong with the key columns of a view.
fn key_fault(table: &Evolving, keys: &[Name]) -> &'static str {
    told(&table.check_view_keys(keys))
}

// What is wrong with the value columns of a view.
fn value_fault(table: &Evolving, values: &[Name]) -> &'static str {
    told(&table.check_view_values(values))
}

// What is wrong with the key columns and with the value columns of a view, and whether a table allows it.
type Seen = (&'static str, &'static str, bool);

// What a table says of a view `w` of these columns.
fn seen(rt: &impl Abort, alloc: Global, table: &Evolving, case: &Choice) -> Seen {
    let view = name(rt, alloc, b"w");
    let keys = names(rt, alloc, case.0);
    let values = names(rt, alloc, case.1);
    let allowed = table.allows_view(&view, &keys, &values);
    (
        key_fault(table, &keys),
        value_fault(table, &values),
        allowed,
    )
}

// Adds a view `w` of these columns to a table, and gives what is wrong with it.
fn add(
    rt: &impl Abort,
    alloc: Global,
    table: &mut Evolving,
    keys: &str,
    values: &str,
) -> &'static str
    requires { table.old.views ≡ [] }
{
    let view = name(rt, alloc, b"w");
    let keys = names(rt, alloc, keys);
    let values = names(rt, alloc, values);
    told(&table.add_view(view, keys, values))
}

// Stops the test of a view that is seen or added otherwise.
fn expect_view(rt: &impl Abort, alloc: Global, case: &Choice) {
    let mut table = table(rt, alloc);
    let fault = fault_of(case);
    let want = (case.2, case.3, fault.is_empty());
    expect_same(rt, &seen(rt, alloc, &table, case), &want, case);
    let found = add(rt, alloc, &mut table, case.0, case.1);
    expect_same(rt, &found, &fault, case);
}

#[test]
fn views_of_a_table(rt: HostRuntime) {
    for case in &CHOICES {
        expect_view(&rt, rt.alloc(), case);
    }
}

// The table with a view `w` of these columns.
fn viewed(rt: &impl Abort, alloc: Global, keys: &str, values: &str) -> Evolving {
    let mut table = table(rt, alloc);
    let fault = add(rt, alloc, &mut table, keys, values);
    assert!(rt; fault.is_empty());
    table
}

// Whether a table's one view is `w`, with two key columns and a value column.
fn has_view(rt: &impl Abort, table: &Evolving) -> bool {
    assert_eq!(rt; table.views(), 1);
    let schema = table.view_schema(0).expect(rt, "memory");
    let counts = (schema.keys().len(), schema.values().len());
    table.view_name(0).bytes() == b"w".as_slice() && counts == (2, 1)
}

// Whether a table is still as it was made.
fn is_unchanged(rt: &impl Abort, table: &Evolving) -> bool {
    let first = table.schema_at(0).expect(rt, "memory");
    table.epoch() == 0 && first.values().len() == 2
}

// A view of two key columns and a value column, and the table's own columns as they were.
#[test]
fn a_view_has_its_columns_in_its_order(rt: HostRuntime) {
    let table = viewed(&rt, rt.alloc(), "c;k", "v");
    let copy = table.copy().expect(&rt, "memory");
    assert!(rt; has_view(&rt, &copy));
    assert!(rt; is_unchanged(&rt, &copy));
}

// Stops the test of a table that lets a value column of this name go otherwise.
fn expect_going(rt: &impl Abort, alloc: Global, table: &Evolving, column: &str, goes: bool) {
    let name = name(rt, alloc, column.as_bytes());
    let found = table.allows(&Change::DropValue { name });
    expect_same(rt, &found, &goes, &column);
}

#[test]
fn a_views_column_may_not_go(rt: HostRuntime) {
    let own = table(&rt, rt.alloc());
    expect_going(&rt, rt.alloc(), &own, "v", true);
    expect_going(&rt, rt.alloc(), &own, "z", false);
    let viewed = viewed(&rt, rt.alloc(), "c", "v");
    expect_going(&rt, rt.alloc(), &viewed, "v", false);
}
