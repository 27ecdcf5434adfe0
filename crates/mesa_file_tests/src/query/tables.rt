// Tables that were never changed, and a view.
ghost use Rattle.std.specs.Prelude.{◌≡◌, ◌<◌, [], Some, length};
ghost use Rattle.mesa_schema.specs.Changes.{columns_of};
ghost use Rattle.mesa_open_files.specs.Pins.{HasViewOf, view_at};

use mesa_key::KeyType;
use mesa_schema::{Evolving, KeyColumn, Name, Schema, ValueColumn};
use mesa_value::Agg;
use std::alloc::Global;
use std::process::Abort;
use std::sync::Arc;

/// A name that is known to be one.
pub fn name(rt: &impl Abort, alloc: Global, text: &str) -> Name {
    Name::read(alloc, text.as_bytes()).expect(rt, "a name")
}

// Key columns of these names and of one type.
fn keys(rt: &impl Abort, alloc: Global, names: &[&str], kind: KeyType) -> Vec<KeyColumn> {
    let mut columns = Vec::new(alloc);
    for text in names {
        let name = name(rt, alloc, text);
        columns.push(KeyColumn { name, kind }).expect(rt, "room");
    }
    columns
}

// The sum `v`.
fn values(rt: &impl Abort, alloc: Global) -> Vec<ValueColumn> {
    let mut columns = Vec::new(alloc);
    let name = name(rt, alloc, "v");
    let agg = Agg::Sum;
    columns.push(ValueColumn { name, agg }).expect(rt, "room");
    columns
}

fn schema(rt: &impl Abort, alloc: Global, names: &[&str], kind: KeyType) -> Schema {
    let keys = keys(rt, alloc, names, kind);
    let values = values(rt, alloc);
    let Ok(schema) = Schema::build(keys, values) else {
        panic!(rt; "no schema");
    };
    schema
}

/// A table of these key columns and of the sum `v`.
pub fn table(rt: &impl Abort, alloc: Global, names: &[&str], kind: KeyType) -> Arc<Evolving>
    ensures { result.value.changes ≡ [] }
{
    let table = Evolving::new(alloc, schema(rt, alloc, names, kind));
    let Ok(table) = Arc::new(alloc, table) else {
        panic!(rt; "no memory");
    };
    table
}

// A list of one name.
fn one_name(rt: &impl Abort, alloc: Global, text: &str) -> Vec<Name> {
    let mut names = Vec::new(alloc);
    names.push(name(rt, alloc, text)).expect(rt, "room");
    names
}

/// A table of the ints `a` and `b` and of the sum `v`, with the view `w` of `a` and `v`.
pub fn viewed(rt: &impl Abort, alloc: Global) -> Arc<Evolving>
    ensures unchanged { result.value.changes ≡ [] }
    ensures view { 0 < length result.value.views }
{
    let mut table = Evolving::new(alloc, schema(rt, alloc, &["a", "b"], KeyType::Int));
    let name = name(rt, alloc, "w");
    let keys = one_name(rt, alloc, "a");
    let values = one_name(rt, alloc, "v");
    let Ok(()) = table.add_view(name, keys, values) else {
        panic!(rt; "no view");
    };
    let Ok(table) = Arc::new(alloc, table) else {
        panic!(rt; "no memory");
    };
    table
}

/// The first view of a table, as a table of its own.
pub fn view_of(rt: &impl Abort, alloc: Global, table: &Arc<Evolving>) -> Arc<Evolving>
    requires { 0 < length table.now.value.views }
    ensures unchanged { result.value.changes ≡ [] }
    ensures view { HasViewOf (columns_of result.value) (columns_of table.now.value) (view_at table.now.value (Some 0)) }
{
    let Ok(schema) = table.view_schema(0) else {
        panic!(rt; "no memory");
    };
    let Ok(view) = Arc::new(alloc, Evolving::new(alloc, schema)) else {
        panic!(rt; "no memory");
    };
    view
}
