// Names, and columns that make a schema.
use crate::expected::expect_same;
use crate::schema::columns::{keys, values};
use mesa_schema::{KeyColumn, Name, Schema, SchemaError, ValueColumn};
use std::alloc::Global;
use std::process::Abort;

// Bytes, and whether they are a name.
static NAMES: [(&[u8], bool); 12] = [
    (b"", false),
    (b"a", true),
    (b"a_9", true),
    (b"_a", false),
    (b"9a", false),
    (b"A", false),
    (b"aB", false),
    (b"a-b", false),
    (b"a b", false),
    (b"a\xc3\xa9", false),
    (b"abcdefghijklmnopqrstuvwxyz012345", true),
    (b"abcdefghijklmnopqrstuvwxyz0123456", false),
];

#[test]
fn bytes_that_are_names(rt: HostRuntime) {
    for (bytes, is_name) in &NAMES {
        expect_same(&rt, &Name::allows(bytes), is_name, bytes);
    }
}

// The name of a refusal.
fn told(error: &SchemaError) -> &'static str {
    match error {
        SchemaError::NoKey => "no_key",
        SchemaError::NoValue => "no_value",
        SchemaError::TooManyColumns => "too_many_columns",
        SchemaError::NameTwice { .. } => "name_twice",
        SchemaError::Memory => "memory",
    }
}

// Key columns, value columns, and why they make no schema; nothing where they make one.
type Columns = (&'static str, &'static str, &'static str);

static COLUMNS: [Columns; 10] = [
    ("k", "v", ""),
    // A key column and a value column may have one name.
    ("k", "k", ""),
    ("", "v", "no_key"),
    ("", "", "no_key"),
    ("k", "", "no_value"),
    ("k;k", "v", "name_twice"),
    ("k", "v;w;v", "name_twice"),
    ("a;b;c;d;e;f;g;h;i;j;k;l;m;n;o;p", "v", ""),
    ("a;b;c;d;e;f;g;h;i;j;k;l;m;n;o;p;q", "v", "too_many_columns"),
    // Too many is told before a name that stands twice.
    (
        "k;k",
        "a;b;c;d;e;f;g;h;i;j;k;l;m;n;o;p;q",
        "too_many_columns",
    ),
];

// Why columns make no schema; nothing where they make one.
fn fault_of(keys: Vec<KeyColumn>, values: Vec<ValueColumn>) -> &'static str {
    match Schema::build(keys, values) {
        Ok(_) => "",
        Err(error) => told(&error),
    }
}

// Stops the test of columns that make a schema or none otherwise.
fn expect_columns(rt: &impl Abort, alloc: Global, case: &Columns) {
    let keys = keys(rt, alloc, case.0);
    let values = values(rt, alloc, case.1);
    expect_same(rt, &fault_of(keys, values), &case.2, case);
}

#[test]
fn columns_that_make_schemas(rt: HostRuntime) {
    for case in &COLUMNS {
        expect_columns(&rt, rt.alloc(), case);
    }
}
