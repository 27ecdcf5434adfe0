// Tables and loads of them.
use crate::expected::expect_same;
use mesa_batch::{Glance, Glanced, LoadRows};
use mesa_disk::{MemBench, MemMade};
use mesa_file::Serials;
use mesa_key::KeyType;
use mesa_list::Fields;
use mesa_load::prepare;
use mesa_open_files::{LoadError, Prepared};
use mesa_schema::{Evolving, KeyColumn, MAX_VIEWS, Name, Schema, ValueColumn};
use mesa_value::Agg;
use std::alloc::Global;
use std::process::Abort;
use std::sync::Arc;
use std::thread::Threads;

/// The view `w` of the key column `a`.
pub const VIEW_OF_A: Option<&'static [u8]> = Some(b"a");

fn name(rt: &impl Abort, alloc: Global, text: &[u8]) -> Name {
    Name::read(alloc, text).expect(rt, "a name")
}

fn key(rt: &impl Abort, alloc: Global, text: &[u8]) -> KeyColumn {
    let name = name(rt, alloc, text);
    let kind = KeyType::Int;
    KeyColumn { name, kind }
}

fn keys(rt: &impl Abort, alloc: Global) -> Vec<KeyColumn> {
    let a = key(rt, alloc, b"a");
    let b = key(rt, alloc, b"b");
    vec![in alloc; a, b].expect(rt, "memory")
}

fn values(rt: &impl Abort, alloc: Global) -> Vec<ValueColumn> {
    let name = name(rt, alloc, b"v");
    let agg = Agg::Sum;
    vec![in alloc; ValueColumn { name, agg }].expect(rt, "memory")
}

// A table of the key columns `a` and `b`, and the sum `v`.
fn table(rt: &impl Abort, alloc: Global) -> Evolving {
    let keys = keys(rt, alloc);
    let values = values(rt, alloc);
    let schema = Schema::build(keys, values).ok();
    Evolving::new(alloc, schema.expect(rt, "a schema"))
}

fn one_name(rt: &impl Abort, alloc: Global, text: &[u8]) -> Vec<Name> {
    vec![in alloc; name(rt, alloc, text)].expect(rt, "memory")
}

// Adds the view `w` of a key column.
fn add_view(rt: &impl Abort, alloc: Global, table: &mut Evolving, column: &[u8]) {
    assert!(rt; usize::from(table.views()) < MAX_VIEWS);
    let view = name(rt, alloc, b"w");
    let keys = one_name(rt, alloc, column);
    let values = one_name(rt, alloc, b"v");
    assert!(rt; table.add_view(view, keys, values).is_ok());
}

fn evolving(rt: &impl Abort, alloc: Global, view: Option<&[u8]>) -> Arc<Evolving> {
    let mut table = table(rt, alloc);
    if let Some(column) = view {
        add_view(rt, alloc, &mut table, column);
    }
    Arc::new(alloc, table).expect(rt, "memory")
}

/// What a load sees where the table `t` is there, with a view of this key column, if one is named.
pub fn glance(rt: &impl Abort, alloc: Global, view: Option<&[u8]>) -> Glance {
    let name = name(rt, alloc, b"t");
    let evolving = evolving(rt, alloc, view);
    let tables = vec![in alloc; Glanced { name, evolving }].expect(rt, "memory");
    Glance::new(alloc, 7, tables).expect(rt, "memory")
}

// The words of a row, which stand between semicolons.
fn words(rt: &impl Abort, alloc: Global, row: &[u8]) -> Fields {
    let mut words = Fields::new(alloc);
    for field in row.split(|b| *b == b';') {
        words.push(field).expect(rt, "memory");
    }
    words
}

/// A load of rows, which stand between spaces; the fields of each, its table's name first, between semicolons.
pub fn load(rt: &impl Abort, alloc: Global, text: &[u8]) -> LoadRows {
    let mut rows = LoadRows::new(alloc);
    if !text.is_empty() {
        for row in text.split(|b| *b == b' ') {
            let words = words(rt, alloc, row);
            rows.push(&words).expect(rt, "memory");
        }
    }
    rows
}

/// A session's bench, and the ids of its drafts, which go on from load to load.
#[derive(Drop)]
pub struct Session {
    bench: MemBench,
    ids: Serials,
}

impl Session {
    /// A session whose bench fails these calls.
    pub fn new(alloc: Global, fails: Vec<(u64, u64)>) -> Session {
        Session {
            bench: MemBench::new(alloc, fails),
            ids: Serials::new(1, 2),
        }
    }
}

/// Prepares a load of the table with this view.
pub fn prepared<R: Abort + Threads + Sync>(
    rt: &R,
    alloc: Global,
    session: &mut Session,
    view: Option<&[u8]>,
    text: &[u8],
) -> Result<Prepared<MemMade>, LoadError> {
    let glance = glance(rt, alloc, view);
    let rows = load(rt, alloc, text);
    let Session { bench, ids } = session;
    prepare(rt, alloc, bench, ids, &glance, &rows)
}

/// Stops the test of a load that is prepared though it isn't to be, or not prepared for another reason.
pub fn expect_fault<R: Abort + Threads + Sync>(
    rt: &R,
    alloc: Global,
    session: &mut Session,
    view: Option<&[u8]>,
    text: &[u8],
    wanted: Option<LoadError>,
) {
    let found = prepared(rt, alloc, session, view, text).err();
    expect_same(rt, &found, &wanted, &text);
}
