// Rows of a load, and why they make no batch.
ghost use Rattle.std.specs.Prelude.{◌≡◌, length};
ghost use Rattle.mesa_batch.specs.Gathered.{IsReadBy};

use crate::expected::expect_same;
use crate::schema::columns::name;
use crate::schema::views::table;
use mesa_batch::{Batch, BatchBuilder, BatchError, Glance, Glanced, LoadRows, fits};
use mesa_list::{Fields, Items, TryCopy};
use std::alloc::Global;
use std::process::Abort;
use std::sync::Arc;

// What a load sees where the table `t` is there.
fn glance(rt: &impl Abort, alloc: Global) -> Glance {
    let name = name(rt, alloc, b"t");
    let evolving = Arc::new(alloc, table(rt, alloc)).expect(rt, "memory");
    let tables = vec![in alloc; Glanced { name, evolving }].expect(rt, "memory");
    Glance::new(alloc, 1, tables).expect(rt, "memory")
}

// The words of a table's name and a row's fields, which stand between semicolons; an empty text has none.
fn words(rt: &impl Abort, alloc: Global, name: &[u8], fields: &[u8]) -> Fields {
    let mut words = Fields::new(alloc);
    words.push(name).expect(rt, "memory");
    if !fields.is_empty() {
        for field in fields.split(|b| *b == b';') {
            words.push(field).expect(rt, "memory");
        }
    }
    words
}

// A row of a table's name and its fields.
fn row(rt: &impl Abort, alloc: Global, name: &[u8], fields: &[u8]) -> LoadRows
    ensures { length result ≡ 1 }
{
    let mut rows = LoadRows::new(alloc);
    rows.push(&words(rt, alloc, name, fields))
        .expect(rt, "memory");
    rows
}

// Why a load of one row makes no batch.
fn fault_of(
    rt: &impl Abort,
    alloc: Global,
    glance: &Glance,
    name: &[u8],
    fields: &[u8],
) -> Option<BatchError> {
    let rows = row(rt, alloc, name, fields);
    let mut builder = BatchBuilder::new(alloc);
    builder.row(glance, &rows.row(0)).err()
}

const NO_TABLE: Option<BatchError> = Some(BatchError::NoTable { row: 1 });

const BAD_1: Option<BatchError> = Some(BatchError::BadRow { row: 1, column: 1 });

const BAD_2: Option<BatchError> = Some(BatchError::BadRow { row: 1, column: 2 });

const BAD_3: Option<BatchError> = Some(BatchError::BadRow { row: 1, column: 3 });

const BAD_4: Option<BatchError> = Some(BatchError::BadRow { row: 1, column: 4 });

const BAD_5: Option<BatchError> = Some(BatchError::BadRow { row: 1, column: 5 });

// A table's name, a row's fields, and why a load of that row makes no batch.
type Load = (&'static [u8], &'static [u8], Option<BatchError>);

static ROWS: [Load; 24] = [
    (b"t", b"1;x;5;7", None),
    (b"t", b"+1;;-5;007", None),
    (b"t", b"9223372036854775807;x;5;-9223372036854775808", None),
    (b"t", b"-9223372036854775808;x;5;9223372036854775807", None),
    // A sum has 128 bits.
    (b"t", b"1;x;170141183460469231731687303715884105727;0", None),
    (
        b"t",
        b"1;x;-170141183460469231731687303715884105728;0",
        None,
    ),
    (b"u", b"1;x;5;7", NO_TABLE),
    (b"", b"1;x;5;7", NO_TABLE),
    (b"t", b";x;5;7", BAD_1),
    (b"t", b"x;x;5;7", BAD_1),
    (b"t", b"1.0;x;5;7", BAD_1),
    (b"t", b" 1;x;5;7", BAD_1),
    (b"t", b"+-1;x;5;7", BAD_1),
    (b"t", b"9223372036854775808;x;5;7", BAD_1),
    (b"t", b"-9223372036854775809;x;5;7", BAD_1),
    (b"t", b"1;a\x00b;5;7", BAD_2),
    (b"t", b"1;\xff;5;7", BAD_2),
    (b"t", b"1;x;9223372036854775808;7", None),
    (
        b"t",
        b"1;x;170141183460469231731687303715884105728;7",
        BAD_3,
    ),
    (
        b"t",
        b"1;x;-170141183460469231731687303715884105729;7",
        BAD_3,
    ),
    (b"t", b"1;x;5;9223372036854775808", BAD_4),
    (b"t", b"1;x;5;-9223372036854775809", BAD_4),
    (b"t", b"1;x;5;", BAD_4),
    // The first bad column is told.
    (b"t", b";\xff;;", BAD_1),
];

// Too few fields, and too many.
static COUNTS: [Load; 5] = [
    (b"t", b"", BAD_1),
    (b"t", b"1", BAD_2),
    (b"t", b"1;1;1", BAD_4),
    (b"t", b"1;1;1;1", None),
    (b"t", b"1;1;1;1;1", BAD_5),
];

// Stops the test of a load of one row that is taken or refused otherwise.
fn expect(rt: &impl Abort, alloc: Global, glance: &Glance, loads: &[Load]) {
    for load in loads {
        let found = fault_of(rt, alloc, glance, load.0, load.1);
        expect_same(rt, &found, &load.2, load);
    }
}

#[test]
fn rows_of_one_load(rt: HostRuntime) {
    let glance = glance(&rt, rt.alloc());
    expect(&rt, rt.alloc(), &glance, &ROWS);
    expect(&rt, rt.alloc(), &glance, &COUNTS);
}

// The fields of a row whose text has so many bytes.
fn fields_of_length(rt: &impl Abort, alloc: Global, length: u16) -> Vec<u8> {
    let mut fields = Vec::from_slice(alloc, b"1;").expect(rt, "memory");
    let end = 2 + usize::from(length);
    fields.resize(end, b'x').expect(rt, "memory");
    fields.extend_from_slice(b";5;7").expect(rt, "memory");
    fields
}

// The length of a text, and why a load of one row with it makes no batch.
static LENGTHS: [(u16, Option<BatchError>); 2] = [(255, None), (256, BAD_2)];

// Stops the test of a text of such a length that is taken or refused otherwise.
fn expect_lengths(rt: &impl Abort, alloc: Global, glance: &Glance) {
    for (length, fault) in &LENGTHS {
        let fields = fields_of_length(rt, alloc, *length);
        let found = fault_of(rt, alloc, glance, b"t", &fields);
        expect_same(rt, &found, fault, length);
    }
}

#[test]
fn texts_of_255_bytes_at_most(rt: HostRuntime) {
    let glance = glance(&rt, rt.alloc());
    expect_lengths(&rt, rt.alloc(), &glance);
}

// Stops the test of a next row that makes a batch with those before it, or none, otherwise.
fn expect_next(
    rt: &impl Abort,
    alloc: Global,
    glance: &Glance,
    builder: &mut BatchBuilder,
    fields: &[u8],
    wanted: Option<BatchError>,
)
    requires { IsReadBy glance.now builder.old }
    ensures { IsReadBy glance.now builder.new }
{
    let rows = row(rt, alloc, b"t", fields);
    let found = builder.row(glance, &rows.row(0)).err();
    expect_same(rt, &found, &wanted, &fields);
}

// A builder of two rows; between them and its end a third is refused, which leaves it as it was.
fn gathered(rt: &impl Abort, alloc: Global, glance: &Glance) -> BatchBuilder
    ensures { IsReadBy glance.now result }
{
    let mut builder = BatchBuilder::new(alloc);
    expect_next(rt, alloc, glance, &mut builder, b"2;x;5;7", None);
    expect_next(rt, alloc, glance, &mut builder, b"1;x;-6;8", None);
    let bad = Some(BatchError::BadRow { row: 3, column: 4 });
    expect_next(rt, alloc, glance, &mut builder, b"3;x;5;", bad);
    builder
}

// Stops the test of a batch that hasn't the two rows that were taken, in the order of their keys, or has one of a second table.
fn expect_taken(rt: &impl Abort, batch: &Batch) {
    let counts = (batch.len(), batch.count(0), batch.count(1));
    expect_same(rt, &counts, &(2, 2, 0), &"rows");
    let rows = batch.rows(0).expect(rt, "memory");
    if let Some(row) = rows.as_slice().first() {
        expect_same(
            rt,
            &row.values.as_slice(),
            &[-6, 8].as_slice(),
            &"values of the least key",
        );
    }
    let totals = batch.abs_totals(0).expect(rt, "memory");
    expect_same(
        rt,
        &totals.as_slice(),
        &[11].as_slice(),
        &"sums of absolute values",
    );
}

#[test]
fn a_refused_row_changes_nothing(rt: HostRuntime) {
    let glance = glance(&rt, rt.alloc()).copy().expect(&rt, "memory");
    let batch = gathered(&rt, rt.alloc(), &glance)
        .finish()
        .expect(&rt, "rows with keys of their own");
    expect_taken(&rt, &batch.copy().expect(&rt, "memory"));
}

// Four rows of a load, and why they make no batch.
type Four = ([&'static [u8]; 4], Option<BatchError>);

// Of all rows whose key stands already the first one is told.
static FOURS: [Four; 5] = [
    ([b"2;x;5;7", b"1;x;5;7", b"2;y;5;7", b"3;x;5;7"], None),
    (
        [b"2;x;5;7", b"1;x;5;7", b"3;x;5;7", b"02;x;0;0"],
        Some(BatchError::DuplicateKey {
            first: 1,
            second: 4,
        }),
    ),
    (
        [b"2;x;5;7", b"1;x;5;7", b"1;x;5;7", b"2;x;5;7"],
        Some(BatchError::DuplicateKey {
            first: 2,
            second: 3,
        }),
    ),
    (
        [b"2;x;5;7", b"1;x;5;7", b"2;x;5;7", b"1;x;5;7"],
        Some(BatchError::DuplicateKey {
            first: 1,
            second: 3,
        }),
    ),
    (
        [b"2;x;5;7", b"1;x;5;7", b"1;x;5;7", b"1;x;5;7"],
        Some(BatchError::DuplicateKey {
            first: 2,
            second: 3,
        }),
    ),
];

// Why these rows make no batch.
fn fault_of_four(
    rt: &impl Abort,
    alloc: Global,
    glance: &Glance,
    rows: &[&'static [u8]; 4],
) -> Option<BatchError> {
    let [a, b, c, d] = rows;
    let mut builder = BatchBuilder::new(alloc);
    expect_next(rt, alloc, glance, &mut builder, a, None);
    expect_next(rt, alloc, glance, &mut builder, b, None);
    expect_next(rt, alloc, glance, &mut builder, c, None);
    expect_next(rt, alloc, glance, &mut builder, d, None);
    builder.finish().err()
}

#[test]
fn a_key_comes_once(rt: HostRuntime) {
    let glance = glance(&rt, rt.alloc());
    for (rows, wanted) in &FOURS {
        let found = fault_of_four(&rt, rt.alloc(), &glance, rows);
        expect_same(&rt, &found, wanted, rows);
    }
}

// A total, one more, and whether both keep the bound of 2^127 - 1. The last two add up to more than 128 bits.
static BOUNDS: [(u128, u128, Result<(), u16>); 4] = [
    ((1 << 127) - 8, 7, Ok(())),
    ((1 << 127) - 8, 8, Err(1)),
    (1 << 127, 1 << 127, Err(1)),
    (u128::MAX, 1, Err(1)),
];

// Whether totals of two columns, of which the first stays the same, keep the bound.
fn fit(rt: &impl Abort, alloc: Global, total: u128, more: u128) -> Result<(), u16> {
    let totals = vec![in alloc; 1, total].expect(rt, "memory");
    let others = vec![in alloc; 1, more].expect(rt, "memory");
    fits(&Items::from_vec(totals), &Items::from_vec(others))
}

#[test]
fn totals_within_the_bound(rt: HostRuntime) {
    for (total, more, answer) in &BOUNDS {
        let found = fit(&rt, rt.alloc(), *total, *more);
        expect_same(&rt, &found, answer, more);
    }
}
