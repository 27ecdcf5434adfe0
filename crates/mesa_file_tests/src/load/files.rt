// Which files a batch gets.
use crate::expected::expect_same;
use crate::load::loads::{Session, VIEW_OF_A, expect_fault, prepared};
use mesa_batch::BatchError;
use mesa_disk::{Made, MemMade};
use mesa_open_files::{LoadError, MadeFile, MadeFiles, Prepared, PreparedPart};
use std::alloc::{AllocError, Global};
use std::process::Abort;
use std::thread::Threads;

// The aggregate of a file's last value column.
fn last_total(file: &MadeFile<MemMade>) -> i128 {
    let mut total = 0;
    for value in file.file.aggregates.as_slice() {
        total = *value;
    }
    total
}

// Whether a file is the one of its reference.
fn is_same(file: &MadeFile<MemMade>) -> bool {
    file.made.id() == file.file.id && file.made.len() == file.file.len
}

// What is told of a file: its draft's serial number, how many rows it has, how long its first key is, and its sum.
fn push_file(alloc: Global, file: &MadeFile<MemMade>, text: &mut String) -> Result<(), AllocError> {
    let serial = file.file.id.number() % (1 << 32);
    let (rows, key) = (file.file.rows, file.file.first.as_slice().len());
    let (total, same) = (last_total(file), is_same(file));
    let told = format!(in alloc; " serial={serial} rows={rows} key={key} sum={total} same={same}")?;
    text.push_str(told.as_str())
}

fn push_number(
    alloc: Global,
    before: &str,
    number: u128,
    text: &mut String,
) -> Result<(), AllocError> {
    let told = format!(in alloc; "{before}{number}")?;
    text.push_str(told.as_str())
}

fn push_files(
    alloc: Global,
    files: &MadeFiles<MemMade>,
    text: &mut String,
) -> Result<(), AllocError> {
    push_file(alloc, &files.file, text)?;
    for view in &files.views {
        push_number(alloc, " view=", u128::from(view.view), text)?;
        push_file(alloc, &view.file, text)?;
    }
    Ok(())
}

// What is told of a part: its table, its totals and its files.
fn push_part(
    alloc: Global,
    part: &PreparedPart<MemMade>,
    text: &mut String,
) -> Result<(), AllocError> {
    push_number(alloc, " table=", u128::from(part.table), text)?;
    for total in part.totals.as_slice() {
        push_number(alloc, " total=", *total, text)?;
    }
    match &part.files {
        Some(files) => push_files(alloc, files, text),
        None => text.push_str(" no file"),
    }
}

fn push_parts(
    alloc: Global,
    prepared: &Prepared<MemMade>,
    text: &mut String,
) -> Result<(), AllocError> {
    push_number(alloc, "generation=", u128::from(prepared.generation), text)?;
    for part in &prepared.parts {
        push_part(alloc, part, text)?;
    }
    Ok(())
}

// What is told of what was prepared.
fn told(rt: &impl Abort, alloc: Global, prepared: &Prepared<MemMade>) -> String {
    let mut text = String::new(alloc);
    push_parts(alloc, prepared, &mut text).expect(rt, "memory");
    text
}

// The key column of the table's view, the rows of a load, and what is told of what is prepared of them.
type Case = (Option<&'static [u8]>, &'static [u8], &'static str);

// Stops the test of a load that is refused, or of which something else is told.
fn expect<R: Abort + Threads + Sync>(rt: &R, alloc: Global, session: &mut Session, case: &Case) {
    let prepared = prepared(rt, alloc, session, case.0, case.1).expect(rt, "what is prepared");
    let text = told(rt, alloc, &prepared);
    expect_same(rt, &text.as_str(), &case.2, case);
}

static WITHOUT_VIEW: Case = (
    None,
    b"t;1;1;5 t;1;2;7",
    "generation=7 table=0 total=12 serial=0 rows=2 key=16 sum=12 same=true",
);

static WITH_VIEW: Case = (
    VIEW_OF_A,
    b"t;1;3;1 t;1;4;-3",
    "generation=7 table=0 total=4 serial=1 rows=2 key=16 sum=-2 same=true view=0 serial=2 rows=1 key=8 sum=-2 same=true",
);

#[test]
fn a_view_gets_files_once_it_is_there(rt: HostRuntime) {
    let alloc = rt.alloc();
    let mut session = Session::new(alloc, Vec::new(alloc));
    expect(&rt, alloc, &mut session, &WITHOUT_VIEW);
    expect(&rt, alloc, &mut session, &WITH_VIEW);
}

// A session whose bench makes no draft.
fn no_bench(rt: &impl Abort, alloc: Global) -> Session {
    Session::new(alloc, vec![in alloc; (0, 0)].expect(rt, "memory"))
}

static PAST_THE_BOUND: Case = (
    VIEW_OF_A,
    b"t;1;1;170141183460469231731687303715884105727 t;1;2;-1",
    "generation=7 table=0 total=170141183460469231731687303715884105728 no file",
);

#[test]
fn a_batch_past_the_bound_opens_no_draft(rt: HostRuntime) {
    let mut session = no_bench(&rt, rt.alloc());
    expect(&rt, rt.alloc(), &mut session, &PAST_THE_BOUND);
}

static NO_ROWS: Case = (VIEW_OF_A, b"", "generation=7");

#[test]
fn a_load_without_rows_has_no_part(rt: HostRuntime) {
    let mut session = no_bench(&rt, rt.alloc());
    expect(&rt, rt.alloc(), &mut session, &NO_ROWS);
}

// Loads that make no batch, and why.
static REFUSED: [(&[u8], BatchError); 4] = [
    (
        b"t;1;1;5 t;1;1;7",
        BatchError::DuplicateKey {
            first: 1,
            second: 2,
        },
    ),
    (b"t;1;1;5 u;1;2;7", BatchError::NoTable { row: 2 }),
    // The row that comes first is told.
    (
        b"t;1;1;5 t;1;1;7 u;1;2;7",
        BatchError::DuplicateKey {
            first: 1,
            second: 2,
        },
    ),
    (b"t;1;1;5 u;1;2;7 t;1;1;7", BatchError::NoTable { row: 2 }),
];

#[test]
fn rows_that_make_no_batch_are_refused(rt: HostRuntime) {
    let mut session = no_bench(&rt, rt.alloc());
    for (load, fault) in &REFUSED {
        let wanted = Some(LoadError::Batch(*fault));
        expect_fault(&rt, rt.alloc(), &mut session, None, load, wanted);
    }
}
