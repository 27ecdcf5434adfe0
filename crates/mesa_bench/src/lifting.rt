// Copying the rows, and lifting them through ten changes.
use crate::columns::{key_column, name, schema, value_column};
use crate::failure::Failure;
use crate::rows::make_rows;
use mesa_key::KeyValue;
use mesa_list::TryCopy;
use mesa_schema::{Change, Evolving, Lift, Row};
use mesa_value::Agg;
use std::alloc::{AllocError, Global};

fn copy_all(rows: &[Row]) -> Result<usize, AllocError> {
    let mut count: usize = 0;
    for row in rows {
        let copied = row.copy()?;
        count = count.wrapping_add(copied.values.len() / 2);
    }
    Ok(count)
}

/// Copies each row of a list, and counts them.
pub fn copy_rows(alloc: Global, rows: u32) -> Result<usize, AllocError> {
    let rows = make_rows(alloc, rows)?;
    copy_all(&rows)
}

fn lift_all(alloc: Global, lift: &Lift, rows: u32) -> Result<usize, Failure> {
    let rows = make_rows(alloc, rows)?;
    let mut count: usize = 0;
    for row in rows {
        let lifted = lift.row(row)?;
        count = count.wrapping_add(lifted.values.len() / 5);
    }
    Ok(count)
}

/// Lifts each row of a list, and counts them.
pub fn lift_rows(alloc: Global, rows: u32) -> Result<usize, Failure> {
    let lift = lift(alloc)?;
    lift_all(alloc, &lift, rows)
}

// What becomes of a column.
#[derive(Clone, Copy)]
enum Made {
    Value,
    Key,
    Gone,
}

// Ten changes: five values more, two less, and three keys more.
static CHANGES: [(&str, Made); 10] = [
    ("a", Made::Value),
    ("b", Made::Value),
    ("x", Made::Key),
    ("peak", Made::Gone),
    ("c", Made::Value),
    ("y", Made::Key),
    ("d", Made::Value),
    ("b", Made::Gone),
    ("z", Made::Key),
    ("e", Made::Value),
];

// Lifts rows through the changes.
fn lift(alloc: Global) -> Result<Lift, Failure> {
    let mut evolving = Evolving::new(alloc, schema(alloc)?);
    change_all(alloc, &mut evolving)?;
    Ok(evolving.lift_from(0)?)
}

fn change_all(alloc: Global, evolving: &mut Evolving) -> Result<(), Failure> {
    for (text, made) in &CHANGES {
        let change = change_of(alloc, text, *made)?;
        evolving.change(change).or(Err(Failure::Refused))?;
    }
    Ok(())
}

fn change_of(alloc: Global, text: &str, made: Made) -> Result<Change, Failure> {
    match made {
        Made::Value => added_value(alloc, text),
        Made::Key => added_key(alloc, text),
        Made::Gone => dropped(alloc, text),
    }
}

fn added_value(alloc: Global, text: &str) -> Result<Change, Failure> {
    let column = value_column(alloc, text, Agg::Max)?;
    Ok(Change::AddValue { column, default: 7 })
}

fn added_key(alloc: Global, text: &str) -> Result<Change, Failure> {
    let column = key_column(alloc, text)?;
    let default = KeyValue::Int(7);
    Ok(Change::AddKey { column, default })
}

fn dropped(alloc: Global, text: &str) -> Result<Change, Failure> {
    let name = name(alloc, text)?;
    Ok(Change::DropValue { name })
}
