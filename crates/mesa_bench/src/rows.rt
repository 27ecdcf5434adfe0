// The rows.
ghost use Rattle.std.specs.Prelude.{◌≡◌, ◌<◌, ◌≤◌, ◌^◌, ◌*◌, ℕ, List, map, IfOk};
ghost use Rattle.mesa_key.specs.Spelling.{key_spelling};
ghost use Rattle.mesa_open_files.specs.mesa_columns.Columns.{Columns};
ghost use Rattle.mesa_open_files.specs.mesa_columns.Rows.{AreRowsOf, IsRowOf};
ghost use Rattle.mesa_batch.specs.Totals.{abs_total};
ghost use Rattle.mesa_open_files.specs.mesa_block.Spelling.{key_of};
ghost use Rattle.mesa_open_files.specs.mesa_block.Rows.{Rise};
ghost use Rattle.mesa_delta.specs.Writing.{MayFollow};
ghost use Rattle.mesa_bench.specs.Made.{HasColumns, key_at, row_at, rows_below};

use mesa_delta::one_row_more;
use mesa_key::{KeyBytes, encode_int, orders_bytes_as_keys, reads_back};
use mesa_list::Items;
use mesa_schema::Row;
use mesa_value::Amount;
use std::alloc::{AllocError, Global};

/// How many rows have the same day, and so how many items there are.
pub const ITEMS: u32 = 100;

// The key of the row of this number: its day and its item.
fn key(alloc: Global, number: u32) -> Result<KeyBytes, AllocError>
    ensures { IfOk result (λ key. key ≡ key_spelling (key_at number)) }
{
    let mut key = Vec::with_capacity(alloc, 16)?;
    encode_int(i64::from(number / ITEMS), &mut key)?;
    encode_int(i64::from(number % ITEMS), &mut key)?;
    Ok(Items::from_vec(key))
}

/// The row of this number. Rows are made in the order of their keys.
pub fn row(alloc: Global, number: u32) -> Result<Row, AllocError>
    ensures { IfOk result (λ r. r ≡ row_at number) }
{
    let key = key(alloc, number)?;
    let amount = Amount::from(number % 1000);
    let peak = Amount::from(number % 997);
    let values = Vec::from_slice(alloc, &[amount, peak])?;
    Ok(Row {
        key,
        values: Items::from_vec(values),
    })
}

/// Makes so many rows, one after the other, and adds up their amounts.
pub fn add_up_rows(alloc: Global, rows: u32) -> Result<Amount, AllocError> {
    let mut total: Amount = 0;
    for number in 0..rows {
        let row = row(alloc, number)?;
        total = total.wrapping_add(row.values.as_slice()[0]);
    }
    Ok(total)
}

/// A list of the first rows.
pub fn make_rows(alloc: Global, rows: u32) -> Result<Vec<Row>, AllocError>
    ensures form { IfOk result (λ made. (s : Columns) → HasColumns s → AreRowsOf s made.items) }
    ensures few { IfOk result (λ made. abs_total 0 made.items ≤ rows * 999) }
{
    rows_have_form();
    let mut made = Vec::with_capacity(alloc, rows as usize)?;
    for number in 0..rows {
        made.push(row(alloc, number)?)?;
    }
    Ok(made)
}

/// Makes a list of the first rows, and counts them.
pub fn hold_rows(alloc: Global, rows: u32) -> Result<usize, AllocError> {
    let made = make_rows(alloc, rows)?;
    Ok(made.len())
}

/// Each row has the form of the columns.
pub fn rows_have_form()
    ensures { (s : Columns) (i : ℕ) → HasColumns s → i < 2 ^ 32 → IsRowOf s (row_at i) }
{
    reads_back();
}

/// Each row may follow those before it.
pub fn rows_follow()
    ensures { (s : Columns) (i : ℕ) → HasColumns s → i < 2 ^ 32 → Rise (map key_of (rows_below i)) → MayFollow s (rows_below i) (row_at i) }
{
    orders_bytes_as_keys();
    reads_back();
    one_row_more();
}
