// Reading a block.
ghost use Rattle.std.specs.Prelude.{◌≡◌, ◌≢◌, ◌≤◌, ◌<◌, ℕ, List, length, map, replicate, Option, Some, None, Err, IfOk, IfErr};
ghost use Rattle.std.specs.List.{AllByRecursion};
ghost use Rattle.mesa_columns.specs.declared.rows.Row.{Row};
ghost use Rattle.mesa_columns.specs.Columns.{kinds_of};
ghost use Rattle.mesa_block.specs.Spelling.{block};
ghost use Rattle.mesa_block.specs.Rows.{AreRows};
ghost use Rattle.mesa_block.specs.Reading.{Gives, piece_at, pieces_at, column_at, columns_at, cells_at, value_columns_at, checked, rows_at, block_at};

use crate::checking::{bad_text_of, disordered};
use crate::column::{Column, Numbers};
use crate::flat::{Block, made_rows};
use crate::layout::widths;
use crate::writing::kinds;
use crate::{BlockError, MOST_BYTES, MOST_ROWS, Width};
use mesa_columns::{Format, KeyType, Schema, reads_back, reads_spellings};
use std::alloc::{AllocError, Global};

// A piece, and the bytes after it.
fn piece_of(n: usize, bytes: &[u8]) -> Result<(&[u8], &[u8]), BlockError>
    ensures { Gives (λ x. (x.0.now, x.1.now)) result (piece_at n bytes.now) }
{
    if bytes.len() < n {
        return Err(BlockError::Truncated);
    }
    Ok(bytes.split_at(n))
}

// So many ints, and the bytes after them. None of them is looked at.
fn ints_of(alloc: Global, r: usize, bytes: &[u8]) -> Result<(Column, &[u8]), BlockError>
    requires { r ≤ 1024 }
    ensures { Gives (λ x. (x.0, x.1.now)) result (pieces_at (replicate r 8) bytes.now) }
{
    let (cells, rest) = piece_of(8 * r, bytes)?;
    Ok((Column::ints(alloc, r, cells), rest))
}

// Pieces of these lengths, and the bytes after them.
fn pieces_of<'a>(
    alloc: Global,
    lengths: &[u8],
    bytes: &'a [u8],
) -> Result<(Vec<&'a [u8]>, &'a [u8]), BlockError>
    ensures { Gives (λ x. (map (λ k. k.now) x.0.items, x.1.now)) result (pieces_at lengths.now bytes.now) }
{
    let mut pieces = Vec::with_capacity(alloc, lengths.len())?;
    let mut rest = bytes;
    for len in lengths {
        let (piece, after) = piece_of(*len as usize, rest)?;
        pieces.push(piece)?;
        rest = after;
    }
    Ok((pieces, rest))
}

// So many texts, and the bytes after them.
#[tactic(auto, unfolding(crate::specs::Reading::column_at))]
fn texts_of(alloc: Global, r: usize, bytes: &[u8]) -> Result<(Column, &[u8]), BlockError>
    ensures { Gives (λ x. (x.0, x.1.now)) result (column_at KeyType.Text r bytes.now) }
{
    let (lengths, rest) = piece_of(r, bytes)?;
    let (cells, rest) = pieces_of(alloc, lengths, rest)?;
    Ok((Column::texts(cells), rest))
}

// A column, and the bytes after it.
#[tactic(auto, unfolding(crate::specs::Reading::column_at))]
fn column_of(
    alloc: Global,
    kind: KeyType,
    r: usize,
    bytes: &[u8],
) -> Result<(Column, &[u8]), BlockError>
    requires { r ≤ 1024 }
    ensures { Gives (λ x. (x.0, x.1.now)) result (column_at kind r bytes.now) }
{
    match kind {
        KeyType::Int => ints_of(alloc, r, bytes),
        KeyType::Text => texts_of(alloc, r, bytes),
    }
}

// The columns, and the bytes after them.
fn columns_of<'a>(
    alloc: Global,
    kinds: &[KeyType],
    r: usize,
    bytes: &'a [u8],
) -> Result<(Vec<Column<'a>>, &'a [u8]), BlockError>
    requires { r ≤ 1024 }
    ensures { Gives (λ x. (x.0.items, x.1.now)) result (columns_at kinds.now r bytes.now) }
{
    let mut columns = Vec::with_capacity(alloc, kinds.len())?;
    let mut rest = bytes;
    for kind in kinds {
        let (column, after) = column_of(alloc, *kind, r, rest)?;
        columns.push(column)?;
        rest = after;
    }
    Ok((columns, rest))
}

// So many numbers of a width, and the bytes after them. None of them is looked at.
fn numbers_of(width: Width, r: usize, bytes: &[u8]) -> Result<(Numbers, &[u8]), BlockError>
    requires { r ≤ 1024 }
    ensures { Gives (λ x. (x.0, x.1.now)) result (cells_at width r bytes.now) }
{
    let (cells, rest) = piece_of(width.size() * r, bytes)?;
    Ok((Numbers::new(width, r, cells), rest))
}

// The value columns, and the bytes after them.
fn value_columns_of<'a>(
    alloc: Global,
    widths: &[Width],
    r: usize,
    bytes: &'a [u8],
) -> Result<(Vec<Numbers<'a>>, &'a [u8]), BlockError>
    requires { r ≤ 1024 }
    ensures { Gives (λ x. (x.0.items, x.1.now)) result (value_columns_at widths.now r bytes.now) }
{
    let mut columns = Vec::with_capacity(alloc, widths.len())?;
    let mut rest = bytes;
    for width in widths {
        let (column, after) = numbers_of(*width, r, rest)?;
        columns.push(column)?;
        rest = after;
    }
    Ok((columns, rest))
}

// The rows of columns that were read, with these bytes left.
#[tactic(auto, unfolding(crate::specs::Reading::checked))]
fn checked_rows(
    alloc: Global,
    kinds: &[KeyType],
    widths: &[Width],
    keys: &[Column],
    values: &[Numbers],
    r: usize,
    left: &[u8],
) -> Result<Block, BlockError>
    requires few { r ≤ 1024 }
    requires cells { AllByRecursion (λ (column : List (List ℕ)). length column ≡ r) keys.now }
    ensures { Gives (λ b. b) result (checked kinds.now widths.now keys.now values.now r left.now) }
{
    if let Some(row) = bad_text_of(kinds, keys) {
        return Err(BlockError::BadText { row: row as u16 });
    }
    let rows = made_rows(alloc, kinds, widths, keys, values, r)?;
    if let Some(row) = disordered(&rows) {
        return Err(BlockError::OutOfOrder { row: row as u16 });
    }
    if left.len() != 0 {
        return Err(BlockError::Trailing);
    }
    Ok(rows)
}

// The rows of a block's columns.
#[tactic(auto, unfolding(crate::specs::Reading::rows_at))]
fn rows_in(
    alloc: Global,
    format: Format,
    schema: &Schema,
    r: usize,
    bytes: &[u8],
) -> Result<Block, BlockError>
    requires { r ≤ 1024 }
    ensures { Gives (λ b. b) result (rows_at (record { format = format; columns = schema.now }) r bytes.now) }
{
    let kinds = kinds(alloc, schema)?;
    let (keys, rest) = columns_of(alloc, &kinds, r, bytes)?;
    let widths = widths(alloc, format, schema)?;
    let (values, rest) = value_columns_of(alloc, &widths, r, rest)?;
    let rows = checked_rows(alloc, &kinds, &widths, &keys, &values, r, rest)?;
    Ok(rows)
}

// The rows that the bytes spell, all of the bytes.
#[tactic(auto, unfolding(crate::specs::Reading::block_at))]
fn read_rows(
    alloc: Global,
    format: Format,
    schema: &Schema,
    bytes: &[u8],
) -> Result<Block, BlockError>
    ensures { Gives (λ b. b) result (block_at (record { format = format; columns = schema.now }) bytes.now) }
{
    if bytes.len() < 3 {
        return Err(BlockError::Truncated);
    }
    if bytes[0] != 0 {
        return Err(BlockError::Compressed);
    }
    let r = u16::from_be_bytes([bytes[1], bytes[2]]) as usize;
    if r > MOST_ROWS {
        return Err(BlockError::BadCount);
    }
    if r == 0 {
        return Err(BlockError::BadCount);
    }
    let rows = rows_in(alloc, format, schema, r, &bytes[3..])?;
    if bytes.len() > MOST_BYTES {
        return Err(BlockError::Trailing);
    }
    Ok(rows)
}

/// The block of the format that the bytes spell, all of them.
pub fn read_block(
    alloc: Global,
    schema: &Schema,
    format: Format,
    bytes: &[u8],
) -> Result<Block, BlockError>
    // What is read makes a block, and the bytes are its spelling.
    ensures rows { IfOk result (λ rows. AreRows (record { format = format; columns = schema.now }) rows) }
    ensures spelled { IfOk result (λ rows. block (record { format = format; columns = schema.now }) rows ≡ bytes.now) }

    // What is spelled so is read.
    ensures refused { IfErr result (λ e. e ≢ BlockError.Memory → (rows : List Row) → AreRows (record { format = format; columns = schema.now }) rows → block (record { format = format; columns = schema.now }) rows ≢ bytes.now) }

    // Of the faults the first is told.
    ensures first { IfErr result (λ e. e ≢ BlockError.Memory → block_at (record { format = format; columns = schema.now }) bytes.now ≡ Err e) }
{
    reads_back();
    reads_spellings();
    let rows = read_rows(alloc, format, schema, bytes)?;
    Ok(rows)
}
