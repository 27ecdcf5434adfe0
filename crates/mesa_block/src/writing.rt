// Writing a block.
ghost use Rattle.std.specs.Prelude.{◌≡◌, IsTrue, ◌<◌, ℕ, ◌++◌, ◌^◌, [], ◌∷◌, IfOk, OnOk, List, length, map};
ghost use Rattle.std.specs.Int.{w16, to_be_bytes};
ghost use Rattle.std.specs.List.{AllByRecursion};
ghost use Rattle.mesa_columns.specs.mesa_key.declared.KeyType.{KeyType as AnyType};
ghost use Rattle.mesa_columns.specs.mesa_key.Spelling.{is_spelling};
ghost use Rattle.mesa_columns.specs.Columns.{kinds_of};
ghost use Rattle.mesa_block.specs.Fill.{AreOver, rows_over};
ghost use Rattle.mesa_block.specs.Layout.{value};
ghost use Rattle.mesa_block.specs.Spelling.{cell, front, lengths, rest, column, columns, value_column, value_columns};

use crate::Width;
use mesa_columns::{Amount, Column, ColumnValue, KeyColumns, KeyType, Schema};
use mesa_list::Fields;
use std::alloc::{AllocError, Global};
use std::mem::swap;

/// The types of the key columns.
pub fn kinds(alloc: Global, schema: &Schema) -> Result<Vec<KeyType>, AllocError>
    ensures { IfOk result (λ v. v.items ≡ kinds_of schema.now) }
{
    let mut kinds = Vec::with_capacity(alloc, schema.keys().len())?;
    for column in schema.keys() {
        kinds.push(column.kind)?;
    }
    Ok(kinds)
}

/// Appends the flag, and the count of rows.
pub fn put_head(out: &mut Vec<u8>, rows: usize) -> Result<(), AllocError>
    requires { rows < 2 ^ 16 }
    ensures { OnOk result (out.new.items ≡ out.old.items ++ 0 ∷ to_be_bytes w16 rows) }
{
    out.push(0)?;
    out.extend_from_slice(&(rows as u16).to_be_bytes())
}

/// Appends the key columns of all rows. The buffer of cells is used up and filled again for each column.
pub fn put_keys(
    alloc: Global,
    out: &mut Vec<u8>,
    cells: &mut Vec<u8>,
    kinds: &[KeyType],
    keys: &Fields,
) -> Result<(), AllocError>
    requires { AllByRecursion (λ key. IsTrue (is_spelling kinds.now key)) keys.now }
    ensures { OnOk result (out.new.items ≡ out.old.items ++ columns kinds.now keys.now) }
{
    let mut keys = lent(alloc, keys)?;
    let mut rests = Vec::with_capacity(alloc, keys.len())?;
    let mut left = kinds;
    while let Some((_, others)) = left.split_first() {
        put_column(out, cells, &mut rests, left, &keys)?;
        swap(&mut keys, &mut rests);
        left = others;
    }
    Ok(())
}

// The keys, lent one by one.
fn lent(alloc: Global, keys: &Fields) -> Result<Vec<&[u8]>, AllocError>
    ensures { IfOk result (λ v. map (λ k. k.now) v.items ≡ keys.now) }
{
    let mut found = Vec::with_capacity(alloc, keys.len())?;
    let mut left = keys.view();
    while let Some(key) = left.take_next() {
        found.push(key)?;
    }
    Ok(found)
}

// Appends the first column of all keys, and leaves the bytes of their other columns.
fn put_column<'a>(
    out: &mut Vec<u8>,
    cells: &mut Vec<u8>,
    rests: &mut Vec<&'a [u8]>,
    kinds: &'a [KeyType],
    keys: &[&'a [u8]],
) -> Result<(), AllocError>
    requires some { 0 < length kinds.now }
    requires spelled { AllByRecursion (λ key. IsTrue (is_spelling kinds.now key)) (map (λ k. k.now) keys.now) }
    ensures put { OnOk result ((kind : AnyType) (others : List AnyType) → kinds.now ≡ kind ∷ others → out.new.items ≡ out.old.items ++ column kind (map (front kind) (map (λ k. k.now) keys.now))) }
    ensures left { OnOk result ((kind : AnyType) (others : List AnyType) → kinds.now ≡ kind ∷ others → map (λ k. k.now) rests.new.items ≡ map (rest kind) (map (λ k. k.now) keys.now)) }
{
    cells.clear();
    rests.clear();
    for key in keys {
        let (cell, rest) = parted(kinds, key);
        put_length(out, kinds[0], cell)?;
        cells.extend_from_slice(cell)?;
        rests.push(rest)?;
    }
    out.extend_from_slice(cells)?;
    Ok(())
}

// A key's first column as a block has it, and the bytes of the others.
fn parted<'a>(kinds: &'a [KeyType], key: &'a [u8]) -> (&'a [u8], &'a [u8])
    requires some { 0 < length kinds.now }
    requires spelled { IsTrue (is_spelling kinds.now key.now) }
    ensures cell { (kind : AnyType) (others : List AnyType) → kinds.now ≡ kind ∷ others → result.0.now ≡ front kind key.now }
    ensures rest { (kind : AnyType) (others : List AnyType) → kinds.now ≡ kind ∷ others → result.1.now ≡ rest kind key.now }
    ensures short { length result.0.now < 2 ^ 8 }
{
    let mut columns = KeyColumns::of(kinds, key);
    let Some(column) = columns.take_next() else {
        unreachable!()
    };
    (cell_of(column), columns.rest())
}

// A column's bytes, a text's without its zero.
fn cell_of(column: Column<'_>) -> &[u8]
    ensures { result.now ≡ cell column.entry.kind column.entry.bytes.now }
{
    match column.value() {
        ColumnValue::Int(_) => column.bytes,
        ColumnValue::Text(text) => text,
    }
}

// Appends the length of a text.
fn put_length(out: &mut Vec<u8>, kind: KeyType, cell: &[u8]) -> Result<(), AllocError>
    requires { length cell.now < 2 ^ 8 }
    ensures { OnOk result (out.new.items ≡ out.old.items ++ lengths kind (cell.now ∷ [])) }
{
    match kind {
        KeyType::Int => Ok(()),
        KeyType::Text => {
            out.push(cell.len() as u8)?;
            Ok(())
        }
    }
}

/// Appends the value columns of all rows, each of which has a value for each width. The values stand row by row.
pub fn put_values(out: &mut Vec<u8>, values: &[Amount], widths: &[Width]) -> Result<(), AllocError>
    ensures { OnOk result ((keys : List (List ℕ)) → AreOver (length widths.now) keys values.now
        → out.new.items ≡ out.old.items ++ value_columns widths.now (rows_over (length widths.now) keys values.now) 0) }
{
    for j in 0..widths.len() {
        put_value_column(out, values, widths.len(), widths[j], j)?;
    }
    Ok(())
}

// Appends one value column of all rows.
fn put_value_column(
    out: &mut Vec<u8>,
    values: &[Amount],
    count: usize,
    width: Width,
    j: usize,
) -> Result<(), AllocError>
    requires { j < count }
    ensures { OnOk result ((keys : List (List ℕ)) → AreOver count keys values.now → out.new.items ≡ out.old.items ++ value_column width (rows_over count keys values.now) j) }
{
    let mut left = values;
    while left.len() >= count {
        let (row, others) = left.split_at(count);
        put_value(out, width, row[j])?;
        left = others;
    }
    Ok(())
}

// Appends a value.
fn put_value(out: &mut Vec<u8>, width: Width, amount: Amount) -> Result<(), AllocError>
    ensures { OnOk result (out.new.items ≡ out.old.items ++ value width amount) }
{
    let bytes = amount.to_be_bytes();
    match width {
        Width::Eight => out.extend_from_slice(&bytes[8..])?,
        Width::Sixteen => out.extend_from_slice(&bytes)?,
    }
    Ok(())
}
