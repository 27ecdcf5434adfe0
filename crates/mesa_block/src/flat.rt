// The rows of a block, held flat.
ghost use Rattle.std.specs.Prelude.{◌≡◌, ◌<◌, ◌≤◌, ◌+◌, ◌*◌, ◌^◌, ℕ, ◌++◌, [], List, length, map, take, drop, get_or, slice_get, Some, IfOk, OnOk};
ghost use Rattle.mesa_columns.specs.Lent.{lent};
ghost use Rattle.mesa_columns.specs.Lifting.{lifted_with};
ghost use Rattle.mesa_block.specs.Layout.{number};
ghost use Rattle.mesa_block.specs.Spelling.{key_of};
ghost use Rattle.mesa_block.specs.Reading.{key_at, values_at, rows_of, sealed};

use crate::Width;
use crate::column::{Column, Numbers};
use mesa_columns::{Amount, KeyType, LentRow, Lift, Row};
use mesa_list::Fields;
use std::alloc::{AllocError, Global};
use std::marker::Model;

/// The rows of a block, as they were read: their keys stand in one buffer, and their values, row by row, in another.
#[derive(Drop)]
pub struct Block {
    keys: Fields,
    values: Vec<Amount>,
    // How many values a row has.
    count: usize,
}

impl Model for Block {
    ghost use Rattle.std.specs.Prelude.{List};
    ghost use Rattle.mesa_columns.specs.declared.rows.Row.{Row};
    ghost use Rattle.mesa_block.specs.Fill.{AreOver, rows_over};

    ghost Value = { List Row };

    ghost view = { λ b. rows_over b.count b.keys b.values.items };

    ghost invariant = { λ b. AreOver b.count b.keys b.values.items };
}

impl Block {
    /// No rows. It takes no memory.
    pub fn none(alloc: Global) -> Self
        ensures { result ≡ [] }
    {
        Block {
            keys: Fields::new(alloc),
            values: Vec::new(alloc),
            count: 0,
        }
    }

    /// How many rows there are.
    pub fn len(&self) -> usize
        ensures { result ≡ length self.now }
    {
        self.keys.len()
    }

    /// The keys, one behind the other.
    pub(crate) fn keys(&self) -> &Fields
        ensures { result.now ≡ map key_of self.now }
    {
        &self.keys
    }

    /// The row at a place, counted from 0.
    pub fn row(&self, i: usize) -> LentRow<'_>
        requires { i < length self.now }
        ensures { slice_get self.now i ≡ Some (lent result) }
    {
        match self.keys.get(i) {
            Some(key) => LentRow {
                key,
                values: values_at_row(&self.values, self.count, i),
            },
            None => unreachable!(),
        }
    }

    /// The rows, lifted. Where they stay as they are none is copied.
    pub fn lifted(self, lift: &Lift) -> Result<Block, AllocError>
        ensures { IfOk result (λ b. b ≡ map (lifted_with lift.now) self) }
    {
        if lift.is_none() {
            return Ok(self);
        }
        lifted_rows(&self, lift)
    }
}

// The rows of a block, lifted.
fn lifted_rows(rows: &Block, lift: &Lift) -> Result<Block, AllocError>
    ensures { IfOk result (λ b. b ≡ map (lifted_with lift.now) rows.now) }
{
    let alloc = rows.keys.allocator();
    let count = lift.count(rows.count);
    let mut keys = Fields::new(alloc);
    let mut values = Vec::new(alloc);
    let mut row = Row::empty(alloc);
    for i in 0..rows.len() {
        lift.put(rows.row(i), &mut row)?;
        keys.push(row.key.as_slice())?;
        values.extend_from_slice(row.values.as_slice())?;
    }
    Ok(Block {
        keys,
        values,
        count,
    })
}

// The values of a row, where each row has so many.
fn values_at_row(values: &[Amount], count: usize, i: usize) -> &[Amount]
    requires { i * count + count ≤ length values.now }
    ensures { result.now ≡ take count (drop (i * count) values.now) }
{
    let begin = i * count;
    &values[begin..begin + count]
}

// The number that a value's cell spells.
fn number_of(width: Width, cell: &[u8]) -> Amount
    ensures { result ≡ number width cell.now }
{
    match width {
        Width::Eight => Amount::from(number_of_eight(cell)),
        Width::Sixteen => wide_number(cell),
    }
}

// The number that eight bytes spell.
fn number_of_eight(cell: &[u8]) -> i64
    ensures { result ≡ number Width.Eight cell.now }
{
    match cell {
        [a, b, c, d, e, f, g, h] => i64::from_be_bytes([*a, *b, *c, *d, *e, *f, *g, *h]),
        _ => number_at_eight(cell),
    }
}

// The number of any bytes, the first eight of them.
fn number_at_eight(cell: &[u8]) -> i64
    ensures { result ≡ number Width.Eight cell.now }
{
    i64::from_be_bytes([
        byte_of(cell, 0),
        byte_of(cell, 1),
        byte_of(cell, 2),
        byte_of(cell, 3),
        byte_of(cell, 4),
        byte_of(cell, 5),
        byte_of(cell, 6),
        byte_of(cell, 7),
    ])
}

// The number that sixteen bytes spell.
fn wide_number(cell: &[u8]) -> Amount
    ensures { result ≡ number Width.Sixteen cell.now }
{
    match cell {
        [a, b, c, d, e, f, g, h, i, j, k, l, m, n, o, p] => Amount::from_be_bytes([
            *a, *b, *c, *d, *e, *f, *g, *h, *i, *j, *k, *l, *m, *n, *o, *p,
        ]),
        _ => wide_in(cell),
    }
}

// The number of any bytes, the first sixteen of them.
fn wide_in(cell: &[u8]) -> Amount
    ensures { result ≡ number Width.Sixteen cell.now }
{
    Amount::from_be_bytes([
        byte_of(cell, 0),
        byte_of(cell, 1),
        byte_of(cell, 2),
        byte_of(cell, 3),
        byte_of(cell, 4),
        byte_of(cell, 5),
        byte_of(cell, 6),
        byte_of(cell, 7),
        byte_of(cell, 8),
        byte_of(cell, 9),
        byte_of(cell, 10),
        byte_of(cell, 11),
        byte_of(cell, 12),
        byte_of(cell, 13),
        byte_of(cell, 14),
        byte_of(cell, 15),
    ])
}

fn byte_of(cell: &[u8], k: usize) -> u8
    ensures { result ≡ get_or cell.now k 0 }
{
    if k < cell.len() { cell[k] } else { 0 }
}

// Adds the cell of the row i as a key has it.
fn put_sealed(
    bytes: &mut Vec<u8>,
    kind: KeyType,
    column: &Column,
    i: usize,
) -> Result<(), AllocError>
    ensures { OnOk result (bytes.new.items ≡ bytes.old.items ++ sealed kind (get_or column.now i [])) }
{
    column.put(i, bytes)?;
    match kind {
        KeyType::Int => {}
        KeyType::Text => bytes.push(0)?,
    }
    Ok(())
}

// Adds the key of the row i behind those that are there.
fn put_key(
    bytes: &mut Vec<u8>,
    kinds: &[KeyType],
    columns: &[Column],
    i: usize,
) -> Result<(), AllocError>
    ensures { OnOk result (bytes.new.items ≡ bytes.old.items ++ key_at kinds.now columns.now i) }
{
    for j in 0..kinds.len() {
        if j >= columns.len() {
            return Ok(());
        }
        put_sealed(bytes, kinds[j], &columns[j], i)?;
    }
    Ok(())
}

// Adds the values of the row i behind those that are there.
fn put_values(
    found: &mut Vec<Amount>,
    widths: &[Width],
    columns: &[Numbers],
    i: usize,
) -> Result<(), AllocError>
    ensures { OnOk result (found.new.items ≡ found.old.items ++ values_at widths.now columns.now i) }
{
    for j in 0..widths.len() {
        if j >= columns.len() {
            return Ok(());
        }
        found.push(number_of(widths[j], columns[j].cell(i)))?;
    }
    Ok(())
}

// How many values a row has.
fn count_of(widths: &[Width], columns: &[Numbers]) -> usize
    ensures { (i : ℕ) → length (values_at widths.now columns.now i) ≡ result }
{
    if widths.len() < columns.len() {
        widths.len()
    } else {
        columns.len()
    }
}

// How many bytes the keys of rows of these columns take, at least.
fn least_bytes(columns: &[Column]) -> usize {
    let mut least: usize = 0;
    for column in columns {
        least = least.saturating_add(column.least_size());
    }
    least
}

// Where the bytes end.
fn end_of(bytes: &[u8]) -> Result<u32, AllocError>
    ensures { IfOk result (λ end. (end ≡ length bytes.now) × (length bytes.now < 2 ^ 32)) }
{
    if bytes.len() > u32::MAX as usize {
        return Err(AllocError);
    }
    Ok(bytes.len() as u32)
}

// The rows of columns. Each cell is put right where its key stands among the others.
pub(crate) fn made_rows(
    alloc: Global,
    kinds: &[KeyType],
    widths: &[Width],
    keys: &[Column],
    values: &[Numbers],
    r: usize,
) -> Result<Block, AllocError>
    ensures { IfOk result (λ b. b ≡ rows_of kinds.now widths.now keys.now values.now r) }
{
    let count = count_of(widths, values);
    let mut bytes = Vec::with_capacity(alloc, least_bytes(keys))?;
    let mut ends = Vec::with_capacity(alloc, r)?;
    let mut found = Vec::with_capacity(alloc, count.saturating_mul(r))?;
    for i in 0..r {
        put_key(&mut bytes, kinds, keys, i)?;
        ends.push(end_of(&bytes)?)?;
        put_values(&mut found, widths, values, i)?;
    }
    Ok(Block {
        keys: Fields::from_parts(bytes, ends),
        values: found,
        count,
    })
}
