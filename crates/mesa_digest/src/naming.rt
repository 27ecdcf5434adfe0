// Rows spelled by the names of their columns.
ghost use Rattle.std.specs.Prelude.{◌≡◌, ◌++◌, ◌<◌, ◌≤◌, length, slice_get, IsTrue, IfOk, OnOk, Some};
ghost use Rattle.mesa_key.specs.Spelling.{columns_of, is_column, is_spelling};
ghost use Rattle.mesa_columns.specs.Columns.{kinds_of};
ghost use Rattle.mesa_columns.specs.Rows.{IsRowOf};
ghost use Rattle.mesa_digest.specs.Digests.{cell_bytes, key_bytes, named};
ghost use Rattle.mesa_digest.specs.Places.{IsOrder, cell_at, count_of};

use crate::hashing::bytes_of;
use crate::ordering::{column_order, label};
use mesa_columns::{Row, Schema};
use mesa_key::{Column, KeyColumns, KeyType};
use std::alloc::{AllocError, Global};

// How rows of a schema are spelled: the types of its key columns, and the places of its columns in the order of their names.
#[derive(Drop)]
pub(crate) struct Naming {
    kinds: Vec<KeyType>,
    order: Vec<usize>,
}

impl Naming {
    pub(crate) fn of(alloc: Global, schema: &Schema) -> Result<Self, AllocError>
        ensures kinds { IfOk result (λ n. n.kinds.items ≡ kinds_of schema.now) }
        ensures order { IfOk result (λ n. IsOrder schema.now n.order.items) }
    {
        let kinds = schema
            .keys()
            .iter()
            .map(|column| column.kind)
            .collect(alloc)?;
        let order = column_order(alloc, schema)?;
        Ok(Naming { kinds, order })
    }
}

// A row's named spelling, in the place of what was spelled before.
pub(crate) fn spell(
    schema: &Schema,
    naming: &Naming,
    row: &Row,
    spelled: &mut Vec<u8>,
) -> Result<(), AllocError>
    requires kinds { naming.now.kinds.items ≡ kinds_of schema.now }
    requires order { IsOrder schema.now naming.now.order.items }
    requires form { IsRowOf schema.now row.now }
    ensures { OnOk result (spelled.new.items ≡ named schema.now row.now) }
{
    spelled.clear();
    'places: for place in &naming.order {
        add_cell(schema, &naming.kinds, row, *place, spelled)?;
    }
    Ok(())
}

// Adds the column at a place of a row to its spelling.
fn add_cell(
    schema: &Schema,
    kinds: &[KeyType],
    row: &Row,
    place: usize,
    spelled: &mut Vec<u8>,
) -> Result<(), AllocError>
    requires kinds { kinds.now ≡ kinds_of schema.now }
    requires form { IsRowOf schema.now row.now }
    requires place { place < count_of schema.now }
    ensures { OnOk result (spelled.new.items ≡ spelled.old.items ++ cell_bytes (cell_at schema.now row.now place)) }
{
    let (name, _) = label(schema, place);
    spelled.push(name.len() as u8)?;
    spelled.extend_from_slice(name)?;
    if place < kinds.len() {
        return add_column(column_at(kinds, row.key.as_slice(), place), spelled);
    }
    let value = row.values.as_slice()[place - kinds.len()];
    spelled.extend_from_slice(bytes_of(value).as_slice())
}

// Adds a key column's bytes to a spelling: an int's, or a text's length and the text.
fn add_column(column: Column, spelled: &mut Vec<u8>) -> Result<(), AllocError>
    requires { IsTrue (is_column column.kind column.bytes.now) }
    ensures { OnOk result (spelled.new.items ≡ spelled.old.items ++ key_bytes column.entry.kind column.entry.bytes.now) }
{
    match column.kind {
        KeyType::Int => spelled.extend_from_slice(column.bytes),
        KeyType::Text => {
            let text = &column.bytes[..column.bytes.len() - 1];
            spelled.push(text.len() as u8)?;
            spelled.extend_from_slice(text)
        }
    }
}

// The column at a place of a key.
fn column_at<'a>(kinds: &'a [KeyType], key: &'a [u8], place: usize) -> Column<'a>
    requires spelled { IsTrue (is_spelling kinds.now key.now) }
    requires place { place < length kinds.now }
    ensures column { slice_get (columns_of kinds.now key.now) place ≡ Some result.bytes.now }
    ensures kind { slice_get kinds.now place ≡ Some result.kind }
    ensures allowed { IsTrue (is_column result.kind result.bytes.now) }
{
    let mut columns = KeyColumns::of(kinds, key);
    let mut passed = place;
    'columns: while let Some(column) = columns.take_next() {
        if passed == 0 {
            return column;
        }
        passed -= 1;
    }
    unreachable!()
}
