// Rows, and the lists that the crates above speak of.
ghost use Rattle.std.specs.Prelude.{◌≡◌, [], IfOk, OnOk};
ghost use Rattle.mesa_columns.specs.Lent.{lent};

use mesa_key::{Amount, Items, KeyBytes, Values};
use std::alloc::{AllocError, Global};
use std::mem::replace;

/// A list of bytes, as a script has them.
pub type Words = Items<u8>;

/// A list of fields.
pub type Fields = Items<Words>;

/// For each sum column the absolute values of its rows, added up.
pub type Totals = Items<u128>;

/// A list of rows.
pub type RowList = Items<Row>;

/// A list of encoded keys.
pub type KeyList = Items<KeyBytes>;

/// A row of a table or a view: its encoded key, and a value for each value column.
#[derive(Drop)]
pub struct Row {
    pub key: KeyBytes,
    pub values: Values,
}

/// A row that is lent.
#[derive(Clone, Copy)]
pub struct LentRow<'a> {
    pub key: &'a [u8],
    pub values: &'a [Amount],
}

impl Row {
    /// A row of no bytes and no values, to be filled. It takes no memory.
    pub fn empty(alloc: Global) -> Self
        ensures { result ≡ record { key = []; values = [] } }
    {
        Row {
            key: Items::new(alloc),
            values: Items::new(alloc),
        }
    }

    /// The row, lent.
    pub fn lend(&self) -> LentRow<'_>
        ensures { lent result ≡ self.now }
    {
        LentRow {
            key: self.key.as_slice(),
            values: self.values.as_slice(),
        }
    }

    /// Puts a copy of another row in the room that this one has. After an Err it may hold anything.
    pub fn fill(&mut self, with: LentRow) -> Result<(), AllocError>
        ensures { OnOk result (self.new ≡ lent with.entry) }
    {
        refill(&mut self.key, with.key)?;
        refill(&mut self.values, with.values)
    }
}

impl LentRow<'_> {
    /// A copy of the row.
    pub fn to_row(self, alloc: Global) -> Result<Row, AllocError>
        ensures { IfOk result (λ row. row ≡ lent self.entry) }
    {
        let mut row = Row::empty(alloc);
        row.fill(self)?;
        Ok(row)
    }
}

/// The room that a list has, without its items. The list is left with none.
pub(crate) fn room<T: Copy>(list: &mut Items<T>) -> Vec<T>
    ensures { result.items ≡ [] }
{
    let empty = Items::new(list.allocator());
    let mut items = replace(list, empty).into_vec();
    items.clear();
    items
}

/// A list of other items, in the same room.
pub(crate) fn refill<T: Copy>(list: &mut Items<T>, with: &[T]) -> Result<(), AllocError>
    ensures { OnOk result (list.new ≡ with.now) }
{
    let mut items = room(list);
    items.extend_from_slice(with)?;
    *list = Items::from_vec(items);
    Ok(())
}
