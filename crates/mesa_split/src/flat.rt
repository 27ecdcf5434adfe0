// Rows that are held flat.
ghost use Rattle.std.specs.Prelude.{◌≡◌, ◌<◌, ◌≤◌, ◌+◌, ◌*◌, ◌++◌, ◌∷◌, ◌↔◌, [], length, slice_get, take, drop, IsTrue, Some, OnErr, OnOk};
ghost use Rattle.std.specs.List.{AllByRecursion};
ghost use Rattle.mesa_compact.specs.mesa_columns.declared.rows.Row.{Row as AnyRow};
ghost use Rattle.mesa_compact.specs.mesa_columns.Lent.{lent};

use mesa_list::Fields;
use mesa_schema::LentRow;
use mesa_value::Amount;
use std::alloc::{AllocError, Global};
use std::marker::Model;

/// Rows that have equally many values. Their keys stand in one buffer, and their values, row by row, in another, so that a row takes just its bytes and four more.
#[derive(Drop)]
pub(crate) struct FlatRows {
    keys: Fields,
    values: Vec<Amount>,
    // How many values a row has, once there is one.
    count: usize,
}

impl Model for FlatRows {
    ghost use Rattle.std.specs.Prelude.{List};
    ghost use Rattle.mesa_compact.specs.mesa_columns.declared.rows.Row.{Row};
    ghost use Rattle.mesa_compact.specs.mesa_block.Fill.{AreOver, rows_over};

    ghost Value = { List Row };

    ghost view = { λ r. rows_over r.count r.keys r.values.items };

    ghost invariant = { λ r. AreOver r.count r.keys r.values.items };
}

impl FlatRows {
    /// No rows. It takes no memory.
    pub fn new(alloc: Global) -> Self
        ensures { result ≡ [] }
    {
        FlatRows {
            keys: Fields::new(alloc),
            values: Vec::new(alloc),
            count: 0,
        }
    }

    /// How many rows there are.
    pub fn len(&self) -> usize
        ensures { result ≡ length self.now }
    {
        self.keys.len()
    }

    pub fn is_empty(&self) -> bool
        ensures { IsTrue result ↔ (self.now ≡ []) }
    {
        self.len() == 0
    }

    /// The row at a place, counted from 0.
    pub fn row(&self, i: usize) -> LentRow<'_>
        requires { i < length self.now }
        ensures { slice_get self.now i ≡ Some (lent result) }
    {
        match self.keys.get(i) {
            Some(key) => LentRow {
                key,
                values: values_at(&self.values, self.count, i),
            },
            None => unreachable!(),
        }
    }

    /// Adds a copy of a row at the end. All rows have as many values as the first one.
    pub fn push(&mut self, row: LentRow) -> Result<(), AllocError>
        requires { AllByRecursion (λ (other : AnyRow). length other.values ≡ length row.values.now) self.old }
        ensures ok { OnOk result (self.new ≡ self.old ++ lent row.entry ∷ []) }
        ensures err { OnErr result (self.new ≡ self.old) }
    {
        let rows = self.keys.len();
        let count = count_with(rows, self.count, row);
        self.keys.push(row.key)?;
        if let Err(error) = self.values.extend_from_slice(row.values) {
            self.keys.truncate(rows);
            return Err(error);
        }
        self.count = count;
        Ok(())
    }
}

// How many values a row has, by those that there are and one more.
fn count_with(rows: usize, count: usize, row: LentRow) -> usize
    ensures first { rows ≡ 0 → result ≡ length row.entry.values.now }
    ensures later { 0 < rows → result ≡ count }
{
    if rows == 0 { row.values.len() } else { count }
}

// The values of a row, where each row has so many.
fn values_at(values: &[Amount], count: usize, i: usize) -> &[Amount]
    requires { i * count + count ≤ length values.now }
    ensures { result.now ≡ take count (drop (i * count) values.now) }
{
    let begin = i * count;
    &values[begin..begin + count]
}
