// The rows of a load by table and key.
ghost use Rattle.std.specs.Prelude.{◌≡◌, ◌<◌, [], length, map, slice_get, slice_index_or, Some, IfOk};
ghost use Rattle.mesa_schema.specs.mesa_columns.Lent.{lent};
ghost use Rattle.mesa_batch.specs.Flat.{rows_over};
ghost use Rattle.mesa_batch.specs.Gathered.{columns_for, rows_at};
ghost use Rattle.mesa_batch.specs.Shared.{shared_columns};
ghost use Rattle.mesa_batch.specs.Totals.{abs_totals, capped};

use crate::flat::FlatRows;
use crate::shared::shared_again;
use crate::totals::absolute_totals;
use mesa_list::{Items, TryCopy};
use mesa_schema::{Evolving, LentRow, RowList, Totals};
use std::alloc::AllocError;
use std::marker::Model;
use std::sync::Arc;

/// The rows of a load by their tables' numbers, each table's in the order of their keys, no key twice.
#[derive(Drop)]
pub struct Batch {
    columns: Items<Arc<Evolving>>,
    // The rows as they were loaded, and of each table the places of its own in the order of their keys.
    rows: FlatRows,
    tables: Items<Items<u32>>,
}

impl Model for Batch {
    ghost use Rattle.std.specs.Prelude.{length, map};
    ghost use Rattle.mesa_batch.specs.Flat.{rows_over};
    ghost use Rattle.mesa_batch.specs.Gathered.{Batched};
    ghost use Rattle.mesa_batch.specs.Shared.{shared_columns};

    ghost Value = { Batched };

    ghost view = { λ b. record { columns = shared_columns b.columns; tables = map (rows_over b.rows) b.tables; count = length b.rows } };
}

impl Batch {
    pub(crate) fn of(
        columns: Items<Arc<Evolving>>,
        rows: FlatRows,
        tables: Items<Items<u32>>,
    ) -> Self
        ensures { result ≡ record { columns = shared_columns columns; tables = map (rows_over rows) tables; count = length rows } }
    {
        Batch {
            columns,
            rows,
            tables,
        }
    }

    /// How many rows there are over all tables.
    pub fn len(&self) -> usize
        ensures { result ≡ self.now.count }
    {
        self.rows.len()
    }

    /// How many rows of the table of a number there are.
    pub fn count(&self, table: u16) -> usize
        ensures { result ≡ length (rows_at table self.now) }
    {
        places_of(&self.tables, table).len()
    }

    /// The row of a table at a place in the order of their keys, counted from 0.
    pub fn row(&self, table: u16, place: usize) -> LentRow<'_>
        requires { place < length (rows_at table self.now) }
        ensures { slice_get (rows_at table self.now) place ≡ Some (lent result) }
    {
        let places = places_of(&self.tables, table);
        self.rows.row(places[place] as usize)
    }

    /// Copies of the rows of the table of a number, in the order of their keys.
    pub fn rows(&self, table: u16) -> Result<RowList, AllocError>
        ensures { IfOk result (λ rows. rows ≡ rows_at table self.now) }
    {
        let alloc = self.tables.allocator();
        let mut rows = RowList::new(alloc);
        'places: for place in 0..self.count(table) {
            rows.push(self.row(table, place).to_row(alloc)?)?;
        }
        Ok(rows)
    }

    /// For each sum column of a table the absolute values of its rows, added up; a total above 2^127 - 1 stands as 2^127.
    pub fn abs_totals(&self, table: u16) -> Result<Totals, AllocError>
        ensures { IfOk result (λ totals. totals ≡ capped (abs_totals (columns_for table self.now) (rows_at table self.now))) }
    {
        let alloc = self.tables.allocator();
        let places = places_of(&self.tables, table);
        match self.columns.as_slice().get(table as usize) {
            Some(evolving) => absolute_totals(alloc, evolving.present(), &self.rows, places),
            None => Ok(Totals::new(alloc)),
        }
    }
}

impl TryCopy for Batch {
    fn copy(&self) -> Result<Self, AllocError> {
        Ok(Batch {
            columns: shared_again(&self.columns)?,
            rows: self.rows.copy()?,
            tables: self.tables.copy()?,
        })
    }
}

// The places of the rows of the table of a number.
fn places_of(tables: &Items<Items<u32>>, table: u16) -> &[u32]
    ensures { result.now ≡ slice_index_or tables.now table [] }
{
    match tables.as_slice().get(table as usize) {
        Some(places) => places.as_slice(),
        None => &[],
    }
}
