// Rows of tables, kept flat.
ghost use Rattle.std.specs.Prelude.{◌≡◌, ◌<◌, ◌≤◌, ◌^◌, [], ◌∷◌, ◌++◌, length, take, get_or, OnErr, OnOk};
ghost use Rattle.mesa_list.specs.Pieces.{last_end, pieces};
ghost use Rattle.mesa_schema.specs.mesa_columns.Lent.{lent};
ghost use Rattle.mesa_batch.specs.Flat.{placed_at};

use mesa_list::{Fields, TryCopy};
use mesa_schema::{Amount, LentRow};
use std::alloc::{AllocError, Global};
use std::marker::Model;

/// Rows of tables in the order in which they came. Their keys stand in one buffer, and so do their values, row by row: a row takes no list of its own.
#[derive(Drop)]
pub(crate) struct FlatRows {
    tables: Vec<u16>,
    keys: Fields,
    values: Vec<Amount>,
    // Where each row's values end.
    ends: Vec<u32>,
}

impl Model for FlatRows {
    ghost use Rattle.std.specs.Prelude.{List};
    ghost use Rattle.mesa_list.specs.Pieces.{pieces};
    ghost use Rattle.mesa_batch.specs.Batch.{Placed};
    ghost use Rattle.mesa_batch.specs.Flat.{AreFlat, flat_rows};

    ghost Value = { List Placed };

    ghost view = { λ r. flat_rows r.tables.items r.keys (pieces r.values.items 0 r.ends.items) };

    ghost invariant = { λ r. AreFlat r.tables.items r.keys r.values.items r.ends.items };
}

impl FlatRows {
    /// No rows, which take no memory yet.
    pub(crate) fn new(alloc: Global) -> Self
        ensures { result ≡ [] }
    {
        FlatRows {
            tables: Vec::new(alloc),
            keys: Fields::new(alloc),
            values: Vec::new(alloc),
            ends: Vec::new(alloc),
        }
    }

    pub(crate) fn len(&self) -> usize
        ensures count { result ≡ length self.now }
        ensures few { result < 2 ^ 32 }
    {
        self.tables.as_slice().len()
    }

    /// Adds a row of a table at the end, copied into the buffers.
    pub(crate) fn push(&mut self, table: u16, row: LentRow) -> Result<(), AllocError>
        ensures ok { OnOk result (self.new ≡ self.old ++ record { table = table; row = lent row.entry } ∷ []) }
        ensures err { OnErr result (self.new ≡ self.old) }
    {
        let count = self.tables.len();
        let end = self.values.len().saturating_add(row.values.len());
        if count >= u32::MAX as usize || end > u32::MAX as usize {
            return Err(AllocError);
        }
        self.tables.reserve(1)?;
        self.ends.reserve(1)?;
        self.keys.push(row.key)?;
        if let Err(error) = self.values.extend_from_slice(row.values) {
            self.keys.truncate(count);
            return Err(error);
        }
        self.tables.push_reserved(table);
        self.ends.push_reserved(end as u32);
        Ok(())
    }

    /// The number of the table of the row at a place, counted from 0.
    pub(crate) fn table(&self, place: usize) -> u16
        ensures { result ≡ (placed_at self.now place).table }
    {
        if place < self.tables.len() {
            self.tables[place]
        } else {
            0
        }
    }

    /// The key of the row at a place.
    pub(crate) fn key(&self, place: usize) -> &[u8]
        ensures { result.now ≡ (placed_at self.now place).row.key }
    {
        match self.keys.get(place) {
            Some(key) => key,
            None => &[],
        }
    }

    /// The values of the row at a place.
    pub(crate) fn values(&self, place: usize) -> &[Amount]
        ensures { result.now ≡ (placed_at self.now place).row.values }
    {
        let ends = self.ends.as_slice();
        if place >= ends.len() {
            return &[];
        }
        let start = begin_of(ends, place) as usize;
        &self.values[start..ends[place] as usize]
    }

    /// The row at a place.
    pub(crate) fn row(&self, place: usize) -> LentRow<'_>
        ensures { lent result ≡ (placed_at self.now place).row }
    {
        LentRow {
            key: self.key(place),
            values: self.values(place),
        }
    }
}

impl TryCopy for FlatRows {
    fn copy(&self) -> Result<Self, AllocError> {
        let alloc = self.keys.allocator();
        Ok(FlatRows {
            tables: Vec::from_slice(alloc, &self.tables)?,
            keys: self.keys.copy()?,
            values: Vec::from_slice(alloc, &self.values)?,
            ends: Vec::from_slice(alloc, &self.ends)?,
        })
    }
}

// Where the piece at a place begins.
pub(crate) fn begin_of(ends: &[u32], place: usize) -> u32
    requires { place ≤ length ends.now }
    ensures { result ≡ last_end 0 (take place ends.now) }
{
    if place == 0 { 0 } else { ends[place - 1] }
}
