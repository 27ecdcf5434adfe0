// The rows of a load, kept in one buffer.
ghost use Rattle.std.specs.Prelude.{◌≡◌, ◌<◌, ◌≤◌, ◌↔◌, IsTrue, Some, [], ◌∷◌, ◌++◌, length, OnErr, OnOk, slice_get};
ghost use Rattle.mesa_batch.specs.Load.{row_from};

use crate::flat::begin_of;
use mesa_list::{Fields, FieldsView, TryCopy, Words};
use std::alloc::{AllocError, Global};
use std::marker::Model;

/// The rows of a load, as a script has them. Their words stand in one buffer, so that a row takes no list of its own: it costs four bytes, and four for each word beside the word's own.
#[derive(Drop)]
pub struct LoadRows {
    // Of each row its table's name, and then its fields.
    words: Fields,
    // How many words there are up to the end of each row.
    ends: Vec<u32>,
}

impl Model for LoadRows {
    ghost use Rattle.std.specs.Prelude.{◌≡◌, List, length};
    ghost use Rattle.mesa_list.specs.Pieces.{Rise, last_end};
    ghost use Rattle.mesa_batch.specs.declared.words.RowWords.{RowWords};
    ghost use Rattle.mesa_batch.specs.Load.{rows_in};

    ghost Value = { List RowWords };

    ghost view = { λ r. rows_in r.words r.ends.items };

    ghost invariant = { λ r. Rise 0 r.ends.items × (last_end 0 r.ends.items ≡ length r.words) };
}

impl LoadRows {
    /// No rows, which take no memory yet.
    pub fn new(alloc: Global) -> Self
        ensures { result ≡ [] }
    {
        LoadRows {
            words: Fields::new(alloc),
            ends: Vec::new(alloc),
        }
    }

    pub fn len(&self) -> usize
        ensures { result ≡ length self.now }
    {
        self.ends.as_slice().len()
    }

    pub fn is_empty(&self) -> bool
        ensures { IsTrue result ↔ (self.now ≡ []) }
    {
        self.ends.as_slice().is_empty()
    }

    /// Adds a row at the end: its table's name, and then its fields. They are copied into the buffer, at once and nowhere else.
    pub fn push<W: Words>(&mut self, words: &W) -> Result<(), AllocError>
        ensures ok { OnOk result (self.new ≡ self.old ++ row_from (W.words words.now) ∷ []) }
        ensures err { OnErr result (self.new ≡ self.old) }
    {
        let end = self.words.len().saturating_add(words.count());
        if end > u32::MAX as usize {
            return Err(AllocError);
        }
        self.ends.push(end as u32)?;
        if let Err(error) = self.words.push_all(words) {
            let _ = self.ends.pop();
            return Err(error);
        }
        Ok(())
    }

    /// The row at a place, counted from 0, lent.
    pub fn row(&self, i: usize) -> RowView<'_>
        requires { i < length self.now }
        ensures { slice_get self.now i ≡ Some result }
    {
        let ends = self.ends.as_slice();
        let start = begin_of(ends, i) as usize;
        RowView::of(self.words.range(start, ends[i] as usize))
    }
}

impl TryCopy for LoadRows {
    fn copy(&self) -> Result<Self, AllocError> {
        Ok(LoadRows {
            words: self.words.copy()?,
            ends: Vec::from_slice(self.words.allocator(), &self.ends)?,
        })
    }
}

/// A row of a load, lent.
#[derive(Drop)]
pub struct RowView<'a> {
    table: &'a [u8],
    fields: FieldsView<'a>,
}

impl<'a> Model for RowView<'a> {
    ghost use Rattle.mesa_batch.specs.declared.words.RowWords.{RowWords};

    ghost Value = { RowWords };

    ghost view = { λ r. record { table = r.table.now; fields = r.fields } };
}

impl<'a> RowView<'a> {
    // The row of its words.
    fn of(words: FieldsView<'a>) -> Self
        ensures { result ≡ row_from words.entry }
    {
        match words.get(0) {
            Some(table) => RowView {
                table,
                fields: words.range(1, words.len()),
            },
            None => RowView {
                table: &[],
                fields: words,
            },
        }
    }

    /// The name of its table, as the script has it.
    pub fn table(&self) -> &'a [u8]
        ensures { result.now ≡ self.now.table }
    {
        self.table
    }

    /// Its key fields, and then its value fields.
    pub fn fields(&self) -> &FieldsView<'a>
        ensures { result.now ≡ self.now.fields }
    {
        &self.fields
    }
}
