// The row at hand under its group key, in room that is used again for each row.
ghost use Rattle.std.specs.Prelude.{◌≡◌, ◌+◌, [], drop, slice_get, IsTrue, OnOk};
ghost use Rattle.std.specs.List.{concat};
ghost use Rattle.std.specs.Option.{option_copied};
ghost use Rattle.mesa_key.specs.Spelling.{columns_of, is_spelling};
ghost use Rattle.mesa_model.specs.mesa_columns.Columns.{chosen};
ghost use Rattle.mesa_model.specs.mesa_columns.Lent.{lent};

use mesa_key::{KeyColumns, KeyType};
use mesa_schema::LentRow;
use mesa_value::Amount;
use std::alloc::{AllocError, Global};
use std::marker::Model;

/// A row under its group key, in room that is used again for each row.
#[derive(Drop)]
pub struct Hand {
    key: Vec<u8>,
    values: Vec<Amount>,
}

impl Model for Hand {
    ghost use Rattle.mesa_model.specs.mesa_columns.declared.rows.Row.{Row};

    ghost Value = { Row };

    ghost view = { λ h. record { key = h.key.items; values = h.values.items } };
}

impl Hand {
    /// No row yet. It takes no memory.
    pub fn new(alloc: Global) -> Self
        ensures { result ≡ record { key = []; values = [] } }
    {
        Hand {
            key: Vec::new(alloc),
            values: Vec::new(alloc),
        }
    }

    /// The row at hand.
    pub fn row(&self) -> LentRow<'_>
        ensures { lent result ≡ self.now }
    {
        LentRow {
            key: self.key.as_slice(),
            values: self.values.as_slice(),
        }
    }

    pub(crate) fn key(&self) -> &[u8]
        ensures { result.now ≡ self.now.key }
    {
        self.key.as_slice()
    }

    pub(crate) fn values(&self) -> &[Amount]
        ensures { result.now ≡ self.now.values }
    {
        self.values.as_slice()
    }

    // Takes a row in hand as it is.
    pub(crate) fn hold(&mut self, row: LentRow) -> Result<(), AllocError>
        ensures { OnOk result (self.new ≡ lent row.entry) }
    {
        self.key.clear();
        self.key.extend_from_slice(row.key)?;
        self.values.clear();
        self.values.extend_from_slice(row.values)
    }

    // Takes a row in hand under its group key. Of its key only the columns up to the last of these places are looked at.
    pub(crate) fn take(
        &mut self,
        kinds: &[KeyType],
        columns: &[u16],
        values: &[u16],
        row: LentRow,
    ) -> Result<(), AllocError>
        requires { IsTrue (is_spelling kinds.now row.key.now) }
        ensures { OnOk result (self.new ≡ record { key = concat (chosen columns.now (columns_of kinds.now row.entry.key.now)); values = chosen values.now row.entry.values.now }) }
    {
        fill_key(&mut self.key, kinds, columns, row.key)?;
        fill_values(&mut self.values, values, row.values)
    }
}

// The columns of a key at these places, one behind the other. Each is copied right from the key. The key is gone through once where the places rise, as they mostly do.
fn fill_key(
    found: &mut Vec<u8>,
    kinds: &[KeyType],
    places: &[u16],
    key: &[u8],
) -> Result<(), AllocError>
    requires { IsTrue (is_spelling kinds.now key.now) }
    ensures { OnOk result (found.new.items ≡ concat (chosen places.now (columns_of kinds.now key.now))) }
{
    found.clear();
    let mut rest = KeyColumns::of(kinds, key);
    let mut next = 0;
    for place in places {
        let place = *place as usize;
        if place < next {
            rest = KeyColumns::of(kinds, key);
            next = 0;
        }
        if let Some(column) = take_column(&mut rest, place - next) {
            found.extend_from_slice(column)?;
        }
        next = place + 1;
    }
    Ok(())
}

// Takes so many columns and the one behind them, and gives that one.
fn take_column<'a>(rest: &mut KeyColumns<'a>, mut passed: usize) -> Option<&'a [u8]>
    requires { IsTrue (is_spelling rest.old.kinds rest.old.bytes) }
    ensures column { option_copied result ≡ slice_get (columns_of rest.old.kinds rest.old.bytes) passed }
    ensures rest { columns_of rest.new.kinds rest.new.bytes ≡ drop (passed + 1) (columns_of rest.old.kinds rest.old.bytes) }
    ensures spelled { IsTrue (is_spelling rest.new.kinds rest.new.bytes) }
{
    'columns: while let Some(column) = rest.take_next() {
        if passed == 0 {
            return Some(column.bytes);
        }
        passed -= 1;
    }
    None
}

// The values at these places.
fn fill_values(found: &mut Vec<Amount>, places: &[u16], values: &[Amount]) -> Result<(), AllocError>
    ensures { OnOk result (found.new.items ≡ chosen places.now values.now) }
{
    found.clear();
    for place in places {
        if let Some(value) = values.get(*place as usize) {
            found.push(*value)?;
        }
    }
    Ok(())
}
