// A row's fields, read by its table's columns.
ghost use Rattle.std.specs.Prelude.{◌≡◌, ◌≤◌, ◌^◌, ◌+◌, ℕ, List, ◌++◌, length, map, true, false, MatchOption, IfOk, IfErr, OnOk, ◌<◌};
ghost use Rattle.mesa_schema.specs.mesa_key.Spelling.{value_spelling};
ghost use Rattle.mesa_schema.specs.mesa_columns.declared.columns.KeyColumn.{KeyColumn as Key};
ghost use Rattle.mesa_schema.specs.mesa_columns.declared.columns.ValueColumn.{ValueColumn as Value};
ghost use Rattle.mesa_schema.specs.mesa_columns.Lent.{lent};
ghost use Rattle.mesa_schema.specs.mesa_columns.Numbers.{key_value_of};
ghost use Rattle.mesa_batch.specs.Batch.{key_from, row_of, values_from};
ghost use Rattle.mesa_batch.specs.Reading.{IsRefusal, spelled};

use mesa_list::FieldsView;
use mesa_schema::{
    Amount, KeyColumn, KeyText, KeyType, LentRow, Schema, ValueColumn, amount, encode_int,
    encode_text, signed,
};
use std::alloc::{AllocError, AllocFailed};

/// Why a row's fields make no row of its table.
#[derive(Clone, Copy, Debug, PartialEq, Eq)]
pub(crate) enum FieldError {
    /// The first column, counted from 1, whose field is missing or can't be read; one more than the columns where fields are left over.
    Bad(u16),
    Memory,
}

impl From<AllocError> for FieldError {
    ghost use Rattle.std.specs.Prelude.{◌≡◌};
    ghost use Rattle.mesa_batch.specs.declared.reading.FieldError.TheVariants.{Memory};

    ghost from_gives = { λ _ e. e ≡ Memory };

    fn from(_: AllocError) -> Self {
        FieldError::Memory
    }
}

impl<T: Drop> From<AllocFailed<T>> for FieldError {
    ghost use Rattle.std.specs.Prelude.{◌≡◌};
    ghost use Rattle.mesa_batch.specs.declared.reading.FieldError.TheVariants.{Memory};

    ghost from_gives = { λ _ e. e ≡ Memory };

    fn from(_: AllocFailed<T>) -> Self {
        FieldError::Memory
    }
}

/// The bytes of a row's key, and its values.
#[derive(Drop)]
pub(crate) struct ReadRow {
    pub(crate) key: Vec<u8>,
    pub(crate) values: Vec<Amount>,
}

impl ReadRow {
    /// The row, lent.
    pub(crate) fn lend(&self) -> LentRow<'_>
        ensures { lent result ≡ record { key = self.now.key.items; values = self.now.values.items } }
    {
        LentRow {
            key: &self.key,
            values: &self.values,
        }
    }
}

// Puts the row that the fields make in place of the one that is there.
pub(crate) fn read_row(
    schema: &Schema,
    fields: &FieldsView,
    row: &mut ReadRow,
) -> Result<(), FieldError>
    ensures read { OnOk result (row_of schema.now fields.now ≡ Ok (record { key = row.new.key.items; values = row.new.values.items })) }
    ensures refused { IfErr result (IsRefusal (row_of schema.now fields.now)) }
{
    let columns = schema.keys();
    read_key(columns, fields, &mut row.key)?;
    let first = columns.len() as u16 + 1;
    let rest = fields.range(columns.len(), fields.len());
    read_values(first, schema.values(), &rest, &mut row.values)?;
    Ok(())
}

// The spelling of the key that the first fields make.
fn read_key(
    columns: &[KeyColumn],
    fields: &FieldsView,
    bytes: &mut Vec<u8>,
) -> Result<(), FieldError>
    requires few { length columns.now ≤ 16 }
    ensures read { OnOk result (spelled (key_from 1 (map (λ (c : Key). c.kind) columns.now) fields.now) ≡ Ok bytes.new.items) }
    ensures enough { OnOk result (length columns.now ≤ length fields.now) }
    ensures refused { IfErr result (IsRefusal (key_from 1 (map (λ (c : Key). c.kind) columns.now) fields.now)) }
{
    bytes.clear();
    'columns: for (place, column) in columns.iter().enumerate() {
        let number = place as u16 + 1;
        let Some(field) = fields.get(place) else {
            return Err(FieldError::Bad(number));
        };
        if !push_value(column.kind, field, bytes)? {
            return Err(FieldError::Bad(number));
        }
    }
    Ok(())
}

// Adds the spelling of a key column's value, where the field is one.
fn push_value(kind: KeyType, field: &[u8], bytes: &mut Vec<u8>) -> Result<bool, AllocError>
    ensures { IfOk result (λ read. MatchOption (key_value_of kind field.now) (read ≡ false) (λ value. (read ≡ true) × (bytes.new.items ≡ bytes.old.items ++ value_spelling value))) }
{
    match kind {
        KeyType::Int => match signed(field) {
            Some(number) => {
                encode_int(number, bytes)?;
                Ok(true)
            }
            None => Ok(false),
        },
        KeyType::Text => {
            if !KeyText::allows(field) {
                return Ok(false);
            }
            encode_text(field, bytes)?;
            Ok(true)
        }
    }
}

// The values that the other fields make; the first of the columns has this number.
fn read_values(
    first: u16,
    columns: &[ValueColumn],
    fields: &FieldsView,
    values: &mut Vec<Amount>,
) -> Result<(), FieldError>
    requires few { first + length columns.now < 2 ^ 16 }
    ensures read { OnOk result (values_from first (map (λ (c : Value). c.agg) columns.now) fields.now ≡ Ok values.new.items) }
    ensures refused { IfErr result (IsRefusal (values_from first (map (λ (c : Value). c.agg) columns.now) fields.now)) }
{
    values.clear();
    'columns: for (place, column) in columns.iter().enumerate() {
        let number = first + place as u16;
        let Some(field) = fields.get(place) else {
            return Err(FieldError::Bad(number));
        };
        let Some(value) = amount(column.agg, field) else {
            return Err(FieldError::Bad(number));
        };
        values.push(value)?;
    }
    if fields.len() > columns.len() {
        return Err(FieldError::Bad(first + columns.len() as u16));
    }
    Ok(())
}
