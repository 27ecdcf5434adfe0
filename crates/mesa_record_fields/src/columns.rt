// Lists of columns, and of their names, as fields.
ghost use Rattle.std.specs.Prelude.{◌≡◌};
ghost use Rattle.mesa_record_fields.specs.Reading.{Gives, key_columns_at, names_at, value_columns_at};

use crate::RecordError;
use crate::cursor::Cursor;
use crate::field::read_fields;
use mesa_columns::{Items, KeyColumn, Name, ValueColumn};
use std::alloc::Global;

pub fn read_key_columns(
    alloc: Global,
    cursor: &mut Cursor<'_>,
) -> Result<Items<KeyColumn>, RecordError>
    ensures { Gives result cursor.new (key_columns_at cursor.old) }
{
    let count = cursor.columns()?;
    read_fields(alloc, cursor, count)
}

pub fn read_value_columns(
    alloc: Global,
    cursor: &mut Cursor<'_>,
) -> Result<Items<ValueColumn>, RecordError>
    ensures { Gives result cursor.new (value_columns_at cursor.old) }
{
    let count = cursor.columns()?;
    read_fields(alloc, cursor, count)
}

/// The names of columns.
pub fn read_names(alloc: Global, cursor: &mut Cursor<'_>) -> Result<Items<Name>, RecordError>
    ensures { Gives result cursor.new (names_at cursor.old) }
{
    let count = cursor.columns()?;
    read_fields(alloc, cursor, count)
}
