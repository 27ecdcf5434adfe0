// The fields of rows.
ghost use Rattle.std.specs.Prelude.{◌≡◌, ◌++◌, [], ◌∷◌, IsTrue, OnOk, map};
ghost use Rattle.std.specs.Fmt.{signed_decimal};
ghost use Rattle.csv.specs.Records.{fields_of, partial_of};
ghost use Rattle.mesa_key.specs.Spelling.{column_value, is_spelling, key_of};
ghost use Rattle.mesa_script.specs.Rows.{row_fields, value_text};

use csv::ByteRecord;
use itoa::Buffer;
use mesa_columns::Row;
use mesa_key::{Amount, Column, ColumnValue, KeyColumns, KeyType};
use std::alloc::AllocError;

// A number as a field more.
fn push_number(fields: &mut ByteRecord, number: Amount) -> Result<(), AllocError>
    requires { partial_of fields.old ≡ [] }
    ensures fields { OnOk result (fields_of fields.new ≡ fields_of fields.old ++ signed_decimal number ∷ []) }
    ensures whole { OnOk result (partial_of fields.new ≡ []) }
{
    let mut buffer = Buffer::new();
    fields.push_field(buffer.format(number).as_bytes())
}

// A column of a key as a field more.
fn push_column(fields: &mut ByteRecord, column: Column) -> Result<(), AllocError>
    requires { partial_of fields.old ≡ [] }
    ensures fields { OnOk result (fields_of fields.new ≡ fields_of fields.old ++ value_text (column_value column.entry.kind column.entry.bytes.now) ∷ []) }
    ensures whole { OnOk result (partial_of fields.new ≡ []) }
{
    match column.value() {
        ColumnValue::Int(number) => push_number(fields, Amount::from(number)),
        ColumnValue::Text(text) => fields.push_field(text),
    }
}

// The columns of an encoded key as fields.
fn push_key(fields: &mut ByteRecord, kinds: &[KeyType], key: &[u8]) -> Result<(), AllocError>
    requires key { IsTrue (is_spelling kinds.now key.now) }
    requires between { partial_of fields.old ≡ [] }
    ensures fields { OnOk result (fields_of fields.new ≡ fields_of fields.old ++ map value_text (key_of kinds.now key.now)) }
    ensures whole { OnOk result (partial_of fields.new ≡ []) }
{
    let mut columns = KeyColumns::of(kinds, key);
    'columns: while let Some(column) = columns.take_next() {
        push_column(fields, column)?;
    }
    Ok(())
}

// Values as fields.
fn push_values(fields: &mut ByteRecord, values: &[Amount]) -> Result<(), AllocError>
    requires { partial_of fields.old ≡ [] }
    ensures fields { OnOk result (fields_of fields.new ≡ fields_of fields.old ++ map signed_decimal values.now) }
    ensures whole { OnOk result (partial_of fields.new ≡ []) }
{
    'values: for value in values {
        push_number(fields, *value)?;
    }
    Ok(())
}

/// Puts the fields of a row in place of those of another one.
pub(crate) fn set_fields(
    fields: &mut ByteRecord,
    kinds: &[KeyType],
    row: &Row,
) -> Result<(), AllocError>
    requires { IsTrue (is_spelling kinds.now row.now.key) }
    ensures { OnOk result (fields_of fields.new ≡ row_fields kinds.now row.now) }
{
    fields.clear();
    push_key(fields, kinds, row.key.as_slice())?;
    push_values(fields, row.values.as_slice())
}
