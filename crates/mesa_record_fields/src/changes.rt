// Changes of a schema, as fields.
ghost use Rattle.std.specs.Prelude.{◌≡◌, ◌++◌, OnOk};
ghost use Rattle.mesa_record_fields.specs.Reading.{Gives, add_key_at, add_value_at, change_at, key_default_at};
ghost use Rattle.mesa_record_fields.specs.Rules.{IsKeyValue, IsTypedChange};
ghost use Rattle.mesa_record_fields.specs.Spelling.{change as change_bytes, key_default as default_bytes};

use crate::RecordError;
use crate::cursor::Cursor;
use crate::field::Field;
use mesa_columns::{Change, Items, KeyColumn, KeyText, KeyType, KeyValue, ValueColumn};
use std::alloc::{AllocError, Global};

// ---- reading

pub fn read_change(alloc: Global, cursor: &mut Cursor<'_>) -> Result<Change, RecordError>
    ensures { Gives result cursor.new (change_at cursor.old) }
{
    let at = cursor.at();
    match cursor.byte()? {
        1 => add_value(alloc, cursor),
        2 => Ok(Change::DropValue {
            name: cursor.name(alloc)?,
        }),
        3 => add_key(alloc, cursor),
        _ => Err(RecordError::BadKind { at }),
    }
}

fn add_value(alloc: Global, cursor: &mut Cursor<'_>) -> Result<Change, RecordError>
    ensures { Gives result cursor.new (add_value_at cursor.old) }
{
    let column = ValueColumn::read(alloc, cursor)?;
    let default = cursor.amount()?;
    Ok(Change::AddValue { column, default })
}

fn add_key(alloc: Global, cursor: &mut Cursor<'_>) -> Result<Change, RecordError>
    ensures { Gives result cursor.new (add_key_at cursor.old) }
{
    let column = KeyColumn::read(alloc, cursor)?;
    let default = key_default(alloc, column.kind, cursor)?;
    Ok(Change::AddKey { column, default })
}

// A default of a key column of a type.
fn key_default(
    alloc: Global,
    kind: KeyType,
    cursor: &mut Cursor<'_>,
) -> Result<KeyValue, RecordError>
    ensures { Gives result cursor.new (key_default_at kind cursor.old) }
{
    match kind {
        KeyType::Int => Ok(KeyValue::Int(cursor.amount()?)),
        KeyType::Text => {
            let at = cursor.at();
            let text = cursor.text()?;
            if !KeyText::allows(text) {
                return Err(RecordError::BadField { at });
            }
            let text = KeyText::new(Items::from_bytes(alloc, text)?);
            Ok(KeyValue::Text(text))
        }
    }
}

// ---- writing

pub fn write_change(change: &Change, out: &mut Vec<u8>) -> Result<(), AllocError>
    ensures bytes { OnOk result (out.new.items ≡ out.old.items ++ change_bytes change.now) }
    ensures typed { OnOk result (IsTypedChange change.now) }
{
    match change {
        Change::AddValue { column, default } => {
            out.push(1)?;
            column.write(out)?;
            default.write(out)
        }
        Change::DropValue { name } => {
            out.push(2)?;
            name.write(out)
        }
        Change::AddKey { column, default } => {
            out.push(3)?;
            column.write(out)?;
            write_default(default, out)
        }
    }
}

// Appends a default of a key column.
fn write_default(default: &KeyValue, out: &mut Vec<u8>) -> Result<(), AllocError>
    ensures bytes { OnOk result (out.new.items ≡ out.old.items ++ default_bytes default.now) }
    ensures typed { OnOk result (IsKeyValue default.now) }
{
    match default {
        KeyValue::Int(number) => number.write(out),
        KeyValue::Text(text) => {
            out.push(text.as_bytes().len() as u8)?;
            out.extend_from_slice(text.as_bytes())
        }
    }
}
