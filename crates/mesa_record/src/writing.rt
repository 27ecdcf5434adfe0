// Writing records.
ghost use Rattle.std.specs.List.{AllByRecursion};
ghost use Rattle.std.specs.Prelude.{◌≡◌, [], ◌∷◌, ◌++◌, IfOk, IsTrue, Ok, OnOk};
ghost use Rattle.mesa_record.specs.Reading.{record_at};
ghost use Rattle.mesa_record.specs.declared.record.Record.TheVariants as record_of;
ghost use Rattle.mesa_record_fields.specs.Rules.{IsHalf, IsTypedChange, IsWord};
ghost use Rattle.mesa_record.specs.Rules.{IsTyped, IsTypedPart, are_parts, keeps_rules};
ghost use Rattle.mesa_record_fields.specs.Spelling.{change as change_bytes, flag, half, word};
ghost use Rattle.mesa_record.specs.Spelling.{parts_fields, spelled, table_fields, view_fields};

use crate::files::write_files_if_any;
use crate::recasting::write_recasting;
use crate::stated::write_checkpoint;
use crate::{Part, Record, reads_records};
use mesa_record_fields::{
    Change, Edition, Field, KeyColumn, Name, ValueColumn, put_half, put_word, write_change,
    write_counted, write_rising,
};
use std::alloc::{AllocError, Global};

/// The bytes of a record.
pub fn encode(alloc: Global, record: &Record) -> Result<Vec<u8>, AllocError>
    requires { IsTrue (keeps_rules «record».now) }
    ensures spelled { IfOk result (λ bytes. bytes.items ≡ spelled «record».now) }

    // So the bytes are read as this record.
    ensures again { IfOk result (λ bytes. record_at bytes.items ≡ Ok «record».now) }
{
    reads_records();
    let mut out = Vec::new(alloc);
    write(record, &mut out)?;
    Ok(out)
}

// Appends the bytes of a record.
#[tactic(auto, unfolding(crate::specs::Spelling::spelled_in))]
fn write(record: &Record, out: &mut Vec<u8>) -> Result<(), AllocError>
    requires { IsTrue (keeps_rules «record».now) }
    ensures bytes { OnOk result (out.new.items ≡ out.old.items ++ spelled «record».now) }
    ensures typed { OnOk result (IsTyped «record».now) }
{
    match record {
        Record::Run { number } => write_number(1, *number, out),
        Record::Table { name, keys, values } => {
            write_table(name, keys.as_slice(), values.as_slice(), out)
        }
        Record::View {
            table,
            name,
            keys,
            values,
        } => write_view(*table, name, keys.as_slice(), values.as_slice(), out),
        Record::Alter { table, change } => write_alter(*table, change, out),
        Record::Publish { version, parts } => write_publish(*version, parts.as_slice(), out),
        Record::Swap {
            table,
            base,
            from,
            to,
            epoch,
            files,
        } => {
            write_swap(*table, *base, out)?;
            write_range(*from, *to, *epoch, out)?;
            write_files_if_any(files, out)
        }
        Record::Expire { version } => write_number(7, *version, out),
        Record::ExpireTable { table, version } => write_expire_table(*table, *version, out),
        Record::Checkpoint(checkpoint) => write_checkpoint(checkpoint, out),
        Record::Recast(recasting) => write_recasting(recasting, out),
    }
}

// Appends a record that has a number and nothing else.
fn write_number(kind: u8, number: u32, out: &mut Vec<u8>) -> Result<(), AllocError>
    ensures bytes { OnOk result (out.new.items ≡ out.old.items ++ kind ∷ word number) }
    ensures typed { OnOk result (IsWord number) }
{
    out.push(kind)?;
    put_word(number, out)
}

fn write_expire_table(table: u16, version: u32, out: &mut Vec<u8>) -> Result<(), AllocError>
    ensures bytes { OnOk result (out.new.items ≡ out.old.items ++ 12 ∷ (half table ++ word version)) }
    ensures typed { OnOk result (IsHalf table × IsWord version) }
{
    out.push(12)?;
    put_half(table, out)?;
    put_word(version, out)
}

fn write_alter(table: u16, change: &Change, out: &mut Vec<u8>) -> Result<(), AllocError>
    ensures bytes { OnOk result (out.new.items ≡ out.old.items ++ 4 ∷ (half table ++ change_bytes change.now)) }
    ensures typed { OnOk result (IsHalf table × IsTypedChange change.now) }
{
    out.push(4)?;
    put_half(table, out)?;
    write_change(change, out)
}

fn write_publish(version: u32, parts: &[Part], out: &mut Vec<u8>) -> Result<(), AllocError>
    requires { IsTrue (are_parts parts.now) }
    ensures bytes { OnOk result (out.new.items ≡ out.old.items ++ 9 ∷ (word version ++ parts_fields Edition.Fourth parts.now)) }
    ensures typed { OnOk result (IsWord version × AllByRecursion IsTypedPart parts.now) }
{
    out.push(9)?;
    put_word(version, out)?;
    write_parts(parts, out)
}

// Appends the kind of a swap, its table, and whether it makes a base.
fn write_swap(table: u16, base: bool, out: &mut Vec<u8>) -> Result<(), AllocError>
    ensures bytes { OnOk result (out.new.items ≡ out.old.items ++ 10 ∷ (half table ++ flag base ∷ [])) }
    ensures typed { OnOk result (IsHalf table) }
{
    out.push(10)?;
    put_half(table, out)?;
    out.push(base as u8)?;
    Ok(())
}

fn write_table(
    name: &Name,
    keys: &[KeyColumn],
    values: &[ValueColumn],
    out: &mut Vec<u8>,
) -> Result<(), AllocError>
    requires { IsTrue (keeps_rules (record_of.Table name.now keys.now values.now)) }
    ensures bytes { OnOk result (out.new.items ≡ out.old.items ++ 2 ∷ table_fields name.now keys.now values.now) }
    ensures typed { OnOk result (IsTyped (record_of.Table name.now keys.now values.now)) }
{
    out.push(2)?;
    name.write(out)?;
    write_counted(keys, out)?;
    write_counted(values, out)
}

fn write_view(
    table: u16,
    name: &Name,
    keys: &[Name],
    values: &[Name],
    out: &mut Vec<u8>,
) -> Result<(), AllocError>
    requires { IsTrue (keeps_rules (record_of.View table name.now keys.now values.now)) }
    ensures bytes { OnOk result (out.new.items ≡ out.old.items ++ 3 ∷ (half table ++ view_fields name.now keys.now values.now)) }
    ensures typed { OnOk result (IsTyped (record_of.View table name.now keys.now values.now)) }
{
    out.push(3)?;
    put_half(table, out)?;
    name.write(out)?;
    write_counted(keys, out)?;
    write_counted(values, out)
}

fn write_parts(parts: &[Part], out: &mut Vec<u8>) -> Result<(), AllocError>
    requires { IsTrue (are_parts parts.now) }
    ensures bytes { OnOk result (out.new.items ≡ out.old.items ++ parts_fields Edition.Fourth parts.now) }
    ensures typed { OnOk result (AllByRecursion IsTypedPart parts.now) }
{
    put_half(parts.len() as u16, out)?;
    write_rising(parts, out)
}

// Appends the versions from and to which deltas are merged, and their epoch.
fn write_range(from: u32, to: u32, epoch: u32, out: &mut Vec<u8>) -> Result<(), AllocError>
    ensures bytes { OnOk result (out.new.items ≡ out.old.items ++ (word from ++ (word to ++ word epoch))) }
    ensures typed { OnOk result (IsWord from × IsWord to × IsWord epoch) }
{
    put_word(from, out)?;
    put_word(to, out)?;
    put_word(epoch, out)
}
