// The bytes of a file's tail.
ghost use Rattle.std.specs.Prelude.{◌≡◌, ◌++◌, map, OnOk};
ghost use Rattle.std.specs.Int.{w32, w64, to_be_bytes};
ghost use Rattle.mesa_columns.specs.Codes.{agg_byte as byte_of_agg, kind_byte as byte_of_kind};
ghost use Rattle.mesa_delta_format.specs.Places.{spelled};
ghost use Rattle.mesa_delta_format.specs.Tail.{foot, magic as magic_of};

use crate::place::{ENTRY_BYTES, Entry};
use byteorder::{BigEndian, ByteOrder};
use mesa_columns::{Format, KeyColumn, Schema, ValueColumn, agg_byte, kind_byte};
use std::alloc::AllocError;

// Appends a number of eight bytes.
fn put_u64(out: &mut Vec<u8>, number: u64) -> Result<(), AllocError>
    ensures { OnOk result (out.new.items ≡ out.old.items ++ to_be_bytes w64 number) }
{
    let mut bytes = [0; 8];
    BigEndian::write_u64(&mut bytes, number);
    out.extend_from_slice(&bytes)?;
    Ok(())
}

// Appends a number of four bytes.
fn put_u32(out: &mut Vec<u8>, number: u32) -> Result<(), AllocError>
    ensures { OnOk result (out.new.items ≡ out.old.items ++ to_be_bytes w32 number) }
{
    let mut bytes = [0; 4];
    BigEndian::write_u32(&mut bytes, number);
    out.extend_from_slice(&bytes)?;
    Ok(())
}

/// Appends a block's entry: its first key's short key, its offset, its length, and the SHA-256 of its bytes.
pub fn put_entry(out: &mut Vec<u8>, entry: &Entry) -> Result<(), AllocError>
    ensures { OnOk result (out.new.items ≡ out.old.items ++ spelled entry.now) }
{
    out.reserve(ENTRY_BYTES)?;
    out.extend_from_slice(&entry.short)?;
    put_u64(out, entry.offset)?;
    put_u32(out, entry.len)?;
    out.extend_from_slice(&entry.digest)?;
    Ok(())
}

// Appends a byte for each key column.
fn put_kinds(out: &mut Vec<u8>, columns: &[KeyColumn]) -> Result<(), AllocError>
    ensures { OnOk result (out.new.items ≡ out.old.items ++ map byte_of_kind (map (λ c. c.kind) columns.now)) }
{
    for column in columns {
        out.push(kind_byte(column.kind))?;
    }
    Ok(())
}

// Appends a byte for each value column.
fn put_aggs(out: &mut Vec<u8>, columns: &[ValueColumn]) -> Result<(), AllocError>
    ensures { OnOk result (out.new.items ≡ out.old.items ++ map byte_of_agg (map (λ c. c.agg) columns.now)) }
{
    for column in columns {
        out.push(agg_byte(column.agg))?;
    }
    Ok(())
}

/// Appends the end of a tail, behind the entries.
pub fn put_foot(
    out: &mut Vec<u8>,
    format: Format,
    schema: &Schema,
    rows: u64,
    blocks: u32,
) -> Result<(), AllocError>
    ensures { OnOk result (out.new.items ≡ out.old.items ++ foot (record { format = format; columns = schema.now }) rows blocks) }
{
    put_kinds(out, schema.keys())?;
    put_aggs(out, schema.values())?;
    put_u64(out, rows)?;
    put_u32(out, blocks)?;
    out.push(schema.keys().len() as u8)?;
    out.push(schema.values().len() as u8)?;
    out.extend_from_slice(&magic(format))?;
    Ok(())
}

// The last bytes of a file.
fn magic(format: Format) -> [u8; 8]
    ensures { result ≡ magic_of format }
{
    match format {
        Format::One => *b"MESADLT1",
        Format::Two => *b"MESADLT2",
    }
}
