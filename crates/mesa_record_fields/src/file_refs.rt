// References to files, and totals, as fields.
ghost use Rattle.std.specs.Prelude.{◌≡◌, ◌++◌, ◌<◌, ◌^◌, IfOk, IsTrue, OnOk, length};
ghost use Rattle.mesa_record_fields.specs.Reading.{Gives, aggregates_at, file_ref_at, not_zero, piece_at, ruled, totals_at, word_at, long_at};
ghost use Rattle.mesa_record_fields.specs.Rules.{IsLong, IsTypedRef, IsWord, is_file_ref};
ghost use Rattle.mesa_record_fields.specs.Spelling.{format_byte as byte_of, file_keys, file_ref, file_sizes, key};

use crate::cursor::Cursor;
use crate::field::{put_half, put_long, put_word, read_fields, write_counted};
use crate::{Edition, RecordError};
use mesa_columns::{Format, Items, Totals, Values};
use mesa_file::{FileId, FileRef};
use std::alloc::{AllocError, Global};

// ---- reading

#[tactic(auto, unfolding(crate::specs::Reading::file_ref_at))]
pub fn read_file(
    alloc: Global,
    cursor: &mut Cursor<'_>,
    edition: Edition,
) -> Result<FileRef, RecordError>
    ensures { Gives result cursor.new (file_ref_at edition cursor.old) }
{
    Ok(FileRef {
        format: cursor.format(edition)?,
        id: FileId::of(cursor.long()?),
        len: cursor.long()?,
        rows: row_count(cursor)?,
        blocks: block_count(cursor)?,
        first: cursor.key(alloc)?,
        last: cursor.key(alloc)?,
        aggregates: aggregates(alloc, cursor, edition)?,
        digest: digest(cursor)?,
    })
}

fn row_count(cursor: &mut Cursor<'_>) -> Result<u64, RecordError>
    ensures { Gives result cursor.new (ruled not_zero long_at cursor.old) }
{
    let at = cursor.at();
    match cursor.long()? {
        0 => Err(RecordError::BadField { at }),
        rows => Ok(rows),
    }
}

fn block_count(cursor: &mut Cursor<'_>) -> Result<u32, RecordError>
    ensures { Gives result cursor.new (ruled not_zero word_at cursor.old) }
{
    let at = cursor.at();
    match cursor.word()? {
        0 => Err(RecordError::BadField { at }),
        blocks => Ok(blocks),
    }
}

fn aggregates(
    alloc: Global,
    cursor: &mut Cursor<'_>,
    edition: Edition,
) -> Result<Values, RecordError>
    ensures { Gives result cursor.new (aggregates_at edition cursor.old) }
{
    let count = cursor.columns()?;
    match edition {
        Edition::First => {
            let narrow: Items<i64> = read_fields(alloc, cursor, count)?;
            Ok(widened_amounts(alloc, narrow.as_slice())?)
        }
        Edition::Second | Edition::Third | Edition::Fourth => read_fields(alloc, cursor, count),
    }
}

fn widened_amounts(alloc: Global, narrow: &[i64]) -> Result<Values, AllocError>
    ensures { IfOk result (λ wide. wide ≡ narrow.now) }
{
    let mut wide = Items::new(alloc);
    for number in narrow {
        wide.push(i128::from(*number))?;
    }
    Ok(wide)
}

fn digest(cursor: &mut Cursor<'_>) -> Result<[u8; 32], RecordError>
    ensures { Gives result cursor.new (piece_at 32 cursor.old) }
{
    let mut digest = [0; 32];
    digest.copy_from_slice(cursor.piece(32)?);
    Ok(digest)
}

pub fn read_totals(
    alloc: Global,
    cursor: &mut Cursor<'_>,
    edition: Edition,
) -> Result<Totals, RecordError>
    ensures { Gives result cursor.new (totals_at edition cursor.old) }
{
    let count = cursor.count(16)?;
    match edition {
        Edition::First => {
            let narrow: Items<u64> = read_fields(alloc, cursor, count)?;
            Ok(widened_totals(alloc, narrow.as_slice())?)
        }
        Edition::Second | Edition::Third | Edition::Fourth => read_fields(alloc, cursor, count),
    }
}

fn widened_totals(alloc: Global, narrow: &[u64]) -> Result<Totals, AllocError>
    ensures { IfOk result (λ wide. wide ≡ narrow.now) }
{
    let mut wide = Items::new(alloc);
    for number in narrow {
        wide.push(u128::from(*number))?;
    }
    Ok(wide)
}

// ---- writing

#[tactic(auto, unfolding(crate::specs::Spelling::file_ref))]
pub fn write_file(file: &FileRef, out: &mut Vec<u8>) -> Result<(), AllocError>
    requires { IsTrue (is_file_ref file.now) }
    ensures bytes { OnOk result (out.new.items ≡ out.old.items ++ file_ref Edition.Fourth file.now) }
    ensures typed { OnOk result (IsTypedRef file.now) }
{
    out.push(format_byte(file.format))?;
    write_sizes(file, out)?;
    write_keys(file, out)?;
    write_counted(file.aggregates.as_slice(), out)?;
    write_digest(&file.digest, out)
}

fn format_byte(format: Format) -> u8
    ensures { result ≡ byte_of format }
{
    match format {
        Format::One => 1,
        Format::Two => 2,
    }
}

fn write_digest(digest: &[u8; 32], out: &mut Vec<u8>) -> Result<(), AllocError>
    ensures bytes { OnOk result (out.new.items ≡ out.old.items ++ digest.now) }
    ensures len { length digest.now ≡ 32 }
{
    out.extend_from_slice(digest)
}

#[tactic(auto, unfolding(crate::specs::Spelling::file_sizes))]
fn write_sizes(file: &FileRef, out: &mut Vec<u8>) -> Result<(), AllocError>
    ensures bytes { OnOk result (out.new.items ≡ out.old.items ++ file_sizes file.now) }
    ensures typed { OnOk result (IsLong file.now.id × IsLong file.now.len × IsLong file.now.rows × IsWord file.now.blocks) }
{
    put_long(file.id.number(), out)?;
    put_long(file.len, out)?;
    put_long(file.rows, out)?;
    put_word(file.blocks, out)
}

#[tactic(auto, unfolding(crate::specs::Spelling::file_keys))]
fn write_keys(file: &FileRef, out: &mut Vec<u8>) -> Result<(), AllocError>
    requires { IsTrue (is_file_ref file.now) }
    ensures { OnOk result (out.new.items ≡ out.old.items ++ file_keys file.now) }
{
    write_key(file.first.as_slice(), out)?;
    write_key(file.last.as_slice(), out)
}

fn write_key(bytes: &[u8], out: &mut Vec<u8>) -> Result<(), AllocError>
    requires { length bytes.now < 2 ^ 16 }
    ensures { OnOk result (out.new.items ≡ out.old.items ++ key bytes.now) }
{
    put_half(bytes.len() as u16, out)?;
    out.extend_from_slice(bytes)
}
