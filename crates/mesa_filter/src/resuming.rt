// Resume keys: where a page goes on.
ghost use Rattle.std.specs.Prelude.{◌≡◌, ◌≢◌, ◌++◌, ◌∷◌, [], IsTrue, IfOk, IfErr, OnOk, Ok, Err, decimal, is_some, map};
ghost use Rattle.std.specs.List.{join_with_byte, list_all};
ghost use Rattle.mesa_fold.specs.mesa_columns.declared.columns.KeyColumn.{KeyColumn as Column};
ghost use Rattle.mesa_fold.specs.mesa_columns.Columns.{chosen};
ghost use Rattle.mesa_filter.specs.Hex.{bytes_of_hex, hex_value as digit_value};
ghost use Rattle.mesa_filter.specs.Resume.{resume_behind, resume_prefix};
ghost use Rattle.mesa_filter.specs.Query.{are_places};

use crate::QueryError;
use crate::literals::hex_value;
use hex::FromHexError;
use itoa::Buffer;
use mesa_fold::{KeyBytes, KeyColumn, KeyType, Name, Schema, Words, spells_key};
use mesa_list::Items;
use std::alloc::{AllocError, Global};

// The first four parts of a query's resume keys: relation, version, epoch and group columns, each with a `/` behind it.
pub(crate) fn prefix(
    alloc: Global,
    schema: &Schema,
    relation: &Name,
    version: u32,
    epoch: u32,
    columns: &[u16],
) -> Result<Words, AllocError>
    requires { IsTrue (are_places schema.now.keys columns.now) }
    ensures { IfOk result (λ prefix. prefix ≡ resume_prefix schema.now relation.now version epoch columns.now) }
{
    let mut text = Vec::new(alloc);
    push_part(&mut text, relation.bytes())?;
    push_number(&mut text, version)?;
    push_number(&mut text, epoch)?;
    push_names(&mut text, schema.keys(), columns)?;
    text.push(b'/')?;
    Ok(Items::from_vec(text))
}

// A part and the `/` behind it.
fn push_part(text: &mut Vec<u8>, part: &[u8]) -> Result<(), AllocError>
    ensures { OnOk result (text.new.items ≡ text.old.items ++ part.now ++ 47 ∷ []) }
{
    text.extend_from_slice(part)?;
    text.push(b'/')?;
    Ok(())
}

// A number and the `/` behind it.
fn push_number(text: &mut Vec<u8>, number: u32) -> Result<(), AllocError>
    ensures { OnOk result (text.new.items ≡ text.old.items ++ decimal number ++ 47 ∷ []) }
{
    let mut buffer = Buffer::new();
    push_part(text, buffer.format(number).as_bytes())
}

// The names of the columns at these places, joined by `;`.
fn push_names(text: &mut Vec<u8>, columns: &[KeyColumn], places: &[u16]) -> Result<(), AllocError>
    requires { IsTrue (are_places columns.now places.now) }
    ensures { OnOk result (text.new.items ≡ text.old.items ++ join_with_byte 59 (chosen places.now (map (λ (c : Column). c.name) columns.now))) }
{
    for (i, place) in places.iter().enumerate() {
        if i > 0 {
            text.push(b';')?;
        }
        text.extend_from_slice(columns[*place as usize].name.bytes())?;
    }
    Ok(())
}

// The key of these types whose hexadecimal stands behind the prefix; none where there are no words.
pub(crate) fn resume_key(
    alloc: Global,
    kinds: &[KeyType],
    prefix: &[u8],
    words: &[u8],
) -> Result<Option<KeyBytes>, QueryError>
    ensures read { IfOk result (λ key. resume_behind kinds.now prefix.now words.now ≡ Ok key) }
    ensures refused { IfErr result (λ e. e ≢ QueryError.Memory → resume_behind kinds.now prefix.now words.now ≡ Err e) }
{
    if words.is_empty() {
        return Ok(None);
    }
    let Some(digits) = words.strip_prefix(prefix) else {
        return Err(QueryError::BadResume);
    };
    let Some(key) = bytes_of(alloc, digits)? else {
        return Err(QueryError::BadResume);
    };
    if !spells_key(kinds, key.as_slice()) {
        return Err(QueryError::BadResume);
    }
    Ok(Some(key))
}

// The bytes that lower case hexadecimal digits spell.
fn bytes_of(alloc: Global, digits: &[u8]) -> Result<Option<KeyBytes>, AllocError>
    ensures { IfOk result (λ bytes. bytes ≡ bytes_of_hex digits.now) }
{
    if !are_lower_digits(digits) {
        return Ok(None);
    }
    match hex::decode(alloc, digits) {
        Ok(bytes) => Ok(Some(Items::from_vec(bytes))),
        Err(fault) => match fault {
            FromHexError::OutOfMemory => Err(AllocError),
            _ => Ok(None),
        },
    }
}

// Whether each is a lower case hexadecimal digit.
fn are_lower_digits(bytes: &[u8]) -> bool
    ensures { result ≡ list_all (λ b. is_some (digit_value b)) bytes.now }
{
    bytes.iter().all(|byte| hex_value(*byte).is_some())
}
