// Reading keys.
ghost use Rattle.std.specs.Prelude.{◌≡◌, ◌≢◌, ◌≤◌, ℕ, List, ◌++◌, length, take, true, false, Some, IfOk, IfErr, OnOk};
ghost use Rattle.mesa_key.specs.declared.KeyValue.{KeyValue as Value};
ghost use Rattle.mesa_key.specs.Faults.{breaks_off as breaks, fault_of_column, fault_of_cut, fault_of_key, fault_of_text};
ghost use Rattle.mesa_key.specs.Spelling.{IsKey, column_value, is_column, key_of, key_spelling};

use crate::text::is_utf8;
use crate::{Column, ColumnValue, Key, KeyColumns, KeyText, KeyType, KeyValue};
use mesa_value::Items;
use std::alloc::{AllocError, AllocFailed, Global};

/// Why bytes begin with no key of the types.
#[derive(Clone, Copy, Debug, PartialEq, Eq)]
pub enum KeyError {
    /// The bytes end within a column.
    Truncated,
    /// A text isn't UTF-8.
    NotUtf8,
    /// A text has more than 255 bytes.
    TooLong,
    Memory,
}

impl From<AllocError> for KeyError {
    ghost use Rattle.mesa_key.specs.declared.decoding.KeyError.TheVariants.{Memory};

    ghost from_gives = { λ _ e. e ≡ Memory };

    fn from(_: AllocError) -> Self {
        KeyError::Memory
    }
}

/// The key of these types that the bytes begin with, and how many bytes it takes.
pub fn decode(alloc: Global, types: &[KeyType], bytes: &[u8]) -> Result<(Key, usize), KeyError>
    ensures read { IfOk result (λ found. found.0 ≡ key_of types.now bytes.now) }
    ensures key { IfOk result (λ found. IsKey types.now found.0) }

    // The bytes begin with its spelling, and that is what was read of them.
    ensures length { IfOk result (λ found. found.1 ≤ length bytes.now) }
    ensures spelled { IfOk result (λ found. take found.1 bytes.now ≡ key_spelling found.0) }

    // Else they begin with no spelling of a key of these types.
    ensures refused { IfErr result (λ e. e ≢ KeyError.Memory → (key : List Value) (more : List ℕ) → IsKey types.now key → bytes.now ≢ key_spelling key ++ more) }

    // Of the faults the first from the left is told.
    ensures first { IfErr result (λ e. e ≢ KeyError.Memory → fault_of_key types.now bytes.now ≡ Some e) }
{
    let mut key = Items::new(alloc);
    let mut columns = KeyColumns::of(types, bytes);
    while let Some(column) = columns.take_next() {
        key.push(value_of(alloc, column)?)?;
    }
    if let Some(kind) = columns.kinds().first() {
        return Err(cut_fault(*kind, columns.rest()));
    }
    Ok((key, bytes.len() - columns.rest().len()))
}

// The value that a column spells.
fn value_of(alloc: Global, column: Column) -> Result<KeyValue, KeyError>
    ensures value { IfOk result (λ value. value ≡ column_value column.entry.kind column.entry.bytes.now) }
    ensures allowed { OnOk result (is_column column.entry.kind column.entry.bytes.now ≡ true) }
    ensures refused { IfErr result (λ e. e ≢ KeyError.Memory → is_column column.entry.kind column.entry.bytes.now ≡ false) }
    ensures first { IfErr result (λ e. e ≢ KeyError.Memory → e ≡ fault_of_column column.entry.kind column.entry.bytes.now) }
{
    match column.value() {
        ColumnValue::Int(number) => Ok(KeyValue::Int(number)),
        ColumnValue::Text(text) => {
            if !KeyText::allows(text) {
                return Err(text_fault(text, true));
            }
            let text = KeyText::new(Items::from_bytes(alloc, text)?);
            Ok(KeyValue::Text(text))
        }
    }
}

// What is wrong with bytes that end within a column of this type.
fn cut_fault(kind: KeyType, bytes: &[u8]) -> KeyError
    ensures { result ≡ fault_of_cut kind bytes.now }
{
    match kind {
        KeyType::Int => KeyError::Truncated,
        KeyType::Text => text_fault(bytes, false),
    }
}

// Whether bytes hold one that can't stand where it does, whatever follows.
fn breaks_off(bytes: &[u8]) -> bool
    ensures { result ≡ breaks bytes.now }
{
    let Err(fault) = str::from_utf8(bytes) else {
        return false;
    };
    fault.error_len().is_some()
}

// The first 256 bytes, or all where there are fewer.
fn head_of(text: &[u8]) -> &[u8]
    ensures { result.now ≡ take 256 text.now }
{
    if text.len() > 256 { &text[..256] } else { text }
}

// What is wrong with the bytes of a text, the first fault from the left; a zero byte may follow them.
fn text_fault(text: &[u8], is_ended: bool) -> KeyError
    ensures { result ≡ fault_of_text is_ended text.now }
{
    if breaks_off(head_of(text)) {
        return KeyError::NotUtf8;
    }
    if text.len() > 255 {
        return KeyError::TooLong;
    }
    if is_ended && !is_utf8(text) {
        return KeyError::NotUtf8;
    }
    KeyError::Truncated
}
