// The columns of encoded keys, taken one after the other and looked at in place.
ghost use Rattle.std.specs.Prelude.{◌≡◌, ◌<◌, ◌≤◌, ◌+◌, [], ◌∷◌, ◌&&◌, ◌==◌, length, take, drop, position, is_some, IfSome, IfNone, IsTrue};
ghost use Rattle.mesa_key.specs.Spelling.{column_length, column_value, columns_of, is_column, is_spelling, key_of};
ghost use Rattle.mesa_key.specs.declared.KeyType.TheVariants as types;
ghost use Rattle.mesa_key.specs.Columns.{is_whole, seen};

use crate::{ColumnValue, KeyText, KeyType};
use mesa_value::place_of_byte;
use std::marker::Model;

/// A column of an encoded key, lent by it: the eight bytes of an int, or a text's bytes and the zero behind them.
#[derive(Clone, Copy)]
pub struct Column<'a> {
    pub kind: KeyType,
    pub bytes: &'a [u8],
    ghost whole: { column_length kind bytes.now ≡ length bytes.now },
}

impl<'a> Column<'a> {
    ghost use Rattle.mesa_key.specs.Columns.{seen};

    /// The column's value; a text's bytes may be more than a key has, or no text.
    pub fn value(self) -> ColumnValue<'a>
        ensures { seen result ≡ column_value self.entry.kind self.entry.bytes.now }
    {
        match self.kind {
            KeyType::Int => ColumnValue::Int(int_of(self.bytes)),
            KeyType::Text => ColumnValue::Text(&self.bytes[..self.bytes.len() - 1]),
        }
    }

    /// Whether the column spells a value of its type.
    pub fn is_allowed(self) -> bool
        ensures { result ≡ is_column self.entry.kind self.entry.bytes.now }
    {
        match self.kind {
            KeyType::Int => true,
            KeyType::Text => KeyText::allows(&self.bytes[..self.bytes.len() - 1]),
        }
    }
}

// The number that eight bytes spell.
fn int_of(bytes: &[u8]) -> i64
    requires { length bytes.now ≡ 8 }
    ensures { seen (ColumnValue.Int result) ≡ column_value KeyType.Int bytes.now }
{
    match bytes {
        [a, b, c, d, e, f, g, h] => {
            let raised = u64::from_be_bytes([*a, *b, *c, *d, *e, *f, *g, *h]);
            (i128::from(raised) - 0x8000_0000_0000_0000) as i64
        }
        _ => unreachable!(),
    }
}

/// The columns of an encoded key that are still to be taken. Nothing of the key is copied.
#[derive(Drop)]
pub struct KeyColumns<'a> {
    kinds: &'a [KeyType],
    bytes: &'a [u8],
}

impl<'a> Model for KeyColumns<'a> {
    ghost use Rattle.mesa_key.specs.Columns.{ColumnsLeft};

    ghost Value = { ColumnsLeft };

    ghost view = { λ c. record { kinds = c.kinds.now; bytes = c.bytes.now } };
}

impl<'a> KeyColumns<'a> {
    ghost use Rattle.mesa_key.specs.Columns.{has_column};

    /// The columns of these types that bytes begin with.
    pub fn of(kinds: &'a [KeyType], bytes: &'a [u8]) -> Self
        ensures { result ≡ record { kinds = kinds.now; bytes = bytes.now } }
    {
        KeyColumns { kinds, bytes }
    }

    /// Takes the next column, if there is one and the bytes hold it whole.
    pub fn take_next(&mut self) -> Option<Column<'a>>
        ensures whole { is_some result ≡ has_column self.old.kinds self.old.bytes }
        ensures kind { IfSome result (λ column. self.old.kinds ≡ column.kind ∷ self.new.kinds) }
        ensures column { IfSome result (λ column. column.bytes.now ≡ take (column_length column.kind self.old.bytes) self.old.bytes) }
        ensures rest { IfSome result (λ column. self.new.bytes ≡ drop (column_length column.kind self.old.bytes) self.old.bytes) }
        ensures none { IfNone result (self.new ≡ self.old) }

        // Of a key's bytes each column is taken.
        ensures spelled { IfSome result (λ column. IsTrue (is_spelling self.old.kinds self.old.bytes) → IsTrue (is_column column.kind column.bytes.now) × IsTrue (is_spelling self.new.kinds self.new.bytes)) }
        ensures ended { IfNone result (IsTrue (is_spelling self.old.kinds self.old.bytes) → self.old.kinds ≡ []) }

        // The columns, and the values of the key, one after the other.
        ensures columns { IfSome result (λ column. columns_of self.old.kinds self.old.bytes ≡ column.bytes.now ∷ columns_of self.new.kinds self.new.bytes) }
        ensures key { IfSome result (λ column. key_of self.old.kinds self.old.bytes ≡ column_value column.kind column.bytes.now ∷ key_of self.new.kinds self.new.bytes) }
    {
        let (kind, kinds) = self.kinds.split_first()?;
        let (column, rest) = first_column(*kind, self.bytes)?;
        self.kinds = kinds;
        self.bytes = rest;
        Some(column)
    }

    /// The types of the columns that are still to be taken.
    pub fn kinds(&self) -> &'a [KeyType]
        ensures { result.now ≡ self.now.kinds }
    {
        self.kinds
    }

    /// The bytes behind the columns that were taken.
    pub fn rest(&self) -> &'a [u8]
        ensures { result.now ≡ self.now.bytes }
    {
        self.bytes
    }
}

// The column of a type that bytes begin with and the bytes behind it, where they hold it whole.
fn first_column(kind: KeyType, bytes: &[u8]) -> Option<(Column, &[u8])>
    ensures whole { is_some result ≡ is_whole kind bytes.now }
    ensures kind { IfSome result (λ found. found.0.kind ≡ kind) }
    ensures column { IfSome result (λ found. found.0.bytes.now ≡ take (column_length kind bytes.now) bytes.now) }
    ensures rest { IfSome result (λ found. found.1.now ≡ drop (column_length kind bytes.now) bytes.now) }
{
    let len = first_length(kind, bytes)?;
    let (column, rest) = bytes.split_at(len);
    Some((
        Column {
            kind,
            bytes: column,
        },
        rest,
    ))
}

// How many bytes the column of a type takes that bytes begin with, where they hold it whole.
fn first_length(kind: KeyType, bytes: &[u8]) -> Option<usize>
    ensures whole { is_some result ≡ is_whole kind bytes.now }
    ensures length { IfSome result (λ len. len ≡ column_length kind bytes.now) }
    ensures within { IfSome result (λ len. len ≤ length bytes.now) }
{
    match kind {
        KeyType::Int if bytes.len() < 8 => None,
        KeyType::Int => Some(8),
        KeyType::Text => text_length(bytes),
    }
}

// How many bytes the text column takes that bytes begin with: those up to the first zero.
fn text_length(bytes: &[u8]) -> Option<usize>
    ensures whole { is_some result ≡ is_whole KeyType.Text bytes.now }
    ensures length { IfSome result (λ len. len ≡ column_length KeyType.Text bytes.now) }
    ensures within { IfSome result (λ len. len ≤ length bytes.now) }
{
    Some(place_of_byte(0, bytes)? + 1)
}

/// Whether bytes spell a key of these types, with nothing left over.
pub fn spells_key(kinds: &[KeyType], bytes: &[u8]) -> bool
    ensures { result ≡ is_spelling kinds.now bytes.now }
{
    let mut columns = KeyColumns::of(kinds, bytes);
    while let Some(column) = columns.take_next() {
        if !column.is_allowed() {
            return false;
        }
    }
    columns.kinds().is_empty() && columns.rest().is_empty()
}
