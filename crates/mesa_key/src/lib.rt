//! Keys of rows: their values, their order, and their bytes, whose order is the keys'.
#![tactic(auto)]

mod copies;
mod decoding;
mod encoding;
mod key_columns;
mod laws;
mod lent;
mod order;
mod text;

pub use decoding::{KeyError, decode};
pub use encoding::{encode, encode_int, encode_text};
pub use key_columns::{Column, KeyColumns, spells_key};
pub use laws::{orders_bytes_as_keys, reads_back, reads_spellings, spells_once};
pub use lent::ColumnValue;
pub use mesa_value::{Agg, Amount, Items, TryCopy, Values, combine, combines, put_bytes};
pub use order::{compare, short};
pub use text::KeyText;

/// The type of a key column.
#[derive(Clone, Copy, Debug, PartialEq, Eq)]
pub enum KeyType {
    /// A number of 64 bits.
    Int,
    /// UTF-8 of 0 to 255 bytes, without U+0000.
    Text,
}

/// How the blocks of a file spell values.
#[derive(Clone, Copy, Debug, PartialEq, Eq)]
pub enum Format {
    /// Each value takes eight bytes.
    One,
    /// A sum takes sixteen bytes, and each other value eight.
    Two,
}

/// The bytes of a key: the spellings of its columns, one after the other.
pub type KeyBytes = Items<u8>;

/// A key column's value.
#[derive(Drop)]
pub enum KeyValue {
    Int(i64),
    Text(KeyText),
}

/// A key, column by column.
pub type Key = Items<KeyValue>;
