//! Names, columns and schemas of tables and views, their rows, and how rows are lifted through changes of columns.
#![tactic(auto)]

mod changes;
mod codes;
mod columns;
mod copies;
mod epochs;
mod lifting;
mod named;
mod names;
mod numbers;
mod rows;
mod schema;
mod views;

pub use changes::{Change, ChangeError};
pub use codes::{agg_byte, agg_of_byte, kind_byte, kind_of_byte};
pub use columns::{KeyColumn, ValueColumn};
pub use epochs::{added_keys, change_columns};
pub use lifting::Lift;
pub use mesa_key::{
    Agg, Amount, Column, ColumnValue, Format, Items, KeyBytes, KeyColumns, KeyText, KeyType,
    KeyValue, TryCopy, Values, combine, combines, compare, encode_int, encode_text, put_bytes,
    reads_back, reads_spellings, short, spells_key,
};
pub use named::{Named, has_name, has_names, place_of, repeated_place};
pub use names::{Name, NameError, is_name_byte};
pub use numbers::{amount, key_value, signed};
pub use rows::{Fields, KeyList, LentRow, Row, RowList, Totals, Words};
pub use schema::{MAX_COLUMNS, Schema, SchemaError};
pub use views::{View, ViewError};
