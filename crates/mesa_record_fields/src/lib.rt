//! The fields of the journal's records: how numbers, texts, columns, changes and references to files are spelled, and how they are read again.
#![tactic(auto)]

mod changes;
mod columns;
mod cursor;
mod edition;
mod error;
mod field;
mod file_refs;
mod numbered;

pub use changes::{read_change, write_change};
pub use columns::{read_key_columns, read_names, read_value_columns};
pub use cursor::Cursor;
pub use edition::Edition;
pub use error::RecordError;
pub use field::{Field, put_half, put_word, write_counted};
pub use file_refs::{read_file, read_totals, write_file};
pub use mesa_columns::{Change, Items, KeyColumn, Name, Totals, TryCopy, ValueColumn, View};
pub use mesa_file::FileRef;
pub use numbered::{Numbered, read_rising, write_rising};
