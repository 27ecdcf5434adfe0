//! What folding rows by their keys is, and grouping them, with the laws of both.
#![tactic(auto)]

mod laws;

pub use laws::{
    folds_again, folds_by_key, folds_go_on, folds_keep_form, groups_folds, groups_rise,
    groups_whole,
};
pub use mesa_columns::{
    Agg, ColumnValue, KeyBytes, KeyColumn, KeyColumns, KeyType, KeyValue, Name, Named, Schema,
    ValueColumn, Words, is_name_byte, key_value, place_of, spells_key,
};
