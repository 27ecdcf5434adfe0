//! A table's columns through its life: linked changes, recasts and views, and what becomes of rows.
#![tactic(auto)]

mod allowing;
mod choosing;
mod evolving;
mod laws;
mod recasts;

pub use evolving::{Evolving, MAX_CHANGES, MAX_VIEWS};
pub use laws::{
    lifts_folds, lifts_to_present, recasts_fold, rows_are_carried, tables_keep_rules,
    views_outlast, views_outlive,
};
pub use mesa_columns::{
    Agg, Amount, Change, ChangeError, Fields, Format, Items, KeyBytes, KeyColumn, KeyList, KeyText,
    KeyType, LentRow, Lift, MAX_COLUMNS, Name, NameError, Named, Row, RowList, Schema, SchemaError,
    Totals, TryCopy, ValueColumn, Values, View, ViewError, Words, agg_byte, amount, combine,
    combines, compare, encode_int, encode_text, has_name, key_value, kind_byte, place_of,
    put_bytes, reads_back, repeated_place, short, signed,
};
pub use mesa_fold::{
    folds_again, folds_by_key, folds_go_on, folds_keep_form, groups_folds, groups_rise,
    groups_whole,
};
pub use recasts::RecastError;
