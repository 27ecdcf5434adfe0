//! Plans: which of a table's deltas a query reads and a work folds, lent by the table that holds them; and their files, opened: those that answer a query, with what they tell of the answer, those of a work's range, and those of all ranges of a table for its recast.
#![tactic(auto)]

mod between;
mod deltas;
mod files;
mod folding;
mod gathering;
mod joining;
mod opening;
mod parts;
mod planning;
mod ranges;
mod views;

pub use deltas::Deltas;
pub use files::table_files;
pub use folding::singles_to;
pub use gathering::{Gathered, gather};
pub use opening::open_files;
pub use planning::planned;
pub use ranges::{GatheredRanges, gather_more, gather_recast};
pub use views::{Sources, Viewed, own_columns, view_files};
