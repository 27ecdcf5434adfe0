//! Batches: the rows of a load, checked and in order, and rows folded by their keys, where a batch is put into
//! rows that stand in that order, or merged with them into new ones.
#![tactic(auto)]

mod batch;
mod builder;
mod changing;
mod contents;
mod flat;
mod fold;
mod folding;
mod glance;
mod laws;
mod loading;
mod ordering;
mod reading;
mod recasting;
mod shared;
mod spots;
mod summing;
mod totals;
mod words;

pub use batch::Batch;
pub use builder::BatchBuilder;
pub use changing::totals_changed;
pub use contents::merge;
pub use fold::{combine_into, combines_all, fold_in};
pub use folding::{folds_totals, totals_outlast};
pub use glance::{Glance, Glanced};
pub use laws::{goes_row_by_row, keeps_forms, totals_last};
pub use loading::{LoadRows, RowView};
pub use recasting::{row_totals, totals_recast};
pub use summing::{sum_column, sums_among};
pub use totals::{OVER_BOUND, fits};
pub use words::{BatchError, RowWords};
