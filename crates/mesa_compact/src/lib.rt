//! The files of a merged range, written row by row as they are merged.
#![tactic(auto)]

mod files;
mod filing;
mod gatherers;
mod grouped;
mod grouping;
mod pouring;
mod regrouping;
mod task;
mod views;

pub use files::{merged_file, newest_of};
pub use filing::{begin_file, end_file, give_up};
pub use gatherers::{gatherers_of, regroupings};
pub use grouping::put_all;
pub use pouring::sum_fault;
pub use regrouping::regroup_range;
pub use task::merge_task;
pub use views::view_files;
