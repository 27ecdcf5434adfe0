//! The files of a recast table: the rows of each of its ranges, grouped by the columns that it is to have.
#![tactic(auto)]

mod range;
mod ranges;
mod renewal;
mod task;

pub use task::{regroup_more, regroup_task};
