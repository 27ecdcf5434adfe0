//! A store checked: whether it is sound, and else its first fault. Which faults there are, by the rows that its files are found to have, in which order, and that there is none exactly where the store is sound, is its verdict.
#![tactic(auto)]

mod asked;
mod faults;
mod files;
mod keys;
mod laws;
mod parts;
mod range;
mod ranges;
mod store;
mod testing;
mod totals;
mod verdict;

pub use laws::{ranges_are_ordered, sound_where_no_fault};
pub use mesa_compare::CheckError;
pub use store::check;
pub use verdict::Verdict;
