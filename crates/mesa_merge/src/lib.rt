//! Files merged as streams: the rows of their fold, one by one.
#![tactic(auto)]

mod gathering;
mod heads;
mod laws;
mod making;
mod matches;
mod merge;
mod next;
mod stopping;
mod streams;
mod sums;
mod waiting;

pub use laws::all_are_told;
pub use merge::Merge;
