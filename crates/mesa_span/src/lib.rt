//! The ranges of versions that a table's deltas cover: which of them a query reads, and which a
//! compaction makes next.
#![tactic(auto)]

mod plans;
mod ranges;
mod works;

pub use plans::{plan, plans_are_least};
pub use ranges::{Ranges, Span};
pub use works::{Work, next_work, works_keep_ranges_reachable};
