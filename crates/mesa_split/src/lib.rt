//! Compaction over threads: a range is cut by keys into parts, which are merged side by side while one writer writes what was merged.
#![tactic(auto)]

mod collecting;
mod files;
mod flat;
mod held;
mod judging;
mod laws;
mod lending;
mod parts;
mod rounds;
mod sampling;
mod split;
mod table;
mod writing;

pub use laws::{one_delta, one_spelling, parts_join};
pub use sampling::sample;
pub use split::merge_split;
