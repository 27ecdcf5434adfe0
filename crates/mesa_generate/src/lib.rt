//! The script that a seed gives, of which no record is refused, and what a run printed for its last three commands, cut out of all that it printed.
#![tactic(auto)]

mod generator;
mod last;
mod laws;
mod lines;
mod scripts;

pub use last::excerpt;
pub use laws::seeds_give_scripts;
pub use scripts::generate;
