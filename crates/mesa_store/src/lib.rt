//! The device work of a store's turns and of its opening, and what the store then stands for.
//!
//! A record is written so that a crash at any moment leaves a store as it was before the record or as it
//! is after it. Before the first record of a run all that a read gives is made to stay.
#![tactic(auto)]

mod carrying;
mod restating;
mod settling;
mod writing;

pub use carrying::carry_on;
pub use restating::restate;
pub use settling::settle;
pub use writing::write_record;
