//! Files put into groups as they are read: at most a block of a file is held, and so a view's rows are derived from its table's file.
#![tactic(auto)]

mod derived;
mod error;
mod filters;
mod gathering;
mod putting;

pub use derived::derive;
pub use error::GatherError;
pub use filters::every_row;
pub use gathering::gather;
pub use putting::{put_row, sum_damage};
