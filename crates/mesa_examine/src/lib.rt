//! A file of a store examined by itself: whether it is the recorded one, and what the absolute values of its rows add
//! up to. It is read once, row by row. What comparing files needs of open files beside is passed on.
#![tactic(auto)]

mod aggregate;
mod error;
mod examining;
mod matching;
mod rows;
mod tally;
mod totals;

pub use error::CheckError;
pub use examining::examine;
pub use mesa_delta::{FileError, Input};
pub use mesa_open_files::{
    DeltaDisk, Met, Opened, Unopened, Wanted, open_all, open_one, retire_all, retire_input,
};
pub use mesa_scan::Cursor;
pub use rows::next_row;
pub use totals::Sums;
