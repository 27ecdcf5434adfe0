//! Delta files written and read: rows in blocks, one after the other, and a tail by which blocks are found and checked.
#![tactic(auto)]

mod ahead;
mod blocks;
mod digesting;
mod error;
mod input;
mod pending;
mod piece;
mod reader;
mod run;
mod writer;

pub use ahead::Ahead;
pub use error::{FileError, WriteError};
pub use input::Input;
pub use mesa_delta_format::{Index, keys_between, one_file, one_row_more};
pub use reader::DeltaReader;
pub use writer::DeltaWriter;
