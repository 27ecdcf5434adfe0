//! Blocks of rows as bytes: each list of rows that makes a block has one spelling in each format.
#![tactic(auto)]

mod builder;
mod checking;
mod column;
mod error;
mod flat;
mod laws;
mod layout;
mod reading;
mod room;
mod writing;

pub use builder::BlockBuilder;
pub use checking::rises;
pub use error::BlockError;
pub use flat::Block;
pub use laws::{fits_alone, grows_by_rows, reads_blocks};
pub use layout::{Width, row_size};
pub use reading::read_block;
pub use room::is_full;

/// How many rows a block has at most.
pub const MOST_ROWS: usize = 1024;

/// How many bytes a block has at most.
pub const MOST_BYTES: usize = 65536;
