//! The format of a delta file: how rows are spread over its blocks, the tail by which blocks are found and checked, and
//! what an index and a reference tell of it.
#![tactic(auto)]

mod index;
mod laws;
mod place;
mod seeking;
mod tail;
mod tally;

pub use index::Index;
pub use laws::{begins_before, keys_between, one_file, one_row_more};
pub use mesa_block::{
    Block, BlockBuilder, BlockError, fits_alone, grows_by_rows, is_full, read_block, reads_blocks,
    rises, row_size,
};
pub use place::Entry;
pub use tail::{put_entry, put_foot};
pub use tally::Tally;
