//! Blocks of a query's pinned files put into groups: by a few threads, each of which groups a run of blocks, or those
//! of a table's file as rows of one of its views. What a query needs of files and groups beside is passed on.
#![tactic(auto)]

mod beside;
mod decoding;
mod jobs;
mod pieces;
mod reading;
mod regrouped;

pub use beside::gathered_beside;
pub use mesa_answer::{Groups, answer_over_parts};
pub use mesa_delta::{Ahead, DeltaReader, FileError, Input};
pub use mesa_open_files::{Pinned, PinnedInput};
pub use mesa_scan::read_ahead;
pub use mesa_schema::{RowList, Schema};
pub use mesa_view::{GatherError, gather, sum_damage};
pub use regrouped::gather_regrouped;
