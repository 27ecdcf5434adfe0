//! What the journal's records make of one table of a catalogue: which of them fit it, what is made of them, and how the table takes that in. And what a checkpoint states of a table, and the table that it states.
#![tactic(auto)]

mod fitting;
mod loading;
mod ready;
mod recasting;
mod renewing;
mod restored_columns;
mod restoring;
mod same;
mod stating;
mod swapping;
mod totals;

pub use fitting::{counts_files_if_any, may_be_base, may_be_cumulative};
pub use loading::load_part;
pub use mesa_batch::totals_changed;
pub use mesa_catalog_table::{
    Base, Checkpoint, CheckpointSingle, CheckpointTable, Delta, Files, NoRows, Part, RecastBase,
    Recasting, Record, Recorded, Relation, Table, ViewRef, counts_files, counts_totals,
    keeps_bound, make_spare, no_totals, ranges, share_table, width_of,
};
pub use ready::{ReadyPart, ReadyRecast};
pub use recasting::{make_recast, recast};
pub use renewing::allows_recast;
pub use restoring::{RestoreError, restore};
pub use stating::state;
pub use swapping::swap;
pub use totals::totals_with;
