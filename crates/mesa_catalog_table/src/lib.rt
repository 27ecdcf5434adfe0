//! A table as a catalogue in memory holds it: its name, its columns through its life, its totals, and its deltas with their files. It says what the table stands for, and what is asked of it.
#![tactic(auto)]

mod copying;
mod counting;
mod delta;
mod finding;
mod lending;
mod lookups;
mod naming;
mod recorded;
mod recording;
mod relation;
mod table;

pub use copying::share_table;
pub use counting::{
    counts_files, counts_totals, counts_views, epochs_of, first_widths, keep_bound, keeps_bound,
    no_totals, repeated, sums_now, width_of,
};
pub use delta::Delta;
pub use lending::NoRows;
pub use lookups::ranges;
pub use mesa_record::{
    Checkpoint, CheckpointRange, CheckpointSingle, CheckpointTable, Files, Part, RecastBase,
    Recasting, Record, ViewRef,
};
pub use recorded::Recorded;
pub use relation::Relation;
pub use table::{Base, Loaded, Table, make_spare, start_behind};
