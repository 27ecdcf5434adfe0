//! All tables of a catalogue, and what records are to them: which records keep the rules of their kind, whether their files are new, a record made ready with all the memory that it takes, and taken in without any.
#![tactic(auto)]

mod applying;
mod catalog_tables;
mod copying;
mod dropping;
mod finding;
mod fitting;
mod lineages;
mod naming;
mod newness;
mod ready;
mod readying;

pub use catalog_tables::{CatalogTables, MAX_TABLES};
pub use copying::share_tables;
pub use fitting::MAX_RUNS;
pub use mesa_table_records::{
    Checkpoint, CheckpointTable, Delta, NoRows, Record, Recorded, Relation, RestoreError, Table,
    ranges, restore, state,
};
pub use newness::{IDS_OF_RUN, brings_new, brings_rising, greatest_with};
pub use ready::Ready;
pub use readying::make_room;
