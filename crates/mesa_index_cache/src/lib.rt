//! A disk that keeps the indexes of the delta files that were opened on it.
#![tactic(auto)]

mod indexed_disk;
mod indexes;
mod kept;
mod same;

pub use indexed_disk::IndexedDisk;
