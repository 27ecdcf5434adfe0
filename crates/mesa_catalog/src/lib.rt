//! The catalogue of a store: which tables there are, and which files have their rows. It is what the journal's records make, one after the other.
#![tactic(auto)]

mod begun;
mod catalog;
mod files;
mod lookups;
mod restored_ids;
mod restoring;
mod stating;

pub use begun::Begun;
pub use catalog::Catalog;
pub use mesa_catalog_records::{Delta, Recorded, Relation};
