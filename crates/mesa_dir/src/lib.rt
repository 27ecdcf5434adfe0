//! A disk and benches over a real folder. They tell no bytes: a contract knows their lengths, their clock and
//! their counts of faults, and which calls of the system each of theirs made and how they were answered. What
//! a device then keeps, no contract can say.
//!
//! Every acknowledged byte is on the device as far as the system's syncs go: a file before it is adopted, and
//! its name and the journal by the journal's syncs.
#![tactic(auto)]

mod again;
mod area_file;
mod bench;
mod disk;
mod draft;
mod folder;
mod listing;
mod names;
mod opening;
mod reader;
mod store;
mod streams;

pub use bench::DirBench;
pub use disk::DirDisk;
pub use draft::{DirDraft, DirMade};
pub use mesa_os::{Host, System};
pub use reader::DirReader;
