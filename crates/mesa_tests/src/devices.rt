// Devices in memory that hold whoever comes by.
mod bench;
mod disk;
mod meeting;

pub use bench::MetBench;
pub use disk::{MetDisk, READER};
pub use meeting::{Hold, Meeting, Place};
