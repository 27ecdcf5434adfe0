//! A disk in memory, for tests: it keeps a record of its calls, so that each moment has its images, and
//! chosen calls of it fail.

mod bench;
mod calls;
mod disk;
mod file;
mod held;

pub use bench::{MemBench, MemDraft};
pub use disk::MemDisk;
pub use file::{MemMade, MemReader};
