// Why the program ends before its time.
use std::alloc::{AllocError, AllocFailed};
use std::io;

/// Why the program ends before its time.
#[derive(Clone, Copy, Debug)]
pub enum Failure {
    /// The arguments aren't a known word and a number.
    Words,
    /// The arguments can't be read, or a line can't be printed.
    Terminal,
    /// A call of the disk failed.
    Disk,
    /// The journal can't be read.
    Journal,
    /// The record behind so many others is another.
    Record(u64),
    /// The file of this number isn't there, or has other bytes.
    File(u64),
    Memory,
}

impl From<io::Error> for Failure {
    fn from(_: io::Error) -> Self {
        Failure::Terminal
    }
}

impl From<AllocError> for Failure {
    fn from(_: AllocError) -> Self {
        Failure::Memory
    }
}

impl<T: Drop> From<AllocFailed<T>> for Failure {
    fn from(_: AllocFailed<T>) -> Self {
        Failure::Memory
    }
}
