// Why a measurement isn't made.
use std::alloc::{AllocError, AllocFailed};
use std::io;

/// Why a measurement isn't made.
#[derive(Clone, Copy, Debug)]
pub enum Failure {
    /// The arguments aren't pairs of a word for a measurement and a number that it takes.
    Words,
    /// The arguments can't be read, or a line can't be printed.
    Terminal,
    /// A library refused what it was given.
    Refused,
    Memory,
}

impl From<io::Error> for Failure {
    fn from(_: io::Error) -> Self {
        Failure::Terminal
    }
}

impl From<AllocError> for Failure {
    fn from(_: AllocError) -> Self {
        Failure::Memory
    }
}

impl<T: Drop> From<AllocFailed<T>> for Failure {
    fn from(_: AllocFailed<T>) -> Self {
        Failure::Memory
    }
}
