// Why a script is refused.

/// What is wrong with a record of a script; within a record the first of these that applies is
/// told.
#[derive(Clone, Copy, Debug, PartialEq, Eq)]
pub enum Reason {
    /// No record has this name.
    Unknown,
    /// The record has too few fields or too many.
    Fields,
    /// The record doesn't follow those before it: a lease that isn't the first record, or anything
    /// but a row or a commit behind a row, the input's end too.
    Order,
    /// A word that isn't one of those that may stand there.
    Word,
    /// A number that can't be read or is out of its range.
    Number,
}

/// Why a script is refused, at its first bad record. Records count from 1, as csv reads them.
#[derive(Clone, Copy, Debug, PartialEq, Eq)]
pub enum ScriptError {
    BadRecord { place: u64, reason: Reason },
    /// The record would be the 200,001st command.
    TooManyCommands { place: u64 },
    /// The record would begin the ninth session, the prologue included.
    TooManySessions { place: u64 },
    Memory,
}
