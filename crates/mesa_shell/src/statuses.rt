//! The statuses that a call ends with.

/// The script was run, and no reply is a refusal.
pub const ANSWERED: u8 = 0;

/// The script was run, and some reply is a refusal; or a digest was refused.
pub const REFUSED: u8 = 1;

/// The store was checked, and is sound.
pub const SOUND: u8 = 0;

/// The store was checked, and has a fault.
pub const UNSOUND: u8 = 1;

/// The digests of a relation were printed.
pub const DIGESTED: u8 = 0;

/// The words have none of the forms.
pub const USAGE: u8 = 2;

/// The script is refused, and nothing was run.
pub const BAD_SCRIPT: u8 = 3;

/// The source failed.
pub const SOURCE_FAULT: u8 = 4;

/// The sink failed; it has a front of what was to be printed.
pub const SINK_FAULT: u8 = 5;

/// The disk failed while the store was opened, checked or digested.
pub const DISK_FAULT: u8 = 6;

/// The store is damaged.
pub const DAMAGED: u8 = 7;

/// Memory was short outside a command.
pub const NO_MEMORY: u8 = 8;

/// The input is longer than the longest one.
pub const TOO_LONG: u8 = 9;

/// The store has had the last run that may be.
pub const RUNS_FULL: u8 = 9;
