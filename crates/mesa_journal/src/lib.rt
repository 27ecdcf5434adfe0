//! The journal of a store: bodies of records in an area of a disk, each behind a gate that is opened once
//! the body is on the disk. So a crash leaves the old bodies, or these and the new one.
//!
//! Records stand one after the other from place 0: a gate of 1 byte, the body's length in 4 bytes, the
//! highest first, and the body. A record counts where its gate is 1; the first gate that isn't 1 ends the
//! journal, whatever follows. An area of no or one byte holds no record.
#![tactic(auto)]

mod areas;
mod both;
mod framed;
mod reading;
mod writing;

pub use areas::{number_in, other_area};
pub use both::{LiveJournal, read_live};
pub use framed::Framed;
pub use reading::{Body, JournalError, JournalRead, read_journal};
pub use writing::{append, close_gate};
