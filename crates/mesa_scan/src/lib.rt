//! Files read as streams of rows, block by block, each row lifted to the present: a cursor reads from the first
//! row on or from a key on, and a scan only the blocks that may have a row that matches a filter.
#![tactic(auto)]

mod ahead;
mod allowing;
mod beginning;
mod cursor;
mod laws;
mod matching;
mod scanning;
mod whole;

pub use ahead::read_ahead;
pub use allowing::allows;
pub use cursor::Cursor;
pub use laws::cuts_join;
pub use matching::MatchingRows;
pub use scanning::Scan;
pub use whole::{ScanCount, scan};
