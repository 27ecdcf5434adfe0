//! The device work of a turn: files are adopted, a body is appended to the journal, and files are removed, as one
//! call, of which a crash at any moment leaves what was before the turn or what is after it.
//!
//! And which files may be removed: a file that is named no more waits while a pin made earlier may read it. A pin
//! keeps no list of files. It keeps the position of the turn in which it was made, and the first id that was
//! given to no file then. An id is given once, so a file was named in that turn exactly where its id was given
//! before it, and where it is named still or was dropped behind it.
#![tactic(auto)]

mod commit;
mod holding;
mod restating;
mod trash;

pub use commit::commit_turn;
pub use holding::{holds_tell_files, turns_keep_files};
pub use restating::restate;
pub use trash::{Dropped, Hold};
