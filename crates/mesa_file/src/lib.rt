//! What is told of a file of rows without reading it: its id, the reference by which it is found again, and how it can be
//! damaged; and the ids of a session's drafts, one after the other.
#![tactic(auto)]

mod damage;
mod file_id;
mod file_ref;
mod serials;

pub use damage::{Damage, Seen};
pub use file_id::FileId;
pub use file_ref::FileRef;
pub use mesa_key::{Items, TryCopy};
pub use serials::{Serials, draws_differ};
