//! A disk: two journal areas and files that are adopted whole; what a read gives, and what a crash may leave.
#![tactic(auto)]

mod area;
mod disk;
mod draft;
mod failures;
mod file;
mod memory;
mod moving;

pub use area::Area;
pub use disk::Disk;
pub use draft::{Bench, Draft};
pub use failures::{DiskFailed, DraftError, ListFault, OpenFault, ReadFailed};
pub use file::{FileReader, Made};
pub use memory::{MemBench, MemDisk, MemDraft, MemMade, MemReader};
pub use mesa_file::{Damage, FileId, FileRef, Seen};
pub use moving::{Adoption, adopt_all, remove_all};

/// A list of bytes.
pub type ByteList = mesa_file::Items<u8>;
