// Files that wait to be removed, and the holds by which they wait.
use mesa_file::FileId;

/// What a pin holds: each file that was named in the turn in which it was made.
#[derive(Clone, Copy, Debug, PartialEq, Eq, Drop)]
pub struct Hold {
    /// The position of that turn.
    pub at: u64,
    /// The first id that no file had then.
    pub next: u64,
}

/// A file that is named no more.
#[derive(Clone, Copy, Debug, PartialEq, Eq, Drop)]
pub struct Dropped {
    pub id: FileId,
    /// The position of the turn that dropped it.
    pub at: u64,
}
