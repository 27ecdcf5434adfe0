// What is recorded of files.
use mesa_file::FileId;

/// What an opening tests of a file that the catalogue names.
#[derive(Clone, Copy)]
pub struct Recorded {
    pub id: FileId,
    pub len: u64,
    /// The place at which the file's tail begins.
    pub tail: u64,
    /// The SHA-256 of the tail.
    pub digest: [u8; 32],
}
