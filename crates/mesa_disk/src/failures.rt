/// A file could not be read. The reader's count of faults rose.
#[derive(Clone, Copy, Debug, PartialEq, Eq)]
pub struct ReadFailed;

/// A call of a disk failed. The disk's count of faults rose.
#[derive(Clone, Copy, Debug, PartialEq, Eq)]
pub struct DiskFailed;

/// Why a file was not opened.
#[derive(Clone, Copy, Debug, PartialEq, Eq)]
pub enum OpenFault {
    /// The call failed, and the disk's count of faults rose.
    Failed,
    /// No such file is adopted.
    Absent,
    /// Want of memory.
    Memory,
}

/// Why the files were not listed.
#[derive(Clone, Copy, Debug, PartialEq, Eq)]
pub enum ListFault {
    /// The call failed, and the disk's count of faults rose.
    Failed,
    /// Want of memory.
    Memory,
}

/// Why a file was not written.
#[derive(Clone, Copy, Debug, PartialEq, Eq)]
pub enum DraftError {
    /// The call failed, and the count of the draft or of its bench rose.
    Failed,
    /// Want of memory.
    Memory,
}
