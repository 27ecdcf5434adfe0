use crate::FileId;
use mesa_key::{Format, KeyBytes, TryCopy, Values};
use std::alloc::AllocError;

/// All that is kept of a file of rows, to find it again and to tell whether it is whole.
#[derive(Drop)]
pub struct FileRef {
    /// How its blocks spell sums: format 1 for files that records of the first edition name.
    pub format: Format,
    pub id: FileId,
    /// In bytes.
    pub len: u64,
    /// At least one.
    pub rows: u64,
    /// At least one.
    pub blocks: u32,
    /// The bytes of the least key.
    pub first: KeyBytes,
    /// The bytes of the greatest key.
    pub last: KeyBytes,
    /// For each value column the sum, the least, the greatest, or 0 for a column that is replaced.
    pub aggregates: Values,
    /// The SHA-256 of the file's tail.
    pub digest: [u8; 32],
}

impl TryCopy for FileRef {
    fn copy(&self) -> Result<Self, AllocError> {
        Ok(FileRef {
            format: self.format,
            id: self.id,
            len: self.len,
            rows: self.rows,
            blocks: self.blocks,
            first: self.first.copy()?,
            last: self.last.copy()?,
            aggregates: self.aggregates.copy()?,
            digest: self.digest,
        })
    }
}
