// The merge of a range of versions, and what comes of it.
ghost use Rattle.std.specs.Prelude.{◌≡◌};
ghost use Rattle.mesa_delta.specs.declared.error.FileError.TheVariants as file_error;
ghost use Rattle.mesa_open_files.specs.Errors.{compact_failure};
ghost use Rattle.mesa_open_files.specs.declared.merging.CompactError.TheVariants as compact;

use crate::MadeFiles;
use mesa_delta::{FileError, Input, WriteError};
use mesa_file::Damage;
use mesa_span::Work;
use std::alloc::AllocError;

/// A range of versions that is to be merged into one delta. Its views' files are made from the merged rows.
#[derive(Drop)]
pub struct Task<R> {
    pub table: u16,
    pub work: Work,
    /// The number of the lease under which the range was granted.
    pub lease: u64,
    /// The epoch of the new delta's rows: the table's present one.
    pub epoch: u32,
    /// The table's files of the range, in version order.
    pub inputs: Vec<Input<R>>,
    /// The first file that was absent or damaged when the files were opened; the merge answers it.
    pub damage: Option<Damage>,
    /// Further readers of the same files, for each part after the first of a merge in parts. None where a file is
    /// damaged.
    pub spare: Vec<Spare<R>>,
}

/// Readers of a task's files for one more part of its merge, in the task's order.
#[derive(Drop)]
pub struct Spare<R> {
    pub inputs: Vec<Input<R>>,
}

/// The finished files of a merged range; none where it has no rows.
#[derive(Drop)]
pub struct NewDelta<M> {
    pub files: Option<MadeFiles<M>>,
}

/// Why a range isn't merged.
#[derive(Clone, Copy, Debug, PartialEq, Eq)]
pub enum CompactError {
    /// A call of the bench or of a draft failed, and the bench's count of faults rose.
    Draft,
    /// A file was not read, or there is no memory.
    File(FileError),
}

impl From<AllocError> for CompactError {
    ghost from_gives = { λ _ e. e ≡ compact.File file_error.Memory };

    fn from(_: AllocError) -> Self {
        CompactError::File(FileError::Memory)
    }
}

impl From<FileError> for CompactError {
    ghost from_gives = { λ f e. e ≡ compact.File f };

    fn from(error: FileError) -> Self {
        CompactError::File(error)
    }
}

impl From<WriteError> for CompactError {
    ghost from_gives = { λ w e. e ≡ compact_failure w };

    fn from(error: WriteError) -> Self {
        match error {
            WriteError::Draft => CompactError::Draft,
            WriteError::Memory => CompactError::File(FileError::Memory),
        }
    }
}
