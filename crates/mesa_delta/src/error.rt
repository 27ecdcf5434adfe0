// Why a file isn't written or read.
ghost use Rattle.std.specs.Prelude.{◌≡◌};
ghost use Rattle.mesa_delta.specs.declared.error.FileError.TheVariants as file_error;
ghost use Rattle.mesa_delta.specs.declared.error.WriteError.TheVariants.{Draft as DraftFault, Memory as WantOfMemory};
ghost use Rattle.mesa_delta.specs.Faults.{write_error};

use mesa_disk::{Damage, DraftError, ReadFailed};
use std::alloc::{AllocError, AllocFailed};
use thiserror::Error;

/// Why a file isn't written. Its draft may then only be given back to its bench.
#[derive(Clone, Copy, Debug, PartialEq, Eq)]
pub enum WriteError {
    /// A call of the draft failed, and its count of faults rose.
    Draft,
    /// Want of memory, or more rows or blocks than a file can count.
    Memory,
}

impl From<AllocError> for WriteError {
    ghost from_gives = { λ _ e. e ≡ WantOfMemory };

    fn from(_: AllocError) -> Self {
        WriteError::Memory
    }
}

impl<T: Drop> From<AllocFailed<T>> for WriteError {
    ghost from_gives = { λ _ e. e ≡ WantOfMemory };

    fn from(_: AllocFailed<T>) -> Self {
        WriteError::Memory
    }
}

impl From<DraftError> for WriteError {
    ghost from_gives = { λ d e. e ≡ write_error d };

    fn from(error: DraftError) -> Self {
        match error {
            DraftError::Failed => WriteError::Draft,
            DraftError::Memory => WriteError::Memory,
        }
    }
}

/// Why a file isn't read.
#[derive(Clone, Copy, Debug, PartialEq, Eq, Error)]
pub enum FileError {
    /// A call of the reader failed, and its count of faults rose.
    #[error("the file could not be read")]
    Read,
    /// The file isn't the one that was recorded.
    #[error("the file is damaged")]
    Damaged(Damage),
    #[error("no memory")]
    Memory,
}

impl From<AllocError> for FileError {
    ghost from_gives = { λ _ e. e ≡ file_error.Memory };

    fn from(_: AllocError) -> Self {
        FileError::Memory
    }
}

impl<T: Drop> From<AllocFailed<T>> for FileError {
    ghost from_gives = { λ _ e. e ≡ file_error.Memory };

    fn from(_: AllocFailed<T>) -> Self {
        FileError::Memory
    }
}

impl From<ReadFailed> for FileError {
    ghost from_gives = { λ _ e. e ≡ file_error.Read };

    fn from(_: ReadFailed) -> Self {
        FileError::Read
    }
}
