// Why a relation isn't looked at.
ghost use Rattle.std.specs.Prelude.{◌≡◌};
ghost use Rattle.mesa_store_digest.specs.Errors.{look_failure};
ghost use Rattle.mesa_store_digest.specs.declared.error.LookError.TheVariants as look_error;

use mesa_delta::FileError;
use std::alloc::AllocError;

/// Why a relation isn't looked at, the first reason that applies.
#[derive(Clone, Copy, Debug, PartialEq, Eq)]
pub enum LookError {
    /// No table and no view has the name.
    NoTable,
    /// There is no version yet.
    NoVersion,
    /// A file wasn't read, or isn't the recorded one.
    File(FileError),
    Memory,
}

impl From<AllocError> for LookError {
    ghost from_gives = { λ _ e. e ≡ look_error.Memory };

    fn from(_: AllocError) -> Self {
        LookError::Memory
    }
}

impl From<FileError> for LookError {
    ghost from_gives = { λ fault e. e ≡ look_failure fault };

    fn from(error: FileError) -> Self {
        match error {
            FileError::Memory => LookError::Memory,
            FileError::Read | FileError::Damaged(_) => LookError::File(error),
        }
    }
}
