// Why a store isn't checked.
ghost use Rattle.std.specs.Prelude.{◌≡◌};
ghost use Rattle.mesa_examine.specs.declared.error.CheckError.TheVariants as check_error;

use std::alloc::{AllocError, AllocFailed};
use thiserror::Error;

/// Why a store isn't checked.
#[derive(Clone, Copy, Debug, PartialEq, Eq, Error)]
pub enum CheckError {
    /// A call of the disk or of a reader failed, and a count of the disk's faults rose.
    #[error("a file could not be read")]
    Read,
    #[error("no memory")]
    Memory,
}

impl From<AllocError> for CheckError {
    ghost from_gives = { λ _ e. e ≡ check_error.Memory };

    fn from(_: AllocError) -> Self {
        CheckError::Memory
    }
}

impl<T: Drop> From<AllocFailed<T>> for CheckError {
    ghost from_gives = { λ _ e. e ≡ check_error.Memory };

    fn from(_: AllocFailed<T>) -> Self {
        CheckError::Memory
    }
}
