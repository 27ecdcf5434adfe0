// Why a store isn't opened.
ghost use Rattle.std.specs.Prelude.{◌≡◌};
ghost use Rattle.mesa_recover.specs.declared.error.OpenError.TheVariants as open_error;
ghost use Rattle.mesa_recover.specs.Checking.{list_refusal};

use mesa_disk::{Damage, DiskFailed, ListFault, ReadFailed, Seen};
use std::alloc::{AllocError, AllocFailed};
use thiserror::Error;

/// Why a store isn't opened.
#[derive(Clone, Copy, Debug, PartialEq, Eq, Error)]
pub enum OpenError {
    /// A call of the disk or of a reader failed, and a count of the disk's faults rose.
    #[error("the disk failed")]
    Fault,
    /// The journal in this area is damaged. Where it ends before a record does, the lengths that are wanted
    /// and found are told. Where a body isn't a record that fits what stands before it, what is found is a
    /// misfit at the body's first wrong offset, 0 where it spells a record. `at` is the place of the gate.
    #[error("the journal is damaged at {at}")]
    Journal {
        area: u8,
        at: u64,
        want: Seen,
        found: Seen,
    },
    /// A file that the catalogue names is absent, has another length, or its tail has another digest.
    #[error("a file is damaged")]
    File(Damage),
    /// There was a last run: no number is left for another.
    #[error("no run is left")]
    RunsFull,
    #[error("no memory")]
    Memory,
}

impl From<AllocError> for OpenError {
    ghost from_gives = { λ _ e. e ≡ open_error.Memory };

    fn from(_: AllocError) -> Self {
        OpenError::Memory
    }
}

impl<T: Drop> From<AllocFailed<T>> for OpenError {
    ghost from_gives = { λ _ e. e ≡ open_error.Memory };

    fn from(_: AllocFailed<T>) -> Self {
        OpenError::Memory
    }
}

impl From<DiskFailed> for OpenError {
    ghost from_gives = { λ _ e. e ≡ open_error.Fault };

    fn from(_: DiskFailed) -> Self {
        OpenError::Fault
    }
}

impl From<ReadFailed> for OpenError {
    ghost from_gives = { λ _ e. e ≡ open_error.Fault };

    fn from(_: ReadFailed) -> Self {
        OpenError::Fault
    }
}

impl From<Damage> for OpenError {
    ghost from_gives = { λ d e. e ≡ open_error.File d };

    fn from(damage: Damage) -> Self {
        OpenError::File(damage)
    }
}

impl From<ListFault> for OpenError {
    ghost from_gives = { λ f e. e ≡ list_refusal f };

    fn from(fault: ListFault) -> Self {
        match fault {
            ListFault::Failed => OpenError::Fault,
            ListFault::Memory => OpenError::Memory,
        }
    }
}
