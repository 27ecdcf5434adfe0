// A batch whose files are written.
ghost use Rattle.std.specs.Prelude.{◌≡◌};
ghost use Rattle.mesa_open_files.specs.Errors.{load_error, load_failure};
ghost use Rattle.mesa_open_files.specs.declared.prepared.LoadError.TheVariants as load;

use crate::MadeFiles;
use mesa_batch::BatchError;
use mesa_delta::WriteError;
use mesa_schema::Totals;
use std::alloc::AllocError;

/// A batch as a turn publishes it: a part for each table with rows, by the tables' numbers.
#[derive(Drop)]
pub struct Prepared<M> {
    /// How often tables, views and columns had changed when the batch was read by them.
    pub generation: u64,
    pub parts: Vec<PreparedPart<M>>,
}

/// A table's part of a batch.
#[derive(Drop)]
pub struct PreparedPart<M> {
    pub table: u16,
    /// None in every part where a total of the batch passes the bound by itself: such a batch is refused.
    pub files: Option<MadeFiles<M>>,
    /// For each sum column the absolute values of the part's rows, added up; one above 2^127 - 1 stands as 2^127.
    pub totals: Totals,
}

/// Why a batch has no files.
#[derive(Clone, Copy, Debug, PartialEq, Eq)]
pub enum LoadError {
    /// The rows make no batch. The reason is never want of memory.
    Batch(BatchError),
    /// A call of the bench or of a draft failed, and the bench's count of faults rose.
    Draft,
    Memory,
}

impl From<AllocError> for LoadError {
    ghost from_gives = { λ _ e. e ≡ load.Memory };

    fn from(_: AllocError) -> Self {
        LoadError::Memory
    }
}

impl From<BatchError> for LoadError {
    ghost from_gives = { λ b e. e ≡ load_error b };

    fn from(error: BatchError) -> Self {
        match error {
            BatchError::Memory => LoadError::Memory,
            other => LoadError::Batch(other),
        }
    }
}

impl From<WriteError> for LoadError {
    ghost from_gives = { λ w e. e ≡ load_failure w };

    fn from(error: WriteError) -> Self {
        match error {
            WriteError::Draft => LoadError::Draft,
            WriteError::Memory => LoadError::Memory,
        }
    }
}
