// A load's rows as a script has them, and why they make no batch.
use mesa_list::Fields;
use mesa_schema::Words;
use std::alloc::AllocError;

/// A row as the script has it: key fields, then value fields. `LoadRows` keeps rows of a load, and lends them.
#[derive(Drop)]
pub struct RowWords {
    pub table: Words,
    pub fields: Fields,
}

/// Why a load's rows make no batch, the first reason from the first row on. Rows and columns count from 1, key columns before value columns.
#[derive(Clone, Copy, Debug, PartialEq, Eq)]
pub enum BatchError {
    NoTable { row: u64 },
    /// The row's first column whose field is missing or can't be read; one more than the columns where fields are left over.
    BadRow { row: u64, column: u16 },
    /// The row `second` has the table and the key of the earlier row `first`.
    DuplicateKey { first: u64, second: u64 },
    Memory,
}

impl From<AllocError> for BatchError {
    ghost use Rattle.std.specs.Prelude.{◌≡◌};
    ghost use Rattle.mesa_batch.specs.declared.words.BatchError.TheVariants.{Memory};

    ghost from_gives = { λ _ e. e ≡ Memory };

    fn from(_: AllocError) -> Self {
        BatchError::Memory
    }
}
