// Why bytes are no block.
ghost use Rattle.std.specs.Prelude.{◌≡◌};
ghost use Rattle.mesa_block.specs.declared.error.BlockError.TheVariants.{Memory};

use std::alloc::{AllocError, AllocFailed};

/// What is wrong with the bytes of a block, the first fault in this order: the three bytes of the head, the flag, the count, all that is missing, texts, order, and what stands behind the block.
#[derive(Clone, Copy, Debug, PartialEq, Eq)]
pub enum BlockError {
    /// The bytes end within the head or within a column.
    Truncated,
    /// No rows, or more than 1,024.
    BadCount,
    /// The text of this row, counted from 0, is no text of a key: the first in the order of the bytes, so column by column.
    BadText { row: u16 },
    /// The key of this row, counted from 0, isn't greater than the one before.
    OutOfOrder { row: u16 },
    /// Bytes stand behind the block, or behind the 65,536th byte.
    Trailing,
    /// The flag isn't 0: compressed blocks aren't read.
    Compressed,
    Memory,
}

impl From<AllocError> for BlockError {
    ghost from_gives = { λ _ e. e ≡ Memory };

    fn from(_: AllocError) -> Self {
        BlockError::Memory
    }
}

impl<T: Drop> From<AllocFailed<T>> for BlockError {
    ghost from_gives = { λ _ e. e ≡ Memory };

    fn from(_: AllocFailed<T>) -> Self {
        BlockError::Memory
    }
}
