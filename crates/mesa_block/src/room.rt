// The room that a block has.
ghost use Rattle.std.specs.Prelude.{◌≡◌};
ghost use Rattle.mesa_columns.specs.Lent.{lent};
ghost use Rattle.mesa_block.specs.Fill.{is_full as is_full_of};

use crate::{MOST_BYTES, MOST_ROWS};
use mesa_columns::LentRow;

/// Whether a block with so many rows and so many bytes has no room for the row, whose values take so many bytes.
pub fn is_full(size: usize, rows: usize, len: usize, row: LentRow) -> bool
    ensures { result ≡ is_full_of size rows len (lent row.entry) }
{
    if rows >= MOST_ROWS {
        return true;
    }
    let key_len = row.key.len();
    if len > MOST_BYTES || key_len > MOST_BYTES || size > MOST_BYTES {
        return true;
    }
    len + (key_len + size) > MOST_BYTES
}
