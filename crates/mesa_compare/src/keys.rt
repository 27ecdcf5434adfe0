// Where two streams of rows differ that were the same so far.
ghost use Rattle.std.specs.Prelude.{◌≡◌, IfNone, IfOk, IfSome, option_map};
ghost use Rattle.mesa_schema.specs.mesa_columns.Lent.{lent};
ghost use Rattle.mesa_compare.specs.Compared.{Shows};

use crate::differing_key;
use mesa_schema::{KeyBytes, LentRow};
use std::alloc::{AllocError, Global};

/// The first key at which two streams differ whose next rows are these, and None where the rows are the same. No row stands for the end of a stream.
pub(crate) fn difference_at(
    alloc: Global,
    one: Option<LentRow>,
    other: Option<LentRow>,
) -> Result<Option<KeyBytes>, AllocError>
    ensures same { IfOk result (λ o. IfNone o (option_map lent one.entry ≡ option_map lent other.entry)) }
    ensures first { IfOk result (λ o. IfSome o (λ key. Shows key (option_map lent one.entry) (option_map lent other.entry))) }
{
    match differing_key(one, other) {
        Some(key) => Ok(Some(KeyBytes::from_bytes(alloc, key)?)),
        None => Ok(None),
    }
}
