// The digests of a relation's rows.
ghost use Rattle.std.specs.Prelude.{◌≡◌, IfOk};
ghost use Rattle.mesa_columns.specs.Rows.{AreRowsOf};
ghost use Rattle.mesa_digest.specs.Digests.{digests_of};

use crate::hashing::{add_row, mark};
use crate::naming::{Naming, spell};
use mesa_columns::{RowList, Schema};
use sha2::{Digest, Sha256};
use std::alloc::{AllocError, Global};

/// Digests of a relation's rows.
#[derive(Clone, Copy, Debug, PartialEq, Eq)]
pub struct DigestPair {
    /// How many rows there are.
    pub rows: u64,
    /// The SHA-256 of all rows in key order: of each its key bytes, and 16 bytes for each value.
    pub ordered: [u8; 32],
    /// A sum over the rows, each spelled by the names of its columns. It hangs neither on the order of the rows nor on that of the columns.
    pub set: u128,
}

/// The digests of rows of these columns. A row at a time is spelled, in room that is used again.
pub fn digests(alloc: Global, rows: &RowList, schema: &Schema) -> Result<DigestPair, AllocError>
    requires { AreRowsOf schema.now rows.now }
    ensures { IfOk result (λ pair. pair ≡ digests_of schema.now rows.now) }
{
    let naming = Naming::of(alloc, schema)?;
    let mut hasher = Sha256::new();
    let mut set: u128 = 0;
    let mut spelled = Vec::new(alloc);
    let rows = rows.as_slice();
    'rows: for row in rows {
        add_row(&mut hasher, row);
        spell(schema, &naming, row, &mut spelled)?;
        set = set.wrapping_add(mark(&spelled));
    }
    Ok(DigestPair {
        rows: rows.len() as u64,
        ordered: hasher.finalize(),
        set,
    })
}
