// Bytes that go into digests.
ghost use Rattle.std.specs.Prelude.{◌≡◌, ◌++◌, ℕ, List};
ghost use Rattle.sha2.specs.Hashers.{Holds256};
ghost use Rattle.mesa_digest.specs.Digests.{amount_bytes, mark_of, row_bytes};

use mesa_columns::Row;
use mesa_value::Amount;
use sha2::{Digest, Sha256};

// A value's bytes.
pub(crate) fn bytes_of(value: Amount) -> [u8; 16]
    ensures { result ≡ amount_bytes value }
{
    value.to_be_bytes()
}

// Adds a row to a message.
pub(crate) fn add_row(hasher: &mut Sha256, row: &Row)
    ensures { (m : List ℕ) → Holds256 hasher.old m → Holds256 hasher.new (m ++ row_bytes row.now) }
{
    hasher.update(row.key.as_slice());
    'values: for value in row.values.as_slice() {
        hasher.update(bytes_of(*value).as_slice());
    }
}

// The mark of a row's named spelling.
pub(crate) fn mark(spelling: &[u8]) -> u128
    ensures { result ≡ mark_of spelling.now }
{
    let digest = Sha256::digest(spelling);
    let mut head = [0u8; 16];
    head.copy_from_slice(&digest[..16]);
    u128::from_be_bytes(head)
}
