// The bytes of key types and aggregations.
ghost use Rattle.std.specs.Prelude.{◌≡◌};
ghost use Rattle.mesa_columns.specs.Codes.{agg_byte as byte_of_agg, agg_of, kind_byte as byte_of_kind, kind_of};

use mesa_key::{Agg, KeyType};

/// A key type's byte in files and in the journal.
pub fn kind_byte(kind: KeyType) -> u8
    ensures { result ≡ byte_of_kind kind }
{
    match kind {
        KeyType::Int => 0,
        KeyType::Text => 1,
    }
}

/// The key type of a byte.
pub fn kind_of_byte(byte: u8) -> Option<KeyType>
    ensures { result ≡ kind_of byte }
{
    match byte {
        0 => Some(KeyType::Int),
        1 => Some(KeyType::Text),
        _ => None,
    }
}

/// An aggregation's byte in files and in the journal.
pub fn agg_byte(agg: Agg) -> u8
    ensures { result ≡ byte_of_agg agg }
{
    match agg {
        Agg::Sum => 0,
        Agg::Min => 1,
        Agg::Max => 2,
        Agg::Replace => 3,
    }
}

/// The aggregation of a byte.
pub fn agg_of_byte(byte: u8) -> Option<Agg>
    ensures { result ≡ agg_of byte }
{
    match byte {
        0 => Some(Agg::Sum),
        1 => Some(Agg::Min),
        2 => Some(Agg::Max),
        3 => Some(Agg::Replace),
        _ => None,
    }
}
