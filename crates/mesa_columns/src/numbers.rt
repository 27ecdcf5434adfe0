// Numbers and key values, as the bytes of a script spell them.
ghost use Rattle.std.specs.Prelude.{◌≡◌, ◌<◌, ◌^◌, IfOk, IfSome};
ghost use Rattle.mesa_key.specs.mesa_value.declared.Agg.TheVariants as agg;
ghost use Rattle.mesa_columns.specs.Numbers.{amount_of, key_value_of, number_of, signed_of};

use mesa_key::{Agg, Amount, Items, KeyText, KeyType, KeyValue};
use std::alloc::{AllocError, Global};

/// The signed number that the bytes spell: an optional `+` or `-` and decimal digits, with a value of 64 bits.
pub fn signed(bytes: &[u8]) -> Option<i64>
    ensures { result ≡ signed_of bytes.now }
{
    match bytes {
        [b'-', digits @ ..] => match small(digits) {
            Some(number) => Some(-(number as i64)),
            None => parsed(bytes),
        },
        _ => match small(bytes) {
            Some(number) => Some(number as i64),
            None => parsed(bytes),
        },
    }
}

// The number that digits alone spell, where each step to it keeps below 2 ^ 63.
fn small(bytes: &[u8]) -> Option<u64>
    ensures read { IfSome result (λ n. number_of bytes.now ≡ Some n) }
    ensures below { IfSome result (λ n. n < 2 ^ 63) }
{
    if bytes.is_empty() {
        return None;
    }
    let mut number: u64 = 0;
    'digits: for byte in bytes {
        if !byte.is_ascii_digit() {
            return None;
        }
        if number > 900_000_000_000_000_000 {
            return None;
        }
        number = 10 * number + (*byte - b'0') as u64;
    }
    Some(number)
}

// What std's parsing reads.
fn parsed(bytes: &[u8]) -> Option<i64>
    ensures { result ≡ signed_of bytes.now }
{
    match str::from_utf8(bytes) {
        Ok(text) => text.parse().ok(),
        Err(_) => None,
    }
}

/// The value of a value column that the bytes spell: a signed number, of 128 bits in a sum column and of 64 bits in another.
pub fn amount(agg: Agg, bytes: &[u8]) -> Option<Amount>
    ensures { result ≡ amount_of agg bytes.now }
{
    // Most sums are small numbers too, which are read without std.
    match (signed(bytes), agg) {
        (Some(number), _) => Some(Amount::from(number)),
        (None, Agg::Sum) => wide(bytes),
        (None, _) => None,
    }
}

// What std's parsing reads of 128 bits.
fn wide(bytes: &[u8]) -> Option<Amount>
    ensures { result ≡ amount_of agg.Sum bytes.now }
{
    match str::from_utf8(bytes) {
        Ok(text) => text.parse().ok(),
        Err(_) => None,
    }
}

/// The value of a key column that the bytes spell: a signed number, or the bytes of a text.
pub fn key_value(alloc: Global, kind: KeyType, bytes: &[u8]) -> Result<Option<KeyValue>, AllocError>
    ensures { IfOk result (λ value. value ≡ key_value_of kind bytes.now) }
{
    match kind {
        KeyType::Int => Ok(signed(bytes).map(KeyValue::Int)),
        KeyType::Text if KeyText::allows(bytes) => {
            let text = KeyText::new(Items::from_bytes(alloc, bytes)?);
            Ok(Some(KeyValue::Text(text)))
        }
        KeyType::Text => Ok(None),
    }
}
