// The order of keys, by their bytes.
ghost use Rattle.std.specs.Prelude.{◌≡◌, ◌≤◌, drop, length, take};
ghost use Rattle.std.specs.Int.{from_be_bytes, w64};
ghost use Rattle.std.specs.Ordering.{ordering_then};
ghost use Rattle.mesa_key.specs.Order.{byte_cmp, short_key};

use std::cmp::Ordering;

/// The order of two keys of the same types, by their bytes. Eight of them are compared at once, as a number.
pub fn compare(mut a: &[u8], mut b: &[u8]) -> Ordering
    ensures { result ≡ byte_cmp a.now b.now }
{
    'eights: while a.len() >= 8 && b.len() >= 8 {
        match compare_eights(a, b) {
            Ordering::Equal => {
                a = &a[8..];
                b = &b[8..];
            }
            order => return order,
        }
    }
    a.cmp(b)
}

// How the first eight bytes are ordered, which decide before those behind them.
fn compare_eights(a: &[u8], b: &[u8]) -> Ordering
    requires a { 8 ≤ length a.now }
    requires b { 8 ≤ length b.now }
    ensures { ordering_then result (byte_cmp (drop 8 a.now) (drop 8 b.now)) ≡ byte_cmp a.now b.now }
{
    first_eight(a).cmp(&first_eight(b))
}

// The first eight bytes as one number.
fn first_eight(key: &[u8]) -> u64
    requires { 8 ≤ length key.now }
    ensures { result ≡ from_be_bytes w64 (take 8 key.now) }
{
    u64::from_be_bytes([
        key[0], key[1], key[2], key[3], key[4], key[5], key[6], key[7],
    ])
}

/// The first 16 bytes of a key, filled with zeros: the short key, in whose order keys never fall.
pub fn short(bytes: &[u8]) -> [u8; 16]
    ensures { result ≡ short_key bytes.now }
{
    let len = bytes.len().min(16);
    let mut short = [0; 16];
    short[..len].copy_from_slice(&bytes[..len]);
    short
}
