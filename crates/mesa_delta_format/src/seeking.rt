// Where to begin to look for a key.
ghost use Rattle.std.specs.Prelude.{◌≡◌, ◌<◌, ℕ, List, [], map, slice_index_or, length};
ghost use Rattle.std.specs.Ordering.{is_le};
ghost use Rattle.mesa_block.specs.mesa_key.Order.{byte_cmp, short_key};
ghost use Rattle.mesa_delta_format.specs.Places.{shorts_of};
ghost use Rattle.mesa_delta_format.specs.Seeking.{seek_in, NeverFall};

use crate::place::Entry;
use mesa_columns::{compare, short};
use std::cmp::Ordering;

/// Whether a short key is at most another.
pub fn is_at_most(key: &[u8; 16], short: &[u8; 16]) -> bool
    ensures { result ≡ is_le (byte_cmp key.now short.now) }
{
    match compare(key, short) {
        Ordering::Less => true,
        Ordering::Equal => true,
        Ordering::Greater => false,
    }
}

/// The block at which to begin to look for a key, by the short keys of the blocks' first keys: the least
/// that is the last one, or whose next has a short key at least this key's. It takes no memory.
pub fn seek(entries: &[Entry], key: &[u8]) -> usize
    requires { NeverFall (shorts_of entries.now) }
    ensures { result ≡ seek_in (short_key key.now) (shorts_of entries.now) }
{
    let key = short(key);
    let mut low = 0;
    let mut high = entries.len();
    while high - low > 1 {
        let middle = low + (high - low) / 2;
        if is_at_most(&key, &entries[middle].short) {
            high = middle;
        } else {
            low = middle;
        }
    }
    low
}
