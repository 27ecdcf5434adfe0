// A block's place in a file, as the file's tail tells it.
ghost use Rattle.std.specs.Prelude.{◌≡◌, ◌*◌, ℕ, List, length, flat_map, IsTrue, ◌↔◌, IfOk};
ghost use Rattle.std.specs.List.{AllByRecursion};
ghost use Rattle.mesa_delta_format.specs.Places.{spelled, Follow, HasWidths, shorts_of};
ghost use Rattle.mesa_delta_format.specs.Seeking.{NeverFall};

use crate::seeking::is_at_most;
use byteorder::{BigEndian, ByteOrder};
use mesa_block::MOST_BYTES;
use std::alloc::{AllocError, Global};

/// How many bytes a block's entry has.
pub const ENTRY_BYTES: usize = 60;

/// A block's entry in the tail.
#[derive(Clone, Copy, Debug, PartialEq, Eq)]
pub struct Entry {
    /// The short key of the block's first key.
    pub short: [u8; 16],
    /// Where the block begins.
    pub offset: u64,
    /// In bytes.
    pub len: u32,
    /// The SHA-256 of the block.
    pub digest: [u8; 32],
}

// The entry that these bytes spell.
fn read_entry(bytes: &[u8]) -> Entry
    requires { length bytes.now ≡ 60 }
    ensures spelled { spelled result ≡ bytes.now }
    ensures widths { HasWidths result }
{
    let mut short = [0; 16];
    short.copy_from_slice(&bytes[..16]);
    let mut digest = [0; 32];
    digest.copy_from_slice(&bytes[28..]);
    Entry {
        short,
        offset: BigEndian::read_u64(&bytes[16..24]),
        len: BigEndian::read_u32(&bytes[24..28]),
        digest,
    }
}

/// The entries that these bytes spell.
pub fn read_entries(alloc: Global, bytes: &[u8], count: usize) -> Result<Vec<Entry>, AllocError>
    requires { length bytes.now ≡ 60 * count }
    ensures spelled { IfOk result (λ v. flat_map spelled v.items ≡ bytes.now) }
    ensures widths { IfOk result (λ v. AllByRecursion HasWidths v.items) }
    ensures count { IfOk result (λ v. length v.items ≡ count) }
{
    let mut entries = Vec::with_capacity(alloc, count)?;
    for i in 0..count {
        let at = ENTRY_BYTES * i;
        entries.push(read_entry(&bytes[at..at + ENTRY_BYTES]))?;
    }
    Ok(entries)
}

/// Whether the blocks stand one after the other from the file's start to this place.
pub fn follow(entries: &[Entry], place: u64) -> bool
    ensures { IsTrue result ↔ Follow 0 entries.now place }
{
    let mut at = 0;
    for entry in entries {
        if entry.offset != at || entry.len == 0 || entry.len as usize > MOST_BYTES {
            return false;
        }
        if entry.len as u64 > place - at {
            return false;
        }
        at += entry.len as u64;
    }
    at == place
}

/// Whether the short keys never fall.
pub fn never_fall(entries: &[Entry]) -> bool
    ensures { IsTrue result ↔ NeverFall (shorts_of entries.now) }
{
    for i in 1..entries.len() {
        if !is_at_most(&entries[i - 1].short, &entries[i].short) {
            return false;
        }
    }
    true
}
