// Guesses where groups stand.
use std::alloc::{AllocError, Global};

// How many guesses there are for few groups, and for many.
const FEW: usize = 1_024;

const MANY: usize = 16_384;

// An odd number whose bits look random: a product with it spreads over the upper bits, whichever bits two numbers differ in.
const SPREAD: u64 = 0x9e37_79b9_7f4a_7c15;

/// At which place the group of a key may stand, by a hash of the key. Nothing is claimed of a guess: who asks looks whether the key stands there.
#[derive(Drop)]
pub(crate) struct Guesses {
    // A place for each slot, that which was noted last.
    places: Vec<u32>,
}

impl Guesses {
    /// None yet. It takes no memory.
    pub(crate) fn new(alloc: Global) -> Self {
        Guesses {
            places: Vec::new(alloc),
        }
    }

    /// The place at which the group of a key may stand.
    pub(crate) fn place(&self, key: &[u8]) -> Option<usize> {
        let slot = slot_of(key, self.places.len());
        Some(*self.places.get(slot)? as usize)
    }

    /// Guesses this place for the key from now on.
    pub(crate) fn note(&mut self, key: &[u8], place: usize) {
        let slot = slot_of(key, self.places.len());
        if let Some(guess) = self.places.get_mut(slot)
            && let Ok(place) = u32::try_from(place)
        {
            *guess = place;
        }
    }

    /// Makes the table as long as serves so many groups. What was noted is mostly lost where it grows, and is noted again when it was looked for.
    pub(crate) fn serve(&mut self, groups: usize) -> Result<(), AllocError> {
        let slots = if groups <= FEW / 2 { FEW } else { MANY };
        if self.places.len() < slots {
            self.places.resize(slots, 0)?;
        }
        Ok(())
    }
}

// The slot of a key: by the upper bits of its hash, since the lower ones of days and other small numbers say little.
fn slot_of(key: &[u8], slots: usize) -> usize {
    ((hash_of(key) >> 32).wrapping_mul(slots as u64) >> 32) as usize
}

// A number that depends on all bytes of a key.
fn hash_of(key: &[u8]) -> u64 {
    let mut hash: u64 = 0;
    for piece in key.chunks(8) {
        hash = (hash.rotate_left(5) ^ number_in(piece)).wrapping_mul(SPREAD);
    }
    hash
}

// The number that up to eight bytes spell, the highest first.
fn number_in(piece: &[u8]) -> u64 {
    match <[u8; 8]>::try_from(piece) {
        Ok(eight) => u64::from_be_bytes(eight),
        Err(_) => piece
            .iter()
            .fold(0, |number: u64, byte| (number << 8) ^ u64::from(*byte)),
    }
}
