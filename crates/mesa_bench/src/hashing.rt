// The work of SHA-256 alone.
use sha2::{Digest, Sha256};
use std::alloc::{AllocError, Global};

// How many bytes a block of 1,024 rows has.
const BLOCK: usize = 32_771;

/// Takes the digest of each block of so many bytes, and of what is left. How many of them begin with an odd byte
/// is told, so that none is left out.
pub fn digest_blocks(alloc: Global, bytes: u64) -> Result<u64, AllocError> {
    let block = vec![in alloc; 7; BLOCK]?;
    let mut odd: u64 = 0;
    for _ in 0..bytes / BLOCK as u64 {
        let digest = Sha256::digest(block.as_slice());
        odd = odd.wrapping_add(u64::from(digest[0] & 1));
    }
    let left = (bytes % BLOCK as u64) as usize;
    let digest = Sha256::digest(&block[..left]);
    Ok(odd.wrapping_add(u64::from(digest[0] & 1)))
}
