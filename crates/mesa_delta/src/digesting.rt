// Digests that are taken side by side.
ghost use Rattle.std.specs.Prelude.{◌≡◌, ℕ, List, IfSome};
ghost use Rattle.sha2.specs.Sha256.{sha256};

use mesa_sha256::digests;
use sha2::{Digest, Sha256};
use std::alloc::{AllocError, Global};

/// Bytes that keep their digest once it was taken.
pub trait Message {
    /// The bytes.
    ghost bytes_of: { Self → List ℕ };

    /// The bytes.
    fn bytes(&self) -> &[u8]
        ensures { result.now ≡ bytes_of self.now };

    /// Keeps the digest of the bytes.
    fn keep(&mut self, digest: [u8; 32])
        requires { digest ≡ sha256 (bytes_of self.old) }
        ensures { self.new ≡ self.old };
}

/// The digest of bytes: the one that was kept, or else taken now.
pub fn digest_of(kept: Option<[u8; 32]>, bytes: &[u8]) -> [u8; 32]
    requires { IfSome kept (λ d. d ≡ sha256 bytes.now) }
    ensures { result ≡ sha256 bytes.now }
{
    match kept {
        Some(digest) => digest,
        None => Sha256::digest(bytes),
    }
}

/// Takes the digests of two to four messages side by side, where that is less work than one by one, and says whether it did.
pub fn take_digests<M: Message>(alloc: Global, messages: &mut [M]) -> Result<bool, AllocError>
    ensures { messages.new ≡ messages.old }
{
    if messages.len() < 2 || !gains(messages) {
        return Ok(false);
    }
    let last = messages.len() - 1;
    let four = digests(
        alloc,
        messages[0].bytes(),
        messages[1].bytes(),
        messages[last.min(2)].bytes(),
        messages[last.min(3)].bytes(),
    )?;
    messages[0].keep(four.a);
    messages[1].keep(four.b);
    if last >= 2 {
        messages[2].keep(four.c);
    }
    if last >= 3 {
        messages[3].keep(four.d);
    }
    Ok(true)
}

// Whether digests side by side are less work: as long as the shortest message lasts they take 1.9 times as long as one, and what is left of a longer one takes 1.9 times as long as it would alone. So two that are nearly as long as one another gain too, if little.
fn gains<M: Message>(messages: &[M]) -> bool {
    let mut all: usize = 0;
    let mut least = usize::MAX;
    for message in messages {
        let len = message.bytes().len();
        all = all.saturating_add(len);
        least = least.min(len);
    }
    let left = all.saturating_sub(least.saturating_mul(messages.len()));
    least.saturating_add(left).saturating_mul(19) <= all.saturating_mul(10)
}
