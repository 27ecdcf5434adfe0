// Digests of four messages side by side.
ghost use Rattle.std.specs.Prelude.{◌≡◌, ◌<◌, ◌≤◌, ◌/◌, ℕ, List, length, IfOk};
ghost use Rattle.sha2.specs.Sha256.{compress, digest_bytes, hash_after, initial_hash_256, sha256};
ghost use Rattle.mesa_sha256.specs.Lanes.{lane, one_of};

use crate::compressing::compressed;
use crate::padding::{Padded, tail_of};
use std::alloc::{AllocError, Global};
use std::simd::prelude::*;

/// The digests of four messages.
#[derive(Clone, Copy)]
pub struct Four {
    pub a: [u8; 32],
    pub b: [u8; 32],
    pub c: [u8; 32],
    pub d: [u8; 32],
}

// Puts a block more of each message into their states.
#[inline(always)]
fn absorb(state: &mut [u32x4; 8], a: &[u8], b: &[u8], c: &[u8], d: &[u8])
    requires a { length a.now ≡ 64 }
    requires b { length b.now ≡ 64 }
    requires c { length c.now ≡ 64 }
    requires d { length d.now ≡ 64 }
    ensures { (l : ℕ) → l < 4 → lane l state.new ≡ compress (lane l state.old) (one_of l a.now b.now c.now d.now) }
{
    let next = compressed(*state, a, b, c, d);
    *state = next;
}

// Puts the first blocks of four messages into their states.
fn absorb_all(state: &mut [u32x4; 8], a: &Padded, b: &Padded, c: &Padded, d: &Padded, count: usize)
    requires a { count ≤ length a.now / 64 }
    requires b { count ≤ length b.now / 64 }
    requires c { count ≤ length c.now / 64 }
    requires d { count ≤ length d.now / 64 }
    ensures { (l : ℕ) → l < 4 → lane l state.new ≡ hash_after (lane l state.old) (one_of l a.now b.now c.now d.now) count }
{
    for i in 0..count {
        absorb(state, a.block(i), b.block(i), c.block(i), d.block(i));
    }
}

// Puts the blocks of one message that are left into each state.
fn absorb_rest(state: &mut [u32x4; 8], message: &Padded, from: usize)
    requires { from ≤ length message.now / 64 }
    ensures { (l : ℕ) (h : List ℕ) → l < 4 → lane l state.old ≡ hash_after h message.now from → lane l state.new ≡ hash_after h message.now (length message.now / 64) }
{
    for i in from..message.count() {
        let block = message.block(i);
        absorb(state, block, block, block, block);
    }
}

// The bytes of one state.
fn bytes_of(state: &[u32x4; 8], l: usize) -> [u8; 32]
    requires { l < 4 }
    ensures { result ≡ digest_bytes (lane l state.now) 8 }
{
    let mut out = [0u8; 32];
    'words: for i in 0..8 {
        let word = state[i].to_array()[l];
        out[4 * i..4 * i + 4].copy_from_slice(&word.to_be_bytes());
    }
    out
}

// The digest of the message of a lane, of which so many blocks were put into the states.
fn finished(state: &[u32x4; 8], l: usize, message: &Padded, from: usize) -> [u8; 32]
    requires lane { l < 4 }
    requires within { from ≤ length message.now / 64 }
    ensures { (h : List ℕ) → lane l state.now ≡ hash_after h message.now from → result ≡ digest_bytes (hash_after h message.now (length message.now / 64)) 8 }
{
    let mut own = *state;
    absorb_rest(&mut own, message, from);
    bytes_of(&own, l)
}

// The digests of four messages that were padded.
fn padded_digests(a: &Padded, b: &Padded, c: &Padded, d: &Padded) -> Four
    ensures a { result.a ≡ digest_bytes (hash_after initial_hash_256 a.now (length a.now / 64)) 8 }
    ensures b { result.b ≡ digest_bytes (hash_after initial_hash_256 b.now (length b.now / 64)) 8 }
    ensures c { result.c ≡ digest_bytes (hash_after initial_hash_256 c.now (length c.now / 64)) 8 }
    ensures d { result.d ≡ digest_bytes (hash_after initial_hash_256 d.now (length d.now / 64)) 8 }
{
    let count = a.count().min(b.count()).min(c.count()).min(d.count());
    let mut state = [
        u32x4::splat(0x6A09E667),
        u32x4::splat(0xBB67AE85),
        u32x4::splat(0x3C6EF372),
        u32x4::splat(0xA54FF53A),
        u32x4::splat(0x510E527F),
        u32x4::splat(0x9B05688C),
        u32x4::splat(0x1F83D9AB),
        u32x4::splat(0x5BE0CD19),
    ];
    absorb_all(&mut state, a, b, c, d, count);
    Four {
        a: finished(&state, 0, a, count),
        b: finished(&state, 1, b, count),
        c: finished(&state, 2, c, count),
        d: finished(&state, 3, d, count),
    }
}

/// The digests of four messages, which go on side by side as long as each has blocks left.
pub fn digests(alloc: Global, a: &[u8], b: &[u8], c: &[u8], d: &[u8]) -> Result<Four, AllocError>
    ensures a { IfOk result (λ f. f.a ≡ sha256 a.now) }
    ensures b { IfOk result (λ f. f.b ≡ sha256 b.now) }
    ensures c { IfOk result (λ f. f.c ≡ sha256 c.now) }
    ensures d { IfOk result (λ f. f.d ≡ sha256 d.now) }
{
    let first = tail_of(alloc, a)?;
    let second = tail_of(alloc, b)?;
    let third = tail_of(alloc, c)?;
    let fourth = tail_of(alloc, d)?;
    let a = Padded::of(a, &first);
    let b = Padded::of(b, &second);
    let c = Padded::of(c, &third);
    let d = Padded::of(d, &fourth);
    Ok(padded_digests(&a, &b, &c, &d))
}
