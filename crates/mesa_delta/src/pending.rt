// Blocks that are on a draft and whose entries are still to come, so that their digests are taken side by side.
ghost use Rattle.std.specs.Prelude.{◌≡◌, ◌<◌, [], ◌∷◌, ◌++◌, List, length, OnOk};
ghost use Rattle.mesa_delta_format.specs.mesa_block.Spelling.{block};
ghost use Rattle.mesa_delta.specs.Pending.{Appended as AnyAppended, entries_of};
ghost use Rattle.mesa_delta_format.specs.Places.{spelled};
ghost use Rattle.mesa_delta_format.specs.Tail.{entry};

use crate::digesting::{Message, digest_of, take_digests};
use mesa_delta_format::{BlockBuilder, Entry, put_entry};
use std::alloc::{AllocError, Global};
use std::marker::Model;

/// How many blocks wait at most, for as many digests are taken side by side.
const MOST_PENDING: usize = 4;

/// A block that is on a draft, and what its entry is to tell of it.
#[derive(Drop)]
pub struct Appended {
    short: [u8; 16],
    offset: u64,
    bytes: Vec<u8>,
    // The SHA-256 of the bytes, once it was taken.
    digest: Option<[u8; 32]>,
}

impl Model for Appended {
    ghost use Rattle.std.specs.Prelude.{◌≡◌, ◌<◌, ◌^◌, IfSome, length};
    ghost use Rattle.sha2.specs.Sha256.{sha256};
    ghost use Rattle.mesa_delta.specs.Pending.{Appended};

    ghost Value = { Appended };

    ghost view = { λ b. record { short = b.short; offset = b.offset; bytes = b.bytes.items } };

    ghost invariant = { λ b. IfSome b.digest (λ d. d ≡ sha256 b.bytes.items) × (length b.bytes.items < 2 ^ 32) };
}

impl Appended {
    // No bytes.
    fn empty(alloc: Global) -> Self {
        Appended {
            short: [0; 16],
            offset: 0,
            bytes: Vec::new(alloc),
            digest: None,
        }
    }

    // The builder's block in place of what is there, and the builder's next one is empty.
    fn fill(
        &mut self,
        builder: &mut BlockBuilder,
        short: [u8; 16],
        offset: u64,
    ) -> Result<(), AllocError>
        requires { 0 < length builder.old.rows }
        ensures filled { OnOk result (self.new ≡ record { short = short; offset = offset; bytes = block builder.old.layout builder.old.rows }) }
        ensures empty { OnOk result (builder.new ≡ record builder.old { rows = [] }) }
    {
        self.digest = None;
        if let Err(error) = builder.take(&mut self.bytes) {
            self.bytes.clear();
            return Err(error);
        }
        self.short = short;
        self.offset = offset;
        Ok(())
    }

    // The entry of the block, with the digest that was kept or one that is taken now.
    fn entry(&self) -> Entry
        ensures { spelled result ≡ entry self.now.short self.now.offset self.now.bytes }
    {
        Entry {
            short: self.short,
            offset: self.offset,
            len: self.bytes.len() as u32,
            digest: digest_of(self.digest, &self.bytes),
        }
    }
}

impl Message for Appended {
    ghost bytes_of = { λ b. b.bytes };

    fn bytes(&self) -> &[u8] {
        &self.bytes
    }

    fn keep(&mut self, digest: [u8; 32]) {
        self.digest = Some(digest);
    }
}

/// The last blocks of a draft, at most four, whose entries are still to come. The buffers stay for the next blocks.
#[derive(Drop)]
pub struct Pending {
    slots: Vec<Appended>,
    // How many slots are filled.
    filled: usize,
}

impl Model for Pending {
    ghost use Rattle.std.specs.Prelude.{◌≤◌, List, length, take};
    ghost use Rattle.mesa_delta.specs.Pending.{Appended};

    ghost Value = { List Appended };

    ghost view = { λ p. take p.filled p.slots.items };

    ghost invariant = { λ p. p.filled ≤ length p.slots.items };
}

impl Pending {
    /// No blocks, and no buffers yet.
    pub fn new(alloc: Global) -> Self
        ensures { result ≡ [] }
    {
        Pending {
            slots: Vec::new(alloc),
            filled: 0,
        }
    }

    /// Makes room for one block more: where four wait, their entries are put behind these bytes.
    pub fn make_room(&mut self, out: &mut Vec<u8>) -> Result<(), AllocError>
        ensures { OnOk result (out.new.items ++ entries_of self.new ≡ out.old.items ++ entries_of self.old) }
    {
        if self.filled >= MOST_PENDING {
            self.put_entries(out)?;
        }
        Ok(())
    }

    /// The builder's block comes last, and the builder's next one is empty.
    pub fn push(
        &mut self,
        builder: &mut BlockBuilder,
        short: [u8; 16],
        offset: u64,
    ) -> Result<(), AllocError>
        requires { 0 < length builder.old.rows }
        ensures last { OnOk result (self.new ≡ self.old ++ record { short = short; offset = offset; bytes = block builder.old.layout builder.old.rows } ∷ []) }
        ensures empty { OnOk result (builder.new ≡ record builder.old { rows = [] }) }
    {
        if self.filled == self.slots.len() {
            let slot = Appended::empty(*self.slots.allocator());
            self.slots.push(slot)?;
        }
        self.slots[self.filled].fill(builder, short, offset)?;
        self.filled += 1;
        Ok(())
    }

    /// The bytes of the last block.
    pub fn last(&self) -> &[u8]
        requires { 0 < length self.now }
        ensures { (before : List AnyAppended) (b : AnyAppended) → self.now ≡ before ++ b ∷ [] → result.now ≡ b.bytes }
    {
        self.slots[self.filled - 1].bytes()
    }

    /// Puts the entries behind these bytes, and no block is pending then.
    pub fn put_entries(&mut self, out: &mut Vec<u8>) -> Result<(), AllocError>
        ensures entries { OnOk result (out.new.items ≡ out.old.items ++ entries_of self.old) }
        ensures none { OnOk result (self.new ≡ []) }
    {
        self.digest();
        for block in &self.slots[0..self.filled] {
            put_entry(out, &block.entry())?;
        }
        self.filled = 0;
        Ok(())
    }

    // Takes the digests side by side, where that is less work than one by one. Where memory is short, each is taken with its entry.
    fn digest(&mut self)
        ensures { self.new ≡ self.old }
    {
        let alloc = *self.slots.allocator();
        let _taken = take_most(alloc, &mut self.slots[0..self.filled]);
    }
}

// Takes the digests side by side, where that is less work than one by one: a file's last block may be a short one, and then only those of the blocks before it.
fn take_most(alloc: Global, blocks: &mut [Appended]) -> Result<(), AllocError>
    ensures { blocks.new ≡ blocks.old }
{
    if take_digests(alloc, blocks)? || blocks.is_empty() {
        return Ok(());
    }
    let last = blocks.len() - 1;
    take_digests(alloc, &mut blocks[..last])?;
    Ok(())
}
