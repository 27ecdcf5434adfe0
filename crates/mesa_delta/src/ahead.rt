// Blocks that are read before they are tested, so that their digests are taken side by side.
ghost use Rattle.std.specs.Prelude.{◌≡◌, ◌<◌, ◌≤◌, ◌+◌, ◌↔◌, ℕ, [], ◌∷◌, ◌++◌, List, length, drop, get_or, Option, Some, OnOk, OnErr, IfOk, IfSome, IfNone, IsTrue, true, false};
ghost use Rattle.sha2.specs.Sha256.{sha256};
ghost use Rattle.mesa_disk.specs.mesa_io.Causes.{HasCause, HasFaultCause};
ghost use Rattle.mesa_delta_format.specs.mesa_columns.declared.rows.Row.{Row as AnyRow};
ghost use Rattle.mesa_delta.specs.declared.error.FileError.TheVariants as file_error;
ghost use Rattle.mesa_delta.specs.Ahead.{IsOfFile, Untested as AnyUntested};
ghost use Rattle.mesa_delta.specs.Reading.{IsBlock, IsIndexed, index_of, reader_of};
ghost use Rattle.mesa_delta_format.specs.Spread.{blocks_of};

use crate::digesting::{Message, digest_of, take_digests};
use crate::reader::{read_block_bytes, tested};
use crate::{DeltaReader, FileError};
use mesa_delta_format::{Block, Index, fits_alone, reads_blocks};
use mesa_disk::{FileReader, ReadFailed};
use std::alloc::{AllocError, Global};
use std::marker::Model;

/// How many digests are taken side by side.
const SIDE_BY_SIDE: usize = 4;

/// A block's bytes as they were read.
#[derive(Drop)]
pub(crate) struct Untested {
    file: usize,
    block: u32,
    bytes: Vec<u8>,
    // The SHA-256 of the bytes, once it was taken.
    digest: Option<[u8; 32]>,
}

impl Model for Untested {
    ghost use Rattle.std.specs.Prelude.{◌≡◌, IfSome};
    ghost use Rattle.sha2.specs.Sha256.{sha256};
    ghost use Rattle.mesa_delta.specs.Ahead.{Untested};

    ghost Value = { Untested };

    ghost view = { λ u. record { file = u.file; block = u.block; bytes = u.bytes.items } };

    ghost invariant = { λ u. IfSome u.digest (λ d. d ≡ sha256 u.bytes.items) };
}

impl Untested {
    // No bytes.
    fn empty(alloc: Global) -> Self {
        Untested {
            file: 0,
            block: 0,
            bytes: Vec::new(alloc),
            digest: None,
        }
    }

    // Reads a block in place of what is there.
    fn fill<R: FileReader>(
        &mut self,
        file: usize,
        reader: &mut DeltaReader<R>,
        block: u32,
    ) -> Result<(), FileError>
        requires { block < length (index_of reader.old).entries }
        ensures file { OnOk result (self.new.file ≡ file) }
        ensures block { OnOk result (self.new.block ≡ block) }
        ensures read { OnOk result (IsOfFile (R.bytes (reader_of reader.old)) (index_of reader.old) self.new) }
        ensures reader { reader.new ≡ record reader.old { reader = reader_of reader.new } }
        ensures bytes { R.bytes (reader_of reader.new) ≡ R.bytes (reader_of reader.old) }
        ensures size { R.size (reader_of reader.new) ≡ R.size (reader_of reader.old) }
        ensures reads { R.reads (reader_of reader.new) ≤ R.reads (reader_of reader.old) + 1 }
        ensures cause { HasFaultCause (λ e. e ≡ file_error.Read) (R.faults (reader_of reader.old)) (R.faults (reader_of reader.new)) result }
    {
        self.digest = None;
        read_block_bytes(&mut reader.reader, &reader.index, block, &mut self.bytes)?;
        self.file = file;
        self.block = block;
        Ok(())
    }

    /// Whether these are the bytes of a block of the file of a place.
    fn is_of(&self, file: usize, block: u32) -> bool
        ensures file { IsTrue result → self.now.file ≡ file }
        ensures block { IsTrue result → self.now.block ≡ block }
    {
        self.file == file && self.block == block
    }

    /// The digest of the bytes.
    pub(crate) fn digest(&self) -> [u8; 32]
        ensures { result ≡ sha256 self.now.bytes }
    {
        digest_of(self.digest, &self.bytes)
    }
}

impl Message for Untested {
    ghost bytes_of = { λ u. u.bytes };

    fn bytes(&self) -> &[u8] {
        &self.bytes
    }

    fn keep(&mut self, digest: [u8; 32]) {
        self.digest = Some(digest);
    }
}

/// Blocks that were read ahead, of one file or of several, at most four or as many as were asked for. Each is taken once, in the order in which they were read, and nothing of it is believed before it is tested then.
///
/// A file is known by its place among those that are read. The buffers stay for the next blocks.
#[derive(Drop)]
pub struct Ahead {
    most: usize,
    slots: Vec<Untested>,
    // How many slots are filled, and how many of these were taken.
    filled: usize,
    taken: usize,
}

impl Model for Ahead {
    ghost use Rattle.std.specs.Prelude.{◌≤◌, List, length, take, drop};
    ghost use Rattle.mesa_delta.specs.Ahead.{Untested};

    ghost Value = { List Untested };

    ghost view = { λ a. drop a.taken (take a.filled a.slots.items) };

    ghost invariant = { λ a. (a.taken ≤ a.filled) × (a.filled ≤ length a.slots.items) };
}

impl Ahead {
    /// Nothing, with room for four blocks.
    pub fn new(alloc: Global) -> Self
        ensures { result ≡ [] }
    {
        Ahead::with_room(alloc, SIDE_BY_SIDE)
    }

    /// Nothing, with room for so many blocks. It takes no memory yet.
    pub fn with_room(alloc: Global, most: usize) -> Self
        ensures { result ≡ [] }
    {
        Ahead {
            most,
            slots: Vec::new(alloc),
            filled: 0,
            taken: 0,
        }
    }

    /// Whether nothing waits.
    pub fn is_empty(&self) -> bool
        ensures { IsTrue result ↔ (self.now ≡ []) }
    {
        self.taken == self.filled
    }

    /// Whether no more may be read ahead.
    pub fn is_full(&self) -> bool {
        self.filled - self.taken >= self.most
    }

    /// Reads a block of the file of this place, by one read, and says whether it did. It isn't tested yet. A file of another length than the recorded one and want of memory are left to who takes the block.
    pub fn read<R: FileReader>(
        &mut self,
        file: usize,
        reader: &mut DeltaReader<R>,
        block: u32,
    ) -> Result<bool, ReadFailed>
        requires { block < length (index_of reader.old).entries }

        // One block more waits, read from the bytes at its place.
        ensures more { IfOk result (λ read. read ≡ true → (u : AnyUntested) × (self.new ≡ self.old ++ u ∷ []) × (u.file ≡ file) × (u.block ≡ block) × IsOfFile (R.bytes (reader_of reader.old)) (index_of reader.old) u) }
        ensures same { IfOk result (λ read. read ≡ false → self.new ≡ self.old) }
        ensures err { OnErr result (self.new ≡ self.old) }

        // Of the reader only what it reads from moved.
        ensures reader { reader.new ≡ record reader.old { reader = reader_of reader.new } }
        ensures bytes { R.bytes (reader_of reader.new) ≡ R.bytes (reader_of reader.old) }
        ensures size { R.size (reader_of reader.new) ≡ R.size (reader_of reader.old) }
        ensures reads { R.reads (reader_of reader.new) ≤ R.reads (reader_of reader.old) + 1 }
        ensures cause { HasCause (R.faults (reader_of reader.old)) (R.faults (reader_of reader.new)) result }
    {
        self.rewind();
        if self.filled == self.slots.len() {
            let slot = Untested::empty(*self.slots.allocator());
            if self.slots.push(slot).is_err() {
                return Ok(false);
            }
        }
        match self.slots[self.filled].fill(file, reader, block) {
            Ok(()) => {
                self.filled += 1;
                Ok(true)
            }
            Err(FileError::Read) => Err(ReadFailed),
            Err(_) => Ok(false),
        }
    }

    // Begins with the first slot again where nothing waits.
    fn rewind(&mut self)
        ensures { self.new ≡ self.old }
    {
        if self.taken == self.filled {
            self.taken = 0;
            self.filled = 0;
        }
    }

    /// Takes the digests of what waits side by side, where that is less work than one by one. Where memory is short, each is taken when its block is.
    pub fn digest(&mut self)
        ensures { self.new ≡ self.old }
    {
        let alloc = *self.slots.allocator();
        digest_fours(alloc, &mut self.slots[self.taken..self.filled]);
    }

    /// The place of the file of the first block that waits.
    pub fn front(&self) -> Option<usize>
        ensures some { IfSome result (λ file. (u : AnyUntested) × (rest : List AnyUntested) × (self.now ≡ u ∷ rest) × (u.file ≡ file)) }
        ensures none { IfNone result (self.now ≡ []) }
    {
        Some(self.waiting()?.file)
    }

    /// Takes the first block that waits, tested by itself, by the index of its file. There is none where it isn't the block that the index tells.
    pub fn take(&mut self, index: &Index) -> Result<Option<Block>, AllocError>
        requires { (u : AnyUntested) (rest : List AnyUntested) → self.old ≡ u ∷ rest → u.block < length index.now.entries }
        ensures step { self.new ≡ drop 1 self.old }

        // The block is the one that the entry tells, and what was written is read again.
        ensures block { IfOk result (λ o. IfSome o (λ rows. (u : AnyUntested) (rest : List AnyUntested) → self.old ≡ u ∷ rest → IsBlock index.now u.block rows)) }
        ensures again { IfOk result (λ o. IfSome o (λ rows. (u : AnyUntested) (rest : List AnyUntested) → self.old ≡ u ∷ rest → (b : List ℕ) (all : List AnyRow) → IsOfFile (Some b) index.now u → IsIndexed index.now all b
            → rows ≡ get_or (blocks_of index.now.layout all) u.block [])) }
    {
        let found = self.tested(index);
        self.step();
        found
    }

    // The first block that waits, tested by itself, if it is the one that the index tells.
    fn tested(&self, index: &Index) -> Result<Option<Block>, AllocError>
        requires { (u : AnyUntested) (rest : List AnyUntested) → self.now ≡ u ∷ rest → u.block < length index.now.entries }
        ensures block { IfOk result (λ o. IfSome o (λ rows. (u : AnyUntested) (rest : List AnyUntested) → self.now ≡ u ∷ rest → IsBlock index.now u.block rows)) }
        ensures again { IfOk result (λ o. IfSome o (λ rows. (u : AnyUntested) (rest : List AnyUntested) → self.now ≡ u ∷ rest → (b : List ℕ) (all : List AnyRow) → IsOfFile (Some b) index.now u → IsIndexed index.now all b
            → rows ≡ get_or (blocks_of index.now.layout all) u.block [])) }
    {
        fits_alone();
        reads_blocks();
        let _blocks = index.blocks();
        match self.waiting() {
            Some(first) => tested(index, first.block, first.bytes(), &first.digest()),
            None => Ok(None),
        }
    }

    /// The first that waits, if it is this block.
    pub(crate) fn first(&self, file: usize, block: u32) -> Option<&Untested>
        ensures first { IfSome result (λ u. (rest : List AnyUntested) × (self.now ≡ u.now ∷ rest)) }
        ensures file { IfSome result (λ u. u.now.file ≡ file) }
        ensures block { IfSome result (λ u. u.now.block ≡ block) }
    {
        let first = self.waiting()?;
        if !first.is_of(file, block) {
            return None;
        }
        Some(first)
    }

    // The first that waits.
    fn waiting(&self) -> Option<&Untested>
        ensures some { IfSome result (λ u. (rest : List AnyUntested) × (self.now ≡ u.now ∷ rest)) }
        ensures none { IfNone result (self.now ≡ []) }
    {
        if self.taken == self.filled {
            return None;
        }
        Some(&self.slots[self.taken])
    }

    /// The first that waits was taken.
    pub(crate) fn step(&mut self)
        ensures { self.new ≡ drop 1 self.old }
    {
        if self.taken < self.filled {
            self.taken += 1;
        }
    }
}

// Takes the digests of blocks by fours.
fn digest_fours(alloc: Global, blocks: &mut [Untested])
    ensures { blocks.new ≡ blocks.old }
{
    let mut from = 0;
    'fours: while from < blocks.len() {
        let end = blocks.len().min(from + SIDE_BY_SIDE);
        let _taken = take_digests(alloc, &mut blocks[from..end]);
        from = end;
    }
}
