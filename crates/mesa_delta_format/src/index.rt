// What a file's tail tells of its blocks.
ghost use Rattle.std.specs.Prelude.{◌≡◌, ◌≢◌, ◌+◌, ◌^◌, ◌<◌, ◌≤◌, ℕ, List, length, take, drop, IsTrue, ◌↔◌, IfOk, IfSome, IfNone};
ghost use Rattle.std.specs.Int.{w64, from_be_bytes};
ghost use Rattle.mesa_block.specs.mesa_key.Order.{short_key};
ghost use Rattle.mesa_delta_format.specs.declared.place.Entry.{Entry as AnyEntry};
ghost use Rattle.mesa_delta_format.specs.Indexed.{IsIndex, IsIndexOf, tail_length};
ghost use Rattle.mesa_delta_format.specs.Places.{IsTail, entry_of, shorts_of, tail_spelled};
ghost use Rattle.mesa_delta_format.specs.Seeking.{seek_in};
ghost use Rattle.mesa_delta_format.specs.Tail.{foot};

use crate::place::{ENTRY_BYTES, Entry, follow, never_fall, read_entries};
use crate::seeking::seek;
use crate::tail::put_foot;
use byteorder::{BigEndian, ByteOrder};
use mesa_columns::{Format, Items, Schema, TryCopy, short};
use mesa_file::{FileId, FileRef};
use std::alloc::{AllocError, Global};
use std::marker::Model;
use std::sync::Arc;

/// A file as its tail and its reference tell it: where each block is, its length, its digest, the short key of its first key, and that of the file's last key. It can be shared.
#[derive(Drop)]
pub struct Index {
    held: Arc<Held>,
}

// What an index tells.
#[derive(Drop)]
struct Held {
    file: FileId,
    format: Format,
    schema: Schema,
    len: u64,
    tail: u64,
    rows: u64,
    entries: Items<Entry>,
    last: [u8; 16],
}

impl Model for Index {
    ghost use Rattle.mesa_delta_format.specs.Indexed.{Indexed, IsIndex};

    ghost Value = { Indexed };

    ghost view = { λ x. record { file = x.held.value.file; layout = record { format = x.held.value.format; columns = x.held.value.schema }; len = x.held.value.len; tail = x.held.value.tail; rows = x.held.value.rows; entries = x.held.value.entries; last = x.held.value.last } };

    ghost invariant = { λ x. IsIndex (record { file = x.held.value.file; layout = record { format = x.held.value.format; columns = x.held.value.schema }; len = x.held.value.len; tail = x.held.value.tail; rows = x.held.value.rows; entries = x.held.value.entries; last = x.held.value.last }) };
}

impl Index {
    /// The index whose tail these bytes are, if they are the tail of a file of the reference.
    pub fn read(
        alloc: Global,
        file: &FileRef,
        schema: &Schema,
        bytes: &[u8],
    ) -> Result<Option<Self>, AllocError>
        requires { length bytes.now ≤ file.now.len }
        ensures found { IfOk result (λ o. IfSome o (λ x. IsIndexOf file.now (record { format = file.now.format; columns = schema.now }) bytes.now x)) }
        ensures none { IfOk result (λ o. IfNone o ((rows : ℕ) (es : List AnyEntry) → rows < 2 ^ 64 → length es ≡ file.now.blocks → bytes.now ≡ tail_spelled (record { format = file.now.format; columns = schema.now }) rows es
            → (place : ℕ) → place + length bytes.now ≡ file.now.len → IsTail (record { format = file.now.format; columns = schema.now }) place rows es → ⊥)) }
    {
        let count = file.blocks as usize;
        let columns = schema.keys().len() + schema.values().len();
        let places = ENTRY_BYTES * count;
        if count == 0 {
            return Ok(None);
        }
        if bytes.len() != places + columns + 22 {
            return Ok(None);
        }
        let (places, foot) = bytes.split_at(places);
        let rows = rows_at(foot, columns);
        if !is_foot(alloc, foot, file.format, schema, rows, file.blocks)? {
            return Ok(None);
        }
        let entries = read_entries(alloc, places, count)?;
        let tail = file.len - bytes.len() as u64;
        if !follow(&entries, tail) {
            return Ok(None);
        }
        if !never_fall(&entries) {
            return Ok(None);
        }
        let held = Held {
            file: file.id,
            format: file.format,
            schema: schema.copy()?,
            len: file.len,
            tail,
            rows,
            entries: Items::from_vec(entries),
            last: short(file.last.as_slice()),
        };
        Ok(Some(Index {
            held: Arc::new(alloc, held)?,
        }))
    }

    /// The same index once more. What it tells is shared.
    pub fn share(&self) -> Result<Self, AllocError>
        ensures { IfOk result (λ index. index ≡ self.now) }
    {
        Ok(Index {
            held: self.held.clone()?,
        })
    }

    /// The id of the file.
    pub fn file(&self) -> FileId
        ensures { result ≡ self.now.file }
    {
        self.held.file
    }

    /// How the file's blocks spell values.
    pub fn format(&self) -> Format
        ensures { result ≡ self.now.layout.format }
    {
        self.held.format
    }

    /// The columns of the file's rows.
    pub fn schema(&self) -> &Schema
        ensures { result.now ≡ self.now.layout.columns }
    {
        &self.held.schema
    }

    /// How many bytes the file has.
    pub fn len(&self) -> u64
        ensures { result ≡ self.now.len }
    {
        self.held.len
    }

    /// How many rows the file has.
    pub fn rows(&self) -> u64
        ensures { result ≡ self.now.rows }
    {
        self.held.rows
    }

    /// How many blocks the file has.
    pub fn blocks(&self) -> u32
        ensures blocks { result ≡ length self.now.entries }
        ensures index { IsIndex self.now }
    {
        self.held.entries.len() as u32
    }

    /// The short key of a block's first key.
    pub fn short(&self, i: u32) -> &[u8; 16]
        requires { i < length self.now.entries }
        ensures { result.now ≡ (entry_of self.now.entries i).short }
    {
        &self.held.entries.as_slice()[i as usize].short
    }

    /// The short key of the file's last key.
    pub fn last(&self) -> &[u8; 16]
        ensures { result.now ≡ self.now.last }
    {
        &self.held.last
    }

    /// Where a block begins in the file.
    pub fn offset(&self, i: u32) -> u64
        requires { i < length self.now.entries }
        ensures { result ≡ (entry_of self.now.entries i).offset }
    {
        self.entry(i).offset
    }

    /// A block's entry.
    pub fn entry(&self, i: u32) -> Entry
        requires { i < length self.now.entries }
        ensures entry { result ≡ entry_of self.now.entries i }
        ensures index { IsIndex self.now }
        ensures within { result.offset + result.len ≤ self.now.len }
    {
        self.held.entries.as_slice()[i as usize]
    }

    /// The block at which to begin to look for a key.
    pub fn seek(&self, key: &[u8]) -> u32
        ensures { result ≡ seek_in (short_key key.now) (shorts_of self.now.entries) }
    {
        seek(self.held.entries.as_slice(), key) as u32
    }

    /// The allocator that the index came from.
    pub fn allocator(&self) -> Global {
        self.held.entries.allocator()
    }
}

// The number in the eight bytes from a place on.
fn rows_at(bytes: &[u8], at: usize) -> u64
    requires { at + 8 ≤ length bytes.now }
    ensures { result ≡ from_be_bytes w64 (take 8 (drop at bytes.now)) }
{
    BigEndian::read_u64(&bytes[at..at + 8])
}

// Whether these bytes end a tail of this many rows and blocks.
fn is_foot(
    alloc: Global,
    bytes: &[u8],
    format: Format,
    schema: &Schema,
    rows: u64,
    blocks: u32,
) -> Result<bool, AllocError>
    ensures { IfOk result (λ b. IsTrue b ↔ (bytes.now ≡ foot (record { format = format; columns = schema.now }) rows blocks)) }
{
    let mut foot = Vec::new(alloc);
    put_foot(&mut foot, format, schema, rows, blocks)?;
    Ok(foot.as_slice() == bytes)
}
