// Fields that stand one behind the other in one buffer.
ghost use Rattle.std.specs.Prelude.{◌≡◌, ◌<◌, ◌≤◌, ◌+◌, ◌^◌, ◌↔◌, IsTrue, [], ◌∷◌, ◌++◌, length, take, OnErr, OnOk, slice_get, slice_range, MatchOption};
ghost use Rattle.std.specs.List.{concat};
ghost use Rattle.std.specs.Option.{option_copied};
ghost use Rattle.mesa_list.specs.Pieces.{Rise, ends_from, last_end, pieces};

use crate::{TryCopy, Words};
use std::alloc::{AllocError, Global};
use std::marker::Model;

/// A list of fields, each of which is a list of bytes. All of them stand in one buffer, so that a field costs its bytes and four more. Together they have fewer than 2^32 bytes.
#[derive(Drop)]
pub struct Fields {
    bytes: Vec<u8>,
    ends: Vec<u32>,
}

impl Model for Fields {
    ghost use Rattle.std.specs.Prelude.{◌≡◌, ◌<◌, ◌^◌, ℕ, List, length};
    ghost use Rattle.mesa_list.specs.Pieces.{Rise, last_end, pieces};

    ghost Value = { List (List ℕ) };

    ghost view = { λ f. pieces f.bytes.items 0 f.ends.items };

    ghost invariant = { λ f. Rise 0 f.ends.items × (last_end 0 f.ends.items ≡ length f.bytes.items) × (length f.bytes.items < 2 ^ 32) };
}

impl Fields {
    /// No fields, which take no memory yet.
    pub fn new(alloc: Global) -> Self
        ensures { result ≡ [] }
    {
        Fields {
            bytes: Vec::new(alloc),
            ends: Vec::new(alloc),
        }
    }

    /// The fields that these bytes are, by where each one ends. None is copied.
    pub fn from_parts(bytes: Vec<u8>, ends: Vec<u32>) -> Self
        requires rise { Rise 0 ends.items }
        requires all { last_end 0 ends.items ≡ length bytes.items }
        requires few { length bytes.items < 2 ^ 32 }
        ensures { result ≡ pieces bytes.items 0 ends.items }
    {
        Fields { bytes, ends }
    }

    pub fn len(&self) -> usize
        ensures { result ≡ length self.now }
    {
        self.view().len()
    }

    pub fn is_empty(&self) -> bool
        ensures { IsTrue result ↔ (self.now ≡ []) }
    {
        self.view().is_empty()
    }

    /// Adds a field at the end, copied into the buffer.
    pub fn push(&mut self, field: &[u8]) -> Result<(), AllocError>
        ensures ok { OnOk result (self.new ≡ self.old ++ field.now ∷ []) }
        ensures err { OnErr result (self.new ≡ self.old) }
    {
        let start = self.bytes.len();
        if field.len() > u32::MAX as usize - start {
            return Err(AllocError);
        }
        self.ends.push((start + field.len()) as u32)?;
        if let Err(error) = self.bytes.extend_from_slice(field) {
            let _ = self.ends.pop();
            return Err(error);
        }
        Ok(())
    }

    /// Adds words at the end, copied into the buffer.
    pub fn push_all<W: Words>(&mut self, words: &W) -> Result<(), AllocError>
        ensures ok { OnOk result (self.new ≡ self.old ++ W.words words.now) }
        ensures err { OnErr result (self.new ≡ self.old) }
    {
        let start = self.bytes.len();
        let count = self.ends.len();
        if let Err(error) = push_each(&mut self.bytes, &mut self.ends, words) {
            self.bytes.truncate(start);
            self.ends.truncate(count);
            return Err(error);
        }
        Ok(())
    }

    /// Keeps the first `len` fields.
    pub fn truncate(&mut self, len: usize)
        ensures { self.new ≡ take len self.old }
    {
        if len < self.ends.len() {
            let end = begin_of(0, &self.ends, len) as usize;
            self.ends.truncate(len);
            self.bytes.truncate(end);
        }
    }

    /// The field at a place, counted from 0.
    pub fn get(&self, i: usize) -> Option<&[u8]>
        ensures { option_copied result ≡ slice_get self.now i }
    {
        self.view().get(i)
    }

    /// All fields, lent.
    pub fn view(&self) -> FieldsView<'_>
        ensures { result ≡ self.now }
    {
        FieldsView {
            bytes: &self.bytes,
            start: 0,
            ends: &self.ends,
        }
    }

    /// The fields from a place to before another one, lent.
    pub fn range(&self, from: usize, to: usize) -> FieldsView<'_>
        requires order { from ≤ to }
        requires within { to ≤ length self.now }
        ensures { result ≡ slice_range self.now from to }
    {
        self.view().range(from, to)
    }

    /// The allocator that the buffer grows by.
    pub fn allocator(&self) -> Global {
        *self.bytes.allocator()
    }
}

impl TryCopy for Fields {
    fn copy(&self) -> Result<Self, AllocError> {
        let alloc = self.allocator();
        Ok(Fields {
            bytes: Vec::from_slice(alloc, &self.bytes)?,
            ends: Vec::from_slice(alloc, &self.ends)?,
        })
    }
}

impl Words for Fields {
    ghost words = { λ fields. fields };

    fn count(&self) -> usize {
        self.len()
    }

    fn word(&self, place: usize) -> &[u8] {
        match self.get(place) {
            Some(word) => word,
            None => unreachable!(),
        }
    }
}

// Adds words, and where each of them ends; without memory a part of them may stand there.
fn push_each<W: Words>(
    bytes: &mut Vec<u8>,
    ends: &mut Vec<u32>,
    words: &W,
) -> Result<(), AllocError>
    requires few { length bytes.old.items < 2 ^ 32 }
    ensures bytes { OnOk result (bytes.new.items ≡ bytes.old.items ++ concat (W.words words.now)) }
    ensures ends { OnOk result (ends.new.items ≡ ends.old.items ++ ends_from (length bytes.old.items) (W.words words.now)) }
    ensures few { OnOk result (length bytes.new.items < 2 ^ 32) }
    ensures kept_bytes { take (length bytes.old.items) bytes.new.items ≡ bytes.old.items }
    ensures kept_ends { take (length ends.old.items) ends.new.items ≡ ends.old.items }
{
    'words: for place in 0..words.count() {
        let word = words.word(place);
        if word.len() > u32::MAX as usize - bytes.len() {
            return Err(AllocError);
        }
        bytes.extend_from_slice(word)?;
        ends.push(bytes.len() as u32)?;
    }
    Ok(())
}

/// Fields that stand one behind the other in a list of them, lent.
#[derive(Drop)]
pub struct FieldsView<'a> {
    bytes: &'a [u8],
    start: u32,
    ends: &'a [u32],
}

impl<'a> Model for FieldsView<'a> {
    ghost use Rattle.std.specs.Prelude.{◌≤◌, ℕ, List, length};
    ghost use Rattle.mesa_list.specs.Pieces.{Rise, last_end, pieces};

    ghost Value = { List (List ℕ) };

    ghost view = { λ f. pieces f.bytes.now f.start f.ends.now };

    ghost invariant = { λ f. Rise f.start f.ends.now × (last_end f.start f.ends.now ≤ length f.bytes.now) };
}

impl<'a> FieldsView<'a> {
    pub fn len(&self) -> usize
        ensures { result ≡ length self.now }
    {
        self.ends.len()
    }

    pub fn is_empty(&self) -> bool
        ensures { IsTrue result ↔ (self.now ≡ []) }
    {
        self.ends.is_empty()
    }

    /// The field at a place, counted from 0.
    pub fn get(&self, i: usize) -> Option<&'a [u8]>
        ensures { option_copied result ≡ slice_get self.now i }
    {
        if i >= self.ends.len() {
            return None;
        }
        let begin = begin_of(self.start, self.ends, i) as usize;
        let end = self.ends[i] as usize;
        Some(&self.bytes[begin..end])
    }

    /// The fields from a place to before another one.
    pub fn range(&self, from: usize, to: usize) -> FieldsView<'a>
        requires order { from ≤ to }
        requires within { to ≤ length self.now }
        ensures { result ≡ slice_range self.now from to }
    {
        FieldsView {
            bytes: self.bytes,
            start: begin_of(self.start, self.ends, from),
            ends: &self.ends[from..to],
        }
    }

    /// Takes the first field, if there is one.
    pub fn take_next(&mut self) -> Option<&'a [u8]>
        ensures { MatchOption result (self.old ≡ []) (λ field. self.old ≡ field.now ∷ self.new) }
    {
        let (end, ends) = self.ends.split_first()?;
        let field = &self.bytes[self.start as usize..*end as usize];
        self.start = *end;
        self.ends = ends;
        Some(field)
    }
}

// Where the field at a place begins, or the last one ends.
fn begin_of(start: u32, ends: &[u32], i: usize) -> u32
    requires { i ≤ length ends.now }
    ensures { result ≡ last_end start (take i ends.now) }
{
    if i == 0 { start } else { ends[i - 1] }
}
