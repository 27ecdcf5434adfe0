// The columns of a block, as they were cut.
ghost use Rattle.std.specs.Prelude.{◌≡◌, ◌*◌, ◌<◌, ◌++◌, [], length, map, get_or, OnOk};
ghost use Rattle.mesa_block.specs.Cells.{pieces};
ghost use Rattle.mesa_block.specs.Layout.{size_of};

use crate::Width;
use mesa_columns::KeyType;
use std::alloc::{AllocError, Global};
use std::marker::Model;

/// The cells of a key column, in the order of the rows. Ints stand one behind the other, eight bytes each, and none of them is looked for; texts are found one by one.
#[derive(Drop)]
pub(crate) struct Column<'a> {
    kind: KeyType,
    count: usize,
    bytes: &'a [u8],
    texts: Vec<&'a [u8]>,
}

impl<'a> Model for Column<'a> {
    ghost use Rattle.std.specs.Prelude.{ℕ, List, map};
    ghost use Rattle.mesa_block.specs.Cells.{cells_in, IsWhole};

    ghost Value = { List (List ℕ) };

    ghost view = { λ c. cells_in c.kind c.count c.bytes.now (map (λ k. k.now) c.texts.items) };

    ghost invariant = { λ c. IsWhole c.kind c.count c.bytes.now };
}

impl<'a> Column<'a> {
    // So many ints.
    pub(crate) fn ints(alloc: Global, count: usize, bytes: &'a [u8]) -> Self
        requires { length bytes.now ≡ 8 * count }
        ensures { result ≡ pieces 8 count bytes.now }
    {
        Column {
            kind: KeyType::Int,
            count,
            bytes,
            texts: Vec::new(alloc),
        }
    }

    // These texts.
    pub(crate) fn texts(texts: Vec<&'a [u8]>) -> Self
        ensures { result ≡ map (λ k. k.now) texts.entry.items }
    {
        Column {
            kind: KeyType::Text,
            count: 0,
            bytes: &[],
            texts,
        }
    }

    // How many cells there are.
    pub(crate) fn len(&self) -> usize
        ensures { result ≡ length self.now }
    {
        match self.kind {
            KeyType::Int => self.count,
            KeyType::Text => self.texts.len(),
        }
    }

    // How many bytes its cells take in keys, at least.
    pub(crate) fn least_size(&self) -> usize {
        match self.kind {
            KeyType::Int => self.bytes.len(),
            KeyType::Text => self.texts.len(),
        }
    }

    // Adds the cell of the row i behind other bytes.
    pub(crate) fn put(&self, i: usize, to: &mut Vec<u8>) -> Result<(), AllocError>
        ensures { OnOk result (to.new.items ≡ to.old.items ++ get_or self.now i []) }
    {
        match self.kind {
            KeyType::Int => put_int(to, self.bytes, self.count, i),
            KeyType::Text => to.extend_from_slice(text_at(&self.texts, i)),
        }
    }

    // The cell of the row i; none has no bytes.
    pub(crate) fn cell(&self, i: usize) -> &'a [u8]
        ensures { result.now ≡ get_or self.now i [] }
    {
        match self.kind {
            KeyType::Int => int_at(self.bytes, self.count, i),
            KeyType::Text => text_at(&self.texts, i),
        }
    }
}

/// The numbers of a value column, one behind the other, in the order of the rows. None of them is looked for.
#[derive(Drop)]
pub(crate) struct Numbers<'a> {
    width: Width,
    count: usize,
    bytes: &'a [u8],
}

impl<'a> Model for Numbers<'a> {
    ghost use Rattle.std.specs.Prelude.{◌≡◌, ◌*◌, ℕ, List, length};
    ghost use Rattle.mesa_block.specs.Cells.{pieces};
    ghost use Rattle.mesa_block.specs.Layout.{size_of};

    ghost Value = { List (List ℕ) };

    ghost view = { λ c. pieces (size_of c.width) c.count c.bytes.now };

    ghost invariant = { λ c. length c.bytes.now ≡ size_of c.width * c.count };
}

impl<'a> Numbers<'a> {
    // So many numbers of a width.
    pub(crate) fn new(width: Width, count: usize, bytes: &'a [u8]) -> Self
        requires { length bytes.now ≡ size_of width * count }
        ensures { result ≡ pieces (size_of width) count bytes.now }
    {
        Numbers {
            width,
            count,
            bytes,
        }
    }

    // The cell of the row i; none has no bytes.
    pub(crate) fn cell(&self, i: usize) -> &'a [u8]
        ensures { result.now ≡ get_or self.now i [] }
    {
        match self.width {
            Width::Eight => int_at(self.bytes, self.count, i),
            Width::Sixteen => wide_at(self.bytes, self.count, i),
        }
    }
}

// The int of the row i.
fn int_at(bytes: &[u8], count: usize, i: usize) -> &[u8]
    requires { length bytes.now ≡ 8 * count }
    ensures { result.now ≡ get_or (pieces 8 count bytes.now) i [] }
{
    if i < count {
        &bytes[8 * i..8 * i + 8]
    } else {
        &[]
    }
}

// Adds the int of the row i behind other bytes. That they are eight is seen here, so that the compiler copies them at once.
fn put_int(to: &mut Vec<u8>, bytes: &[u8], count: usize, i: usize) -> Result<(), AllocError>
    requires { length bytes.now ≡ 8 * count }
    ensures { OnOk result (to.new.items ≡ to.old.items ++ get_or (pieces 8 count bytes.now) i []) }
{
    if i >= count {
        return Ok(());
    }
    to.extend_from_slice(&bytes[8 * i..8 * i + 8])?;
    Ok(())
}

// The number of sixteen bytes of the row i.
fn wide_at(bytes: &[u8], count: usize, i: usize) -> &[u8]
    requires { length bytes.now ≡ 16 * count }
    ensures { result.now ≡ get_or (pieces 16 count bytes.now) i [] }
{
    if i < count {
        &bytes[16 * i..16 * i + 16]
    } else {
        &[]
    }
}

// The text of the row i.
fn text_at<'a>(texts: &[&'a [u8]], i: usize) -> &'a [u8]
    ensures { result.now ≡ get_or (map (λ k. k.now) texts.now) i [] }
{
    if i < texts.len() { texts[i] } else { &[] }
}
