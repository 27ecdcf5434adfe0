// Keys at which a range is cut into parts.
ghost use Rattle.std.specs.Prelude.{◌≡◌, ◌≤◌, ◌<◌, ◌-◌, ◌⊎◌, [], IfNone, IfOk, IfSome, OnOk, None, length};
ghost use Rattle.mesa_compact.specs.mesa_delta_format.Places.{shorts_of};
ghost use Rattle.mesa_compact.specs.mesa_scan.Cut.{CutsRise};
ghost use Rattle.mesa_split.specs.Sampling.{AreCutsOf, ArePieceCuts, AreRounds, HasMost, end_of, indexes_of, lies_above, part_key, risen, spread, with_key};

use mesa_delta::{Index, Input};
use mesa_disk::FileReader;
use mesa_key::{KeyBytes, compare};
use mesa_list::{Items, TryCopy};
use mesa_schema::KeyList;
use std::alloc::{AllocError, Global};

/// How many blocks of each input a piece has on average. It begins and ends within a block of each, which its neighbours read too.
const BLOCKS: u64 = 8;

/// The keys that divide the rows of inputs into at most so many parts: short keys of blocks of the input with the most of them, at equal distances. Equal ones are left out, so there may be fewer parts.
pub fn sample<R: FileReader>(
    alloc: Global,
    inputs: &[Input<R>],
    parts: u8,
) -> Result<KeyList, AllocError>
    ensures cuts { IfOk result (λ cuts. AreCutsOf (indexes_of inputs.now) parts cuts) }
    ensures few { IfOk result (λ cuts. length cuts ≤ parts - 1) }
    ensures rise { IfOk result (λ cuts. CutsRise None cuts) }
{
    match most_blocks(inputs) {
        Some(index) => sample_index(alloc, index, u32::from(parts)),
        None => Ok(Items::new(alloc)),
    }
}

/// The cuts between which a range is merged piece by piece: these, or finer ones where its files have many blocks, so that a few rounds or more are made of it.
pub(crate) fn piece_cuts<R: FileReader>(
    alloc: Global,
    inputs: &[Input<R>],
    cuts: &KeyList,
) -> Result<KeyList, AllocError>
    requires { CutsRise None cuts.now }
    ensures finer { IfOk result (λ finer. ArePieceCuts (indexes_of inputs.now) cuts.now finer) }
    ensures rise { IfOk result (λ finer. CutsRise None finer) }
{
    let pieces = pieces_of(inputs, cuts.len().saturating_add(1));
    match most_blocks(inputs) {
        Some(index) if pieces > 0 => sample_index(alloc, index, pieces),
        _ => cuts.copy(),
    }
}

// How many pieces are made of a range by so many parts; 0 where it is too short for two rounds.
fn pieces_of<R: FileReader>(inputs: &[Input<R>], parts: usize) -> u32
    ensures { AreRounds parts result }
{
    let mut blocks: u64 = 0;
    for input in inputs {
        blocks = blocks.saturating_add(u64::from(input.reader.index().blocks()));
    }
    let of_a_piece = (inputs.len() as u64).saturating_mul(BLOCKS).max(1);
    whole_rounds(blocks / of_a_piece, parts as u64)
}

// Of so many pieces those that make whole rounds, where these are two or more.
fn whole_rounds(pieces: u64, parts: u64) -> u32
    ensures { AreRounds parts result }
{
    if parts == 0 {
        return 0;
    }
    let rounds = (pieces / parts).min(u64::from(u32::MAX) / parts);
    if rounds < 2 {
        return 0;
    }
    (rounds * parts) as u32
}

// The index with the most blocks, and the first one of those that have as many; none where there are no inputs.
fn most_blocks<R: FileReader>(inputs: &[Input<R>]) -> Option<&Index>
    ensures most { IfSome result (λ index. HasMost (indexes_of inputs.now) index.now) }
    ensures none { IfNone result (indexes_of inputs.now ≡ []) }
{
    let mut most: Option<&Index> = None;
    'inputs: for input in inputs {
        most = Some(longer(most, input.reader.index()));
    }
    most
}

// The index with more blocks; the first one where both have as many.
fn longer<'a>(first: Option<&'a Index>, other: &'a Index) -> &'a Index
    ensures alone { IfNone first.entry (result.now ≡ other.now) }
    ensures one { IfSome first.entry (λ index. (result.now ≡ other.now) ⊎ (result.now ≡ index.now)) }
    ensures most { IfSome first.entry (λ index. (length other.now.entries ≤ length result.now.entries) × (length index.now.entries ≤ length result.now.entries)) }
{
    match first {
        Some(index) => {
            if index.blocks() < other.blocks() {
                other
            } else {
                index
            }
        }
        None => other,
    }
}

// Short keys of an index at equal distances, each once.
fn sample_index(alloc: Global, index: &Index, parts: u32) -> Result<KeyList, AllocError>
    ensures { IfOk result (λ cuts. cuts ≡ risen None (spread parts (shorts_of index.now.entries))) }
{
    let mut cuts: KeyList = Items::new(alloc);
    'parts: for part in 1..parts {
        let key = Items::from_bytes(alloc, first_short(index, part, parts))?;
        add_cut(&mut cuts, key)?;
    }
    Ok(cuts)
}

// The short key with which a part begins, of so many into which the blocks are divided.
fn first_short(index: &Index, part: u32, parts: u32) -> &[u8; 16]
    requires { part < parts }
    ensures { result.now ≡ part_key parts (shorts_of index.now.entries) part }
{
    let block = u64::from(index.blocks()) * u64::from(part) / u64::from(parts);
    index.short(block as u32)
}

// Adds a key that is above all cuts so far; any other is left out.
fn add_cut(cuts: &mut KeyList, key: KeyBytes) -> Result<(), AllocError>
    ensures { OnOk result (cuts.new ≡ with_key None cuts.old key) }
{
    if is_above(cuts.as_slice(), key.as_slice()) {
        cuts.push(key)?;
    }
    Ok(())
}

// Whether a key is above the last of these cuts.
fn is_above(cuts: &[KeyBytes], key: &[u8]) -> bool
    ensures { result ≡ lies_above (end_of None cuts.now) key.now }
{
    match cuts.last() {
        Some(last) => compare(last.as_slice(), key).is_lt(),
        None => true,
    }
}
