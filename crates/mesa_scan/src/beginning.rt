// Where a cursor begins, and how it goes on from block to block.
ghost use Rattle.std.specs.Prelude.{◌≡◌, ◌≢◌, ◌<◌, ◌≤◌, ℕ, [], List, length, map, take, drop, None, Some, IfOk, IsTrue, true};
ghost use Rattle.mesa_delta.specs.mesa_columns.declared.rows.Row.{Row as AnyRow};
ghost use Rattle.mesa_delta.specs.mesa_fold.Folded.{rows_of};
ghost use Rattle.mesa_delta.specs.mesa_columns.Rows.{keys_rise};
ghost use Rattle.mesa_delta.specs.Reading.{IsIndexed, index_of};
ghost use Rattle.mesa_delta.specs.mesa_delta_format.Spread.{blocks_of};
ghost use Rattle.mesa_scan.specs.Cursors.{IsInput, comes_behind, lift_by, reader_in};
ghost use Rattle.mesa_scan.specs.Cut.{cut};

use mesa_block::Block;
use mesa_delta::Input;
use mesa_disk::FileReader;
use mesa_schema::{KeyBytes, TryCopy, lifts_to_present};
use std::alloc::AllocError;

/// The block at which to begin: none before it has a row from this key on.
///
/// Rows of an epoch that had fewer key columns have shorter keys, so a search among them is no search for the key: there
/// it is the first block.
pub(crate) fn start_of<R: FileReader>(input: &Input<R>, low: &Option<KeyBytes>) -> u32
    requires { IsInput R.bytes input.now }
    ensures none { low.now ≡ None → result ≡ 0 }
    ensures within { result ≤ length (index_of input.now.reader).entries }
    ensures before { (b : List ℕ) (all : List AnyRow) → R.bytes (reader_in input.now) ≡ Some b → IsIndexed (index_of input.now.reader) all b
        → cut low.now None (map (lift_by input.now) (rows_of (take result (blocks_of (index_of input.now.reader).layout all)))) ≡ [] }
{
    lifts_to_present();
    let _blocks = input.reader.index().blocks();
    let Some(low) = low else {
        return 0;
    };
    let columns = input.reader.index().schema().keys().len();
    if columns != input.evolving.present().keys().len() {
        return 0;
    }
    input.reader.seek(low.as_slice())
}

/// How many rows of a block are below this key.
pub(crate) fn first_from(block: &Block, low: &Option<KeyBytes>) -> usize
    ensures none { low.now ≡ None → result ≡ 0 }
    ensures within { result ≤ length block.now }
    ensures rows { IsTrue (keys_rise block.now) → cut low.now None block.now ≡ drop result block.now }
{
    let Some(key) = low else {
        return 0;
    };
    for i in 0..block.len() {
        if key.as_slice().cmp(block.row(i).key).is_le() {
            return i;
        }
    }
    block.len()
}

/// Whether a block's keys go on behind those of the block that was read before it, if one was.
///
/// A reader tests blocks against those before only from the first one on: that is enough where all rows are read, and
/// where rows are read from a key on it is tested here.
pub(crate) fn follows(low: &Option<KeyBytes>, before: &Block, block: &Block) -> bool
    requires { 0 < length block.now }
    ensures all { low.now ≡ None → result ≡ true }
    ensures from { low.now ≢ None → result ≡ comes_behind before.now block.now }
{
    if low.is_none() {
        return true;
    }
    if before.len() == 0 {
        return true;
    }
    before
        .row(before.len() - 1)
        .key
        .cmp(block.row(0).key)
        .is_lt()
}

/// The key once more.
pub(crate) fn copied(key: &Option<KeyBytes>) -> Result<Option<KeyBytes>, AllocError>
    ensures { IfOk result (λ copy. copy ≡ key.now) }
{
    match key {
        Some(key) => Ok(Some(key.copy()?)),
        None => Ok(None),
    }
}
