// Whether a block may have a matching row.
ghost use Rattle.std.specs.Prelude.{◌≡◌, ◌+◌, ◌<◌, ℕ, List, [], get_or, length, Some};
ghost use Rattle.std.specs.Bool.{OnFalse};
ghost use Rattle.std.specs.Ordering.{is_gt};
ghost use Rattle.mesa_delta.specs.mesa_key.Order.{byte_cmp};
ghost use Rattle.mesa_delta.specs.mesa_columns.declared.rows.Row.{Row as AnyRow};
ghost use Rattle.mesa_filter.specs.Pruning.{NoneMeets};
ghost use Rattle.mesa_delta.specs.Reading.{IsIndexed, index_of};
ghost use Rattle.mesa_scan.specs.Cursors.{IsInput, reader_in};
ghost use Rattle.mesa_scan.specs.Allowing.{allows_block, bounds_in, is_allowed};
ghost use Rattle.mesa_scan.specs.Scanning.{IsFilterOf, keys_in, matching_block};

use mesa_block::fits_alone;
use mesa_delta::{Index, Input, keys_between};
use mesa_disk::FileReader;
use mesa_filter::Filter;
use mesa_schema::lifts_to_present;

/// Whether a block of an input may have a row that matches the filter, by the short keys between which it lies.
pub fn allows<R: FileReader>(input: &Input<R>, filter: &Filter, block: u32) -> bool
    requires input { IsInput R.bytes input.now }
    requires filter { IsFilterOf input.now filter.now }
    requires within { block < length (index_of input.now.reader).entries }

    // Where the file is told and its index is true of it, a block that isn't allowed has none.
    ensures none { OnFalse result ((b : List ℕ) (all : List AnyRow) → R.bytes (reader_in input.now) ≡ Some b → IsIndexed (index_of input.now.reader) all b → matching_block input.now filter.now all block ≡ []) }
{
    fits_alone();
    keys_between();
    lifts_to_present();
    let _columns = input.evolving.present();
    let index = input.reader.index();
    let _blocks = index.blocks();
    may_have(filter, key_columns(input), index, block)
}

/// How many key columns the rows of an input's file have.
pub(crate) fn key_columns<R: FileReader>(input: &Input<R>) -> u8
    requires { IsInput R.bytes input.now }
    ensures { result ≡ keys_in input.now }
{
    input.reader.index().schema().keys().len() as u8
}

// Whether a block of this number may have a matching row, by the first key columns of its rows.
#[tactic(auto, using(crate::proofs::Bounds::front))]
pub(crate) fn may_have(filter: &Filter, columns: u8, index: &Index, block: u32) -> bool
    requires { block < length index.now.entries }
    ensures walk { result ≡ allows_block filter.now columns index.now block }
    ensures none { OnFalse result (NoneMeets filter.now.kinds columns filter.now.terms (get_or (bounds_in index.now) block []) (get_or (bounds_in index.now) (block + 1) [])) }
{
    may_lie_between(filter, columns, index.short(block), behind(index, block))
}

// The short key at which a block ends: the next block's, or that of the file's last key.
#[tactic(auto, using(crate::proofs::Bounds::front, crate::proofs::Bounds::behind_last))]
fn behind(index: &Index, block: u32) -> &[u8; 16]
    requires { block < length index.now.entries }
    ensures { result.now ≡ get_or (bounds_in index.now) (block + 1) [] }
{
    let blocks = index.blocks();
    let next = block + 1;
    if next < blocks {
        index.short(next)
    } else {
        index.last()
    }
}

// Whether a matching row may lie between two short keys.
fn may_lie_between(filter: &Filter, columns: u8, low: &[u8; 16], high: &[u8; 16]) -> bool
    ensures walk { result ≡ is_allowed filter.now columns low.now high.now }
    ensures none { OnFalse result (NoneMeets filter.now.kinds columns filter.now.terms low.now high.now) }
{
    if is_above(low, high) {
        return true;
    }
    filter.may_meet(columns, low, high)
}

// Whether a short key is above another.
fn is_above(low: &[u8], high: &[u8]) -> bool
    ensures { result ≡ is_gt (byte_cmp low.now high.now) }
{
    low.cmp(high).is_gt()
}
