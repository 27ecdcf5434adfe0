// The cells of a block's columns: which text is none, and whether keys rise.

ghost use Rattle.std.specs.Prelude.{◌≡◌, ◌==◌, ◌≤◌, ◌<◌, ℕ, [], List, length, replicate, position, not, Option, Some, None};
ghost use Rattle.std.specs.List.{range_with_len};
ghost use Rattle.mesa_columns.specs.mesa_key.Spelling.{is_key_text};
ghost use Rattle.mesa_columns.specs.mesa_key.Order.{byte_cmp};
ghost use Rattle.mesa_block.specs.Reading.{bad_text, bad_column, is_less, out_of_order};

use crate::column::Column;
use crate::flat::Block;
use mesa_columns::{KeyText, KeyType, compare};
use std::cmp::Ordering;

// The first cell that is no text key.
fn bad_cell(column: &Column) -> Option<usize>
    ensures { result ≡ position (λ cell. not (is_key_text cell)) column.now }
{
    for i in 0..column.len() {
        if !KeyText::allows(column.cell(i)) {
            return Some(i);
        }
    }
    None
}

fn bad_in(kind: KeyType, column: &Column) -> Option<usize>
    ensures { result ≡ bad_column kind column.now }
{
    match kind {
        KeyType::Int => None,
        KeyType::Text => bad_cell(column),
    }
}

// The row of the first bad text, column by column.
pub fn bad_text_of(kinds: &[KeyType], columns: &[Column]) -> Option<usize>
    ensures { result ≡ bad_text kinds.now columns.now }
{
    for j in 0..kinds.len() {
        if j >= columns.len() {
            return None;
        }
        if let Some(i) = bad_in(kinds[j], &columns[j]) {
            return Some(i);
        }
    }
    None
}

/// Whether a key is greater than the one before it.
pub fn rises(before: &[u8], key: &[u8]) -> bool
    ensures { result ≡ is_less (byte_cmp before.now key.now) }
{
    match compare(before, key) {
        Ordering::Less => true,
        Ordering::Equal => false,
        Ordering::Greater => false,
    }
}

// The first row whose key isn't greater than the one before.
pub(crate) fn disordered(rows: &Block) -> Option<usize>
    ensures { result ≡ out_of_order rows.now 0 }
{
    let keys = rows.keys();
    let mut left = keys.view();
    let Some(mut before) = left.take_next() else {
        return None;
    };
    while let Some(key) = left.take_next() {
        if !rises(before, key) {
            return Some(keys.len() - left.len() - 1);
        }
        before = key;
    }
    None
}
