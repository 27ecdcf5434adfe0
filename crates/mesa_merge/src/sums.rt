// Sums that leave their type.
ghost use Rattle.std.specs.Prelude.{◌≡◌, ◌<◌, ◌+◌, ◌∷◌, List, length, slice_get, Some};
ghost use Rattle.std.specs.Bool.{OnFalse, OnTrue};
ghost use Rattle.mesa_delta.specs.declared.error.FileError.TheVariants as file_error;
ghost use Rattle.mesa_scan.specs.Cursors.{at_hand};
ghost use Rattle.mesa_merge.specs.Hands.{hands_of};
ghost use Rattle.mesa_merge.specs.Inputs.{Known as AnyKnown, knowns_of};
ghost use Rattle.mesa_merge.specs.Sums.{HasHead, IsNewest, sum_damage};

use mesa_delta::{FileError, Input};
use mesa_disk::{Damage, FileId, FileReader};
use mesa_scan::Cursor;

// Whether two keys are the same.
pub(crate) fn is_same(a: &[u8], b: &[u8]) -> bool
    ensures yes { OnTrue result (a.now ≡ b.now) }
    ensures no { OnFalse result ((a.now ≡ b.now) → ⊥) }
{
    a == b
}

// Whether the row at hand has this key.
fn has_key(cursor: &Cursor, key: &[u8]) -> bool
    ensures yes { OnTrue result (HasHead key.now (at_hand cursor.now)) }
    ensures no { OnFalse result (HasHead key.now (at_hand cursor.now) → ⊥) }
{
    match cursor.head() {
        Some(row) => is_same(row.key, key),
        None => false,
    }
}

// The last of an input and those behind it that holds a key, which the first of them does.
pub(crate) fn newest_with(cursors: &[Cursor], key: &[u8], from: usize) -> usize
    requires { from < length cursors.now }
    ensures within { result < length cursors.now }
    ensures newest { IsNewest key.now from result (hands_of cursors.now) }
{
    let mut newest = from;
    'inputs: for j in from + 1..cursors.len() {
        if has_key(&cursors[j], key) {
            newest = j;
        }
    }
    newest
}

// The file of an input.
pub(crate) fn file_at<R: FileReader>(inputs: &[Input<R>], i: usize) -> FileId
    requires { i < length inputs.now }
    ensures { (k : AnyKnown) × (slice_get (knowns_of R.bytes inputs.now) i ≡ Some k) × (result ≡ k.file.file) }
{
    inputs[i].reader.index().file()
}

// The damage of a file with which a sum leaves its type.
pub(crate) fn sum_fault(file: FileId) -> FileError
    ensures { result ≡ file_error.Damaged (sum_damage file) }
{
    FileError::Damaged(Damage::misfit(file, 0))
}
