// Pieces of a range, merged side by side.
ghost use Rattle.std.specs.Prelude.{◌≡◌, ◌+◌, ◌<◌, ◌≤◌, ℕ, length, slice_get, slice_index_or, IfOk, None};
ghost use Rattle.std.specs.Thread.{IsSend};
ghost use Rattle.mesa_merge.specs.Inputs.{AreInputs};
ghost use Rattle.mesa_split.specs.Parts.{HasCut, HasPiece, low_at};
ghost use Rattle.mesa_split.specs.declared.parts.Part.{Part as AnyPart};

use crate::collecting::cut_rows;
use crate::flat::FlatRows;
use mesa_delta::{FileError, Input};
use mesa_disk::FileReader;
use mesa_key::KeyBytes;
use mesa_list::TryCopy;
use mesa_schema::Schema;
use std::alloc::{AllocError, Global};
use std::thread::Threads;
use std::{mem, thread};

/// How many threads merge a range at most.
const THREADS: usize = 8;

/// Who merges one piece of a range after the other: readers of all its files, and the rows of the piece that was merged last.
pub(crate) struct Part<R> {
    pub(crate) inputs: Vec<Input<R>>,
    pub(crate) rows: Result<FlatRows, FileError>,
}

/// Merges the next pieces between these cuts side by side, in a few threads: each part one, from this piece on, and none where none is left. Each part's merge holds at most a block of each of its inputs.
pub(crate) fn merge_pieces<T: Threads + Sync, R: FileReader>(
    rt: &T,
    alloc: Global,
    schema: &Schema,
    cuts: &[KeyBytes],
    first: usize,
    parts: &mut [Part<R>],
)
    requires { (i : ℕ) (d : AnyPart R) → i < length parts.old → AreInputs R.bytes schema.now (slice_index_or parts.old i d).inputs.items }
    ensures { (i : ℕ) (d : AnyPart R) → i < length parts.old → HasPiece R.bytes R.faults R.size schema.now cuts.now (first + i) (slice_index_or parts.old i d).inputs.items (slice_index_or parts.new i d).inputs.items (slice_index_or parts.new i d).rows }
{
    let merge = |i: usize, part: &mut Part<R>|
        requires { IsSend R.row × AreInputs R.bytes schema.now part.now.inputs.items }
        ensures { HasPiece R.bytes R.faults R.size schema.entry.now cuts.entry.now (first + i) part.entry.now.inputs.items part.exit.now.inputs.items part.exit.now.rows }
    { merge_piece(alloc, schema, cuts, first, i, part) };
    thread::for_each_mut(rt, parts, THREADS, &merge);
}

// Merges the piece that is so many behind the first one.
fn merge_piece<R: FileReader>(
    alloc: Global,
    schema: &Schema,
    cuts: &[KeyBytes],
    first: usize,
    behind: usize,
    part: &mut Part<R>,
)
    requires { AreInputs R.bytes schema.now part.old.inputs.items }
    ensures { HasPiece R.bytes R.faults R.size schema.now cuts.now (first + behind) part.old.inputs.items part.new.inputs.items part.new.rows }
{
    let inputs = mem::replace(&mut part.inputs, Vec::new(alloc));
    let (back, rows) = piece_rows(alloc, schema, cuts, first, behind, inputs);
    let empty = mem::replace(&mut part.inputs, back);
    empty.destroy_empty();
    part.rows = rows;
}

// The rows of that piece, none where it isn't there, and the inputs again.
fn piece_rows<R: FileReader>(
    alloc: Global,
    schema: &Schema,
    cuts: &[KeyBytes],
    first: usize,
    behind: usize,
    inputs: Vec<Input<R>>,
) -> (Vec<Input<R>>, Result<FlatRows, FileError>)
    requires { AreInputs R.bytes schema.now inputs.items }
    ensures { HasPiece R.bytes R.faults R.size schema.now cuts.now (first + behind) inputs.items result.0.items result.1 }
{
    match first.checked_add(behind) {
        Some(at) if at <= cuts.len() => rows_at(alloc, schema, cuts, at, inputs),
        _ => (inputs, Ok(FlatRows::new(alloc))),
    }
}

// The rows of the piece at a place, and its inputs again.
fn rows_at<R: FileReader>(
    alloc: Global,
    schema: &Schema,
    cuts: &[KeyBytes],
    place: usize,
    inputs: Vec<Input<R>>,
) -> (Vec<Input<R>>, Result<FlatRows, FileError>)
    requires { AreInputs R.bytes schema.now inputs.items }
    ensures { HasCut R.bytes R.faults R.size schema.now (low_at None cuts.now place) (slice_get cuts.now place) inputs.items result.0.items result.1 }
{
    match ends_at(cuts, place) {
        Ok((low, high)) => cut_rows(alloc, schema, inputs, low, high),
        Err(_) => (inputs, Err(FileError::Memory)),
    }
}

// The ends of the piece at a place.
fn ends_at(
    cuts: &[KeyBytes],
    place: usize,
) -> Result<(Option<KeyBytes>, Option<KeyBytes>), AllocError>
    ensures low { IfOk result (λ ends. ends.0 ≡ low_at None cuts.now place) }
    ensures high { IfOk result (λ ends. ends.1 ≡ slice_get cuts.now place) }
{
    if place == 0 {
        return Ok((None, cut_at(cuts, 0)?));
    }
    Ok((cut_at(cuts, place - 1)?, cut_at(cuts, place)?))
}

// The cut at a place, if there is one.
fn cut_at(cuts: &[KeyBytes], place: usize) -> Result<Option<KeyBytes>, AllocError>
    ensures { IfOk result (λ cut. cut ≡ slice_get cuts.now place) }
{
    match cuts.get(place) {
        Some(key) => Ok(Some(key.copy()?)),
        None => Ok(None),
    }
}
