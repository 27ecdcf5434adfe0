// The pieces of a range, merged in rounds: while those of a round are merged, those of the round before are written.
ghost use Rattle.std.specs.Prelude.{◌≡◌, ◌<◌, ◌≤◌, ◌++◌, List, [], length, IsTrue, None, vec_capacity};
ghost use Rattle.std.specs.List.{AllByRecursion};
ghost use Rattle.std.specs.Thread.{IsSend, IsSync};
ghost use Rattle.mesa_compact.specs.mesa_columns.declared.rows.Row.{Row as AnyRow};
ghost use Rattle.mesa_compact.specs.mesa_columns.Rows.{AreRowsOf, keys_rise};
ghost use Rattle.mesa_delta.specs.Writing.{columns_of, draft_of};
ghost use Rattle.mesa_compact.specs.mesa_scan.Cut.{CutsRise};
ghost use Rattle.mesa_compact.specs.Grouping.{TakesRows};
ghost use Rattle.mesa_split.specs.Held.{held_bytes, sent_bytes};
ghost use Rattle.mesa_split.specs.Lending.{AllTell, AreReady, HavePieces, answers_of, lists_in, own_in};
ghost use Rattle.mesa_split.specs.Parts.{joined};
ghost use Rattle.mesa_split.specs.Rounds.{HasFlushed, HasRound, HasRun, IsFlushed};
ghost use Rattle.mesa_split.specs.Written.{HasPoured, HasWritten};

use crate::flat::FlatRows;
use crate::held::Held;
use crate::judging::{are_empty, failure};
use crate::parts::{Part, merge_pieces};
use crate::writing::write_parts;
use mesa_answer::Groups;
use mesa_delta::{DeltaWriter, FileError};
use mesa_disk::{Draft, DraftError, FileReader, Made};
use mesa_file::FileId;
use mesa_key::KeyBytes;
use mesa_open_files::CompactError;
use mesa_schema::{KeyList, Schema};
use std::alloc::Global;
use std::mem;
use std::thread::{Threads, join_mut};

/// Gives a writer all rows of a range, piece by piece, and puts them into the groups. In a round each part merges one piece, while the pieces of the round before are written beside. So just the pieces of two rounds are held, and what is written of one. What a round wrote is put on the draft once it has ended, when no reader is asked.
/// Says whether there is any row. A total that leaves its type is told of this file.
pub(crate) fn pour_pieces<T: Threads + Sync, M: Made, D: Draft<M>, R: FileReader>(
    rt: &T,
    alloc: Global,
    schema: &Schema,
    cuts: &KeyList,
    parts: &mut [Part<R>],
    writer: &mut DeltaWriter<M, Held<M, D>>,
    draft: &mut D,
    groups: &mut Vec<Groups>,
    newest: FileId,
) -> Result<bool, CompactError>
    requires cuts { CutsRise None cuts.now }
    requires some { 0 < length parts.old }
    requires ready { AreReady R.bytes schema.now parts.old }
    requires tells { AllTell R.bytes (own_in parts.old) parts.old }
    requires columns { columns_of writer.old ≡ schema.now }
    requires none { HasPoured (held_bytes D.bytes) writer.old groups.old.items [] }
    requires sent { sent_bytes D.bytes (draft_of writer.old) ≡ D.bytes draft.old }
    requires takes { AllByRecursion (TakesRows schema.now) groups.old.items }
    ensures { HasRun D.bytes D.id_of D.faults R.bytes R.faults R.size schema.now newest (own_in parts.old) parts.old parts.new writer.old writer.new draft.old draft.new groups.old.items groups.new.items result }
{
    let keys = cuts.as_slice();
    let mut held = Vec::new(alloc);
    let mut some = false;
    let mut first = 0;
    'rounds: while first <= keys.len() {
        let Some(next) = first.checked_add(parts.len()) else {
            return Err(CompactError::File(FileError::Memory));
        };
        let merged = match next_round(
            rt, alloc, schema, keys, first, parts, writer, draft, &held, groups, newest,
        ) {
            Ok(merged) => merged,
            Err(error) => return Err(error),
        };
        some |= !are_empty(&merged);
        held = merged;
        first = next;
    }
    match last_round(alloc, writer, draft, &held, groups, newest) {
        Ok(()) => Ok(some),
        Err(error) => Err(error),
    }
}

// One round: what parts have merged in it, from this piece on, while the pieces of the round before were written.
fn next_round<T: Threads + Sync, M: Made, D: Draft<M>, R: FileReader>(
    rt: &T,
    alloc: Global,
    schema: &Schema,
    cuts: &[KeyBytes],
    first: usize,
    parts: &mut [Part<R>],
    writer: &mut DeltaWriter<M, Held<M, D>>,
    draft: &mut D,
    held: &[Result<FlatRows, FileError>],
    groups: &mut Vec<Groups>,
    newest: FileId,
) -> Result<Vec<Result<FlatRows, FileError>>, CompactError>
    requires ready { AreReady R.bytes schema.now parts.old }
    requires poured { (given : List AnyRow) × HasPoured (held_bytes D.bytes) writer.old groups.old.items given × IsTrue (keys_rise (given ++ joined held.now)) }
    requires form { AreRowsOf (columns_of writer.old) (joined held.now) }
    requires takes { AllByRecursion (TakesRows (columns_of writer.old)) groups.old.items }
    requires sent { sent_bytes D.bytes (draft_of writer.old) ≡ D.bytes draft.old }
    ensures { HasRound D.bytes D.id_of D.faults R.bytes R.faults R.size schema.now cuts.now first newest (joined held.now) parts.old parts.new writer.old writer.new draft.old draft.new groups.old.items groups.new.items result }
{
    let Ok(room) = Vec::with_capacity(alloc, parts.len()) else {
        return Err(CompactError::File(FileError::Memory));
    };
    let wrote = round(
        rt, alloc, schema, cuts, first, parts, writer, held, groups, newest,
    );
    let merged = taken(parts, room);
    if let Some(error) = failure(&merged) {
        return Err(CompactError::File(error));
    }
    match wrote {
        Ok(()) => {}
        Err(error) => return Err(error),
    }
    match flush(alloc, writer, draft) {
        Ok(()) => Ok(merged),
        Err(error) => Err(error),
    }
}

// What is left once no piece is: the pieces of the last round are written.
fn last_round<M: Made, D: Draft<M>>(
    alloc: Global,
    writer: &mut DeltaWriter<M, Held<M, D>>,
    draft: &mut D,
    held: &[Result<FlatRows, FileError>],
    groups: &mut Vec<Groups>,
    newest: FileId,
) -> Result<(), CompactError>
    requires poured { (given : List AnyRow) × HasPoured (held_bytes D.bytes) writer.old groups.old.items given × IsTrue (keys_rise (given ++ joined held.now)) }
    requires form { AreRowsOf (columns_of writer.old) (joined held.now) }
    requires takes { AllByRecursion (TakesRows (columns_of writer.old)) groups.old.items }
    requires sent { sent_bytes D.bytes (draft_of writer.old) ≡ D.bytes draft.old }
    ensures { HasFlushed D.bytes D.id_of D.faults newest (joined held.now) writer.old writer.new draft.old draft.new groups.old.items groups.new.items result }
{
    match write_pieces(alloc, writer, held, groups, newest) {
        Ok(()) => flush(alloc, writer, draft),
        Err(error) => Err(error),
    }
}

// Merges the next pieces, from this one on, while those of the round before are given to the writer, and says what came of these.
fn round<T: Threads + Sync, M: Made, D: Draft<M>, R: FileReader>(
    rt: &T,
    alloc: Global,
    schema: &Schema,
    cuts: &[KeyBytes],
    first: usize,
    parts: &mut [Part<R>],
    writer: &mut DeltaWriter<M, D>,
    held: &[Result<FlatRows, FileError>],
    groups: &mut Vec<Groups>,
    newest: FileId,
) -> Result<(), CompactError>
    requires ready { AreReady R.bytes schema.now parts.old }
    requires poured { (given : List AnyRow) × HasPoured D.bytes writer.old groups.old.items given × IsTrue (keys_rise (given ++ joined held.now)) }
    requires form { AreRowsOf (columns_of writer.old) (joined held.now) }
    requires takes { AllByRecursion (TakesRows (columns_of writer.old)) groups.old.items }
    ensures pieces { HavePieces R.bytes R.faults R.size schema.now cuts.now first parts.old parts.new }
    ensures wrote { HasWritten D.bytes D.id_of D.faults newest (joined held.now) writer.old groups.old.items writer.new groups.new.items result }
{
    let other = alloc;
    let ((), wrote) = join_mut(
        rt,
        &mut ||
            requires { IsSync T.row × IsSend R.row × AreReady R.bytes schema.now parts.now }
            ensures { HavePieces R.bytes R.faults R.size schema.entry.now cuts.entry.now first parts.entry.now parts.exit.now }
        { merge_next(rt, alloc, schema, cuts, first, parts) },
        &mut || -> Result<(), CompactError>
            requires poured { (given : List AnyRow) × HasPoured D.bytes writer.now groups.now.items given × IsTrue (keys_rise (given ++ joined held.now)) }
            requires form { AreRowsOf (columns_of writer.now) (joined held.now) }
            requires takes { AllByRecursion (TakesRows (columns_of writer.now)) groups.now.items }
            ensures { HasWritten D.bytes D.id_of D.faults newest (joined held.entry.now) writer.entry.now groups.entry.now.items writer.exit.now groups.exit.now.items result }
        { write_pieces(other, writer, held, groups, newest) },
    );
    wrote
}

// Merges the next pieces, from this one on.
fn merge_next<T: Threads + Sync, R: FileReader>(
    rt: &T,
    alloc: Global,
    schema: &Schema,
    cuts: &[KeyBytes],
    first: usize,
    parts: &mut [Part<R>],
)
    requires { AreReady R.bytes schema.now parts.old }
    ensures { HavePieces R.bytes R.faults R.size schema.now cuts.now first parts.old parts.new }
{
    merge_pieces(rt, alloc, schema, cuts, first, parts);
}

// Gives a writer the rows of pieces, and puts them into the groups.
fn write_pieces<M: Made, D: Draft<M>>(
    alloc: Global,
    writer: &mut DeltaWriter<M, D>,
    held: &[Result<FlatRows, FileError>],
    groups: &mut Vec<Groups>,
    newest: FileId,
) -> Result<(), CompactError>
    requires poured { (given : List AnyRow) × HasPoured D.bytes writer.old groups.old.items given × IsTrue (keys_rise (given ++ joined held.now)) }
    requires form { AreRowsOf (columns_of writer.old) (joined held.now) }
    requires takes { AllByRecursion (TakesRows (columns_of writer.old)) groups.old.items }
    ensures { HasWritten D.bytes D.id_of D.faults newest (joined held.now) writer.old groups.old.items writer.new groups.new.items result }
{
    write_parts(alloc, writer, held, groups, newest)
}

// Puts what is held for a draft on it.
fn flush<M: Made, D: Draft<M>>(
    alloc: Global,
    writer: &mut DeltaWriter<M, Held<M, D>>,
    draft: &mut D,
) -> Result<(), CompactError>
    requires { sent_bytes D.bytes (draft_of writer.old) ≡ D.bytes draft.old }
    ensures { IsFlushed D.bytes D.id_of D.faults writer.old writer.new draft.old draft.new result }
{
    let held = writer.draft();
    if held.bytes.is_empty() {
        return Ok(());
    }
    let Ok(room) = Vec::with_capacity(alloc, held.bytes.len()) else {
        return Err(CompactError::File(FileError::Memory));
    };
    match draft.append(&held.bytes) {
        Ok(()) => {}
        Err(DraftError::Failed) => return Err(CompactError::Draft),
        Err(DraftError::Memory) => return Err(CompactError::File(FileError::Memory)),
    }
    writer.replace_draft(Held::of(room, draft));
    Ok(())
}

// What came of parts, which they hold no longer.
fn taken<R>(
    parts: &mut [Part<R>],
    mut room: Vec<Result<FlatRows, FileError>>,
) -> Vec<Result<FlatRows, FileError>>
    requires none { room.items ≡ [] }
    requires few { length parts.old ≤ vec_capacity room }
    ensures answers { result.items ≡ answers_of parts.old }
    ensures inputs { lists_in parts.new ≡ lists_in parts.old }
{
    'parts: for i in 0..parts.len() {
        room.push_reserved(take_rows(&mut parts[i]));
    }
    room
}

// What came of a part, which holds it no longer.
fn take_rows<R>(part: &mut Part<R>) -> Result<FlatRows, FileError>
    ensures rows { result ≡ part.old.rows }
    ensures inputs { part.new.inputs ≡ part.old.inputs }
{
    mem::replace(&mut part.rows, Err(FileError::Memory))
}
