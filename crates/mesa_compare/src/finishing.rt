// Streams read to their ends.
ghost use Rattle.std.specs.Prelude.{◌≡◌, [], ◌∷◌, ◌++◌, ℕ, List, IsTrue, IfErr, OnOk, None, Some};
ghost use Rattle.mesa_disk.specs.mesa_io.Causes.{HasFaultCause};
ghost use Rattle.mesa_examine.specs.mesa_file.declared.damage.Damage.{Damage as AnyDamage};
ghost use Rattle.mesa_schema.specs.mesa_columns.declared.rows.Row.{Row as AnyRow};
ghost use Rattle.mesa_schema.specs.mesa_columns.Columns.{Columns, aggs_of};
ghost use Rattle.mesa_schema.specs.mesa_fold.Folded.{folded, rows_of};
ghost use Rattle.mesa_examine.specs.mesa_batch.Bound.{KeepsBound};
ghost use Rattle.mesa_examine.specs.mesa_delta.declared.error.FileError.TheVariants as file_error;
ghost use Rattle.mesa_examine.specs.mesa_delta.Reading.{IsIndexed, index_of};
ghost use Rattle.mesa_examine.specs.mesa_scan.Cursors.{HasGiven, IsAllOf, IsInput, IsSameInput, low_of, reader_in};
ghost use Rattle.mesa_merge.specs.Faults.{HaveFaultCause, faults_of};
ghost use Rattle.mesa_merge.specs.Inputs.{AreAll, AreTold, knowns_of, lifted_parts};
ghost use Rattle.mesa_merge.specs.Merged.{HasMerged, inputs_of};

use mesa_disk::FileReader;
use mesa_examine::{Cursor, FileError, Input, next_row};
use mesa_merge::Merge;
use mesa_schema::Row;
use std::alloc::Global;

/// Reads a merge and an input to their ends, where they haven't ended.
pub(crate) fn finish_both<R: FileReader>(
    alloc: Global,
    merge: &mut Merge<R>,
    merged: bool,
    cursor: &mut Cursor,
    input: &mut Input<R>,
    read: bool,
) -> Result<(), FileError>
    requires merge { (s : Columns) × (givens : List (List AnyRow)) × HasMerged R.bytes s merge.old givens }
    requires input { IsInput R.bytes input.old }
    requires whole { low_of cursor.old ≡ None }
    ensures rest { OnOk result ((s : Columns) (givens : List (List AnyRow)) → HasMerged R.bytes s merge.old givens → (IsTrue merged → AreAll (knowns_of R.bytes (inputs_of merge.old)) givens)
        → (after : List (List AnyRow)) × (more : List AnyRow) × AreAll (knowns_of R.bytes (inputs_of merge.old)) after × (folded (aggs_of s) after ≡ folded (aggs_of s) givens ++ more) × (IsTrue merged → more ≡ [])) }
    ensures rows { OnOk result ((given : List AnyRow) → HasGiven R.bytes input.old cursor.old given → (IsTrue read → IsAllOf R.bytes input.old given)
        → (more : List AnyRow) × HasGiven R.bytes input.new cursor.new (given ++ more) × IsAllOf R.bytes input.new (given ++ more) × (IsTrue read → more ≡ [])) }
    ensures known { knowns_of R.bytes (inputs_of merge.new) ≡ knowns_of R.bytes (inputs_of merge.old) }
    ensures same { IsSameInput R.bytes input.old input.new }
    ensures cause { HaveFaultCause (λ e. e ≡ file_error.Read) (R.faults (reader_in input.old) ∷ faults_of R.faults (inputs_of merge.old)) (R.faults (reader_in input.new) ∷ faults_of R.faults (inputs_of merge.new)) result }
    ensures never { IfErr result (λ e. (d : AnyDamage) → e ≡ file_error.Damaged d → (s : Columns) (givens : List (List AnyRow)) → HasMerged R.bytes s merge.old givens
        → (contents : List (List AnyRow)) (b : List ℕ) (all : List AnyRow) → AreTold (knowns_of R.bytes (inputs_of merge.old)) contents → R.bytes (reader_in input.old) ≡ Some b → IsIndexed (index_of input.old.reader) all b
        → KeepsBound (aggs_of s) [] (rows_of (lifted_parts (knowns_of R.bytes (inputs_of merge.old)) contents)) → ⊥) }
{
    finish_merge(merge, merged)?;
    finish_input(alloc, cursor, input, read)
}

/// Reads a merge to its end, if it hasn't ended.
pub(crate) fn finish_merge<R: FileReader>(
    merge: &mut Merge<R>,
    ended: bool,
) -> Result<(), FileError>
    requires { (s : Columns) × (givens : List (List AnyRow)) × HasMerged R.bytes s merge.old givens }
    ensures rest { OnOk result ((s : Columns) (givens : List (List AnyRow)) → HasMerged R.bytes s merge.old givens → (IsTrue ended → AreAll (knowns_of R.bytes (inputs_of merge.old)) givens)
        → (after : List (List AnyRow)) × (more : List AnyRow) × AreAll (knowns_of R.bytes (inputs_of merge.old)) after × (folded (aggs_of s) after ≡ folded (aggs_of s) givens ++ more) × (IsTrue ended → more ≡ [])) }
    ensures known { knowns_of R.bytes (inputs_of merge.new) ≡ knowns_of R.bytes (inputs_of merge.old) }
    ensures cause { HaveFaultCause (λ e. e ≡ file_error.Read) (faults_of R.faults (inputs_of merge.old)) (faults_of R.faults (inputs_of merge.new)) result }
    ensures never { IfErr result (λ e. (d : AnyDamage) → e ≡ file_error.Damaged d → (s : Columns) (givens : List (List AnyRow)) → HasMerged R.bytes s merge.old givens
        → (contents : List (List AnyRow)) → AreTold (knowns_of R.bytes (inputs_of merge.old)) contents → KeepsBound (aggs_of s) [] (rows_of (lifted_parts (knowns_of R.bytes (inputs_of merge.old)) contents)) → ⊥) }
{
    if ended {
        return Ok(());
    }
    'rows: for _ in 0..u64::MAX {
        let more = match merge.next() {
            Ok(more) => more,
            Err(error) => return Err(error),
        };
        if !more {
            return Ok(());
        }
    }
    Err(FileError::Memory)
}

/// Reads an input to its end, if it hasn't ended.
pub(crate) fn finish_input<R: FileReader>(
    alloc: Global,
    cursor: &mut Cursor,
    input: &mut Input<R>,
    ended: bool,
) -> Result<(), FileError>
    requires input { IsInput R.bytes input.old }
    requires whole { low_of cursor.old ≡ None }
    ensures rest { OnOk result ((given : List AnyRow) → HasGiven R.bytes input.old cursor.old given → (IsTrue ended → IsAllOf R.bytes input.old given)
        → (more : List AnyRow) × HasGiven R.bytes input.new cursor.new (given ++ more) × IsAllOf R.bytes input.new (given ++ more) × (IsTrue ended → more ≡ [])) }
    ensures same { IsSameInput R.bytes input.old input.new }
    ensures cause { HasFaultCause (λ e. e ≡ file_error.Read) (R.faults (reader_in input.old)) (R.faults (reader_in input.new)) result }
    ensures never { IfErr result (λ e. (d : AnyDamage) → e ≡ file_error.Damaged d → (b : List ℕ) (all : List AnyRow) → R.bytes (reader_in input.old) ≡ Some b → IsIndexed (index_of input.old.reader) all b → ⊥) }
{
    if ended {
        return Ok(());
    }
    let mut row = Row::empty(alloc);
    'rows: for _ in 0..u64::MAX {
        let more = match next_row(cursor, input, &mut row) {
            Ok(more) => more,
            Err(error) => return Err(error),
        };
        if !more {
            return Ok(());
        }
    }
    Err(FileError::Memory)
}
