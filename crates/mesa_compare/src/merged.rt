// The rows that a merge gives compared with those of a file, or with none.
ghost use Rattle.std.specs.Prelude.{◌≡◌, [], ◌∷◌, ℕ, List, map, IfErr, IfOk, Some};
ghost use Rattle.mesa_examine.specs.mesa_file.declared.damage.Damage.{Damage as AnyDamage};
ghost use Rattle.mesa_schema.specs.mesa_columns.declared.rows.Row.{Row as AnyRow};
ghost use Rattle.mesa_schema.specs.Changes.{columns_of};
ghost use Rattle.mesa_schema.specs.mesa_columns.Columns.{Columns, aggs_of};
ghost use Rattle.mesa_schema.specs.mesa_fold.Folded.{folded, rows_of};
ghost use Rattle.mesa_examine.specs.mesa_batch.Bound.{KeepsBound};
ghost use Rattle.mesa_examine.specs.mesa_delta.Reading.{IsIndexed, index_of};
ghost use Rattle.mesa_examine.specs.mesa_delta.declared.error.FileError.TheVariants as file_error;
ghost use Rattle.mesa_examine.specs.mesa_scan.Cursors.{IsInput, IsSameInput, lift_by, reader_in};
ghost use Rattle.mesa_merge.specs.Faults.{HaveFaultCause, faults_of};
ghost use Rattle.mesa_merge.specs.Inputs.{AreTold, knowns_of, lifted_parts};
ghost use Rattle.mesa_merge.specs.Merged.{HasMerged, inputs_of};
ghost use Rattle.mesa_compare.specs.Difference.{first_difference};

use crate::finishing::{finish_both, finish_merge};
use crate::keys::difference_at;
use crate::same_rows_differ_nowhere;
use mesa_disk::FileReader;
use mesa_examine::{Cursor, FileError, Input, next_row};
use mesa_merge::{Merge, all_are_told};
use mesa_schema::{KeyBytes, Row, folds_by_key};
use std::alloc::Global;

/// The first key at which the fold of a merge's inputs differs from the rows of a file, both at present; None where they are the same. The merge has given nothing yet.
pub(crate) fn merged_difference<R: FileReader>(
    alloc: Global,
    merge: &mut Merge<R>,
    input: &mut Input<R>,
) -> Result<Option<KeyBytes>, FileError>
    requires merge { (givens : List (List AnyRow)) × HasMerged R.bytes (columns_of input.old.evolving.value) merge.old givens × (folded (aggs_of (columns_of input.old.evolving.value)) givens ≡ []) }
    requires input { IsInput R.bytes input.old }

    // Where all files are told and their indexes are true of them, it is the first difference of their rows.
    ensures difference { IfOk result (λ o. (contents : List (List AnyRow)) (b : List ℕ) (all : List AnyRow) → AreTold (knowns_of R.bytes (inputs_of merge.old)) contents → R.bytes (reader_in input.old) ≡ Some b → IsIndexed (index_of input.old.reader) all b
        → o ≡ first_difference (folded (aggs_of (columns_of input.old.evolving.value)) (lifted_parts (knowns_of R.bytes (inputs_of merge.old)) contents)) (map (lift_by input.old) all)) }

    // All inputs stay ones, of the same files.
    ensures known { knowns_of R.bytes (inputs_of merge.new) ≡ knowns_of R.bytes (inputs_of merge.old) }
    ensures same { IsSameInput R.bytes input.old input.new }

    // Read comes where a count of faults rose, and Damaged never where the files are the recorded ones and the sums keep their bound.
    ensures cause { HaveFaultCause (λ e. e ≡ file_error.Read) (R.faults (reader_in input.old) ∷ faults_of R.faults (inputs_of merge.old)) (R.faults (reader_in input.new) ∷ faults_of R.faults (inputs_of merge.new)) result }
    ensures never { IfErr result (λ e. (d : AnyDamage) → e ≡ file_error.Damaged d → (contents : List (List AnyRow)) (b : List ℕ) (all : List AnyRow) → AreTold (knowns_of R.bytes (inputs_of merge.old)) contents → R.bytes (reader_in input.old) ≡ Some b → IsIndexed (index_of input.old.reader) all b
        → KeepsBound (aggs_of (columns_of input.old.evolving.value)) [] (rows_of (lifted_parts (knowns_of R.bytes (inputs_of merge.old)) contents)) → ⊥) }
{
    same_rows_differ_nowhere();
    all_are_told();
    folds_by_key();
    let mut cursor = Cursor::of(alloc, input)?;
    let mut beside = Row::empty(alloc);
    'rows: for _ in 0..u64::MAX {
        let given = match merge.next() {
            Ok(given) => given,
            Err(error) => return Err(error),
        };
        let read = match next_row(&mut cursor, input, &mut beside) {
            Ok(read) => read,
            Err(error) => return Err(error),
        };
        let one = given.then_some(merge.row());
        let other = read.then_some(beside.lend());
        let difference = difference_at(alloc, one, other)?;
        if let Some(key) = difference {
            finish_both(alloc, merge, !given, &mut cursor, input, !read)?;
            cursor.rises(input);
            return Ok(Some(key));
        }
        if !given {
            return Ok(None);
        }
    }
    Err(FileError::Memory)
}

/// The first key that a merge gives, and None where it gives no row: where the fold of its inputs differs from no rows. The merge has given nothing yet.
pub(crate) fn first_key<R: FileReader>(
    alloc: Global,
    merge: &mut Merge<R>,
) -> Result<Option<KeyBytes>, FileError>
    requires { (s : Columns) × (givens : List (List AnyRow)) × HasMerged R.bytes s merge.old givens × (folded (aggs_of s) givens ≡ []) }

    // Where all files are told and their indexes are true of them, it is the first difference of their rows from none.
    ensures difference { IfOk result (λ o. (s : Columns) (givens contents : List (List AnyRow)) → HasMerged R.bytes s merge.old givens → folded (aggs_of s) givens ≡ [] → AreTold (knowns_of R.bytes (inputs_of merge.old)) contents
        → o ≡ first_difference (folded (aggs_of s) (lifted_parts (knowns_of R.bytes (inputs_of merge.old)) contents)) []) }

    // All inputs stay ones, of the same files.
    ensures known { knowns_of R.bytes (inputs_of merge.new) ≡ knowns_of R.bytes (inputs_of merge.old) }

    // Read comes where a count of faults rose, and Damaged never where the files are the recorded ones and the sums keep their bound.
    ensures cause { HaveFaultCause (λ e. e ≡ file_error.Read) (faults_of R.faults (inputs_of merge.old)) (faults_of R.faults (inputs_of merge.new)) result }
    ensures never { IfErr result (λ e. (d : AnyDamage) → e ≡ file_error.Damaged d → (s : Columns) (givens contents : List (List AnyRow)) → HasMerged R.bytes s merge.old givens → AreTold (knowns_of R.bytes (inputs_of merge.old)) contents
        → KeepsBound (aggs_of s) [] (rows_of (lifted_parts (knowns_of R.bytes (inputs_of merge.old)) contents)) → ⊥) }
{
    same_rows_differ_nowhere();
    all_are_told();
    folds_by_key();
    let given = match merge.next() {
        Ok(given) => given,
        Err(error) => return Err(error),
    };
    let one = given.then_some(merge.row());
    let difference = difference_at(alloc, one, None)?;
    let Some(key) = difference else {
        return Ok(None);
    };
    finish_merge(merge, false)?;
    Ok(Some(key))
}
