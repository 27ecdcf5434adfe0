// The rows of inputs between two keys.
ghost use Rattle.std.specs.Prelude.{◌≡◌, [], ℕ, List, Option, IfErr, IfOk};
ghost use Rattle.std.specs.List.{AllByRecursion};
ghost use Rattle.mesa_file.specs.declared.damage.Damage.{Damage as AnyDamage};
ghost use Rattle.mesa_compact.specs.mesa_columns.declared.rows.Row.{Row as AnyRow};
ghost use Rattle.mesa_compact.specs.mesa_columns.Columns.{Columns, aggs_of};
ghost use Rattle.mesa_open_files.specs.mesa_fold.Folded.{folded, rows_of};
ghost use Rattle.mesa_batch.specs.Bound.{KeepsBound};
ghost use Rattle.mesa_delta.specs.declared.error.FileError.TheVariants as file_error;
ghost use Rattle.mesa_compact.specs.mesa_scan.Cursors.{IsInput};
ghost use Rattle.mesa_merge.specs.Damaged.{IsDamageOf};
ghost use Rattle.mesa_merge.specs.Faults.{HaveFaultCause, faults_of};
ghost use Rattle.mesa_merge.specs.Inputs.{AreInputs, AreTold, knowns_of, lifted_parts};
ghost use Rattle.mesa_merge.specs.Merged.{HasMergedBetween, inputs_of};
ghost use Rattle.mesa_split.specs.Parts.{HasCut, IsPartOf};

use crate::flat::FlatRows;
use mesa_delta::{FileError, Input};
use mesa_disk::FileReader;
use mesa_key::KeyBytes;
use mesa_merge::Merge;
use mesa_schema::{Schema, folds_by_key};
use std::alloc::Global;

/// The rows of inputs between two keys, and the inputs again. At most a block of each input is held beside these rows.
pub(crate) fn cut_rows<R: FileReader>(
    alloc: Global,
    schema: &Schema,
    inputs: Vec<Input<R>>,
    low: Option<KeyBytes>,
    high: Option<KeyBytes>,
) -> (Vec<Input<R>>, Result<FlatRows, FileError>)
    requires { AreInputs R.bytes schema.now inputs.items }
    ensures { HasCut R.bytes R.faults R.size schema.now low high inputs.items result.0.items result.1 }
{
    match Merge::between(alloc, inputs, low, high) {
        Ok(mut merge) => {
            let rows = collect(alloc, &mut merge);
            (merge.into_inputs(), rows)
        }
        Err((_, inputs)) => (inputs, Err(FileError::Memory)),
    }
}

// All rows of a merge that has given none yet. They are fewer than a number of 64 bits can count.
fn collect<R: FileReader>(alloc: Global, merge: &mut Merge<R>) -> Result<FlatRows, FileError>
    requires { (low : Option (List ℕ)) × (high : Option (List ℕ)) × (s : Columns) × (givens : List (List AnyRow)) × HasMergedBetween R.bytes low high s merge.old givens × (folded (aggs_of s) givens ≡ []) }
    ensures rows { IfOk result (λ rows. (low high : Option (List ℕ)) (s : Columns) (givens : List (List AnyRow)) → HasMergedBetween R.bytes low high s merge.old givens → folded (aggs_of s) givens ≡ []
        → IsPartOf s low high (knowns_of R.bytes (inputs_of merge.old)) rows) }
    ensures known { knowns_of R.bytes (inputs_of merge.new) ≡ knowns_of R.bytes (inputs_of merge.old) }
    ensures inputs { AllByRecursion (IsInput R.bytes) (inputs_of merge.old) → AllByRecursion (IsInput R.bytes) (inputs_of merge.new) }
    ensures cause { HaveFaultCause (λ e. e ≡ file_error.Read) (faults_of R.faults (inputs_of merge.old)) (faults_of R.faults (inputs_of merge.new)) result }
    ensures damaged { IfErr result (λ e. (d : AnyDamage) → e ≡ file_error.Damaged d → IsDamageOf R.bytes R.size (inputs_of merge.new) d) }
    ensures accepts { IfErr result (λ e. (d : AnyDamage) → e ≡ file_error.Damaged d → (low high : Option (List ℕ)) (s : Columns) (givens : List (List AnyRow)) → HasMergedBetween R.bytes low high s merge.old givens → folded (aggs_of s) givens ≡ []
        → (contents : List (List AnyRow)) → AreTold (knowns_of R.bytes (inputs_of merge.old)) contents → KeepsBound (aggs_of s) [] (rows_of (lifted_parts (knowns_of R.bytes (inputs_of merge.old)) contents)) → ⊥) }
{
    folds_by_key();
    let mut rows = FlatRows::new(alloc);
    'rows: for _ in 0..u64::MAX {
        let more = match merge.next() {
            Ok(more) => more,
            Err(error) => return Err(error),
        };
        if !more {
            return Ok(rows);
        }
        let Ok(()) = rows.push(merge.row()) else {
            return Err(FileError::Memory);
        };
    }
    Err(FileError::Memory)
}
