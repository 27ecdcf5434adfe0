// The next row of a merge.
ghost use Rattle.std.specs.Prelude.{◌≡◌, ◌<◌, ◌++◌, ◌∷◌, [], ℕ, List, length, Bool, IsTrue, false, Option, Ok, IfOk, OnOk, IfErr, IfSome, IfNone, get_or};
ghost use Rattle.std.specs.Bool.{then_some};
ghost use Rattle.std.specs.List.{AllByRecursion};
ghost use Rattle.mesa_scan.specs.mesa_file.declared.damage.Damage.{Damage as AnyDamage};
ghost use Rattle.mesa_scan.specs.mesa_columns.declared.rows.Row.{Row as AnyRow};
ghost use Rattle.mesa_scan.specs.mesa_columns.Columns.{Columns, aggs_of};
ghost use Rattle.mesa_scan.specs.mesa_fold.Folded.{folded, rows_of};
ghost use Rattle.mesa_scan.specs.mesa_columns.Rows.{IsRowOf};
ghost use Rattle.mesa_batch.specs.Bound.{KeepsBound};
ghost use Rattle.mesa_delta.specs.declared.error.FileError.TheVariants as file_error;
ghost use Rattle.mesa_scan.specs.Cursors.{IsInput};
ghost use Rattle.mesa_scan.specs.Cut.{lies_in};
ghost use Rattle.mesa_merge.specs.Damaged.{IsBlockOf, IsDamageOf};
ghost use Rattle.mesa_merge.specs.Faults.{HaveFaultCause, faults_of};
ghost use Rattle.mesa_merge.specs.Hands.{IsPast, hands_of};
ghost use Rattle.mesa_merge.specs.Inputs.{AreAlike, AreTold, knowns_of, lifted_parts};
ghost use Rattle.mesa_merge.specs.Matches.{IsTree};
ghost use Rattle.mesa_merge.specs.Merging.{AreUpTo, HasGivens, IsMerging};
ghost use Rattle.mesa_merge.specs.Sums.{IsLastOf};

use crate::gathering::gather;
use crate::heads::take_head;
use crate::matches::Tree;
use crate::stopping::least_below;
use crate::streams::{advance, start};
use crate::waiting::wait_from;
use mesa_delta::{Ahead, FileError, Input};
use mesa_disk::FileReader;
use mesa_key::KeyBytes;
use mesa_scan::Cursor;
use mesa_schema::{Row, folds_go_on};
use mesa_value::Agg;
use std::alloc::Global;

// Reads the first block of each input: of up to four at once, so that their digests are taken side by side.
pub(crate) fn begin<R: FileReader>(
    alloc: Global,
    inputs: &mut [Input<R>],
    cursors: &mut [Cursor],
    tree: &mut Tree,
) -> Result<(), FileError>
    requires count { length cursors.old ≡ length inputs.old }
    requires tree { IsTree (hands_of cursors.old) tree.old }
    requires none { (j : ℕ) → get_or (hands_of cursors.old) j [] ≡ [] }
    ensures tree { OnOk result (IsTree (hands_of cursors.new) tree.new) }
    ensures merging { OnOk result ((low : Option (List ℕ)) (s : Columns) (givens : List (List AnyRow)) → AreAlike s (knowns_of R.bytes inputs.old) → HasGivens R.bytes low inputs.old cursors.old givens → ((j : ℕ) → get_or givens j [] ≡ [])
        → IsMerging R.bytes low s inputs.new cursors.new givens) }
    ensures known { knowns_of R.bytes inputs.new ≡ knowns_of R.bytes inputs.old }
    ensures inputs { AllByRecursion (IsInput R.bytes) inputs.old → AllByRecursion (IsInput R.bytes) inputs.new }
    ensures cause { HaveFaultCause (λ e. e ≡ file_error.Read) (faults_of R.faults inputs.old) (faults_of R.faults inputs.new) result }
    ensures damaged { IfErr result (λ e. (d : AnyDamage) → e ≡ file_error.Damaged d → (low : Option (List ℕ)) (givens : List (List AnyRow)) → HasGivens R.bytes low inputs.old cursors.old givens → IsBlockOf R.bytes R.size (knowns_of R.bytes inputs.old) d) }
    ensures accepts { IfErr result (λ e. (d : AnyDamage) → e ≡ file_error.Damaged d → (low : Option (List ℕ)) (givens : List (List AnyRow)) → HasGivens R.bytes low inputs.old cursors.old givens → (contents : List (List AnyRow)) → AreTold (knowns_of R.bytes inputs.old) contents → ⊥) }
{
    let mut ahead = Ahead::new(alloc);
    'inputs: for i in 0..inputs.len() {
        match wait_from(inputs, cursors, i, &mut ahead) {
            Ok(()) => {}
            Err(error) => return Err(error),
        }
        match start(inputs, cursors, tree, i, &mut ahead) {
            Ok(()) => {}
            Err(error) => return Err(error),
        }
    }
    Ok(())
}

// Whether there is a next row of the fold below the high end, which then stands in this one, with the last input that gave a row of its key. After an error it may hold anything.
pub(crate) fn next_row<R: FileReader>(
    inputs: &mut [Input<R>],
    cursors: &mut [Cursor],
    tree: &mut Tree,
    aggs: &[Agg],
    high: &Option<KeyBytes>,
    row: &mut Row,
    last: &mut usize,
) -> Result<bool, FileError>
    requires tree { IsTree (hands_of cursors.old) tree.old }
    requires merging { (low : Option (List ℕ)) × (s : Columns) × (givens : List (List AnyRow)) × (0 < length inputs.old → aggs.now ≡ aggs_of s) × IsMerging R.bytes low s inputs.old cursors.old givens }
    ensures tree { OnOk result (IsTree (hands_of cursors.new) tree.new) }
    ensures some { IfOk result (λ more. IfSome (then_some more row.new) (λ given. (low : Option (List ℕ)) (s : Columns) (givens : List (List AnyRow)) → (0 < length inputs.old → aggs.now ≡ aggs_of s) → IsMerging R.bytes low s inputs.old cursors.old givens
        → (after : List (List AnyRow)) × IsMerging R.bytes low s inputs.new cursors.new after × (folded (aggs_of s) after ≡ folded (aggs_of s) givens ++ given ∷ []) × IsRowOf s given × IsTrue (lies_in low high.now given.key) × ((j : ℕ) → AreUpTo given.key (get_or after j [])) × IsLastOf given.key last.new after)) }
    ensures none { IfOk result (λ more. IfNone (then_some more row.new) ((low : Option (List ℕ)) (s : Columns) (givens : List (List AnyRow)) → IsMerging R.bytes low s inputs.old cursors.old givens → IsMerging R.bytes low s inputs.new cursors.new givens)) }
    ensures past { IfOk result (λ more. IfNone (then_some more row.new) ((j : ℕ) → IsPast high.now (get_or (hands_of cursors.new) j []))) }
    ensures stays { ((j : ℕ) → IsPast high.now (get_or (hands_of cursors.old) j [])) → result ≡ Ok false }
    ensures known { knowns_of R.bytes inputs.new ≡ knowns_of R.bytes inputs.old }
    ensures inputs { AllByRecursion (IsInput R.bytes) inputs.old → AllByRecursion (IsInput R.bytes) inputs.new }
    ensures cause { HaveFaultCause (λ e. e ≡ file_error.Read) (faults_of R.faults inputs.old) (faults_of R.faults inputs.new) result }
    ensures damaged { IfErr result (λ e. (d : AnyDamage) → e ≡ file_error.Damaged d → IsDamageOf R.bytes R.size inputs.new d) }
    ensures accepts { IfErr result (λ e. (d : AnyDamage) → e ≡ file_error.Damaged d → (low : Option (List ℕ)) (s : Columns) (givens : List (List AnyRow)) → (0 < length inputs.old → aggs.now ≡ aggs_of s) → IsMerging R.bytes low s inputs.old cursors.old givens
        → (contents : List (List AnyRow)) → AreTold (knowns_of R.bytes inputs.old) contents → KeepsBound (aggs_of s) [] (rows_of (lifted_parts (knowns_of R.bytes inputs.old) contents)) → ⊥) }
{
    folds_go_on();
    let Some(i) = least_below(tree, cursors, high) else {
        return Ok(false);
    };
    take_head(&cursors[i], row)?;
    match advance(inputs, cursors, tree, i) {
        Ok(()) => {}
        Err(error) => return Err(error),
    }
    match gather(inputs, cursors, tree, aggs, row, i) {
        Ok(newest) => {
            *last = newest;
            Ok(true)
        }
        Err(error) => Err(error),
    }
}
