// Rows of one key, combined.
ghost use Rattle.std.specs.Prelude.{◌≡◌, ◌<◌, ◌+◌, ◌++◌, ◌∷◌, [], ℕ, List, length, Option, IfErr, IfOk, IfSome, IfNone, OnOk, get_or};
ghost use Rattle.std.specs.List.{AllByRecursion};
ghost use Rattle.mesa_scan.specs.mesa_file.declared.damage.Damage.{Damage as AnyDamage};
ghost use Rattle.mesa_scan.specs.mesa_columns.declared.rows.Row.{Row as AnyRow};
ghost use Rattle.mesa_scan.specs.mesa_columns.Columns.{Columns, aggs_of};
ghost use Rattle.mesa_scan.specs.mesa_fold.Folded.{folded, rows_of};
ghost use Rattle.mesa_scan.specs.mesa_columns.Rows.{IsRowOf};
ghost use Rattle.mesa_batch.specs.Bound.{KeepsBound};
ghost use Rattle.mesa_delta.specs.declared.error.FileError.TheVariants as file_error;
ghost use Rattle.mesa_scan.specs.Cursors.{IsInput};
ghost use Rattle.mesa_merge.specs.Damaged.{IsDamageOf};
ghost use Rattle.mesa_merge.specs.Faults.{HaveFaultCause, faults_of};
ghost use Rattle.mesa_merge.specs.Hands.{IsAhead, IsFrom, IsLeastOf, hands_of};
ghost use Rattle.mesa_merge.specs.Inputs.{AreTold, knowns_of, lifted_parts};
ghost use Rattle.mesa_merge.specs.Matches.{IsTree};
ghost use Rattle.mesa_merge.specs.Merging.{AreUpTo, IsGathering, IsMerging};
ghost use Rattle.mesa_merge.specs.Sums.{IsLastOf};

use crate::heads::combine_head;
use crate::matches::{Tree, least};
use crate::streams::advance;
use crate::sums::{file_at, is_same, newest_with, sum_fault};
use mesa_batch::folds_totals;
use mesa_delta::{FileError, Input};
use mesa_disk::FileReader;
use mesa_scan::Cursor;
use mesa_schema::{Row, folds_go_on};
use mesa_value::Agg;

// The first of the inputs whose row at hand has this key, where none has a lesser one.
fn same_key(tree: &Tree, cursors: &[Cursor], key: &[u8]) -> Option<usize>
    requires { IsTree (hands_of cursors.now) tree.now }
    ensures within { IfSome result (λ i. i < length cursors.now) }
    ensures least { IfSome result (λ i. IsLeastOf key.now i (hands_of cursors.now)) }
    ensures none { IfNone result (((j : ℕ) → IsFrom key.now (get_or (hands_of cursors.now) j [])) → (j : ℕ) → IsAhead key.now (get_or (hands_of cursors.now) j [])) }
{
    let Some(i) = least(tree, cursors) else {
        return None;
    };
    let Some(row) = cursors[i].head() else {
        return None;
    };
    if is_same(row.key, key) { Some(i) } else { None }
}

// Combines a row with the further rows of its key, in the order of the inputs. It was taken from this input; the last that it was combined with is told. After an error it may be any row.
pub(crate) fn gather<R: FileReader>(
    inputs: &mut [Input<R>],
    cursors: &mut [Cursor],
    tree: &mut Tree,
    aggs: &[Agg],
    row: &mut Row,
    mut from: usize,
) -> Result<usize, FileError>
    requires within { from < length inputs.old }
    requires count { length cursors.old ≡ length inputs.old }
    requires tree { IsTree (hands_of cursors.old) tree.old }
    requires gathering { (low : Option (List ℕ)) × (s : Columns) × (front : List AnyRow) × (givens : List (List AnyRow)) × (aggs.now ≡ aggs_of s) × IsGathering R.bytes low s inputs.old cursors.old (from + 1) row.old front givens }
    ensures tree { OnOk result (IsTree (hands_of cursors.new) tree.new) }
    ensures merging { IfOk result (λ last. (low : Option (List ℕ)) (s : Columns) (front : List AnyRow) (givens : List (List AnyRow)) → aggs.now ≡ aggs_of s → IsGathering R.bytes low s inputs.old cursors.old (from + 1) row.old front givens
        → (after : List (List AnyRow)) × IsMerging R.bytes low s inputs.new cursors.new after × (folded (aggs_of s) after ≡ front ++ row.new ∷ []) × IsRowOf s row.new × ((j : ℕ) → AreUpTo row.new.key (get_or after j [])) × IsLastOf row.new.key last after) }
    ensures key { IfOk result (λ last. row.new.key ≡ row.old.key) }
    ensures known { knowns_of R.bytes inputs.new ≡ knowns_of R.bytes inputs.old }
    ensures inputs { AllByRecursion (IsInput R.bytes) inputs.old → AllByRecursion (IsInput R.bytes) inputs.new }
    ensures cause { HaveFaultCause (λ e. e ≡ file_error.Read) (faults_of R.faults inputs.old) (faults_of R.faults inputs.new) result }
    ensures damaged { IfErr result (λ e. (d : AnyDamage) → e ≡ file_error.Damaged d → IsDamageOf R.bytes R.size inputs.new d) }
    ensures accepts { IfErr result (λ e. (d : AnyDamage) → e ≡ file_error.Damaged d → (low : Option (List ℕ)) (s : Columns) (front : List AnyRow) (givens : List (List AnyRow)) → aggs.now ≡ aggs_of s → IsGathering R.bytes low s inputs.old cursors.old (from + 1) row.old front givens
        → (contents : List (List AnyRow)) → AreTold (knowns_of R.bytes inputs.old) contents → KeepsBound (aggs_of s) [] (rows_of (lifted_parts (knowns_of R.bytes inputs.old) contents)) → ⊥) }
{
    folds_go_on();
    folds_totals();
    'same: while let Some(i) = same_key(tree, cursors, row.key.as_slice()) {
        cursors[i].rises(&inputs[i]);
        let combined = combine_head(&cursors[i], aggs, row);
        match advance(inputs, cursors, tree, i) {
            Ok(()) => {}
            Err(error) => return Err(error),
        }
        from = i;
        if !combined {
            let newest = newest_with(cursors, row.key.as_slice(), from);
            return Err(sum_fault(file_at(inputs, newest)));
        }
    }
    Ok(from)
}
