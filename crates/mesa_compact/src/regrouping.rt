// The rows of a range, grouped by chosen columns of its table, as a file.
ghost use Rattle.std.specs.Prelude.{◌≡◌, ◌<◌, ◌⊎◌, ℕ, List, [], length, nat_le, IfErr, IfOk, OnOk, IsTrue};
ghost use Rattle.std.specs.List.{AllByRecursion, list_any};
ghost use Rattle.mesa_file.specs.declared.damage.Damage.{Damage as AnyDamage};
ghost use Rattle.mesa_open_files.specs.mesa_columns.declared.rows.Row.{Row as AnyRow};
ghost use Rattle.mesa_open_files.specs.mesa_columns.Columns.{aggs_of};
ghost use Rattle.mesa_open_files.specs.mesa_fold.Folded.{folded, grouped};
ghost use Rattle.mesa_open_files.specs.mesa_columns.Rows.{AreRowsOf, keys_rise};
ghost use Rattle.mesa_batch.specs.Totals.{abs_totals, sum_bound};
ghost use Rattle.mesa_open_files.specs.mesa_filter.Query.{are_places};
ghost use Rattle.mesa_answer.specs.Answering.{KeepsSums, grouped_columns};
ghost use Rattle.mesa_answer.specs.Gathered.{HasPut, wanted_of};
ghost use Rattle.mesa_open_files.specs.mesa_scan.Cursors.{IsInput};
ghost use Rattle.mesa_merge.specs.Faults.{faults_of};
ghost use Rattle.mesa_merge.specs.Inputs.{AreAll, AreInputs, knowns_of};
ghost use Rattle.mesa_merge.specs.Merged.{HasMerged, inputs_of};
ghost use Rattle.mesa_merge.specs.Sums.{sum_damage};
ghost use Rattle.mesa_open_files.specs.Inputs.{IsMergeOf};
ghost use Rattle.mesa_open_files.specs.Made.{IsMadeFile};
ghost use Rattle.mesa_compact.specs.Bounded.{AreBounded};
ghost use Rattle.mesa_compact.specs.Damaged.{IsMergeDamage, LeavesAmong, TotalLeaves};
ghost use Rattle.mesa_compact.specs.Regrouped.{IsRegroupDamage, PassesBound};
ghost use Rattle.mesa_compact.specs.Writing.{HasCauses, damaged_by};

use crate::files::newest_of;
use crate::grouped::rows_file;
use crate::pouring::sum_fault;
use mesa_answer::Groups;
use mesa_batch::{OVER_BOUND, folds_totals, row_totals};
use mesa_delta::{FileError, Input};
use mesa_disk::{Bench, FileReader, Made};
use mesa_file::FileId;
use mesa_merge::Merge;
use mesa_open_files::{CompactError, MadeFile};
use mesa_schema::{Row, RowList, Schema, Totals, folds_by_key, groups_rise};
use mesa_view::put_row;
use std::alloc::Global;

/// Merges the inputs of a range, groups their rows by the columns at these places, and writes the groups into a file, through a new draft under this id. Their absolute totals stand beside it, none above 2^127 - 1: where one is, no draft is begun, since no record could tell it. The inputs are there still, whatever becomes of the file.
/// The groups are held until they are written: memory grows with them, and not with the rows of the inputs.
pub fn regroup_range<M: Made, B: Bench<M>, R: FileReader>(
    alloc: Global,
    bench: &mut B,
    id: FileId,
    present: &Schema,
    renewed: &Schema,
    columns: &[u16],
    values: &[u16],
    inputs: Vec<Input<R>>,
) -> (Vec<Input<R>>, Result<(MadeFile<M>, Totals), CompactError>)
    requires some { 0 < length inputs.items }
    requires inputs { AreInputs R.bytes present.now inputs.items }
    requires columns_there { IsTrue (are_places present.now.keys columns.now) }
    requires values_there { IsTrue (are_places present.now.values values.now) }
    requires renewed { renewed.now ≡ grouped_columns present.now columns.now values.now }
    ensures known { knowns_of R.bytes result.0.items ≡ knowns_of R.bytes inputs.items }
    ensures kept { AllByRecursion (IsInput R.bytes) result.0.items }

    // On every store: the file has the merge of the inputs, grouped, and the totals are those of the groups.
    ensures made { IfOk result.1 (λ made. (rows : List AnyRow) × IsMergeOf R.bytes present.now inputs.items rows × IsMadeFile M.bytes M.id_of (record { columns = renewed.now; rows = grouped present.now columns.now values.now rows }) made.0
        × (made.1 ≡ abs_totals renewed.now (grouped present.now columns.now values.now rows))) }
    ensures small { IfOk result.1 (λ made. AllByRecursion (λ n. n < sum_bound) made.1) }
    ensures id { IfOk result.1 (λ made. M.id_of made.0.made ≡ id) }
    ensures causes { HasCauses (B.faults bench.old) (B.faults bench.new) (faults_of R.faults inputs.items) (faults_of R.faults result.0.items) (IsRegroupDamage R.bytes R.size present.now columns.now values.now result.0.items) result.1 }
    ensures accepts { IfErr result.1 (λ e. (d : AnyDamage) → e ≡ damaged_by d → AreBounded present.now (knowns_of R.bytes inputs.items) → ⊥) }
{
    groups_rise();
    let newest = newest_of(&inputs);
    let (back, grouped) = regrouped(alloc, present, columns, values, inputs);
    match grouped {
        Ok(rows) => {
            let made = groups_file(alloc, bench, id, renewed, rows.as_slice(), newest);
            (back, made)
        }
        Err(error) => (back, Err(error)),
    }
}

// The file of groups, and their totals.
fn groups_file<M: Made, B: Bench<M>>(
    alloc: Global,
    bench: &mut B,
    id: FileId,
    schema: &Schema,
    rows: &[Row],
    newest: FileId,
) -> Result<(MadeFile<M>, Totals), CompactError>
    requires some { 0 < length rows.now }
    requires form { AreRowsOf schema.now rows.now }
    requires rise { IsTrue (keys_rise rows.now) }
    ensures made { IfOk result (λ made. IsMadeFile M.bytes M.id_of (record { columns = schema.now; rows = rows.now }) made.0) }
    ensures totals { IfOk result (λ made. made.1 ≡ abs_totals schema.now rows.now) }
    ensures small { IfOk result (λ made. AllByRecursion (λ n. n < sum_bound) made.1) }
    ensures id { IfOk result (λ made. M.id_of made.0.made ≡ id) }
    ensures causes { (reads : List ℕ) → HasCauses (B.faults bench.old) (B.faults bench.new) reads reads (λ d. (d ≡ sum_damage newest) × (LeavesAmong (TotalLeaves schema.now) rows.now ⊎ PassesBound schema.now rows.now)) result }
    ensures accepts { IfErr result (λ e. (d : AnyDamage) → e ≡ damaged_by d → KeepsSums schema.now rows.now → ⊥) }
{
    let Ok(totals) = row_totals(alloc, schema, rows) else {
        return Err(CompactError::File(FileError::Memory));
    };
    if is_over(totals.as_slice()) {
        return Err(sum_fault(newest));
    }
    match rows_file(alloc, bench, id, schema, rows, newest) {
        Ok(file) => Ok((file, totals)),
        Err(error) => Err(error),
    }
}

// Whether one of these totals passes the bound by itself.
fn is_over(totals: &[u128]) -> bool
    ensures { result ≡ list_any (λ total. nat_le sum_bound total) totals.now }
{
    totals.iter().any(|total| *total >= OVER_BOUND)
}

// The groups of all rows of inputs, and the inputs again.
fn regrouped<R: FileReader>(
    alloc: Global,
    schema: &Schema,
    columns: &[u16],
    values: &[u16],
    inputs: Vec<Input<R>>,
) -> (Vec<Input<R>>, Result<RowList, CompactError>)
    requires some { 0 < length inputs.items }
    requires inputs { AreInputs R.bytes schema.now inputs.items }
    requires columns_there { IsTrue (are_places schema.now.keys columns.now) }
    requires values_there { IsTrue (are_places schema.now.values values.now) }
    ensures known { knowns_of R.bytes result.0.items ≡ knowns_of R.bytes inputs.items }
    ensures kept { AllByRecursion (IsInput R.bytes) result.0.items }
    ensures rows { IfOk result.1 (λ its. (givens : List (List AnyRow)) × AreAll (knowns_of R.bytes inputs.items) givens × (its ≡ grouped schema.now columns.now values.now (folded (aggs_of schema.now) givens))
        × (0 < length (folded (aggs_of schema.now) givens)) × AreRowsOf schema.now (folded (aggs_of schema.now) givens) × (AreBounded schema.now (knowns_of R.bytes inputs.items) → KeepsSums schema.now (folded (aggs_of schema.now) givens))) }
    ensures causes { (drafts : ℕ) → HasCauses drafts drafts (faults_of R.faults inputs.items) (faults_of R.faults result.0.items) (IsMergeDamage R.bytes R.size result.0.items) result.1 }
    ensures accepts { IfErr result.1 (λ e. (d : AnyDamage) → e ≡ damaged_by d → AreBounded schema.now (knowns_of R.bytes inputs.items) → ⊥) }
{
    match Merge::new(alloc, inputs) {
        Ok(mut merge) => {
            let rows = groups_in(alloc, schema, columns, values, &mut merge);
            (merge.into_inputs(), rows)
        }
        Err((_, inputs)) => (inputs, Err(CompactError::File(FileError::Memory))),
    }
}

// The groups of all rows of a merge that has given none yet.
fn groups_in<R: FileReader>(
    alloc: Global,
    schema: &Schema,
    columns: &[u16],
    values: &[u16],
    merge: &mut Merge<R>,
) -> Result<RowList, CompactError>
    requires some { 0 < length (inputs_of merge.old) }
    requires merging { (givens : List (List AnyRow)) × HasMerged R.bytes schema.now merge.old givens × (folded (aggs_of schema.now) givens ≡ []) }
    requires columns_there { IsTrue (are_places schema.now.keys columns.now) }
    requires values_there { IsTrue (are_places schema.now.values values.now) }
    ensures known { knowns_of R.bytes (inputs_of merge.new) ≡ knowns_of R.bytes (inputs_of merge.old) }
    ensures kept { AllByRecursion (IsInput R.bytes) (inputs_of merge.old) → AllByRecursion (IsInput R.bytes) (inputs_of merge.new) }
    ensures rows { IfOk result (λ its. (after : List (List AnyRow)) × AreAll (knowns_of R.bytes (inputs_of merge.new)) after × (its ≡ grouped schema.now columns.now values.now (folded (aggs_of schema.now) after))
        × (0 < length (folded (aggs_of schema.now) after)) × AreRowsOf schema.now (folded (aggs_of schema.now) after) × (AreBounded schema.now (knowns_of R.bytes (inputs_of merge.new)) → KeepsSums schema.now (folded (aggs_of schema.now) after))) }
    ensures causes { (drafts : ℕ) → HasCauses drafts drafts (faults_of R.faults (inputs_of merge.old)) (faults_of R.faults (inputs_of merge.new)) (IsMergeDamage R.bytes R.size (inputs_of merge.new)) result }
    ensures accepts { IfErr result (λ e. (d : AnyDamage) → e ≡ damaged_by d → AreBounded schema.now (knowns_of R.bytes (inputs_of merge.old)) → ⊥) }
{
    let Ok(mut groups) = Groups::all(alloc, schema, columns, values) else {
        return Err(CompactError::File(FileError::Memory));
    };
    match pour_groups(merge, &mut groups) {
        Ok(()) => {}
        Err(error) => return Err(error),
    }
    match groups.into_rows() {
        Ok(rows) => Ok(rows),
        Err(_) => Err(CompactError::File(FileError::Memory)),
    }
}

// Puts all rows of a merge into groups. A sum that leaves its type is told of the newest file that holds the key with which it leaves. A file has fewer rows than a number of 64 bits can count.
fn pour_groups<R: FileReader>(merge: &mut Merge<R>, groups: &mut Groups) -> Result<(), CompactError>
    requires pouring { (givens : List (List AnyRow)) × HasMerged R.bytes (wanted_of groups.old).schema merge.old givens × HasPut groups.old (folded (aggs_of (wanted_of groups.old).schema) givens) }
    ensures put { OnOk result ((givens : List (List AnyRow)) → HasMerged R.bytes (wanted_of groups.old).schema merge.old givens → HasPut groups.old (folded (aggs_of (wanted_of groups.old).schema) givens)
        → (after : List (List AnyRow)) × AreAll (knowns_of R.bytes (inputs_of merge.new)) after × HasPut groups.new (folded (aggs_of (wanted_of groups.old).schema) after)
        × (AreBounded (wanted_of groups.old).schema (knowns_of R.bytes (inputs_of merge.new)) → KeepsSums (wanted_of groups.old).schema (folded (aggs_of (wanted_of groups.old).schema) after))) }
    ensures wanted { wanted_of groups.new ≡ wanted_of groups.old }
    ensures known { knowns_of R.bytes (inputs_of merge.new) ≡ knowns_of R.bytes (inputs_of merge.old) }
    ensures inputs { AllByRecursion (IsInput R.bytes) (inputs_of merge.old) → AllByRecursion (IsInput R.bytes) (inputs_of merge.new) }
    ensures causes { (drafts : ℕ) → HasCauses drafts drafts (faults_of R.faults (inputs_of merge.old)) (faults_of R.faults (inputs_of merge.new)) (IsMergeDamage R.bytes R.size (inputs_of merge.new)) result }
    ensures accepts { IfErr result (λ e. (d : AnyDamage) → e ≡ damaged_by d → AreBounded (wanted_of groups.old).schema (knowns_of R.bytes (inputs_of merge.old)) → ⊥) }
{
    folds_by_key();
    folds_totals();
    'rows: for _ in 0..u64::MAX {
        let more = match merge.next() {
            Ok(more) => more,
            Err(error) => return Err(CompactError::File(error)),
        };
        if !more {
            return Ok(());
        }
        let row = merge.row();
        let newest = merge.last_file();
        match put_row(groups, newest, row) {
            Ok(()) => {}
            Err(unfit) => return Err(CompactError::File(unfit)),
        }
    }
    Err(CompactError::File(FileError::Memory))
}
