// The file of merged inputs.
ghost use Rattle.std.specs.Prelude.{◌≡◌, ◌<◌, ℕ, List, [], length, map, IfOk, IfErr};
ghost use Rattle.std.specs.List.{AllByRecursion};
ghost use Rattle.mesa_file.specs.declared.damage.Damage.{Damage as AnyDamage};
ghost use Rattle.mesa_open_files.specs.mesa_columns.declared.rows.Row.{Row as AnyRow};
ghost use Rattle.mesa_open_files.specs.mesa_columns.Columns.{aggs_of};
ghost use Rattle.mesa_open_files.specs.mesa_fold.Folded.{folded, rows_of};
ghost use Rattle.mesa_batch.specs.Bound.{KeepsBound};
ghost use Rattle.mesa_answer.specs.Answering.{KeepsSums};
ghost use Rattle.mesa_answer.specs.Gathered.{wanted_of};
ghost use Rattle.mesa_open_files.specs.mesa_scan.Cursors.{IsInput};
ghost use Rattle.mesa_merge.specs.Faults.{faults_of};
ghost use Rattle.mesa_merge.specs.Inputs.{AreAll, AreInputs, AreTold, knowns_of, lifted_parts};
ghost use Rattle.mesa_merge.specs.Merged.{HasMerged, inputs_of};
ghost use Rattle.mesa_open_files.specs.Inputs.{IsMergeOf};
ghost use Rattle.mesa_open_files.specs.Made.{IsMadeFile};
ghost use Rattle.mesa_compact.specs.Bounded.{AreBounded};
ghost use Rattle.mesa_compact.specs.Damaged.{IsMergeDamage, IsNewestOf};
ghost use Rattle.mesa_compact.specs.Grouping.{HavePut, TakesRows};
ghost use Rattle.mesa_compact.specs.Writing.{HasCauses, damaged_by};

use crate::filing::{begin_file, end_file, give_up};
use crate::pouring::pour;
use mesa_answer::Groups;
use mesa_delta::{FileError, Input};
use mesa_disk::{Bench, FileReader, Made};
use mesa_file::FileId;
use mesa_merge::Merge;
use mesa_open_files::{CompactError, MadeFile};
use mesa_schema::Schema;
use std::alloc::Global;
use std::mem;

/// Merges inputs in version order into one file, through a new draft under this id, and puts the rows into groups as they come. The inputs are there still, whatever becomes of the file.
/// A total that leaves its type is told as damage of the newest input that holds the key with which it leaves.
pub fn merged_file<M: Made, B: Bench<M>, R: FileReader>(
    alloc: Global,
    bench: &mut B,
    id: FileId,
    schema: &Schema,
    inputs: &mut Vec<Input<R>>,
    groups: &mut [Groups],
) -> Result<MadeFile<M>, CompactError>
    requires some { 0 < length inputs.old.items }
    requires inputs { AreInputs R.bytes schema.now inputs.old.items }
    requires none { HavePut groups.old [] }
    requires takes { AllByRecursion (TakesRows schema.now) groups.old }
    ensures known { knowns_of R.bytes inputs.new.items ≡ knowns_of R.bytes inputs.old.items }
    ensures kept { AllByRecursion (IsInput R.bytes) inputs.new.items }
    ensures made { IfOk result (λ made. (rows : List AnyRow) × IsMergeOf R.bytes schema.now inputs.old.items rows × IsMadeFile M.bytes M.id_of (record { columns = schema.now; rows = rows }) made × HavePut groups.new rows
        × (AreBounded schema.now (knowns_of R.bytes inputs.old.items) → KeepsSums schema.now rows)) }
    ensures id { IfOk result (λ made. M.id_of made.made ≡ id) }
    ensures wanted { map wanted_of groups.new ≡ map wanted_of groups.old }
    ensures causes { HasCauses (B.faults bench.old) (B.faults bench.new) (faults_of R.faults inputs.old.items) (faults_of R.faults inputs.new.items) (IsMergeDamage R.bytes R.size inputs.new.items) result }
    ensures accepts { IfErr result (λ e. (d : AnyDamage) → e ≡ damaged_by d → (contents : List (List AnyRow)) → AreTold (knowns_of R.bytes inputs.old.items) contents
        → KeepsBound (aggs_of schema.now) [] (rows_of (lifted_parts (knowns_of R.bytes inputs.old.items) contents)) → ⊥) }
{
    let taken = mem::replace(inputs, Vec::new(alloc));
    let (back, made) = merge_into(alloc, bench, id, schema, taken, groups);
    let empty = mem::replace(inputs, back);
    empty.destroy_empty();
    made
}

/// The newest file of inputs.
pub fn newest_of<R: FileReader>(inputs: &[Input<R>]) -> FileId
    requires { 0 < length inputs.now }
    ensures { IsNewestOf (knowns_of R.bytes inputs.now) result }
{
    inputs[inputs.len() - 1].reader.index().file()
}

// The file of inputs, and the inputs again.
fn merge_into<M: Made, B: Bench<M>, R: FileReader>(
    alloc: Global,
    bench: &mut B,
    id: FileId,
    schema: &Schema,
    inputs: Vec<Input<R>>,
    groups: &mut [Groups],
) -> (Vec<Input<R>>, Result<MadeFile<M>, CompactError>)
    requires some { 0 < length inputs.items }
    requires inputs { AreInputs R.bytes schema.now inputs.items }
    requires none { HavePut groups.old [] }
    requires takes { AllByRecursion (TakesRows schema.now) groups.old }
    ensures known { knowns_of R.bytes result.0.items ≡ knowns_of R.bytes inputs.items }
    ensures kept { AllByRecursion (IsInput R.bytes) result.0.items }
    ensures made { IfOk result.1 (λ made. (rows : List AnyRow) × IsMergeOf R.bytes schema.now inputs.items rows × IsMadeFile M.bytes M.id_of (record { columns = schema.now; rows = rows }) made × HavePut groups.new rows
        × (AreBounded schema.now (knowns_of R.bytes inputs.items) → KeepsSums schema.now rows)) }
    ensures id { IfOk result.1 (λ made. M.id_of made.made ≡ id) }
    ensures wanted { map wanted_of groups.new ≡ map wanted_of groups.old }
    ensures causes { HasCauses (B.faults bench.old) (B.faults bench.new) (faults_of R.faults inputs.items) (faults_of R.faults result.0.items) (IsMergeDamage R.bytes R.size result.0.items) result.1 }
    ensures accepts { IfErr result.1 (λ e. (d : AnyDamage) → e ≡ damaged_by d → (contents : List (List AnyRow)) → AreTold (knowns_of R.bytes inputs.items) contents
        → KeepsBound (aggs_of schema.now) [] (rows_of (lifted_parts (knowns_of R.bytes inputs.items) contents)) → ⊥) }
{
    match Merge::new(alloc, inputs) {
        Ok(mut merge) => {
            let made = file_of(alloc, bench, id, schema, &mut merge, groups);
            (merge.into_inputs(), made)
        }
        Err((_, inputs)) => (inputs, Err(CompactError::File(FileError::Memory))),
    }
}

// The file of all rows of a merge that has given none yet.
fn file_of<M: Made, B: Bench<M>, R: FileReader>(
    alloc: Global,
    bench: &mut B,
    id: FileId,
    schema: &Schema,
    merge: &mut Merge<R>,
    groups: &mut [Groups],
) -> Result<MadeFile<M>, CompactError>
    requires some { 0 < length (inputs_of merge.old) }
    requires merging { (givens : List (List AnyRow)) × HasMerged R.bytes schema.now merge.old givens × (folded (aggs_of schema.now) givens ≡ []) }
    requires none { HavePut groups.old [] }
    requires takes { AllByRecursion (TakesRows schema.now) groups.old }
    ensures known { knowns_of R.bytes (inputs_of merge.new) ≡ knowns_of R.bytes (inputs_of merge.old) }
    ensures kept { AllByRecursion (IsInput R.bytes) (inputs_of merge.old) → AllByRecursion (IsInput R.bytes) (inputs_of merge.new) }
    ensures made { IfOk result (λ made. (after : List (List AnyRow)) × AreAll (knowns_of R.bytes (inputs_of merge.new)) after
        × IsMadeFile M.bytes M.id_of (record { columns = schema.now; rows = folded (aggs_of schema.now) after }) made × HavePut groups.new (folded (aggs_of schema.now) after)
        × (AreBounded schema.now (knowns_of R.bytes (inputs_of merge.new)) → KeepsSums schema.now (folded (aggs_of schema.now) after))) }
    ensures id { IfOk result (λ made. M.id_of made.made ≡ id) }
    ensures wanted { map wanted_of groups.new ≡ map wanted_of groups.old }
    ensures causes { HasCauses (B.faults bench.old) (B.faults bench.new) (faults_of R.faults (inputs_of merge.old)) (faults_of R.faults (inputs_of merge.new)) (IsMergeDamage R.bytes R.size (inputs_of merge.new)) result }
    ensures accepts { IfErr result (λ e. (d : AnyDamage) → e ≡ damaged_by d → (givens : List (List AnyRow)) → HasMerged R.bytes schema.now merge.old givens → folded (aggs_of schema.now) givens ≡ []
        → (contents : List (List AnyRow)) → AreTold (knowns_of R.bytes (inputs_of merge.old)) contents → KeepsBound (aggs_of schema.now) [] (rows_of (lifted_parts (knowns_of R.bytes (inputs_of merge.old)) contents)) → ⊥) }
{
    let mut writer = match begin_file(alloc, bench, id, schema) {
        Ok(writer) => writer,
        Err(error) => return Err(error),
    };
    match pour(merge, &mut writer, groups) {
        Ok(()) => end_file(bench, writer),
        Err(error) => {
            give_up(bench, writer);
            Err(error)
        }
    }
}
