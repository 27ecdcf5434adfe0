// A cumulative compared with the singletons of its range.
ghost use Rattle.std.specs.Prelude.{◌≡◌, ◌∷◌, [], ℕ, List, map, IfOk, IfSome, Some};
ghost use Rattle.std.specs.List.{AllByRecursion};
ghost use Rattle.std.specs.Option.{option_copied};
ghost use Rattle.mesa_disk.specs.Image.{Image};
ghost use Rattle.mesa_disk.specs.Story.{Unmoved};
ghost use Rattle.mesa_schema.specs.mesa_columns.declared.rows.Row.{Row as AnyRow};
ghost use Rattle.mesa_schema.specs.Changes.{columns_of};
ghost use Rattle.mesa_schema.specs.mesa_columns.Columns.{Columns, aggs_of};
ghost use Rattle.mesa_schema.specs.mesa_fold.Folded.{folded, rows_of};
ghost use Rattle.mesa_examine.specs.mesa_batch.Bound.{KeepsBound};
ghost use Rattle.mesa_examine.specs.mesa_delta.Reading.{IsIndexed, index_of};
ghost use Rattle.mesa_examine.specs.mesa_scan.Cursors.{IsInput, lift_by, reader_in};
ghost use Rattle.mesa_merge.specs.Inputs.{AreInputs, AreTold, knowns_of, lifted_parts};
ghost use Rattle.mesa_merge.specs.Merged.{HasMerged, inputs_of};
ghost use Rattle.mesa_examine.specs.mesa_open_files.Opening.{Counted, HasEpoch};
ghost use Rattle.mesa_compare.specs.Difference.{first_difference};
ghost use Rattle.mesa_examine.specs.Examined.{is_read_failure};
ghost use Rattle.mesa_compare.specs.Compared.{HasFile, HasFileIfAny, HaveFiles, IsLiftedTo, present_if_any, present_parts, present_rows};

use crate::answers::answer;
use crate::merged::{first_key, merged_difference};
use mesa_disk::{Disk, Made};
use mesa_examine::{
    CheckError, DeltaDisk, Input, Met, Opened, Unopened, Wanted, open_all, open_one, retire_all,
    retire_input,
};
use mesa_merge::Merge;
use mesa_schema::KeyBytes;
use std::alloc::Global;

/// The first key at which the rows of a cumulative's own file, or none where it has no file, differ from the fold of the files of its range's singletons, all at present. Each file is read once, and of each one block is held.
pub fn cumulative_difference<M: Made, D: DeltaDisk<M>>(
    alloc: Global,
    disk: &mut D,
    singles: &[Wanted],
    own: Option<&Wanted>,
) -> Result<Option<KeyBytes>, CheckError>
    requires epochs { AllByRecursion HasEpoch singles.now }
    requires own_epoch { IfSome (option_copied own) HasEpoch }
    requires alike { (s : Columns) × AllByRecursion (IsLiftedTo s) singles.now × IfSome (option_copied own) (IsLiftedTo s) }

    // Of an image that has the recorded files, with rows that keep the bound, it is the first difference.
    ensures difference { IfOk result (λ o. (i : Image) (s : Columns) (contents : List (List AnyRow)) (all : List AnyRow) → (D.story disk.old).told ≡ Some i → AllByRecursion (IsLiftedTo s) singles.now → IfSome (option_copied own.entry) (IsLiftedTo s)
        → HaveFiles i singles.now contents → HasFileIfAny i (option_copied own.entry) all → KeepsBound (aggs_of s) [] (rows_of (present_parts singles.now contents))
        → o ≡ first_difference (folded (aggs_of s) (present_parts singles.now contents)) (present_if_any (option_copied own.entry) all)) }

    // No image moves, and Read comes where a count of the disk rose.
    ensures unmoved { Unmoved (D.story disk.old) (D.story disk.new) }
    ensures counted { Counted (D.story disk.old) (D.story disk.new) (is_read_failure result) }
{
    match open_all(alloc, disk, singles) {
        Ok(Opened { inputs, damage }) => match damage {
            None => fold_difference(alloc, disk, inputs, own),
            Some(_) => {
                retire_all(disk, inputs);
                Ok(None)
            }
        },
        Err(Unopened::Fault) => Err(CheckError::Read),
        Err(Unopened::Memory) => Err(CheckError::Memory),
    }
}

// The first difference of the fold of inputs from a wanted file, or from no rows. All readers are given back.
fn fold_difference<M: Made, D: DeltaDisk<M>>(
    alloc: Global,
    disk: &mut D,
    inputs: Vec<Input<D::Reader>>,
    own: Option<&Wanted>,
) -> Result<Option<KeyBytes>, CheckError>
    requires own_epoch { IfSome (option_copied own) HasEpoch }
    requires inputs { (s : Columns) × AreInputs D.Reader.bytes s inputs.items × IfSome (option_copied own) (IsLiftedTo s) }
    requires fresh { AllByRecursion (λ i. D.Reader.faults (reader_in i) ≡ 0) inputs.items }
    ensures difference { IfOk result (λ o. (i : Image) (s : Columns) (contents : List (List AnyRow)) (all : List AnyRow) → (D.story disk.old).told ≡ Some i → AreInputs D.Reader.bytes s inputs.items → IfSome (option_copied own.entry) (IsLiftedTo s)
        → AreTold (knowns_of D.Reader.bytes inputs.items) contents → HasFileIfAny i (option_copied own.entry) all → KeepsBound (aggs_of s) [] (rows_of (lifted_parts (knowns_of D.Reader.bytes inputs.items) contents))
        → o ≡ first_difference (folded (aggs_of s) (lifted_parts (knowns_of D.Reader.bytes inputs.items) contents)) (present_if_any (option_copied own.entry) all)) }
    ensures unmoved { Unmoved (D.story disk.old) (D.story disk.new) }
    ensures counted { Counted (D.story disk.old) (D.story disk.new) (is_read_failure result) }
{
    match Merge::new(alloc, inputs) {
        Ok(merge) => match own {
            Some(own) => against_file(alloc, disk, merge, own),
            None => against_none(alloc, disk, merge),
        },
        Err((_, inputs)) => {
            retire_all(disk, inputs);
            Err(CheckError::Memory)
        }
    }
}

// The first key of a merge that has given nothing yet, whose readers are given back.
fn against_none<M: Made, D: Disk<M>>(
    alloc: Global,
    disk: &mut D,
    mut merge: Merge<D::Reader>,
) -> Result<Option<KeyBytes>, CheckError>
    requires merge { (s : Columns) × (givens : List (List AnyRow)) × HasMerged D.Reader.bytes s merge givens × (folded (aggs_of s) givens ≡ []) }
    requires fresh { AllByRecursion (λ i. D.Reader.faults (reader_in i) ≡ 0) (inputs_of merge) }
    ensures difference { IfOk result (λ o. (s : Columns) (givens contents : List (List AnyRow)) → HasMerged D.Reader.bytes s merge givens → folded (aggs_of s) givens ≡ [] → AreTold (knowns_of D.Reader.bytes (inputs_of merge)) contents
        → KeepsBound (aggs_of s) [] (rows_of (lifted_parts (knowns_of D.Reader.bytes (inputs_of merge)) contents)) → o ≡ first_difference (folded (aggs_of s) (lifted_parts (knowns_of D.Reader.bytes (inputs_of merge)) contents)) []) }
    ensures unmoved { Unmoved (D.story disk.old) (D.story disk.new) }
    ensures counted { Counted (D.story disk.old) (D.story disk.new) (is_read_failure result) }
{
    let compared = first_key(alloc, &mut merge);
    retire_all(disk, merge.into_inputs());
    answer(compared)
}

// The first difference of a merge that has given nothing yet from a wanted file. The readers of both are given back.
fn against_file<M: Made, D: DeltaDisk<M>>(
    alloc: Global,
    disk: &mut D,
    merge: Merge<D::Reader>,
    own: &Wanted,
) -> Result<Option<KeyBytes>, CheckError>
    requires epoch { HasEpoch own.now }
    requires merge { (givens : List (List AnyRow)) × HasMerged D.Reader.bytes (columns_of own.now.evolving.now.value) merge givens × (folded (aggs_of (columns_of own.now.evolving.now.value)) givens ≡ []) }
    requires fresh { AllByRecursion (λ i. D.Reader.faults (reader_in i) ≡ 0) (inputs_of merge) }
    ensures difference { IfOk result (λ o. (i : Image) (contents : List (List AnyRow)) (all : List AnyRow) → (D.story disk.old).told ≡ Some i → AreTold (knowns_of D.Reader.bytes (inputs_of merge)) contents → HasFile i own.now all
        → KeepsBound (aggs_of (columns_of own.now.evolving.now.value)) [] (rows_of (lifted_parts (knowns_of D.Reader.bytes (inputs_of merge)) contents))
        → o ≡ first_difference (folded (aggs_of (columns_of own.now.evolving.now.value)) (lifted_parts (knowns_of D.Reader.bytes (inputs_of merge)) contents)) (present_rows own.now all)) }
    ensures unmoved { Unmoved (D.story disk.old) (D.story disk.new) }
    ensures counted { Counted (D.story disk.old) (D.story disk.new) (is_read_failure result) }
{
    match open_one(alloc, disk, own) {
        Met::Input(input) => against_input(alloc, disk, merge, input),
        Met::Damaged(_) => {
            retire_all(disk, merge.into_inputs());
            Ok(None)
        }
        Met::Fault => {
            retire_all(disk, merge.into_inputs());
            Err(CheckError::Read)
        }
        Met::Memory => {
            retire_all(disk, merge.into_inputs());
            Err(CheckError::Memory)
        }
    }
}

// The first difference of a merge that has given nothing yet from an input. The readers of both are given back.
fn against_input<M: Made, D: Disk<M>>(
    alloc: Global,
    disk: &mut D,
    mut merge: Merge<D::Reader>,
    mut input: Input<D::Reader>,
) -> Result<Option<KeyBytes>, CheckError>
    requires merge { (givens : List (List AnyRow)) × HasMerged D.Reader.bytes (columns_of input.evolving.value) merge givens × (folded (aggs_of (columns_of input.evolving.value)) givens ≡ []) }
    requires input { IsInput D.Reader.bytes input }
    requires fresh { AllByRecursion (λ i. D.Reader.faults (reader_in i) ≡ 0) (input ∷ inputs_of merge) }
    ensures difference { IfOk result (λ o. (contents : List (List AnyRow)) (b : List ℕ) (all : List AnyRow) → AreTold (knowns_of D.Reader.bytes (inputs_of merge)) contents → D.Reader.bytes (reader_in input) ≡ Some b → IsIndexed (index_of input.reader) all b
        → KeepsBound (aggs_of (columns_of input.evolving.value)) [] (rows_of (lifted_parts (knowns_of D.Reader.bytes (inputs_of merge)) contents))
        → o ≡ first_difference (folded (aggs_of (columns_of input.evolving.value)) (lifted_parts (knowns_of D.Reader.bytes (inputs_of merge)) contents)) (map (lift_by input) all)) }
    ensures unmoved { Unmoved (D.story disk.old) (D.story disk.new) }
    ensures counted { Counted (D.story disk.old) (D.story disk.new) (is_read_failure result) }
{
    let compared = merged_difference(alloc, &mut merge, &mut input);
    retire_all(disk, merge.into_inputs());
    retire_input(disk, input);
    answer(compared)
}
