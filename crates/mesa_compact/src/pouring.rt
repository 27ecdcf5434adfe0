// Rows that are written as they are merged.
ghost use Rattle.std.specs.Prelude.{◌≡◌, ℕ, List, [], map, IfErr, OnOk};
ghost use Rattle.std.specs.List.{AllByRecursion};
ghost use Rattle.mesa_file.specs.declared.damage.Damage.{Damage as AnyDamage};
ghost use Rattle.mesa_open_files.specs.mesa_columns.declared.rows.Row.{Row as AnyRow};
ghost use Rattle.mesa_open_files.specs.mesa_columns.Columns.{Columns, aggs_of};
ghost use Rattle.mesa_open_files.specs.mesa_fold.Folded.{folded, rows_of};
ghost use Rattle.mesa_batch.specs.Bound.{KeepsBound};
ghost use Rattle.mesa_delta.specs.Writing.{HasTaken, columns_of, draft_of, id_of};
ghost use Rattle.mesa_answer.specs.Answering.{KeepsSums};
ghost use Rattle.mesa_answer.specs.Gathered.{wanted_of};
ghost use Rattle.mesa_open_files.specs.mesa_scan.Cursors.{IsInput};
ghost use Rattle.mesa_merge.specs.Faults.{faults_of};
ghost use Rattle.mesa_merge.specs.Inputs.{AreAll, AreTold, knowns_of, lifted_parts};
ghost use Rattle.mesa_merge.specs.Merged.{HasMerged, inputs_of};
ghost use Rattle.mesa_merge.specs.Sums.{sum_damage};
ghost use Rattle.mesa_compact.specs.Bounded.{AreBounded};
ghost use Rattle.mesa_compact.specs.Damaged.{IsMergeDamage};
ghost use Rattle.mesa_compact.specs.Grouping.{HavePut, TakesRows};
ghost use Rattle.mesa_compact.specs.Writing.{HasCauses, damaged_by};

use crate::grouping::put_all;
use mesa_answer::Groups;
use mesa_batch::folds_totals;
use mesa_delta::{DeltaWriter, FileError};
use mesa_disk::{Damage, Draft, FileReader, Made};
use mesa_file::FileId;
use mesa_merge::Merge;
use mesa_open_files::CompactError;
use mesa_schema::folds_by_key;

// Gives a writer all rows of a merge, and puts them into the groups. A total that leaves its type is told of the newest file that holds the key with which it leaves. A file has fewer rows than a number of 64 bits can count.
pub(crate) fn pour<M: Made, T: Draft<M>, R: FileReader>(
    merge: &mut Merge<R>,
    writer: &mut DeltaWriter<M, T>,
    groups: &mut [Groups],
) -> Result<(), CompactError>
    requires pouring { (givens : List (List AnyRow)) × HasMerged R.bytes (columns_of writer.old) merge.old givens × HasTaken T.bytes writer.old (folded (aggs_of (columns_of writer.old)) givens) × HavePut groups.old (folded (aggs_of (columns_of writer.old)) givens) }
    requires takes { AllByRecursion (TakesRows (columns_of writer.old)) groups.old }
    ensures taken { OnOk result ((givens : List (List AnyRow)) → HasMerged R.bytes (columns_of writer.old) merge.old givens
        → HasTaken T.bytes writer.old (folded (aggs_of (columns_of writer.old)) givens) → HavePut groups.old (folded (aggs_of (columns_of writer.old)) givens)
        → (after : List (List AnyRow)) × AreAll (knowns_of R.bytes (inputs_of merge.new)) after
        × HasTaken T.bytes writer.new (folded (aggs_of (columns_of writer.old)) after) × HavePut groups.new (folded (aggs_of (columns_of writer.old)) after)
        × (AreBounded (columns_of writer.old) (knowns_of R.bytes (inputs_of merge.new)) → KeepsSums (columns_of writer.old) (folded (aggs_of (columns_of writer.old)) after))) }
    ensures columns { columns_of writer.new ≡ columns_of writer.old }
    ensures id { id_of writer.new ≡ id_of writer.old }
    ensures draft { T.id_of (draft_of writer.new) ≡ T.id_of (draft_of writer.old) }
    ensures wanted { map wanted_of groups.new ≡ map wanted_of groups.old }
    ensures known { knowns_of R.bytes (inputs_of merge.new) ≡ knowns_of R.bytes (inputs_of merge.old) }
    ensures inputs { AllByRecursion (IsInput R.bytes) (inputs_of merge.old) → AllByRecursion (IsInput R.bytes) (inputs_of merge.new) }
    ensures causes { HasCauses (T.faults (draft_of writer.old)) (T.faults (draft_of writer.new)) (faults_of R.faults (inputs_of merge.old)) (faults_of R.faults (inputs_of merge.new)) (IsMergeDamage R.bytes R.size (inputs_of merge.new)) result }
    ensures accepts { IfErr result (λ e. (d : AnyDamage) → e ≡ damaged_by d → (givens : List (List AnyRow)) → HasMerged R.bytes (columns_of writer.old) merge.old givens
        → HasTaken T.bytes writer.old (folded (aggs_of (columns_of writer.old)) givens) → HavePut groups.old (folded (aggs_of (columns_of writer.old)) givens)
        → (contents : List (List AnyRow)) → AreTold (knowns_of R.bytes (inputs_of merge.old)) contents → KeepsBound (aggs_of (columns_of writer.old)) [] (rows_of (lifted_parts (knowns_of R.bytes (inputs_of merge.old)) contents)) → ⊥) }
{
    folds_by_key();
    folds_totals();
    'rows: for _ in 0..u64::MAX {
        let more = match merge.next() {
            Ok(more) => more,
            Err(error) => return Err(CompactError::File(error)),
        };
        if !more {
            return Ok(());
        }
        let row = merge.row();
        let newest = merge.last_file();
        if !writer.allows(row) {
            return Err(sum_fault(newest));
        }
        match put_all(groups, newest, row) {
            Ok(()) => {}
            Err(unfit) => return Err(CompactError::File(unfit)),
        }
        match writer.push(row) {
            Ok(()) => {}
            Err(error) => return Err(CompactError::from(error)),
        }
    }
    Err(CompactError::File(FileError::Memory))
}

/// The damage of a file with which a sum leaves its type.
pub fn sum_fault(file: FileId) -> CompactError
    ensures { result ≡ damaged_by (sum_damage file) }
{
    CompactError::File(FileError::Damaged(Damage::misfit(file, 0)))
}
