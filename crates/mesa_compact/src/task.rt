// The merge of a task.
ghost use Rattle.std.specs.Prelude.{◌≡◌, ◌<◌, ℕ, List, length, IfErr, IfOk, IfSome, None, Some, Err};
ghost use Rattle.mesa_file.specs.declared.damage.Damage.{Damage as AnyDamage};
ghost use Rattle.mesa_open_files.specs.mesa_columns.declared.rows.Row.{Row as AnyRow};
ghost use Rattle.mesa_schema.specs.Changes.{Lineage, columns_of};
ghost use Rattle.mesa_merge.specs.Faults.{faults_of};
ghost use Rattle.mesa_merge.specs.Inputs.{knowns_of};
ghost use Rattle.mesa_open_files.specs.GivingBack.{task_inputs};
ghost use Rattle.mesa_open_files.specs.Inputs.{AreInputsOf, IsMergeOf};
ghost use Rattle.mesa_open_files.specs.Made.{AreMadeFiles};
ghost use Rattle.mesa_file.specs.Serials.{after_drafts};
ghost use Rattle.mesa_open_files.specs.Tasks.{IsMerged, IsTask};
ghost use Rattle.mesa_compact.specs.Bounded.{AreBounded, IsBounded};
ghost use Rattle.mesa_compact.specs.Tasks.{AreNumbered, IsFilesDamage, IsSameTask, IsTaskDamage};
ghost use Rattle.mesa_compact.specs.Writing.{HasCauses, damaged_by};

use crate::files::{merged_file, newest_of};
use crate::gatherers::{gatherers_of, regroupings};
use crate::views::view_files;
use mesa_delta::{FileError, Input};
use mesa_disk::{Bench, FileReader, Made};
use mesa_file::Serials;
use mesa_open_files::{CompactError, MadeFiles, NewDelta, Task};
use mesa_schema::Evolving;
use std::alloc::Global;

/// Merges a task's range into one delta, through new drafts. Each view is grouped from the table's rows as they are merged.
/// The task is there still with all of its readers, whatever becomes of the files.
pub fn merge_task<M: Made, B: Bench<M>, R: FileReader>(
    alloc: Global,
    bench: &mut B,
    ids: &mut Serials,
    task: &mut Task<R>,
) -> Result<NewDelta<M>, CompactError>
    requires { (l : Lineage) × IsTask R.bytes l task.old }

    // The files have the merge of the task's inputs, and the next ids.
    ensures merged { IfOk result (λ delta. (l : Lineage) → IsTask R.bytes l task.old → IsMerged M.bytes M.id_of R.bytes l task.old delta) }
    ensures numbered { IfOk result (λ delta. IfSome delta.files (AreNumbered M.id_of ids.old)) }
    ensures ids { (n : ℕ) × (ids.new ≡ after_drafts n ids.old) }

    // Damage that was met when the files were opened comes first, and then no draft is begun.
    ensures damage { (d : AnyDamage) → task.old.damage ≡ Some d → (result ≡ Err (damaged_by d)) × (ids.new ≡ ids.old) }
    ensures causes { HasCauses (B.faults bench.old) (B.faults bench.new) (faults_of R.faults (task_inputs task.old)) (faults_of R.faults (task_inputs task.new)) (IsTaskDamage R.bytes R.size task.old task.new) result }
    ensures accepts { IfErr result (λ e. (d : AnyDamage) → e ≡ damaged_by d → task.old.damage ≡ None → (l : Lineage) → IsTask R.bytes l task.old → IsBounded R.bytes l task.old → ⊥) }

    // The task stays what it was.
    ensures same { IsSameTask R.bytes task.old task.new }
    ensures kept { (l : Lineage) → IsTask R.bytes l task.old → IsTask R.bytes l task.new }
{
    match task.damage {
        Some(damage) => Err(CompactError::File(FileError::Damaged(damage))),
        None => merge_sound(alloc, bench, ids, task),
    }
}

// Merges a task whose files are all open. It reads none of its further readers.
fn merge_sound<M: Made, B: Bench<M>, R: FileReader>(
    alloc: Global,
    bench: &mut B,
    ids: &mut Serials,
    task: &mut Task<R>,
) -> Result<NewDelta<M>, CompactError>
    requires { (l : Lineage) × IsTask R.bytes l task.old }
    ensures merged { IfOk result (λ delta. (l : Lineage) → IsTask R.bytes l task.old → IsMerged M.bytes M.id_of R.bytes l task.old delta) }
    ensures numbered { IfOk result (λ delta. IfSome delta.files (AreNumbered M.id_of ids.old)) }
    ensures ids { (n : ℕ) × (ids.new ≡ after_drafts n ids.old) }
    ensures causes { HasCauses (B.faults bench.old) (B.faults bench.new) (faults_of R.faults task.old.inputs.items) (faults_of R.faults task.new.inputs.items) (IsFilesDamage R.bytes R.size task.new.inputs.items) result }
    ensures accepts { IfErr result (λ e. (d : AnyDamage) → e ≡ damaged_by d → (l : Lineage) → IsTask R.bytes l task.old → IsBounded R.bytes l task.old → ⊥) }
    ensures same { IsSameTask R.bytes task.old task.new }
    ensures spare { task.new.spare ≡ task.old.spare }
    ensures kept { (l : Lineage) → IsTask R.bytes l task.old → IsTask R.bytes l task.new }
{
    if task.inputs.is_empty() {
        return Ok(NewDelta { files: None });
    }
    let Ok(evolving) = task.inputs[0].evolving.clone() else {
        return Err(CompactError::File(FileError::Memory));
    };
    match merge_files(alloc, bench, ids, &evolving, &mut task.inputs) {
        Ok(files) => Ok(NewDelta { files: Some(files) }),
        Err(error) => Err(error),
    }
}

// The files of a table's merged inputs, and of its views.
fn merge_files<M: Made, B: Bench<M>, R: FileReader>(
    alloc: Global,
    bench: &mut B,
    ids: &mut Serials,
    evolving: &Evolving,
    inputs: &mut Vec<Input<R>>,
) -> Result<MadeFiles<M>, CompactError>
    requires some { 0 < length inputs.old.items }
    requires inputs { AreInputsOf R.bytes evolving.now inputs.old.items }
    ensures made { IfOk result (λ made. (rows : List AnyRow) × IsMergeOf R.bytes (columns_of evolving.now) inputs.old.items rows × AreMadeFiles M.bytes M.id_of (columns_of evolving.now) evolving.now.views rows made) }
    ensures numbered { IfOk result (AreNumbered M.id_of ids.old) }
    ensures ids { (n : ℕ) × (ids.new ≡ after_drafts n ids.old) }
    ensures inputs { knowns_of R.bytes inputs.new.items ≡ knowns_of R.bytes inputs.old.items }
    ensures inputs_kept { AreInputsOf R.bytes evolving.now inputs.new.items }
    ensures causes { HasCauses (B.faults bench.old) (B.faults bench.new) (faults_of R.faults inputs.old.items) (faults_of R.faults inputs.new.items) (IsFilesDamage R.bytes R.size inputs.new.items) result }
    ensures accepts { IfErr result (λ e. (d : AnyDamage) → e ≡ damaged_by d → AreBounded (columns_of evolving.now) (knowns_of R.bytes inputs.old.items) → ⊥) }
{
    let Ok(seen) = regroupings(alloc, evolving) else {
        return Err(CompactError::File(FileError::Memory));
    };
    let Ok(mut groups) = gatherers_of(alloc, evolving.present(), &seen) else {
        return Err(CompactError::File(FileError::Memory));
    };
    let newest = newest_of(inputs);
    let id = ids.draw();
    let file = match merged_file(alloc, bench, id, evolving.present(), inputs, &mut groups) {
        Ok(file) => file,
        Err(error) => return Err(error),
    };
    match view_files(alloc, bench, ids, evolving, groups, newest) {
        Ok(views) => Ok(MadeFiles { file, views }),
        Err(error) => Err(error),
    }
}
