// A task that is merged in parts.
ghost use Rattle.std.specs.Prelude.{◌≡◌, ◌<◌, ◌≤◌, ℕ, length, IfErr, IfOk, IfSome, None, Some, Err};
ghost use Rattle.std.specs.List.{AllByRecursion};
ghost use Rattle.mesa_file.specs.declared.damage.Damage.{Damage as AnyDamage};
ghost use Rattle.mesa_schema.specs.Changes.{Lineage};
ghost use Rattle.mesa_compact.specs.mesa_scan.Cut.{CutsRise};
ghost use Rattle.mesa_merge.specs.Faults.{faults_of};
ghost use Rattle.mesa_open_files.specs.GivingBack.{task_inputs};
ghost use Rattle.mesa_open_files.specs.Spares.{IsSpareOf};
ghost use Rattle.mesa_file.specs.Serials.{after_drafts};
ghost use Rattle.mesa_open_files.specs.Tasks.{IsMerged, IsTask};
ghost use Rattle.mesa_compact.specs.Bounded.{IsBounded};
ghost use Rattle.mesa_compact.specs.Tasks.{AreNumbered, IsSameTask};
ghost use Rattle.mesa_compact.specs.Writing.{HasCauses, damaged_by};
ghost use Rattle.mesa_split.specs.Split.{HasSplit, IsSplitDamage};

use crate::sampling::piece_cuts;
use crate::table::table_file;
use mesa_compact::{gatherers_of, newest_of, regroupings, view_files};
use mesa_delta::FileError;
use mesa_disk::{Bench, FileReader, Made};
use mesa_file::Serials;
use mesa_open_files::{CompactError, MadeFiles, NewDelta, Task};
use mesa_schema::{Evolving, KeyList};
use std::alloc::Global;
use std::thread::Threads;

/// Merges a task's range into one delta, through new drafts, as `merge_task` does, but in one part more than there are cuts: rows between two cuts are merged in a thread of their own, the first part's from the task's inputs and each further one's from a spare's. A range of many blocks is cut more finely, and each part merges one piece after the other. One writer writes all rows, those that were merged already while further ones are.
/// The task is there still with all of its readers, whatever becomes of the files.
pub fn merge_split<T: Threads + Sync, M: Made, B: Bench<M>, R: FileReader>(
    rt: &T,
    alloc: Global,
    bench: &mut B,
    ids: &mut Serials,
    task: &mut Task<R>,
    cuts: &KeyList,
) -> Result<NewDelta<M>, CompactError>
    requires task { (l : Lineage) × IsTask R.bytes l task.old }

    // Cuts rise, and each part but the first has a spare, whose inputs are those of the task.
    requires cuts { CutsRise None cuts.now × (length cuts.now ≤ length task.old.spare.items) }
    requires spare { task.old.damage ≡ None → AllByRecursion (IsSpareOf R.bytes task.old) task.old.spare.items }

    // The files have the merge of the task's inputs, and the next ids.
    ensures merged { IfOk result (λ delta. (l : Lineage) → IsTask R.bytes l task.old → IsMerged M.bytes M.id_of R.bytes l task.old delta) }
    ensures numbered { IfOk result (λ delta. IfSome delta.files (AreNumbered M.id_of ids.old)) }
    ensures ids { (n : ℕ) × (ids.new ≡ after_drafts n ids.old) }

    // Damage that was met when the files were opened comes first, and then no draft is begun.
    ensures damage { (d : AnyDamage) → task.old.damage ≡ Some d → (result ≡ Err (damaged_by d)) × (ids.new ≡ ids.old) }
    ensures causes { HasCauses (B.faults bench.old) (B.faults bench.new) (faults_of R.faults (task_inputs task.old)) (faults_of R.faults (task_inputs task.new)) (IsSplitDamage R.bytes R.size task.old task.new) result }
    ensures accepts { IfErr result (λ e. (d : AnyDamage) → e ≡ damaged_by d → task.old.damage ≡ None → (l : Lineage) → IsTask R.bytes l task.old → IsBounded R.bytes l task.old → ⊥) }

    // The task stays what it was.
    ensures same { IsSameTask R.bytes task.old task.new }
    ensures kept { (l : Lineage) → IsTask R.bytes l task.old → IsTask R.bytes l task.new }
    ensures spares { AllByRecursion (IsSpareOf R.bytes task.old) task.old.spare.items → AllByRecursion (IsSpareOf R.bytes task.new) task.new.spare.items }
{
    match task.damage {
        Some(damage) => Err(CompactError::File(FileError::Damaged(damage))),
        None => match split_sound(rt, alloc, bench, ids, task, cuts) {
            Ok(files) => Ok(NewDelta { files }),
            Err(error) => Err(error),
        },
    }
}

// Merges a task whose files are all open. A file has rows: only where its bytes aren't the recorded ones are there no files.
fn split_sound<T: Threads + Sync, M: Made, B: Bench<M>, R: FileReader>(
    rt: &T,
    alloc: Global,
    bench: &mut B,
    ids: &mut Serials,
    task: &mut Task<R>,
    cuts: &KeyList,
) -> Result<Option<MadeFiles<M>>, CompactError>
    requires task { (l : Lineage) × IsTask R.bytes l task.old }
    requires cuts { CutsRise None cuts.now × (length cuts.now ≤ length task.old.spare.items) }
    requires spare { AllByRecursion (IsSpareOf R.bytes task.old) task.old.spare.items }
    ensures { HasSplit M.bytes M.id_of R.bytes R.faults R.size (B.faults bench.old) (B.faults bench.new) task.old task.new ids.old ids.new result }
{
    if task.inputs.is_empty() {
        return Ok(None);
    }
    let Ok(evolving) = task.inputs[0].evolving.clone() else {
        return Err(CompactError::File(FileError::Memory));
    };
    let Ok(finer) = piece_cuts(alloc, &task.inputs, cuts) else {
        return Err(CompactError::File(FileError::Memory));
    };
    split_files(rt, alloc, bench, ids, &evolving, &finer, cuts.len(), task)
}

// The files of a task that has inputs, the table's and its views', merged between these cuts by its readers and those of so many spares.
fn split_files<T: Threads + Sync, M: Made, B: Bench<M>, R: FileReader>(
    rt: &T,
    alloc: Global,
    bench: &mut B,
    ids: &mut Serials,
    evolving: &Evolving,
    cuts: &KeyList,
    further: usize,
    task: &mut Task<R>,
) -> Result<Option<MadeFiles<M>>, CompactError>
    requires some { 0 < length task.old.inputs.items }
    requires task { IsTask R.bytes evolving.now task.old }
    requires cuts { CutsRise None cuts.now }
    requires few { further ≤ length task.old.spare.items }
    requires spare { AllByRecursion (IsSpareOf R.bytes task.old) task.old.spare.items }
    ensures { HasSplit M.bytes M.id_of R.bytes R.faults R.size (B.faults bench.old) (B.faults bench.new) task.old task.new ids.old ids.new result }
{
    let newest = newest_of(&task.inputs);
    let Ok(seen) = regroupings(alloc, evolving) else {
        return Err(CompactError::File(FileError::Memory));
    };
    let Ok(mut groups) = gatherers_of(alloc, evolving.present(), &seen) else {
        return Err(CompactError::File(FileError::Memory));
    };
    let id = ids.draw();
    let made = table_file(
        rt,
        alloc,
        bench,
        id,
        evolving,
        cuts,
        further,
        &mut task.inputs,
        &mut task.spare,
        &mut groups,
        newest,
    );
    let file = match made {
        Ok(Some(file)) => file,
        Ok(None) => return Ok(None),
        Err(error) => return Err(error),
    };
    match view_files(alloc, bench, ids, evolving, groups, newest) {
        Ok(views) => Ok(Some(MadeFiles { file, views })),
        Err(error) => Err(error),
    }
}
