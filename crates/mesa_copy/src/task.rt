// The rewriting of a recast.
ghost use Rattle.std.specs.Prelude.{◌≡◌, ◌++◌, ℕ, List, IfErr, IfOk, OnOk, OnErr, Some, None, Err};
ghost use Rattle.mesa_file.specs.declared.damage.Damage.{Damage as AnyDamage};
ghost use Rattle.mesa_schema.specs.Changes.{columns_of};
ghost use Rattle.mesa_schema.specs.Recasts.{recast_keys, recast_values};
ghost use Rattle.mesa_compact.specs.mesa_merge.Faults.{faults_of};
ghost use Rattle.mesa_open_files.specs.Recasts.{IsRecastTask, IsRecasted, IsRecastedSoFar, recast_in, recast_ids, recast_inputs, recast_table};
ghost use Rattle.mesa_file.specs.Serials.{AreNext, after_drafts};
ghost use Rattle.mesa_open_files.specs.declared.recasting.RecastedRange.{RecastedRange as AnyRange};
ghost use Rattle.mesa_compact.specs.Writing.{HasCauses, damaged_by};
ghost use Rattle.mesa_copy.specs.Copying.{IsRangesDamage, IsRecastBounded, IsRecastDamage, IsSameRecast};

use crate::ranges::rewrite_ranges;
use crate::renewal::Renewal;
use mesa_delta::FileError;
use mesa_disk::{Bench, FileReader, Made};
use mesa_file::Serials;
use mesa_open_files::{CompactError, Recast, Recasted};
use std::alloc::Global;

/// Rewrites all ranges of a recast, through new drafts: each file's rows are grouped by the columns that the table is to have. It is done outside turns, while the table is loaded; what comes meanwhile is for `regroup_more`.
/// The recast is there still with all of its readers, whatever becomes of the files.
pub fn regroup_task<M: Made, B: Bench<M>, R: FileReader>(
    alloc: Global,
    bench: &mut B,
    ids: &mut Serials,
    task: &mut Recast<R>,
) -> Result<Recasted<M>, CompactError>
    requires task { IsRecastTask R.bytes task.old }

    // Every range is rewritten, and the files have the next ids.
    ensures rewritten { IfOk result (IsRecasted M.bytes M.id_of R.bytes task.new) }
    ensures numbered { IfOk result (λ made. AreNext ids.old ids.new (recast_ids M.id_of made.ranges.items)) }
    ensures ids { (n : ℕ) × (ids.new ≡ after_drafts n ids.old) }

    // Damage that was met when the files were opened comes first, and then no draft is begun.
    ensures damage { (d : AnyDamage) → task.old.damage ≡ Some d → (result ≡ Err (damaged_by d)) × (ids.new ≡ ids.old) }
    ensures causes { HasCauses (B.faults bench.old) (B.faults bench.new) (faults_of R.faults (recast_inputs task.old)) (faults_of R.faults (recast_inputs task.new)) (IsRecastDamage R.bytes R.size task.old task.new) result }
    ensures accepts { IfErr result (λ e. (d : AnyDamage) → e ≡ damaged_by d → task.old.damage ≡ None → IsRecastBounded R.bytes task.old → ⊥) }

    // The recast stays what it was.
    ensures same { IsSameRecast R.bytes task.old task.new }
    ensures kept { IsRecastTask R.bytes task.new }
{
    let mut made = Recasted {
        ranges: Vec::new(alloc),
    };
    match regroup_more(alloc, bench, ids, task, &mut made) {
        Ok(()) => Ok(made),
        Err(error) => Err(error),
    }
}

/// Rewrites the ranges of a recast that aren't rewritten yet: those behind as many as are. In its closing turn they are those of the batches that came meanwhile.
pub fn regroup_more<M: Made, B: Bench<M>, R: FileReader>(
    alloc: Global,
    bench: &mut B,
    ids: &mut Serials,
    task: &mut Recast<R>,
    made: &mut Recasted<M>,
) -> Result<(), CompactError>
    requires task { IsRecastTask R.bytes task.old }
    requires begun { IsRecastedSoFar M.bytes M.id_of R.bytes task.old made.old }

    // Every range is rewritten: those that were, and further ones, whose files have the next ids.
    ensures rewritten { OnOk result (IsRecasted M.bytes M.id_of R.bytes task.new made.new) }
    ensures more { OnOk result ((more : List (AnyRange M)) × (made.new.ranges.items ≡ made.old.ranges.items ++ more) × AreNext ids.old ids.new (recast_ids M.id_of more)) }
    ensures stays { OnErr result (made.new.ranges.items ≡ made.old.ranges.items) }
    ensures ids { (n : ℕ) × (ids.new ≡ after_drafts n ids.old) }

    // Damage that was met when the files were opened comes first, and then no draft is begun.
    ensures damage { (d : AnyDamage) → task.old.damage ≡ Some d → (result ≡ Err (damaged_by d)) × (ids.new ≡ ids.old) }
    ensures causes { HasCauses (B.faults bench.old) (B.faults bench.new) (faults_of R.faults (recast_inputs task.old)) (faults_of R.faults (recast_inputs task.new)) (IsRecastDamage R.bytes R.size task.old task.new) result }
    ensures accepts { IfErr result (λ e. (d : AnyDamage) → e ≡ damaged_by d → task.old.damage ≡ None → IsRecastBounded R.bytes task.old → ⊥) }

    // The recast stays what it was, and of it the first ranges are rewritten still.
    ensures same { IsSameRecast R.bytes task.old task.new }
    ensures kept { IsRecastTask R.bytes task.new }
    ensures so_far { IsRecastedSoFar M.bytes M.id_of R.bytes task.new made.new }
{
    match task.damage {
        Some(damage) => Err(CompactError::File(FileError::Damaged(damage))),
        None => regroup_sound(alloc, bench, ids, task, made),
    }
}

// Rewrites those of a recast whose files are all open.
fn regroup_sound<M: Made, B: Bench<M>, R: FileReader>(
    alloc: Global,
    bench: &mut B,
    ids: &mut Serials,
    task: &mut Recast<R>,
    made: &mut Recasted<M>,
) -> Result<(), CompactError>
    requires task { IsRecastTask R.bytes task.old }
    requires begun { IsRecastedSoFar M.bytes M.id_of R.bytes task.old made.old }
    ensures rewritten { OnOk result (IsRecasted M.bytes M.id_of R.bytes task.new made.new) }
    ensures more { OnOk result ((more : List (AnyRange M)) × (made.new.ranges.items ≡ made.old.ranges.items ++ more) × AreNext ids.old ids.new (recast_ids M.id_of more)) }
    ensures stays { OnErr result (made.new.ranges.items ≡ made.old.ranges.items) }
    ensures ids { (n : ℕ) × (ids.new ≡ after_drafts n ids.old) }
    ensures causes { HasCauses (B.faults bench.old) (B.faults bench.new) (faults_of R.faults (recast_inputs task.old)) (faults_of R.faults (recast_inputs task.new))
        (IsRangesDamage R.bytes R.size (columns_of (recast_table task.old)) (recast_keys (columns_of (recast_table task.old)) (recast_in task.old)) (recast_values (columns_of (recast_table task.old)) (recast_in task.old)) task.new.ranges.items) result }
    ensures accepts { IfErr result (λ e. (d : AnyDamage) → e ≡ damaged_by d → IsRecastBounded R.bytes task.old → ⊥) }
    ensures same { IsSameRecast R.bytes task.old task.new }
    ensures kept { IsRecastTask R.bytes task.new }
    ensures so_far { IsRecastedSoFar M.bytes M.id_of R.bytes task.new made.new }
{
    let Ok(renewal) = Renewal::of(alloc, task) else {
        return Err(CompactError::File(FileError::Memory));
    };
    let before = made.ranges.len();
    match rewrite_ranges(
        alloc,
        bench,
        ids,
        &renewal,
        &mut task.ranges,
        &mut made.ranges,
    ) {
        Ok(()) => Ok(()),
        Err(error) => {
            made.ranges.truncate(before);
            Err(error)
        }
    }
}
