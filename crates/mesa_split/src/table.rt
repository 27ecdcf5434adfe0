// The file of a table's range, by the readers of a task and its spares.
ghost use Rattle.std.specs.Prelude.{◌≡◌, ◌⊎◌, ◌≤◌, ◌++◌, List, [], length, map, flat_map, IfErr, IfOk, None};
ghost use Rattle.std.specs.List.{AllByRecursion};
ghost use Rattle.mesa_file.specs.declared.damage.Damage.{Damage as AnyDamage};
ghost use Rattle.mesa_compact.specs.mesa_columns.declared.rows.Row.{Row as AnyRow};
ghost use Rattle.mesa_schema.specs.Changes.{columns_of};
ghost use Rattle.mesa_answer.specs.Answering.{KeepsSums};
ghost use Rattle.mesa_compact.specs.mesa_scan.Cursors.{IsInput};
ghost use Rattle.mesa_compact.specs.mesa_scan.Cut.{CutsRise};
ghost use Rattle.mesa_merge.specs.Faults.{faults_of};
ghost use Rattle.mesa_merge.specs.Inputs.{knowns_of};
ghost use Rattle.mesa_open_files.specs.GivingBack.{spare_inputs};
ghost use Rattle.mesa_open_files.specs.Inputs.{AreInputsOf, IsMergeOf};
ghost use Rattle.mesa_open_files.specs.Spares.{AreSpareInputs};
ghost use Rattle.mesa_open_files.specs.declared.merging.Spare.{Spare as AnySpare};
ghost use Rattle.mesa_compact.specs.Bounded.{AreBounded};
ghost use Rattle.mesa_compact.specs.Damaged.{IsMergeDamage};
ghost use Rattle.mesa_answer.specs.Gathered.{wanted_of};
ghost use Rattle.mesa_compact.specs.Grouping.{HavePut, TakesRows};
ghost use Rattle.mesa_compact.specs.Writing.{HasCauses, damaged_by};
ghost use Rattle.mesa_split.specs.Rounds.{IsFrontTotal, IsRangeFile};
ghost use Rattle.mesa_split.specs.Split.{IsSpareDamage};

use crate::files::range_file;
use crate::lending::{give_back, lend};
use mesa_answer::Groups;
use mesa_batch::folds_totals;
use mesa_delta::{FileError, Input};
use mesa_disk::{Bench, FileReader, Made};
use mesa_file::FileId;
use mesa_open_files::{CompactError, MadeFile, Spare};
use mesa_schema::{Evolving, KeyList};
use std::alloc::Global;
use std::thread::Threads;

/// The file of the rows of a table's inputs, through a new draft under this id, merged piece by piece: by these inputs, and by those of so many spares beside them. All are there still, whatever becomes of the file. There is none where there are no rows.
pub(crate) fn table_file<T: Threads + Sync, M: Made, B: Bench<M>, R: FileReader>(
    rt: &T,
    alloc: Global,
    bench: &mut B,
    id: FileId,
    evolving: &Evolving,
    cuts: &KeyList,
    further: usize,
    inputs: &mut Vec<Input<R>>,
    spare: &mut [Spare<R>],
    groups: &mut Vec<Groups>,
    newest: FileId,
) -> Result<Option<MadeFile<M>>, CompactError>
    requires cuts { CutsRise None cuts.now }
    requires few { further ≤ length spare.old }
    requires inputs { AreInputsOf R.bytes evolving.now inputs.old.items }
    requires spare { AllByRecursion (λ (s : AnySpare R). AreSpareInputs R.bytes inputs.old.items s.inputs.items) spare.old }
    requires none { HavePut groups.old.items [] }
    requires takes { AllByRecursion (TakesRows (columns_of evolving.now)) groups.old.items }
    ensures file { IfOk result (λ made. (rows : List AnyRow) × IsMergeOf R.bytes (columns_of evolving.now) inputs.old.items rows × IsRangeFile M.bytes M.id_of (columns_of evolving.now) id rows groups.new.items made
        × (AreBounded (columns_of evolving.now) (knowns_of R.bytes inputs.old.items) → KeepsSums (columns_of evolving.now) rows)) }
    ensures wanted { map wanted_of groups.new.items ≡ map wanted_of groups.old.items }
    ensures known { knowns_of R.bytes inputs.new.items ≡ knowns_of R.bytes inputs.old.items }
    ensures kept { AllByRecursion (IsInput R.bytes) inputs.new.items }
    ensures spare_known { map (λ (s : AnySpare R). knowns_of R.bytes s.inputs.items) spare.new ≡ map (λ (s : AnySpare R). knowns_of R.bytes s.inputs.items) spare.old }
    ensures spare_kept { AllByRecursion (λ (s : AnySpare R). AllByRecursion (IsInput R.bytes) s.inputs.items) spare.new }
    ensures causes { HasCauses (B.faults bench.old) (B.faults bench.new) (faults_of R.faults (inputs.old.items ++ flat_map spare_inputs spare.old)) (faults_of R.faults (inputs.new.items ++ flat_map spare_inputs spare.new))
        (λ d. (IsMergeDamage R.bytes R.size inputs.new.items d ⊎ IsSpareDamage R.bytes R.size spare.new d) ⊎ IsFrontTotal (columns_of evolving.now) (knowns_of R.bytes inputs.old.items) newest d) result }
    ensures accepts { IfErr result (λ e. (d : AnyDamage) → e ≡ damaged_by d → AreBounded (columns_of evolving.now) (knowns_of R.bytes inputs.old.items) → ⊥) }
{
    folds_totals();
    let mut parts = match lend(alloc, further, inputs, spare) {
        Ok(parts) => parts,
        Err(_) => return Err(CompactError::File(FileError::Memory)),
    };
    let file = range_file(
        rt,
        alloc,
        bench,
        id,
        evolving.present(),
        cuts,
        &mut parts,
        groups,
        newest,
    );
    give_back(parts, further, inputs, spare);
    file
}
