// Opening the files of a range.
ghost use Rattle.std.specs.Prelude.{◌≡◌, ◌≢◌, ◌-◌, ◌<◌, ◌≤◌, ◌^◌, ℕ, IfOk, IfSome};
ghost use Rattle.std.specs.List.{AllByRecursion};
ghost use Rattle.mesa_schema.specs.Changes.{epoch_of};
ghost use Rattle.mesa_disk.specs.Story.{Unmoved};
ghost use Rattle.mesa_validate.specs.mesa_store_spec.Fitting.{deltas_of};
ghost use Rattle.mesa_validate.specs.mesa_store_spec.Moves.{is_base, last_of};
ghost use Rattle.mesa_pick_files.specs.Folding.{folded_deltas};
ghost use Rattle.mesa_pick_files.specs.Lent.{AreOfEpochs, lent_in, with_rows};
ghost use Rattle.mesa_catalog_table.specs.Meaning.{IsTable, meta_of};
ghost use Rattle.mesa_open_files.specs.Opening.{Counted};
ghost use Rattle.mesa_open_files.specs.Spares.{HasSpares};
ghost use Rattle.mesa_open_files.specs.Tasks.{IsTask};
ghost use Rattle.mesa_pick_files.specs.Gathered.{IsGathered, is_fault_among, task_with};

use crate::folding::folded;
use crate::parts::{Part, Parts, open_parts};
use crate::{Deltas, table_files};
use mesa_catalog_table::Table;
use mesa_delta::Input;
use mesa_disk::Made;
use mesa_file::Damage;
use mesa_open_files::{DeltaDisk, Spare, Unopened};
use mesa_span::Work;
use std::alloc::Global;

/// The open files of a range that is to be merged: all that a task has before its work is granted.
#[derive(Drop)]
pub struct Gathered<R> {
    /// The epoch of the new delta's rows: the table's present one.
    pub epoch: u32,
    pub inputs: Vec<Input<R>>,
    /// The first file that was absent or damaged.
    pub damage: Option<Damage>,
    /// Further readers of the same files.
    pub spare: Vec<Spare<R>>,
}

/// Opens the table's files of what a work folds. They are opened once for each part of the merge, and at least once. The first file that isn't the recorded one ends the opening, and is told in what is gathered.
pub fn gather<M: Made, D: DeltaDisk<M>>(
    alloc: Global,
    disk: &mut D,
    table: &Table,
    work: Work,
    parts: u8,
) -> Result<Gathered<D::Reader>, Unopened>
    requires { (next : ℕ) × (next < 2 ^ 32) × IsTable next table.now × AllByRecursion (λ d. d.epoch ≤ epoch_of table.now.evolving.value) (deltas_of (meta_of next table.now)) }
    ensures unmoved { Unmoved (D.story disk.old) (D.story disk.new) }
    ensures counted { Counted (D.story disk.old) (D.story disk.new) (is_fault_among result) }
    ensures damage { IfOk result (λ g. IfSome g.damage (λ d. d.want ≢ d.found)) }
    // Whichever number the table has and whichever lease it gets, this is a task of it.
    ensures task { IfOk result (λ g. (number lease : ℕ) → IsTask D.Reader.bytes table.now.evolving.value (task_with number work lease g)) }
    ensures spare { IfOk result (λ g. (number lease : ℕ) → HasSpares D.Reader.bytes (parts - 1) (task_with number work lease g)) }
    ensures files { (next : ℕ) → IsTable next table.now → IfOk result (λ g. (number lease : ℕ) → IsGathered D.Reader.bytes D.Reader.faults (D.story disk.old).told (meta_of next table.now) work (task_with number work lease g)) }
{
    let deltas = range_deltas(table, work);
    let Ok(wanted) = table_files(alloc, &table.evolving, &deltas) else {
        return Err(Unopened::Memory);
    };
    match open_parts(alloc, disk, &wanted, parts) {
        Ok(Parts { first, spare }) => {
            let Part { readers, damage } = first;
            let Spare { inputs } = readers;
            Ok(Gathered {
                epoch: table.evolving.epoch(),
                inputs,
                damage,
                spare,
            })
        }
        Err(unopened) => Err(unopened),
    }
}

// The deltas that a work folds.
fn range_deltas(table: &Table, work: Work) -> Deltas
    requires { (next : ℕ) × (next < 2 ^ 32) × IsTable next table.now }
    ensures range { (next : ℕ) → IsTable next table.now → with_rows (lent_in result) ≡ with_rows (folded_deltas (meta_of next table.now) (is_base work) (last_of work)) }
    ensures epochs { (next epoch : ℕ) → IsTable next table.now → AllByRecursion (λ d. d.epoch ≤ epoch) (deltas_of (meta_of next table.now)) → AreOfEpochs epoch (lent_in result) }
{
    match work {
        Work::Base { to } => folded(table, true, to),
        Work::Cumulative { to, .. } => folded(table, false, to),
    }
}
