// The ranges that came while a table was being rewritten.
ghost use Rattle.std.specs.Prelude.{◌≡◌, ◌≢◌, ◌⊎◌, ◌↔◌, ◌<◌, true, None, Ok, Err, IfErr, IfOk, IfSome, IsTrue, OnOk, length};
ghost use Rattle.mesa_work_turns.specs.mesa_copy.Copying.{IsRecastBounded};
ghost use Rattle.mesa_delta.specs.declared.error.FileError.TheVariants as file_error;
ghost use Rattle.mesa_work_turns.specs.mesa_pick_files.Ranges.{HoldsAll};
ghost use Rattle.mesa_engine.specs.mesa_store_spec.Catalog.{meta_at};
ghost use Rattle.mesa_engine.specs.Written.{written_at};
ghost use Rattle.mesa_work_turns.specs.mesa_invariant_spec.Turns.{NoneFell, SomeRose};
ghost use Rattle.mesa_work_turns.specs.mesa_schema.Changes.{epoch_of};
ghost use Rattle.mesa_work_turns.specs.mesa_history_spec.Rows.{Rows};
ghost use Rattle.mesa_work_turns.specs.mesa_file_records.Grown.{HasBecome};
ghost use Rattle.mesa_work_turns.specs.mesa_file_records.Recasts.{HasItsRanges, meta_of_recast};
ghost use Rattle.mesa_open_files.specs.Recasts.{IsRecastTask, IsRecasted, IsRecastedSoFar, recast_table};
ghost use Rattle.mesa_open_files.specs.declared.opening.Unopened.TheVariants as un;
ghost use Rattle.mesa_open_files.specs.declared.recasting.Recasted.{Recasted as AnyRecasted};
ghost use Rattle.mesa_recast_turns.specs.Rested.{HasFurther, HasUnpaid, IsLonger, MayRest};

use mesa_delta::FileError;
use mesa_disk::{Damage, Made};
use mesa_engine::{Engine, Metadata, Naming};
use mesa_io::Sink;
use mesa_open_files::{DeltaDisk, Recast, RecastRange, Unopened};
use mesa_work_turns::gather_more;

// Whether further ranges are opened: the vault is open, no file of the recast was damaged, and its table has still the epoch in which it was granted.
fn may_rest<R>(metadata: &Metadata, task: &Recast<R>) -> bool
    requires { task.now.table < length metadata.now.state.catalogue.tables }
    ensures { IsTrue result ↔ MayRest metadata.now.state task.now }
{
    metadata.check_open().is_ok()
        && task.damage.is_none()
        && metadata.catalog().evolving(task.table).epoch() == task.epoch
}

// Opens the files of the ranges with rows that a table has and that aren't among these yet, up to the first that isn't the recorded one. Views may have come since the recast was granted, but its columns are the same.
fn open_more<N: Naming, M: Made, D: DeltaDisk<M>, K: Sink>(
    engine: &mut Engine<N, M, D, K>,
    number: u16,
    ranges: &mut Vec<RecastRange<D::Reader>>,
) -> Result<Option<Damage>, Unopened>
    requires there { number < length engine.old.state.catalogue.tables }
    requires opened { engine.old.state.closed ≡ None }
    ensures shown { engine.new.shown ≡ engine.old.shown }
    ensures state { engine.new.state ≡ engine.old.state }
    ensures told { engine.new.told ≡ engine.old.told }
    ensures sink { engine.new.sink ≡ engine.old.sink }
    ensures faults { NoneFell engine.old.faults engine.new.faults }
    ensures rose { result ≡ Err un.Fault → SomeRose engine.old.faults engine.new.faults }
    ensures unpaid { result ≡ Err un.Fault → HasUnpaid N.script N.start N.counted engine.new.shown engine.new.faults }
    ensures more { HasFurther D.Reader.bytes (meta_at engine.old.state.catalogue number).lineage N.sound (λ w. written_at N.script (N.start w) (N.origin w) engine.old.shown.history number) ranges.old.items ranges.new.items }
    ensures holds { IfOk result (λ d. d ≡ None → HoldsAll ranges.new.items (meta_at engine.old.state.catalogue number)) }
    ensures differs { IfOk result (λ d. IfSome d (λ d. d.want ≢ d.found)) }
    ensures whole { (w : Rows) → N.sound w → IfOk result (λ d. d ≡ None) }
{
    let alloc = *engine.log.history.allocator();
    let table = engine.metadata.catalog().table(number);
    gather_more(alloc, &mut engine.disk, table, ranges)
}

/// Opens the files of the ranges that a recast doesn't have yet: those of the batches that came since it was granted. While the table's epoch is the recast's, it then has each of the table's ranges with rows, unless a file isn't the recorded one: that is told in the recast. Where the table isn't to be recast any more, the recast stays as it is. It takes no turn; a call of the disk that fails is paid by the turn behind it.
pub fn rest<N: Naming, M: Made, D: DeltaDisk<M>, K: Sink>(
    engine: &mut Engine<N, M, D, K>,
    task: &mut Recast<D::Reader>,
) -> Result<(), FileError>
    requires task { IsRecastTask D.Reader.bytes task.old }
    requires there { task.old.table < length engine.old.state.catalogue.tables }
    requires grown { HasBecome (recast_table task.old) (meta_of_recast engine.old.state task.old).lineage }
    requires damage { IfSome task.old.damage (λ d. d.want ≢ d.found) }
    requires runs { engine.old.shown.running ≡ true }
    ensures shown { engine.new.shown ≡ engine.old.shown }
    ensures state { engine.new.state ≡ engine.old.state }
    ensures told { engine.new.told ≡ engine.old.told }
    ensures sink { engine.new.sink ≡ engine.old.sink }
    ensures faults { NoneFell engine.old.faults engine.new.faults }

    // It met no damage that it doesn't tell in the recast. A fault that it answers was counted in the call, and is unpaid.
    ensures sort { IfErr result (λ e. (e ≡ file_error.Read) ⊎ (e ≡ file_error.Memory)) }
    ensures cause { IfErr result (λ e. e ≡ file_error.Read → SomeRose engine.old.faults engine.new.faults) }
    ensures unpaid { IfErr result (λ e. e ≡ file_error.Read → HasUnpaid N.script N.start N.counted engine.new.shown engine.new.faults) }

    // Where further ranges may not be opened, nothing is done: the vault has closed, a file of the recast was damaged, or its table has another epoch.
    ensures stays { (MayRest engine.old.state task.old → ⊥) → (result ≡ Ok tt) × (task.new ≡ task.old) × (engine.new ≡ engine.old) }

    // The recast is the one that it was, with further ranges behind.
    ensures longer { IsLonger D.Reader.bytes task.old task.new }
    ensures begun { (made : AnyRecasted M) → IsRecasted M.bytes M.id_of D.Reader.bytes task.old made → IsRecastedSoFar M.bytes M.id_of D.Reader.bytes task.new made }
    ensures kept { IsRecastTask D.Reader.bytes task.new }
    ensures differs { IfSome task.new.damage (λ d. d.want ≢ d.found) }
    ensures holds { OnOk result (engine.old.state.closed ≡ None → task.new.damage ≡ None → epoch_of (meta_of_recast engine.old.state task.old).lineage ≡ task.old.epoch
        → HoldsAll task.new.ranges.items (meta_of_recast engine.old.state task.old)) }

    // On a sound store no file is damaged, the further ranges have what was written in them, and no sum over one of them leaves its type.
    ensures whole { (w : Rows) → N.sound w → task.old.damage ≡ None → task.new.damage ≡ None }
    ensures ranges { (w : Rows) → N.sound w → HasItsRanges D.Reader.bytes task.old (written_at N.script (N.start w) (N.origin w) engine.old.shown.history task.old.table)
        → HasItsRanges D.Reader.bytes task.new (written_at N.script (N.start w) (N.origin w) engine.old.shown.history task.old.table) }
    ensures bounded { (w : Rows) → N.sound w → IsRecastBounded D.Reader.bytes task.old → IsRecastBounded D.Reader.bytes task.new }
{
    if !may_rest(&engine.metadata, task) {
        return Ok(());
    }
    match open_more(engine, task.table, &mut task.ranges) {
        Ok(damage) => {
            task.damage = damage;
            Ok(())
        }
        Err(Unopened::Fault) => Err(FileError::Read),
        Err(Unopened::Memory) => Err(FileError::Memory),
    }
}
