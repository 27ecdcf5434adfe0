// What a recast takes of memory.
ghost use Rattle.std.specs.Prelude.{◌≡◌, ◌+◌, ◌<◌, ◌^◌, ℕ, Some, Ok, IfOk, OnErr, length};
ghost use Rattle.mesa_work_turns.specs.mesa_pick_files.Ranges.{HoldsAll};
ghost use Rattle.mesa_engine.specs.mesa_store_spec.Shape.{IsCatalog};
ghost use Rattle.mesa_work_turns.specs.mesa_key.Spelling.{AreBytes};
ghost use Rattle.mesa_engine.specs.EngineState.{books_of, most_files, next_id};
ghost use Rattle.mesa_engine.specs.Recorded.{removed_by};
ghost use Rattle.mesa_engine.specs.mesa_store_spec.Countable.{AreCounted};
ghost use Rattle.mesa_engine.specs.mesa_store_spec.Ids.{dropped_ids, named};
ghost use Rattle.mesa_engine.specs.mesa_store_spec.Recordable.{AreRecordable};
ghost use Rattle.mesa_model.specs.Tables.{recast_reply as reply_for};
ghost use Rattle.mesa_model.specs.Warehouse.{table_at};
ghost use Rattle.mesa_engine.specs.mesa_record.Reading.{record_at};
ghost use Rattle.mesa_work_turns.specs.mesa_schema.Recasts.{recast_checked};
ghost use Rattle.mesa_work_turns.specs.mesa_history_spec.Rows.{no_rows};
ghost use Rattle.mesa_work_turns.specs.mesa_file_records.Grown.{HasSameColumns};
ghost use Rattle.mesa_work_turns.specs.mesa_file_records.Recasts.{IsRecastIn, meta_of_recast};
ghost use Rattle.mesa_open_files.specs.Recasts.{IsRecastTask, IsRecasted, recast_in, recast_table};
ghost use Rattle.mesa_engine.specs.mesa_commit.Holding.{Among};

use mesa_disk::{FileReader, Made};
use mesa_engine::Metadata;
use mesa_file::FileId;
use mesa_journal::Framed;
use mesa_list::TryCopy;
use mesa_model::Reply;
use mesa_open_files::{Recast, Recasted};
use mesa_work_turns::{Swapped, make_room, recast as record_of};
use std::alloc::{AllocError, Global};

// What a table is to be recast with: the record with its files, its frame, the files that it lets go, those that the turn removes, and the reply.
pub(crate) struct Ready<M: Drop> {
    pub recast: Swapped<M>,
    pub gone: Vec<FileId>,
    pub framed: Framed,
    pub removed: Vec<FileId>,
    pub reply: Reply,
}

// Takes all memory that it takes to recast the table of a task, in the turn at a position.
pub(crate) fn prepare<M: Made, R: FileReader>(
    alloc: Global,
    metadata: &mut Metadata,
    at: u64,
    task: &Recast<R>,
    made: Recasted<M>,
) -> Result<Ready<M>, AllocError>
    requires shaped { IsCatalog metadata.old.state.catalogue }
    requires columns { AreCounted metadata.old.state.catalogue }
    requires recordable { AreRecordable metadata.old.state.catalogue }
    requires there { task.now.table < length metadata.old.state.catalogue.tables }
    requires allowed { recast_checked (meta_of_recast metadata.old.state task.now).lineage (recast_in task.now) ≡ Ok tt }
    requires same { HasSameColumns (recast_table task.now) (meta_of_recast metadata.old.state task.now).lineage }
    requires task { IsRecastTask R.bytes task.now }
    requires holds { HoldsAll task.now.ranges.items (meta_of_recast metadata.old.state task.now) }
    requires rewritten { IsRecasted M.bytes M.id_of R.bytes task.now made }
    requires given { (id : ℕ) → Among id (named metadata.old.state.catalogue) → id < next_id metadata.old.state }
    requires room { metadata.old.state.adopted + most_files < 2 ^ 40 }
    ensures recast { IfOk result (λ r. IsRecastIn M.bytes R.bytes metadata.old.state task.now r.recast) }
    ensures gone { IfOk result (λ r. r.gone.items ≡ dropped_ids metadata.old.state.catalogue r.recast.entry) }
    ensures reads { IfOk result (λ r. record_at r.framed ≡ Ok r.recast.entry) }
    ensures bytes { IfOk result (λ r. AreBytes r.framed) }
    ensures removes { IfOk result (λ r. r.removed.items ≡ removed_by metadata.old.state at (dropped_ids metadata.old.state.catalogue r.recast.entry)) }
    ensures reply { IfOk result (λ r. r.reply ≡ reply_for (table_at (books_of no_rows metadata.old.state).bare.store task.now.table)) }
    ensures reserved { IfOk result (λ r. metadata.new ≡ record metadata.old { reserved = Some (record { entry = r.recast.entry; dropped = length r.gone.items }) }) }
    ensures err { OnErr result (metadata.new ≡ metadata.old) }
{
    let table = metadata.catalog().name(task.table).copy()?;
    let epoch = task.epoch + 1;
    let recast = record_of(alloc, metadata, task, made)?;
    let (gone, framed, removed) = make_room(alloc, metadata, at, &recast.entry)?;
    let reply = Reply::Recast { table, epoch };
    Ok(Ready {
        recast,
        gone,
        framed,
        removed,
        reply,
    })
}
