// What a swap takes of memory.
ghost use Rattle.std.specs.Prelude.{◌≡◌, ◌+◌, ◌<◌, ◌≤◌, ◌^◌, ℕ, Some, Ok, IfOk, IsTrue, OnErr, length};
ghost use Rattle.mesa_engine.specs.mesa_store_spec.Catalog.{ranges_of};
ghost use Rattle.mesa_engine.specs.mesa_store_spec.Fitting.{fits};
ghost use Rattle.mesa_engine.specs.mesa_store_spec.Shape.{IsCatalog};
ghost use Rattle.mesa_engine.specs.mesa_store_spec.Ids.{dropped_ids, named};
ghost use Rattle.mesa_write_turns.specs.mesa_key.Spelling.{AreBytes};
ghost use Rattle.mesa_engine.specs.EngineState.{most_files, next_id};
ghost use Rattle.mesa_engine.specs.Recorded.{removed_by};
ghost use Rattle.mesa_record.specs.Reading.{record_at};
ghost use Rattle.mesa_record.specs.Rules.{keeps_rules};
ghost use Rattle.mesa_write_turns.specs.mesa_schema.Changes.{Lineage};
ghost use Rattle.mesa_span.specs.Ranges.{base_before};
ghost use Rattle.mesa_span.specs.Work.{next_work};
ghost use Rattle.mesa_write_turns.specs.mesa_file_records.Finished.{IsFinished};
ghost use Rattle.mesa_write_turns.specs.mesa_file_records.Swapped.{IsSwapped, table_in};
ghost use Rattle.mesa_engine.specs.mesa_commit.Holding.{Among};

use mesa_disk::{FileReader, Made};
use mesa_engine::Metadata;
use mesa_file::FileId;
use mesa_journal::Framed;
use mesa_open_files::{NewDelta, Task};
use mesa_record::Record;
use mesa_recover::frame;
use mesa_write_turns::{Swapped, swap};
use std::alloc::{AllocError, Global};

// What is to be swapped in: the record with its files, its frame, the files that it lets go, and those that the turn removes.
pub(crate) struct Ready<M: Drop> {
    pub swapped: Swapped<M>,
    pub gone: Vec<FileId>,
    pub framed: Framed,
    pub removed: Vec<FileId>,
}

// Takes all memory that it takes to swap the range of a task in, in the turn at a position.
pub(crate) fn prepare<M: Made, R: FileReader>(
    alloc: Global,
    metadata: &mut Metadata,
    at: u64,
    task: &Task<R>,
    delta: NewDelta<M>,
) -> Result<Ready<M>, AllocError>
    requires shaped { IsCatalog metadata.old.state.catalogue }
    requires there { task.now.table < length metadata.old.state.catalogue.tables }
    requires due { (oldest next : ℕ) × (next_work (ranges_of (table_in metadata.old.state task.now)) oldest (base_before next) ≡ Some task.now.work) × (oldest ≤ (table_in metadata.old.state task.now).oldest) × (next ≤ metadata.old.state.catalogue.next) }
    requires finished { (was : Lineage) × IsFinished M.bytes M.id_of R.bytes was (table_in metadata.old.state task.now).lineage task.now delta }
    requires given { (id : ℕ) → Among id (named metadata.old.state.catalogue) → id < next_id metadata.old.state }
    requires room { metadata.old.state.adopted + most_files < 2 ^ 40 }
    ensures swapped { IfOk result (λ r. (was : Lineage) → IsFinished M.bytes M.id_of R.bytes was (table_in metadata.old.state task.now).lineage task.now delta
        → IsSwapped M.bytes R.bytes metadata.old.state was task.now r.swapped) }
    ensures gone { IfOk result (λ r. r.gone.items ≡ dropped_ids metadata.old.state.catalogue r.swapped.entry) }
    ensures reads { IfOk result (λ r. record_at r.framed ≡ Ok r.swapped.entry) }
    ensures bytes { IfOk result (λ r. AreBytes r.framed) }
    ensures removes { IfOk result (λ r. r.removed.items ≡ removed_by metadata.old.state at (dropped_ids metadata.old.state.catalogue r.swapped.entry)) }
    ensures reserved { IfOk result (λ r. metadata.new ≡ record metadata.old { reserved = Some (record { entry = r.swapped.entry; dropped = length r.gone.items }) }) }
    ensures err { OnErr result (metadata.new ≡ metadata.old) }
{
    let swapped = swap(alloc, metadata, task, delta)?;
    let (gone, framed, removed) = make_room(alloc, metadata, at, &swapped.entry)?;
    Ok(Ready {
        swapped,
        gone,
        framed,
        removed,
    })
}

/// Takes all memory that a record takes in the turn at a position: what it lets go, its frame, and what the turn removes.
pub fn make_room(
    alloc: Global,
    metadata: &mut Metadata,
    at: u64,
    entry: &Record,
) -> Result<(Vec<FileId>, Framed, Vec<FileId>), AllocError>
    requires rules { IsTrue (keeps_rules entry.now) }
    requires fits { IsTrue (fits metadata.old.state.catalogue entry.now) }
    ensures gone { IfOk result (λ x. x.0.items ≡ dropped_ids metadata.old.state.catalogue entry.now) }
    ensures reads { IfOk result (λ x. record_at x.1 ≡ Ok entry.now) }
    ensures bytes { IfOk result (λ x. AreBytes x.1) }
    ensures removes { IfOk result (λ x. x.2.items ≡ removed_by metadata.old.state at (dropped_ids metadata.old.state.catalogue entry.now)) }
    ensures reserved { IfOk result (λ x. metadata.new ≡ record metadata.old { reserved = Some (record { entry = entry.now; dropped = length x.0.items }) }) }
    ensures err { OnErr result (metadata.new ≡ metadata.old) }
{
    let gone = metadata.catalog().dropped(entry, alloc)?;
    let framed = frame(alloc, entry)?;
    let removed = metadata.removable(at, &gone)?;
    metadata.reserve(entry, gone.len())?;
    Ok((gone, framed, removed))
}
