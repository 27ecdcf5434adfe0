// The record of a work.
ghost use Rattle.std.specs.Prelude.{◌≡◌, ◌+◌, ◌<◌, ◌≤◌, ◌^◌, ◌++◌, ℕ, Some, IfOk, OnOk, length};
ghost use Rattle.mesa_pick_files.specs.mesa_schema.Changes.{Lineage};
ghost use Rattle.mesa_disk.specs.Files.{files_of};
ghost use Rattle.mesa_span.specs.Ranges.{base_before};
ghost use Rattle.mesa_span.specs.Work.{next_work};
ghost use Rattle.mesa_engine.specs.mesa_commit.Holding.{Among};
ghost use Rattle.mesa_engine.specs.mesa_store_spec.Catalog.{ranges_of};
ghost use Rattle.mesa_engine.specs.mesa_store_spec.Shape.{IsCatalog};
ghost use Rattle.mesa_engine.specs.mesa_store_spec.Ids.{named};
ghost use Rattle.mesa_engine.specs.EngineState.{most_files, next_id};
ghost use Rattle.mesa_file_records.specs.Adopted.{files_if_any, told_under};
ghost use Rattle.mesa_file_records.specs.Finished.{IsFinished};
ghost use Rattle.mesa_file_records.specs.Swapped.{IsSwapped, files_under_if_any, swap_of, table_in};

use crate::Adopting;
use mesa_disk::{Adoption, FileReader, Made};
use mesa_engine::Metadata;
use mesa_file::FileId;
use mesa_open_files::{MadeFiles, NewDelta, Task};
use mesa_record::{Files, Record};
use mesa_span::Work;
use std::alloc::{AllocError, Global};

/// What may take the place of a table's files: the record that does it, the files that it brings with their ids, and how many files the run has adopted with them.
#[derive(Drop)]
pub struct Swapped<M: Drop> {
    pub entry: Record,
    pub made: Vec<Adoption<M>>,
    pub adopted: u64,
}

/// The record that swaps the range of a task in, whose merge is finished. The files get the next ids. The task's work was due for the ranges that its table has: while its lease isn't lost, they stay. Without memory the files are dropped.
pub fn swap<M: Made, R: FileReader>(
    alloc: Global,
    metadata: &Metadata,
    task: &Task<R>,
    delta: NewDelta<M>,
) -> Result<Swapped<M>, AllocError>
    requires shaped { IsCatalog metadata.now.state.catalogue }
    requires there { task.now.table < length metadata.now.state.catalogue.tables }
    requires due { (oldest next : ℕ) × (next_work (ranges_of (table_in metadata.now.state task.now)) oldest (base_before next) ≡ Some task.now.work) × (oldest ≤ (table_in metadata.now.state task.now).oldest) × (next ≤ metadata.now.state.catalogue.next) }
    requires finished { (was : Lineage) × IsFinished M.bytes M.id_of R.bytes was (table_in metadata.now.state task.now).lineage task.now delta }
    requires given { (id : ℕ) → Among id (named metadata.now.state.catalogue) → id < next_id metadata.now.state }
    requires room { metadata.now.state.adopted + most_files < 2 ^ 40 }
    ensures swapped { IfOk result (λ s. (was : Lineage) → IsFinished M.bytes M.id_of R.bytes was (table_in metadata.now.state task.now).lineage task.now delta
        → IsSwapped M.bytes R.bytes metadata.now.state was task.now s) }
{
    let adopted = metadata.adopted();
    let mut adopting = Adopting {
        alloc,
        made: Vec::new(alloc),
        next: FileId::adopted(metadata.catalog().run(), adopted).number(),
    };
    let files = bring(&mut adopting, delta.files)?;
    let adopted = adopted + adopting.made.len() as u64;
    Ok(Swapped {
        entry: record(task, files),
        made: adopting.made,
        adopted,
    })
}

// Gives the files of a merged range the next ids, if it has rows.
fn bring<M: Made>(
    adopting: &mut Adopting<M>,
    files: Option<MadeFiles<M>>,
) -> Result<Option<Files>, AllocError>
    requires { adopting.old.next + length (files_if_any files) < 2 ^ 64 }
    ensures files { IfOk result (λ f. f ≡ files_under_if_any adopting.old.next files) }
    ensures made { OnOk result (files_of M.bytes adopting.new.made.items ≡ files_of M.bytes adopting.old.made.items ++ told_under M.bytes adopting.old.next (files_if_any files)) }
{
    match files {
        Some(files) => Ok(Some(adopting.files(files)?)),
        None => Ok(None),
    }
}

// The record of a task's range, with its files.
fn record<R>(task: &Task<R>, files: Option<Files>) -> Record
    ensures { result ≡ swap_of task.now files }
{
    let (base, from, to) = match task.work {
        Work::Base { to } => (true, 0, to),
        Work::Cumulative { from, to } => (false, from, to),
    };
    Record::Swap {
        table: task.table,
        base,
        from,
        to,
        epoch: task.epoch,
        files,
    }
}
