// The record of a recast.
ghost use Rattle.std.specs.Prelude.{◌≡◌, ◌+◌, ◌<◌, ◌^◌, ◌++◌, [], ◌∷◌, ℕ, List, IfOk, IfSome, Ok, length, option_map};
ghost use Rattle.std.specs.List.{AllByRecursion};
ghost use Rattle.mesa_disk.specs.Files.{files_of};
ghost use Rattle.mesa_pick_files.specs.Ranges.{HoldsAll};
ghost use Rattle.mesa_engine.specs.mesa_store_spec.Shape.{IsCatalog};
ghost use Rattle.mesa_engine.specs.mesa_store_spec.Countable.{AreCounted};
ghost use Rattle.mesa_engine.specs.mesa_store_spec.Ids.{named};
ghost use Rattle.mesa_engine.specs.mesa_store_spec.Recordable.{AreRecordable};
ghost use Rattle.mesa_engine.specs.EngineState.{most_files, next_id};
ghost use Rattle.mesa_file_records.specs.Adopted.{ref_under, told_under};
ghost use Rattle.mesa_pick_files.specs.mesa_schema.Recasts.{recast_checked};
ghost use Rattle.mesa_catalog_table.specs.Meaning.{AreLoaded, ending_of};
ghost use Rattle.mesa_open_files.specs.Recasts.{IsRecastTask, IsRecasted, recast_in, recast_table};
ghost use Rattle.mesa_engine.specs.mesa_commit.Holding.{Among};
ghost use Rattle.mesa_file_records.specs.Grown.{HasSameColumns};
ghost use Rattle.mesa_file_records.specs.Recasts.{AreSinglesRewritten, AreTaken, HasFile, HasFileAt, IsBaseRewritten, IsRecastIn, IsTaken, Took, files_taken, rewritten_under, singles_in, meta_of_recast, with_file};

use crate::{Adopting, Swapped};
use mesa_catalog_table::{Base, Loaded};
use mesa_columns::Totals;
use mesa_disk::{FileReader, Made};
use mesa_engine::Metadata;
use mesa_file::FileId;
use mesa_list::{Items, TryCopy};
use mesa_open_files::{MadeFile, Recast, Recasted, RecastedRange};
use mesa_record::{CheckpointSingle, Files, RecastBase, Recasting, Record};
use std::alloc::{AllocError, Global};
use std::collections::VecDeque;

// How many ranges a recast may bring: a million when it is granted, its base, and those that are loaded while its lease holds.
const MOST_RANGES: usize = 1_200_001;

/// The record that recasts the table of a task, whose ranges are rewritten. The table has the columns that it had when the task was granted, and each of its ranges with rows is among those of the task. The files get the next ids. Without memory the files are dropped, and so they are if there are too many ranges.
pub fn recast<M: Made, R: FileReader>(
    alloc: Global,
    metadata: &Metadata,
    task: &Recast<R>,
    made: Recasted<M>,
) -> Result<Swapped<M>, AllocError>
    requires shaped { IsCatalog metadata.now.state.catalogue }
    requires columns { AreCounted metadata.now.state.catalogue }
    requires recordable { AreRecordable metadata.now.state.catalogue }
    requires there { task.now.table < length metadata.now.state.catalogue.tables }
    requires allowed { recast_checked (meta_of_recast metadata.now.state task.now).lineage (recast_in task.now) ≡ Ok tt }
    requires same { HasSameColumns (recast_table task.now) (meta_of_recast metadata.now.state task.now).lineage }
    requires task { IsRecastTask R.bytes task.now }
    requires holds { HoldsAll task.now.ranges.items (meta_of_recast metadata.now.state task.now) }
    requires rewritten { IsRecasted M.bytes M.id_of R.bytes task.now made }
    requires given { (id : ℕ) → Among id (named metadata.now.state.catalogue) → id < next_id metadata.now.state }
    requires room { metadata.now.state.adopted + most_files < 2 ^ 40 }
    ensures { IfOk result (IsRecastIn M.bytes R.bytes metadata.now.state task.now) }
{
    if made.ranges.len() > MOST_RANGES {
        return Err(AllocError);
    }
    let adopted = metadata.adopted();
    let mut adopting = Adopting {
        alloc,
        made: Vec::new(alloc),
        next: FileId::adopted(metadata.catalog().run(), adopted).number(),
    };
    let table = metadata.catalog().table(task.table);
    let epoch = task.epoch + 1;
    let mut left = VecDeque::from_vec(made.ranges);
    let base = bring_base(&mut adopting, &mut left, &table.base)?;
    let singles = bring_singles(&mut adopting, &mut left, epoch, &table.loaded)?;
    let adopted = adopted + adopting.made.len() as u64;
    let entry = Record::Recast(Recasting {
        table: task.table,
        epoch,
        keys: task.keys.copy()?,
        values: task.values.copy()?,
        base,
        singles,
    });
    Ok(Swapped {
        entry,
        made: adopting.made,
        adopted,
    })
}

// The base as it is to be, if the table has one.
fn bring_base<M: Made>(
    adopting: &mut Adopting<M>,
    left: &mut VecDeque<RecastedRange<M>>,
    base: &Option<Base>,
) -> Result<Option<RecastBase>, AllocError>
    requires room { adopting.old.next + length left.old.items < 2 ^ 64 }
    requires there { IfSome base.now (λ b. HasFileAt left.old.items 0 b.to (ending_of b).delta.files) }
    ensures brought { IfOk result (λ b. (taken : List (Took M)) × AreTaken left.old.items taken left.new.items
        × IsBaseRewritten (option_map ending_of base.now) (rewritten_under adopting.old.next taken) b
        × (adopting.new.next ≡ adopting.old.next + length taken)
        × (files_of M.bytes adopting.new.made.items ≡ files_of M.bytes adopting.old.made.items ++ told_under M.bytes adopting.old.next (files_taken taken))) }
{
    let Some(base) = base else {
        return Ok(None);
    };
    let to = base.to;
    let Some(delta) = &base.delta else {
        return Ok(Some(RecastBase { to, files: None }));
    };
    let Some(old) = &delta.files else {
        return Ok(Some(RecastBase { to, files: None }));
    };
    let (brought, _) = bring_range(adopting, left, 0, to, old)?;
    let files = Some(brought);
    Ok(Some(RecastBase { to, files }))
}

// The singletons as they are to be, of an epoch.
fn bring_singles<M: Made>(
    adopting: &mut Adopting<M>,
    left: &mut VecDeque<RecastedRange<M>>,
    epoch: u32,
    loaded: &[Loaded],
) -> Result<Items<CheckpointSingle>, AllocError>
    requires room { adopting.old.next + length left.old.items < 2 ^ 64 }
    requires there { AllByRecursion (λ l. HasFileAt left.old.items l.version l.version l.delta.value.files) loaded.now }
    requires rise { (from next : ℕ) × AreLoaded from next loaded.now }
    ensures brought { IfOk result (λ singles. (taken : List (Took M)) × AreTaken left.old.items taken left.new.items
        × AreSinglesRewritten epoch (singles_in loaded.now) (rewritten_under adopting.old.next taken) singles
        × (adopting.new.next ≡ adopting.old.next + length taken)
        × (files_of M.bytes adopting.new.made.items ≡ files_of M.bytes adopting.old.made.items ++ told_under M.bytes adopting.old.next (files_taken taken))) }
{
    let mut singles = Vec::new(adopting.alloc);
    for single in loaded {
        if let Some(old) = &single.delta.files {
            let version = single.version;
            let (files, totals) = bring_range(adopting, left, version, version, old)?;
            singles.push(CheckpointSingle {
                version,
                epoch,
                files,
                totals,
            })?;
        }
    }
    Ok(Items::from_vec(singles))
}

// The files of a delta once its range is rewritten, and the totals of its rows: its table's file gets the next id, and its views' files stay.
fn bring_range<M: Made>(
    adopting: &mut Adopting<M>,
    left: &mut VecDeque<RecastedRange<M>>,
    from: u32,
    to: u32,
    old: &Files,
) -> Result<(Files, Totals), AllocError>
    requires room { adopting.old.next + 1 < 2 ^ 64 }
    requires there { HasFile left.old.items from to }
    ensures brought { IfOk result (λ x. (k : Took M) × IsTaken left.old.items k left.new.items × (k.range.from ≡ from) × (k.range.to ≡ to) × (x.1 ≡ k.range.totals)
        × (x.0 ≡ with_file old.now (ref_under adopting.old.next k.file))
        × (adopting.new.next ≡ adopting.old.next + 1)
        × (files_of M.bytes adopting.new.made.items ≡ files_of M.bytes adopting.old.made.items ++ told_under M.bytes adopting.old.next (k.file ∷ []))) }
{
    let (made, totals) = take_range(left, from, to)?;
    let file = adopting.file(made)?;
    let views = old.views.copy()?;
    Ok((Files { file, views }, totals))
}

// Takes a range out of these, among which it is with a file. Those before it are put behind the others.
fn take_range<M: Made>(
    left: &mut VecDeque<RecastedRange<M>>,
    from: u32,
    to: u32,
) -> Result<(MadeFile<M>, Totals), AllocError>
    requires there { HasFile left.old.items from to }
    ensures taken { IfOk result (λ x. (k : Took M) × IsTaken left.old.items k left.new.items × (k.file ≡ x.0) × (k.range.from ≡ from) × (k.range.to ≡ to) × (k.range.totals ≡ x.1)) }
{
    'turns: while let Some(range) = left.pop_front() {
        if range.from != from || range.to != to {
            left.push_back(range)?;
            continue;
        }
        let RecastedRange {
            from: _,
            to: _,
            file,
            totals,
        } = range;
        if let Some(made) = file {
            return Ok((made, totals));
        }
    }
    unreachable!()
}
