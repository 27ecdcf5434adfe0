// What a checkpoint states of a table.
ghost use Rattle.std.specs.Prelude.{◌≡◌, ◌+◌, ◌*◌, ◌++◌, ◌≤◌, ◌<◌, ◌^◌, ℕ, flat_map, length, map, option_map, IfOk, OnOk};
ghost use Rattle.mesa_catalog_table.specs.mesa_store_spec.Checkpoint.{stating_range, stating_single, stating_table, totals_or_none};
ghost use Rattle.mesa_catalog_table.specs.Meaning.{IsTable, ending_of, meta_of, tens_from};
ghost use Rattle.mesa_table_records.specs.Stated.{stating_loaded};

use mesa_catalog_table::{
    Base, CheckpointRange, CheckpointSingle, CheckpointTable, Delta, Files, Loaded, Table,
};
use mesa_list::{Items, TryCopy};
use mesa_schema::{Change, Evolving, KeyColumn, Totals, ValueColumn, View};
use std::alloc::{AllocError, Global};
use std::sync::Arc;

/// What a checkpoint states of a table. The table stays: names, columns, files and totals are copied.
pub fn state(alloc: Global, table: &Table) -> Result<CheckpointTable, AllocError>
    requires { (next : ℕ) × (next < 2 ^ 32) × IsTable next table.now }
    ensures { (next : ℕ) → IsTable next table.now → IfOk result (λ stated. stated ≡ stating_table (meta_of next table.now)) }
{
    let first = table.evolving.first();
    let name = table.name.copy()?;
    let keys = KeyColumn::copy_all(alloc, first.keys())?;
    let values = ValueColumn::copy_all(alloc, first.values())?;
    let changes = Change::copy_all(alloc, table.evolving.changes())?;
    let views = state_views(alloc, &table.evolving)?;
    let totals = table.totals.copy()?;
    let base = state_base(&table.base)?;
    let cumulatives = state_cumulatives(alloc, table.start(), &table.cumulatives)?;
    let singles = state_singles(alloc, &table.loaded)?;
    Ok(CheckpointTable {
        name,
        oldest: table.oldest,
        begins: table.evolving.begins(),
        keys: Items::from_vec(keys),
        values: Items::from_vec(values),
        changes: Items::from_vec(changes),
        views: Items::from_vec(views),
        totals,
        base,
        cumulatives: Items::from_vec(cumulatives),
        singles: Items::from_vec(singles),
    })
}

fn state_views(alloc: Global, evolving: &Evolving) -> Result<Vec<View>, AllocError>
    ensures { IfOk result (λ views. views.items ≡ evolving.now.views) }
{
    let mut views = Vec::with_capacity(alloc, evolving.views() as usize)?;
    for view in 0..evolving.views() {
        views.push(evolving.view(view).copy()?)?;
    }
    Ok(views)
}

fn state_base(base: &Option<Base>) -> Result<Option<CheckpointRange>, AllocError>
    ensures { IfOk result (λ stated. stated ≡ option_map stating_range (option_map ending_of base.now)) }
{
    let Some(base) = base else {
        return Ok(None);
    };
    match &base.delta {
        None => Ok(Some(CheckpointRange {
            to: base.to,
            epoch: 0,
            files: None,
        })),
        Some(delta) => Ok(Some(state_range(base.to, delta)?)),
    }
}

// Cumulatives end ten, twenty and so on versions behind the base.
fn state_cumulatives(
    alloc: Global,
    start: u64,
    cumulatives: &[Arc<Delta>],
) -> Result<Vec<CheckpointRange>, AllocError>
    requires { start + 10 * length cumulatives.now ≤ 2 ^ 32 }
    ensures { IfOk result (λ stated. stated.items ≡ map stating_range (tens_from start cumulatives.now)) }
{
    let mut stated = Vec::with_capacity(alloc, cumulatives.len())?;
    let mut behind = start;
    for delta in cumulatives {
        behind += 10;
        stated.push(state_range((behind - 1) as u32, delta)?)?;
    }
    Ok(stated)
}

fn state_range(to: u32, delta: &Delta) -> Result<CheckpointRange, AllocError>
    ensures { IfOk result (λ stated. stated ≡ stating_range (record { to = to; delta = delta.now })) }
{
    Ok(CheckpointRange {
        to,
        epoch: delta.epoch,
        files: copy_files(&delta.files)?,
    })
}

pub(crate) fn copy_files(files: &Option<Files>) -> Result<Option<Files>, AllocError>
    ensures { IfOk result (λ copy. copy ≡ files.now) }
{
    match files {
        None => Ok(None),
        Some(files) => Ok(Some(files.copy()?)),
    }
}

// Only versions that brought rows are stated.
fn state_singles(alloc: Global, loaded: &[Loaded]) -> Result<Vec<CheckpointSingle>, AllocError>
    ensures { IfOk result (λ stated. stated.items ≡ flat_map stating_loaded loaded.now) }
{
    let mut stated = Vec::with_capacity(alloc, loaded.len())?;
    for single in loaded {
        push_single(alloc, single.version, &single.delta, &mut stated)?;
    }
    Ok(stated)
}

fn push_single(
    alloc: Global,
    version: u32,
    delta: &Delta,
    stated: &mut Vec<CheckpointSingle>,
) -> Result<(), AllocError>
    ensures { OnOk result (stated.new.items ≡ stated.old.items ++ stating_single version delta.now.epoch delta.now.totals delta.now.files) }
{
    let Some(files) = &delta.files else {
        return Ok(());
    };
    let files = files.copy()?;
    let totals = state_totals(alloc, &delta.totals)?;
    stated.push(CheckpointSingle {
        version,
        epoch: delta.epoch,
        files,
        totals,
    })?;
    Ok(())
}

fn state_totals(alloc: Global, totals: &Option<Totals>) -> Result<Totals, AllocError>
    ensures { IfOk result (λ stated. stated ≡ totals_or_none totals.now) }
{
    match totals {
        None => Ok(Items::new(alloc)),
        Some(totals) => totals.copy(),
    }
}
