// Making a recast of a table, and taking it in.
ghost use Rattle.std.specs.Prelude.{◌≡◌, ◌+◌, ℕ, IfOk, IsTrue, is_ok, map, option_map};
ghost use Rattle.mesa_schema.specs.Changes.{columns_of, epoch_of};
ghost use Rattle.mesa_schema.specs.Recasts.{recast_checked, recast_lineage};
ghost use Rattle.mesa_batch.specs.Totals.{totals_recast as kept_totals};
ghost use Rattle.mesa_catalog_table.specs.mesa_record.declared.recasting.Recasting.{Recasting as Told};
ghost use Rattle.mesa_catalog_table.specs.mesa_store_spec.Catalog.{base_recast, recast_in, meta_recast};
ghost use Rattle.mesa_catalog_table.specs.mesa_store_spec.Fitting.{recast_fits};
ghost use Rattle.mesa_catalog_table.specs.Copied.{loaded_as};
ghost use Rattle.mesa_catalog_table.specs.Meaning.{IsTable, ending_of, meta_of};
ghost use Rattle.mesa_table_records.specs.Readied.{IsRecast, recasting_in};
ghost use Rattle.mesa_table_records.specs.Stated.{loaded_stated};

use crate::ReadyRecast;
use crate::stating::copy_files;
use mesa_batch::totals_recast;
use mesa_catalog_table::{
    Base, CheckpointSingle, Delta, Loaded, RecastBase, Recasting, Table, first_widths,
};
use mesa_list::{Items, TryCopy};
use mesa_schema::{Evolving, Name, Totals};
use std::alloc::{AllocError, Global};
use std::sync::Arc;

/// What a recast that is allowed makes of a table: all memory that it takes is taken here.
pub fn make_recast(alloc: Global, t: &Table, k: &Recasting) -> Result<ReadyRecast, AllocError>
    requires checked { IsTrue (is_ok (recast_checked t.now.evolving.value (recast_in k.now))) }
    requires next { k.now.epoch ≡ epoch_of t.now.evolving.value + 1 }
    ensures record { IfOk result (λ y. recasting_in k.now.table y ≡ k.now) }
    ensures made { IfOk result (λ y. IsRecast t.now.evolving.value t.now.totals y k.now) }
{
    let evolving = renew(&t.evolving, k)?;
    let widths = first_widths(alloc, &evolving)?;
    let totals = renew_totals(alloc, t, k)?;
    let base = copy_base(alloc, k.epoch, &k.base)?;
    let loaded = copy_singles(alloc, k.singles.as_slice())?;
    let shared = share(alloc, evolving)?;
    Ok(ReadyRecast {
        evolving: shared,
        widths,
        totals,
        base,
        loaded,
    })
}

// ---- columns and totals

fn renew(evolving: &Evolving, k: &Recasting) -> Result<Evolving, AllocError>
    requires { IsTrue (is_ok (recast_checked evolving.now (recast_in k.now))) }
    ensures { IfOk result (λ e. e ≡ recast_lineage evolving.now (recast_in k.now)) }
{
    let keys = copy_names(&k.keys)?;
    let values = copy_names(&k.values)?;
    evolving.renewed(keys, values)
}

fn copy_names(names: &Items<Name>) -> Result<Vec<Name>, AllocError>
    ensures { IfOk result (λ copy. copy.items ≡ names.now) }
{
    Ok(names.copy()?.into_vec())
}

fn share(alloc: Global, evolving: Evolving) -> Result<Arc<Evolving>, AllocError>
    ensures { IfOk result (λ shared. shared.value ≡ evolving) }
{
    Ok(Arc::new(alloc, evolving)?)
}

fn renew_totals(alloc: Global, t: &Table, k: &Recasting) -> Result<Totals, AllocError>
    ensures { IfOk result (λ totals. totals ≡ kept_totals (columns_of t.now.evolving.value) (recast_in k.now) t.now.totals) }
{
    let columns = t.evolving.present().values();
    totals_recast(alloc, columns, &t.totals, k.values.as_slice())
}

// ---- deltas

fn copy_base(
    alloc: Global,
    epoch: u32,
    base: &Option<RecastBase>,
) -> Result<Option<Base>, AllocError>
    ensures { IfOk result (λ made. option_map ending_of made ≡ option_map (base_recast epoch) base.now) }
{
    let Some(base) = base else {
        return Ok(None);
    };
    let delta = Delta {
        epoch,
        files: copy_files(&base.files)?,
        totals: None,
    };
    Ok(Some(Base {
        to: base.to,
        delta: Some(Arc::new(alloc, delta)?),
    }))
}

fn copy_singles(alloc: Global, singles: &[CheckpointSingle]) -> Result<Vec<Loaded>, AllocError>
    ensures { IfOk result (λ made. map loaded_as made.items ≡ map loaded_stated singles.now) }
{
    let mut loaded = Vec::with_capacity(alloc, singles.len())?;
    for single in singles {
        loaded.push(copy_single(alloc, single)?)?;
    }
    Ok(loaded)
}

fn copy_single(alloc: Global, single: &CheckpointSingle) -> Result<Loaded, AllocError>
    ensures { IfOk result (λ made. loaded_as made ≡ loaded_stated single.now) }
{
    let delta = Delta {
        epoch: single.epoch,
        files: Some(single.files.copy()?),
        totals: Some(single.totals.copy()?),
    };
    Ok(Loaded {
        version: single.version,
        delta: Arc::new(alloc, delta)?,
    })
}

// ---- taking it in

/// Puts a recast in: its columns, its base and its singletons take the place of those that were there, and the cumulatives go.
pub fn recast(table: &mut Table, made: ReadyRecast)
    ensures meta { (next : ℕ) (k : Told) → IsTable next table.old → IsTrue (recast_fits (meta_of next table.old) k) → IsRecast table.old.evolving.value table.old.totals made k → meta_of next table.new ≡ meta_recast next (meta_of next table.old) k }
    ensures table { (next : ℕ) (k : Told) → IsTable next table.old → IsTrue (recast_fits (meta_of next table.old) k) → IsRecast table.old.evolving.value table.old.totals made k → IsTable next table.new }
{
    let ReadyRecast {
        evolving,
        widths,
        totals,
        base,
        loaded,
    } = made;
    table.evolving = evolving;
    table.widths = widths;
    table.totals = totals;
    table.base = base;
    table.cumulatives.clear();
    table.loaded = loaded;
}
