// Copies of a table, which share its deltas.
ghost use Rattle.std.specs.Prelude.{◌≡◌, ℕ, IfOk, map, option_map};
ghost use Rattle.mesa_catalog_table.specs.Copied.{loaded_as, value_in};
ghost use Rattle.mesa_catalog_table.specs.Meaning.{IsTable, ending_of, meta_of};

use crate::{Base, Delta, Loaded, Table};
use mesa_list::TryCopy;
use std::alloc::{AllocError, Global};
use std::sync::Arc;

/// The same table. Its deltas aren't copied: a copy is a list of pointers to them.
pub fn share_table(alloc: Global, table: &Table) -> Result<Table, AllocError>
    ensures same { (next : ℕ) → IfOk result (λ t. meta_of next t ≡ meta_of next table.now) }
    ensures table { (next : ℕ) → IsTable next table.now → IfOk result (IsTable next) }
{
    let name = table.name.copy()?;
    let evolving = table.evolving.clone()?;
    let widths = table.widths.copy()?;
    let totals = table.totals.copy()?;
    let base = share_base(&table.base)?;
    let cumulatives = share_cumulatives(alloc, &table.cumulatives)?;
    let loaded = share_loaded(alloc, &table.loaded)?;
    Ok(Table {
        name,
        evolving,
        widths,
        totals,
        oldest: table.oldest,
        base,
        cumulatives,
        loaded,
    })
}

fn share_base(base: &Option<Base>) -> Result<Option<Base>, AllocError>
    ensures { IfOk result (λ shared. option_map ending_of shared ≡ option_map ending_of base.now) }
{
    match base {
        None => Ok(None),
        Some(base) => {
            let delta = share_delta(&base.delta)?;
            Ok(Some(Base { to: base.to, delta }))
        }
    }
}

fn share_delta(delta: &Option<Arc<Delta>>) -> Result<Option<Arc<Delta>>, AllocError>
    ensures { IfOk result (λ shared. option_map value_in shared ≡ option_map value_in delta.now) }
{
    match delta {
        None => Ok(None),
        Some(delta) => {
            let shared = delta.clone()?;
            Ok(Some(shared))
        }
    }
}

fn share_cumulatives(
    alloc: Global,
    cumulatives: &[Arc<Delta>],
) -> Result<Vec<Arc<Delta>>, AllocError>
    ensures { IfOk result (λ shared. map value_in shared.items ≡ map value_in cumulatives.now) }
{
    let mut shared = Vec::with_capacity(alloc, cumulatives.len())?;
    for delta in cumulatives {
        shared.push(delta.clone()?)?;
    }
    Ok(shared)
}

fn share_loaded(alloc: Global, loaded: &[Loaded]) -> Result<Vec<Loaded>, AllocError>
    ensures { IfOk result (λ shared. map loaded_as shared.items ≡ map loaded_as loaded.now) }
{
    let mut shared = Vec::with_capacity(alloc, loaded.len())?;
    for single in loaded {
        shared.push(Loaded {
            version: single.version,
            delta: single.delta.clone()?,
        })?;
    }
    Ok(shared)
}
