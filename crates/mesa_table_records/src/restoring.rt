// The table that a checkpoint states. Names, columns, files and totals are moved, not copied.
ghost use Rattle.std.specs.Prelude.{◌≡◌, ◌≢◌, ◌&&◌, ◌≤◌, ◌^◌, false, map, nat_le, option_map, IfErr, IfOk, IsTrue, OnOk};
ghost use Rattle.std.specs.List.{list_all};
ghost use Rattle.mesa_catalog_table.specs.mesa_store_spec.Checkpoint.{range_stated, single_stated, meta_stated};
ghost use Rattle.mesa_catalog_table.specs.mesa_store_spec.CheckpointFits.{are_singles as rise, are_tens as end_in_tens, base_fits, oldest_fits, range_fits, single_fits, table_fits};
ghost use Rattle.mesa_catalog_table.specs.Meaning.{IsTable, ending_of, meta_of};
ghost use Rattle.mesa_catalog_table.specs.Copied.{loaded_as, value_in};
ghost use Rattle.mesa_table_records.specs.Stated.{delta_stated, loaded_stated};

use crate::restored_columns::{Counted, restore_columns};
use mesa_catalog_table::{
    Base, CheckpointRange, CheckpointSingle, CheckpointTable, Delta, Loaded, Table, start_behind,
};
use mesa_list::Items;
use std::alloc::{AllocError, AllocFailed, Global};
use std::collections::VecDeque;
use std::sync::Arc;

/// Why nothing is made of what a checkpoint states.
#[derive(Drop)]
pub enum RestoreError {
    /// It breaks a rule of checkpoints.
    Misfit,
    Memory,
}

impl From<AllocError> for RestoreError {
    ghost use Rattle.mesa_table_records.specs.declared.restoring.RestoreError.TheVariants.{Memory};
    ghost use Rattle.std.specs.Prelude.{◌≡◌};

    ghost from_gives = { λ _ e. e ≡ Memory };

    fn from(_: AllocError) -> Self {
        RestoreError::Memory
    }
}

impl<T: Drop> From<AllocFailed<T>> for RestoreError {
    ghost use Rattle.mesa_table_records.specs.declared.restoring.RestoreError.TheVariants.{Memory};
    ghost use Rattle.std.specs.Prelude.{◌≡◌};

    ghost from_gives = { λ _ e. e ≡ Memory };

    fn from(_: AllocFailed<T>) -> Self {
        RestoreError::Memory
    }
}

/// The table that a checkpoint states, with this floor and so many versions, if it fits. Versions that brought nothing cost nothing.
pub fn restore(
    alloc: Global,
    floor: u32,
    next: u32,
    stated: CheckpointTable,
) -> Result<Table, RestoreError>
    ensures fits { OnOk result (IsTrue (table_fits floor next stated)) }
    ensures refused { IfErr result (λ e. e ≢ RestoreError.Memory → table_fits floor next stated ≡ false) }
    ensures meta { IfOk result (λ t. meta_of next t ≡ meta_stated next stated) }
    ensures table { IfOk result (IsTable next) }
{
    let CheckpointTable {
        name,
        oldest,
        begins,
        keys,
        values,
        changes,
        views,
        totals,
        base,
        cumulatives,
        singles,
    } = stated;
    let columns = restore_columns(alloc, begins, keys, values, changes, views)?;
    if !columns.allows_totals(&totals) {
        return Err(RestoreError::Misfit);
    }
    if !starts_fit(floor, next, oldest) {
        return Err(RestoreError::Misfit);
    }
    let base = restore_base(alloc, &columns, oldest, next, base)?;
    let start = start_behind(&base);
    let cumulatives = restore_cumulatives(alloc, &columns, start, next, cumulatives)?;
    let loaded = restore_singles(alloc, &columns, start, next, singles)?;
    let (evolving, widths) = columns.share(alloc)?;
    Ok(Table {
        name,
        evolving,
        widths,
        totals,
        oldest,
        base,
        cumulatives,
        loaded,
    })
}

// Whether a table's oldest version is there, where there is any, and isn't below the floor.
fn starts_fit(floor: u32, next: u32, oldest: u32) -> bool
    ensures { result ≡ (nat_le floor oldest && oldest_fits oldest next) }
{
    floor <= oldest && (oldest < next || (oldest == 0 && next == 0))
}

// ---- the base

fn restore_base(
    alloc: Global,
    columns: &Counted,
    oldest: u32,
    next: u32,
    base: Option<CheckpointRange>,
) -> Result<Option<Base>, RestoreError>
    ensures fits { OnOk result (IsTrue (base_fits columns.now.evolving oldest next base)) }
    ensures refused { IfErr result (λ e. e ≢ RestoreError.Memory → base_fits columns.now.evolving oldest next base ≡ false) }
    ensures base { IfOk result (λ made. option_map ending_of made ≡ option_map range_stated base) }
{
    let Some(base) = base else {
        return Ok(None);
    };
    if base.to > oldest {
        return Err(RestoreError::Misfit);
    }
    if !columns.allows_range(next, &base) {
        return Err(RestoreError::Misfit);
    }
    let to = base.to;
    let delta = restore_range(alloc, base)?;
    Ok(Some(Base {
        to,
        delta: Some(delta),
    }))
}

fn restore_range(alloc: Global, range: CheckpointRange) -> Result<Arc<Delta>, AllocError>
    ensures { IfOk result (λ delta. delta.value ≡ (range_stated range).delta) }
{
    let CheckpointRange {
        to: _,
        epoch,
        files,
    } = range;
    let delta = Delta {
        epoch,
        files,
        totals: None,
    };
    Ok(Arc::new(alloc, delta)?)
}

// ---- cumulatives

fn restore_cumulatives(
    alloc: Global,
    columns: &Counted,
    start: u64,
    next: u32,
    stated: Items<CheckpointRange>,
) -> Result<Vec<Arc<Delta>>, RestoreError>
    requires { start ≤ 2 ^ 32 }
    ensures fits { OnOk result (IsTrue (end_in_tens start stated && list_all (range_fits columns.now.evolving next) stated)) }
    ensures refused { IfErr result (λ e. e ≢ RestoreError.Memory → (end_in_tens start stated && list_all (range_fits columns.now.evolving next) stated) ≡ false) }
    ensures cumulatives { IfOk result (λ made. map value_in made.items ≡ map delta_stated stated) }
{
    if !are_tens(start, stated.as_slice()) {
        return Err(RestoreError::Misfit);
    }
    if !columns.allows_ranges(next, stated.as_slice()) {
        return Err(RestoreError::Misfit);
    }
    let deltas = restore_ranges(alloc, stated)?;
    Ok(deltas)
}

// Whether ranges end ten, twenty and so on versions behind a version.
fn are_tens(start: u64, ranges: &[CheckpointRange]) -> bool
    requires { start ≤ 2 ^ 32 }
    ensures { result ≡ end_in_tens start ranges.now }
{
    let mut from = start;
    for range in ranges {
        if range.to as u64 != from + 9 {
            return false;
        }
        from += 10;
    }
    true
}

fn restore_ranges(
    alloc: Global,
    stated: Items<CheckpointRange>,
) -> Result<Vec<Arc<Delta>>, AllocError>
    ensures { IfOk result (λ made. map value_in made.items ≡ map delta_stated stated) }
{
    let mut deltas = Vec::with_capacity(alloc, stated.len())?;
    let mut left = VecDeque::from_vec(stated.into_vec());
    'deltas: while let Some(range) = left.pop_front() {
        deltas.push(restore_range(alloc, range)?)?;
    }
    Ok(deltas)
}

// ---- singletons

fn restore_singles(
    alloc: Global,
    columns: &Counted,
    start: u64,
    next: u32,
    stated: Items<CheckpointSingle>,
) -> Result<Vec<Loaded>, RestoreError>
    requires { start ≤ 2 ^ 32 }
    ensures fits { OnOk result (IsTrue (rise start next stated && list_all (single_fits columns.now.evolving) stated)) }
    ensures refused { IfErr result (λ e. e ≢ RestoreError.Memory → (rise start next stated && list_all (single_fits columns.now.evolving) stated) ≡ false) }
    ensures loaded { IfOk result (λ made. map loaded_as made.items ≡ map loaded_stated stated) }
{
    if !are_singles(start, next, stated.as_slice()) {
        return Err(RestoreError::Misfit);
    }
    if !columns.allows_singles(stated.as_slice()) {
        return Err(RestoreError::Misfit);
    }
    let loaded = restore_loaded(alloc, stated)?;
    Ok(loaded)
}

// Whether versions rise from one on, all below another.
fn are_singles(from: u64, next: u32, singles: &[CheckpointSingle]) -> bool
    requires { from ≤ 2 ^ 32 }
    ensures { result ≡ rise from next singles.now }
{
    let mut least = from;
    for single in singles {
        let version = u64::from(single.version);
        if version < least {
            return false;
        }
        if next <= single.version {
            return false;
        }
        least = version + 1;
    }
    true
}

fn restore_loaded(alloc: Global, stated: Items<CheckpointSingle>) -> Result<Vec<Loaded>, AllocError>
    ensures { IfOk result (λ made. map loaded_as made.items ≡ map loaded_stated stated) }
{
    let mut loaded = Vec::with_capacity(alloc, stated.len())?;
    let mut left = VecDeque::from_vec(stated.into_vec());
    'singles: while let Some(single) = left.pop_front() {
        loaded.push(restore_single(alloc, single)?)?;
    }
    Ok(loaded)
}

fn restore_single(alloc: Global, single: CheckpointSingle) -> Result<Loaded, AllocError>
    ensures { IfOk result (λ made. loaded_as made ≡ loaded_stated single) }
{
    let CheckpointSingle {
        version,
        epoch,
        files,
        totals,
    } = single;
    let delta = Delta {
        epoch,
        files: Some(files),
        totals: Some(totals),
    };
    Ok(Loaded {
        version,
        delta: Arc::new(alloc, delta)?,
    })
}
