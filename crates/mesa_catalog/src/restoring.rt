// The catalogue that a checkpoint states. Names, columns, files and totals are moved, not copied.
ghost use Rattle.std.specs.Prelude.{◌≡◌, ◌≢◌, false, map, option_map, IfErr, IfOk, IsTrue, OnOk};
ghost use Rattle.std.specs.List.{AllByRecursion, list_all};
ghost use Rattle.mesa_catalog_records.specs.mesa_store_spec.Checkpoint.{stated, meta_stated};
ghost use Rattle.mesa_catalog_records.specs.mesa_store_spec.CheckpointFits.{checkpoint_fits, counts_fit as counts_are_right, number_fits as number_is_right, table_fits, tables_fit};
ghost use Rattle.mesa_catalog_records.specs.mesa_store_spec.Journaled.{stated_if};
ghost use Rattle.mesa_catalog_records.specs.mesa_table_records.declared.restoring.RestoreError.TheVariants as RestoreError;
ghost use Rattle.mesa_catalog_records.specs.mesa_catalog_table.Meaning.{IsTable, meta_of};
ghost use Rattle.mesa_catalog.specs.Kept.{unreserved};

use crate::Catalog;
use crate::restored_ids::greatest_id;
use mesa_catalog_records::{
    CatalogTables, Checkpoint, CheckpointTable, MAX_RUNS, MAX_TABLES, NoRows, RestoreError, Table,
    restore,
};
use mesa_disk::Area;
use mesa_list::Items;
use std::alloc::{AllocError, Global};
use std::collections::VecDeque;

impl Catalog {
    /// The catalogue that a checkpoint states, if it fits as the first record of an area.
    pub fn restored(
        alloc: Global,
        area: Area,
        checkpoint: Checkpoint,
    ) -> Result<Option<Catalog>, AllocError>
        ensures { IfOk result (λ catalog. catalog ≡ option_map unreserved (stated_if checkpoint (checkpoint_fits area checkpoint))) }
    {
        if !number_fits(area, checkpoint.number) {
            return Ok(None);
        }
        if !counts_fit(&checkpoint) {
            return Ok(None);
        }
        match restore_catalog(alloc, checkpoint) {
            Ok(catalog) => Ok(Some(catalog)),
            Err(RestoreError::Misfit) => Ok(None),
            Err(RestoreError::Memory) => Err(AllocError),
        }
    }
}

// Whether a checkpoint's number is even and at least 2 in area 0, and odd in area 1.
fn number_fits(area: Area, number: u32) -> bool
    ensures { result ≡ number_is_right area number }
{
    match area {
        Area::Zero => number >= 2 && number % 2 == 0,
        Area::One => number % 2 == 1,
    }
}

// Whether there are not too many tables and runs, and the floor is there, where there is any version.
fn counts_fit(checkpoint: &Checkpoint) -> bool
    ensures { result ≡ counts_are_right checkpoint.now }
{
    let floor = checkpoint.floor;
    let versions = checkpoint.versions;
    checkpoint.tables.len() <= MAX_TABLES
        && checkpoint.run <= MAX_RUNS
        && (floor < versions || (floor == 0 && versions == 0))
}

fn restore_catalog(alloc: Global, checkpoint: Checkpoint) -> Result<Catalog, RestoreError>
    requires { IsTrue (counts_are_right checkpoint) }
    ensures fits { OnOk result (IsTrue (tables_fit checkpoint)) }
    ensures refused { IfErr result (λ e. e ≢ RestoreError.Memory → tables_fit checkpoint ≡ false) }
    ensures catalog { IfOk result (λ catalog. catalog ≡ unreserved (stated checkpoint)) }
{
    let Checkpoint {
        number: _,
        run,
        floor,
        versions,
        tables,
    } = checkpoint;
    let tables = restore_tables(alloc, floor, versions, tables)?;
    let catalog_tables = CatalogTables {
        tables,
        floor,
        next: versions,
        run,
    };
    if !catalog_tables.names_differ(alloc)? {
        return Err(RestoreError::Misfit);
    }
    let Some(greatest) = greatest_id(alloc, &catalog_tables)? else {
        return Err(RestoreError::Misfit);
    };
    Ok(Catalog {
        catalog_tables,
        ready: None,
        greatest,
        no_rows: NoRows::new(),
    })
}

fn restore_tables(
    alloc: Global,
    floor: u32,
    next: u32,
    stated: Items<CheckpointTable>,
) -> Result<Vec<Table>, RestoreError>
    ensures fits { OnOk result (IsTrue (list_all (table_fits floor next) stated)) }
    ensures refused { IfErr result (λ e. e ≢ RestoreError.Memory → list_all (table_fits floor next) stated ≡ false) }
    ensures metas { IfOk result (λ tables. map (meta_of next) tables.items ≡ map (meta_stated next) stated) }
    ensures tables { IfOk result (λ tables. AllByRecursion (IsTable next) tables.items) }
{
    let mut tables = Vec::with_capacity(alloc, stated.len())?;
    let mut left = VecDeque::from_vec(stated.into_vec());
    'tables: while let Some(table) = left.pop_front() {
        tables.push(restore(alloc, floor, next, table)?)?;
    }
    Ok(tables)
}
