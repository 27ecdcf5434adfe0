// The ids of the files that a checkpoint names.
ghost use Rattle.std.specs.Prelude.{◌≡◌, ◌≤◌, is_some, nat_le, IfOk, IfSome};
ghost use Rattle.std.specs.List.{AllByRecursion, list_all};
ghost use Rattle.mesa_catalog_records.specs.mesa_store_spec.CheckpointFits.{ids_fit};
ghost use Rattle.mesa_catalog_records.specs.mesa_store_spec.Fitting.{run_of_id};
ghost use Rattle.mesa_catalog_records.specs.mesa_store_spec.Ids.{named};
ghost use Rattle.mesa_catalog_records.specs.Meaning.{AreCatalogTables, catalogue_of};
ghost use Rattle.mesa_catalog.specs.Restored.{ids_rise};

use crate::files::push_ids;
use mesa_catalog_records::{CatalogTables, IDS_OF_RUN};
use mesa_file::FileId;
use std::alloc::{AllocError, Global};

// The greatest of a number of ids, if each is that of one file, and of a run up to the last one. They are sorted for that.
pub(crate) fn greatest_id(
    alloc: Global,
    catalog_tables: &CatalogTables,
) -> Result<Option<u64>, AllocError>
    requires { AreCatalogTables catalog_tables.now }
    ensures fits { IfOk result (λ greatest. is_some greatest ≡ ids_fit (catalogue_of catalog_tables.now)) }
    ensures most { IfOk result (λ greatest. IfSome greatest (λ most. AllByRecursion (λ id. id ≤ most) (named (catalogue_of catalog_tables.now)))) }
{
    let mut ids = Vec::new(alloc);
    push_ids(&catalog_tables.tables, &mut ids)?;
    if !are_of_runs(catalog_tables.run, &ids) {
        return Ok(None);
    }
    let greatest = greatest_of(&ids);
    ids.sort_unstable_by_key(|id| id.number());
    Ok(rise(&ids).then_some(greatest))
}

// Whether ids are of runs up to one.
fn are_of_runs(run: u32, ids: &[FileId]) -> bool
    ensures { result ≡ list_all (λ id. nat_le (run_of_id id) run) ids.now }
{
    ids.iter().all(|id| id.number() / IDS_OF_RUN <= run as u64)
}

// The greatest of ids, 0 where there are none.
fn greatest_of(ids: &[FileId]) -> u64
    ensures { AllByRecursion (λ id. id ≤ result) ids.now }
{
    let mut greatest: u64 = 0;
    for id in ids {
        greatest = greatest.max(id.number());
    }
    greatest
}

// Whether each id is above the one before it.
fn rise(ids: &[FileId]) -> bool
    ensures { result ≡ ids_rise ids.now }
{
    let Some((first, others)) = ids.split_first() else {
        return true;
    };
    let mut last = first.number();
    for id in others {
        if id.number() <= last {
            return false;
        }
        last = id.number();
    }
    true
}
