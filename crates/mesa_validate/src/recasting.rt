// Recasts.
ghost use Rattle.std.specs.Prelude.{◌≡◌, ◌<◌, Ok, Some, IfOk, IfErr, length};
ghost use Rattle.mesa_schema.specs.Recasts.{recast_checked};
ghost use Rattle.mesa_model.specs.Tables.{recast_asked as asked_of};
ghost use Rattle.mesa_catalog.specs.mesa_store_spec.Catalog.{meta_at};
ghost use Rattle.mesa_binding.specs.Told.{IsDue};
ghost use Rattle.mesa_validate.specs.Recastings.{recast_due};
ghost use Rattle.mesa_validate.specs.Seen.{number_of};

use crate::lookups::table_number;
use mesa_binding::{Failure, RecastNames, recast_asked};
use mesa_catalog::Catalog;
use mesa_model::{RecastWords, Refusal};
use std::alloc::Global;

/// A recast that the rules allow: the number of its table, and the names of the columns that it asks for.
#[derive(Drop)]
pub struct Regrouping {
    pub table: u16,
    pub names: RecastNames,
}

/// The recast that is asked of a table, or why it isn't done. A view is no table.
pub fn recast(alloc: Global, catalog: &Catalog, words: &RecastWords) -> Result<Regrouping, Failure>
    ensures table { IfOk result (λ r. number_of catalog.now.catalogue words.now.table ≡ Some r.table) }
    ensures there { IfOk result (λ r. r.table < length catalog.now.catalogue.tables) }
    ensures names { IfOk result (λ r. r.names ≡ record { keys = words.now.keys; values = words.now.values }) }
    ensures checked { IfOk result (λ r. recast_checked (meta_at catalog.now.catalogue r.table).lineage (asked_of words.now) ≡ Ok tt) }
    ensures refused { IfErr result (IsDue (recast_due catalog.now.catalogue words.now)) }
{
    let Some(table) = table_number(catalog, words.table.as_slice()) else {
        return Err(Failure::Refused(Refusal::NoTable { row: None }));
    };
    let names = recast_asked(alloc, catalog.evolving(table), words)?;
    Ok(Regrouping { table, names })
}
