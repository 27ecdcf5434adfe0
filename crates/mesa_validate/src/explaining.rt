// What is told of how a query would be answered.
ghost use Rattle.std.specs.Prelude.{◌≡◌, ◌<◌, map, Ok, IfOk, IfErr, IfSome, length};
ghost use Rattle.mesa_model.specs.Orders.{order_asked as order_of};
ghost use Rattle.mesa_model.specs.Warehouse.{Warehouse};
ghost use Rattle.mesa_catalog.specs.mesa_history_spec.Machine.{Machine, explained};
ghost use Rattle.mesa_catalog.specs.mesa_store_spec.Catalog.{ranges_of, meta_at};
ghost use Rattle.mesa_catalog.specs.mesa_store_spec.Shape.{IsCatalog};
ghost use Rattle.mesa_binding.specs.Told.{IsDue};
ghost use Rattle.mesa_validate.specs.Found.{relation_with, without_rows};
ghost use Rattle.mesa_validate.specs.Seen.{HasCatalog};

use crate::lookups::relation_asked;
use crate::queries::relation_schema;
use crate::versions::version_asked;
use mesa_binding::{Failure, read_filter};
use mesa_catalog::{Catalog, Relation};
use mesa_list::{Items, TryCopy};
use mesa_model::{ExplainWords, Refusal, Reply};
use mesa_order::order_told;
use mesa_schema::{Name, Words};
use mesa_span::plan;
use std::alloc::Global;

/// The ranges that a query of a relation would read, and where its filter is named the relation in whose order it would be answered.
pub fn explain(alloc: Global, catalog: &Catalog, words: &ExplainWords) -> Result<Reply, Failure>
    requires { IsCatalog catalog.now.catalogue }
    ensures explained { IfOk result (λ told. (w : Warehouse) (m : Machine) → HasCatalog catalog.now.catalogue w → m.ranges ≡ map ranges_of catalog.now.catalogue.tables → explained w m words.now ≡ Ok told) }
    ensures refused { IfErr result (λ failure. (w : Warehouse) (m : Machine) → HasCatalog catalog.now.catalogue w → IsDue (explained w m words.now) failure) }
{
    let Some(relation) = relation_asked(catalog, words.relation.as_slice()) else {
        return Err(Failure::Refused(Refusal::NoTable { row: None }));
    };
    let by = order_asked(alloc, catalog, relation, &words.filter)?;
    let version = version_asked(catalog, catalog.oldest(relation.table), words.version)?;
    let ranges = catalog.ranges(relation.table)?;
    let spans = plan(alloc, &ranges, version)?;
    Ok(Reply::Spans {
        ranges: Items::from_vec(spans),
        by,
    })
}

// The name of the relation by which a query of a relation with this filter would be answered, where one is named.
fn order_asked(
    alloc: Global,
    catalog: &Catalog,
    relation: Relation,
    filter: &Option<Words>,
) -> Result<Option<Name>, Failure>
    requires table { relation.table < length catalog.now.catalogue.tables }
    requires view { IfSome relation.view (λ view. view < length (meta_at catalog.now.catalogue relation.table).lineage.views) }
    ensures order { IfOk result (λ by. order_of (relation_with (without_rows (meta_at catalog.now.catalogue relation.table)) relation) filter.now ≡ Ok by) }
    ensures refused { IfErr result (IsDue (order_of (relation_with (without_rows (meta_at catalog.now.catalogue relation.table)) relation) filter.now)) }
{
    let Some(text) = filter else {
        return Ok(None);
    };
    let schema = relation_schema(catalog, relation)?;
    let filter = read_filter(alloc, &schema, text.as_slice())?;
    let view = match relation.view {
        Some(view) => Some(view),
        None => order_told(alloc, catalog.evolving(relation.table), &filter)?,
    };
    let name = match view {
        Some(view) => catalog.evolving(relation.table).view_name(view).copy()?,
        None => catalog.name(relation.table).copy()?,
    };
    Ok(Some(name))
}
