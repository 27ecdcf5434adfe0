// Queries.
ghost use Rattle.std.specs.Prelude.{◌≡◌, ◌<◌, ℕ, Option as AnyOption, Ok, Some, IfOk, IfErr, IfSome, IsOk, length};
ghost use Rattle.mesa_filter.specs.Asked.{asked_of};
ghost use Rattle.mesa_filter.specs.Query.{IsQueryOf};
ghost use Rattle.mesa_model.specs.Query.{query_answer};
ghost use Rattle.mesa_model.specs.Warehouse.{Warehouse};
ghost use Rattle.mesa_catalog.specs.mesa_store_spec.Catalog.{meta_at};
ghost use Rattle.mesa_catalog.specs.mesa_catalog_records.Names.{relation_of};
ghost use Rattle.mesa_binding.specs.Told.{IsDue};
ghost use Rattle.mesa_validate.specs.Found.{IsAnswered, IsFound, Sees, columns_at, version_in};

use crate::Found;
use crate::lookups::relation_asked;
use crate::versions::version_asked;
use mesa_binding::{Failure, build_query, check_query};
use mesa_catalog::{Catalog, Relation};
use mesa_filter::{QueryWords, VersionWord};
use mesa_list::TryCopy;
use mesa_model::Refusal;
use mesa_schema::Schema;
use std::alloc::{AllocError, Global};

/// What a query asks of the catalogue's tables: the vault's, or a pin's own copy, with the pin's version.
pub fn query(
    alloc: Global,
    catalog: &Catalog,
    pinned: Option<u32>,
    words: &QueryWords,
) -> Result<Found, Failure>
    ensures relation { IfOk result (λ found. relation_of catalog.now.catalogue words.now.relation ≡ Some found.relation) }
    ensures version { IfOk result (λ found. version_in catalog.now.catalogue pinned words.now.version found.relation.table ≡ Ok found.query.version) }
    ensures asked { IfOk result (IsFound catalog.now.catalogue words.now) }
    ensures sound { IfOk result (λ found. IsQueryOf (columns_at catalog.now.catalogue found.relation) found.query) }
    ensures answered { IfOk result (IsAnswered catalog.now.catalogue pinned words.now) }
    ensures refused { IfErr result (λ failure. (w : Warehouse) (session : ℕ) → Sees catalog.now.catalogue pinned words.now session w → IsDue (query_answer w session words.now) failure) }
{
    let (relation, schema) = checked_relation(alloc, catalog, words)?;
    let version = version_of(catalog, pinned, relation.table, words.version)?;
    let epoch = catalog.evolving(relation.table).epoch();
    let query = build_query(alloc, &schema, version, epoch, words)?;
    Ok(Found { relation, query })
}

// The version that is asked of a table: the pin's own, or one at which the table can be queried.
fn version_of(
    catalog: &Catalog,
    pinned: Option<u32>,
    table: u16,
    asked: VersionWord,
) -> Result<u32, Refusal>
    requires { table < length catalog.now.catalogue.tables }
    ensures { result ≡ version_in catalog.now.catalogue pinned asked table }
{
    match pinned {
        Some(version) => Ok(version),
        None => version_asked(catalog, catalog.oldest(table), asked),
    }
}

// The relation that is asked, and its columns, which have what the query asks of them.
fn checked_relation(
    alloc: Global,
    catalog: &Catalog,
    words: &QueryWords,
) -> Result<(Relation, Schema), Failure>
    ensures found { IfOk result (λ x. relation_of catalog.now.catalogue words.now.relation ≡ Some x.0) }
    ensures there { IfOk result (λ x. x.0.table < length catalog.now.catalogue.tables) }
    ensures columns { IfOk result (λ x. x.1 ≡ columns_at catalog.now.catalogue x.0) }
    ensures asked { IfOk result (λ x. IsOk (asked_of (columns_at catalog.now.catalogue x.0) words.now)) }
    ensures refused { IfErr result (λ failure. (pinned : AnyOption ℕ) (w : Warehouse) (session : ℕ) → Sees catalog.now.catalogue pinned words.now session w → IsDue (query_answer w session words.now) failure) }
{
    let Some(relation) = relation_asked(catalog, words.relation.as_slice()) else {
        return Err(Failure::Refused(Refusal::NoTable { row: None }));
    };
    let schema = relation_schema(catalog, relation)?;
    check_query(alloc, &schema, words)?;
    Ok((relation, schema))
}

/// The columns of a relation.
pub fn relation_schema(catalog: &Catalog, relation: Relation) -> Result<Schema, AllocError>
    requires table { relation.table < length catalog.now.catalogue.tables }
    requires view { IfSome relation.view (λ view. view < length (meta_at catalog.now.catalogue relation.table).lineage.views) }
    ensures { IfOk result (λ s. s ≡ columns_at catalog.now.catalogue relation) }
{
    let evolving = catalog.evolving(relation.table);
    match relation.view {
        Some(view) => evolving.view_schema(view),
        None => evolving.present().copy(),
    }
}
