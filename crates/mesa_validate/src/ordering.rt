// The order in which a query is read.
ghost use Rattle.std.specs.Prelude.{◌≡◌, ◌<◌, IfOk, IfSome, IsTrue, length};
ghost use Rattle.mesa_filter.specs.Filter.{are_within};
ghost use Rattle.mesa_filter.specs.Query.{IsQueryOf};
ghost use Rattle.mesa_catalog.specs.mesa_store_spec.Catalog.{meta_at};
ghost use Rattle.mesa_validate.specs.Found.{columns_at};
ghost use Rattle.mesa_validate.specs.Ordered.{as_read};

use crate::Found;
use mesa_catalog::{Catalog, Relation};
use mesa_order::{choose, through};
use std::alloc::AllocError;

/// The same query as it is read. A query of a table is asked of a further order of it where the filter fixes more of that one's leading columns; its page and its resume keys stay the table's.
pub fn ordered(catalog: &Catalog, found: Found) -> Result<Found, AllocError>
    requires table { found.relation.table < length catalog.now.catalogue.tables }
    requires view { IfSome found.relation.view (λ view. view < length (meta_at catalog.now.catalogue found.relation.table).lineage.views) }
    requires sound { IsQueryOf (columns_at catalog.now.catalogue found.relation) found.query }
    ensures read { IfOk result (λ f. f ≡ as_read (meta_at catalog.now.catalogue found.relation.table).lineage found) }
    ensures within { IsTrue (are_within found.query.kinds found.query.asked.terms) }
    ensures sound { IfOk result (λ f. IsQueryOf (columns_at catalog.now.catalogue f.relation) f.query) }
    ensures there { IfOk result (λ f. IfSome f.relation.view (λ view. view < length (meta_at catalog.now.catalogue f.relation.table).lineage.views)) }
{
    let _terms = found.query.filter().terms();
    if found.relation.view.is_some() {
        return Ok(found);
    }
    let table = found.relation.table;
    let evolving = catalog.evolving(table);
    match choose(evolving, &found.query) {
        None => Ok(found),
        Some(view) => {
            let query = through(evolving, view, &found.query)?;
            Ok(Found {
                relation: Relation {
                    table,
                    view: Some(view),
                },
                query,
            })
        }
    }
}
