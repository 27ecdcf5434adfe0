// What a query finds in the catalogue.
use mesa_catalog::Relation;
use mesa_filter::Query;

/// A query that the rules allow: the relation that it reads, and what it asks of it, at its version.
#[derive(Drop)]
pub struct Found {
    pub relation: Relation,
    pub query: Query,
}
