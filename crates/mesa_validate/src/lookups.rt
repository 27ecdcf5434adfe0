// Looking tables and views up by their names.
ghost use Rattle.std.specs.Prelude.{◌≡◌, ◌<◌, IfSome, length};
ghost use Rattle.mesa_catalog.specs.mesa_columns.Columns.{place_of};
ghost use Rattle.mesa_catalog.specs.mesa_store_spec.Catalog.{meta_at};
ghost use Rattle.mesa_catalog.specs.mesa_catalog_records.Names.{relation_of};
ghost use Rattle.mesa_catalog.specs.mesa_catalog_table.Lookups.{view_names};
ghost use Rattle.mesa_validate.specs.Seen.{number_of};

use mesa_catalog::{Catalog, Relation};
use mesa_schema::Evolving;

/// The number of the table of a name; a view is no table. Takes no memory.
pub fn table_number(catalog: &Catalog, name: &[u8]) -> Option<u16>
    ensures found { result ≡ number_of catalog.now.catalogue name.now }
    ensures there { IfSome result (λ table. table < length catalog.now.catalogue.tables) }
{
    for table in 0..catalog.tables() {
        if name == catalog.name(table).bytes() {
            return Some(table);
        }
    }
    None
}

/// The table or the view of a name: tables and views share one space of names. Takes no memory.
pub fn relation_asked(catalog: &Catalog, name: &[u8]) -> Option<Relation>
    ensures found { result ≡ relation_of catalog.now.catalogue name.now }
    ensures table { IfSome result (λ r. r.table < length catalog.now.catalogue.tables) }
    ensures view { IfSome result (λ r. IfSome r.view (λ view. view < length (meta_at catalog.now.catalogue r.table).lineage.views)) }
{
    for table in 0..catalog.tables() {
        if name == catalog.name(table).bytes() {
            return Some(Relation { table, view: None });
        }
        if let Some(view) = view_place(catalog.evolving(table), name) {
            return Some(Relation {
                table,
                view: Some(view),
            });
        }
    }
    None
}

// The number of the view of a name.
fn view_place(evolving: &Evolving, name: &[u8]) -> Option<u8>
    ensures found { result ≡ place_of name.now (view_names evolving.now) }
    ensures there { IfSome result (λ view. view < length evolving.now.views) }
{
    for view in 0..evolving.views() {
        if name == evolving.view_name(view).bytes() {
            return Some(view);
        }
    }
    None
}
