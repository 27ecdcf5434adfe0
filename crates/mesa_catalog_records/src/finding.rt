// Looking names up. There are few tables and few views of each, so that one look at each name is fast, and a copy of the catalogue copies no map of names.
ghost use Rattle.std.specs.Prelude.{◌≡◌, ◌≤◌, length};
ghost use Rattle.mesa_catalog_records.specs.Names.{relation_of};
ghost use Rattle.mesa_catalog_records.specs.Meaning.{catalogue_of};

use crate::catalog_tables::CatalogTables;
use mesa_schema::Name;
use mesa_table_records::Relation;

impl CatalogTables {
    /// The table or the view of a name.
    pub fn find(&self, name: &Name) -> Option<Relation>
        requires { length self.now.tables.items ≤ 32 }
        ensures { result ≡ relation_of (catalogue_of self.now) name.now }
    {
        for (number, table) in self.tables.iter().enumerate() {
            if let Some(relation) = table.relation(number as u16, name) {
                return Some(relation);
            }
        }
        None
    }
}
