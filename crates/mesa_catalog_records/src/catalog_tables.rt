// All that the catalogue holds.
ghost use Rattle.std.specs.Prelude.{◌≡◌, is_some, true, IfSome};
ghost use Rattle.mesa_table_records.specs.mesa_store_spec.Catalog.{meta_at};
ghost use Rattle.mesa_table_records.specs.mesa_store_spec.Fitting.{is_there};
ghost use Rattle.mesa_catalog_records.specs.Meaning.{AreCatalogTables, catalogue_of};
ghost use Rattle.mesa_table_records.specs.mesa_catalog_table.Meaning.{IsTable, meta_of};

use mesa_table_records::Table;

/// How many tables there may be.
pub const MAX_TABLES: usize = 32;

/// The tables by their numbers, the floor, how many versions there were, and the last run.
#[derive(Drop)]
pub struct CatalogTables {
    pub tables: Vec<Table>,
    pub floor: u32,
    pub next: u32,
    pub run: u32,
}

impl CatalogTables {
    // The table of a number, if it is there.
    pub(crate) fn get(&self, table: u16) -> Option<&Table>
        requires { AreCatalogTables self.now }
        ensures there { is_there (catalogue_of self.now) table ≡ is_some result }
        ensures meta { IfSome result (λ t. meta_at (catalogue_of self.now) table ≡ meta_of self.now.next t.now) }
        ensures table { IfSome result (λ t. IsTable self.now.next t.now) }
    {
        self.tables.get(table as usize)
    }

    /// The table of a number.
    pub fn table(&self, table: u16) -> &Table
        requires live_files { AreCatalogTables self.now }
        requires there { is_there (catalogue_of self.now) table ≡ true }
        ensures meta { meta_at (catalogue_of self.now) table ≡ meta_of self.now.next result.now }
        ensures table { IsTable self.now.next result.now }
    {
        &self.tables[table as usize]
    }
}
