// The files that a record lets go.
ghost use Rattle.std.specs.Prelude.{◌≡◌, ◌++◌, true, IsTrue, OnOk};
ghost use Rattle.mesa_table_records.specs.mesa_store_spec.Catalog.{meta_at};
ghost use Rattle.mesa_table_records.specs.mesa_store_spec.Fitting.{is_there, kind_fits};
ghost use Rattle.mesa_table_records.specs.mesa_store_spec.Ids.{dropped_ids, recast_dropped};
ghost use Rattle.mesa_catalog_records.specs.Meaning.{AreCatalogTables, catalogue_of};

use crate::catalog_tables::CatalogTables;
use mesa_file::FileId;
use mesa_table_records::Record;
use std::alloc::AllocError;

impl CatalogTables {
    /// Adds the ids of the files that a record lets go.
    pub fn push_dropped(&self, r: &Record, ids: &mut Vec<FileId>) -> Result<(), AllocError>
        requires live_files { AreCatalogTables self.now }
        requires fits { IsTrue (kind_fits (catalogue_of self.now) r.now) }
        ensures { OnOk result (ids.new.items ≡ ids.old.items ++ dropped_ids (catalogue_of self.now) r.now) }
    {
        match r {
            Record::Swap {
                table,
                base,
                to,
                ..
            } => {
                if *base {
                    self.table(*table).push_ids(*to, ids)
                } else {
                    Ok(())
                }
            }
            Record::Recast(told) => self.push_recast_ids(told.table, ids),
            Record::Run { .. }
            | Record::Table { .. }
            | Record::View { .. }
            | Record::Alter { .. }
            | Record::Publish { .. }
            | Record::Expire { .. }
            | Record::ExpireTable { .. }
            | Record::Checkpoint(_) => Ok(()),
        }
    }

    fn push_recast_ids(&self, table: u16, ids: &mut Vec<FileId>) -> Result<(), AllocError>
        requires live_files { AreCatalogTables self.now }
        requires there { is_there (catalogue_of self.now) table ≡ true }
        ensures { OnOk result (ids.new.items ≡ ids.old.items ++ recast_dropped (meta_at (catalogue_of self.now) table)) }
    {
        self.table(table).push_recast_ids(ids)
    }
}
