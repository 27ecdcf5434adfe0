// The names of all tables and views.
ghost use Rattle.std.specs.Prelude.{◌≡◌, ◌++◌, flat_map, IfOk, OnOk};
ghost use Rattle.mesa_table_records.specs.mesa_store_spec.CheckpointFits.{names_differ as all_differ};
ghost use Rattle.mesa_catalog_records.specs.Meaning.{catalogue_of};
ghost use Rattle.mesa_catalog_records.specs.Names.{table_names};

use crate::catalog_tables::CatalogTables;
use mesa_list::TryCopy;
use mesa_schema::{Name, repeated_place};
use mesa_table_records::Table;
use std::alloc::{AllocError, Global};

impl CatalogTables {
    /// Whether no two tables or views have the same name. There are at most 32 tables with 8 views each, so that one look at the names before each is fast.
    pub fn names_differ(&self, alloc: Global) -> Result<bool, AllocError>
        ensures { IfOk result (λ differ. differ ≡ all_differ (catalogue_of self.now)) }
    {
        let names = names_of(alloc, &self.tables)?;
        Ok(repeated_place(&names).is_none())
    }
}

fn names_of(alloc: Global, tables: &[Table]) -> Result<Vec<Name>, AllocError>
    ensures { IfOk result (λ names. names.items ≡ flat_map table_names tables.now) }
{
    let mut names = Vec::new(alloc);
    for table in tables {
        push_names(table, &mut names)?;
    }
    Ok(names)
}

fn push_names(table: &Table, names: &mut Vec<Name>) -> Result<(), AllocError>
    ensures { OnOk result (names.new.items ≡ names.old.items ++ table_names table.now) }
{
    names.push(table.name.copy()?)?;
    for view in 0..table.evolving.views() {
        names.push(table.evolving.view_name(view).copy()?)?;
    }
    Ok(())
}
