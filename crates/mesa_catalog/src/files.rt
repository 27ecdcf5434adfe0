// The files that a catalogue names.
ghost use Rattle.std.specs.Prelude.{◌≡◌, ◌++◌, ◌≤◌, ◌^◌, ℕ, flat_map, map, IfOk, IsTrue, OnOk};
ghost use Rattle.std.specs.List.{AllByRecursion};
ghost use Rattle.mesa_catalog_records.specs.mesa_store_spec.Fitting.{fits as fits_catalog, meta_live};
ghost use Rattle.mesa_catalog_records.specs.mesa_store_spec.Ids.{dropped_ids, named};
ghost use Rattle.mesa_catalog_records.specs.mesa_catalog_table.declared.table.Table.{Table as Held};
ghost use Rattle.mesa_catalog_records.specs.mesa_catalog_table.Files.{AreRecorded, recorded_of};
ghost use Rattle.mesa_catalog_records.specs.mesa_catalog_table.Meaning.{IsTable, meta_of};
ghost use Rattle.mesa_catalog_records.specs.mesa_catalog_table.Named.{table_ids};

use crate::Catalog;
use mesa_catalog_records::{Record, Recorded, Table};
use mesa_file::FileId;
use std::alloc::{AllocError, Global};

impl Catalog {
    /// The ids of all files that are named, table by table.
    pub fn named_files(&self, alloc: Global) -> Result<Vec<FileId>, AllocError>
        ensures { IfOk result (λ ids. ids.items ≡ named self.now.catalogue) }
    {
        let mut ids = Vec::new(alloc);
        push_ids(&self.catalog_tables.tables, &mut ids)?;
        Ok(ids)
    }

    /// What is recorded of each file that is named, by rising ids.
    pub fn recorded_files(&self, alloc: Global) -> Result<Vec<Recorded>, AllocError>
        ensures { IfOk result (λ files. AreRecorded self.now.catalogue files.items) }
    {
        let mut files = Vec::new(alloc);
        push_recorded(&self.catalog_tables.tables, &mut files)?;
        files.sort_unstable_by_key(|file| file.id.number());
        Ok(files)
    }

    /// The ids of the files that a record lets go: they are named now, and no more after it. A base lets go those of the deltas whose place it takes, with their views' files; a recast the table's own of the base and the singletons, and those of the cumulatives; and no other record any.
    pub fn dropped(&self, r: &Record, alloc: Global) -> Result<Vec<FileId>, AllocError>
        requires { IsTrue (fits_catalog self.now.catalogue r.now) }
        ensures { IfOk result (λ ids. ids.items ≡ dropped_ids self.now.catalogue r.now) }
    {
        let mut ids = Vec::new(alloc);
        self.catalog_tables.push_dropped(r, &mut ids)?;
        Ok(ids)
    }
}

pub(crate) fn push_ids(tables: &[Table], ids: &mut Vec<FileId>) -> Result<(), AllocError>
    requires { (next : ℕ) × (next ≤ 2 ^ 32) × AllByRecursion (IsTable next) tables.now }
    ensures { OnOk result (ids.new.items ≡ ids.old.items ++ flat_map table_ids tables.now) }
{
    for table in tables {
        table.push_ids(u32::MAX, ids)?;
    }
    Ok(())
}

fn push_recorded(tables: &[Table], files: &mut Vec<Recorded>) -> Result<(), AllocError>
    requires { (next : ℕ) × AllByRecursion (IsTable next) tables.now }
    ensures { (next : ℕ) → OnOk result (files.new.items ≡ files.old.items ++ flat_map (λ (t : Held). map recorded_of (meta_live (meta_of next t))) tables.now) }
{
    for table in tables {
        table.push_recorded(files)?;
    }
    Ok(())
}
