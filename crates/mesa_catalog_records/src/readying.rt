// Making a record ready: all memory that it takes is taken here.
ghost use Rattle.std.specs.Prelude.{◌≡◌, ◌&&◌, IsTrue, IfOk, OnOk, map, option_map};
ghost use Rattle.std.specs.List.{AllByRecursion, list_all};
ghost use Rattle.mesa_table_records.specs.mesa_record.declared.record.Part.{Part as PartOf};
ghost use Rattle.mesa_table_records.specs.mesa_span.Ranges.{base_before};
ghost use Rattle.mesa_table_records.specs.mesa_record.declared.record.Record.TheVariants as record_of;
ghost use Rattle.mesa_table_records.specs.mesa_store_spec.Catalog.{empty_base, merged_delta, meta_at};
ghost use Rattle.mesa_table_records.specs.mesa_store_spec.Fitting.{alter_fits, is_there, kind_fits, part_fits, recast_fits, table_fits, view_fits};
ghost use Rattle.mesa_catalog_records.specs.Meaning.{AreCatalogTables, catalogue_of};
ghost use Rattle.mesa_table_records.specs.mesa_catalog_table.Meaning.{ending_of};
ghost use Rattle.mesa_catalog_records.specs.Readied.{AreRoomier, HasRoom, IsMade, IsMadePart, record_in};
ghost use Rattle.mesa_table_records.specs.mesa_catalog_table.Room.{HasSpare};
ghost use Rattle.mesa_table_records.specs.Readied.{part_in};

use crate::catalog_tables::CatalogTables;
use crate::lineages::{lineage_with_change, lineage_with_view, new_lineage, widths_with};
use crate::ready::Ready;
use mesa_list::{Items, TryCopy};
use mesa_schema::{Change, KeyColumn, Name, ValueColumn};
use mesa_table_records::{
    Base, Delta, Files, Part, ReadyPart, Recasting, Record, Table, make_recast, make_spare,
    no_totals, totals_changed, totals_with, width_of,
};
use std::alloc::{AllocError, Global};
use std::sync::Arc;

/// Makes room for a table more, and in each table for a delta more.
pub fn make_room(catalog_tables: &mut CatalogTables) -> Result<(), AllocError>
    requires { AreCatalogTables catalog_tables.old }
    ensures same { catalogue_of catalog_tables.new ≡ catalogue_of catalog_tables.old }
    ensures live_files { AreCatalogTables catalog_tables.new }
    ensures room { OnOk result (HasRoom catalog_tables.new) }
    ensures kept { HasRoom catalog_tables.old → HasRoom catalog_tables.new }
{
    catalog_tables.tables.reserve(1)?;
    make_spares(&mut catalog_tables.tables)
}

fn make_spares(tables: &mut [Table]) -> Result<(), AllocError>
    ensures roomier { AreRoomier tables.old tables.new }
    ensures spare { OnOk result (AllByRecursion HasSpare tables.new) }
{
    for table in tables.iter_mut() {
        make_spare(table)?;
    }
    Ok(())
}

impl CatalogTables {
    /// The pieces of a record that fits: all memory that it takes is taken here.
    pub fn make_ready(&self, r: &Record) -> Result<Ready, AllocError>
        requires live_files { AreCatalogTables self.now }
        requires fits { IsTrue (kind_fits (catalogue_of self.now) r.now) }
        ensures record { IfOk result (λ y. record_in y ≡ r.now) }
        ensures made { IfOk result (IsMade (catalogue_of self.now)) }
    {
        match r {
            Record::Run { number } => Ok(Ready::Run { number: *number }),
            Record::Table { name, keys, values } => self.make_table(name, keys, values),
            Record::View {
                table,
                name,
                keys,
                values,
            } => self.make_view(*table, name, keys, values),
            Record::Alter { table, change } => self.make_change(*table, change),
            Record::Publish { version, parts } => {
                let parts = self.make_parts(parts.as_slice())?;
                Ok(Ready::Publish {
                    version: *version,
                    parts,
                })
            }
            Record::Swap {
                table,
                base,
                from,
                to,
                epoch,
                files,
            } => {
                let delta = self.make_merged(*epoch, files)?;
                Ok(Ready::Swap {
                    table: *table,
                    base: *base,
                    from: *from,
                    to: *to,
                    delta,
                })
            }
            Record::Expire { version } => Ok(Ready::Expire { version: *version }),
            Record::ExpireTable { table, version } => Ok(Ready::ExpireTable {
                table: *table,
                version: *version,
            }),
            Record::Checkpoint(_) => unreachable!(),
            Record::Recast(told) => self.make_renewed(told),
        }
    }

    fn alloc(&self) -> Global {
        *self.tables.allocator()
    }

    fn make_table(
        &self,
        name: &Name,
        keys: &Items<KeyColumn>,
        values: &Items<ValueColumn>,
    ) -> Result<Ready, AllocError>
        requires live_files { AreCatalogTables self.now }
        requires fits { IsTrue (table_fits (catalogue_of self.now) name.now (record { keys = keys.now; values = values.now })) }
        ensures record { IfOk result (λ y. record_in y ≡ record_of.Table name.now keys.now values.now) }
        ensures made { IfOk result (IsMade (catalogue_of self.now)) }
    {
        let alloc = self.alloc();
        let evolving = new_lineage(alloc, keys, values)?;
        let present = evolving.present();
        let totals = no_totals(alloc, present.values())?;
        let widths = widths_with(Items::new(alloc), present)?;
        let made = Table {
            name: name.copy()?,
            evolving,
            widths,
            totals,
            oldest: self.floor,
            base: self.base_before_floor(),
            cumulatives: Vec::new(alloc),
            loaded: Vec::new(alloc),
        };
        Ok(Ready::Table { made })
    }

    // The base of a table that is made now: it has no rows.
    fn base_before_floor(&self) -> Option<Base>
        ensures { option_map ending_of result ≡ option_map empty_base (base_before self.now.floor) }
    {
        let to = self.floor.checked_sub(1)?;
        Some(Base { to, delta: None })
    }

    fn make_view(
        &self,
        table: u16,
        name: &Name,
        keys: &Items<Name>,
        values: &Items<Name>,
    ) -> Result<Ready, AllocError>
        requires live_files { AreCatalogTables self.now }
        requires fits { IsTrue (view_fits (catalogue_of self.now) table name.now keys.now values.now) }
        ensures record { IfOk result (λ y. record_in y ≡ record_of.View table name.now keys.now values.now) }
        ensures made { IfOk result (IsMade (catalogue_of self.now)) }
    {
        let old = self.table(table);
        let evolving = lineage_with_view(self.alloc(), &old.evolving, name, keys, values)?;
        Ok(Ready::View { table, evolving })
    }

    fn make_change(&self, table: u16, change: &Change) -> Result<Ready, AllocError>
        requires live_files { AreCatalogTables self.now }
        requires fits { IsTrue (alter_fits (catalogue_of self.now) table change.now) }
        ensures record { IfOk result (λ y. record_in y ≡ record_of.Alter table change.now) }
        ensures made { IfOk result (IsMade (catalogue_of self.now)) }
    {
        let old = self.table(table);
        let totals = totals_changed(old.evolving.present(), change, &old.totals)?;
        let evolving = lineage_with_change(self.alloc(), &old.evolving, change)?;
        let widths = widths_with(old.widths.copy()?, evolving.present())?;
        Ok(Ready::Alter {
            table,
            evolving,
            widths,
            totals,
        })
    }

    fn make_parts(&self, parts: &[Part]) -> Result<Vec<ReadyPart>, AllocError>
        requires live_files { AreCatalogTables self.now }
        requires fits { IsTrue (list_all (λ (p : PartOf). is_there (catalogue_of self.now) p.table && part_fits (meta_at (catalogue_of self.now) p.table) p) parts.now) }
        ensures parts { IfOk result (λ made. map part_in made.items ≡ parts.now) }
        ensures made { IfOk result (λ made. AllByRecursion (IsMadePart (catalogue_of self.now)) made.items) }
    {
        let mut made = Vec::with_capacity(self.alloc(), parts.len())?;
        for part in parts {
            made.push(self.make_part(part)?)?;
        }
        Ok(made)
    }

    fn make_part(&self, part: &Part) -> Result<ReadyPart, AllocError>
        requires live_files { AreCatalogTables self.now }
        requires fits { IsTrue (is_there (catalogue_of self.now) part.now.table && part_fits (meta_at (catalogue_of self.now) part.now.table) part.now) }
        ensures part { IfOk result (λ made. part_in made ≡ part.now) }
        ensures made { IfOk result (IsMadePart (catalogue_of self.now)) }
    {
        let totals = totals_with(&self.table(part.table).totals, &part.totals)?;
        let delta = Delta {
            epoch: part.epoch,
            files: Some(part.files.copy()?),
            totals: Some(part.totals.copy()?),
        };
        Ok(ReadyPart {
            table: part.table,
            delta: Arc::new(self.alloc(), delta)?,
            totals,
        })
    }

    fn make_renewed(&self, told: &Recasting) -> Result<Ready, AllocError>
        requires live_files { AreCatalogTables self.now }
        requires fits { IsTrue (is_there (catalogue_of self.now) told.now.table && recast_fits (meta_at (catalogue_of self.now) told.now.table) told.now) }
        ensures record { IfOk result (λ y. record_in y ≡ record_of.Recast told.now) }
        ensures made { IfOk result (IsMade (catalogue_of self.now)) }
    {
        let made = make_recast(self.alloc(), self.table(told.table), told)?;
        Ok(Ready::Recast {
            table: told.table,
            made,
        })
    }

    fn make_merged(&self, epoch: u32, files: &Option<Files>) -> Result<Arc<Delta>, AllocError>
        ensures { IfOk result (λ d. d.value ≡ merged_delta epoch files.now) }
    {
        let files = match files {
            None => None,
            Some(files) => Some(files.copy()?),
        };
        let delta = Delta {
            epoch,
            files,
            totals: None,
        };
        Ok(Arc::new(self.alloc(), delta)?)
    }
}
