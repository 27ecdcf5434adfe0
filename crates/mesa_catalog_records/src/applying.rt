// Taking a record in, without memory.
ghost use Rattle.std.specs.Prelude.{◌≡◌, ◌<◌, ℕ, map};
ghost use Rattle.std.specs.List.{AllByRecursion};
ghost use Rattle.mesa_table_records.specs.mesa_store_spec.Catalog.{applied, meta_from};
ghost use Rattle.mesa_catalog_records.specs.declared.ready.Ready.TheVariants as ready_of;
ghost use Rattle.mesa_catalog_records.specs.Meaning.{AreCatalogTables, catalogue_of};
ghost use Rattle.mesa_catalog_records.specs.Readied.{IsReady, record_in};
ghost use Rattle.mesa_table_records.specs.mesa_catalog_table.Meaning.{IsTable, meta_of};

mod loading;

use crate::catalog_tables::CatalogTables;
use crate::ready::Ready;
use loading::load;
use mesa_list::Items;
use mesa_schema::{Evolving, Totals};
use mesa_table_records::{Delta, ReadyPart, ReadyRecast, Table, recast, swap};
use std::sync::Arc;

impl CatalogTables {
    /// Puts the pieces of a record in, without memory.
    pub fn take_in(&mut self, ready: Ready)
        requires live_files { AreCatalogTables self.old }
        requires ready { IsReady self.old ready }
        ensures applied { catalogue_of self.new ≡ applied (catalogue_of self.old) (record_in ready) }
        ensures live_files { AreCatalogTables self.new }
    {
        match ready {
            Ready::Run { number } => self.run = number,
            Ready::Table { made } => self.take_table(made),
            Ready::View { table, evolving } => self.take_view(table, evolving),
            Ready::Alter {
                table,
                evolving,
                widths,
                totals,
            } => self.take_change(table, evolving, widths, totals),
            Ready::Publish { version, parts } => self.take_batch(version, parts),
            Ready::Swap {
                table,
                base,
                from,
                to,
                delta,
            } => self.take_merged(table, base, from, to, delta),
            Ready::Expire { version } => self.take_floor(version),
            Ready::ExpireTable { table, version } => self.take_oldest(table, version),
            Ready::Recast { table, made } => self.take_recast(table, made),
        }
    }

    fn take_table(&mut self, made: Table)
        requires live_files { AreCatalogTables self.old }
        requires ready { IsReady self.old (ready_of.Table made) }
        ensures applied { catalogue_of self.new ≡ applied (catalogue_of self.old) (record_in (ready_of.Table made)) }
        ensures live_files { AreCatalogTables self.new }
    {
        self.tables.push_reserved(made);
    }

    fn take_view(&mut self, table: u16, evolving: Arc<Evolving>)
        requires live_files { AreCatalogTables self.old }
        requires ready { IsReady self.old (ready_of.View table evolving) }
        ensures applied { catalogue_of self.new ≡ applied (catalogue_of self.old) (record_in (ready_of.View table evolving)) }
        ensures live_files { AreCatalogTables self.new }
    {
        let table = &mut self.tables[table as usize];
        table.evolving = evolving;
    }

    fn take_change(
        &mut self,
        table: u16,
        evolving: Arc<Evolving>,
        widths: Items<u8>,
        totals: Totals,
    )
        requires live_files { AreCatalogTables self.old }
        requires ready { IsReady self.old (ready_of.Alter table evolving widths totals) }
        ensures applied { catalogue_of self.new ≡ applied (catalogue_of self.old) (record_in (ready_of.Alter table evolving widths totals)) }
        ensures live_files { AreCatalogTables self.new }
    {
        let table = &mut self.tables[table as usize];
        table.evolving = evolving;
        table.widths = widths;
        table.totals = totals;
    }

    fn take_batch(&mut self, version: u32, parts: Vec<ReadyPart>)
        requires live_files { AreCatalogTables self.old }
        requires ready { IsReady self.old (ready_of.Publish version parts) }
        ensures applied { catalogue_of self.new ≡ applied (catalogue_of self.old) (record_in (ready_of.Publish version parts)) }
        ensures live_files { AreCatalogTables self.new }
    {
        load(&mut self.tables, version, parts);
        self.next += 1;
    }

    fn take_merged(&mut self, table: u16, base: bool, from: u32, to: u32, delta: Arc<Delta>)
        requires live_files { AreCatalogTables self.old }
        requires ready { IsReady self.old (ready_of.Swap table base from to delta) }
        ensures applied { catalogue_of self.new ≡ applied (catalogue_of self.old) (record_in (ready_of.Swap table base from to delta)) }
        ensures live_files { AreCatalogTables self.new }
    {
        let table = &mut self.tables[table as usize];
        swap(table, base, to, delta);
    }

    fn take_floor(&mut self, version: u32)
        requires live_files { AreCatalogTables self.old }
        requires ready { IsReady self.old (ready_of.Expire version) }
        ensures applied { catalogue_of self.new ≡ applied (catalogue_of self.old) (record_in (ready_of.Expire version)) }
        ensures live_files { AreCatalogTables self.new }
    {
        expire_tables(&mut self.tables, version);
        self.floor = version;
    }

    fn take_oldest(&mut self, table: u16, version: u32)
        requires live_files { AreCatalogTables self.old }
        requires ready { IsReady self.old (ready_of.ExpireTable table version) }
        ensures applied { catalogue_of self.new ≡ applied (catalogue_of self.old) (record_in (ready_of.ExpireTable table version)) }
        ensures live_files { AreCatalogTables self.new }
    {
        let table = &mut self.tables[table as usize];
        table.expire(version);
    }

    fn take_recast(&mut self, table: u16, made: ReadyRecast)
        requires live_files { AreCatalogTables self.old }
        requires ready { IsReady self.old (ready_of.Recast table made) }
        ensures applied { catalogue_of self.new ≡ applied (catalogue_of self.old) (record_in (ready_of.Recast table made)) }
        ensures live_files { AreCatalogTables self.new }
    {
        let table = &mut self.tables[table as usize];
        recast(table, made);
    }
}

// Lets the versions of each table below this one go.
fn expire_tables(tables: &mut [Table], version: u32)
    ensures metas { (next : ℕ) → map (meta_of next) tables.new ≡ map (meta_from version) (map (meta_of next) tables.old) }
    ensures tables { (next : ℕ) → version < next → AllByRecursion (IsTable next) tables.old → AllByRecursion (IsTable next) tables.new }
{
    for table in tables.iter_mut() {
        table.expire(version);
    }
}
