// Which records keep the rules of their kind. Takes no memory.
ghost use Rattle.std.specs.Prelude.{◌≡◌, ◌&&◌};
ghost use Rattle.std.specs.List.{list_all};
ghost use Rattle.mesa_table_records.specs.mesa_store_spec.Catalog.{meta_at};
ghost use Rattle.mesa_table_records.specs.mesa_store_spec.Fitting.{alter_fits, expire_fits, is_new_name, is_there, kind_fits, may_be_work, part_fits, publish_fits, recast_fits, run_fits, swap_fits, table_fits, view_fits};
ghost use Rattle.mesa_catalog_records.specs.Meaning.{AreCatalogTables, catalogue_of};
ghost use Rattle.mesa_table_records.specs.mesa_catalog_table.Meaning.{IsTable, meta_of};

use crate::catalog_tables::{CatalogTables, MAX_TABLES};
use mesa_schema::{Change, KeyColumn, MAX_VIEWS, Name, Schema, ValueColumn};
use mesa_table_records::{
    Files, Part, Recasting, Record, Table, allows_recast, counts_files, counts_files_if_any,
    counts_totals, keeps_bound, may_be_base, may_be_cumulative,
};

/// The number of the last run that there may be.
pub const MAX_RUNS: u32 = (1 << 24) - 1;

impl CatalogTables {
    /// Whether a record keeps the rules of its kind.
    pub fn allows(&self, r: &Record) -> bool
        requires { AreCatalogTables self.now }
        ensures { result ≡ kind_fits (catalogue_of self.now) r.now }
    {
        match r {
            Record::Run { number } => self.allows_run(*number),
            Record::Table { name, keys, values } => {
                self.allows_table(name, keys.as_slice(), values.as_slice())
            }
            Record::View {
                table,
                name,
                keys,
                values,
            } => self.allows_view(*table, name, keys.as_slice(), values.as_slice()),
            Record::Alter { table, change } => self.allows_change(*table, change),
            Record::Publish { version, parts } => self.allows_batch(*version, parts.as_slice()),
            Record::Swap {
                table,
                base,
                from,
                to,
                epoch,
                files,
            } => self.allows_swap(*table, *base, *from, *to, *epoch, files),
            Record::Expire { version } => self.allows_expiry(self.floor, *version),
            Record::ExpireTable { table, version } => self.allows_table_expiry(*table, *version),
            // It is an area's first record, and none other.
            Record::Checkpoint(_) => false,
            Record::Recast(told) => self.allows_renewal(told),
        }
    }

    fn allows_run(&self, number: u32) -> bool
        ensures { result ≡ run_fits (catalogue_of self.now) number }
    {
        number as u64 == self.run as u64 + 1 && number <= MAX_RUNS
    }

    fn allows_table(&self, name: &Name, keys: &[KeyColumn], values: &[ValueColumn]) -> bool
        requires { AreCatalogTables self.now }
        ensures { result ≡ table_fits (catalogue_of self.now) name.now (record { keys = keys.now; values = values.now }) }
    {
        self.is_new_name(name) && Schema::allows(keys, values) && self.tables.len() < MAX_TABLES
    }

    fn allows_view(&self, table: u16, name: &Name, keys: &[Name], values: &[Name]) -> bool
        requires { AreCatalogTables self.now }
        ensures { result ≡ view_fits (catalogue_of self.now) table name.now keys.now values.now }
    {
        match self.get(table) {
            None => false,
            Some(t) => {
                self.is_new_name(name)
                    && t.evolving.allows_view(name, keys, values)
                    && (t.evolving.views() as usize) < MAX_VIEWS
            }
        }
    }

    fn allows_change(&self, table: u16, change: &Change) -> bool
        requires { AreCatalogTables self.now }
        ensures { result ≡ alter_fits (catalogue_of self.now) table change.now }
    {
        match self.get(table) {
            None => false,
            Some(t) => t.evolving.allows(change),
        }
    }

    fn allows_batch(&self, version: u32, parts: &[Part]) -> bool
        requires { AreCatalogTables self.now }
        ensures { result ≡ publish_fits (catalogue_of self.now) version parts.now }
    {
        version == self.next && version < u32::MAX && self.allows_parts(parts)
    }

    fn allows_parts(&self, parts: &[Part]) -> bool
        requires { AreCatalogTables self.now }
        ensures { result ≡ list_all (λ p. is_there (catalogue_of self.now) p.table && part_fits (meta_at (catalogue_of self.now) p.table) p) parts.now }
    {
        parts.iter().all(|part| self.allows_part(part))
    }

    fn allows_part(&self, part: &Part) -> bool
        requires { AreCatalogTables self.now }
        ensures { result ≡ (is_there (catalogue_of self.now) part.now.table && part_fits (meta_at (catalogue_of self.now) part.now.table) part.now) }
    {
        match self.get(part.table) {
            None => false,
            Some(t) => {
                part.epoch == t.evolving.epoch()
                    && counts_files(&t.evolving, t.widths.as_slice(), part.epoch, &part.files)
                    && counts_totals(&t.evolving, &part.totals)
                    && keeps_bound(t.totals.as_slice(), part.totals.as_slice())
            }
        }
    }

    fn allows_swap(
        &self,
        table: u16,
        base: bool,
        from: u32,
        to: u32,
        epoch: u32,
        files: &Option<Files>,
    ) -> bool
        requires { AreCatalogTables self.now }
        ensures { result ≡ (is_there (catalogue_of self.now) table && swap_fits (catalogue_of self.now) (meta_at (catalogue_of self.now) table) base from to epoch files.now) }
    {
        match self.get(table) {
            None => false,
            Some(t) => {
                self.may_be_work(t, base, from, to)
                    && t.evolving.begins() <= epoch
                    && epoch <= t.evolving.epoch()
                    && counts_files_if_any(t, epoch, files)
            }
        }
    }

    fn allows_expiry(&self, oldest: u32, version: u32) -> bool
        ensures { result ≡ expire_fits (catalogue_of self.now) oldest version }
    {
        oldest <= version && version < self.next
    }

    fn allows_table_expiry(&self, table: u16, version: u32) -> bool
        requires { AreCatalogTables self.now }
        ensures { result ≡ (is_there (catalogue_of self.now) table && expire_fits (catalogue_of self.now) (meta_at (catalogue_of self.now) table).oldest version) }
    {
        match self.get(table) {
            None => false,
            Some(t) => self.allows_expiry(t.oldest, version),
        }
    }

    fn allows_renewal(&self, told: &Recasting) -> bool
        requires { AreCatalogTables self.now }
        ensures { result ≡ (is_there (catalogue_of self.now) told.now.table && recast_fits (meta_at (catalogue_of self.now) told.now.table) told.now) }
    {
        match self.get(told.table) {
            None => false,
            Some(t) => self.may_recast(t, told),
        }
    }

    fn may_recast(&self, t: &Table, told: &Recasting) -> bool
        requires { IsTable self.now.next t.now }
        ensures { result ≡ recast_fits (meta_of self.now.next t.now) told.now }
    {
        allows_recast(t, told)
    }

    // Whether work may give this range.
    fn may_be_work(&self, t: &Table, base: bool, from: u32, to: u32) -> bool
        requires { IsTable self.now.next t.now }
        ensures { result ≡ may_be_work (catalogue_of self.now) (meta_of self.now.next t.now) base from to }
    {
        if base {
            return may_be_base(t, from, to);
        }
        may_be_cumulative(t, self.next, from, to)
    }

    // Whether no table and no view has this name.
    fn is_new_name(&self, name: &Name) -> bool
        requires { AreCatalogTables self.now }
        ensures { result ≡ is_new_name (catalogue_of self.now) name.now }
    {
        self.find(name).is_none()
    }
}
