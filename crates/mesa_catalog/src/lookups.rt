// What is asked of the catalogue. Where no error is told, nothing takes memory.
ghost use Rattle.std.specs.Prelude.{◌≡◌, ◌<◌, ◌≤◌, ◌^◌, IfOk, length, map, sum_by};
ghost use Rattle.std.specs.Option.{option_copied};
ghost use Rattle.mesa_span.specs.Ranges.{IsInOrder};
ghost use Rattle.mesa_batch.specs.Numbers.{known_of};
ghost use Rattle.mesa_catalog_records.specs.mesa_store_spec.Catalog.{ranges_of, meta_at};
ghost use Rattle.mesa_catalog_records.specs.mesa_catalog_table.Meaning.{IsTable, meta_of};
ghost use Rattle.mesa_catalog_records.specs.mesa_catalog_table.Ranged.{delta_at};
ghost use Rattle.mesa_catalog.specs.Lookups.{changes_of, generation_of, known_in, sight_of};
ghost use Rattle.mesa_catalog_records.specs.Names.{relation_of};

use crate::Catalog;
use mesa_batch::{Glance, Glanced};
use mesa_catalog_records::{Delta, Relation, Table, ranges};
use mesa_list::TryCopy;
use mesa_schema::{Evolving, Name, Totals};
use mesa_span::Ranges;
use std::alloc::{AllocError, Global};
use std::sync::Arc;

impl Catalog {
    /// How many tables there are.
    pub fn tables(&self) -> u16
        ensures { result ≡ length self.now.catalogue.tables }
    {
        self.catalog_tables.tables.len() as u16
    }

    /// How often tables, views and columns were made or changed.
    pub fn generation(&self) -> u64
        ensures { result ≡ generation_of self.now.catalogue }
    {
        generation(&self.catalog_tables.tables)
    }

    /// The table or the view of a name.
    pub fn find(&self, name: &Name) -> Option<Relation>
        ensures { result ≡ relation_of self.now.catalogue name.now }
    {
        self.catalog_tables.find(name)
    }

    /// The name of the table of a number.
    pub fn name(&self, table: u16) -> &Name
        requires { table < length self.now.catalogue.tables }
        ensures { result.now ≡ (meta_at self.now.catalogue table).name }
    {
        &self.catalog_tables.tables[table as usize].name
    }

    /// The table of a number, as it is held.
    pub fn table(&self, table: u16) -> &Table
        requires { table < length self.now.catalogue.tables }
        ensures meta { meta_of self.now.catalogue.next result.now ≡ meta_at self.now.catalogue table }
        ensures held { IsTable self.now.catalogue.next result.now }
        ensures few { self.now.catalogue.next < 2 ^ 32 }
    {
        self.catalog_tables.table(table)
    }

    /// The delta of just these versions of the table of a number, if there is one: the base, a cumulative, or the singleton of one version.
    pub fn delta(&self, table: u16, from: u32, to: u32) -> Option<&Delta>
        requires { table < length self.now.catalogue.tables }
        ensures { option_copied result ≡ delta_at (meta_at self.now.catalogue table) from to }
    {
        self.table(table)
            .delta(self.catalog_tables.next, &self.no_rows, from, to)
    }

    /// The oldest version at which the table of a number can be queried.
    pub fn oldest(&self, table: u16) -> u32
        requires { table < length self.now.catalogue.tables }
        ensures { result ≡ (meta_at self.now.catalogue table).oldest }
    {
        self.catalog_tables.tables[table as usize].oldest
    }

    /// The columns of the table of a number, through its life, and its views.
    pub fn evolving(&self, table: u16) -> &Arc<Evolving>
        requires { table < length self.now.catalogue.tables }
        ensures { result.now.value ≡ (meta_at self.now.catalogue table).lineage }
    {
        &self.catalog_tables.tables[table as usize].evolving
    }

    /// The absolute totals of the table of a number, one for each sum column.
    pub fn totals(&self, table: u16) -> &Totals
        requires { table < length self.now.catalogue.tables }
        ensures { result.now ≡ (meta_at self.now.catalogue table).totals }
    {
        &self.catalog_tables.tables[table as usize].totals
    }

    /// The ranges of a table's deltas.
    pub fn ranges(&self, table: u16) -> Result<Ranges, AllocError>
        requires { table < length self.now.catalogue.tables }
        ensures ranges { IfOk result (λ r. r ≡ ranges_of (meta_at self.now.catalogue table)) }
        ensures in_order { IfOk result IsInOrder }
    {
        let alloc = *self.catalog_tables.tables.allocator();
        ranges(alloc, self.catalog_tables.table(table))
    }

    /// What a load sees of the catalogue.
    pub fn glance(&self) -> Result<Glance, AllocError>
        ensures { IfOk result (λ g. g ≡ sight_of self.now.catalogue) }
    {
        let alloc = *self.catalog_tables.tables.allocator();
        Glance::new(
            alloc,
            self.generation(),
            glanced(alloc, &self.catalog_tables.tables)?,
        )
    }
}

// How often tables, views and columns were made or changed.
fn generation(tables: &[Table]) -> u64
    requires { length tables.now ≤ 32 }
    ensures { result ≡ sum_by changes_of tables.now }
{
    let mut changes = 0;
    for table in tables {
        changes += 1 + table.evolving.views() as u64 + table.evolving.epoch() as u64;
    }
    changes
}

// The tables as a glance has them; their columns are shared.
fn glanced(alloc: Global, tables: &[Table]) -> Result<Vec<Glanced>, AllocError>
    ensures known { IfOk result (λ known. map known_of known.items ≡ map known_in tables.now) }
    ensures len { IfOk result (λ known. length known.items ≡ length tables.now) }
{
    let mut known = Vec::with_capacity(alloc, tables.len())?;
    for table in tables {
        known.push(Glanced {
            name: table.name.copy()?,
            evolving: table.evolving.clone()?,
        })?;
    }
    Ok(known)
}
