// What stands in a store, found by names and numbers.
ghost use Rattle.std.specs.Prelude.{◌≡◌, ◌<◌, ◌≤◌, ◌⊎◌, [], length, slice_get, slice_index_or, option_map, IfSome};
ghost use Rattle.mesa_answer.specs.mesa_columns.Rows.{AreRowsOf};
ghost use Rattle.mesa_schema.specs.Changes.{columns_of};
ghost use Rattle.mesa_answer.specs.Answering.{KeepsSums};
ghost use Rattle.mesa_model.specs.Relations.{is_taken as taken, relation_of, table_number};
ghost use Rattle.mesa_model.specs.Warehouse.{content_at, table_at};
ghost use Rattle.mesa_oracle_tables.specs.Found.{IsThere, relation_seen};
ghost use Rattle.mesa_oracle_tables.specs.Kept.{contents_in};

use crate::names::{Place, relation_place, table_place};
use crate::store::{Contents, PlainStore};
use mesa_batch::Glanced;
use mesa_schema::{Evolving, Name, Row};
use std::collections::VecDeque;

impl PlainStore {
    /// Where the relation of a name stands.
    pub fn find(&self, name: &[u8]) -> Option<Place>
        ensures found { relation_of self.now.store name.now ≡ option_map (relation_seen self.now.store) result }
        ensures there { IfSome result (IsThere self.now.store) }
    {
        relation_place(name, &self.tables)
    }

    /// Whether a table or a view has this name.
    pub fn is_taken(&self, name: &[u8]) -> bool
        ensures { result ≡ taken self.now.store name.now }
    {
        relation_place(name, &self.tables).is_some()
    }

    /// The number of the table of a name; a view is no table.
    pub fn number(&self, name: &[u8]) -> Option<usize>
        ensures number { result ≡ table_number self.now.store name.now }
        ensures there { IfSome result (λ table. table < length self.now.store.tables) }
    {
        table_place(name, &self.tables)
    }

    /// A table's name.
    pub fn name(&self, table: usize) -> &Name
        requires { table < length self.now.store.tables }
        ensures { result.now ≡ (table_at self.now.store table).name }
    {
        name_of(&self.tables, table)
    }

    /// A table's columns through its life, and its views.
    pub fn evolving(&self, table: usize) -> &Evolving
        requires { table < length self.now.store.tables }
        ensures { result.now ≡ (table_at self.now.store table).lineage }
    {
        evolving_of(&self.tables, table)
    }

    /// A table's rows at a version; none where the version isn't there.
    pub fn content(&self, table: usize, version: u32) -> &[Row]
        requires { table < length self.now.store.tables }
        ensures rows { result.now ≡ content_at (table_at self.now.store table) version }
        ensures forms { AreRowsOf (columns_of (table_at self.now.store table).lineage) result.now }
        ensures sums { KeepsSums (columns_of (table_at self.now.store table).lineage) result.now }
    {
        let oldest = self.oldest(table);
        let behind = (oldest - self.floor) as usize + version.saturating_sub(oldest) as usize;
        content_of(&self.versions, behind, table)
    }

    /// A table's oldest version.
    pub fn oldest(&self, table: usize) -> u32
        requires { table < length self.now.store.tables }
        ensures oldest { result ≡ (table_at self.now.store table).oldest }
        ensures above { self.now.store.floor ≤ result }
        ensures there { (result < self.now.next) ⊎ ((result ≡ 0) × (self.now.next ≡ 0)) }
    {
        oldest_of(self.oldests.as_slice(), table)
    }
}

fn oldest_of(oldests: &[u32], table: usize) -> u32
    requires { table < length oldests.now }
    ensures { result ≡ slice_index_or oldests.now table 0 }
{
    oldests[table]
}

fn name_of(tables: &[Glanced], table: usize) -> &Name
    requires { table < length tables.now }
    ensures { IfSome (slice_get tables.now table) (λ t. result.now ≡ t.name) }
{
    &tables[table].name
}

fn evolving_of(tables: &[Glanced], table: usize) -> &Evolving
    requires { table < length tables.now }
    ensures { IfSome (slice_get tables.now table) (λ t. result.now ≡ t.evolving.value) }
{
    &tables[table].evolving
}

// The content of a table at the version of a place; none behind the end.
fn content_of(versions: &VecDeque<Contents>, place: usize, table: usize) -> &[Row]
    ensures { result.now ≡ slice_index_or (contents_in table versions.now.items) place [] }
{
    let Some(contents) = versions.get(place) else {
        return &[];
    };
    match contents.as_slice().get(table) {
        Some(content) => content.as_slice(),
        None => &[],
    }
}
