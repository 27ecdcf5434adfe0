// Versions that are added, kept and let go.
ghost use Rattle.std.specs.Prelude.{◌≡◌, ◌<◌, ◌≤◌, ◌⊎◌, List, [], ◌∷◌, ◌++◌, drop, length, map, max, replicate, slice_index_or, Ok, IfOk, IfErr, OnOk, OnErr};
ghost use Rattle.mesa_batch.specs.Batch.{Placed as PlacedRow};
ghost use Rattle.mesa_batch.specs.Numbers.{known_of};
ghost use Rattle.mesa_model.specs.Load.{bounds_checked};
ghost use Rattle.mesa_model.specs.Pins.{store_at};
ghost use Rattle.mesa_model.specs.Versions.{common_oldest, store_from};
ghost use Rattle.mesa_model.specs.Warehouse.{max_versions, table_at};
ghost use Rattle.mesa_oracle_tables.specs.Grown.{HasRows, IsBatchOf};
ghost use Rattle.mesa_oracle_tables.specs.Kept.{greatest_of, known_in, shared, with_batch, with_table_from};
ghost use Rattle.mesa_binding.specs.Told.{IsDue};

use crate::growing::{contents_with_batch, totals_with_batch};
use crate::store::{Contents, PlainStore};
use mesa_batch::{Batch, Glance, Glanced};
use mesa_binding::Failure;
use mesa_list::{Items, TryCopy};
use mesa_schema::RowList;
use std::alloc::{AllocError, Global};
use std::collections::VecDeque;
use std::sync::Arc;

impl PlainStore {
    /// What a load sees of the tables.
    pub fn glance(&self, alloc: Global) -> Result<Glance, AllocError>
        ensures { IfOk result (λ glance. glance.tables ≡ known_in self.now.store) }
    {
        let tables = tables_again(alloc, &self.tables)?;
        Glance::new(alloc, 0, tables)
    }

    /// Adds a version: one batch is seen in all tables at once. Where a total would pass its bound nothing changes.
    pub fn load(&mut self, alloc: Global, batch: &Batch) -> Result<(), Failure>
        requires room { self.old.next < max_versions }
        requires batch { IsBatchOf (known_in self.old.store) batch.now }
        ensures loaded { OnOk result ((placed : List PlacedRow) → HasRows placed batch.now → self.new ≡ with_batch placed self.old) }
        ensures bounds { OnOk result ((placed : List PlacedRow) → HasRows placed batch.now → bounds_checked placed 0 self.old.store.tables ≡ Ok tt) }
        ensures refused { IfErr result (λ failure. (placed : List PlacedRow) → HasRows placed batch.now → IsDue (bounds_checked placed 0 self.old.store.tables) failure) }
        ensures kept { OnErr result (self.new ≡ self.old) }
    {
        let totals = totals_with_batch(alloc, &self.tables, &self.totals, batch)?;
        let contents = contents_with_batch(alloc, &self.tables, &self.versions, batch)?;
        push_contents(&mut self.versions, contents)?;
        self.totals = totals;
        self.next += 1;
        Ok(())
    }

    /// Lets the versions below this one go.
    pub fn expire(&mut self, version: u32)
        requires low { self.old.store.floor ≤ version }
        requires high { version < self.old.next }
        ensures { self.new ≡ record self.old { store = store_from self.old.store version } }
    {
        drop_front(&mut self.versions, (version - self.floor) as usize);
        raise(&mut self.oldests, version);
        self.floor = version;
    }

    /// Lets the versions of a table below this one go: they aren't seen any more, and are dropped once
    /// all tables let them go.
    pub fn expire_table(&mut self, table: usize, version: u32)
        requires there { table < length self.old.store.tables }
        requires low { (table_at self.old.store table).oldest ≤ version }
        requires high { version < self.old.next }
        ensures { self.new ≡ with_table_from self.old table version }
    {
        *self.oldests.at_mut(table) = version;
    }

    /// The tables and their contents at one version alone; none is copied.
    pub fn at(&self, alloc: Global, version: u32) -> Result<Self, AllocError>
        requires low { common_oldest self.now.store ≤ version }
        requires high { version < self.now.next }
        ensures { IfOk result (λ s. s.store ≡ store_at self.now.store version) }
    {
        let tables = tables_again(alloc, &self.tables)?;
        let totals = self.totals.copy()?;
        let oldests = repeated(alloc, self.oldests.len(), version)?;
        let place = (version - self.floor) as usize;
        let contents = contents_again(alloc, &self.versions, place)?;
        Ok(PlainStore {
            tables,
            totals,
            versions: only(alloc, contents)?,
            floor: version,
            oldests,
            next: version + 1,
        })
    }

    /// The first version at which all tables can be queried.
    pub fn common_oldest(&self) -> u32
        ensures common { result ≡ common_oldest self.now.store }
        ensures there { (result < self.now.next) ⊎ ((result ≡ 0) × (self.now.next ≡ 0)) }
    {
        greatest(self.floor, self.oldests.as_slice())
    }
}

// The greatest of a number and of these.
fn greatest(floor: u32, oldests: &[u32]) -> u32
    ensures { result ≡ greatest_of floor oldests.now }
{
    let mut found = floor;
    'oldests: for oldest in oldests {
        found = found.max(*oldest);
    }
    found
}

// None of these is below a number any more.
fn raise(oldests: &mut Items<u32>, version: u32)
    ensures { oldests.new ≡ map (λ oldest. max oldest version) oldests.old }
{
    'tables: for number in 0..oldests.len() {
        let oldest = oldests.as_slice()[number].max(version);
        *oldests.at_mut(number) = oldest;
    }
}

// A number so many times.
fn repeated(alloc: Global, count: usize, number: u32) -> Result<Items<u32>, AllocError>
    ensures { IfOk result (λ many. many ≡ replicate count number) }
{
    let mut many = Items::new(alloc);
    'count: for _done in 0..count {
        many.push(number)?;
    }
    Ok(many)
}

// Adds a version's contents.
pub(crate) fn push_contents(
    versions: &mut VecDeque<Contents>,
    contents: Contents,
) -> Result<(), AllocError>
    ensures ok { OnOk result (versions.new.items ≡ versions.old.items ++ contents ∷ []) }
    ensures err { OnErr result (versions.new.items ≡ versions.old.items) }
{
    versions.push_back(contents)?;
    Ok(())
}

// The first so many go.
fn drop_front(versions: &mut VecDeque<Contents>, count: usize)
    ensures { versions.new.items ≡ drop count versions.old.items }
{
    'versions: for _done in 0..count {
        let _ = versions.pop_front();
    }
}

// The same tables once more; their columns are shared.
fn tables_again(alloc: Global, tables: &[Glanced]) -> Result<Vec<Glanced>, AllocError>
    ensures known { IfOk result (λ again. map known_of again.items ≡ map known_of tables.now) }
    ensures len { IfOk result (λ again. length again.items ≡ length tables.now) }
{
    let mut again = Vec::new(alloc);
    'tables: for table in tables {
        again.push(Glanced {
            name: table.name.copy()?,
            evolving: table.evolving.clone()?,
        })?;
    }
    Ok(again)
}

// The contents at a place once more, which share their rows; none behind the end.
fn contents_again(
    alloc: Global,
    versions: &VecDeque<Contents>,
    place: usize,
) -> Result<Contents, AllocError>
    ensures { IfOk result (λ again. shared again ≡ shared (slice_index_or versions.now.items place [])) }
{
    match versions.get(place) {
        Some(contents) => shared_again(alloc, contents.as_slice()),
        None => Ok(Contents::new(alloc)),
    }
}

// Contents once more, which share their rows.
pub(crate) fn shared_again(alloc: Global, contents: &[Arc<RowList>]) -> Result<Contents, AllocError>
    ensures { IfOk result (λ again. shared again ≡ shared contents.now) }
{
    let mut again = Contents::new(alloc);
    'tables: for content in contents {
        again.push(content.clone()?)?;
    }
    Ok(again)
}

// One version's contents alone.
fn only(alloc: Global, contents: Contents) -> Result<VecDeque<Contents>, AllocError>
    ensures { IfOk result (λ versions. versions.items ≡ contents ∷ []) }
{
    let mut versions = VecDeque::new(alloc);
    push_contents(&mut versions, contents)?;
    Ok(versions)
}
