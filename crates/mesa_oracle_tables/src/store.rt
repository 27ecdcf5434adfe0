// Tables, and their contents at each version.
ghost use Rattle.std.specs.Prelude.{◌≡◌, [], length};

mod finding;
mod recasting;
mod tables;
mod versions;

use mesa_batch::Glanced;
use mesa_list::Items;
use mesa_schema::{RowList, Totals};
use std::alloc::Global;
use std::collections::VecDeque;
use std::marker::Model;
use std::sync::Arc;
pub(crate) use versions::{push_contents, shared_again};

/// The contents of the tables at one version, by the tables' numbers. A table that was made later has none.
pub(crate) type Contents = Items<Arc<RowList>>;

/// Tables, and their contents at each version from the floor on; the next version is the first that
/// isn't there. What is kept of a table below its own oldest version isn't seen any more.
#[derive(Drop)]
pub struct PlainStore {
    tables: Vec<Glanced>,
    totals: Items<Totals>,
    versions: VecDeque<Contents>,
    floor: u32,
    oldests: Items<u32>,
    next: u32,
}

impl Model for PlainStore {
    ghost use Rattle.std.specs.Prelude.{map};
    ghost use Rattle.mesa_batch.specs.Numbers.{known_of};
    ghost use Rattle.mesa_oracle_tables.specs.Kept.{Versioned, from_of, tables_in};
    ghost use Rattle.mesa_oracle_tables.specs.Sound.{AreKept};

    ghost Value = { Versioned };

    ghost view = { λ s. record { store = record { tables = tables_in (from_of s.floor s.oldests) 0 s.totals s.versions.items (map known_of s.tables.items); floor = s.floor }; next = s.next } };

    ghost invariant = { λ s. AreKept (map known_of s.tables.items) s.totals s.versions.items (from_of s.floor s.oldests) s.next };
}

impl PlainStore {
    /// No table, and no version.
    pub fn new(alloc: Global) -> Self
        ensures { result ≡ record { store = record { tables = []; floor = 0 }; next = 0 } }
    {
        PlainStore {
            tables: Vec::new(alloc),
            totals: Items::new(alloc),
            versions: VecDeque::new(alloc),
            floor: 0,
            oldests: Items::new(alloc),
            next: 0,
        }
    }

    /// How many tables there are.
    pub fn len(&self) -> usize
        ensures { result ≡ length self.now.store.tables }
    {
        self.tables.len()
    }

    pub fn floor(&self) -> u32
        ensures { result ≡ self.now.store.floor }
    {
        self.floor
    }

    pub fn next(&self) -> u32
        ensures { result ≡ self.now.next }
    {
        self.next
    }
}
