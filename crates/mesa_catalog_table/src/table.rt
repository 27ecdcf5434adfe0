// A table as the catalogue holds it.
ghost use Rattle.std.specs.Prelude.{◌≡◌, ◌<◌, ◌≤◌, ◌^◌, ℕ, OnOk, option_map};
ghost use Rattle.mesa_store_spec.specs.Catalog.{meta_from};
ghost use Rattle.mesa_catalog_table.specs.declared.table.Base.{Base as BaseOf};
ghost use Rattle.mesa_catalog_table.specs.Meaning.{IsTable, start_of_base, meta_of};
ghost use Rattle.mesa_catalog_table.specs.Room.{HasSpare, IsRoomier};

use crate::Delta;
use mesa_list::Items;
use mesa_schema::{Evolving, Name, Totals};
use std::alloc::AllocError;
use std::sync::Arc;

/// The delta from version 0 on.
#[derive(Drop)]
pub struct Base {
    pub to: u32,
    /// None for a base that was there when the table was made.
    pub delta: Option<Arc<Delta>>,
}

/// What a version brought.
#[derive(Drop)]
pub struct Loaded {
    pub version: u32,
    pub delta: Arc<Delta>,
}

/// A table: its deltas are shared with the copies that pins have.
pub struct Table {
    pub name: Name,
    pub evolving: Arc<Evolving>,
    /// How many value columns there were in each epoch.
    pub widths: Items<u8>,
    pub totals: Totals,
    /// The table's oldest version.
    pub oldest: u32,
    pub base: Option<Base>,
    /// They end ten, twenty and so on versions behind the base.
    pub cumulatives: Vec<Arc<Delta>>,
    /// By rising versions. A version that brought the table nothing isn't among them, so that it costs nothing.
    pub loaded: Vec<Loaded>,
}

// Each exit calls this, in place of letting go of each part itself.
impl Drop for Table {
    fn drop(self) {
        let Table {
            name: _,
            evolving: _,
            widths: _,
            totals: _,
            oldest: _,
            base: _,
            cumulatives: _,
            loaded: _,
        } = self;
    }
}

/// The first version behind a base.
pub fn start_behind(base: &Option<Base>) -> u64
    ensures start { result ≡ start_of_base base.now }
    ensures small { result ≤ 2 ^ 32 }
{
    match base {
        None => 0,
        Some(base) => base.to as u64 + 1,
    }
}

impl Table {
    /// The first version behind the base.
    pub fn start(&self) -> u64
        ensures start { result ≡ start_of_base self.now.base }
        ensures small { result ≤ 2 ^ 32 }
    {
        start_behind(&self.base)
    }

    /// Lets the versions below this one go.
    pub fn expire(&mut self, version: u32)
        ensures meta { (next : ℕ) → meta_of next self.new ≡ meta_from version (meta_of next self.old) }
        ensures table { (next : ℕ) → version < next → IsTable next self.old → IsTable next self.new }
        ensures spare { HasSpare self.old → HasSpare self.new }
    {
        self.oldest = self.oldest.max(version);
    }

    /// The last version of the base.
    pub fn base_to(&self) -> Option<u32>
        ensures { result ≡ option_map (λ (b : BaseOf). b.to) self.now.base }
    {
        self.base.as_ref().map(|base| base.to)
    }
}

/// Makes room in a table for a cumulative and a singleton more.
pub fn make_spare(table: &mut Table) -> Result<(), AllocError>
    ensures roomier { IsRoomier table.old table.new }
    ensures spare { OnOk result (HasSpare table.new) }
{
    table.cumulatives.reserve(1)?;
    table.loaded.reserve(1)
}
