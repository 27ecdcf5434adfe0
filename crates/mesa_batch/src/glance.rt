// What a load sees of a catalogue.
ghost use Rattle.std.specs.Prelude.{◌≡◌, ◌<◌, ◌≤◌, ◌^◌, ℕ, List, length, map, slice_get, Some, IfOk, IfSome, OnOk, option_map};
ghost use Rattle.std.specs.Bool.{then_some};
ghost use Rattle.std.specs.Option.{option_or};
ghost use Rattle.mesa_list.specs.Bytes.{same_bytes};
ghost use Rattle.mesa_schema.specs.mesa_columns.Columns.{place_of};
ghost use Rattle.mesa_batch.specs.Glance.{Known, columns_in, names_in};
ghost use Rattle.mesa_batch.specs.Shared.{shared_columns};
ghost use Rattle.mesa_batch.specs.Numbers.{known_of, number_at};

use mesa_list::{Items, TryCopy};
use mesa_schema::{Evolving, Name};
use std::alloc::{AllocError, Global};
use std::collections::BTreeMap;
use std::marker::Model;
use std::sync::Arc;

/// A table as a glance has it; its columns are shared with the catalogue.
#[derive(Drop)]
pub struct Glanced {
    pub name: Name,
    pub evolving: Arc<Evolving>,
}

/// What a load sees of a catalogue: the tables by their numbers, which count from 0, and how often tables, views and columns had changed by then.
#[derive(Drop)]
pub struct Glance {
    generation: u64,
    tables: Vec<Glanced>,
    // The tables' numbers by their names.
    numbers: BTreeMap<Vec<u8>, u16>,
}

impl Model for Glance {
    ghost use Rattle.std.specs.Prelude.{map};
    ghost use Rattle.mesa_batch.specs.Glance.{Sight};
    ghost use Rattle.mesa_batch.specs.Numbers.{AreNumbered, known_of};

    ghost Value = { Sight };

    ghost view = { λ g. record { generation = g.generation; tables = map known_of g.tables.items } };

    ghost invariant = { λ g. AreNumbered g.tables.items g.numbers.entries };
}

impl Glance {
    /// A glance at these tables, none of which is copied.
    pub fn new(alloc: Global, generation: u64, tables: Vec<Glanced>) -> Result<Self, AllocError>
        requires few { length tables.items ≤ 2 ^ 16 }
        ensures generation { IfOk result (λ g. g.generation ≡ generation) }
        ensures tables { IfOk result (λ g. g.tables ≡ map known_of tables.items) }
    {
        let numbers = numbered(alloc, &tables)?;
        Ok(Glance {
            generation,
            tables,
            numbers,
        })
    }

    /// How often tables, views and columns had changed by then.
    pub fn generation(&self) -> u64
        ensures { result ≡ self.now.generation }
    {
        self.generation
    }

    /// How many tables there are.
    pub fn len(&self) -> usize
        ensures { result ≡ length self.now.tables }
    {
        self.tables.len()
    }

    /// The number of the table of this name.
    pub fn find(&self, name: &[u8]) -> Option<u16>
        ensures place { result ≡ place_of name.now (names_in self.now) }
        ensures there { IfSome result (λ table. table < length self.now.tables) }
    {
        self.numbers.get(name).copied()
    }

    /// The name of the table of a number.
    pub fn name(&self, table: u16) -> &Name
        requires { table < length self.now.tables }
        ensures { IfSome (slice_get self.now.tables table) (λ (t : Known). result.now ≡ t.name) }
    {
        &self.tables[table as usize].name
    }

    /// The columns and the views of the table of a number.
    pub fn evolving(&self, table: u16) -> &Arc<Evolving>
        requires { table < length self.now.tables }
        ensures { IfSome (slice_get self.now.tables table) (λ (t : Known). result.now.value ≡ t.lineage) }
    {
        &self.tables[table as usize].evolving
    }
}

impl Glance {
    // The columns of the tables, by their numbers; none is copied.
    pub(crate) fn columns(&self) -> Result<Items<Arc<Evolving>>, AllocError>
        ensures { IfOk result (λ columns. shared_columns columns ≡ columns_in self.now) }
    {
        let mut columns = Items::new(*self.tables.allocator());
        'tables: for table in &self.tables {
            columns.push(table.evolving.clone()?)?;
        }
        Ok(columns)
    }
}

impl TryCopy for Glance {
    fn copy(&self) -> Result<Self, AllocError> {
        let alloc = *self.tables.allocator();
        Glance::new(alloc, self.generation, tables_again(alloc, &self.tables)?)
    }
}

// The same tables once more; their columns are shared.
fn tables_again(alloc: Global, tables: &[Glanced]) -> Result<Vec<Glanced>, AllocError>
    ensures known { IfOk result (λ again. map known_of again.items ≡ map known_of tables.now) }
    ensures len { IfOk result (λ again. length again.items ≡ length tables.now) }
{
    let mut again = Vec::new(alloc);
    'tables: for table in tables {
        again.push(Glanced {
            name: table.name.copy()?,
            evolving: table.evolving.clone()?,
        })?;
    }
    Ok(again)
}

// The tables' numbers by their names; where a name stood twice, the first one's.
fn numbered(alloc: Global, tables: &[Glanced]) -> Result<BTreeMap<Vec<u8>, u16>, AllocError>
    requires { length tables.now ≤ 2 ^ 16 }
    ensures { IfOk result (λ numbers. (name : List ℕ) → number_at name numbers.entries ≡ place_of name (map (λ t. t.name) tables.now)) }
{
    let mut numbers = BTreeMap::new(alloc);
    'tables: for (number, table) in tables.iter().enumerate() {
        number_name(alloc, &mut numbers, table.name.bytes(), number as u16)?;
    }
    Ok(numbers)
}

// Notes the number of a name that has none yet.
fn number_name(
    alloc: Global,
    numbers: &mut BTreeMap<Vec<u8>, u16>,
    name: &[u8],
    number: u16,
) -> Result<(), AllocError>
    ensures { OnOk result ((q : List ℕ) → number_at q numbers.new.entries ≡ option_or (number_at q numbers.old.entries) (then_some (same_bytes q name.now) number)) }
{
    if numbers.contains_key(name) {
        return Ok(());
    }
    numbers.insert(Vec::from_slice(alloc, name)?, number)?;
    Ok(())
}
