// The checkpoint of a catalogue.
ghost use Rattle.std.specs.Prelude.{◌≡◌, ◌<◌, ◌^◌, ℕ, IfOk, map};
ghost use Rattle.std.specs.List.{AllByRecursion};
ghost use Rattle.mesa_catalog_records.specs.mesa_record.declared.record.Record.TheVariants as record_of;
ghost use Rattle.mesa_catalog_records.specs.mesa_store_spec.Checkpoint.{checkpoint_of, stating_table};
ghost use Rattle.mesa_catalog_records.specs.mesa_catalog_table.Meaning.{IsTable, meta_of};

use crate::Catalog;
use mesa_catalog_records::{Checkpoint, CheckpointTable, Record, Table, state};
use mesa_list::Items;
use std::alloc::{AllocError, Global};

impl Catalog {
    /// The checkpoint of this number, with this run as its last. The catalogue stays: what is stated is copied.
    pub fn checkpoint(&self, alloc: Global, number: u32, run: u32) -> Result<Record, AllocError>
        ensures { IfOk result (λ r. r ≡ record_of.Checkpoint (record (checkpoint_of number self.now.catalogue) { run = run })) }
    {
        let tables = state_tables(alloc, &self.catalog_tables.tables)?;
        let checkpoint = Checkpoint {
            number,
            run,
            floor: self.catalog_tables.floor,
            versions: self.catalog_tables.next,
            tables: Items::from_vec(tables),
        };
        Ok(Record::Checkpoint(checkpoint))
    }
}

fn state_tables(alloc: Global, tables: &[Table]) -> Result<Vec<CheckpointTable>, AllocError>
    requires { (next : ℕ) × (next < 2 ^ 32) × AllByRecursion (IsTable next) tables.now }
    ensures { (next : ℕ) → AllByRecursion (IsTable next) tables.now → IfOk result (λ stated. stated.items ≡ map stating_table (map (meta_of next) tables.now)) }
{
    let mut all = Vec::with_capacity(alloc, tables.len())?;
    for table in tables {
        all.push(state(alloc, table)?)?;
    }
    Ok(all)
}
