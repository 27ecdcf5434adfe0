// Copies of all tables, which share their deltas.
ghost use Rattle.std.specs.Prelude.{◌≡◌, ℕ, IfOk, map};
ghost use Rattle.std.specs.List.{AllByRecursion};
ghost use Rattle.mesa_table_records.specs.mesa_catalog_table.Meaning.{IsTable, meta_of};

use mesa_table_records::{Table, share_table};
use std::alloc::{AllocError, Global};

/// The same tables. Their deltas aren't copied: a copy is a list of pointers to them.
pub fn share_tables(alloc: Global, tables: &[Table]) -> Result<Vec<Table>, AllocError>
    ensures same { (next : ℕ) → IfOk result (λ shared. map (meta_of next) shared.items ≡ map (meta_of next) tables.now) }
    ensures tables { (next : ℕ) → AllByRecursion (IsTable next) tables.now → IfOk result (λ shared. AllByRecursion (IsTable next) shared.items) }
{
    let mut shared = Vec::with_capacity(alloc, tables.len())?;
    for table in tables {
        shared.push(share_table(alloc, table)?)?;
    }
    Ok(shared)
}
