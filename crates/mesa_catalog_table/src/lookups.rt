// What is asked of a table.
ghost use Rattle.std.specs.Prelude.{◌≡◌, ◌<◌, ◌^◌, IfOk, ℕ};
ghost use Rattle.mesa_span.specs.Ranges.{IsInOrder};
ghost use Rattle.mesa_store_spec.specs.Catalog.{ranges_of};
ghost use Rattle.mesa_catalog_table.specs.Meaning.{IsTable, meta_of};

use crate::Table;
use mesa_list::Items;
use mesa_span::Ranges;
use std::alloc::{AllocError, Global};

/// The ranges of a table's deltas.
pub fn ranges(alloc: Global, table: &Table) -> Result<Ranges, AllocError>
    requires { (next : ℕ) × (next < 2 ^ 32) × IsTable next table.now }
    ensures ranges { (next : ℕ) → IfOk result (λ r. r ≡ ranges_of (meta_of next table.now)) }
    ensures in_order { IfOk result IsInOrder }
{
    let start = table.start();
    let mut ends = Vec::with_capacity(alloc, table.cumulatives.len())?;
    for ten in 0..table.cumulatives.len() as u64 {
        ends.push((start + 10 * ten + 9) as u32)?;
    }
    Ok(Ranges {
        base_to: table.base_to(),
        cumulatives: Items::from_vec(ends),
    })
}
