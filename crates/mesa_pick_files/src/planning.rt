// The deltas that a query reads.
ghost use Rattle.std.specs.Prelude.{◌≡◌, ◌++◌, ◌+◌, ◌-◌, ◌*◌, ◌/◌, ◌≤◌, ◌<◌, ◌^◌, ℕ, length, map, min};
ghost use Rattle.std.specs.List.{AllByRecursion};
ghost use Rattle.mesa_validate.specs.mesa_store_spec.Fitting.{deltas_of};
ghost use Rattle.mesa_validate.specs.mesa_store_spec.Planned.{behind_base, longest_to, planned as planned_of};
ghost use Rattle.mesa_catalog_table.specs.Meaning.{IsTable, start_of_base, meta_of};
ghost use Rattle.mesa_pick_files.specs.Lent.{AreOfEpochs, lent_if_any, lent_in, single_delta, ten_deltas, with_rows};

use crate::Deltas;
use crate::between::{from_on, up_to};
use crate::deltas::base_delta;
use mesa_catalog_table::{Delta, Table};
use std::sync::Arc;

/// The deltas that a query at a version reads: the base, the longest cumulative that ends at or before it, and then singletons. Takes no memory.
pub fn planned<'a>(table: &'a Table, version: u32) -> Deltas<'a>
    requires { (next : ℕ) × (next < 2 ^ 32) × IsTable next table.now }
    ensures plan { (next : ℕ) → IsTable next table.now → with_rows (lent_in result) ≡ with_rows (planned_of (meta_of next table.now) version) }
    ensures behind { (next : ℕ) → IsTable next table.now → with_rows (lent_if_any result.cumulative ++ map single_delta result.singles.now) ≡ with_rows (behind_base (meta_of next table.now) version (longest_to (meta_of next table.now) version)) }
    ensures epochs { (next epoch : ℕ) → IsTable next table.now → AllByRecursion (λ d. d.epoch ≤ epoch) (deltas_of (meta_of next table.now)) → AreOfEpochs epoch (lent_in result) }
{
    let tens = tens_within(table, version);
    let behind = table.start() + 10 * tens as u64;
    Deltas {
        base: base_delta(&table.base),
        cumulative: last_of(&table.cumulatives, tens),
        singles: up_to(from_on(&table.loaded, behind), version),
    }
}

// How many of the cumulatives end at or before a version: they end ten, twenty and so on versions behind the base.
fn tens_within(table: &Table, version: u32) -> usize
    ensures { result ≡ min ((version + 1 - start_of_base table.now.base) / 10) (length table.now.cumulatives.items) }
{
    let versions = (version as u64 + 1).saturating_sub(table.start());
    (versions / 10).min(table.cumulatives.len() as u64) as usize
}

// The last of the first so many cumulatives.
fn last_of(cumulatives: &[Arc<Delta>], tens: usize) -> Option<&Delta>
    requires { tens ≤ length cumulatives.now }
    ensures { lent_if_any result ≡ ten_deltas tens cumulatives.now }
{
    let last = tens.checked_sub(1)?;
    Some(&cumulatives[last])
}
