// The deltas that a work folds, and the singletons of a range.
ghost use Rattle.std.specs.Prelude.{◌≡◌, ◌<◌, ◌≤◌, ◌^◌, ℕ, false};
ghost use Rattle.std.specs.List.{AllByRecursion};
ghost use Rattle.mesa_validate.specs.mesa_store_spec.Fitting.{deltas_of};
ghost use Rattle.mesa_validate.specs.mesa_store_spec.Brought.{merged_of};
ghost use Rattle.mesa_catalog_table.specs.Meaning.{IsTable, meta_of};
ghost use Rattle.mesa_pick_files.specs.Folding.{folded_deltas};
ghost use Rattle.mesa_pick_files.specs.Lent.{AreOfEpochs, lent_in, with_rows};

use crate::between::up_to;
use crate::{Deltas, planned};
use mesa_catalog_table::Table;

/// The singletons of the range of a cumulative that ends at a version. Takes no memory.
pub fn singles_to(table: &Table, to: u32) -> Deltas
    requires { (next : ℕ) × IsTable next table.now }
    ensures range { (next : ℕ) → IsTable next table.now → with_rows (lent_in result) ≡ with_rows (merged_of (meta_of next table.now) false to) }
    ensures epochs { (next epoch : ℕ) → IsTable next table.now → AllByRecursion (λ d. d.epoch ≤ epoch) (deltas_of (meta_of next table.now)) → AreOfEpochs epoch (lent_in result) }
{
    Deltas {
        base: None,
        cumulative: None,
        singles: up_to(&table.loaded, to),
    }
}

// The deltas that a work folds into a base to a version, or into the cumulative that ends there: those of the plan at it, of which the base only where it makes one. They fold to what those of the range do.
pub(crate) fn folded<'a>(table: &'a Table, base: bool, to: u32) -> Deltas<'a>
    requires { (next : ℕ) × (next < 2 ^ 32) × IsTable next table.now }
    ensures range { (next : ℕ) → IsTable next table.now → with_rows (lent_in result) ≡ with_rows (folded_deltas (meta_of next table.now) base to) }
    ensures epochs { (next epoch : ℕ) → IsTable next table.now → AllByRecursion (λ d. d.epoch ≤ epoch) (deltas_of (meta_of next table.now)) → AreOfEpochs epoch (lent_in result) }
{
    let plan = planned(table, to);
    if base {
        plan
    } else {
        Deltas { base: None, ..plan }
    }
}
