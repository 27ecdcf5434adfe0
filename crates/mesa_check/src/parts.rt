// What a cumulative is compared with.
ghost use Rattle.std.specs.Prelude.{◌≡◌, ◌++◌, ◌≤◌, ℕ, IfSome};
ghost use Rattle.std.specs.List.{AllByRecursion};
ghost use Rattle.mesa_store_spec.specs.Fitting.{deltas_of};
ghost use Rattle.mesa_catalog_table.specs.Meaning.{AreLoaded, IsTable, meta_of};
ghost use Rattle.mesa_catalog_table.specs.Named.{through};
ghost use Rattle.mesa_pick_files.specs.Lent.{AreOfEpochs, lent_in, now_if_any, with_rows};
ghost use Rattle.mesa_check.specs.Held.{delta_of};
ghost use Rattle.mesa_check.specs.Parts.{parts_of};

use crate::testing::Test;
use mesa_catalog_table::{Loaded, Table};
use mesa_pick_files::{Deltas, singles_to};

/// The deltas whose fold the cumulative that ends at a version is to have: the singletons of its range; or the cumulative before it, where one is told, and the singletons since then. Takes no memory.
pub(crate) fn parts<'a>(table: &'a Table, before: Option<&Test<'a>>, to: u32) -> Deltas<'a>
    requires table { (next : ℕ) × IsTable next table.now }
    requires order { IfSome (now_if_any before) (λ b. b.range.to ≤ to) }
    ensures range { (next : ℕ) → IsTable next table.now → with_rows (lent_in result) ≡ with_rows (parts_of (meta_of next table.now) (now_if_any before.entry) to) }
    ensures epochs { (next epoch : ℕ) → IsTable next table.now → AllByRecursion (λ d. d.epoch ≤ epoch) (deltas_of (meta_of next table.now)) → IfSome (now_if_any before.entry) (λ b. (delta_of b.range).epoch ≤ epoch) → AreOfEpochs epoch (lent_in result) }
{
    match before {
        Some(before) => Deltas {
            base: None,
            cumulative: before.range.delta,
            singles: loaded_between(&table.loaded, before.range.to, to),
        },
        None => singles_to(table, to),
    }
}

// What was loaded behind a version and up to another: what is loaded stands by rising versions.
fn loaded_between(loaded: &[Loaded], end: u32, to: u32) -> &[Loaded]
    requires loaded { (start : ℕ) × (next : ℕ) × AreLoaded start next loaded.now }
    requires order { end ≤ to }
    ensures { through end loaded.now ++ result.now ≡ through to loaded.now }
{
    let count = loaded.partition_point(|single| single.version <= to);
    let within = &loaded[..count];
    let first = within.partition_point(|single| single.version <= end);
    &within[first..]
}
