// Taking in merged deltas.
ghost use Rattle.std.specs.Prelude.{◌≡◌, ◌<◌, ℕ, filter, nat_lt, true};
ghost use Rattle.mesa_catalog_table.specs.mesa_store_spec.Catalog.{meta_swapped};
ghost use Rattle.mesa_catalog_table.specs.declared.table.Loaded.{Loaded as Single};
ghost use Rattle.mesa_catalog_table.specs.Meaning.{IsTable, meta_of};
ghost use Rattle.mesa_catalog_table.specs.Room.{HasSpare};
ghost use Rattle.mesa_table_records.specs.Readied.{IsSwapOf};

use mesa_catalog_table::{Base, Delta, Loaded, Table};
use std::sync::Arc;

/// Puts a base or a cumulative in.
pub fn swap(table: &mut Table, base: bool, to: u32, delta: Arc<Delta>)
    requires { HasSpare table.old }
    ensures meta { (next : ℕ) → IsTable next table.old → IsSwapOf next table.old base to → meta_of next table.new ≡ meta_swapped (meta_of next table.old) base to delta.value }
    ensures table { (next : ℕ) → IsTable next table.old → IsSwapOf next table.old base to → IsTable next table.new }
{
    if base {
        swap_base(table, to, delta)
    } else {
        table.cumulatives.push_reserved(delta)
    }
}

// Puts a base in, which takes the place of every delta that starts at or before its end: of all cumulatives, and of the singletons up to there.
fn swap_base(table: &mut Table, to: u32, delta: Arc<Delta>)
    ensures meta { (next : ℕ) → IsTable next table.old → IsSwapOf next table.old true to → meta_of next table.new ≡ meta_swapped (meta_of next table.old) true to delta.value }
    ensures table { (next : ℕ) → IsTable next table.old → IsSwapOf next table.old true to → IsTable next table.new }
{
    table.base = Some(Base {
        to,
        delta: Some(delta),
    });
    table.cumulatives.clear();
    drop_through(&mut table.loaded, to);
}

// Drops the singletons up to a version.
fn drop_through(loaded: &mut Vec<Loaded>, to: u32)
    ensures { loaded.new.items ≡ filter (λ (l : Single). nat_lt to l.version) loaded.old.items }
{
    loaded.retain(|single| single.version > to);
}
