// The ranges of a table, in the order in which they are checked.
ghost use Rattle.std.specs.Prelude.{◌≡◌, ◌+◌, ◌*◌, ◌++◌, ◌<◌, ◌≤◌, ◌^◌, ℕ, length, map, option_map, IfOk, OnOk};
ghost use Rattle.mesa_catalog_table.specs.Meaning.{IsTable, delta_or_empty, ending_of, start_of_base, tens_from};
ghost use Rattle.mesa_check.specs.Ranges.{base_range, cumulative_range};
ghost use Rattle.mesa_check.specs.Held.{firsts, held_ranges as ranges_held, lent_delta, loaded_range, range_in};

use crate::range::{Held, Kind};
use mesa_catalog_table::{Base, Delta, Loaded, Table};
use std::alloc::{AllocError, Global};
use std::sync::Arc;

/// The base, what the first version behind it brought, the cumulatives, and what the other versions brought.
pub(crate) fn held_ranges<'a>(alloc: Global, table: &'a Table) -> Result<Vec<Held<'a>>, AllocError>
    requires { (next : ℕ) × (next < 2 ^ 32) × IsTable next table.now }
    ensures { IfOk result (λ ranges. map range_in ranges.items ≡ ranges_held table.now) }
{
    let start = table.start();
    let first = count_firsts(&table.loaded, start);
    let mut ranges = Vec::new(alloc);
    push_base(&table.base, &mut ranges)?;
    push_loaded(&table.loaded[..first], &mut ranges)?;
    push_cumulatives(&table.cumulatives, start, &mut ranges)?;
    push_loaded(&table.loaded[first..], &mut ranges)?;
    Ok(ranges)
}

// How many of those that were loaded are of this version: the first, or none.
fn count_firsts(loaded: &[Loaded], start: u64) -> usize
    ensures first { result ≡ firsts start loaded.now }
    ensures within { result ≤ length loaded.now }
{
    match loaded.first() {
        Some(single) if single.version as u64 == start => 1,
        _ => 0,
    }
}

fn push_base<'a>(base: &'a Option<Base>, ranges: &mut Vec<Held<'a>>) -> Result<(), AllocError>
    ensures { OnOk result (map range_in ranges.new.items ≡ map range_in ranges.old.items ++ base_range (option_map ending_of base.now)) }
{
    if let Some(base) = base {
        ranges.push(Held {
            kind: Kind::Base,
            from: 0,
            to: base.to,
            delta: lent(&base.delta),
        })?;
    }
    Ok(())
}

fn lent(delta: &Option<Arc<Delta>>) -> Option<&Delta>
    ensures { lent_delta result ≡ delta_or_empty delta.now }
{
    match delta {
        Some(delta) => Some(delta),
        None => None,
    }
}

fn push_loaded<'a>(loaded: &'a [Loaded], ranges: &mut Vec<Held<'a>>) -> Result<(), AllocError>
    ensures { OnOk result (map range_in ranges.new.items ≡ map range_in ranges.old.items ++ map loaded_range loaded.now) }
{
    for single in loaded {
        ranges.push(Held {
            kind: Kind::Single,
            from: single.version,
            to: single.version,
            delta: Some(&single.delta),
        })?;
    }
    Ok(())
}

// They end ten, twenty and so on versions behind the base.
fn push_cumulatives<'a>(
    cumulatives: &'a [Arc<Delta>],
    start: u64,
    ranges: &mut Vec<Held<'a>>,
) -> Result<(), AllocError>
    requires { start + 10 * length cumulatives.now < 2 ^ 32 }
    ensures { OnOk result (map range_in ranges.new.items ≡ map range_in ranges.old.items ++ map (cumulative_range start) (tens_from start cumulatives.now)) }
{
    let mut behind = start;
    for delta in cumulatives {
        ranges.push(Held {
            kind: Kind::Cumulative,
            from: start as u32,
            to: (behind + 9) as u32,
            delta: Some(delta),
        })?;
        behind += 10;
    }
    Ok(())
}
