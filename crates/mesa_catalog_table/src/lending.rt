// The delta of a range of versions. Takes no memory.
ghost use Rattle.std.specs.Prelude.{◌≡◌, ◌-◌, ◌≤◌, ◌<◌, ◌^◌, ℕ, Some, find, option_map, slice_get, ◌==◌};
ghost use Rattle.std.specs.Option.{option_copied};
ghost use Rattle.mesa_store_spec.specs.Catalog.{Ending as EndingOf, empty_delta};
ghost use Rattle.mesa_store_spec.specs.Fitting.{delta_in};
ghost use Rattle.mesa_catalog_table.specs.Meaning.{AreLoaded, IsTable, delta_or_empty, ending_of, singles_from, meta_of, tens_from};
ghost use Rattle.mesa_catalog_table.specs.Ranged.{base_at, cumulative_at, delta_at, single_at};

use crate::{Base, Delta, Loaded, Table};
use std::marker::Model;
use std::sync::Arc;

/// A delta without rows: it is lent for a version that brought a table nothing.
#[derive(Drop)]
pub struct NoRows {
    delta: Delta,
}

impl Model for NoRows {
    ghost use Rattle.mesa_store_spec.specs.Catalog.{Delta as Known, empty_delta};
    ghost use Rattle.std.specs.Prelude.{◌≡◌};

    ghost Value = { Known };

    ghost view = { λ n. n.delta };

    ghost invariant = { λ n. n.delta ≡ empty_delta };
}

impl NoRows {
    pub fn new() -> NoRows
        ensures { result ≡ empty_delta }
    {
        NoRows {
            delta: Delta {
                epoch: 0,
                files: None,
                totals: None,
            },
        }
    }

    fn lend(&self) -> &Delta
        ensures { result.now ≡ empty_delta }
    {
        &self.delta
    }
}

impl Table {
    /// The delta of just these versions, where there were so many: the base, a cumulative, or the singleton of one version.
    pub fn delta<'a>(
        &'a self,
        next: u32,
        no_rows: &'a NoRows,
        from: u32,
        to: u32,
    ) -> Option<&'a Delta>
        requires { IsTable next self.now }
        ensures { option_copied result ≡ delta_at (meta_of next self.now) from to }
    {
        if let Some(base) = base_delta(&self.base, no_rows, from, to) {
            return Some(base);
        }
        if let Some(cumulative) = self.cumulative(from, to) {
            return Some(cumulative);
        }
        self.single(next, no_rows, from, to)
    }

    // The cumulative of just these versions.
    fn cumulative(&self, from: u32, to: u32) -> Option<&Delta>
        ensures { (next : ℕ) → option_copied result ≡ cumulative_at (meta_of next self.now) from to }
    {
        let start = self.start();
        if from as u64 != start {
            return None;
        }
        ten_to(&self.cumulatives, start, to)
    }

    // The singleton of just these versions.
    fn single<'a>(&'a self, next: u32, no_rows: &'a NoRows, from: u32, to: u32) -> Option<&'a Delta>
        requires { IsTable next self.now }
        ensures { option_copied result ≡ single_at (meta_of next self.now) from to }
    {
        if from != to || (from as u64) < self.start() || next <= from {
            return None;
        }
        Some(brought(&self.loaded, no_rows, from))
    }
}

// The base, where it has just these versions.
fn base_delta<'a>(
    base: &'a Option<Base>,
    no_rows: &'a NoRows,
    from: u32,
    to: u32,
) -> Option<&'a Delta>
    ensures { option_copied result ≡ base_at (option_map ending_of base.now) from to }
{
    match base {
        Some(base) if from == 0 && base.to == to => Some(lent(&base.delta, no_rows)),
        _ => None,
    }
}

fn lent<'a>(delta: &'a Option<Arc<Delta>>, no_rows: &'a NoRows) -> &'a Delta
    ensures { result.now ≡ delta_or_empty delta.now }
{
    match delta {
        None => no_rows.lend(),
        Some(delta) => delta,
    }
}

// The cumulative that ends at a version: they end ten, twenty and so on versions behind the base.
fn ten_to(cumulatives: &[Arc<Delta>], start: u64, to: u32) -> Option<&Delta>
    requires { start ≤ 2 ^ 32 }
    ensures { option_copied result ≡ option_map delta_in (find (λ (e : EndingOf). e.to == to) (tens_from start cumulatives.now)) }
{
    let behind = to as u64 + 1;
    if behind < start + 10 || (behind - start) % 10 != 0 {
        return None;
    }
    match cumulatives.get(((behind - start) / 10 - 1) as usize) {
        Some(delta) => Some(delta),
        None => None,
    }
}

// What a version brought that is there.
fn brought<'a>(loaded: &'a [Loaded], no_rows: &'a NoRows, version: u32) -> &'a Delta
    requires { (from : ℕ) × (next : ℕ) × AreLoaded from next loaded.now }
    ensures { (from next : ℕ) → AreLoaded from next loaded.now → from ≤ version → version < next → slice_get (singles_from from next loaded.now) (version - from) ≡ Some result.now }
{
    let before = loaded.partition_point(|single| single.version < version);
    match loaded.get(before) {
        Some(single) if single.version == version => &single.delta,
        _ => no_rows.lend(),
    }
}
