// The first fault of a table.
ghost use Rattle.std.specs.Prelude.{◌≡◌, ◌<◌, ◌≤◌, ◌&&◌, ℕ, map, find, flat_map, option_map, slice_get, true, IfOk, IfSome, None, Some, if◌then◌else◌};
ghost use Rattle.std.specs.List.{AllByRecursion, list_all};
ghost use Rattle.mesa_disk.specs.Image.{Image};
ghost use Rattle.mesa_disk.specs.Story.{Unmoved};
ghost use Rattle.mesa_batch.specs.Totals.{sum_bound};
ghost use Rattle.mesa_store_spec.specs.Fitting.{meta_live};
ghost use Rattle.mesa_pick_files.specs.Lent.{now_if_any};
ghost use Rattle.mesa_schema.specs.Changes.{epoch_of};
ghost use Rattle.mesa_catalog_table.specs.Meaning.{meta_of};
ghost use Rattle.mesa_compare.specs.mesa_open_files.Opening.{Counted};
ghost use Rattle.mesa_compare.specs.mesa_examine.Examined.{is_read_failure};
ghost use Rattle.mesa_check.specs.Found.{AreFound, Found};
ghost use Rattle.mesa_check.specs.Faults.{exceeds_totals as exceeds_them, fault_of, keys_shown, range_faults, table_faults};
ghost use Rattle.mesa_check.specs.Ranges.{is_range as is_range_of};
ghost use Rattle.mesa_check.specs.Counted.{tells_of};
ghost use Rattle.mesa_check.specs.Held.{IsHeld, delta_of, held_ranges as ranges_held, range_in};
ghost use Rattle.mesa_check.specs.Parts.{Agrees, IsAskedBelow};
ghost use Rattle.mesa_check.specs.Shown.{has_false_of, is_found_in, is_merged, is_sure, shown_fault, stands_of, tells_excess, tells_totals, tested_range};
ghost use Rattle.mesa_check.specs.Tested.{HasRows, IsRead, range_of};

use crate::asked::asked_below;
use crate::keys::{merged_key, view_key};
use crate::range::{Held, Kind};
use crate::ranges::held_ranges;
use crate::testing::{Test, test_ranges};
use crate::totals::{add_up, are_at_most};
use mesa_catalog_table::Table;
use mesa_compare::{CheckError, DeltaDisk};
use mesa_disk::Made;
use mesa_schema::KeyBytes;
use std::alloc::{AllocError, Global};

/// A table's fault: its range of versions, and the key that shows it, if a single one does.
#[derive(Drop)]
pub(crate) struct Shown {
    pub(crate) from: u32,
    pub(crate) to: u32,
    pub(crate) key: Option<KeyBytes>,
}

/// The first fault of a table; None where it has none.
pub(crate) fn table_fault<M: Made, D: DeltaDisk<M>>(
    alloc: Global,
    disk: &mut D,
    table: &Table,
) -> Result<Option<Shown>, CheckError>
    requires { (next : ℕ) × IsHeld next table.now }
    ensures first { IfOk result (λ o. (next : ℕ) (i : Image) (found : Found) → IsHeld next table.now → (D.story disk.old).told ≡ Some i → AreFound i found (meta_live (meta_of next table.now))
        → slice_get (table_faults found (meta_of next table.now)) 0 ≡ option_map (shown_fault (meta_of next table.now)) o) }
    ensures there { IfOk result (λ o. (next : ℕ) (i : Image) → IsHeld next table.now → (D.story disk.old).told ≡ Some i → o ≡ None → AllByRecursion (HasRows i) (meta_live (meta_of next table.now))) }
    ensures unmoved { Unmoved (D.story disk.old) (D.story disk.new) }
    ensures counted { Counted (D.story disk.old) (D.story disk.new) (is_read_failure result) }
{
    let ranges = held_ranges(alloc, table)?;
    let tests = test_ranges(alloc, disk, &table.evolving, &ranges)?;
    let exceeds = exceeds_totals(alloc, table, &tests)?;
    first_fault(alloc, disk, table, &tests, exceeds)
}

// Whether the absolute values of all rows add up to more than the table's totals. It is asked where the files of the base and of all singletons are the recorded ones and the singletons' totals true.
fn exceeds_totals(alloc: Global, table: &Table, tests: &[Test]) -> Result<bool, AllocError>
    requires tests { map range_in (map range_of tests.now) ≡ ranges_held table.now }
    requires totals { AllByRecursion (λ total. total < sum_bound) table.now.totals }
    ensures { IfOk result (λ b. (next : ℕ) (i : Image) (found : Found) → IsHeld next table.now → AllByRecursion (IsRead i found table.now.evolving.value) tests.now → b ≡ exceeds_them found (meta_of next table.now)) }
{
    if !are_true(tests) {
        return Ok(false);
    }
    let sums = add_up(alloc, table.evolving.present(), tests)?;
    Ok(!are_at_most(&sums, table.totals.as_slice()))
}

fn are_true(tests: &[Test]) -> bool
    ensures { result ≡ list_all is_sure tests.now }
{
    tests.iter().all(|one| is_true(one))
}

// Of a singleton whether its files are the recorded ones and its totals true, of a base the former; a cumulative isn't asked.
fn is_true(one: &Test) -> bool
    ensures { result ≡ is_sure one.now }
{
    match one.range.kind {
        Kind::Base => one.found,
        Kind::Single => one.found && one.totalled,
        Kind::Cumulative => true,
    }
}

// The first fault of a table's ranges.
fn first_fault<M: Made, D: DeltaDisk<M>>(
    alloc: Global,
    disk: &mut D,
    table: &Table,
    tests: &[Test],
    exceeds: bool,
) -> Result<Option<Shown>, CheckError>
    requires held { (next : ℕ) × IsHeld next table.now }
    requires ranges { map range_in (map range_of tests.now) ≡ ranges_held table.now }
    requires epochs { AllByRecursion (λ t. (delta_of (range_of t)).epoch ≤ epoch_of table.now.evolving.value) tests.now }
    ensures first { IfOk result (λ o. (next : ℕ) (i : Image) (found : Found) → IsHeld next table.now → (D.story disk.old).told ≡ Some i → AllByRecursion (IsRead i found table.now.evolving.value) tests.now → exceeds ≡ exceeds_them found (meta_of next table.now)
        → slice_get (flat_map (λ t. range_faults found (meta_of next table.now) (tested_range t)) tests.now) 0 ≡ option_map (shown_fault (meta_of next table.now)) o) }
    ensures there { IfOk result (λ o. o ≡ None → AllByRecursion (λ t. is_found_in t ≡ true) tests.now) }
    ensures unmoved { Unmoved (D.story disk.old) (D.story disk.new) }
    ensures counted { Counted (D.story disk.old) (D.story disk.new) (is_read_failure result) }
{
    let told = totals_range(tests);
    let asked = asked_below(alloc, table, tests)?;
    let mut before = None;
    'faults: for one in tests {
        let over = is_over(told, &one.range, exceeds);
        if let Some(key) = range_fault(alloc, disk, table, asked, before, one, over)? {
            return Ok(Some(Shown {
                from: one.range.from,
                to: one.range.to,
                key,
            }));
        }
        before = last_cumulative(before, one);
    }
    Ok(None)
}

// The last cumulative of some ranges and one more.
fn last_cumulative<'a, 'b>(before: Option<&'a Test<'b>>, one: &'a Test<'b>) -> Option<&'a Test<'b>>
    ensures { now_if_any result ≡ (if is_merged (range_in one.now.range) then Some one.now else now_if_any before.entry) }
{
    if is_cumulative(&one.range) {
        Some(one)
    } else {
        before
    }
}

// The range that tells of the table's totals: the base, or where there is none the first singleton with rows.
fn totals_range<'a, 'b>(tests: &'a [Test<'b>]) -> Option<&'a Test<'b>>
    ensures { now_if_any result ≡ find tells_totals tests.now }
{
    tests.iter().find(|one| tells(&one.range))
}

fn tells(range: &Held) -> bool
    ensures { result ≡ tells_of (range_in range.now) }
{
    match range.kind {
        Kind::Base => true,
        Kind::Single => range.files().is_some(),
        Kind::Cumulative => false,
    }
}

// Whether a range is the one that is told, and the rows exceed the totals.
fn is_over(told: Option<&Test>, range: &Held, exceeds: bool) -> bool
    ensures { result ≡ (is_range_of (option_map tested_range (now_if_any told.entry)) (range_in range.now) && exceeds) }
{
    is_range(told, range) && exceeds
}

fn is_range(told: Option<&Test>, range: &Held) -> bool
    ensures { result ≡ is_range_of (option_map tested_range (now_if_any told.entry)) (range_in range.now) }
{
    match told {
        Some(told) => told.range.from == range.from && told.range.to == range.to,
        None => false,
    }
}

// The key of a range's first fault, if a single one shows it; None where the range has none.
fn range_fault<M: Made, D: DeltaDisk<M>>(
    alloc: Global,
    disk: &mut D,
    table: &Table,
    asked: Option<u32>,
    before: Option<&Test>,
    one: &Test,
    over: bool,
) -> Result<Option<Option<KeyBytes>>, CheckError>
    requires held { (next : ℕ) × IsHeld next table.now }
    requires epoch { (delta_of one.now.range).epoch ≤ epoch_of table.now.evolving.value }
    requires order { IfSome (now_if_any before) (λ b. is_merged (range_in one.now.range) ≡ true → b.range.to ≤ one.now.range.to) }
    requires epoch_before { IfSome (now_if_any before) (λ b. (delta_of b.range).epoch ≤ epoch_of table.now.evolving.value) }
    ensures first { IfOk result (λ o. (next : ℕ) (i : Image) (found : Found) → IsHeld next table.now → (D.story disk.old).told ≡ Some i → AreFound i found (meta_live (meta_of next table.now))
        → IsAskedBelow found (meta_of next table.now) asked → IfSome (now_if_any before.entry) (Agrees i found (meta_of next table.now))
        → IsRead i found table.now.evolving.value one.now → over ≡ tells_excess found (meta_of next table.now) (range_in one.now.range)
        → slice_get (range_faults found (meta_of next table.now) (range_in one.now.range)) 0 ≡ option_map (fault_of (meta_of next table.now) (range_in one.now.range)) o) }
    ensures there { IfOk result (λ o. o ≡ None → one.now.found ≡ true) }
    ensures unmoved { Unmoved (D.story disk.old) (D.story disk.new) }
    ensures counted { Counted (D.story disk.old) (D.story disk.new) (is_read_failure result) }
{
    if stands(one, over) {
        return Ok(Some(None));
    }
    match key_shown(alloc, disk, table, asked, before, one)? {
        Some(key) => Ok(Some(Some(key))),
        None => Ok(None),
    }
}

// Whether a range has a fault that no single key shows.
fn stands(one: &Test, over: bool) -> bool
    ensures { result ≡ stands_of one.now over }
{
    !one.found || has_false_totals(one) || over
}

// Totals are recorded with singletons alone.
fn has_false_totals(one: &Test) -> bool
    ensures { result ≡ has_false_of one.now }
{
    match one.range.kind {
        Kind::Single => !one.totalled,
        _ => false,
    }
}

// The first key that shows a fault of a range: where a cumulative differs, and then where view files do.
fn key_shown<M: Made, D: DeltaDisk<M>>(
    alloc: Global,
    disk: &mut D,
    table: &Table,
    asked: Option<u32>,
    before: Option<&Test>,
    one: &Test,
) -> Result<Option<KeyBytes>, CheckError>
    requires held { (next : ℕ) × IsHeld next table.now }
    requires epoch { (delta_of one.now.range).epoch ≤ epoch_of table.now.evolving.value }
    requires order { IfSome (now_if_any before) (λ b. is_merged (range_in one.now.range) ≡ true → b.range.to ≤ one.now.range.to) }
    requires epoch_before { IfSome (now_if_any before) (λ b. (delta_of b.range).epoch ≤ epoch_of table.now.evolving.value) }
    ensures key { IfOk result (λ o. (next : ℕ) (i : Image) (found : Found) → IsHeld next table.now → (D.story disk.old).told ≡ Some i → AreFound i found (meta_live (meta_of next table.now))
        → IsAskedBelow found (meta_of next table.now) asked → IfSome (now_if_any before.entry) (Agrees i found (meta_of next table.now))
        → IsRead i found table.now.evolving.value one.now → one.now.found ≡ true → slice_get (keys_shown found (meta_of next table.now) (range_in one.now.range)) 0 ≡ o) }
    ensures unmoved { Unmoved (D.story disk.old) (D.story disk.new) }
    ensures counted { Counted (D.story disk.old) (D.story disk.new) (is_read_failure result) }
{
    if !is_cumulative(&one.range) {
        return view_key(alloc, disk, &table.evolving, one);
    }
    match merged_key(alloc, disk, table, asked, before, one)? {
        Some(key) => Ok(Some(key)),
        None => view_key(alloc, disk, &table.evolving, one),
    }
}

fn is_cumulative(range: &Held) -> bool
    ensures { result ≡ is_merged (range_in range.now) }
{
    match range.kind {
        Kind::Cumulative => true,
        _ => false,
    }
}
