// Absolute values added up and compared. A total of 2^128 or more stands as 2^128 - 1, which is more than any total that is recorded, as those are within the bound.
ghost use Rattle.std.specs.Prelude.{◌≡◌, ◌<◌, ◌+◌, ◌++◌, ◌==◌, ◌&&◌, ℕ, List, [], length, map, min, nat_eq, nat_le, nat_lt, zip, IfOk, IfSome, Some, true, flat_map};
ghost use Rattle.std.specs.List.{AllByRecursion, list_all};
ghost use Rattle.mesa_batch.specs.Totals.{abs_totals, sum_bound};
ghost use Rattle.mesa_schema.specs.Changes.{Lineage, columns_of};
ghost use Rattle.mesa_pick_files.specs.mesa_columns.Columns.{Columns};
ghost use Rattle.mesa_pick_files.specs.mesa_columns.declared.rows.Row.{Row as AnyRow};
ghost use Rattle.mesa_compare.specs.mesa_examine.Sums.{counted as counted_of, most};
ghost use Rattle.mesa_check.specs.Found.{Found};
ghost use Rattle.mesa_check.specs.Faults.{agrees_if_any, are_at_most as at_most};
ghost use Rattle.mesa_check.specs.Counted.{is_counted, rows_where};
ghost use Rattle.mesa_check.specs.Held.{range_in};
ghost use Rattle.mesa_check.specs.declared.testing.Test.{Test as Tested};
ghost use Rattle.mesa_pick_files.specs.Lent.{now_if_any};

use crate::range::{Held, Kind};
use crate::testing::Test;
use mesa_batch::OVER_BOUND;
use mesa_catalog_table::no_totals;
use mesa_schema::{Items, Schema, Totals};
use std::alloc::{AllocError, Global};

/// Those of no rows.
pub(crate) fn no_sums(alloc: Global, schema: &Schema) -> Result<Vec<u128>, AllocError>
    ensures { IfOk result (λ sums. sums.items ≡ counted_of (abs_totals schema.now [])) }
{
    let none = no_totals(alloc, schema.values())?;
    Ok(none.into_vec())
}

/// Those of the rows at present of all ranges but cumulatives.
pub(crate) fn add_up(
    alloc: Global,
    schema: &Schema,
    tests: &[Test],
) -> Result<Vec<u128>, AllocError>
    ensures { IfOk result (λ sums. (found : Found) (l : Lineage) → schema.now ≡ columns_of l
        → AllByRecursion (λ (t : Tested). is_counted (range_in t.range) ≡ true → t.present ≡ counted_of (abs_totals schema.now (rows_where found l is_counted (range_in t.range)))) tests.now
        → sums.items ≡ counted_of (abs_totals schema.now (flat_map (λ (t : Tested). rows_where found l is_counted (range_in t.range)) tests.now))) }
{
    let mut sums = no_sums(alloc, schema)?;
    for one in tests {
        sums = with_one(alloc, sums, one)?;
    }
    Ok(sums)
}

// With those of a range, where it is counted.
fn with_one(alloc: Global, sums: Vec<u128>, one: &Test) -> Result<Vec<u128>, AllocError>
    ensures { IfOk result (λ all. (found : Found) (l : Lineage) (s : Columns) (before : List AnyRow) → sums.items ≡ counted_of (abs_totals s before)
        → (is_counted (range_in one.now.range) ≡ true → one.now.present ≡ counted_of (abs_totals s (rows_where found l is_counted (range_in one.now.range))))
        → all.items ≡ counted_of (abs_totals s (before ++ rows_where found l is_counted (range_in one.now.range)))) }
{
    if !counts(&one.range) {
        return Ok(sums);
    }
    added(alloc, &sums, one.present.as_slice())
}

// Whether a range is no cumulative.
fn counts(range: &Held) -> bool
    ensures { result ≡ is_counted (range_in range.now) }
{
    match range.kind {
        Kind::Base | Kind::Single => true,
        Kind::Cumulative => false,
    }
}

/// Sums and more, place by place.
pub(crate) fn added(alloc: Global, sums: &[u128], more: &[u128]) -> Result<Vec<u128>, AllocError>
    ensures { IfOk result (λ all. all.items ≡ map (λ (p : ℕ × ℕ). min most (p.0 + p.1)) (zip sums.now more.now)) }
{
    sums.iter()
        .zip(more)
        .map(|(sum, more)| sum.saturating_add(*more))
        .collect(alloc)
}

/// Whether there are as many sums as totals, and each is at most its total.
pub(crate) fn are_at_most(sums: &[u128], totals: &[u128]) -> bool
    requires { AllByRecursion (λ total. total < sum_bound) totals.now }
    ensures { (true_sums : List ℕ) → sums.now ≡ counted_of true_sums → result ≡ at_most true_sums totals.now }
{
    sums.len() == totals.len() && is_each_at_most(sums, totals)
}

fn is_each_at_most(sums: &[u128], totals: &[u128]) -> bool
    ensures { result ≡ list_all (λ (p : ℕ × ℕ). nat_le p.0 p.1) (zip sums.now totals.now) }
{
    sums.iter().zip(totals).all(|(sum, total)| *sum <= *total)
}

/// Whether each sum keeps the bound.
pub(crate) fn keep_bound(sums: &[u128]) -> bool
    ensures { (true_sums : List ℕ) → sums.now ≡ counted_of true_sums → result ≡ list_all (λ total. nat_lt total sum_bound) true_sums }
{
    is_each_bounded(sums)
}

fn is_each_bounded(sums: &[u128]) -> bool
    ensures { result ≡ list_all (λ total. nat_lt total sum_bound) sums.now }
{
    sums.iter().all(|sum| *sum < OVER_BOUND)
}

/// Whether recorded totals, if there are any, are these sums.
pub(crate) fn agree(recorded: Option<&Totals>, sums: &[u128]) -> bool
    requires { IfSome (now_if_any recorded) (λ totals. AllByRecursion (λ total. total < sum_bound) totals) }
    ensures { (true_sums : List ℕ) → sums.now ≡ counted_of true_sums → result ≡ agrees_if_any (now_if_any recorded.entry) true_sums }
{
    match recorded {
        Some(recorded) => are_same(recorded.as_slice(), sums),
        None => true,
    }
}

fn are_same(recorded: &[u128], sums: &[u128]) -> bool
    requires { AllByRecursion (λ total. total < sum_bound) recorded.now }
    ensures { (true_sums : List ℕ) → sums.now ≡ counted_of true_sums → result ≡ agrees_if_any (Some recorded.now) true_sums }
{
    recorded.len() == sums.len() && is_each_same(recorded, sums)
}

fn is_each_same(recorded: &[u128], sums: &[u128]) -> bool
    ensures { result ≡ list_all (λ (p : ℕ × ℕ). p.0 == p.1) (zip recorded.now sums.now) }
{
    recorded.iter().zip(sums).all(|(total, sum)| *total == *sum)
}
