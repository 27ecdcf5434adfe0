// Absolute totals of batches, and the bound on them.
ghost use Rattle.std.specs.Prelude.{◌≡◌, ◌≤◌, ◌+◌, ◌^◌, ℕ, min, nat_le, nat_abs, pos, length, map, position, slice_index_or, zip, IfOk, IfSome, OnOk, ◌<◌, [], ◌∷◌, ◌++◌, cond};
ghost use Rattle.std.specs.Result.{result_err};
ghost use Rattle.mesa_batch.specs.Flat.{rows_over};
ghost use Rattle.mesa_batch.specs.Totals.{abs_total, abs_totals, capped, is_sum, over_bound, sum_bound};

use crate::flat::FlatRows;
use mesa_schema::{Agg, Amount, Schema, Totals};
use std::alloc::{AllocError, Global};

/// A total above 2^127 - 1, the bound of each sum, stands as this.
pub const OVER_BOUND: u128 = 1 << 127;

/// Whether totals and more of them keep the bound of 2^127 - 1 in each sum column, or the first column that doesn't.
pub fn fits(totals: &Totals, more: &Totals) -> Result<(), u16>
    requires same_columns { length totals.now ≡ length more.now }
    requires few { length totals.now ≤ 2 ^ 16 }
    ensures { result_err result ≡ over_bound totals.now more.now }
{
    match first_over(totals.as_slice(), more.as_slice()) {
        Some(column) => Err(column as u16),
        None => Ok(()),
    }
}

fn first_over(totals: &[u128], more: &[u128]) -> Option<usize>
    ensures within { IfSome result (λ i. i < length totals.now) }
    ensures column { result ≡ over_bound totals.now more.now }
{
    first_pair_over(totals, more)
}

fn first_pair_over(totals: &[u128], more: &[u128]) -> Option<usize>
    ensures within { IfSome result (λ i. i < length totals.now) }
    ensures column { result ≡ position (λ (p : ℕ × ℕ). nat_le sum_bound (p.0 + p.1)) (zip totals.now more.now) }
{
    totals
        .iter()
        .zip(more)
        .position(|(total, more)| total.saturating_add(*more) >= OVER_BOUND)
}

// For each sum column the absolute values of its rows, added up as far as the bound.
pub(crate) fn absolute_totals(
    alloc: Global,
    schema: &Schema,
    rows: &FlatRows,
    places: &[u32],
) -> Result<Totals, AllocError>
    ensures { IfOk result (λ totals. totals ≡ capped (abs_totals schema.now (rows_over rows.now places.now))) }
{
    let mut totals = Totals::new(alloc);
    'columns: for (place, column) in schema.values().iter().enumerate() {
        push_total(&mut totals, place, column.agg, rows, places)?;
    }
    Ok(totals)
}

// Adds the total of a column, where it is a sum.
fn push_total(
    totals: &mut Totals,
    place: usize,
    agg: Agg,
    rows: &FlatRows,
    places: &[u32],
) -> Result<(), AllocError>
    ensures { OnOk result (totals.new ≡ totals.old ++ capped (cond (is_sum agg) (abs_total place (rows_over rows.now places.now) ∷ []) [])) }
{
    match agg {
        Agg::Sum => totals.push(absolute_total(place, rows, places)),
        _ => Ok(()),
    }
}

// The absolute values of a column, added up as far as the bound.
fn absolute_total(column: usize, rows: &FlatRows, places: &[u32]) -> u128
    ensures { result ≡ min sum_bound (abs_total column (rows_over rows.now places.now)) }
{
    let mut total = 0u128;
    'places: for place in places {
        let value = absolute_value(column, rows.values(*place as usize));
        total = OVER_BOUND.min(total.saturating_add(value));
    }
    total
}

pub(crate) fn absolute_value(column: usize, values: &[Amount]) -> u128
    ensures value { result ≡ nat_abs (slice_index_or values.now column (pos 0)) }
    ensures small { result ≤ 2 ^ 127 }
{
    match values.get(column) {
        Some(value) => value.unsigned_abs(),
        None => 0,
    }
}
