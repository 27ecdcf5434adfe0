// Absolute totals of a table that is recast, and of rows that stand alone.
ghost use Rattle.std.specs.Prelude.{◌≡◌, ◌<◌, ◌++◌, [], ◌∷◌, cond, length, map, min, slice_get, slice_index_or, take, IfOk, OnOk, Some};
ghost use Rattle.mesa_schema.specs.mesa_columns.declared.columns.ValueColumn.{ValueColumn as Column};
ghost use Rattle.mesa_schema.specs.mesa_columns.Columns.{places_in};
ghost use Rattle.mesa_batch.specs.Totals.{abs_total, abs_totals, capped, chosen_totals, is_sum as adds, sum_bound, sums_in, with_total};

use crate::summing::sums_among;
use crate::totals::{OVER_BOUND, absolute_value};
use mesa_schema::{Agg, Name, Row, Schema, Totals, ValueColumn, place_of};
use std::alloc::{AllocError, Global};

/// The absolute totals of a table of these value columns once it is recast to those of these names: the totals of the sum columns that are kept, in their new order.
pub fn totals_recast(
    alloc: Global,
    columns: &[ValueColumn],
    totals: &Totals,
    names: &[Name],
) -> Result<Totals, AllocError>
    ensures { IfOk result (λ after. after ≡ chosen_totals (map (λ (c : Column). c.agg) columns.now) totals.now (places_in (map (λ (c : Column). c.name) columns.now) names.now)) }
{
    let mut after = Totals::new(alloc);
    'names: for name in names {
        push_named(&mut after, columns, totals.as_slice(), name)?;
    }
    Ok(after)
}

// Adds the total of the column of a name, where it is a sum.
fn push_named(
    after: &mut Totals,
    columns: &[ValueColumn],
    totals: &[u128],
    name: &Name,
) -> Result<(), AllocError>
    ensures { OnOk result (after.new ≡ after.old ++ chosen_totals (map (λ (c : Column). c.agg) columns.now) totals.now (places_in (map (λ (c : Column). c.name) columns.now) (name.now ∷ []))) }
{
    match place_of(name.bytes(), columns) {
        Some(place) => push_kept(after, columns, totals, place),
        None => Ok(()),
    }
}

// Adds the total of the column at a place, where it is a sum.
fn push_kept(
    after: &mut Totals,
    columns: &[ValueColumn],
    totals: &[u128],
    place: usize,
) -> Result<(), AllocError>
    requires { place < length columns.now }
    ensures { OnOk result (after.new ≡ after.old ++ with_total (slice_get (map (λ (c : Column). c.agg) columns.now) place) (slice_index_or totals.now (sums_in (take place (map (λ (c : Column). c.agg) columns.now))) 0) []) }
{
    let total = total_at(totals, sums_among(&columns[..place]));
    push_if_sum(after, columns[place].agg, total)
}

// Adds the total of a column of this kind, where it is a sum.
fn push_if_sum(after: &mut Totals, agg: Agg, total: u128) -> Result<(), AllocError>
    ensures { OnOk result (after.new ≡ after.old ++ with_total (Some agg) total []) }
{
    match agg {
        Agg::Sum => after.push(total),
        _ => Ok(()),
    }
}

fn total_at(totals: &[u128], place: usize) -> u128
    ensures { result ≡ slice_index_or totals.now place 0 }
{
    match totals.get(place) {
        Some(total) => *total,
        None => 0,
    }
}

/// For each sum column of these rows the absolute values, added up as far as the bound.
pub fn row_totals(alloc: Global, schema: &Schema, rows: &[Row]) -> Result<Totals, AllocError>
    ensures { IfOk result (λ totals. totals ≡ capped (abs_totals schema.now rows.now)) }
{
    let mut totals = Totals::new(alloc);
    'columns: for (place, column) in schema.values().iter().enumerate() {
        push_total(&mut totals, place, column.agg, rows)?;
    }
    Ok(totals)
}

// Adds the total of a column of the rows, where it is a sum.
fn push_total(totals: &mut Totals, place: usize, agg: Agg, rows: &[Row]) -> Result<(), AllocError>
    ensures { OnOk result (totals.new ≡ totals.old ++ capped (cond (adds agg) (abs_total place rows.now ∷ []) [])) }
{
    match agg {
        Agg::Sum => totals.push(row_total(place, rows)),
        _ => Ok(()),
    }
}

// The absolute values of a column of the rows, added up as far as the bound.
fn row_total(column: usize, rows: &[Row]) -> u128
    ensures { result ≡ min sum_bound (abs_total column rows.now) }
{
    let mut total = 0u128;
    'rows: for row in rows {
        let value = absolute_value(column, row.values.as_slice());
        total = OVER_BOUND.min(total.saturating_add(value));
    }
    total
}
