// The absolute values of columns, added up row by row.
ghost use Rattle.std.specs.Prelude.{◌≡◌, ◌^◌, ◌-◌, ◌+◌, ◌<◌, ◌++◌, [], ◌∷◌, ℕ, List, min, nat_abs, pos, cond, length, get_or, map, slice_index_or, IfOk, OnOk};
ghost use Rattle.mesa_open_files.specs.mesa_batch.Totals.{abs_total, abs_totals, is_sum};
ghost use Rattle.mesa_open_files.specs.mesa_columns.declared.rows.Row.{Row as AnyRow};
ghost use Rattle.mesa_open_files.specs.mesa_columns.Columns.{Columns};
ghost use Rattle.mesa_examine.specs.Sums.{AreTotals, counted, most};

use mesa_schema::{Agg, Amount, Items, Schema, ValueColumn};
use std::alloc::{AllocError, Global};

/// For each sum column of a file's epoch the absolute values of its rows, added up, and for each present one those of its rows at present. A total of 2^128 or more stands as 2^128 - 1.
#[derive(Drop)]
pub struct Sums {
    pub own: Items<u128>,
    pub present: Items<u128>,
}

/// Totals of as many columns, over no rows.
pub(crate) fn no_totals(alloc: Global, columns: usize) -> Result<Vec<u128>, AllocError>
    ensures { IfOk result (λ totals. AreTotals columns totals.items []) }
{
    vec![in alloc; 0; columns]
}

/// A row's absolute values more.
pub(crate) fn add_absolutes(totals: &mut [u128], values: &[Amount])
    ensures len { length totals.new ≡ length totals.old }
    ensures each { (j : ℕ) → j < length totals.old → get_or totals.new j 0 ≡ min most (get_or totals.old j 0 + nat_abs (slice_index_or values.now j (pos 0))) }
{
    for i in 0..totals.len() {
        totals[i] = totals[i].saturating_add(absolute_at(values, i));
    }
}

fn absolute_at(values: &[Amount], column: usize) -> u128
    ensures { result ≡ nat_abs (slice_index_or values.now column (pos 0)) }
{
    match values.get(column) {
        Some(value) => value.unsigned_abs(),
        None => 0,
    }
}

/// Of the totals of all columns those of the sum columns.
pub(crate) fn sum_totals(
    alloc: Global,
    schema: &Schema,
    totals: &[u128],
) -> Result<Items<u128>, AllocError>
    requires { length totals.now ≡ length schema.now.values }
    ensures { IfOk result (λ sums. (rows : List AnyRow) → AreTotals (length schema.now.values) totals.now rows → sums ≡ counted (abs_totals schema.now rows)) }
{
    let mut sums = Items::new(alloc);
    'columns: for (place, column) in schema.values().iter().enumerate() {
        push_sum(&mut sums, column.agg, totals[place])?;
    }
    Ok(sums)
}

// Adds a column's total, where it is a sum.
fn push_sum(sums: &mut Items<u128>, agg: Agg, total: u128) -> Result<(), AllocError>
    ensures { OnOk result (sums.new ≡ sums.old ++ cond (is_sum agg) (total ∷ []) []) }
{
    match agg {
        Agg::Sum => sums.push(total),
        _ => Ok(()),
    }
}
