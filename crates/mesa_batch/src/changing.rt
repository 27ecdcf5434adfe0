// What a change of a schema makes of a table's totals.
ghost use Rattle.std.specs.Prelude.{◌≡◌, ◌≤◌, IfOk, length, map};
ghost use Rattle.mesa_schema.specs.mesa_columns.declared.columns.ValueColumn.{ValueColumn as Column};
ghost use Rattle.mesa_batch.specs.Totals.{totals_after, totals_without};

use crate::summing::sums_among;
use mesa_list::{Items, TryCopy};
use mesa_schema::{Change, Schema, Totals, ValueColumn, place_of};
use std::alloc::AllocError;

/// The absolute totals of a table of these columns after a change of them: a new sum column has none yet, and one that goes takes its own along.
pub fn totals_changed(
    schema: &Schema,
    change: &Change,
    totals: &Totals,
) -> Result<Totals, AllocError>
    ensures { IfOk result (λ after. after ≡ totals_after schema.now change.now totals.now) }
{
    let columns = schema.values();
    match change {
        Change::AddValue { column, .. } => {
            let mut after = totals.copy()?;
            if column.agg.is_sum() {
                after.push(0)?;
            }
            Ok(after)
        }
        Change::DropValue { name } => {
            let place = place_of(name.bytes(), columns).unwrap_or(columns.len());
            without_column(totals, columns, place)
        }
        Change::AddKey { .. } => totals.copy(),
    }
}

// Without that of the column at a place, which has one if it is a sum.
fn without_column(
    totals: &Totals,
    columns: &[ValueColumn],
    place: usize,
) -> Result<Totals, AllocError>
    requires { place ≤ length columns.now }
    ensures { IfOk result (λ after. after ≡ totals_without (map (λ (c : Column). c.agg) columns.now) place totals.now) }
{
    let alloc = totals.allocator();
    let totals = totals.as_slice();
    let before = sums_among(&columns[..place]).min(totals.len());
    let through = sums_among(&columns[..columns.len().min(place + 1)]).min(totals.len());
    let mut after = Vec::from_slice(alloc, &totals[..before])?;
    after.extend_from_slice(&totals[through..])?;
    Ok(Items::from_vec(after))
}
