// What is known of the rows that were written, beside their bytes.
ghost use Rattle.std.specs.Prelude.{◌≡◌, ◌<◌, ◌↔◌, List, [], ◌∷◌, ◌++◌, length, map, IsTrue, OnOk};
ghost use Rattle.mesa_columns.specs.declared.rows.Row.{Row as AnyRow};
ghost use Rattle.mesa_columns.specs.Columns.{aggs_of};
ghost use Rattle.mesa_columns.specs.Lent.{lent};
ghost use Rattle.mesa_delta_format.specs.Summary.{AllCombine, aggregates, all_noted, noted as noted_value};
ghost use Rattle.mesa_delta_format.specs.Totals.{added};
ghost use Rattle.mesa_delta_format.specs.Tallies.{Tallies};

use mesa_columns::{Agg, Amount, LentRow, Schema, ValueColumn, combine, combines, put_bytes};
use std::alloc::{AllocError, Global};

/// How many rows there are, their first and last key, and for each value column its aggregate.
#[derive(Drop)]
pub struct Tally {
    pub rows: u64,
    pub first: Vec<u8>,
    pub last: Vec<u8>,
    pub totals: Vec<Amount>,
}

impl Tally {
    /// Of no rows.
    pub fn new(alloc: Global) -> Self
        ensures rows { result.rows ≡ 0 }
        ensures first { result.first.items ≡ [] }
        ensures last { result.last.items ≡ [] }
        ensures totals { result.totals.items ≡ [] }
    {
        Tally {
            rows: 0,
            first: Vec::new(alloc),
            last: Vec::new(alloc),
            totals: Vec::new(alloc),
        }
    }

    /// Whether the row's values combine with the aggregates.
    pub fn allows(&self, schema: &Schema, row: LentRow) -> bool
        ensures { (rows : List AnyRow) → Tallies schema.now self.now rows → IsTrue result ↔ (0 < length rows → AllCombine (aggs_of schema.now) (aggregates (aggs_of schema.now) rows) row.entry.values.now) }
    {
        if self.rows == 0 {
            return true;
        }
        all_combine(schema.values(), &self.totals, row.values)
    }

    /// One row more. More rows than can be counted are answered as want of memory.
    pub fn add(&mut self, schema: &Schema, row: LentRow) -> Result<(), AllocError>
        requires values { length row.values.now ≡ length schema.now.values }
        requires sums { 0 < self.old.rows → AllCombine (aggs_of schema.now) self.old.totals.items row.values.now }
        ensures { OnOk result ((rows : List AnyRow) → Tallies schema.now self.old rows → Tallies schema.now self.new (rows ++ lent row.entry ∷ [])) }
    {
        if self.rows == 0 {
            self.begin(schema, row)
        } else {
            self.go_on(schema, row)
        }
    }

    // The first row.
    fn begin(&mut self, schema: &Schema, row: LentRow) -> Result<(), AllocError>
        requires values { length row.values.now ≡ length schema.now.values }
        requires first { self.old.rows ≡ 0 }
        ensures { OnOk result ((rows : List AnyRow) → Tallies schema.now self.old rows → Tallies schema.now self.new (rows ++ lent row.entry ∷ [])) }
    {
        put_noted(&mut self.totals, schema.values(), row.values)?;
        put_bytes(&mut self.first, row.key)?;
        put_bytes(&mut self.last, row.key)?;
        self.rows = 1;
        Ok(())
    }

    // A row behind others.
    fn go_on(&mut self, schema: &Schema, row: LentRow) -> Result<(), AllocError>
        requires values { length row.values.now ≡ length schema.now.values }
        requires later { 0 < self.old.rows }
        requires sums { AllCombine (aggs_of schema.now) self.old.totals.items row.values.now }
        ensures { OnOk result ((rows : List AnyRow) → Tallies schema.now self.old rows → Tallies schema.now self.new (rows ++ lent row.entry ∷ [])) }
    {
        let Some(rows) = self.rows.checked_add(1) else {
            return Err(AllocError);
        };
        put_bytes(&mut self.last, row.key)?;
        add_values(&mut self.totals, schema.values(), row.values);
        self.rows = rows;
        Ok(())
    }
}

// A column's aggregate of one value.
fn noted(agg: Agg, value: Amount) -> Amount
    ensures { result ≡ noted_value agg value }
{
    match agg {
        Agg::Replace => 0,
        Agg::Sum => value,
        Agg::Min => value,
        Agg::Max => value,
    }
}

// The aggregates of one row.
fn put_noted(
    totals: &mut Vec<Amount>,
    columns: &[ValueColumn],
    values: &[Amount],
) -> Result<(), AllocError>
    requires { length values.now ≡ length columns.now }
    ensures { OnOk result (totals.new.items ≡ all_noted (map (λ c. c.agg) columns.now) values.now) }
{
    totals.clear();
    for i in 0..columns.len() {
        totals.push(noted(columns[i].agg, values[i]))?;
    }
    Ok(())
}

// Whether each column's aggregate combines with the row's value.
fn all_combine(columns: &[ValueColumn], totals: &[Amount], values: &[Amount]) -> bool
    ensures { IsTrue result ↔ AllCombine (map (λ c. c.agg) columns.now) totals.now values.now }
{
    let count = columns.len().min(totals.len()).min(values.len());
    for i in 0..count {
        if !combines(columns[i].agg, totals[i], values[i]) {
            return false;
        }
    }
    true
}

// The aggregates of one row more.
fn add_values(totals: &mut [Amount], columns: &[ValueColumn], values: &[Amount])
    requires sums { AllCombine (map (λ c. c.agg) columns.now) totals.old values.now }
    requires values { length values.now ≡ length columns.now }
    ensures values { totals.new ≡ added (map (λ c. c.agg) columns.now) totals.old values.now }
    ensures len { length totals.new ≡ length totals.old }
{
    let count = columns.len().min(totals.len());
    for i in 0..count {
        let agg = columns[i].agg;
        totals[i] = noted(agg, combine(agg, totals[i], values[i]));
    }
}
