// What the rows of a file come to, tallied row by row.
ghost use Rattle.std.specs.Prelude.{◌≡◌, ◌<◌, [], ◌∷◌, ◌++◌, ℕ, List, length, map, IfOk, OnOk};
ghost use Rattle.mesa_open_files.specs.mesa_columns.declared.rows.Row.{Row as AnyRow};
ghost use Rattle.mesa_open_files.specs.mesa_columns.declared.lifting.Lift.{Lift as AnyLift};
ghost use Rattle.mesa_open_files.specs.mesa_columns.Columns.{Columns};
ghost use Rattle.mesa_open_files.specs.mesa_delta_format.Summary.{all_noted};
ghost use Rattle.mesa_open_files.specs.mesa_delta_format.Totals.{added};
ghost use Rattle.mesa_examine.specs.Tallies.{AreEnds, Tallies};

use crate::aggregate::Aggregate;
use crate::totals::{add_absolutes, no_totals};
use mesa_schema::{Amount, Lift, Row, Schema, ValueColumn, put_bytes};
use std::alloc::{AllocError, Global};

/// How many rows there are, their first and last key, and for each value column its aggregate.
#[derive(Drop)]
pub(crate) struct Ends {
    pub rows: u64,
    pub first: Vec<u8>,
    pub last: Vec<u8>,
    pub aggregates: Vec<Aggregate>,
}

/// That, and the absolute values of each value column added up, of the rows as they are and as they are lifted.
#[derive(Drop)]
pub(crate) struct Tally {
    pub ends: Ends,
    pub own: Vec<u128>,
    pub present: Vec<u128>,
    // Room for a row as it is lifted.
    lifted: Row,
}

impl Tally {
    /// Of no rows, which have so many value columns, and so many lifted.
    pub fn new(alloc: Global, own: usize, present: usize) -> Result<Self, AllocError>
        ensures { IfOk result (λ t. (s : Columns) (lift : AnyLift) → length s.values ≡ own → Tallies s lift present t []) }
    {
        let own = no_totals(alloc, own)?;
        let present = no_totals(alloc, present)?;
        Ok(Tally {
            ends: Ends::new(alloc),
            own,
            present,
            lifted: Row::empty(alloc),
        })
    }

    /// One row more.
    pub fn add(&mut self, schema: &Schema, lift: &Lift, row: &Row) -> Result<(), AllocError>
        requires { length row.now.values ≡ length schema.now.values }
        ensures { OnOk result ((present : ℕ) (rows : List AnyRow) → Tallies schema.now lift.now present self.old rows → Tallies schema.now lift.now present self.new (rows ++ row.now ∷ [])) }
    {
        self.ends.add(schema, row)?;
        add_absolutes(&mut self.own, row.values.as_slice());
        lift.put(row.lend(), &mut self.lifted)?;
        add_absolutes(&mut self.present, self.lifted.values.as_slice());
        Ok(())
    }
}

impl Ends {
    // Of no rows.
    fn new(alloc: Global) -> Self
        ensures rows { result.rows ≡ 0 }
        ensures first { result.first.items ≡ [] }
        ensures last { result.last.items ≡ [] }
        ensures aggregates { result.aggregates.items ≡ [] }
    {
        Ends {
            rows: 0,
            first: Vec::new(alloc),
            last: Vec::new(alloc),
            aggregates: Vec::new(alloc),
        }
    }

    // One row more. More rows than can be counted are answered as want of memory.
    fn add(&mut self, schema: &Schema, row: &Row) -> Result<(), AllocError>
        requires { length row.now.values ≡ length schema.now.values }
        ensures { OnOk result ((rows : List AnyRow) → AreEnds schema.now self.old rows → AreEnds schema.now self.new (rows ++ row.now ∷ [])) }
    {
        if self.rows == 0 {
            self.begin(schema, row)
        } else {
            self.go_on(schema, row)
        }
    }

    // The first row.
    fn begin(&mut self, schema: &Schema, row: &Row) -> Result<(), AllocError>
        requires values { length row.now.values ≡ length schema.now.values }
        requires first { self.old.rows ≡ 0 }
        ensures { OnOk result ((rows : List AnyRow) → AreEnds schema.now self.old rows → AreEnds schema.now self.new (rows ++ row.now ∷ [])) }
    {
        put_noted(&mut self.aggregates, schema.values(), row.values.as_slice())?;
        put_bytes(&mut self.first, row.key.as_slice())?;
        put_bytes(&mut self.last, row.key.as_slice())?;
        self.rows = 1;
        Ok(())
    }

    // A row behind others.
    fn go_on(&mut self, schema: &Schema, row: &Row) -> Result<(), AllocError>
        requires values { length row.now.values ≡ length schema.now.values }
        requires later { 0 < self.old.rows }
        ensures { OnOk result ((rows : List AnyRow) → AreEnds schema.now self.old rows → AreEnds schema.now self.new (rows ++ row.now ∷ [])) }
    {
        let Some(rows) = self.rows.checked_add(1) else {
            return Err(AllocError);
        };
        add_values(&mut self.aggregates, schema.values(), row.values.as_slice())?;
        put_bytes(&mut self.last, row.key.as_slice())?;
        self.rows = rows;
        Ok(())
    }
}

// The aggregates of one row.
fn put_noted(
    aggregates: &mut Vec<Aggregate>,
    columns: &[ValueColumn],
    values: &[Amount],
) -> Result<(), AllocError>
    requires { length values.now ≡ length columns.now }
    ensures { OnOk result (aggregates.new.items ≡ all_noted (map (λ c. c.agg) columns.now) values.now) }
{
    aggregates.clear();
    for i in 0..columns.len() {
        aggregates.push(Aggregate::of(columns[i].agg, values[i]))?;
    }
    Ok(())
}

// The aggregates of one row more.
fn add_values(
    aggregates: &mut [Aggregate],
    columns: &[ValueColumn],
    values: &[Amount],
) -> Result<(), AllocError>
    requires { length values.now ≡ length columns.now }
    ensures values { OnOk result (aggregates.new ≡ added (map (λ c. c.agg) columns.now) aggregates.old values.now) }
    ensures len { length aggregates.new ≡ length aggregates.old }
{
    let count = columns.len().min(aggregates.len());
    for i in 0..count {
        match aggregates[i].with(columns[i].agg, values[i]) {
            Some(aggregate) => aggregates[i] = aggregate,
            None => return Err(AllocError),
        }
    }
    Ok(())
}
