// What files a batch is to have.
ghost use Rattle.std.specs.Prelude.{◌≡◌, ◌<◌, ◌+◌, ◌++◌, List, length, map, take, nat_le, IfOk, OnOk};
ghost use Rattle.std.specs.List.{AllByRecursion, list_any};
ghost use Rattle.mesa_schema.specs.Changes.{columns_of};
ghost use Rattle.mesa_batch.specs.Batch.{Placed as PlacedRow};
ghost use Rattle.mesa_batch.specs.Gathered.{rows_at};
ghost use Rattle.mesa_batch.specs.Totals.{sum_bound};
ghost use Rattle.mesa_load.specs.Filing.{AreFileRows};
ghost use Rattle.mesa_load.specs.FilesToWrite.{IsFit, content_in};
ghost use Rattle.mesa_load.specs.Plans.{IsBatched, IsPlan, table_contents};

use crate::building::FileToWrite;
use mesa_batch::{Batch, Glance, OVER_BOUND};
use mesa_schema::{Evolving, Totals, folds_by_key};
use std::alloc::{AllocError, Global};

/// A table's part of a batch, before its files are written.
#[derive(Drop)]
pub(crate) struct Planned {
    pub table: u16,
    /// How many views the table has.
    pub views: u8,
    pub totals: Totals,
}

/// The parts of a batch, and the files that they are to have: of each part the table's, and then its views'.
#[derive(Drop)]
pub(crate) struct Plan<'a> {
    pub parts: Vec<Planned>,
    pub jobs: Vec<FileToWrite<'a>>,
    /// A total of the batch passes the bound by itself: it is to have no file.
    pub over: bool,
}

/// The parts and files of a batch that was read by the tables of this glance.
pub(crate) fn plan_batch<'a>(
    alloc: Global,
    glance: &'a Glance,
    batch: &'a Batch,
) -> Result<Plan<'a>, AllocError>
    ensures { IfOk result (λ plan. (rows : List PlacedRow) → IsBatched glance.now rows batch.now → IsPlan rows glance.now.tables plan) }
{
    let mut plan = Plan {
        parts: Vec::new(alloc),
        jobs: Vec::new(alloc),
        over: false,
    };
    'tables: for table in 0..glance.len() {
        let Ok(table) = u16::try_from(table) else {
            // No glance has a table that a number of 16 bits doesn't name.
            return Err(AllocError);
        };
        add_table(&mut plan, glance, batch, table)?;
    }
    Ok(plan)
}

// Adds a table's part, if the batch has rows of it.
fn add_table<'a>(
    plan: &mut Plan<'a>,
    glance: &'a Glance,
    batch: &'a Batch,
    table: u16,
) -> Result<(), AllocError>
    requires { table < length glance.now.tables }
    ensures { OnOk result ((rows : List PlacedRow) → IsBatched glance.now rows batch.now → IsPlan rows (take table glance.now.tables) plan.old → IsPlan rows (take (table + 1) glance.now.tables) plan.new) }
{
    folds_by_key();
    let count = batch.count(table);
    if count == 0 {
        return Ok(());
    }
    let evolving: &Evolving = glance.evolving(table);
    let totals = batch.abs_totals(table)?;
    plan.over = plan.over || is_over(&totals);
    plan.parts.push(Planned {
        table,
        views: evolving.views(),
        totals,
    })?;
    add_jobs(&mut plan.jobs, evolving, batch, table)
}

// Whether one of these totals passes the bound by itself.
fn is_over(totals: &Totals) -> bool
    ensures { result ≡ list_any (λ total. nat_le sum_bound total) totals.now }
{
    totals.as_slice().iter().any(|total| *total >= OVER_BOUND)
}

// Adds the files of a table with these rows: its own, and then its views'.
fn add_jobs<'a>(
    jobs: &mut Vec<FileToWrite<'a>>,
    evolving: &'a Evolving,
    batch: &'a Batch,
    table: u16,
) -> Result<(), AllocError>
    requires { 0 < length (rows_at table batch.now) }
    ensures contents { OnOk result (map content_in jobs.new.items ≡ map content_in jobs.old.items ++ table_contents evolving.now (rows_at table batch.now)) }
    ensures fit { OnOk result (AreFileRows (columns_of evolving.now) (rows_at table batch.now) → AllByRecursion IsFit jobs.old.items → AllByRecursion IsFit jobs.new.items) }
{
    jobs.push(FileToWrite {
        evolving,
        view: None,
        batch,
        table,
    })?;
    'views: for view in 0..evolving.views() {
        jobs.push(FileToWrite {
            evolving,
            view: Some(view),
            batch,
            table,
        })?;
    }
    Ok(())
}
