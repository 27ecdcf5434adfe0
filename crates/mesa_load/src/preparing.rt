// A load's rows as a batch with its files.
ghost use Rattle.std.specs.Prelude.{◌≡◌, ◌≢◌, ◌≤◌, ℕ, List, map, Ok, Err, IfOk, IfErr, IsOk, IsTrue, OnOk, false, true};
ghost use Rattle.std.specs.List.{AllByRecursion, list_any};
ghost use Rattle.mesa_batch.specs.Batch.{Placed as PlacedRow, batch_of};
ghost use Rattle.mesa_batch.specs.Glance.{tables_of};
ghost use Rattle.mesa_open_files.specs.Batches.{AreParts, IsPrepared, batch_ids, is_over, made_ids, shares};
ghost use Rattle.mesa_file.specs.Serials.{AreNext, after_drafts};
ghost use Rattle.mesa_load.specs.Collected.{IsUnwritten};
ghost use Rattle.mesa_load.specs.FilesToWrite.{IsFit, content_in};
ghost use Rattle.mesa_load.specs.Plans.{HaveFiles, IsBatched, IsRead};
ghost use Rattle.mesa_load.specs.Preparing.{IsReason};

use crate::building::write_all;
use crate::collecting::collect;
use crate::drafts::open_drafts;
use crate::parts::filed_parts;
use crate::planning::{Plan, plan_batch};
use mesa_batch::{Batch, BatchBuilder, BatchError, Glance, LoadRows, goes_row_by_row, keeps_forms};
use mesa_disk::{Bench, Made};
use mesa_file::Serials;
use mesa_open_files::{LoadError, MadeFile, Prepared, PreparedPart};
use std::alloc::Global;
use std::thread::Threads;

/// Reads a load's rows by the tables of a glance and writes their files, for each table with rows its own and one for
/// each of its views, side by side: all drafts are opened before the first file is built. Where a total of the batch
/// passes the bound by itself no draft is opened. After an `Err` no draft is left.
pub fn prepare<R: Threads + Sync, M: Made, B: Bench<M>>(
    rt: &R,
    alloc: Global,
    bench: &mut B,
    ids: &mut Serials,
    glance: &Glance,
    rows: &LoadRows,
) -> Result<Prepared<M>, LoadError>
    // Rows that make a batch are prepared just so.
    ensures batch { OnOk result (IsOk (batch_of (tables_of glance.now) rows.now)) }
    ensures prepared { IfOk result (λ p. (batch : List PlacedRow) → batch_of (tables_of glance.now) rows.now ≡ Ok batch → IsPrepared M.bytes M.id_of glance.now batch p) }

    // Each error has its cause.
    ensures refused { IfErr result (IsReason (batch_of (tables_of glance.now) rows.now) (B.faults bench.old) (B.faults bench.new)) }
    ensures quiet { OnOk result (B.faults bench.new ≡ B.faults bench.old) }

    // The files have the next ids, in their order, and where a total passes the bound none is drawn.
    ensures numbered { IfOk result (λ p. AreNext ids.old ids.new (batch_ids M.id_of p.parts.items)) }
    ensures ids { (n : ℕ) × (ids.new ≡ after_drafts n ids.old) }
    ensures undrawn { (batch : List PlacedRow) → batch_of (tables_of glance.now) rows.now ≡ Ok batch → IsTrue (list_any is_over (shares glance.now batch)) → ids.new ≡ ids.old }
{
    let batch = read_batch(alloc, glance, rows)?;
    let parts = build_parts(rt, alloc, bench, ids, glance, &batch)?;
    Ok(Prepared {
        generation: glance.generation(),
        parts,
    })
}

// The rows by their tables.
fn read_batch(alloc: Global, glance: &Glance, rows: &LoadRows) -> Result<Batch, BatchError>
    ensures read { IfOk result (λ b. IsRead (batch_of (tables_of glance.now) rows.now) glance.now b) }
    ensures refused { IfErr result (λ e. e ≢ BatchError.Memory → batch_of (tables_of glance.now) rows.now ≡ Err e) }
{
    keeps_forms();
    goes_row_by_row();
    let mut builder = BatchBuilder::new(alloc);
    'rows: for i in 0..rows.len() {
        match builder.row(glance, &rows.row(i)) {
            Ok(()) => {}
            // A key that came twice before the row goes first.
            Err(error) => return Err(builder.finish().err().unwrap_or(error)),
        }
    }
    let batch = builder.finish()?;
    Ok(batch)
}

// The parts of a batch that was read by the tables of a glance, with their files.
fn build_parts<R: Threads + Sync, M: Made, B: Bench<M>>(
    rt: &R,
    alloc: Global,
    bench: &mut B,
    ids: &mut Serials,
    glance: &Glance,
    batch: &Batch,
) -> Result<Vec<PreparedPart<M>>, LoadError>
    requires { (rows : List PlacedRow) × IsBatched glance.now rows batch.now }
    ensures parts { IfOk result (λ parts. (rows : List PlacedRow) → IsBatched glance.now rows batch.now → AreParts M.bytes M.id_of (list_any is_over (shares glance.now rows)) (shares glance.now rows) parts.items) }
    ensures numbered { IfOk result (λ parts. AreNext ids.old ids.new (batch_ids M.id_of parts.items)) }
    ensures ids { (n : ℕ) × (ids.new ≡ after_drafts n ids.old) }
    ensures undrawn { (rows : List PlacedRow) → IsBatched glance.now rows batch.now → IsTrue (list_any is_over (shares glance.now rows)) → ids.new ≡ ids.old }
    ensures later { B.faults bench.old ≤ B.faults bench.new }
    ensures quiet { OnOk result (B.faults bench.new ≡ B.faults bench.old) }
    ensures refused { IfErr result (IsUnwritten (B.faults bench.old) (B.faults bench.new)) }
{
    let plan = plan_batch(alloc, glance, batch)?;
    let files = build(rt, alloc, bench, ids, &plan)?;
    Ok(filed_parts(alloc, plan.parts, files)?)
}

// The files of a plan, in their order.
fn build<R: Threads + Sync, M: Made, B: Bench<M>>(
    rt: &R,
    alloc: Global,
    bench: &mut B,
    ids: &mut Serials,
    plan: &Plan,
) -> Result<Vec<MadeFile<M>>, LoadError>
    requires { plan.now.over ≡ false → AllByRecursion IsFit plan.now.jobs.items }
    ensures made { IfOk result (λ files. HaveFiles M.bytes M.id_of plan.now.over (map content_in plan.now.jobs.items) files.items) }
    ensures numbered { IfOk result (λ files. AreNext ids.old ids.new (made_ids M.id_of files.items)) }
    ensures ids { (n : ℕ) × (ids.new ≡ after_drafts n ids.old) }
    ensures undrawn { plan.now.over ≡ true → ids.new ≡ ids.old }
    ensures later { B.faults bench.old ≤ B.faults bench.new }
    ensures quiet { OnOk result (B.faults bench.new ≡ B.faults bench.old) }
    ensures refused { IfErr result (IsUnwritten (B.faults bench.old) (B.faults bench.new)) }
{
    if plan.over {
        return Ok(Vec::new(alloc));
    }
    let count = plan.jobs.len();
    let files = Vec::with_capacity(alloc, count)?;
    let drafts = open_drafts(alloc, bench, ids, count)?;
    let written = write_all(rt, alloc, &plan.jobs, drafts);
    collect(bench, written, files)
}
