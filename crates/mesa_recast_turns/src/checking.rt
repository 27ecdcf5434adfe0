// Whether a recast may be done still.
ghost use Rattle.std.specs.Prelude.{◌≡◌, ◌<◌, length, Ok, IfErr, OnOk};
ghost use Rattle.mesa_work_turns.specs.mesa_history_spec.Machine.{claim_checked, still_checked};
ghost use Rattle.mesa_engine.specs.mesa_store_spec.Catalog.{meta_at};
ghost use Rattle.mesa_engine.specs.EngineState.{books_of};
ghost use Rattle.mesa_work_turns.specs.mesa_history_spec.Rows.{no_rows};
ghost use Rattle.mesa_open_files.specs.Recasts.{claim_of_recast, recast_in};
ghost use Rattle.mesa_recast_turns.specs.Unfit.{HasNotRecast, unfit_of};

use mesa_engine::Metadata;
use mesa_engine::binding::{Failure, recast_failure};
use mesa_lease::TABLES;
use mesa_model::Refusal;
use mesa_open_files::Recast;
use mesa_work_turns::check;

// Why a table isn't recast, before the disk is called.
#[derive(Drop)]
pub(crate) enum Unfit {
    // The vault has closed, or the lease is lost.
    Lost(Refusal),
    // The table isn't the one that was granted any more, or a view needs a column that would go.
    Changed(Refusal),
    Memory,
}

// Whether the claim of a recast holds in the turn at a position and the rules allow the recast still, or why it isn't done.
pub(crate) fn check_recast<R>(
    metadata: &Metadata,
    task: &Recast<R>,
    position: u64,
) -> Result<(), Unfit>
    requires table { task.now.table < TABLES }
    requires there { task.now.table < length metadata.now.state.catalogue.tables }
    ensures held { OnOk result (claim_checked (books_of no_rows metadata.now.state).bare (books_of no_rows metadata.now.state).machine position (claim_of_recast task.now) ≡ Ok tt) }
    ensures still { OnOk result (still_checked (meta_at metadata.now.state.catalogue task.now.table).lineage task.now.epoch (recast_in task.now) ≡ Ok tt) }
    ensures refused { IfErr result (HasNotRecast (books_of no_rows metadata.now.state) position (claim_of_recast task.now) task.now.epoch (recast_in task.now)) }
{
    if let Err(refusal) = check(metadata, task.table, task.lease, position) {
        return Err(Unfit::Lost(refusal));
    }
    let evolving = metadata.catalog().evolving(task.table);
    let epoch = evolving.epoch();
    if epoch != task.epoch {
        return Err(Unfit::Changed(Refusal::Changed { epoch }));
    }
    match evolving.check_recast(task.keys.as_slice(), task.values.as_slice()) {
        Ok(()) => Ok(()),
        Err(error) => Err(ruled_out(recast_failure(error))),
    }
}

// Why the rules don't allow a recast any more.
fn ruled_out(failure: Failure) -> Unfit
    ensures { result ≡ unfit_of failure }
{
    match failure {
        Failure::Refused(refusal) => Unfit::Changed(refusal),
        Failure::Memory => Unfit::Memory,
    }
}
