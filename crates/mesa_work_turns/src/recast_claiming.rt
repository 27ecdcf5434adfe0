// What a recast is granted.
ghost use Rattle.std.specs.Prelude.{◌≡◌, ◌-◌, ◌<◌, ◌≤◌, length, None, Ok, IfErr, IfOk, OnOk, false};
ghost use Rattle.mesa_engine.specs.Failing.{is_of_device};
ghost use Rattle.mesa_write_turns.specs.mesa_history_spec.Machine.{recast_claim_of};
ghost use Rattle.mesa_engine.specs.mesa_store_spec.Catalog.{start_in, meta_at};
ghost use Rattle.mesa_lease.specs.Book.{holder};
ghost use Rattle.mesa_engine.specs.EngineState.{books_of};
ghost use Rattle.mesa_engine.specs.Failure.{cause_in};
ghost use Rattle.mesa_write_turns.specs.mesa_schema.Recasts.{recast_checked};
ghost use Rattle.mesa_write_turns.specs.mesa_history_spec.Rows.{no_rows};
ghost use Rattle.mesa_write_turns.specs.mesa_invariant_spec.Works.{HasNoClaim};
ghost use Rattle.mesa_work_turns.specs.Claims.{recast_claim_as};

use mesa_engine::{Catalog, Failure, Metadata};
use mesa_lease::TABLES;
use mesa_model::{RecastWords, Refusal};
use mesa_validate::{Regrouping, recast};
use std::alloc::Global;

// How many singletons a table may have that is recast.
const MAX_DELTAS: u32 = 1_000_000;

// What a recast is granted at a position, or why it isn't.
pub(crate) fn claim_recast(
    alloc: Global,
    metadata: &Metadata,
    words: &RecastWords,
    position: u64,
) -> Result<Regrouping, Failure>
    requires { length metadata.now.state.catalogue.tables ≤ TABLES }
    ensures claimed { IfOk result (λ x. recast_claim_of (books_of no_rows metadata.now.state).bare (books_of no_rows metadata.now.state).machine position words.now ≡ Ok (recast_claim_as metadata.now.state x)) }
    ensures there { IfOk result (λ x. x.table < length metadata.now.state.catalogue.tables) }
    ensures low { IfOk result (λ x. x.table < TABLES) }
    ensures free { IfOk result (λ x. holder metadata.now.state.leases x.table position ≡ None) }
    ensures names { IfOk result (λ x. x.names ≡ record { keys = words.now.keys; values = words.now.values }) }
    ensures checked { IfOk result (λ x. recast_checked (meta_at metadata.now.state.catalogue x.table).lineage (record { keys = x.names.keys; values = x.names.values }) ≡ Ok tt) }
    ensures opened { OnOk result (metadata.now.state.closed ≡ None) }
    ensures refused { IfErr result (λ f. HasNoClaim (books_of no_rows metadata.now.state) (recast_claim_of (books_of no_rows metadata.now.state).bare (books_of no_rows metadata.now.state).machine position words.now) (cause_in f)) }
    ensures quiet { IfErr result (λ f. is_of_device (cause_in f) ≡ false) }
{
    metadata.check_open()?;
    let catalog = metadata.catalog();
    let asked = recast(alloc, catalog, words)?;
    if let Some(lease) = metadata.holder(asked.table, position) {
        return Err(Failure::Busy { lease });
    }
    if singletons(catalog, asked.table) > MAX_DELTAS as u64 {
        let limit = MAX_DELTAS;
        return Err(Failure::Refused(Refusal::TooManyDeltas { limit }));
    }
    Ok(asked)
}

// How many singletons a table has: one for each version behind its base.
fn singletons(catalog: &Catalog, table: u16) -> u64
    requires { table < length catalog.now.catalogue.tables }
    ensures { result ≡ catalog.now.catalogue.next - start_in (meta_at catalog.now.catalogue table) }
{
    versions(catalog).saturating_sub(catalog.table(table).start())
}

// How many versions there are.
fn versions(catalog: &Catalog) -> u64
    ensures { result ≡ catalog.now.catalogue.next }
{
    match catalog.newest() {
        Some(newest) => newest as u64 + 1,
        None => 0,
    }
}
