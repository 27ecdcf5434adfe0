// What a work is granted.
ghost use Rattle.std.specs.Prelude.{◌≡◌, ◌<◌, ◌≤◌, length, None, Some, Ok, IfErr, IfOk, OnOk, false};
ghost use Rattle.mesa_engine.specs.Failing.{is_of_device};
ghost use Rattle.mesa_write_turns.specs.mesa_history_spec.Machine.{claim_of};
ghost use Rattle.mesa_engine.specs.mesa_store_spec.Catalog.{ranges_of, meta_at};
ghost use Rattle.mesa_lease.specs.Book.{holder};
ghost use Rattle.mesa_engine.specs.EngineState.{books_of};
ghost use Rattle.mesa_engine.specs.Failure.{cause_in};
ghost use Rattle.mesa_write_turns.specs.mesa_history_spec.Rows.{no_rows};
ghost use Rattle.mesa_span.specs.Ranges.{base_before};
ghost use Rattle.mesa_span.specs.Work.{next_work as work_due};
ghost use Rattle.mesa_write_turns.specs.mesa_invariant_spec.Works.{HasNoClaim};
ghost use Rattle.mesa_work_turns.specs.Claims.{claim_as};

use mesa_engine::{Failure, Metadata};
use mesa_lease::TABLES;
use mesa_model::Refusal;
use mesa_span::{Work, next_work};
use mesa_validate::table_number;

/// The table of a work, and the range that it makes.
#[derive(Clone, Copy)]
pub struct Claimed {
    pub table: u16,
    pub work: Work,
}

// What a work on the table of a name is granted at a position, or why it isn't.
pub(crate) fn claim(metadata: &Metadata, name: &[u8], position: u64) -> Result<Claimed, Failure>
    requires { length metadata.now.state.catalogue.tables ≤ TABLES }
    ensures claimed { IfOk result (λ x. claim_of (books_of no_rows metadata.now.state).bare (books_of no_rows metadata.now.state).machine position name.now ≡ Ok (claim_as metadata.now.state x)) }
    ensures there { IfOk result (λ x. x.table < length metadata.now.state.catalogue.tables) }
    ensures low { IfOk result (λ x. x.table < TABLES) }
    ensures free { IfOk result (λ x. holder metadata.now.state.leases x.table position ≡ None) }
    ensures opened { OnOk result (metadata.now.state.closed ≡ None) }
    ensures next { IfOk result (λ x. work_due (ranges_of (meta_at metadata.now.state.catalogue x.table)) (meta_at metadata.now.state.catalogue x.table).oldest (base_before metadata.now.state.catalogue.next) ≡ Some x.work) }
    ensures refused { IfErr result (λ f. HasNoClaim (books_of no_rows metadata.now.state) (claim_of (books_of no_rows metadata.now.state).bare (books_of no_rows metadata.now.state).machine position name.now) (cause_in f)) }
    ensures quiet { IfErr result (λ f. is_of_device (cause_in f) ≡ false) }
{
    metadata.check_open()?;
    let catalog = metadata.catalog();
    let Some(table) = table_number(catalog, name) else {
        return Err(Failure::Refused(Refusal::NoTable { row: None }));
    };
    if let Some(lease) = metadata.holder(table, position) {
        return Err(Failure::Busy { lease });
    }
    let Ok(ranges) = catalog.ranges(table) else {
        return Err(Failure::Memory);
    };
    match next_work(&ranges, catalog.oldest(table), catalog.newest()) {
        Some(work) => Ok(Claimed { table, work }),
        None => Err(Failure::Idle),
    }
}
