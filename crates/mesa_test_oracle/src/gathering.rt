// A load's rows gathered into a batch.
ghost use Rattle.std.specs.Prelude.{◌≡◌, List, Ok, IfOk, IfErr};
ghost use Rattle.mesa_list.specs.Checks.{refused_as};
ghost use Rattle.mesa_batch.specs.Batch.{Placed as PlacedRow, batch_of};
ghost use Rattle.mesa_batch.specs.Glance.{tables_of};
ghost use Rattle.mesa_model.specs.Refusals.{batch_refusal};
ghost use Rattle.mesa_oracle_tables.specs.Grown.{HasRows, IsBatchOf};
ghost use Rattle.mesa_binding.specs.Told.{IsDue, batch_failure};

use mesa_batch::{Batch, BatchBuilder, BatchError, Glance, LoadRows};
use mesa_binding::Failure;
use mesa_model::Refusal;
use std::alloc::{AllocError, Global};

// The batch of a load's rows, or its first refusal.
pub(crate) fn gather(alloc: Global, glance: &Glance, rows: &LoadRows) -> Result<Batch, Failure>
    ensures rows { IfOk result (λ batch. (placed : List PlacedRow) × ((batch_of (tables_of glance.now) rows.now ≡ Ok placed) × HasRows placed batch)) }
    ensures batch { IfOk result (λ batch. IsBatchOf glance.now.tables batch) }
    ensures refused { IfErr result (IsDue (refused_as batch_refusal (batch_of (tables_of glance.now) rows.now))) }
{
    let mut builder = BatchBuilder::new(alloc);
    'rows: for place in 0..rows.len() {
        if let Err(error) = builder.row(glance, &rows.row(place)) {
            // A key that came twice before the row goes first.
            let first = builder.finish().err().unwrap_or(error);
            return Err(refusal_of(first));
        }
    }
    match builder.finish() {
        Ok(batch) => Ok(batch),
        Err(error) => Err(refusal_of(error)),
    }
}

fn refusal_of(error: BatchError) -> Failure
    ensures { result ≡ batch_failure error }
{
    match error {
        BatchError::NoTable { row } => Failure::Refused(Refusal::NoTable { row: Some(row) }),
        BatchError::BadRow { row, column } => Failure::Refused(Refusal::BadRow { row, column }),
        BatchError::DuplicateKey { first, second } => {
            Failure::Refused(Refusal::DuplicateKey { first, second })
        }
        BatchError::Memory => Failure::Memory,
    }
}
