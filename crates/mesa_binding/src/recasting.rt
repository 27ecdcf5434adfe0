// The recast that is asked of a table.
ghost use Rattle.std.specs.Prelude.{◌≡◌, Ok, IfOk, IfErr, OnOk};
ghost use Rattle.mesa_list.specs.Checks.{refused_as};
ghost use Rattle.mesa_schema.specs.Recasts.{recast_checked};
ghost use Rattle.mesa_model.specs.Refusals.{recast_refusal};
ghost use Rattle.mesa_model.specs.Tables.{recast_asked as asked_of};
ghost use Rattle.mesa_binding.specs.Told.{IsDue, recast_failure as failure_of};

use crate::failure::Failure;
use crate::viewing::{chosen_keys, names_of};
use mesa_list::Items;
use mesa_model::{RecastWords, Refusal, SchemaFault};
use mesa_schema::{Evolving, MAX_CHANGES, Name, RecastError};
use std::alloc::Global;

/// The names of the columns that a table is to have, key columns and value columns in their order.
#[derive(Drop)]
pub struct RecastNames {
    pub keys: Items<Name>,
    pub values: Items<Name>,
}

/// The columns that a recast asks of a table with these columns and views, or why it isn't done.
pub fn recast_asked(
    alloc: Global,
    evolving: &Evolving,
    words: &RecastWords,
) -> Result<RecastNames, Failure>
    ensures asked { IfOk result (λ names. names ≡ record { keys = words.now.keys; values = words.now.values }) }
    ensures checked { OnOk result (recast_checked evolving.now (asked_of words.now) ≡ Ok tt) }
    ensures refused { IfErr result (IsDue (refused_as recast_refusal (recast_checked evolving.now (asked_of words.now)))) }
{
    let keys = chosen_keys(alloc, evolving, words.keys.as_slice())?;
    let values = names_of(alloc, words.values.as_slice(), evolving.present().values())?;
    match evolving.check_recast(keys.as_slice(), values.as_slice()) {
        Ok(()) => Ok(RecastNames { keys, values }),
        Err(error) => Err(recast_failure(error)),
    }
}

/// Why a table isn't recast.
pub fn recast_failure(error: RecastError) -> Failure
    ensures { result ≡ failure_of error }
{
    let reason = match error {
        RecastError::NoColumn => return Failure::Refused(Refusal::NoColumn),
        RecastError::NoKey => SchemaFault::NoKey,
        RecastError::NoValue => SchemaFault::NoValue,
        RecastError::NameTwice => SchemaFault::NameTwice,
        RecastError::ReplaceGroup { column } => {
            return Failure::Refused(Refusal::ReplaceGroup { column });
        }
        RecastError::InView { view } => return Failure::Refused(Refusal::InView { view }),
        RecastError::EpochsFull => {
            let limit = MAX_CHANGES as u32;
            return Failure::Refused(Refusal::EpochsFull { limit });
        }
        RecastError::Memory => return Failure::Memory,
    };
    Failure::Refused(Refusal::BadSchema { reason })
}
