// The query that is asked of a relation.
ghost use Rattle.std.specs.Prelude.{◌≡◌, IfOk, IfErr, IsOk, OnOk};
ghost use Rattle.mesa_list.specs.Checks.{refused_as};
ghost use Rattle.mesa_filter.specs.Asked.{asked_of};
ghost use Rattle.mesa_filter.specs.Query.{IsQueryOf, query_of};
ghost use Rattle.mesa_model.specs.Refusals.{query_refusal};
ghost use Rattle.mesa_binding.specs.Built.{IsBuiltOf};
ghost use Rattle.mesa_binding.specs.Told.{IsDue, query_failure};

use crate::failure::Failure;
use mesa_filter::{Query, QueryError, QueryWords};
use mesa_model::Refusal;
use mesa_schema::{Name, Schema};
use std::alloc::Global;

/// Whether a relation of these columns has what a query asks of it, but for its resume key.
pub fn check_query(alloc: Global, schema: &Schema, words: &QueryWords) -> Result<(), Failure>
    ensures passes { OnOk result (IsOk (asked_of schema.now words.now)) }
    ensures refused { IfErr result (IsDue (refused_as query_refusal (asked_of schema.now words.now))) }
{
    match Query::check(alloc, schema, words) {
        Ok(()) => Ok(()),
        Err(error) => Err(failure_of(error)),
    }
}

/// The query that is asked, at a version and an epoch, of a relation of these columns, which is there: so its name is a name.
pub fn build_query(
    alloc: Global,
    schema: &Schema,
    version: u32,
    epoch: u32,
    words: &QueryWords,
) -> Result<Query, Failure>
    ensures built { IfOk result (IsBuiltOf schema.now version epoch words.now) }
    ensures sound { IfOk result (λ q. IsQueryOf schema.now q) }
    ensures refused { IfErr result (IsDue (refused_as query_refusal (query_of schema.now words.now.relation version epoch words.now))) }
{
    let Ok(name) = Name::read(alloc, words.relation.as_slice()) else {
        return Err(Failure::Memory);
    };
    match Query::build(alloc, schema, &name, version, epoch, words) {
        Ok(query) => Ok(query),
        Err(error) => Err(failure_of(error)),
    }
}

fn failure_of(error: QueryError) -> Failure
    ensures { result ≡ query_failure error }
{
    match error {
        QueryError::NoColumn => Failure::Refused(Refusal::NoColumn),
        QueryError::ReplaceGroup { column } => Failure::Refused(Refusal::ReplaceGroup { column }),
        QueryError::BadFilter { term } => Failure::Refused(Refusal::BadFilter { term }),
        QueryError::BadResume => Failure::Refused(Refusal::BadResume),
        QueryError::Memory => Failure::Memory,
    }
}
