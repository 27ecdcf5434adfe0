// The filter that is asked of a relation.
ghost use Rattle.std.specs.Prelude.{◌≡◌, Ok, IfOk, IfErr};
ghost use Rattle.mesa_list.specs.Checks.{refused_as};
ghost use Rattle.mesa_filter.specs.Asked.{filter_refusal};
ghost use Rattle.mesa_filter.specs.Filter.{filter_of};
ghost use Rattle.mesa_model.specs.Refusals.{query_refusal};
ghost use Rattle.mesa_binding.specs.Told.{IsDue, query_failure};

use crate::failure::Failure;
use mesa_filter::{Filter, FilterError};
use mesa_model::Refusal;
use mesa_schema::Schema;
use std::alloc::Global;

/// The filter that a text spells over the key columns of a relation, or why it is none.
pub fn read_filter(alloc: Global, schema: &Schema, text: &[u8]) -> Result<Filter, Failure>
    ensures terms { IfOk result (λ f. filter_of schema.now text.now ≡ Ok f.terms) }
    ensures refused { IfErr result (IsDue (refused_as query_refusal (refused_as filter_refusal (filter_of schema.now text.now)))) }
{
    match Filter::parse(alloc, schema, text) {
        Ok(filter) => Ok(filter),
        Err(error) => Err(failure_of(error)),
    }
}

fn failure_of(error: FilterError) -> Failure
    ensures { result ≡ query_failure (filter_refusal error) }
{
    match error {
        FilterError::NoColumn { .. } => Failure::Refused(Refusal::NoColumn),
        FilterError::BadLiteral { term } | FilterError::BadForm { term } => {
            Failure::Refused(Refusal::BadFilter { term })
        }
        FilterError::Memory => Failure::Memory,
    }
}
