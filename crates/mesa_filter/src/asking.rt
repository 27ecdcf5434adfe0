// What a query asks of a relation.
ghost use Rattle.std.specs.Prelude.{◌≡◌, ◌==◌, ◌≢◌, IsTrue, IfOk, IfErr, Ok, Err, None, find};
ghost use Rattle.std.specs.List.{list_any};
ghost use Rattle.std.specs.Option.{option_copied};
ghost use Rattle.mesa_fold.specs.mesa_columns.Columns.{chosen, is_replace as replaces, kinds_of};
ghost use Rattle.mesa_filter.specs.Asked.{asked_of, filter_refusal, lists_all_keys as lists_keys, replace_asked as replace_among};
ghost use Rattle.mesa_filter.specs.Query.{are_places};

use crate::places::{Places, group_places, value_places};
use crate::{Filter, FilterError, QueryError, QueryWords};
use mesa_fold::{Agg, Schema, ValueColumn};
use mesa_list::TryCopy;
use std::alloc::{AllocError, Global};

/// The places of a query's group columns and value columns, and its filter.
#[derive(Drop)]
pub(crate) struct Asking {
    pub(crate) columns: Places,
    pub(crate) values: Places,
    pub(crate) filter: Filter,
}

impl TryCopy for Asking {
    fn copy(&self) -> Result<Self, AllocError> {
        Ok(Asking {
            columns: self.columns.copy()?,
            values: self.values.copy()?,
            filter: self.filter.copy()?,
        })
    }
}

impl From<AllocError> for QueryError {
    ghost use Rattle.mesa_filter.specs.declared.words.QueryError.TheVariants.{Memory};

    ghost from_gives = { λ _ e. e ≡ Memory };

    fn from(_: AllocError) -> Self {
        QueryError::Memory
    }
}

impl From<FilterError> for QueryError {
    ghost use Rattle.mesa_filter.specs.Asked.{filter_refusal};

    ghost from_gives = { λ fault e. e ≡ filter_refusal fault };

    fn from(fault: FilterError) -> Self {
        match fault {
            FilterError::NoColumn { .. } => QueryError::NoColumn,
            FilterError::BadLiteral { term } | FilterError::BadForm { term } => {
                QueryError::BadFilter { term }
            }
            FilterError::Memory => QueryError::Memory,
        }
    }
}

// What the words ask of a relation of the schema, or the first refusal.
pub(crate) fn what_is_asked(
    alloc: Global,
    schema: &Schema,
    words: &QueryWords,
) -> Result<Asking, QueryError>
    ensures asked { IfOk result (λ a. asked_of schema.now words.now ≡ Ok (record { columns = a.columns; values = a.values; terms = a.filter.terms })) }
    ensures kinds { IfOk result (λ a. a.filter.kinds ≡ kinds_of schema.now) }
    ensures columns { IfOk result (λ a. IsTrue (are_places schema.now.keys a.columns)) }
    ensures values { IfOk result (λ a. IsTrue (are_places schema.now.values a.values)) }
    ensures replace { IfOk result (λ a. replace_among schema.now a.columns a.values ≡ None) }
    ensures refused { IfErr result (λ e. e ≢ QueryError.Memory → asked_of schema.now words.now ≡ Err e) }
{
    let columns = group_places(alloc, schema, words.group.as_slice())?;
    let values = value_places(alloc, schema, words.values.as_slice())?;
    if let Some(column) = replace_asked(schema, columns.as_slice(), values.as_slice()) {
        let column = column.name.copy()?;
        return Err(QueryError::ReplaceGroup { column });
    }
    let filter = Filter::parse(alloc, schema, words.filter.as_slice())?;
    Ok(Asking {
        columns,
        values,
        filter,
    })
}

// The first replace column that is asked without every key column.
fn replace_asked<'a>(schema: &'a Schema, columns: &[u16], values: &[u16]) -> Option<&'a ValueColumn>
    ensures { option_copied result ≡ replace_among schema.now columns.now values.now }
{
    if lists_all_keys(schema, columns) {
        return None;
    }
    first_replace(schema.values(), values)
}

// The first of these columns, by their places, that is a replace column.
fn first_replace<'a>(columns: &'a [ValueColumn], places: &[u16]) -> Option<&'a ValueColumn>
    ensures { option_copied result ≡ find replaces (chosen places.now columns.now) }
{
    for place in places {
        if let Some(column) = columns.get(*place as usize) {
            if is_replace(column) {
                return Some(column);
            }
        }
    }
    None
}

fn is_replace(column: &ValueColumn) -> bool
    ensures { result ≡ replaces column.now }
{
    matches!(column.agg, Agg::Replace)
}

// Whether every key column stands among these places.
fn lists_all_keys(schema: &Schema, columns: &[u16]) -> bool
    ensures { result ≡ lists_keys schema.now columns.now }
{
    let keys = schema.keys();
    for place in 0..keys.len() {
        if !is_among(place, columns) {
            return false;
        }
    }
    true
}

fn is_among(place: usize, columns: &[u16]) -> bool
    ensures { result ≡ list_any (λ column. column == place) columns.now }
{
    columns.iter().any(|column| *column as usize == place)
}
