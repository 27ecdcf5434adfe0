// The places of the columns that a query asks.
ghost use Rattle.std.specs.Prelude.{◌≡◌, ◌≢◌, ◌≤◌, ◌<◌, ◌^◌, IsTrue, IfOk, IfErr, length, map, Ok, Err};
ghost use Rattle.std.specs.Option.{ok_or};
ghost use Rattle.mesa_list.specs.Split.{split_at};
ghost use Rattle.mesa_fold.specs.mesa_columns.Columns.{place_of as place_among, places_in};
ghost use Rattle.mesa_filter.specs.Asked.{group_columns, places_below, places_of, value_columns};
ghost use Rattle.mesa_filter.specs.Query.{are_places};

use crate::QueryError;
use mesa_fold::{Name, Named, Schema, place_of};
use mesa_list::{Items, Parts};
use std::alloc::{AllocError, Global};

/// Places of columns among those of their sort.
pub(crate) type Places = Items<u16>;

// The places of the group columns: no words ask for all key columns, and `-` for none.
pub(crate) fn group_places(
    alloc: Global,
    schema: &Schema,
    words: &[u8],
) -> Result<Places, QueryError>
    ensures read { IfOk result (λ places. group_columns schema.now words.now ≡ Ok places) }
    ensures within { IfOk result (λ places. IsTrue (are_places schema.now.keys places)) }
    ensures refused { IfErr result (λ e. e ≢ QueryError.Memory → group_columns schema.now words.now ≡ Err e) }
{
    let columns = schema.keys();
    if words.is_empty() {
        return Ok(all_places(alloc, columns)?);
    }
    if words == b"-".as_slice() {
        return Ok(Items::new(alloc));
    }
    named_places(alloc, columns, words)
}

// The places of the value columns: no words ask for all.
pub(crate) fn value_places(
    alloc: Global,
    schema: &Schema,
    words: &[u8],
) -> Result<Places, QueryError>
    ensures read { IfOk result (λ places. value_columns schema.now words.now ≡ Ok places) }
    ensures within { IfOk result (λ places. IsTrue (are_places schema.now.values places)) }
    ensures refused { IfErr result (λ e. e ≢ QueryError.Memory → value_columns schema.now words.now ≡ Err e) }
{
    let columns = schema.values();
    if words.is_empty() {
        return Ok(all_places(alloc, columns)?);
    }
    named_places(alloc, columns, words)
}

/// The places of these names among columns, for those that are there.
pub fn chosen_places<C: Named>(
    alloc: Global,
    names: &[Name],
    columns: &[C],
) -> Result<Vec<u16>, AllocError>
    requires { length columns.now ≤ 2 ^ 16 }
    ensures places { IfOk result (λ found. found.items ≡ places_in (map C.name_of columns.now) names.now) }
    ensures within { IfOk result (λ found. IsTrue (are_places columns.now found.items)) }
{
    let mut found = Vec::new(alloc);
    for name in names {
        if let Some(place) = place_of(name.bytes(), columns) {
            found.push(place as u16)?;
        }
    }
    Ok(found)
}

// The places of all columns.
fn all_places<N: Drop>(alloc: Global, columns: &[N]) -> Result<Places, AllocError>
    requires { length columns.now ≤ 16 }
    ensures all { IfOk result (λ places. places ≡ places_below columns.now) }
    ensures within { IfOk result (λ places. IsTrue (are_places columns.now places)) }
{
    let mut places = Items::new(alloc);
    for place in 0..columns.len() {
        places.push(place as u16)?;
    }
    Ok(places)
}

// The places of the columns that a list of names, separated by `;`, asks.
fn named_places<N: Named>(alloc: Global, columns: &[N], words: &[u8]) -> Result<Places, QueryError>
    requires { length columns.now ≤ 16 }
    ensures read { IfOk result (λ places. places_of (map N.name_of columns.now) (split_at 59 words.now) ≡ Ok places) }
    ensures within { IfOk result (λ places. IsTrue (are_places columns.now places)) }
    ensures refused { IfErr result (λ e. e ≢ QueryError.Memory → places_of (map N.name_of columns.now) (split_at 59 words.now) ≡ Err e) }
{
    let mut places = Items::new(alloc);
    let mut names = Parts::of(b';', words);
    'names: while let Some(name) = names.take_next() {
        places.push(named_place(columns, name)?)?;
    }
    Ok(places)
}

// The place of the column of a name.
fn named_place<N: Named>(columns: &[N], name: &[u8]) -> Result<u16, QueryError>
    requires { length columns.now ≤ 16 }
    ensures found { result ≡ ok_or (place_among name.now (map N.name_of columns.now)) QueryError.NoColumn }
    ensures within { IfOk result (λ place. place < length columns.now) }
{
    match place_of(name, columns) {
        Some(place) => Ok(place as u16),
        None => Err(QueryError::NoColumn),
    }
}
