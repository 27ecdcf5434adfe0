// Columns that are chosen by their names, as those of a view are.
ghost use Rattle.std.specs.Prelude.{◌≡◌, ◌<◌, IfOk, IfSome, length, map, find, option_and_then, option_map, slice_get};
ghost use Rattle.mesa_columns.specs.declared.columns.ValueColumn.{ValueColumn as Column};
ghost use Rattle.mesa_columns.specs.Columns.{chosen, is_replace as replaces, places_in};
ghost use Rattle.mesa_schema.specs.Views.{choice_checked};

use mesa_columns::{
    Name, Named, TryCopy, ValueColumn, ViewError, has_names, place_of, repeated_place,
};
use std::alloc::{AllocError, Global};

// The columns of these names, in the names' order.
pub(crate) fn chosen_columns<C: Named + TryCopy>(
    alloc: Global,
    columns: &[C],
    names: &[Name],
) -> Result<Vec<C>, AllocError>
    ensures { IfOk result (λ found. found.items ≡ chosen (places_in (map C.name_of columns.now) names.now) columns.now) }
{
    let mut found = Vec::new(alloc);
    for name in names {
        if let Some(place) = place_of(name.bytes(), columns) {
            found.push(columns[place].copy()?)?;
        }
    }
    Ok(found)
}

// The names that a view chooses among these columns: they are there, some, and none twice.
pub(crate) fn check_chosen<C: Named>(
    names: &[Name],
    columns: &[C],
    none: ViewError,
) -> Result<(), ViewError>
    ensures { result ≡ choice_checked (map C.name_of columns.now) none names.now }
{
    if !has_names(names, columns) {
        return Err(ViewError::NoColumn);
    }
    if names.is_empty() {
        return Err(none);
    }
    if repeated_place(names).is_some() {
        return Err(ViewError::NameTwice);
    }
    Ok(())
}

// The place of the first of these names that is a replace column's.
pub(crate) fn replace_place(names: &[Name], columns: &[ValueColumn]) -> Option<usize>
    ensures within { IfSome result (λ i. i < length names.now) }
    ensures name { option_and_then (slice_get names.now) result ≡ option_map (λ (c : Column). c.name) (find replaces (chosen (places_in (map (λ (c : Column). c.name) columns.now) names.now) columns.now)) }
{
    for (i, name) in names.iter().enumerate() {
        if let Some(place) = place_of(name.bytes(), columns) {
            if columns[place].is_replace() {
                return Some(i);
            }
        }
    }
    None
}
