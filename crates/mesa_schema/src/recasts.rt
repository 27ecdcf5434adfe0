// Which columns a recast may ask for.
ghost use Rattle.std.specs.Prelude.{◌≡◌, ◌≢◌, ℕ, ◌<◌, ◌==◌, [], ◌∷◌, find, is_ok, length, map, not, option_and_then, option_copied, option_map, slice_get, IfErr, IfSome, OnOk, Ok, Err};
ghost use Rattle.std.specs.List.{enumerate_from, list_all, list_any};
ghost use Rattle.mesa_fold.specs.mesa_list.Checks.{refused_as};
ghost use Rattle.mesa_columns.specs.declared.columns.KeyColumn.{KeyColumn as Key};
ghost use Rattle.mesa_columns.specs.declared.columns.ValueColumn.{ValueColumn as Column};
ghost use Rattle.mesa_columns.specs.declared.views.View.{View as Chosen};
ghost use Rattle.mesa_columns.specs.Columns.{places_in};
ghost use Rattle.mesa_schema.specs.Recasts.{choice_refusal, columns_checked, keeps_all_keys as keeps_keys, keeps_view as keeps, places_below, replace_left as left, views_kept};
ghost use Rattle.mesa_schema.specs.Views.{choice_checked};

use crate::choosing::{check_chosen, replace_place};
use mesa_columns::{KeyColumn, Name, Named, Schema, TryCopy, View, ViewError, has_names, place_of};
use std::alloc::AllocError;

/// Why a recast is refused, the first reason that applies.
#[derive(Drop)]
pub enum RecastError {
    NoColumn,
    NoKey,
    NoValue,
    NameTwice,
    /// The first replace column that is asked for while a key column is left out.
    ReplaceGroup { column: Name },
    /// The first view that uses a column that is left out.
    InView { view: Name },
    /// The table has had 1,000 changes and recasts.
    EpochsFull,
    Memory,
}

impl From<AllocError> for RecastError {
    ghost use Rattle.mesa_schema.specs.declared.recasts.RecastError.TheVariants.{Memory};
    ghost use Rattle.std.specs.Prelude.{◌≡◌};

    ghost from_gives = { λ _ e. e ≡ Memory };

    fn from(_: AllocError) -> Self {
        RecastError::Memory
    }
}

// Why a choice of columns is refused.
fn choice_error(e: ViewError) -> RecastError
    ensures { result ≡ choice_refusal e }
{
    match e {
        ViewError::NoColumn => RecastError::NoColumn,
        ViewError::NoKey => RecastError::NoKey,
        ViewError::NoValue => RecastError::NoValue,
        ViewError::NameTwice => RecastError::NameTwice,
        ViewError::ReplaceInView { column } => RecastError::ReplaceGroup { column },
        ViewError::Memory => RecastError::Memory,
    }
}

// A recast may choose these names among those of the columns: they are there, some, and none twice.
fn check_choice<C: Named>(names: &[Name], columns: &[C], none: ViewError) -> Result<(), RecastError>
    ensures { result ≡ refused_as choice_refusal (choice_checked (map C.name_of columns.now) none names.now) }
{
    match check_chosen(names, columns, none) {
        Ok(()) => Ok(()),
        Err(e) => Err(choice_error(e)),
    }
}

// A recast of these columns may take these: they are a choice of them, and a replace column is asked for only with every key column.
pub(crate) fn check_columns(
    present: &Schema,
    keys: &[Name],
    values: &[Name],
) -> Result<(), RecastError>
    ensures passes { OnOk result (columns_checked present.now (record { keys = keys.now; values = values.now }) ≡ Ok tt) }
    ensures refused { IfErr result (λ e. e ≢ RecastError.Memory → columns_checked present.now (record { keys = keys.now; values = values.now }) ≡ Err e) }
{
    check_choice(keys, present.keys(), ViewError::NoKey)?;
    check_choice(values, present.values(), ViewError::NoValue)?;
    match replace_left(present, keys, values) {
        Some(place) => Err(RecastError::ReplaceGroup {
            column: values[place].copy()?,
        }),
        None => Ok(()),
    }
}

// The place of the first of the value columns' names that is a replace column's, where a key column is left out.
fn replace_left(present: &Schema, keys: &[Name], values: &[Name]) -> Option<usize>
    ensures within { IfSome result (λ i. i < length values.now) }
    ensures name { option_and_then (slice_get values.now) result ≡ option_map (λ (c : Column). c.name) (left present.now (record { keys = keys.now; values = values.now })) }
{
    if keeps_all_keys(present.keys(), keys) {
        return None;
    }
    replace_place(values, present.values())
}

// Whether each of these columns is one of these names'.
#[tactic(auto, using(mesa_columns::proofs::Maps::all_mapped))]
fn keeps_all_keys(columns: &[KeyColumn], names: &[Name]) -> bool
    ensures { result ≡ list_all (λ place. list_any (λ c. c == place) (places_in (map (λ (c : Key). c.name) columns.now) names.now)) (places_below columns.now) }
{
    each_is_named(columns, names)
}

fn each_is_named(columns: &[KeyColumn], names: &[Name]) -> bool
    ensures { result ≡ list_all (λ (p : ℕ × Key). list_any (λ c. c == p.0) (places_in (map (λ (c : Key). c.name) columns.now) names.now)) (enumerate_from 0 columns.now) }
{
    columns
        .iter()
        .enumerate()
        .all(|(place, _)| is_named(place, columns, names))
}

// Whether the column of a place is one of these names'.
#[tactic(auto, using(crate::proofs::Choices::any_placed))]
fn is_named(place: usize, columns: &[KeyColumn], names: &[Name]) -> bool
    ensures { result ≡ list_any (λ c. c == place) (places_in (map (λ (c : Key). c.name) columns.now) names.now) }
{
    some_names(place, columns, names)
}

fn some_names(place: usize, columns: &[KeyColumn], names: &[Name]) -> bool
    ensures { result ≡ list_any (λ name. list_any (λ c. c == place) (places_in (map (λ (c : Key). c.name) columns.now) (name ∷ []))) names.now }
{
    names.iter().any(|name| names_place(name, place, columns))
}

// Whether the column of a place is the first of this name.
fn names_place(name: &Name, place: usize, columns: &[KeyColumn]) -> bool
    ensures { result ≡ list_any (λ c. c == place) (places_in (map (λ (c : Key). c.name) columns.now) (name.now ∷ [])) }
{
    match place_of(name.bytes(), columns) {
        Some(found) => found == place,
        None => false,
    }
}

// Each view keeps its columns in a recast to these, or the first that doesn't.
pub(crate) fn check_views(views: &[View], keys: &[Name], values: &[Name]) -> Result<(), RecastError>
    ensures passes { OnOk result (views_kept views.now (record { keys = keys.now; values = values.now }) ≡ Ok tt) }
    ensures refused { IfErr result (λ e. e ≢ RecastError.Memory → views_kept views.now (record { keys = keys.now; values = values.now }) ≡ Err e) }
{
    match first_losing(views, keys, values) {
        Some(view) => Err(RecastError::InView {
            view: view.name.copy()?,
        }),
        None => Ok(()),
    }
}

// The first view that loses a column.
fn first_losing<'a>(views: &'a [View], keys: &[Name], values: &[Name]) -> Option<&'a View>
    ensures { option_copied result ≡ find (λ (v : Chosen). not (keeps (record { keys = keys.now; values = values.now }) v)) views.now }
{
    views.iter().find(|view| !keeps_view(view, keys, values))
}

// Whether a view keeps its columns.
#[tactic(auto, using(mesa_columns::proofs::Maps::map_same))]
fn keeps_view(view: &View, keys: &[Name], values: &[Name]) -> bool
    ensures { result ≡ keeps (record { keys = keys.now; values = values.now }) view.now }
{
    has_names(view.keys.as_slice(), keys) && has_names(view.values.as_slice(), values)
}

// Whether a recast of these columns may take these.
pub(crate) fn allows_columns(present: &Schema, keys: &[Name], values: &[Name]) -> bool
    ensures { result ≡ is_ok (columns_checked present.now (record { keys = keys.now; values = values.now })) }
{
    check_chosen(keys, present.keys(), ViewError::NoKey).is_ok()
        && check_chosen(values, present.values(), ViewError::NoValue).is_ok()
        && replace_left(present, keys, values).is_none()
}

// Whether each view keeps its columns in a recast to these.
pub(crate) fn keeps_views(views: &[View], keys: &[Name], values: &[Name]) -> bool
    ensures { result ≡ is_ok (views_kept views.now (record { keys = keys.now; values = values.now })) }
{
    first_losing(views, keys, values).is_none()
}
