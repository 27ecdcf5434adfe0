// Which changes are allowed.
ghost use Rattle.std.specs.Prelude.{◌≡◌, ◌≢◌, find, is_ok, is_some, length, map, not, ◌&&◌, ◌==◌, IfErr, IsTrue, OnOk};
ghost use Rattle.std.specs.Option.{option_copied};
ghost use Rattle.std.specs.List.{list_any};
ghost use Rattle.mesa_columns.specs.declared.views.View.{View as Chosen};
ghost use Rattle.mesa_columns.specs.declared.columns.ValueColumn.{ValueColumn as Column};
ghost use Rattle.mesa_columns.specs.declared.columns.KeyColumn.{KeyColumn as Key};
ghost use Rattle.mesa_columns.specs.Names.{has_name as is_among};
ghost use Rattle.mesa_fold.specs.mesa_value.Agg.{IsDefault};
ghost use Rattle.mesa_fold.specs.mesa_key.Spelling.{IsValue};
ghost use Rattle.mesa_columns.specs.Changes.{is_default as has_default, is_of_kind as has_kind};
ghost use Rattle.mesa_schema.specs.Changes.{added_key_checked, added_value_checked, drop_rule, new_name_checked};

use mesa_columns::{
    Agg, ChangeError, KeyColumn, KeyType, KeyValue, MAX_COLUMNS, Name, Named, TryCopy, ValueColumn,
    View, has_name,
};

// A column of this name may join these.
pub(crate) fn check_new<N: Named>(name: &Name, among: &[N]) -> Result<(), ChangeError>
    ensures { result ≡ new_name_checked name.now (map N.name_of among.now) }
{
    if has_name(name.bytes(), among) {
        return Err(ChangeError::NameTwice);
    }
    if among.len() >= MAX_COLUMNS {
        return Err(ChangeError::TooManyColumns);
    }
    Ok(())
}

// Whether a column of this name may join these.
pub(crate) fn is_new<N: Named>(name: &Name, among: &[N]) -> bool
    ensures { result ≡ is_ok (new_name_checked name.now (map N.name_of among.now)) }
{
    check_new(name, among).is_ok()
}

// A value column may join these, with its default.
pub(crate) fn check_added_value(
    column: &ValueColumn,
    default: &i64,
    among: &[ValueColumn],
) -> Result<(), ChangeError>
    ensures check { result ≡ added_value_checked (map (λ (c : Column). c.name) among.now) column.now default.now }
    ensures stays { OnOk result (IsDefault column.now.agg default.now) }
{
    check_new(&column.name, among)?;
    if !is_default(column.agg, *default) {
        return Err(ChangeError::BadDefault);
    }
    Ok(())
}

// A key column may join these, with its default.
pub(crate) fn check_added_key(
    column: &KeyColumn,
    default: &KeyValue,
    among: &[KeyColumn],
) -> Result<(), ChangeError>
    ensures check { result ≡ added_key_checked (map (λ (c : Key). c.name) among.now) column.now default.now }
    ensures value { OnOk result (IsValue column.now.kind default.now) }
{
    check_new(&column.name, among)?;
    if !is_of_kind(column.kind, default) {
        return Err(ChangeError::BadDefault);
    }
    Ok(())
}

// Whether a value column of this aggregation may have this default.
pub(crate) fn is_default(agg: Agg, default: i64) -> bool
    ensures test { result ≡ has_default agg default }
    ensures stays { IsTrue result → IsDefault agg default }
{
    match agg {
        Agg::Sum => default == 0,
        _ => true,
    }
}

// Whether a key column of this type may have this default.
pub(crate) fn is_of_kind(kind: KeyType, value: &KeyValue) -> bool
    ensures test { result ≡ has_kind kind value.now }
    ensures value { IsTrue result → IsValue kind value.now }
{
    match (kind, value) {
        (KeyType::Int, KeyValue::Int(number)) => {
            let _number = *number;
            true
        }
        (KeyType::Text, KeyValue::Text(text)) => {
            let _bytes = text.as_bytes();
            true
        }
        _ => false,
    }
}

// The value column of this name may go: it is there, no view has it, and it isn't the last one.
pub(crate) fn check_drop(
    name: &Name,
    among: &[ValueColumn],
    views: &[View],
) -> Result<(), ChangeError>
    ensures passes { OnOk result (drop_rule (map (λ (c : Column). c.name) among.now) views.now name.now ≡ Ok tt) }
    ensures refused { IfErr result (λ e. e ≢ ChangeError.Memory → drop_rule (map (λ (c : Column). c.name) among.now) views.now name.now ≡ Err e) }
{
    if !has_name(name.bytes(), among) {
        return Err(ChangeError::NoColumn);
    }
    if let Some(view) = first_user(name, views) {
        return Err(ChangeError::InView {
            view: view.name.copy()?,
        });
    }
    if among.len() == 1 {
        return Err(ChangeError::LastValue);
    }
    Ok(())
}

// The first view that has the value column of this name.
fn first_user<'a>(name: &Name, views: &'a [View]) -> Option<&'a View>
    ensures { option_copied result ≡ find (λ (v : Chosen). is_among name.now v.values) views.now }
{
    views.iter().find(|view| uses(view, name))
}

// Whether the value column of this name is there, and another one.
pub(crate) fn may_go(name: &Name, among: &[ValueColumn]) -> bool
    ensures { result ≡ (is_among name.now (map (λ (c : Column). c.name) among.now) && not (length among.now == 1)) }
{
    has_name(name.bytes(), among) && among.len() != 1
}

// Whether a view has the value column of this name.
#[tactic(auto, using(mesa_columns::proofs::Maps::is_some_find))]
pub(crate) fn is_used(name: &Name, views: &[View]) -> bool
    ensures { result ≡ is_some (find (λ (v : Chosen). is_among name.now v.values) views.now) }
{
    has_user(name, views)
}

fn has_user(name: &Name, views: &[View]) -> bool
    ensures { result ≡ list_any (λ (v : Chosen). is_among name.now v.values) views.now }
{
    views.iter().any(|view| uses(view, name))
}

#[tactic(auto, using(mesa_columns::proofs::Maps::map_same))]
fn uses(view: &View, name: &Name) -> bool
    ensures { result ≡ is_among name.now view.now.values }
{
    has_name(name.bytes(), view.values.as_slice())
}
