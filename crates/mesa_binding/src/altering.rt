// The change of a schema that is asked.
ghost use Rattle.std.specs.Prelude.{◌≡◌, [], map, Ok, IfOk, IfErr, OnOk};
ghost use Rattle.mesa_schema.specs.Changes.{columns_of};
ghost use Rattle.mesa_model.specs.declared.commands.ChangeWords.TheVariants as words_of;
ghost use Rattle.mesa_model.specs.Tables.{change_asked as asked_of, changed_name as name_of, new_column_checked};
ghost use Rattle.mesa_binding.specs.Asked.{change_allowed};
ghost use Rattle.mesa_binding.specs.Told.{IsDue, change_failure as failure_of};

use crate::failure::Failure;
use crate::naming::{column_name, read_name};
use mesa_model::{ChangeWords, KeyWords, Refusal, SchemaFault, ValueWords};
use mesa_schema::{
    Change, ChangeError, Evolving, KeyColumn, MAX_CHANGES, MAX_COLUMNS, Name, Named, ValueColumn,
    Words, has_name, key_value, signed,
};
use std::alloc::Global;

/// The change that the words ask for, or why a table with these columns and views isn't changed so. Rules that hang on more than a new column's name and its default are looked at when the change is made.
pub fn change_asked(
    alloc: Global,
    evolving: &Evolving,
    words: &ChangeWords,
) -> Result<Change, Failure>
    ensures asked { IfOk result (λ change. asked_of (columns_of evolving.now) words.now ≡ Ok change) }
    ensures refused { IfErr result (IsDue (change_allowed evolving.now words.now)) }
{
    let present = evolving.present();
    match words {
        ChangeWords::AddValue { column, default } => {
            added_value(alloc, column, default, present.values())
        }
        ChangeWords::DropValue { name } => {
            let name = column_name(name.as_slice(), present.values())?;
            Ok(Change::DropValue { name })
        }
        ChangeWords::AddKey { column, default } => {
            added_key(alloc, column, default, present.keys())
        }
    }
}

// A value column that is to join these.
fn added_value(
    alloc: Global,
    words: &ValueWords,
    default: &Words,
    among: &[ValueColumn],
) -> Result<Change, Failure>
    ensures asked { IfOk result (λ change. asked_of (record { keys = []; values = among.now }) (words_of.AddValue words.now default.now) ≡ Ok change) }
    ensures refused { IfErr result (IsDue (asked_of (record { keys = []; values = among.now }) (words_of.AddValue words.now default.now))) }
{
    let name = new_name(alloc, words.name.as_slice(), among)?;
    let Some(default) = signed(default.as_slice()) else {
        return Err(Failure::Refused(Refusal::BadDefault { column: name }));
    };
    let agg = words.agg;
    let column = ValueColumn { name, agg };
    Ok(Change::AddValue { column, default })
}

// A key column that is to join these.
fn added_key(
    alloc: Global,
    words: &KeyWords,
    default: &Words,
    among: &[KeyColumn],
) -> Result<Change, Failure>
    ensures asked { IfOk result (λ change. asked_of (record { keys = among.now; values = [] }) (words_of.AddKey words.now default.now) ≡ Ok change) }
    ensures refused { IfErr result (IsDue (asked_of (record { keys = among.now; values = [] }) (words_of.AddKey words.now default.now))) }
{
    let name = new_name(alloc, words.name.as_slice(), among)?;
    let kind = words.kind;
    let Some(default) = key_value(alloc, kind, default.as_slice())? else {
        return Err(Failure::Refused(Refusal::BadDefault { column: name }));
    };
    let column = KeyColumn { name, kind };
    Ok(Change::AddKey { column, default })
}

// The name of a column that may join these.
fn new_name<C: Named>(alloc: Global, name: &[u8], among: &[C]) -> Result<Name, Failure>
    ensures read { IfOk result (λ read. read ≡ name.now) }
    ensures checked { OnOk result (new_column_checked name.now (map C.name_of among.now) ≡ Ok tt) }
    ensures refused { IfErr result (IsDue (new_column_checked name.now (map C.name_of among.now))) }
{
    let read = read_name(alloc, name)?;
    if has_name(name, among) {
        return Err(bad_schema(SchemaFault::NameTwice));
    }
    if among.len() >= MAX_COLUMNS {
        return Err(bad_schema(SchemaFault::TooManyColumns));
    }
    Ok(read)
}

fn bad_schema(reason: SchemaFault) -> Failure
    ensures { result ≡ Failure.Refused (Refusal.BadSchema reason) }
{
    Failure::Refused(Refusal::BadSchema { reason })
}

/// The name of the column that a change adds or drops.
pub fn changed_name(change: &Change) -> &Name
    ensures { result.now ≡ name_of change.now }
{
    match change {
        Change::AddValue { column, .. } => &column.name,
        Change::DropValue { name } => name,
        Change::AddKey { column, .. } => &column.name,
    }
}

/// Why the column of this name isn't added or dropped.
pub fn change_failure(error: ChangeError, column: Name) -> Failure
    ensures { result ≡ failure_of column error }
{
    let limit = MAX_CHANGES as u32;
    match error {
        ChangeError::NameTwice => bad_schema(SchemaFault::NameTwice),
        ChangeError::NoColumn => Failure::Refused(Refusal::NoColumn),
        ChangeError::BadDefault => Failure::Refused(Refusal::BadDefault { column }),
        ChangeError::LastValue => bad_schema(SchemaFault::LastValue),
        ChangeError::InView { view } => Failure::Refused(Refusal::InView { view }),
        ChangeError::TooManyColumns => bad_schema(SchemaFault::TooManyColumns),
        ChangeError::EpochsFull => Failure::Refused(Refusal::EpochsFull { limit }),
        ChangeError::Memory => Failure::Memory,
    }
}
