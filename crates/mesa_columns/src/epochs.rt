// The columns of an epoch.
ghost use Rattle.std.specs.Prelude.{◌≡◌, ◌≤◌, OnOk, count_by, length};
ghost use Rattle.mesa_columns.specs.Changes.{adds_key as adds, changed};

use crate::{Change, KeyColumn, ValueColumn, place_of};
use mesa_key::TryCopy;
use std::alloc::AllocError;

/// Changes columns: one is appended, or a value column goes.
pub fn change_columns(
    keys: &mut Vec<KeyColumn>,
    values: &mut Vec<ValueColumn>,
    change: &Change,
) -> Result<(), AllocError>
    ensures { OnOk result (record { keys = keys.new.items; values = values.new.items } ≡ changed (record { keys = keys.old.items; values = values.old.items }) change.now) }
{
    match change {
        Change::AddValue { column, .. } => {
            values.push(column.copy()?)?;
            Ok(())
        }
        Change::DropValue { name } => {
            if let Some(place) = place_of(name.bytes(), values) {
                values.remove(place);
            }
            Ok(())
        }
        Change::AddKey { column, .. } => {
            keys.push(column.copy()?)?;
            Ok(())
        }
    }
}

/// How many of the changes add a key column.
pub fn added_keys(changes: &[Change]) -> usize
    ensures count { result ≡ count_by adds changes.now }
    ensures most { result ≤ length changes.now }
{
    changes.iter().filter(|change| adds_key(change)).count()
}

fn adds_key(change: &Change) -> bool
    ensures { result ≡ adds change.now }
{
    matches!(change, Change::AddKey { .. })
}
