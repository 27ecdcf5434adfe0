// Linked changes of a schema.
use crate::{KeyColumn, Name, ValueColumn};
use mesa_key::KeyValue;
use std::alloc::AllocError;

/// A linked change of a table's schema; each raises the table's epoch by 1.
pub enum Change {
    /// A value column more, which rows from before have with the default.
    AddValue {
        column: ValueColumn,
        default: i64,
    },
    DropValue {
        name: Name,
    },
    /// A key column more, behind the others, which rows from before have with the default.
    AddKey {
        column: KeyColumn,
        default: KeyValue,
    },
}

// One function lets a change go, which an exit calls; a derived one is written out at each exit of each function that owns a change.
impl Drop for Change {
    fn drop(self) {
        match self {
            Change::AddValue {
                column: _,
                default: _,
            } => {}
            Change::DropValue { name: _ } => {}
            Change::AddKey {
                column: _,
                default: _,
            } => {}
        }
    }
}

/// Why a change is refused, the first reason that applies.
#[derive(Drop)]
pub enum ChangeError {
    NameTwice,
    NoColumn,
    /// A default other than 0 for a sum, or one that is not of its key column's type.
    BadDefault,
    LastValue,
    /// The first view that uses the column.
    InView { view: Name },
    TooManyColumns,
    /// The table has had 1,000 changes and recasts.
    EpochsFull,
    Memory,
}

impl From<AllocError> for ChangeError {
    ghost use Rattle.mesa_columns.specs.declared.changes.ChangeError.TheVariants.{Memory};
    ghost use Rattle.std.specs.Prelude.{◌≡◌};

    ghost from_gives = { λ _ e. e ≡ Memory };

    fn from(_: AllocError) -> Self {
        ChangeError::Memory
    }
}
