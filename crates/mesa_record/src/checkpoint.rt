// Checkpoints: what states a whole catalogue in one record.
ghost use Rattle.std.specs.Prelude.{◌≡◌};
ghost use Rattle.mesa_record.specs.Reading.{stated_of};

use crate::Files;
use mesa_record_fields::{Change, Items, KeyColumn, Name, Totals, ValueColumn, View};

/// A base or a cumulative. It has no files where it has no rows.
#[derive(Drop)]
pub struct CheckpointRange {
    /// Its last version.
    pub to: u32,
    pub epoch: u32,
    pub files: Option<Files>,
}

/// A singleton with rows. One without rows isn't stated.
#[derive(Drop)]
pub struct CheckpointSingle {
    pub version: u32,
    pub epoch: u32,
    pub files: Files,
    /// For each sum column the absolute values of the version's rows, added up.
    pub totals: Totals,
}

/// A table: the columns that it was made with or last recast to, and what has been changed, viewed, published and merged since.
#[derive(Drop)]
pub struct CheckpointTable {
    pub name: Name,
    /// Versions of the table below this one aren't kept any more.
    pub oldest: u32,
    /// The epoch of the columns below, before the changes: 0, or that of its last recast.
    pub begins: u32,
    pub keys: Items<KeyColumn>,
    pub values: Items<ValueColumn>,
    pub changes: Items<Change>,
    pub views: Items<View>,
    /// For each sum column that it has now the absolute values of all rows, added up.
    pub totals: Totals,
    pub base: Option<CheckpointRange>,
    pub cumulatives: Items<CheckpointRange>,
    pub singles: Items<CheckpointSingle>,
}

/// A catalogue, in one record.
#[derive(Drop)]
pub struct Checkpoint {
    /// One more than the number of the checkpoint before it, or 1. Odd ones stand in area 1, even ones in area 0.
    pub number: u32,
    /// The number of the last run.
    pub run: u32,
    /// Versions below this one aren't kept of any table.
    pub floor: u32,
    /// How many versions there were.
    pub versions: u32,
    /// In the order in which they were made.
    pub tables: Items<CheckpointTable>,
}

/// A table's columns and what tells of them: a part of a table while it is read or copied.
#[derive(Drop)]
pub(crate) struct StatedColumns {
    pub(crate) keys: Items<KeyColumn>,
    pub(crate) values: Items<ValueColumn>,
    pub(crate) changes: Items<Change>,
    pub(crate) views: Items<View>,
    pub(crate) totals: Totals,
}

/// A table's deltas, likewise.
#[derive(Drop)]
pub(crate) struct StatedDeltas {
    pub(crate) base: Option<CheckpointRange>,
    pub(crate) cumulatives: Items<CheckpointRange>,
    pub(crate) singles: Items<CheckpointSingle>,
}

// A table of its parts; none is copied.
pub(crate) fn table_of(
    name: Name,
    oldest: u32,
    begins: u32,
    columns: StatedColumns,
    deltas: StatedDeltas,
) -> CheckpointTable
    ensures { result ≡ stated_of name oldest begins columns deltas }
{
    let StatedColumns {
        keys,
        values,
        changes,
        views,
        totals,
    } = columns;
    let StatedDeltas {
        base,
        cumulatives,
        singles,
    } = deltas;
    CheckpointTable {
        name,
        oldest,
        begins,
        keys,
        values,
        changes,
        views,
        totals,
        base,
        cumulatives,
        singles,
    }
}
