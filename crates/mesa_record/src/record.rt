// Records of the journal: what changed the warehouse.
ghost use Rattle.std.specs.Prelude.{◌≡◌, IfOk, IfErr};
ghost use Rattle.mesa_record.specs.declared.checkpoint.Checkpoint.{Checkpoint as AnyCheckpoint};
ghost use Rattle.mesa_record.specs.declared.record.Record.TheVariants as record_of;

use crate::{Checkpoint, Recasting};
use mesa_record_fields::{Change, FileRef, Items, KeyColumn, Name, Totals, ValueColumn};

/// A view's file of a delta. A table's views are numbered from 0 in the order in which they were made.
#[derive(Drop)]
pub struct ViewRef {
    pub view: u8,
    pub file: FileRef,
}

/// The files of a delta of a table: its own, and those of its views, by rising numbers.
pub struct Files {
    pub file: FileRef,
    pub views: Items<ViewRef>,
}

// Each exit calls this, in place of letting go of each part itself.
impl Drop for Files {
    fn drop(self) {
        let Files { file: _, views: _ } = self;
    }
}

/// What a batch brings to a table. Tables are numbered from 0 in the order in which they were made.
#[derive(Drop)]
pub struct Part {
    pub table: u16,
    /// The epoch of the table's schema that the rows have.
    pub epoch: u32,
    pub files: Files,
    /// For each sum column the absolute values of the batch's rows, added up.
    pub totals: Totals,
}

/// A record of the journal.
pub enum Record {
    /// A run of the program begins.
    Run {
        number: u32,
    },
    /// A table is made.
    Table {
        name: Name,
        keys: Items<KeyColumn>,
        values: Items<ValueColumn>,
    },
    /// A view of a table is made, of these of its columns.
    View {
        table: u16,
        name: Name,
        keys: Items<Name>,
        values: Items<Name>,
    },
    /// A table's schema is changed.
    Alter {
        table: u16,
        change: Change,
    },
    /// A version is made. It has a part for each table with rows in its batch, by rising numbers.
    Publish {
        version: u32,
        parts: Items<Part>,
    },
    /// The deltas from one version to another are merged into one, a new base or a cumulative one. It has no files where they have no rows.
    Swap {
        table: u16,
        base: bool,
        from: u32,
        to: u32,
        epoch: u32,
        files: Option<Files>,
    },
    /// Versions below this one aren't kept any more.
    Expire {
        version: u32,
    },
    /// Versions of a table below this one aren't kept any more.
    ExpireTable {
        table: u16,
        version: u32,
    },
    /// The catalogue that all records before it made, stated anew.
    Checkpoint(Checkpoint),
    /// A table takes columns chosen among its own, and its rows are grouped by them.
    Recast(Recasting),
}

// Each exit calls this, in place of letting go of each part itself.
impl Drop for Record {
    fn drop(self) {
        match self {
            Record::Run { number: _ } => {}
            Record::Table {
                name: _,
                keys: _,
                values: _,
            } => {}
            Record::View {
                table: _,
                name: _,
                keys: _,
                values: _,
            } => {}
            Record::Alter {
                table: _,
                change: _,
            } => {}
            Record::Publish {
                version: _,
                parts: _,
            } => {}
            Record::Swap {
                table: _,
                base: _,
                from: _,
                to: _,
                epoch: _,
                files: _,
            } => {}
            Record::Expire { version: _ } => {}
            Record::ExpireTable {
                table: _,
                version: _,
            } => {}
            Record::Checkpoint(_) => {}
            Record::Recast(_) => {}
        }
    }
}

impl Record {
    /// The checkpoint that a record is; one of another kind is given back.
    pub fn into_checkpoint(self) -> Result<Checkpoint, Record>
        ensures checkpoint { IfOk result (λ k. self ≡ record_of.Checkpoint k) }
        ensures other { IfErr result (λ r. (r ≡ self) × ((k : AnyCheckpoint) → self ≡ record_of.Checkpoint k → ⊥)) }
    {
        match self {
            Record::Checkpoint(checkpoint) => Ok(checkpoint),
            other => Err(other),
        }
    }
}
