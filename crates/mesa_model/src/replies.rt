// What a command is answered.
use mesa_columns::{Items, KeyBytes, Name, RowList};
use mesa_file::Damage;
use mesa_filter::VersionWord;

/// A page of a query's answer: its version, its rows in the order of their group keys, and where
/// further rows follow the key after which they begin.
#[derive(Drop)]
pub struct Page {
    pub version: u32,
    pub rows: RowList,
    pub resume: Option<KeyBytes>,
}

/// What is wrong with a schema.
#[derive(Clone, Copy, Debug, PartialEq, Eq)]
pub enum SchemaFault {
    /// A name that breaks the rule of names.
    BadName,
    NoKey,
    NoValue,
    TooManyColumns,
    NameTwice,
    /// The value column is the last one.
    LastValue,
}

/// Why a command is refused.
pub enum Refusal {
    /// No such table or view. A load says at which of its rows, counted from 1.
    NoTable {
        row: Option<u64>,
    },
    TableExists,
    BadSchema {
        reason: SchemaFault,
    },
    /// The row's first bad column; both count from 1, key columns before value columns.
    BadRow {
        row: u64,
        column: u16,
    },
    /// The row `second` has the table and the key of the earlier row `first`.
    DuplicateKey {
        first: u64,
        second: u64,
    },
    /// The absolute values of a sum column would add up to more than its bound.
    SumBound {
        table: Name,
        column: Name,
    },
    /// The version asked for isn't kept any more.
    Stale {
        asked: u32,
        oldest: u32,
    },
    /// The version asked for isn't there yet.
    Future {
        asked: VersionWord,
        newest: Option<u32>,
    },
    NoColumn,
    /// The first replace column that is asked while a key column isn't among the group columns.
    ReplaceGroup {
        column: Name,
    },
    /// The new column's default can't be read, or isn't 0 for a sum.
    BadDefault {
        column: Name,
    },
    /// The first view that uses the column.
    InView {
        view: Name,
    },
    /// Terms count from 1.
    BadFilter {
        term: u16,
    },
    BadResume,
    NoPin {
        token: u32,
    },
    PinsFull {
        limit: u32,
    },
    /// Of the warehouse's tables, or of one table's views.
    TablesFull {
        limit: u32,
    },
    VersionsFull {
        limit: u32,
    },
    ReadFault,
    WriteFault,
    /// A write that failed at this position closed the warehouse.
    Closed {
        position: u64,
    },
    Damaged(Damage),
    /// The lease doesn't hold any more; another lease of the table may.
    Lost {
        lease: u64,
        holder: Option<u64>,
    },
    Memory,
    EpochsFull {
        limit: u32,
    },
    /// The table's epoch isn't the one that it had when its recast was granted a lease.
    Changed {
        epoch: u32,
    },
    /// The table has more deltas of one version each than one recast rewrites.
    TooManyDeltas {
        limit: u32,
    },
}

// Each exit calls this, in place of letting go of each part itself.
impl Drop for Refusal {
    fn drop(self) {
        match self {
            Refusal::NoTable { row: _ } => {}
            Refusal::TableExists => {}
            Refusal::BadSchema { reason: _ } => {}
            Refusal::BadRow { row: _, column: _ } => {}
            Refusal::DuplicateKey {
                first: _,
                second: _,
            } => {}
            Refusal::SumBound {
                table: _,
                column: _,
            } => {}
            Refusal::Stale {
                asked: _,
                oldest: _,
            } => {}
            Refusal::Future {
                asked: _,
                newest: _,
            } => {}
            Refusal::NoColumn => {}
            Refusal::ReplaceGroup { column: _ } => {}
            Refusal::BadDefault { column: _ } => {}
            Refusal::InView { view: _ } => {}
            Refusal::BadFilter { term: _ } => {}
            Refusal::BadResume => {}
            Refusal::NoPin { token: _ } => {}
            Refusal::PinsFull { limit: _ } => {}
            Refusal::TablesFull { limit: _ } => {}
            Refusal::VersionsFull { limit: _ } => {}
            Refusal::ReadFault => {}
            Refusal::WriteFault => {}
            Refusal::Closed { position: _ } => {}
            Refusal::Damaged(_) => {}
            Refusal::Lost {
                lease: _,
                holder: _,
            } => {}
            Refusal::Memory => {}
            Refusal::EpochsFull { limit: _ } => {}
            Refusal::Changed { epoch: _ } => {}
            Refusal::TooManyDeltas { limit: _ } => {}
        }
    }
}

/// The reply to a command.
pub enum Reply {
    Table {
        name: Name,
    },
    View {
        name: Name,
    },
    Altered {
        table: Name,
        epoch: u32,
    },
    /// The rows are counted over all tables.
    Loaded {
        version: u32,
        rows: u64,
    },
    /// A query's answer.
    Page(Page),
    /// A query's answer by its number of rows alone.
    Rows {
        rows: u32,
        version: u32,
        more: bool,
    },
    /// The ranges of versions that a query would read, each from its first to its last version, and
    /// where a filter was named the relation in whose order it would be answered.
    Spans {
        ranges: Items<(u32, u32)>,
        by: Option<Name>,
    },
    Pinned {
        token: u32,
        version: u32,
    },
    Released {
        token: u32,
    },
    /// The oldest version of one table, or of all where none is named.
    Expired {
        table: Option<Name>,
        oldest: u32,
    },
    /// The deltas of these versions were merged into one.
    Swapped {
        from: u32,
        to: u32,
    },
    /// The table has the columns that its recast asked for, from this epoch on.
    Recast {
        table: Name,
        epoch: u32,
    },
    /// There is nothing to merge.
    Idle,
    /// The table has a lease that holds.
    Busy {
        lease: u64,
    },
    Refused(Refusal),
}

// Each exit calls this, in place of letting go of each part itself.
impl Drop for Reply {
    fn drop(self) {
        match self {
            Reply::Table { name: _ } => {}
            Reply::View { name: _ } => {}
            Reply::Altered { table: _, epoch: _ } => {}
            Reply::Loaded {
                version: _,
                rows: _,
            } => {}
            Reply::Page(_) => {}
            Reply::Rows {
                rows: _,
                version: _,
                more: _,
            } => {}
            Reply::Spans { ranges: _, by: _ } => {}
            Reply::Pinned {
                token: _,
                version: _,
            } => {}
            Reply::Released { token: _ } => {}
            Reply::Expired {
                table: _,
                oldest: _,
            } => {}
            Reply::Swapped { from: _, to: _ } => {}
            Reply::Recast { table: _, epoch: _ } => {}
            Reply::Idle => {}
            Reply::Busy { lease: _ } => {}
            Reply::Refused(_) => {}
        }
    }
}
