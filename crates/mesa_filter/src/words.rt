// A query as a script has it, and why it is refused.
use mesa_fold::{Name, Words};

/// A version as a script asks for it.
#[derive(Clone, Copy, Debug, PartialEq, Eq)]
pub enum VersionWord {
    /// The newest one.
    Latest,
    At(u32),
    /// The version of the session's pin with this token.
    Pin(u32),
}

/// A query as a script has it. An empty field stands for all columns, no filter, or no resume key.
#[derive(Drop)]
pub struct QueryWords {
    pub relation: Words,
    pub version: VersionWord,
    pub filter: Words,
    pub group: Words,
    pub values: Words,
    pub limit: u32,
    pub resume: Words,
}

/// Why a query of a relation is refused, in this order: its group columns, its value columns, replace columns, its filter, its resume key.
#[derive(Drop)]
pub enum QueryError {
    NoColumn,
    /// The first replace column that is asked while a key column isn't among the group columns.
    ReplaceGroup { column: Name },
    BadFilter { term: u16 },
    BadResume,
    Memory,
}
