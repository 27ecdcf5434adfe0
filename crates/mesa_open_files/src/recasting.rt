// The recast of a table, and what comes of its ranges.
use crate::MadeFile;
use mesa_delta::Input;
use mesa_file::Damage;
use mesa_list::Items;
use mesa_schema::{Evolving, Name, Totals};
use std::sync::Arc;

/// A table that is to be recast: its ranges, whose rows are to be grouped by other columns.
#[derive(Drop)]
pub struct Recast<R> {
    pub table: u16,
    /// The number of the lease under which the recast was granted.
    pub lease: u64,
    /// The table's epoch when it was granted.
    pub epoch: u32,
    /// The table as it was then. No input may be there to tell it.
    pub evolving: Arc<Evolving>,
    /// The key columns that the table is to have, by name.
    pub keys: Items<Name>,
    /// The value columns that it is to have.
    pub values: Items<Name>,
    /// Its base and its singletons with rows, in the order of their versions. Those that were loaded since the grant
    /// come behind.
    pub ranges: Vec<RecastRange<R>>,
    /// The first file that was absent or damaged when the files were opened; the rewriting answers it.
    pub damage: Option<Damage>,
}

/// A range of versions of a table that is to be recast.
#[derive(Drop)]
pub struct RecastRange<R> {
    pub from: u32,
    pub to: u32,
    /// The table's file of the range. None for a base without rows, and where the file is absent or damaged.
    pub input: Option<Input<R>>,
}

/// The ranges of a table as they are rewritten, in the order of the recast's.
#[derive(Drop)]
pub struct Recasted<M> {
    pub ranges: Vec<RecastedRange<M>>,
}

/// A range that is rewritten: the finished file of its rows, none where it has none, and their absolute totals.
#[derive(Drop)]
pub struct RecastedRange<M> {
    pub from: u32,
    pub to: u32,
    pub file: Option<MadeFile<M>>,
    pub totals: Totals,
}
