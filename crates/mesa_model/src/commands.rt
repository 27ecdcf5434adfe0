// What a script asks.
use mesa_batch::LoadRows;
use mesa_columns::{Agg, Fields, Items, KeyType, Words};
use mesa_filter::{QueryWords, VersionWord};

/// A key column as a script has it: its name may be any bytes without a space.
#[derive(Drop)]
pub struct KeyWords {
    pub name: Words,
    pub kind: KeyType,
}

/// A value column as a script has it: its name may be any bytes without a space.
#[derive(Drop)]
pub struct ValueWords {
    pub name: Words,
    pub agg: Agg,
}

/// A table that is to be made.
#[derive(Drop)]
pub struct TableWords {
    pub table: Words,
    pub keys: Items<KeyWords>,
    pub values: Items<ValueWords>,
}

/// A view that is to be made of a table, by the names of its columns.
#[derive(Drop)]
pub struct ViewWords {
    pub view: Words,
    pub table: Words,
    pub keys: Fields,
    pub values: Fields,
}

/// A change of a table's schema. A default is read once the column it belongs to is known to be
/// allowed.
#[derive(Drop)]
pub enum ChangeWords {
    AddValue { column: ValueWords, default: Words },
    DropValue { name: Words },
    AddKey { column: KeyWords, default: Words },
}

/// A table whose schema is to change.
#[derive(Drop)]
pub struct AlterWords {
    pub table: Words,
    pub change: ChangeWords,
}

/// A table or view of which the deltas that a query would read are asked, and the filter of that
/// query, where the relation is asked too by whose order it would be answered.
#[derive(Drop)]
pub struct ExplainWords {
    pub relation: Words,
    pub version: VersionWord,
    pub filter: Option<Words>,
}

/// A table of which deltas are to be merged, and into how many parts of its keys, 1 to 8, the merge
/// is cut. The parts change nothing in what is merged.
#[derive(Drop)]
pub struct WorkWords {
    pub table: Words,
    pub parts: u8,
}

/// A table that is to have these of its columns, by name and in this order.
#[derive(Drop)]
pub struct RecastWords {
    pub table: Words,
    pub keys: Fields,
    pub values: Fields,
}

/// A command of a script.
pub enum Command {
    Table(TableWords),
    View(ViewWords),
    Alter(AlterWords),
    /// A batch of rows, perhaps of none.
    Load(LoadRows),
    Query(QueryWords),
    Explain(ExplainWords),
    /// A version that the session is to keep.
    Pin(VersionWord),
    /// The token of a pin that the session gives back.
    Release(u32),
    /// The version below which none is to be asked for any more, of one table or of all.
    Expire { table: Option<Words>, version: u32 },
    Work(WorkWords),
    Recast(RecastWords),
}

// Each exit calls this, in place of letting go of each part itself.
impl Drop for Command {
    fn drop(self) {
        match self {
            Command::Table(_) => {}
            Command::View(_) => {}
            Command::Alter(_) => {}
            Command::Load(_) => {}
            Command::Query(_) => {}
            Command::Explain(_) => {}
            Command::Pin(_) => {}
            Command::Release(_) => {}
            Command::Expire {
                table: _,
                version: _,
            } => {}
            Command::Work(_) => {}
            Command::Recast(_) => {}
        }
    }
}

/// A session's commands, which are numbered from 1.
pub type Session = Items<Command>;

/// A script: the turns that a lease lasts, and each session's commands. The first session is the
/// prologue, which runs alone before the others.
#[derive(Drop)]
pub struct Script {
    pub lease: u32,
    pub sessions: Items<Session>,
}
