//! What the warehouse is: its commands and replies, the turns of its history, and the reference
//! warehouse, which answers a command over whole lists.
#![tactic(auto)]

mod commands;
mod copies;
mod entries;
mod laws;
mod replies;

pub use commands::{
    AlterWords, ChangeWords, Command, ExplainWords, KeyWords, RecastWords, Script, Session,
    TableWords, ValueWords, ViewWords, WorkWords,
};
pub use entries::{Entry, Kind, Outcome};
pub use laws::{closes_to_every_command, numbers_tell_entries};
pub use mesa_columns::Words;
pub use replies::{Page, Refusal, Reply, SchemaFault};
