//! The turns of a vault that write a record: a table, a view, a change of columns, an expiry, and a load's deciding turn.
//!
//! One function does them all. It takes its memory first; then `commit` writes the record, with the files that it brings, and only then changes the vault's memory; and the reply is printed.
#![tactic(auto)]

mod commands;
mod committing;
mod deciding;
mod publishing;
mod ruling;
mod writing;

pub use commands::{alter, expire, table, view};
pub use committing::{Drops, Staged, commit};
pub use mesa_file_records::{Swapped, recast, swap, tables_become};
pub use publishing::publish;
