//! The vault: one run over a store, in turns. Each call that is a turn's adds one entry to the history, and is
//! one step of what the run's script asks.
//!
//! And definitions and laws of sessions, in whose words its calls are stated: what one knows of a run by its
//! pass, whatever turns others took meanwhile; what a load sees of the tables; what is known of the files that
//! were handed out, however much of them is read.
#![tactic(auto)]

mod asked;
mod commands;
mod loads;
mod passes;
mod queries;
mod recasts;
mod room;
mod sights;
mod standing;
mod starting;
mod tasks_known;
mod turned;
mod vault;
mod works;

pub use mesa_engine::Who;
pub use passes::{passes_are_divided, sessions_end, turns_go_on};
pub use room::turns_of;
pub use sights::sights_last;
pub use tasks_known::{
    bounds_are_known, grants_are_known, leases_hold, merges_are_known, ranges_are_known,
    ranges_go_on, recasts_are_known, recasts_go_on, tables_go_on,
};
pub use vault::Vault;
