//! The turns of a session's commands, each by one call of the vault under the lock, and what is done between them and in them: a load's rows get their files, a query is answered, a work's files are merged, a recast's ranges are rewritten.
#![tactic(auto)]

mod outside;
mod preparing;
mod turns;

pub use mesa_core::{Vault, turns_of};
pub use mesa_engine::{Naming, Who};
pub use mesa_open_files::DeltaDisk;
pub use outside::{answered, merged, regrouped};
pub use preparing::prepared_first;
pub use turns::{
    abandon_turn, close_turn, complete_turn, grant_recast_turn, grant_turn, look_turn, pin_turn,
    publish_turn, recast_turn, renew_recast_turn, renew_turn, simple_turn,
};
