//! The top call over a store: a script in, answers out; how a call ends, as definitions, and as its status and
//! its line where it runs nothing.
#![tactic(auto)]

mod checking;
mod digest_lines;
mod digesting;
mod done;
mod exit;
mod generating;
mod indexing;
mod lines;
mod opening;
mod running;
mod shell;
mod small_scripts;
mod standard;
pub mod statuses;
mod verdict_line;

pub use digest_lines::ended_digest;
pub use done::{Devices, Done};
pub use exit::{ended, ended_checked, ended_opening, ended_refused, lacks_memory, run_status};
pub use mesa_session::{Gate, OpenGate, Point};
pub use shell::{MAX_INPUT, mesa};
pub use small_scripts::{
    calls_leave_sound_stores, contents_are_folds_of_all_batches, empty_stores_are_sound,
    lives_are_lists_of_runs, scripts_are_small, stores_start_alike, stores_start_well_formed,
    unfailed_runs_stand,
};
pub use standard::program;
