//! Sessions: the commands of one after the other, each in the turns that it takes under the lock, with what can be done outside turns done there; and all sessions of a script over one lock, the prologue alone, and then the others at once, each in a thread.
#![tactic(auto)]

mod all;
mod commands;
mod gate;
mod serving;
mod session;

pub use gate::{Gate, OpenGate, Point};
pub use mesa_session_turns::{Vault, turns_of};
pub use serving::serve;
pub use session::{Sessions, run_session};
