//! A ticket lock whose locked value stands for the whole history of turns.
//!
//! Each thread has a pass, which knows the history that it has seen and which positions in it are
//! its own. A turn is one ticket: the value is taken out when the ticket is served, gets exactly
//! one entry more, and is put back. So the tickets are the positions of one history, whatever the
//! schedule was.
#![tactic(auto)]

mod entries;
mod held;
mod lock;
mod pass;
mod plays;
mod steps;
mod view;

pub use entries::{
    entries_all, entries_apart, entries_found, entries_kept_in, entries_more, others_behind,
};
pub use held::Held;
pub use lock::TurnLock;
pub use pass::Pass;
pub use view::Turned;
