//! The history of a run: what each turn makes of what stands before it, which histories a run may have, what they
//! print, and what a store that is reopened after a crash holds.
//!
//! And what of a warehouse, of a turn and of a run doesn't hang on the stored rows (projections): which turn is
//! due, what is refused and what is legal, so that these are known of a store whose rows nobody has read.
#![tactic(auto)]

mod laws;
mod projections;

pub use laws::{
    claims_stay, closed_runs_refuse_what_comes, ended_runs_are_legal, moments_never_fall,
    sessions_keep_their_places, unrenewed_works_are_refused,
};
pub use projections::{commands_see_no_rows, runs_are_alike};
