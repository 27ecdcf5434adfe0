//! The invariant: what a vault's books, its disk and its sink are to the history of its run, and how each
//! turn keeps it.
//!
//! A vault's books are its catalogue, pins, leases and closing position. What they stand for is a
//! warehouse without rows and a range machine on every store; where the store was sound when the run
//! began, they stand for its rows too. The state that a history gives by Replay has these books, each
//! entry is one that the run may have, what was printed and what a crash may have left is what the
//! history says.
//!
//! There is no code here. The turns of a vault are lemmas over books, in public modules of this
//! crate's proofs, each of which asks what a call of the vault has done and gives the invariant with one
//! entry more.
#![tactic(auto)]

mod laws;

pub use laws::{pins_change_books, starts_are_alike, turns_take_sessions_on};
