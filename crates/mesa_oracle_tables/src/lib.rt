//! The tables of the plain warehouse with their contents at each version, as whole lists in memory, and what each command
//! makes of them.
#![tactic(auto)]

mod changing;
mod growing;
mod names;
mod regrouping;
mod store;

pub use names::Place;
pub use store::PlainStore;
