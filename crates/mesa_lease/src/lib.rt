//! Leases under which tables are worked on. A lease holds for a number of turns, so a worker that
//! falls silent blocks nobody for ever. Nothing here takes memory.
#![tactic(auto)]

mod lease;
mod leases;

pub use lease::{Busy, Lease, Lost};
pub use leases::{Leases, TABLES};
