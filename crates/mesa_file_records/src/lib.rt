//! The records that bring files under ids: those of loads, and why a batch isn't published; those of works and of recasts, by which a finished merge, or the ranges of a recast, take the place of others.
#![tactic(auto)]

mod adopting;
mod bounds;
mod failure;
mod laws;
mod lineages;
mod publishing;
mod recasting;
mod swapping;

pub use adopting::Adopting;
pub use failure::Unpublished;
pub use laws::totals_stay;
pub use lineages::{tables_become, tables_grow};
pub use publishing::{Published, publish};
pub use recasting::recast;
pub use swapping::{Swapped, swap};
