//! The plain warehouse: a slow program that is the reference warehouse, over whole lists in memory.
#![tactic(auto)]

mod gathering;
mod pins;
mod warehouse;

pub use warehouse::PlainWarehouse;
