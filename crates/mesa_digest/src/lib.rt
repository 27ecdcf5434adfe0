//! Digests of a relation's rows.
#![tactic(auto)]

mod digesting;
mod hashing;
mod laws;
mod naming;
mod ordering;

pub use digesting::{DigestPair, digests};
pub use laws::{further_orders, names_once, sets_once};
