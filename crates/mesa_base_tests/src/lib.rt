//! What values, schemas, filters, records, scripts and the reference warehouse answer on worked rows, and threads that take turns to their end.
#![tactic(auto)]

#[cfg(test)]
mod blocks;
#[cfg(test)]
mod expected;
#[cfg(test)]
mod filter;
#[cfg(test)]
mod keys;
#[cfg(test)]
mod leases;
#[cfg(test)]
mod record;
#[cfg(test)]
mod reference;
#[cfg(test)]
mod schema;
#[cfg(test)]
mod script;
#[cfg(test)]
mod spans;
#[cfg(test)]
mod streams;
#[cfg(test)]
mod turns;
