//! Tests of a store on a disk in memory: it is written record by record, stopped at every moment, damaged, and read again.
#![tactic(auto)]

#[cfg(test)]
mod adopting;
#[cfg(test)]
mod damage;
#[cfg(test)]
mod moments;
#[cfg(test)]
mod shown;
#[cfg(test)]
mod spelled;
#[cfg(test)]
mod stated;
#[cfg(test)]
mod store;
#[cfg(test)]
mod versions;
