//! Tests of disks in memory and in a folder, of journals on them in one area and in two, and of files that are read through a cache.
#![tactic(auto)]

#[cfg(test)]
mod areas;
#[cfg(test)]
mod cached;
#[cfg(test)]
mod dir;
#[cfg(test)]
mod disk;
#[cfg(test)]
mod expected;
#[cfg(test)]
mod journal;
mod told;

pub use told::Told;
