//! A file read through a cache of its pages.
#![tactic(auto)]

mod cached;
mod pages;

pub use cached::Cached;
