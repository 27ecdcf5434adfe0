//! The files of a batch: its rows by table, and each view's, written side by side before a turn publishes them.
#![tactic(auto)]

mod building;
mod collecting;
mod drafts;
mod file_rows;
mod parts;
mod planning;
mod preparing;
mod viewing;
mod writing;

pub use preparing::prepare;
