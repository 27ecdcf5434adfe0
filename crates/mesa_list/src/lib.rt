//! Lists that contracts see as lists, and the words in which the crates above write their checks.
#![tactic(auto)]

mod buffers;
mod copies;
mod fields;
mod items;
mod splitting;
mod words;

pub use buffers::put_bytes;
pub use copies::TryCopy;
pub use fields::{Fields, FieldsView};
pub use items::Items;
pub use splitting::{Parts, place_of_byte};
pub use words::Words;
