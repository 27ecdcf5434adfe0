//! Scripts and the words that the program is called with, parsed.
#![tactic(auto)]

mod changes;
mod columns;
mod command;
mod failed;
mod forms;
mod items;
mod kinds;
mod numbers;
mod reading;
mod records;
mod scripts;
mod versions;

pub use forms::{Form, read_form};
pub use numbers::number_in;
pub use scripts::parse;
