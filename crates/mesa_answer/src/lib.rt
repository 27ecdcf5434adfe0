//! Answering: rows are gathered into groups one by one, a query is answered by a page of them, and a view has its content.
#![tactic(auto)]

mod answering;
mod error;
mod grouping;
mod groups;
mod guesses;
mod hand;
mod held;
mod laws;
mod page;
mod regrouping;
mod views;
mod window;

pub use answering::answer;
pub use error::GroupError;
pub use grouping::group;
pub use groups::Groups;
pub use hand::Hand;
pub use laws::{answer_over_parts, first_groups_join};
pub use regrouping::Regrouping;
pub use views::{recast_rows, view_rows};
