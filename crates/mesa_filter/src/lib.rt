//! What a query asks: filters, columns, versions and resume keys.
#![tactic(auto)]

mod among;
mod asking;
mod copies;
mod filter;
mod laws;
mod literals;
mod matching;
mod parsing;
mod places;
mod query;
mod resuming;
mod terms;
mod words;

pub use filter::Filter;
pub use laws::filters_folds;
pub use places::chosen_places;
pub use query::Query;
pub use terms::{Comparison, FilterError, Term};
pub use words::{QueryError, QueryWords, VersionWord};
