//! What a command's words ask for: a table's columns, a view, a change of a schema, a recast, a query, a filter; or why they ask for none. All of it is decided by the words and by one table's columns and views.
#![tactic(auto)]

mod altering;
mod failure;
mod filtering;
mod making;
mod naming;
mod querying;
mod recasting;
mod viewing;

pub use altering::{change_asked, change_failure, changed_name};
pub use failure::Failure;
pub use filtering::read_filter;
pub use making::schema_asked;
pub use naming::read_name;
pub use querying::{build_query, check_query};
pub use recasting::{RecastNames, recast_asked, recast_failure};
pub use viewing::view_asked;
