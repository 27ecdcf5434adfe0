//! The rules over the catalogue: what a command may do, decided by the catalogue alone and never by rows, with the record that the journal takes for it; or why it is refused.
#![tactic(auto)]

mod explaining;
mod found;
mod lookups;
mod ordering;
mod queries;
mod recasting;
mod ruled;
mod schemas;
mod versions;

pub use explaining::explain;
pub use found::Found;
pub use lookups::{relation_asked, table_number};
pub use ordering::ordered;
pub use queries::{query, relation_schema};
pub use recasting::{Regrouping, recast};
pub use ruled::Ruled;
pub use schemas::{alter, table, view};
pub use versions::{expire, expire_table, pin};
