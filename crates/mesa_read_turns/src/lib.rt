//! Turns of a vault that write nothing: a load's look, a pin and its release, an explain, and a query's two, of
//! which the first opens the files that answer it, and the last prints its page.
#![tactic(auto)]

mod allowed_query;
mod closing_query;
mod damages;
mod explaining;
mod giving_back;
mod holding;
mod looking;
mod opening_query;
mod pinning;
mod query_files;
mod releasing;
mod seeing;
mod spans;

pub use allowed_query::{Asked, ask};
pub use closing_query::close_query;
pub use damages::can_be_told;
pub use explaining::explain;
pub use giving_back::give_back_query;
pub use looking::look;
pub use mesa_pick_files::{Gathered, GatheredRanges, gather, gather_more, gather_recast};
pub use opening_query::pin_query;
pub use pinning::pin;
pub use releasing::release;
pub use seeing::{Seen, seen_by};
