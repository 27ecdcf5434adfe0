//! Queries answered from files: the rows of each file go into the groups of a page as they are read, by one
//! thread or by a few, so that a few blocks and the groups are all that is held. A file is read as it is, or
//! through a cache of its pages.
#![tactic(auto)]

mod answering;
mod caching;
mod gathering;
mod laws;
mod newest;
mod relation;
mod unpaged;
mod warm;

pub use answering::answer;
pub use laws::views_fold_ungrouped;
pub use unpaged::whole;
pub use warm::Warm;
