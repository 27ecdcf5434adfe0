//! The engine of a vault: its memory, its disk and its log, and what they are to the history of its run whenever
//! no turn is under way.
//!
//! The turns stand in the crates above. Here are its start and its end, what can be asked of it between turns,
//! and the turns that do nothing for their command; the log, which is the history of the run and what of it is
//! printed; and the memory: the catalogue, the pins and the open queries with the files that they hold, the files
//! that wait to be removed, and the leases. A call that has no answer for want of memory takes none.
#![tactic(auto)]

mod counts;
mod engine;
mod failing;
mod failure;
mod holders;
mod index;
mod leasing;
mod log;
mod metadata;
mod naming;
mod pinning;
mod recording;
mod starting;
mod trash;
mod who;

pub use engine::Engine;
pub use failure::Failure;
pub use holders::Pin;
pub use log::Log;
pub use mesa_binding as binding;
pub use mesa_catalog::{Begun, Catalog};
pub use metadata::Metadata;
pub use naming::Naming;
pub use who::Who;
