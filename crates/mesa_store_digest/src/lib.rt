//! Looking at a store that was read: the rows of a relation at the newest version, and their digests. Nothing of the store is changed.
#![tactic(auto)]

mod error;
mod latest;
mod looking;

pub use error::LookError;
pub use latest::pin_latest;
pub use looking::look;
