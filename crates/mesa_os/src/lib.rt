//! What a folder asks of the operating system, behind one trait, and the system itself. What a device does with a call no
//! contract can say; that it was made, in which order, and how it was answered, a handle tells, or it tells nothing.
#![tactic(auto)]

mod host;
mod system;

pub use host::{ClosedFile, Host};
pub use system::System;
