//! Scripts and printed answers: the grammar of a script over the records that csv reads, and the
//! text of every reply.
#![tactic(auto)]

mod rendered;
mod script;

pub use mesa_model::{Script, Session};
pub use rendered::Rendered;
pub use script::{Reason, ScriptError};
