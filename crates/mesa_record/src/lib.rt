//! Records of the journal and their bytes: each record has one spelling in each edition that has room for it.
#![tactic(auto)]

mod checkpoint;
mod copies;
mod files;
mod laws;
mod reading;
mod recasting;
mod record;
mod stated;
mod writing;

pub use checkpoint::{Checkpoint, CheckpointRange, CheckpointSingle, CheckpointTable};
pub use laws::{reads_records, spells_records};
pub use mesa_record_fields::{Edition, RecordError};
pub use reading::decode;
pub use recasting::{RecastBase, Recasting};
pub use record::{Files, Part, Record, ViewRef};
pub use writing::encode;
