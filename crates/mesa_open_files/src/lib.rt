//! What is handed out of turns and comes back to them: the files of a batch, of a merged range or of a recast table, and the inputs of a merge, a recast or a query; and how files are opened and given back.
#![tactic(auto)]

mod delta_disk;
mod giving_back;
mod made;
mod merging;
mod opening;
mod prepared;
mod querying;
mod recasting;

pub use delta_disk::DeltaDisk;
pub use giving_back::{
    retire_all, retire_input, retire_pinned, retire_ranges, retire_recast, retire_spare,
    retire_spares, retire_task,
};
pub use made::{MadeFile, MadeFiles, MadeView};
pub use merging::{CompactError, NewDelta, Spare, Task};
pub use opening::{Met, Opened, Unopened, Wanted, open_all, open_one};
pub use prepared::{LoadError, Prepared, PreparedPart};
pub use querying::{Pinned, PinnedInput};
pub use recasting::{Recast, RecastRange, Recasted, RecastedRange};
