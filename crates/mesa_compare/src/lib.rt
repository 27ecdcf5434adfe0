//! Files of a store compared with what they are to have: where a cumulative first differs from the fold of its
//! range's singletons, and a view's file from its table's rows, grouped. They are read as streams, each once. What a
//! check needs of examining a file is passed on.
#![tactic(auto)]

mod answers;
mod comparing;
mod cumulatives;
mod finishing;
mod grouped;
mod keys;
mod laws;
mod merged;
mod views;

pub use comparing::differing_key;
pub use cumulatives::cumulative_difference;
pub use laws::same_rows_differ_nowhere;
pub use mesa_examine::{CheckError, DeltaDisk, Sums, Wanted, examine};
pub use views::view_difference;
