//! Opening a store: its journal and its files are read and tested, and a run is begun.
//!
//! `read` writes nothing. It gives the catalogue that the records of the journal's live area make, once each
//! file that the catalogue names was found with its length and the digest of its tail. `begin` makes all that
//! was read stay, states the catalogue anew in the other area where the live one has become long, appends the
//! record of a run, and removes each file that the catalogue doesn't name.
//!
//! Beside them stand what an opening tests of the files, what it writes when a run begins, and why it ends.
#![tactic(auto)]

mod anew;
mod beginning;
mod checking;
mod error;
mod framing;
mod opened;
mod reading;
mod records;
mod strays;

pub use beginning::begin;
pub use checking::check_files;
pub use error::OpenError;
pub use framing::{frame, write_run};
pub use mesa_catalog::Begun;
pub use mesa_catalog_table::Recorded;
pub use opened::Opened;
pub use reading::read;
pub use strays::find_strays;
