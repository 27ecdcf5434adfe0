//! Laws of the warehouse: what its definitions say together, over whole histories, and over scripts of which one
//! session alone has commands.
#![tactic(auto)]

mod answering;
mod laws;
mod loading;
mod paging;
mod single_session;
mod versions;

pub use answering::answers_from_the_fold;
pub use laws::{fold_law, keeps_well_formed, ranges_stay, recasts_close_by_views};
pub use loading::batch_is_whole;
pub use paging::{pages_chain, queries_go_on};
pub use single_session::{one_session_prints_one_text, one_session_runs_alone};
pub use versions::{expire_keeps_answers, versions_stay};
