//! What an image of a store says: the catalogue that its journal makes, the warehouse that this
//! catalogue and the rows of its files stand for, and when an image is sound.
//!
//! Its laws say what records do to what a catalogue stands for: each that fits moves it as its command moves the
//! reference warehouse and the ranges, and what holds of catalogues, of their files and of the rows
//! of these goes on to hold.
#![tactic(auto)]

mod checkpoints;
mod files;
mod laws;
mod moves;
mod rewriting;
mod shapes;
mod sources;
mod works;

pub use checkpoints::catalogs_are_stated;
pub use files::{
    brought_ids_are_new, catalogs_own_ids, changes_keep_files, expiries_keep_files,
    ids_are_counted, rows_count_where_named, views_keep_files,
};
pub use laws::empty_images_are_sound;
pub use moves::{batches_move, commands_move, recasts_move, runs_move_nothing, works_move};
pub use rewriting::rewritten_ranges_bring;
pub use shapes::{catalogs_are_shaped, catalogs_go_on, records_keep_shape};
pub use sources::{
    batches_are_accepted, sources_begin, sources_go_on, sources_tell, works_merge_sources,
};
pub use works::{due_works_fit, plans_fold};
