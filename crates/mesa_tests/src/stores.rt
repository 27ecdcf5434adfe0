// Stores that were left by earlier runs, that are damaged or unsound, or of whose devices calls fail.
mod checkpoints;
mod crashes;
mod damage;
mod failed_loads;
mod failing;
mod faults;
mod formats;
mod fronts;
mod older;
mod recasts;
mod reopening;
pub mod shown;
mod unsound;
