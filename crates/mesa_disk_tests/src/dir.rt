// Tests of the disk and the benches over a real folder.
mod areas;
mod calls;
mod files;
mod folders;
mod openings;
mod recorder;
