// Tests of delta files that cross crates.
mod digests;
mod equal_keys;
mod files;
mod indexes;
mod reading;
mod writing;
