// Tests of merging files, whole and in parts, and of recasting tables, over files that are written byte by byte.
mod files;
mod merging;
mod overflow;
mod pairs;
mod parts;
mod recasting;
mod splitting;
mod tests;
mod watched;
mod wide;
