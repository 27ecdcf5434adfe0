// Tests of preparing a batch: which files it gets, and what stays where a draft fails.
mod failing;
mod files;
mod loads;
