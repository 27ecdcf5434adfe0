// Scripts of one session over an empty store, and words and streams that run none.
mod changes;
mod digests;
mod expiries;
mod generated;
mod limits;
mod loads;
mod orders;
mod pages;
mod recasts;
mod records;
mod scripts;
mod statuses;
mod works;
