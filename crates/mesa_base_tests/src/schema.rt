// What names, schemas, views and batches take and refuse, and digests of rows.
mod batches;
mod changes;
pub mod columns;
mod digests;
mod schemas;
mod views;
