// Sessions beside each other, and runs that are done again by the plain warehouse.
pub mod beside;
mod held;
mod long;
mod recasts;
pub mod replay;
