// Relations: what a query may name.

/// A table, or a view of it, by their numbers, which count from 0 in the order in which they were made.
#[derive(Clone, Copy, Debug, PartialEq, Eq)]
pub struct Relation {
    pub table: u16,
    /// None for the table itself.
    pub view: Option<u8>,
}
