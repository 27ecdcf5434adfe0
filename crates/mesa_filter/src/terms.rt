// The terms of a filter.
use mesa_fold::KeyValue;
use mesa_list::Items;

/// How a column's value compares with a literal.
#[derive(Clone, Copy, Debug, PartialEq, Eq)]
pub enum Comparison {
    Equal,
    AtMost,
    AtLeast,
    Less,
    Greater,
}

/// A term of a filter: the key column at a place compares so with one of the literals.
#[derive(Drop)]
pub struct Term {
    pub column: u16,
    pub comparison: Comparison,
    pub literals: Items<KeyValue>,
}

/// Why a filter is refused, the first fault from the left; within a term its form, then its column, then its literals. Terms count from 1.
#[derive(Clone, Copy, Debug, PartialEq, Eq)]
pub enum FilterError {
    NoColumn { term: u16 },
    BadLiteral { term: u16 },
    BadForm { term: u16 },
    Memory,
}
