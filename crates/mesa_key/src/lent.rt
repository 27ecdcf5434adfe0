// Values of key columns, looked at in place.
ghost use Rattle.std.specs.Prelude.{◌≡◌};
ghost use Rattle.std.specs.Ordering.{is_eq};
ghost use Rattle.mesa_key.specs.Columns.{seen};
ghost use Rattle.mesa_key.specs.Order.{value_cmp};

use crate::KeyValue;
use std::cmp::Ordering;

/// The value of a column of an encoded key; a text is lent by the key.
#[derive(Clone, Copy)]
pub enum ColumnValue<'a> {
    Int(i64),
    Text(&'a [u8]),
}

impl<'a> ColumnValue<'a> {
    /// The order of the value and another one of its type, which stands by itself.
    pub fn compare(self, other: &KeyValue) -> Ordering
        ensures { result ≡ value_cmp (seen self.entry) other.now }
    {
        match (self, other) {
            (ColumnValue::Int(a), KeyValue::Int(b)) => a.cmp(b),
            (ColumnValue::Text(a), KeyValue::Text(b)) => a.cmp(b.as_bytes()),
            (ColumnValue::Int(_), KeyValue::Text(_)) => Ordering::Less,
            (ColumnValue::Text(_), KeyValue::Int(_)) => Ordering::Greater,
        }
    }

    /// Whether two values are equal.
    pub fn is_same(self, other: ColumnValue) -> bool
        ensures { result ≡ is_eq (value_cmp (seen self.entry) (seen other.entry)) }
    {
        match (self, other) {
            (ColumnValue::Int(a), ColumnValue::Int(b)) => a.cmp(&b).is_eq(),
            (ColumnValue::Text(a), ColumnValue::Text(b)) => a.cmp(b).is_eq(),
            _ => false,
        }
    }
}
