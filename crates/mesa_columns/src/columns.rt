// The columns of tables and views.
ghost use Rattle.std.specs.Prelude.{◌≡◌};
ghost use Rattle.mesa_columns.specs.Columns.{is_replace as replaces};

use crate::Name;
use mesa_key::{Agg, KeyType};

/// A key column.
#[derive(Drop)]
pub struct KeyColumn {
    pub name: Name,
    pub kind: KeyType,
}

/// A value column.
#[derive(Drop)]
pub struct ValueColumn {
    pub name: Name,
    pub agg: Agg,
}

impl ValueColumn {
    /// Whether the newest of the values of a key counts.
    pub fn is_replace(&self) -> bool
        ensures { result ≡ replaces self.now }
    {
        matches!(self.agg, Agg::Replace)
    }
}
