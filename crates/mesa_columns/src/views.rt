// Views of a table.
use crate::Name;
use mesa_key::Items;
use std::alloc::AllocError;

/// A view of a table: key columns chosen among the table's, in any order, and value columns among its sum, min and max columns.
#[derive(Drop)]
pub struct View {
    pub name: Name,
    pub keys: Items<Name>,
    pub values: Items<Name>,
}

/// Why a view of a table is refused, the first reason that applies: what is wrong with its key columns comes before what is wrong with its value columns.
#[derive(Drop)]
pub enum ViewError {
    /// A column that the table doesn't have.
    NoColumn,
    NoKey,
    NoValue,
    NameTwice,
    /// A replace column, whose values depend on their order.
    ReplaceInView { column: Name },
    Memory,
}

impl From<AllocError> for ViewError {
    ghost use Rattle.mesa_columns.specs.declared.views.ViewError.TheVariants.{Memory};
    ghost use Rattle.std.specs.Prelude.{◌≡◌};

    ghost from_gives = { λ _ e. e ≡ Memory };

    fn from(_: AllocError) -> Self {
        ViewError::Memory
    }
}
