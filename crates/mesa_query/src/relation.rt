// The columns of the queried relation.
ghost use Rattle.std.specs.Prelude.{◌≡◌, ℕ, IfOk, Option, List};
ghost use Rattle.mesa_group_blocks.specs.mesa_schema.Changes.{columns_of};
ghost use Rattle.mesa_group_blocks.specs.mesa_columns.Columns.{Columns};
ghost use Rattle.mesa_group_blocks.specs.mesa_open_files.Inputs.{lineage_of};
ghost use Rattle.mesa_group_blocks.specs.mesa_open_files.Pins.{IsOfRelation};

use mesa_disk::FileReader;
use mesa_group_blocks::{PinnedInput, Schema};
use mesa_list::TryCopy;
use std::alloc::AllocError;

// The columns of the relation of this file: its own, or those of its table's view of this number.
pub(crate) fn relation_columns<R: FileReader>(
    view: Option<u8>,
    one: &PinnedInput<R>,
) -> Result<Schema, AllocError>
    requires { (s : Columns) × IsOfRelation s view (lineage_of one.now.input) one.now.own }
    ensures { IfOk result (λ found. (s : Columns) → IsOfRelation s view (lineage_of one.now.input) one.now.own → found ≡ s) }
{
    if one.own {
        return one.input.evolving.present().copy();
    }
    match view {
        Some(view) => one.input.evolving.view_schema(view),
        None => unreachable!(),
    }
}
