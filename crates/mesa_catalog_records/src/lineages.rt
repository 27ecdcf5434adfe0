// A table's columns through its life, as a record makes them: always a new value, since pins share the old one.
//
// A record that fits is never refused by mesa_schema's rules, so what is refused here was for want of memory.
ghost use Rattle.std.specs.Prelude.{◌≡◌, ◌<◌, [], ◌∷◌, ◌++◌, IfOk, length};
ghost use Rattle.mesa_schema.specs.Changes.{with_change};
ghost use Rattle.mesa_schema.specs.Views.{with_view};

use mesa_list::{Items, TryCopy};
use mesa_schema::{Change, Evolving, KeyColumn, MAX_VIEWS, Name, Schema, ValueColumn};
use mesa_table_records::width_of;
use std::alloc::{AllocError, Global};
use std::sync::Arc;

/// A table's lineage with these columns alone.
pub(crate) fn new_lineage(
    alloc: Global,
    keys: &Items<KeyColumn>,
    values: &Items<ValueColumn>,
) -> Result<Arc<Evolving>, AllocError>
    ensures { IfOk result (λ e. e.value ≡ record { begins = 0; first = record { keys = keys.now; values = values.now }; changes = []; views = [] }) }
{
    let keys = keys.copy()?.into_vec();
    let values = values.copy()?.into_vec();
    match Schema::build(keys, values) {
        Ok(first) => Ok(Arc::new(alloc, Evolving::new(alloc, first))?),
        Err(_) => Err(AllocError),
    }
}

/// A table's lineage with a view more.
pub(crate) fn lineage_with_view(
    alloc: Global,
    evolving: &Evolving,
    name: &Name,
    keys: &Items<Name>,
    values: &Items<Name>,
) -> Result<Arc<Evolving>, AllocError>
    requires { length evolving.now.views < MAX_VIEWS }
    ensures { IfOk result (λ e. e.value ≡ with_view evolving.now (record { name = name.now; keys = keys.now; values = values.now })) }
{
    let name = name.copy()?;
    let keys = keys.copy()?.into_vec();
    let values = values.copy()?.into_vec();
    let mut evolving = evolving.copy()?;
    match evolving.add_view(name, keys, values) {
        Ok(()) => Ok(Arc::new(alloc, evolving)?),
        Err(_) => Err(AllocError),
    }
}

/// A table's lineage behind a change.
pub(crate) fn lineage_with_change(
    alloc: Global,
    evolving: &Evolving,
    change: &Change,
) -> Result<Arc<Evolving>, AllocError>
    ensures { IfOk result (λ e. e.value ≡ with_change evolving.now change.now) }
{
    let change = change.copy()?;
    let mut evolving = evolving.copy()?;
    match evolving.change(change) {
        Ok(()) => Ok(Arc::new(alloc, evolving)?),
        Err(_) => Err(AllocError),
    }
}

/// How many value columns there were in each epoch, with those of the present one.
pub(crate) fn widths_with(mut widths: Items<u8>, present: &Schema) -> Result<Items<u8>, AllocError>
    ensures { IfOk result (λ w. w ≡ widths ++ length present.now.values ∷ []) }
{
    widths.push(width_of(present))?;
    Ok(widths)
}
