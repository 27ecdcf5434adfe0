// Tables' columns, shared with a catalogue.
ghost use Rattle.std.specs.Prelude.{◌≡◌, IfOk};
ghost use Rattle.mesa_batch.specs.Shared.{shared_columns};

use mesa_list::Items;
use mesa_schema::Evolving;
use std::alloc::AllocError;
use std::sync::Arc;

// The same columns once more; none is copied.
pub(crate) fn shared_again(
    columns: &Items<Arc<Evolving>>,
) -> Result<Items<Arc<Evolving>>, AllocError>
    ensures { IfOk result (λ again. shared_columns again ≡ shared_columns columns.now) }
{
    let mut again = Items::new(columns.allocator());
    'tables: for evolving in columns.as_slice() {
        again.push(evolving.clone()?)?;
    }
    Ok(again)
}
