// A filter that leaves nothing out.
ghost use Rattle.std.specs.Prelude.{◌≡◌, [], IfOk};
ghost use Rattle.mesa_columns.specs.Columns.{kinds_of};

use mesa_columns::Schema;
use mesa_filter::Filter;
use std::alloc::{AllocError, Global};

/// The filter that every row of a schema meets.
pub fn every_row(alloc: Global, schema: &Schema) -> Result<Filter, AllocError>
    ensures kinds { IfOk result (λ f. f.kinds ≡ kinds_of schema.now) }
    ensures terms { IfOk result (λ f. f.terms ≡ []) }
{
    // A text without terms is refused for want of memory alone.
    match Filter::parse(alloc, schema, b"") {
        Ok(filter) => Ok(filter),
        Err(_) => Err(AllocError),
    }
}
