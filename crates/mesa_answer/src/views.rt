// The content of views, and of tables that are recast.
ghost use Rattle.std.specs.Prelude.{◌≡◌, ◌<◌, IfOk, IfSome, length, slice_get};
ghost use Rattle.mesa_schema.specs.Changes.{columns_of};
ghost use Rattle.mesa_schema.specs.Recasts.{recast_columns, recast_rows as regrouped};
ghost use Rattle.mesa_model.specs.mesa_columns.Rows.{AreRowsOf};
ghost use Rattle.mesa_schema.specs.Views.{view_columns, view_rows as content_of};
ghost use Rattle.mesa_answer.specs.Answering.{KeepsSums};

use crate::group;
use mesa_filter::chosen_places;
use mesa_schema::{Evolving, Name, Row, RowList, Schema};
use std::alloc::{AllocError, Global};

/// The content of the view of a number: the rows of its table, grouped by the view's columns.
pub fn view_rows(
    alloc: Global,
    evolving: &Evolving,
    view: u8,
    rows: &[Row],
) -> Result<RowList, AllocError>
    requires there { view < length evolving.now.views }
    requires of_table { AreRowsOf (columns_of evolving.now) rows.now }
    requires bounded { KeepsSums (columns_of evolving.now) rows.now }
    ensures content { IfOk result (λ found. IfSome (slice_get evolving.now.views view) (λ v. found ≡ content_of (columns_of evolving.now) v rows.now)) }
    ensures form { IfOk result (λ found. IfSome (slice_get evolving.now.views view) (λ v. AreRowsOf (view_columns (columns_of evolving.now) v) found)) }
    ensures bounded { IfOk result (λ found. IfSome (slice_get evolving.now.views view) (λ v. KeepsSums (view_columns (columns_of evolving.now) v) found)) }
{
    let schema = evolving.present();
    let view = evolving.view(view);
    let columns = chosen_places(alloc, view.keys.as_slice(), schema.keys())?;
    let values = chosen_places(alloc, view.values.as_slice(), schema.values())?;
    group(alloc, schema, &columns, &values, rows)
}

/// A table's rows once it is recast to the key columns and value columns of these names: grouped by
/// them, in their order.
pub fn recast_rows(
    alloc: Global,
    schema: &Schema,
    keys: &[Name],
    values: &[Name],
    rows: &[Row],
) -> Result<RowList, AllocError>
    requires of_table { AreRowsOf schema.now rows.now }
    requires bounded { KeepsSums schema.now rows.now }
    ensures content { IfOk result (λ found. found ≡ regrouped schema.now (record { keys = keys.now; values = values.now }) rows.now) }
    ensures form { IfOk result (λ found. AreRowsOf (recast_columns schema.now (record { keys = keys.now; values = values.now })) found) }
    ensures bounded { IfOk result (λ found. KeepsSums (recast_columns schema.now (record { keys = keys.now; values = values.now })) found) }
{
    let columns = chosen_places(alloc, keys, schema.keys())?;
    let values = chosen_places(alloc, values, schema.values())?;
    group(alloc, schema, &columns, &values, rows)
}
