// Grouping rows.
ghost use Rattle.std.specs.Prelude.{◌≡◌, None, IsTrue, IfOk, false};
ghost use Rattle.mesa_model.specs.mesa_columns.Rows.{AreRowsOf};
ghost use Rattle.mesa_model.specs.mesa_fold.Folded.{grouped};
ghost use Rattle.mesa_filter.specs.Query.{are_places};
ghost use Rattle.mesa_answer.specs.Answering.{KeepsSums, grouped_columns};
ghost use Rattle.mesa_answer.specs.Gathered.{HasPut, wanted_of};

use crate::answering::put_bounded;
use crate::groups::Groups;
use mesa_schema::{Row, RowList, Schema};
use std::alloc::{AllocError, Global};

/// Groups rows by the key columns at these places: a row for each group key that occurs, in the
/// order of the group keys, with the value columns at those places combined in the rows' order.
/// Where there are no key columns all rows are one group, whose key is empty.
pub fn group(
    alloc: Global,
    schema: &Schema,
    columns: &[u16],
    values: &[u16],
    rows: &[Row],
) -> Result<RowList, AllocError>
    requires columns_there { IsTrue (are_places schema.now.keys columns.now) }
    requires values_there { IsTrue (are_places schema.now.values values.now) }
    requires of_schema { AreRowsOf schema.now rows.now }
    requires bounded { KeepsSums schema.now rows.now }
    ensures grouped { IfOk result (λ found. found ≡ grouped schema.now columns.now values.now rows.now) }
    ensures form { IfOk result (λ found. AreRowsOf (grouped_columns schema.now columns.now values.now) found) }
    ensures bounded { IfOk result (λ found. KeepsSums (grouped_columns schema.now columns.now values.now) found) }
{
    let groups = gathered(alloc, schema, columns, values, rows)?;
    groups.into_rows()
}

// All groups of the rows.
fn gathered<'a>(
    alloc: Global,
    schema: &'a Schema,
    columns: &'a [u16],
    values: &'a [u16],
    rows: &[Row],
) -> Result<Groups<'a>, AllocError>
    requires columns_there { IsTrue (are_places schema.now.keys columns.now) }
    requires values_there { IsTrue (are_places schema.now.values values.now) }
    requires of_schema { AreRowsOf schema.now rows.now }
    requires bounded { KeepsSums schema.now rows.now }
    ensures put { IfOk result (λ groups. HasPut groups rows.now) }
    ensures wanted { IfOk result (λ groups. wanted_of groups ≡ record { schema = schema.now; columns = columns.now; values = values.now; resume = None; inclusive = false; most = usize.MAX }) }
{
    let mut groups = Groups::all(alloc, schema, columns, values)?;
    for row in rows {
        put_bounded(&mut groups, row.lend())?;
    }
    Ok(groups)
}
