// The content of a view over a batch's rows.
ghost use Rattle.std.specs.Prelude.{◌≡◌, ◌<◌, List, [], ◌∷◌, ◌++◌, length, IfOk, OnOk};
ghost use Rattle.mesa_open_files.specs.mesa_columns.declared.rows.Row.{Row as AnyRow};
ghost use Rattle.mesa_schema.specs.Changes.{columns_of};
ghost use Rattle.mesa_open_files.specs.mesa_columns.Lent.{lent};
ghost use Rattle.mesa_open_files.specs.mesa_columns.Rows.{AreRowsOf, IsRowOf};
ghost use Rattle.mesa_schema.specs.Views.{view_columns, view_rows};
ghost use Rattle.mesa_batch.specs.Gathered.{rows_at};
ghost use Rattle.mesa_answer.specs.Answering.{KeepsSums};
ghost use Rattle.mesa_answer.specs.Gathered.{HasPut, wanted_of};
ghost use Rattle.mesa_load.specs.FilesToWrite.{view_in};

use mesa_answer::{GroupError, Groups, Regrouping};
use mesa_batch::Batch;
use mesa_schema::{Evolving, LentRow, RowList};
use std::alloc::{AllocError, Global};

/// The content of the view of a number over a table's rows in a batch, which are lent one by one.
pub(crate) fn viewed(
    alloc: Global,
    evolving: &Evolving,
    view: u8,
    batch: &Batch,
    table: u16,
) -> Result<RowList, AllocError>
    requires there { view < length evolving.now.views }
    requires of_table { AreRowsOf (columns_of evolving.now) (rows_at table batch.now) }
    requires bounded { KeepsSums (columns_of evolving.now) (rows_at table batch.now) }
    ensures content { IfOk result (λ found. found ≡ view_rows (columns_of evolving.now) (view_in evolving.now view) (rows_at table batch.now)) }
    ensures form { IfOk result (λ found. AreRowsOf (view_columns (columns_of evolving.now) (view_in evolving.now view)) found) }
    ensures bounded { IfOk result (λ found. KeepsSums (view_columns (columns_of evolving.now) (view_in evolving.now view)) found) }
{
    let seen = Regrouping::of(alloc, evolving, view)?;
    let mut groups = Groups::all(alloc, evolving.present(), seen.columns(), seen.values())?;
    put_rows(&mut groups, batch, table)?;
    groups.into_rows()
}

// Puts a table's rows into groups that have none yet.
fn put_rows(groups: &mut Groups, batch: &Batch, table: u16) -> Result<(), AllocError>
    requires none { HasPut groups.old [] }
    requires form { AreRowsOf (wanted_of groups.old).schema (rows_at table batch.now) }
    requires bounded { KeepsSums (wanted_of groups.old).schema (rows_at table batch.now) }
    ensures put { OnOk result (HasPut groups.new (rows_at table batch.now)) }
    ensures wanted { wanted_of groups.new ≡ wanted_of groups.old }
{
    'rows: for place in 0..batch.count(table) {
        put_row(groups, batch.row(table, place))?;
    }
    Ok(())
}

// One row more of rows whose sums keep the bound.
fn put_row(groups: &mut Groups, row: LentRow) -> Result<(), AllocError>
    requires gathering { (given : List AnyRow) × HasPut groups.old given × KeepsSums (wanted_of groups.old).schema (given ++ lent row ∷ []) }
    requires form { IsRowOf (wanted_of groups.old).schema (lent row) }
    ensures put { OnOk result ((given : List AnyRow) → HasPut groups.old given → HasPut groups.new (given ++ lent row.entry ∷ [])) }
    ensures wanted { wanted_of groups.new ≡ wanted_of groups.old }
{
    match groups.put(row) {
        Ok(()) => Ok(()),
        Err(GroupError::Memory) => Err(AllocError),
        Err(GroupError::Sum) => unreachable!(),
    }
}
