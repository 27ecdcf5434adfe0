// Answering a query.
ghost use Rattle.std.specs.Prelude.{◌≡◌, List, [], ◌∷◌, ◌++◌, IfOk, OnOk};
ghost use Rattle.mesa_model.specs.mesa_columns.declared.rows.Row.{Row as AnyRow};
ghost use Rattle.mesa_model.specs.mesa_columns.Lent.{lent};
ghost use Rattle.mesa_model.specs.mesa_columns.Rows.{AreRowsOf, IsRowOf};
ghost use Rattle.mesa_filter.specs.Filter.{filtered};
ghost use Rattle.mesa_filter.specs.Query.{IsQueryOf};
ghost use Rattle.mesa_model.specs.Page.{page_of};
ghost use Rattle.mesa_model.specs.Query.{answer_rows};
ghost use Rattle.mesa_answer.specs.Answering.{KeepsSums, grouped_columns};
ghost use Rattle.mesa_answer.specs.Gathered.{HasPut, wanted_of};
ghost use Rattle.mesa_answer.specs.Gathering.{wanted_by};

use crate::error::GroupError;
use crate::groups::Groups;
use mesa_filter::Query;
use mesa_model::Page;
use mesa_schema::{LentRow, Row, Schema};
use std::alloc::{AllocError, Global};

/// Answers a query over the rows of its relation. A row's key is looked at in place, and only what its page may show is copied.
pub fn answer(
    alloc: Global,
    schema: &Schema,
    query: &Query,
    rows: &[Row],
) -> Result<Page, AllocError>
    requires asked { IsQueryOf schema.now query.now }
    requires of_schema { AreRowsOf schema.now rows.now }
    requires bounded { KeepsSums schema.now rows.now }
    ensures page { IfOk result (λ page. page ≡ page_of query.now.version query.now.limit query.now.resume (answer_rows schema.now query.now.asked rows.now)) }
    ensures form { IfOk result (λ page. AreRowsOf (grouped_columns schema.now query.now.asked.columns query.now.asked.values) page.rows) }
{
    gathered(alloc, schema, query, rows)?.into_page(query)
}

// The groups of the rows that meet the filter.
fn gathered<'a>(
    alloc: Global,
    schema: &'a Schema,
    query: &'a Query,
    rows: &[Row],
) -> Result<Groups<'a>, AllocError>
    requires asked { IsQueryOf schema.now query.now }
    requires of_schema { AreRowsOf schema.now rows.now }
    requires bounded { KeepsSums schema.now rows.now }
    ensures put { IfOk result (λ groups. HasPut groups (filtered schema.now query.now.asked.terms rows.now)) }
    ensures wanted { IfOk result (λ groups. wanted_of groups ≡ wanted_by schema.now query.now) }
{
    let mut groups = Groups::of(alloc, schema, query)?;
    let filter = query.filter();
    for row in rows {
        if filter.matches(row.key.as_slice()) {
            put_bounded(&mut groups, row.lend())?;
        }
    }
    Ok(groups)
}

// One row more of rows whose sums stay in their type.
pub(crate) fn put_bounded(groups: &mut Groups, row: LentRow) -> Result<(), AllocError>
    requires gathering { (given : List AnyRow) × HasPut groups.old given × KeepsSums (wanted_of groups.old).schema (given ++ lent row ∷ []) }
    requires form { IsRowOf (wanted_of groups.old).schema (lent row) }
    ensures put { OnOk result ((given : List AnyRow) → HasPut groups.old given → HasPut groups.new (given ++ lent row.entry ∷ [])) }
    ensures wanted { wanted_of groups.new ≡ wanted_of groups.old }
{
    match groups.put(row) {
        Ok(()) => Ok(()),
        Err(GroupError::Memory) => Err(AllocError),
        Err(GroupError::Sum) => unreachable!(),
    }
}
