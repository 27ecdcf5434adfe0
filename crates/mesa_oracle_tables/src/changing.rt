// What a change of a schema makes of a table: of its columns and its contents.
ghost use Rattle.std.specs.Prelude.{◌≡◌, ◌≢◌, map, Ok, Err, IfOk, IfErr, OnOk};
ghost use Rattle.mesa_schema.specs.Changes.{change_checked, with_change};
ghost use Rattle.mesa_answer.specs.mesa_columns.Lifting.{lifted_with};
ghost use Rattle.mesa_schema.specs.Lineages.{HasDefault};
ghost use Rattle.mesa_oracle_tables.specs.Kept.{all_shared, contents_lifted, shared};

use crate::store::{Contents, push_contents, shared_again};
use mesa_list::{Items, TryCopy};
use mesa_schema::{Change, ChangeError, Evolving, Lift, Row, RowList};
use std::alloc::{AllocError, Global};
use std::collections::VecDeque;
use std::sync::Arc;

// A copy of a table's columns and views with a change more, if the rules allow it: what pins share stays as it is.
pub(crate) fn changed(
    alloc: Global,
    evolving: &Evolving,
    change: Change,
) -> Result<Arc<Evolving>, ChangeError>
    ensures changed { IfOk result (λ after. after.value ≡ with_change evolving.now change) }
    ensures allowed { OnOk result (change_checked evolving.now change ≡ Ok tt) }
    ensures default { OnOk result (HasDefault change) }
    ensures refused { IfErr result (λ e. e ≢ ChangeError.Memory → change_checked evolving.now change ≡ Err e) }
{
    let mut after = evolving.copy()?;
    after.change(change)?;
    let _epoch = after.epoch();
    match Arc::new(alloc, after) {
        Ok(after) => Ok(after),
        Err(_) => Err(ChangeError::Memory),
    }
}

// The contents at all versions, where the rows of the table of a number are lifted.
pub(crate) fn versions_lifted(
    alloc: Global,
    versions: &VecDeque<Contents>,
    table: usize,
    lift: &Lift,
) -> Result<VecDeque<Contents>, AllocError>
    ensures { IfOk result (λ lifted. all_shared lifted.items ≡ map (contents_lifted table lift.now) (all_shared versions.now.items)) }
{
    let mut lifted = VecDeque::new(alloc);
    'versions: for contents in versions {
        push_contents(
            &mut lifted,
            lifted_contents(alloc, contents.as_slice(), table, lift)?,
        )?;
    }
    Ok(lifted)
}

// The contents at one version, where the rows of the table of a number are lifted; the other tables share theirs.
fn lifted_contents(
    alloc: Global,
    contents: &[Arc<RowList>],
    table: usize,
    lift: &Lift,
) -> Result<Contents, AllocError>
    ensures { IfOk result (λ lifted. shared lifted ≡ contents_lifted table lift.now (shared contents.now)) }
{
    let mut lifted = shared_again(alloc, contents)?;
    let Some(content) = contents.get(table) else {
        return Ok(lifted);
    };
    let rows = lifted_rows(alloc, content.as_slice(), lift)?;
    let own = Arc::new(alloc, rows)?;
    *lifted.at_mut(table) = own;
    Ok(lifted)
}

fn lifted_rows(alloc: Global, rows: &[Row], lift: &Lift) -> Result<RowList, AllocError>
    ensures { IfOk result (λ lifted. lifted ≡ map (lifted_with lift.now) rows.now) }
{
    let mut lifted = Vec::with_capacity(alloc, rows.len())?;
    'rows: for row in rows {
        lifted.push(lift.row(row.copy()?)?)?;
    }
    Ok(Items::from_vec(lifted))
}
