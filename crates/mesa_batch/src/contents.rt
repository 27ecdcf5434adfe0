// A content and a batch, both in the order of their keys, merged into a new content.
ghost use Rattle.std.specs.Prelude.{◌≡◌, ◌≤◌, List, [], ◌∷◌, ◌++◌, drop, length, IfOk, OnOk};
ghost use Rattle.mesa_schema.specs.mesa_columns.declared.rows.Row.{Row as RowOf};
ghost use Rattle.mesa_schema.specs.mesa_fold.Folded.{folded};
ghost use Rattle.mesa_schema.specs.mesa_fold.Laws.{AreFull};
ghost use Rattle.mesa_batch.specs.Bound.{AddsAtMost, KeepsBound};
ghost use Rattle.mesa_schema.specs.mesa_fold.Put.{put_rows};
ghost use Rattle.mesa_batch.specs.Put.{AreRising, IsFold};

use crate::fold::{combine_into, place_of};
use mesa_list::TryCopy;
use mesa_schema::{Agg, Row, RowList};
use std::alloc::{AllocError, Global};

/// The fold of a content and a batch that are themselves folds. Both stay as they are, since others may share them: the rows are copied.
pub fn merge(
    alloc: Global,
    aggs: &[Agg],
    content: &[Row],
    batch: &[Row],
) -> Result<RowList, AllocError>
    requires content_fold { IsFold aggs.now content.now }
    requires batch_fold { IsFold aggs.now batch.now }
    requires content_full { AreFull aggs.now content.now }
    requires batch_full { AreFull aggs.now batch.now }
    // The absolute values of each sum column add up to at most 2^127 - 1.
    requires bounded { KeepsBound aggs.now content.now batch.now }
    ensures merged { IfOk result (λ rows. rows ≡ folded aggs.now (content.now ∷ batch.now ∷ [])) }
    ensures fold { IfOk result (λ rows. IsFold aggs.now rows) }
    ensures full { IfOk result (λ rows. AreFull aggs.now rows) }
    ensures bounded { IfOk result (λ rows. AddsAtMost aggs.now content.now batch.now rows) }
{
    let mut merged = RowList::from_vec(Vec::with_capacity(alloc, content.len() + batch.len())?);
    let mut used = 0;
    'rows: for row in batch {
        used += merge_row(aggs, &mut merged, &content[used..], row)?;
    }
    copy_rows(&mut merged, &content[used..])?;
    Ok(merged)
}

// Adds a batch's next row, behind the content's rows below it and combined with the content's row of its key. How many of the content's rows that are left it used.
fn merge_row(
    aggs: &[Agg],
    merged: &mut RowList,
    rest: &[Row],
    row: &Row,
) -> Result<usize, AllocError>
    requires rising { AreRising rest.now }
    requires rest_full { AreFull aggs.now rest.now }
    requires row_full { length row.now.values ≡ length aggs.now }
    requires bounded { KeepsBound aggs.now rest.now (row.now ∷ []) }
    ensures within { IfOk result (λ used. used ≤ length rest.now) }
    ensures merged { IfOk result (λ used. (rows : List RowOf) → AreRising (row.now ∷ rows)
        → merged.new ++ put_rows aggs.now (drop used rest.now) rows ≡ merged.old ++ put_rows aggs.now rest.now (row.now ∷ rows)) }
{
    match place_of(rest, row.key.as_slice()) {
        Ok(at) => {
            copy_rows(merged, &rest[..at])?;
            let mut old = rest[at].copy()?;
            combine_into(aggs, &mut old.values, row.values.as_slice());
            merged.push(old)?;
            Ok(at + 1)
        }
        Err(at) => {
            copy_rows(merged, &rest[..at])?;
            merged.push(row.copy()?)?;
            Ok(at)
        }
    }
}

// Adds copies of rows.
fn copy_rows(to: &mut RowList, rows: &[Row]) -> Result<(), AllocError>
    ensures { OnOk result (to.new ≡ to.old ++ rows.now) }
{
    'rows: for row in rows {
        to.push(row.copy()?)?;
    }
    Ok(())
}
