// A batch of rows folded into rows that stand in the order of their keys.
ghost use Rattle.std.specs.Prelude.{◌≡◌, ◌↔◌, ◌+◌, ◌<◌, ◌≤◌, List, [], ◌∷◌, length, vec_len, vec_capacity, IsTrue, OnErr, OnOk};
ghost use Rattle.std.specs.List.Sorted.{IsBinarySearchResult, IsSearchInRange};
ghost use Rattle.mesa_schema.specs.mesa_key.Order.{byte_cmp};
ghost use Rattle.mesa_schema.specs.mesa_columns.declared.rows.Row.{Row as RowOf};
ghost use Rattle.mesa_schema.specs.mesa_fold.Folded.{AllCombine, folded, row_combined};
ghost use Rattle.mesa_schema.specs.mesa_fold.Laws.{AreFull};
ghost use Rattle.mesa_batch.specs.Bound.{AddsAtMost, KeepsBound};
ghost use Rattle.mesa_schema.specs.mesa_fold.Put.{put_row};
ghost use Rattle.mesa_batch.specs.Put.{IsFold};

use mesa_schema::{Agg, Amount, Row, Values, combine, combines};
use std::alloc::AllocError;

/// Whether an older and a newer row's values have one together in each column: a sum may leave its type.
pub fn combines_all(aggs: &[Agg], old: &[Amount], new: &[Amount]) -> bool
    requires old_full { length old.now ≡ length aggs.now }
    requires new_full { length new.now ≡ length aggs.now }
    ensures { IsTrue result ↔ AllCombine aggs.now old.now new.now }
{
    'columns: for i in 0..aggs.len() {
        if !combines(aggs[i], old[i], new[i]) {
            return false;
        }
    }
    true
}

/// Combines a newer row's values into an older one's, column by column.
pub fn combine_into(aggs: &[Agg], old: &mut Values, new: &[Amount])
    requires old_full { length old.old ≡ length aggs.now }
    requires new_full { length new.now ≡ length aggs.now }
    requires fits { AllCombine aggs.now old.old new.now }
    ensures { old.new ≡ row_combined aggs.now old.old new.now }
{
    'columns: for i in 0..aggs.len() {
        let value = combine(aggs[i], old.as_slice()[i], new[i]);
        *old.at_mut(i) = value;
    }
}

// Where a key stands among rows, or else where it would stand.
pub(crate) fn place_of(rows: &[Row], key: &[u8]) -> Result<usize, usize>
    ensures within { IsSearchInRange result (length rows.now) }
    ensures place { IsBinarySearchResult (λ (row : RowOf). byte_cmp row.key key.now) rows.now result }
{
    rows.binary_search_by(|row| row.key.as_slice().cmp(key))
}

// Puts a row among rows that are a fold, for which there is room.
fn fold_row(aggs: &[Agg], content: &mut Vec<Row>, row: Row)
    requires room { vec_len content.old < vec_capacity content.old }
    requires fold { IsFold aggs.now content.old.items }
    requires content_full { AreFull aggs.now content.old.items }
    requires row_full { length row.values ≡ length aggs.now }
    requires bounded { KeepsBound aggs.now content.old.items (row ∷ []) }
    ensures put { content.new.items ≡ put_row aggs.now row content.old.items }
    ensures capacity { vec_capacity content.old ≤ vec_capacity content.new }
    ensures more { vec_len content.new ≤ vec_len content.old + 1 }
{
    match place_of(content, row.key.as_slice()) {
        Ok(at) => {
            let old = &mut content[at];
            combine_into(aggs, &mut old.values, row.values.as_slice());
        }
        Err(at) => {
            let _ = content.insert(at, row);
        }
    }
}

/// Folds a batch into rows that are themselves a fold: the rows then stand in the order of
/// their keys, and where a key was there its values are combined, the older before the newer.
/// Where there is no memory for the batch's rows nothing changes. No row is copied.
pub fn fold_in(aggs: &[Agg], content: &mut Vec<Row>, batch: Vec<Row>) -> Result<(), AllocError>
    requires fold { IsFold aggs.now content.old.items }
    requires content_full { AreFull aggs.now content.old.items }
    requires batch_full { AreFull aggs.now batch.items }
    // The absolute values of each sum column add up to at most 2^127 - 1.
    requires bounded { KeepsBound aggs.now content.old.items batch.items }
    ensures ok { OnOk result (content.new.items ≡ folded aggs.now (content.old.items ∷ batch.items ∷ [])) }
    ensures fold { IsFold aggs.now content.new.items }
    ensures full { AreFull aggs.now content.new.items }
    ensures bounded { AddsAtMost aggs.now content.old.items batch.items content.new.items }
    ensures err { OnErr result (content.new.items ≡ content.old.items) }
{
    content.reserve(batch.len())?;
    'rows: for row in batch {
        fold_row(aggs, content, row);
    }
    Ok(())
}
