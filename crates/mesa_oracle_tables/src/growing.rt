// What a batch makes of tables: their totals and their newest contents.
ghost use Rattle.std.specs.Prelude.{◌≡◌, ◌≤◌, ◌<◌, ◌^◌, ◌+◌, ◌-◌, ℕ, List, [], ◌∷◌, ◌++◌, cond, replicate, length, map, min, zip, None, Some, IfOk, IfErr, OnOk, MatchOption, slice_get, slice_index_or};
ghost use Rattle.std.specs.List.{AllByRecursion};
ghost use Rattle.mesa_answer.specs.mesa_columns.declared.columns.ValueColumn.{ValueColumn as Column};
ghost use Rattle.mesa_answer.specs.mesa_columns.Columns.{aggs_of};
ghost use Rattle.mesa_schema.specs.Changes.{columns_of};
ghost use Rattle.mesa_answer.specs.mesa_fold.Folded.{folded};
ghost use Rattle.mesa_answer.specs.mesa_columns.Rows.{AreRowsOf};
ghost use Rattle.mesa_batch.specs.Batch.{Placed as PlacedRow};
ghost use Rattle.mesa_batch.specs.Gathered.{columns_for, rows_at};
ghost use Rattle.mesa_batch.specs.Numbers.{known_of};
ghost use Rattle.mesa_batch.specs.Totals.{abs_totals, over_bound, sum_bound, sums_in, totals_with};
ghost use Rattle.mesa_batch.specs.Totals.{is_sum as adds};
ghost use Rattle.mesa_batch.specs.Bound.{KeepsBound};
ghost use Rattle.mesa_batch.specs.Put.{IsFold};
ghost use Rattle.mesa_model.specs.Load.{bound_checked, bounds_checked, newest_content};
ghost use Rattle.mesa_oracle_tables.specs.Kept.{content_in, contents_in, nowhere, tables_in};
ghost use Rattle.mesa_oracle_tables.specs.Grown.{AreContentsWith, AreTotalsWith, CanTake, HasRows, IsBatchOf, with_totals};
ghost use Rattle.mesa_oracle_tables.specs.Sound.{HaveTotals, HasTotals};
ghost use Rattle.mesa_binding.specs.Told.{IsDue};

use crate::store::Contents;
use mesa_batch::{Batch, Glanced, fits, merge, sum_column};
use mesa_binding::Failure;
use mesa_list::{Items, TryCopy};
use mesa_model::Refusal;
use mesa_schema::{Row, RowList, Schema, Totals, ValueColumn};
use mesa_value::Agg;
use std::alloc::{AllocError, Global};
use std::collections::VecDeque;
use std::sync::Arc;

// The totals of all tables with a batch, or the first sum column that would pass its bound.
pub(crate) fn totals_with_batch(
    alloc: Global,
    tables: &[Glanced],
    totals: &Items<Totals>,
    batch: &Batch,
) -> Result<Items<Totals>, Failure>
    requires few { length tables.now ≤ 2 ^ 16 }
    requires count { length totals.now ≡ length tables.now }
    requires totals { HaveTotals (map known_of tables.now) totals.now }
    requires batch { IsBatchOf (map known_of tables.now) batch.now }
    ensures after { IfOk result (AreTotalsWith (map known_of tables.now) totals.now batch.now) }
    ensures refused { IfErr result (λ failure. (placed : List PlacedRow) → HasRows placed batch.now → IsDue (bounds_checked placed 0 (tables_in nowhere 0 totals.now [] (map known_of tables.now))) failure) }
{
    let mut after = Items::new(alloc);
    'tables: for (number, table) in tables.iter().enumerate() {
        let totals = &totals.as_slice()[number];
        after.push(table_totals(alloc, table, totals, number as u16, batch)?)?;
    }
    Ok(after)
}

// A table's totals with its rows of a batch.
fn table_totals(
    alloc: Global,
    table: &Glanced,
    totals: &Totals,
    number: u16,
    batch: &Batch,
) -> Result<Totals, Failure>
    requires totals { HasTotals (columns_of table.now.evolving.value) totals.now }
    requires columns { (rows_at number batch.now ≡ [] → ⊥) → columns_for number batch.now ≡ columns_of table.now.evolving.value }
    ensures more { IfOk result (λ after. after ≡ totals_with totals.now (abs_totals (columns_of table.now.evolving.value) (rows_at number batch.now))) }
    ensures bound { OnOk result (over_bound totals.now (abs_totals (columns_of table.now.evolving.value) (rows_at number batch.now)) ≡ None) }
    ensures refused { IfErr result (IsDue (bound_checked (with_totals (known_of table.now) totals.now) (rows_at number batch.now))) }
{
    let count = batch.count(number);
    if count == 0 {
        return Ok(totals.copy()?);
    }
    let more = batch.abs_totals(number)?;
    let schema = table.evolving.present();
    let _columns = schema.values();
    if let Err(column) = fits(totals, &more) {
        return Err(Failure::Refused(Refusal::SumBound {
            table: table.name.copy()?,
            column: sum_column(schema, column as usize).copy()?,
        }));
    }
    Ok(sums(alloc, totals.as_slice(), more.as_slice())?)
}

// The sums of two numbers at each place, none of which leaves its type.
fn sums(alloc: Global, totals: &[u128], more: &[u128]) -> Result<Totals, AllocError>
    requires { AllByRecursion (λ total. total < sum_bound) (totals_with totals.now more.now) }
    ensures { IfOk result (λ after. after ≡ totals_with totals.now more.now) }
{
    let after = sums_as_far(alloc, totals, more)?;
    Ok(Items::from_vec(after))
}

fn sums_as_far(alloc: Global, totals: &[u128], more: &[u128]) -> Result<Vec<u128>, AllocError>
    ensures { IfOk result (λ after. after.items ≡ map (λ (p : ℕ × ℕ). min (p.0 + p.1) (2 ^ 128 - 1)) (zip totals.now more.now)) }
{
    totals
        .iter()
        .zip(more)
        .map(|(total, more)| total.saturating_add(*more))
        .collect(alloc)
}

// The contents of all tables at the next version. A table that the batch has no rows of shares its newest content.
pub(crate) fn contents_with_batch(
    alloc: Global,
    tables: &[Glanced],
    versions: &VecDeque<Contents>,
    batch: &Batch,
) -> Result<Contents, AllocError>
    requires few { length tables.now ≤ 2 ^ 16 }
    requires batch { IsBatchOf (map known_of tables.now) batch.now }
    requires can { CanTake (map known_of tables.now) versions.now.items batch.now }
    ensures { IfOk result (AreContentsWith (map known_of tables.now) versions.now.items batch.now) }
{
    let mut after = Contents::new(alloc);
    'tables: for (number, table) in tables.iter().enumerate() {
        let schema = table.evolving.present();
        let rows = batch.rows(number as u16)?;
        after.push(table_content(alloc, schema, versions, number, rows.as_slice())?)?;
    }
    Ok(after)
}

// A table's newest content with its rows of a batch.
fn table_content(
    alloc: Global,
    schema: &Schema,
    versions: &VecDeque<Contents>,
    number: usize,
    rows: &[Row],
) -> Result<Arc<RowList>, AllocError>
    requires forms { AreRowsOf schema.now (newest_content (contents_in number versions.now.items)) }
    requires fold { IsFold (aggs_of schema.now) (newest_content (contents_in number versions.now.items)) }
    requires rows_forms { AreRowsOf schema.now rows.now }
    requires rows_fold { IsFold (aggs_of schema.now) rows.now }
    requires bounded { KeepsBound (aggs_of schema.now) (newest_content (contents_in number versions.now.items)) rows.now }
    ensures { IfOk result (λ after. after.value ≡ folded (aggs_of schema.now) (newest_content (contents_in number versions.now.items) ∷ rows.now ∷ [])) }
{
    match newest(versions, number) {
        Some(content) => {
            if rows.is_empty() {
                return content.clone();
            }
            merged(alloc, schema, content.as_slice(), rows)
        }
        None => merged(alloc, schema, &[], rows),
    }
}

// The newest content of the table of a number, if there is one.
fn newest(versions: &VecDeque<Contents>, number: usize) -> Option<&Arc<RowList>>
    ensures { MatchOption result (newest_content (contents_in number versions.now.items) ≡ []) (λ content. newest_content (contents_in number versions.now.items) ≡ content.now.value) }
{
    match versions.back() {
        Some(contents) => contents.as_slice().get(number),
        None => None,
    }
}

fn merged(
    alloc: Global,
    schema: &Schema,
    content: &[Row],
    rows: &[Row],
) -> Result<Arc<RowList>, AllocError>
    requires forms { AreRowsOf schema.now content.now }
    requires fold { IsFold (aggs_of schema.now) content.now }
    requires rows_forms { AreRowsOf schema.now rows.now }
    requires rows_fold { IsFold (aggs_of schema.now) rows.now }
    requires bounded { KeepsBound (aggs_of schema.now) content.now rows.now }
    ensures { IfOk result (λ after. after.value ≡ folded (aggs_of schema.now) (content.now ∷ rows.now ∷ [])) }
{
    let aggs = aggs(alloc, schema)?;
    let after = merge(alloc, &aggs, content, rows)?;
    Ok(Arc::new(alloc, after)?)
}

fn aggs(alloc: Global, schema: &Schema) -> Result<Vec<Agg>, AllocError>
    ensures { IfOk result (λ aggs. aggs.items ≡ aggs_of schema.now) }
{
    aggs_in(alloc, schema.values())
}

fn aggs_in(alloc: Global, columns: &[ValueColumn]) -> Result<Vec<Agg>, AllocError>
    ensures { IfOk result (λ aggs. aggs.items ≡ map (λ (c : Column). c.agg) columns.now) }
{
    columns.iter().map(|column| column.agg).collect(alloc)
}

// As many zeros as there are sum columns.
pub(crate) fn zeros(alloc: Global, schema: &Schema) -> Result<Totals, AllocError>
    ensures { IfOk result (λ totals. totals ≡ replicate (sums_in (aggs_of schema.now)) 0) }
{
    let mut totals = Totals::new(alloc);
    'columns: for column in schema.values() {
        push_zero(&mut totals, column.agg)?;
    }
    Ok(totals)
}

fn push_zero(totals: &mut Totals, agg: Agg) -> Result<(), AllocError>
    ensures { OnOk result (totals.new ≡ totals.old ++ cond (adds agg) (0 ∷ []) []) }
{
    match agg {
        Agg::Sum => totals.push(0),
        _ => Ok(()),
    }
}
