// Counts of columns: what is recorded for each column is there for each, and for no other.
ghost use Rattle.std.specs.Prelude.{◌≡◌, ◌≤◌, ◌==◌, ◌+◌, [], ℕ, length, is_none, map, nat_le, nat_lt, replicate, zip, IfOk};
ghost use Rattle.std.specs.List.{list_all, list_any};
ghost use Rattle.mesa_store_spec.specs.mesa_columns.declared.columns.ValueColumn.{ValueColumn as Column};
ghost use Rattle.mesa_schema.specs.Changes.{columns_of, epoch_of};
ghost use Rattle.mesa_schema.specs.Lineages.{IsLineage};
ghost use Rattle.mesa_store_spec.specs.mesa_columns.Columns.{aggs_of};
ghost use Rattle.mesa_batch.specs.Totals.{over_bound, sum_bound, sums_in};
ghost use Rattle.mesa_store_spec.specs.Fitting.{files_fit, is_view_ref as fits_view};
ghost use Rattle.mesa_catalog_table.specs.Meaning.{widths_of};

use mesa_batch::{OVER_BOUND, sums_among};
use mesa_list::Items;
use mesa_record::{Files, ViewRef};
use mesa_schema::{Evolving, Schema, Totals, ValueColumn};
use std::alloc::{AllocError, Global};

/// Whether files of an epoch have an aggregate for each value column.
pub fn counts_files(evolving: &Evolving, widths: &[u8], epoch: u32, files: &Files) -> bool
    requires widths { widths.now ≡ widths_of evolving.now }
    requires epoch { epoch ≤ epoch_of evolving.now }
    ensures { result ≡ files_fit evolving.now epoch files.now }
{
    files.file.aggregates.len() == widths[epoch as usize] as usize
        && counts_views(evolving, files.views.as_slice())
}

/// Whether files are of views that are there, and have an aggregate for each value column of their view.
pub fn counts_views(evolving: &Evolving, views: &[ViewRef]) -> bool
    ensures { result ≡ list_all (fits_view evolving.now) views.now }
{
    // That its views are allowed.
    let _ = evolving.present();
    views.iter().all(|view| is_view_ref(evolving, view))
}

fn is_view_ref(evolving: &Evolving, seen: &ViewRef) -> bool
    requires { IsLineage evolving.now }
    ensures { result ≡ fits_view evolving.now seen.now }
{
    seen.view < evolving.views()
        && seen.file.aggregates.len() == evolving.view(seen.view).values.len()
}

/// Whether there is a total for each sum column.
pub fn counts_totals(evolving: &Evolving, totals: &Totals) -> bool
    ensures { result ≡ (length totals.now == sums_in (aggs_of (columns_of evolving.now))) }
{
    totals.len() == sums_among(evolving.present().values())
}

/// The totals of a table without rows.
pub fn no_totals(alloc: Global, columns: &[ValueColumn]) -> Result<Totals, AllocError>
    ensures { IfOk result (λ totals. totals ≡ replicate (sums_in (map (λ (c : Column). c.agg) columns.now)) 0) }
{
    let zeros = vec![in alloc; 0u128; sums_among(columns)]?;
    Ok(Items::from_vec(zeros))
}

/// Whether none of the totals passes 2^127 - 1 with more.
pub fn keeps_bound(totals: &[u128], more: &[u128]) -> bool
    ensures { result ≡ is_none (over_bound totals.now more.now) }
{
    !passes_bound(totals, more)
}

fn passes_bound(totals: &[u128], more: &[u128]) -> bool
    ensures { result ≡ list_any (λ (p : ℕ × ℕ). nat_le sum_bound (p.0 + p.1)) (zip totals.now more.now) }
{
    totals
        .iter()
        .zip(more)
        .any(|(total, more)| total.saturating_add(*more) >= OVER_BOUND)
}

/// Whether none of the totals passes 2^127 - 1.
pub fn keep_bound(totals: &[u128]) -> bool
    ensures { result ≡ list_all (λ total. nat_lt total sum_bound) totals.now }
{
    totals.iter().all(|total| *total < OVER_BOUND)
}

// ---- epochs

/// How many value columns there were in each epoch, where there were no changes; before the first there were as many.
pub fn first_widths(alloc: Global, evolving: &Evolving) -> Result<Items<u8>, AllocError>
    requires { evolving.now.changes ≡ [] }
    ensures { IfOk result (λ widths. widths ≡ widths_of evolving.now) }
{
    repeated(alloc, width_now(evolving), epochs_of(evolving))
}

fn width_now(evolving: &Evolving) -> u8
    ensures { result ≡ length (columns_of evolving.now).values }
{
    width_of(evolving.present())
}

/// How many sum columns there are at present.
pub fn sums_now(evolving: &Evolving) -> u8
    ensures { result ≡ sums_in (aggs_of (columns_of evolving.now)) }
{
    sums_among(evolving.present().values()) as u8
}

/// How many epochs there were, with the present one.
pub fn epochs_of(evolving: &Evolving) -> usize
    ensures { result ≡ epoch_of evolving.now + 1 }
{
    evolving.epoch() as usize + 1
}

/// The same count for each of so many epochs.
pub fn repeated(alloc: Global, count: u8, epochs: usize) -> Result<Items<u8>, AllocError>
    ensures { IfOk result (λ counts. counts ≡ replicate epochs count) }
{
    let counts = vec![in alloc; count; epochs]?;
    Ok(Items::from_vec(counts))
}

/// How many value columns there are; a schema has few.
pub fn width_of(schema: &Schema) -> u8
    ensures { result ≡ length schema.now.values }
{
    schema.values().len() as u8
}
