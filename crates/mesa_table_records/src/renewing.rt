// Which recasts a table allows. Takes no memory.
ghost use Rattle.std.specs.Prelude.{◌≡◌, ◌+◌, ◌++◌, ◌==◌, ◌&&◌, ◌≤◌, ◌<◌, ℕ, List, IfSome, IsTrue, Some, count_by, drop, flat_map, is_ok, length, nat_lt, option_map, slice_get};
ghost use Rattle.std.specs.List.{list_all};
ghost use Rattle.mesa_schema.specs.Changes.{columns_of, epoch_of};
ghost use Rattle.mesa_catalog_table.specs.mesa_columns.Columns.{aggs_of};
ghost use Rattle.mesa_schema.specs.Recasts.{recast_checked, recast_columns, recast_lineage};
ghost use Rattle.mesa_batch.specs.Totals.{sum_bound, sums_in};
ghost use Rattle.mesa_catalog_table.specs.mesa_record.declared.checkpoint.CheckpointSingle.{CheckpointSingle as Told};
ghost use Rattle.mesa_catalog_table.specs.mesa_store_spec.Catalog.{recast_in};
ghost use Rattle.mesa_catalog_table.specs.mesa_store_spec.Checkpoint.{stating_single};
ghost use Rattle.mesa_catalog_table.specs.mesa_store_spec.Fitting.{base_renewed, files_fit, files_renewed, ranges_renewed, recast_fits, singles_renewed};
ghost use Rattle.mesa_catalog_table.specs.mesa_store_spec.SameFiles.{same_views as match_views};
ghost use Rattle.mesa_catalog_table.specs.Meaning.{IsTable, delta_or_empty, ending_of, meta_of};
ghost use Rattle.mesa_table_records.specs.Renewed.{is_sum_if_any, is_sum_named, renewed_behind};
ghost use Rattle.mesa_table_records.specs.Stated.{stating_loaded};

use crate::same::same_views;
use mesa_catalog_table::{
    CheckpointSingle, Delta, Files, Loaded, Recasting, Table, counts_views, keep_bound,
};
use mesa_schema::{Evolving, Name, Totals, ValueColumn, place_of};
use std::sync::Arc;

/// Whether a recast passes the rules of recasts, begins the next epoch, and tells all ranges of its table.
pub fn allows_recast(t: &Table, k: &Recasting) -> bool
    ensures { (next : ℕ) → IsTable next t.now → result ≡ recast_fits (meta_of next t.now) k.now }
{
    begins_next(&t.evolving, k) && tells_ranges(t, k)
}

fn begins_next(evolving: &Evolving, k: &Recasting) -> bool
    ensures { result ≡ (is_ok (recast_checked evolving.now (recast_in k.now)) && (k.now.epoch == epoch_of evolving.now + 1)) }
{
    passes(evolving, k) && k.epoch == evolving.epoch() + 1
}

fn passes(evolving: &Evolving, k: &Recasting) -> bool
    ensures { result ≡ is_ok (recast_checked evolving.now (recast_in k.now)) }
{
    evolving.allows_recast(k.keys.as_slice(), k.values.as_slice())
}

// Whether it tells the base, and each version with rows.
fn tells_ranges(t: &Table, k: &Recasting) -> bool
    requires { IsTrue (is_ok (recast_checked t.now.evolving.value (recast_in k.now))) }
    ensures { (next : ℕ) → IsTable next t.now → result ≡ ranges_renewed (recast_lineage t.now.evolving.value (recast_in k.now)) (meta_of next t.now) k.now }
{
    tells_base(t, k) && tells_loaded(t, k)
}

// ---- the base

fn tells_base(t: &Table, k: &Recasting) -> bool
    requires { IsTrue (is_ok (recast_checked t.now.evolving.value (recast_in k.now))) }
    ensures { result ≡ base_renewed (recast_lineage t.now.evolving.value (recast_in k.now)) k.now.epoch (option_map ending_of t.now.base) k.now.base }
{
    match &t.base {
        None => match &k.base {
            None => true,
            Some(_) => false,
        },
        Some(old) => match &k.base {
            None => false,
            Some(new) => old.to == new.to && renews_held(t, k, &old.delta, &new.files),
        },
    }
}

// Whether files take the place of those of a base, which are the table's without rows where none are held.
fn renews_held(t: &Table, k: &Recasting, held: &Option<Arc<Delta>>, new: &Option<Files>) -> bool
    requires { IsTrue (is_ok (recast_checked t.now.evolving.value (recast_in k.now))) }
    ensures { result ≡ files_renewed (recast_lineage t.now.evolving.value (recast_in k.now)) k.now.epoch (delta_or_empty held.now).files new.now }
{
    match held {
        None => match new {
            None => true,
            Some(_) => false,
        },
        Some(delta) => renews_delta(t, k, delta, new),
    }
}

fn renews_delta(t: &Table, k: &Recasting, delta: &Delta, new: &Option<Files>) -> bool
    requires { IsTrue (is_ok (recast_checked t.now.evolving.value (recast_in k.now))) }
    ensures { result ≡ files_renewed (recast_lineage t.now.evolving.value (recast_in k.now)) k.now.epoch delta.now.files new.now }
{
    match &delta.files {
        None => match new {
            None => true,
            Some(_) => false,
        },
        Some(old) => match new {
            None => false,
            Some(new) => renews_files(&t.evolving, k, old, new),
        },
    }
}

// Whether files have the view files of others, and count the new columns.
fn renews_files(evolving: &Evolving, k: &Recasting, old: &Files, new: &Files) -> bool
    requires { IsTrue (is_ok (recast_checked evolving.now (recast_in k.now))) }
    ensures { result ≡ (match_views old.now.views new.now.views && files_fit (recast_lineage evolving.now (recast_in k.now)) k.now.epoch new.now) }
{
    same_views(old.views.as_slice(), new.views.as_slice()) && counts_new(evolving, k, new)
}

fn counts_new(evolving: &Evolving, k: &Recasting, files: &Files) -> bool
    requires { IsTrue (is_ok (recast_checked evolving.now (recast_in k.now))) }
    ensures { result ≡ files_fit (recast_lineage evolving.now (recast_in k.now)) k.now.epoch files.now }
{
    // That its views are allowed.
    let _ = evolving.present();
    files.file.aggregates.len() == k.values.len() && counts_views(evolving, files.views.as_slice())
}

// ---- what was loaded

fn tells_loaded(t: &Table, k: &Recasting) -> bool
    requires { IsTrue (is_ok (recast_checked t.now.evolving.value (recast_in k.now))) }
    ensures { result ≡ singles_renewed (recast_lineage t.now.evolving.value (recast_in k.now)) k.now.epoch (flat_map stating_loaded t.now.loaded.items) k.now.singles }
{
    let sums = sums_told(&t.evolving, k);
    renews_loaded(&t.evolving, k, sums, &t.loaded)
}

// How many sum columns there are among the new columns.
fn sums_told(evolving: &Evolving, k: &Recasting) -> usize
    requires { IsTrue (is_ok (recast_checked evolving.now (recast_in k.now))) }
    ensures { result ≡ sums_in (aggs_of (recast_columns (columns_of evolving.now) (recast_in k.now))) }
{
    sums_named(evolving.present().values(), k.values.as_slice())
}

fn sums_named(columns: &[ValueColumn], names: &[Name]) -> usize
    ensures { result ≡ count_by (λ name. is_sum_named columns.now name) names.now }
{
    names.iter().filter(|name| names_sum(columns, name)).count()
}

fn names_sum(columns: &[ValueColumn], name: &Name) -> bool
    ensures { result ≡ is_sum_named columns.now name.now }
{
    match place_of(name.bytes(), columns) {
        Some(place) => sums_at(columns, place),
        None => false,
    }
}

fn sums_at(columns: &[ValueColumn], place: usize) -> bool
    requires { place < length columns.now }
    ensures { result ≡ is_sum_if_any (slice_get columns.now place) }
{
    columns[place].agg.is_sum()
}

// Whether what is told of versions takes the places of those with rows, one after the other.
fn renews_loaded(evolving: &Evolving, k: &Recasting, sums: usize, loaded: &[Loaded]) -> bool
    requires checked { IsTrue (is_ok (recast_checked evolving.now (recast_in k.now))) }
    requires sums { sums ≡ sums_in (aggs_of (recast_columns (columns_of evolving.now) (recast_in k.now))) }
    ensures { result ≡ singles_renewed (recast_lineage evolving.now (recast_in k.now)) k.now.epoch (flat_map stating_loaded loaded.now) k.now.singles }
{
    let mut told = 0;
    for single in loaded {
        let Some(more) = told_with(evolving, k, sums, told, single.version, &single.delta) else {
            return false;
        };
        told = more;
    }
    told == k.singles.len()
}

// How many of the versions that are told are taken with one that is held: one more, if it has rows. None if what is told doesn't take its place.
fn told_with(
    evolving: &Evolving,
    k: &Recasting,
    sums: usize,
    told: usize,
    version: u32,
    delta: &Delta,
) -> Option<usize>
    requires checked { IsTrue (is_ok (recast_checked evolving.now (recast_in k.now))) }
    requires sums { sums ≡ sums_in (aggs_of (recast_columns (columns_of evolving.now) (recast_in k.now))) }
    requires told { told ≤ length k.now.singles }
    ensures within { IfSome result (λ more. more ≤ length k.now.singles) }
    ensures renewed { (olds : List Told) → singles_renewed (recast_lineage evolving.now (recast_in k.now)) k.now.epoch (stating_single version delta.now.epoch delta.now.totals delta.now.files ++ olds) (drop told k.now.singles) ≡ renewed_behind (recast_lineage evolving.now (recast_in k.now)) k.now.epoch olds k.now.singles result }
{
    let Some(old) = &delta.files else {
        return Some(told);
    };
    let singles = k.singles.as_slice();
    if told == singles.len() {
        return None;
    }
    if renews_single(evolving, k, sums, version, old, &singles[told]) {
        return Some(told + 1);
    }
    None
}

fn renews_single(
    evolving: &Evolving,
    k: &Recasting,
    sums: usize,
    version: u32,
    old: &Files,
    new: &CheckpointSingle,
) -> bool
    requires { IsTrue (is_ok (recast_checked evolving.now (recast_in k.now))) }
    ensures { result ≡ ((version == new.now.version) && (new.now.epoch == k.now.epoch) && files_renewed (recast_lineage evolving.now (recast_in k.now)) k.now.epoch (Some old.now) (Some new.now.files) && ((length new.now.totals == sums) && list_all (λ total. nat_lt total sum_bound) new.now.totals)) }
{
    version == new.version
        && new.epoch == k.epoch
        && renews_files(evolving, k, old, &new.files)
        && fits_sums(sums, &new.totals)
}

// Whether there is a total for each sum column, and none passes its bound.
fn fits_sums(sums: usize, totals: &Totals) -> bool
    ensures { result ≡ ((length totals.now == sums) && list_all (λ total. nat_lt total sum_bound) totals.now) }
{
    totals.len() == sums && keep_bound(totals.as_slice())
}
