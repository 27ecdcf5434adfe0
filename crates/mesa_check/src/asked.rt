// Which cumulatives are compared.
ghost use Rattle.std.specs.Prelude.{◌≡◌, ◌++◌, ◌&&◌, ◌||◌, not, ℕ, List, map, is_some, IfOk, IfSome};
ghost use Rattle.std.specs.List.{AllByRecursion};
ghost use Rattle.mesa_disk.specs.Image.{Image};
ghost use Rattle.mesa_batch.specs.Totals.{abs_totals};
ghost use Rattle.mesa_store_spec.specs.Contents.{present as present_of};
ghost use Rattle.mesa_schema.specs.Changes.{Lineage, columns_of};
ghost use Rattle.mesa_pick_files.specs.mesa_columns.declared.rows.Row.{Row as AnyRow};
ghost use Rattle.mesa_catalog_table.specs.Meaning.{meta_of};
ghost use Rattle.mesa_compare.specs.mesa_examine.Sums.{counted as counted_of};
ghost use Rattle.mesa_check.specs.Found.{Found, rows_found};
ghost use Rattle.mesa_check.specs.Faults.{is_found, keep_bound as keeps_bound};
ghost use Rattle.mesa_check.specs.Counted.{is_single as is_single_of, rows_where};
ghost use Rattle.mesa_check.specs.Held.{IsHeld, delta_of, held_ranges, range_in};
ghost use Rattle.mesa_check.specs.Parts.{IsAskedBelow, is_below as is_below_of};
ghost use Rattle.mesa_check.specs.Tested.{IsRead, IsTested, range_of};

use crate::range::{Held, Kind};
use crate::testing::Test;
use crate::totals::{added, keep_bound, no_sums};
use mesa_catalog_table::Table;
use std::alloc::{AllocError, Global};

/// The version below which cumulatives are compared: the first up to which the files of singletons aren't all the recorded ones, or their rows at present don't keep the bound. None where there is no such version.
pub(crate) fn asked_below(
    alloc: Global,
    table: &Table,
    tests: &[Test],
) -> Result<Option<u32>, AllocError>
    requires { map range_in (map range_of tests.now) ≡ held_ranges table.now }
    ensures { IfOk result (λ end. (next : ℕ) (i : Image) (found : Found) → IsHeld next table.now → AllByRecursion (IsRead i found table.now.evolving.value) tests.now → IsAskedBelow found (meta_of next table.now) end) }
{
    let mut sums = no_sums(alloc, table.evolving.present())?;
    'singles: for one in tests {
        let Some(more) = with_single(alloc, sums, one)? else {
            return Ok(Some(one.range.to));
        };
        sums = more;
    }
    Ok(None)
}

// With the sums of a singleton; None where its files aren't the recorded ones, or with its rows they don't keep the bound. Another range leaves them.
fn with_single(alloc: Global, sums: Vec<u128>, one: &Test) -> Result<Option<Vec<u128>>, AllocError>
    ensures some { IfOk result (λ o. (found : Found) (l : Lineage) (before : List AnyRow) → sums.items ≡ counted_of (abs_totals (columns_of l) before) → IsTested found l (delta_of one.now.range) one.now
        → is_some o ≡ (not (is_single_of (range_in one.now.range)) || (is_found found l (delta_of one.now.range) && keeps_bound (columns_of l) (before ++ present_of (rows_found found) l (delta_of one.now.range))))) }
    ensures sums { IfOk result (λ o. (found : Found) (l : Lineage) (before : List AnyRow) → sums.items ≡ counted_of (abs_totals (columns_of l) before) → IsTested found l (delta_of one.now.range) one.now
        → IfSome o (λ all. all.items ≡ counted_of (abs_totals (columns_of l) (before ++ rows_where found l is_single_of (range_in one.now.range))))) }
{
    if !is_single(&one.range) {
        return Ok(Some(sums));
    }
    if !one.found {
        return Ok(None);
    }
    let all = added(alloc, &sums, one.present.as_slice())?;
    if !keep_bound(&all) {
        return Ok(None);
    }
    Ok(Some(all))
}

fn is_single(range: &Held) -> bool
    ensures { result ≡ is_single_of (range_in range.now) }
{
    match range.kind {
        Kind::Single => true,
        _ => false,
    }
}

/// Whether a version is below another, where one is told.
pub(crate) fn is_below(end: Option<u32>, to: u32) -> bool
    ensures { result ≡ is_below_of end to }
{
    match end {
        Some(end) => to < end,
        None => true,
    }
}
