// Keys that show a fault of a range whose files are the recorded ones.
ghost use Rattle.std.specs.Prelude.{◌≡◌, ◌≤◌, ℕ, slice_get, true, IfOk, IfSome, Some};
ghost use Rattle.mesa_disk.specs.Image.{Image};
ghost use Rattle.mesa_disk.specs.Story.{Unmoved};
ghost use Rattle.mesa_schema.specs.Changes.{columns_of, epoch_of};
ghost use Rattle.mesa_store_spec.specs.Catalog.{Delta as AnyDelta};
ghost use Rattle.mesa_store_spec.specs.Contents.{present as present_of};
ghost use Rattle.mesa_store_spec.specs.Fitting.{meta_live, view_live};
ghost use Rattle.mesa_catalog_table.specs.Meaning.{meta_of};
ghost use Rattle.mesa_pick_files.specs.Lent.{now_if_any};
ghost use Rattle.mesa_compare.specs.mesa_open_files.Opening.{Counted, HasEpoch};
ghost use Rattle.mesa_compare.specs.mesa_examine.Examined.{is_read_failure};
ghost use Rattle.mesa_compare.specs.Compared.{present_rows};
ghost use Rattle.mesa_check.specs.Found.{AreFound, Found, rows_found};
ghost use Rattle.mesa_check.specs.Faults.{keep_bound as keeps_bound, merged_key as key_merged, view_key as key_seen, view_keys};
ghost use Rattle.mesa_check.specs.Held.{IsHeld, delta_of};
ghost use Rattle.mesa_check.specs.Parts.{Agrees, IsAskedBelow};
ghost use Rattle.mesa_check.specs.Shown.{key_list};
ghost use Rattle.mesa_check.specs.Tested.{AreThere, IsRead, IsThere, live_file_of};

use crate::asked::is_below;
use crate::parts::parts;
use crate::range::Held;
use crate::testing::Test;
use crate::totals::keep_bound;
use mesa_catalog_table::Table;
use mesa_compare::{CheckError, DeltaDisk, Wanted, cumulative_difference, view_difference};
use mesa_disk::Made;
use mesa_pick_files::{own_columns, table_files};
use mesa_record::{Files, ViewRef};
use mesa_schema::{Evolving, KeyBytes};
use std::alloc::Global;
use std::sync::Arc;

/// The least key at which a cumulative differs from the fold of its range's singletons. A cumulative before it that agrees with its own stands for them, so that only what was loaded since then is read beside it.
pub(crate) fn merged_key<M: Made, D: DeltaDisk<M>>(
    alloc: Global,
    disk: &mut D,
    table: &Table,
    asked: Option<u32>,
    before: Option<&Test>,
    one: &Test,
) -> Result<Option<KeyBytes>, CheckError>
    requires held { (next : ℕ) × IsHeld next table.now }
    requires epoch { (delta_of one.now.range).epoch ≤ epoch_of table.now.evolving.value }
    requires order { IfSome (now_if_any before) (λ b. b.range.to ≤ one.now.range.to) }
    requires epoch_before { IfSome (now_if_any before) (λ b. (delta_of b.range).epoch ≤ epoch_of table.now.evolving.value) }
    ensures key { IfOk result (λ o. (next : ℕ) (i : Image) (found : Found) → IsHeld next table.now → (D.story disk.old).told ≡ Some i → AreFound i found (meta_live (meta_of next table.now))
        → IsAskedBelow found (meta_of next table.now) asked → IfSome (now_if_any before.entry) (Agrees i found (meta_of next table.now))
        → IsRead i found table.now.evolving.value one.now → one.now.found ≡ true → key_list o ≡ key_merged found (meta_of next table.now) one.now.range.to (delta_of one.now.range)) }
    ensures unmoved { Unmoved (D.story disk.old) (D.story disk.new) }
    ensures counted { Counted (D.story disk.old) (D.story disk.new) (is_read_failure result) }
{
    let to = one.range.to;
    if !is_below(asked, to) {
        return Ok(None);
    }
    let inputs = table_files(alloc, &table.evolving, &parts(table, before, to))?;
    match one.range.files() {
        Some(files) => {
            let own = Wanted {
                file: &files.file,
                evolving: &table.evolving,
                epoch: one.range.epoch(),
            };
            cumulative_difference(alloc, disk, &inputs, Some(&own))
        }
        None => cumulative_difference(alloc, disk, &inputs, None),
    }
}

/// The least key at which the first of a range's view files that differs from its table's rows, grouped, does.
pub(crate) fn view_key<M: Made, D: DeltaDisk<M>>(
    alloc: Global,
    disk: &mut D,
    evolving: &Arc<Evolving>,
    one: &Test,
) -> Result<Option<KeyBytes>, CheckError>
    requires epoch { (delta_of one.now.range).epoch ≤ epoch_of evolving.now.value }
    ensures key { IfOk result (λ o. (i : Image) (found : Found) → (D.story disk.old).told ≡ Some i → IsRead i found evolving.now.value one.now → one.now.found ≡ true
        → o ≡ slice_get (view_keys found evolving.now.value (delta_of one.now.range)) 0) }
    ensures unmoved { Unmoved (D.story disk.old) (D.story disk.new) }
    ensures counted { Counted (D.story disk.old) (D.story disk.new) (is_read_failure result) }
{
    match one.range.files() {
        Some(files) if keep_bound(one.present.as_slice()) => {
            first_view_key(alloc, disk, evolving, &one.range, files)
        }
        _ => Ok(None),
    }
}

// The same where the rows at present keep the bound.
fn first_view_key<M: Made, D: DeltaDisk<M>>(
    alloc: Global,
    disk: &mut D,
    evolving: &Arc<Evolving>,
    range: &Held,
    files: &Files,
) -> Result<Option<KeyBytes>, CheckError>
    requires epoch { (delta_of range.now).epoch ≤ epoch_of evolving.now.value }
    requires files { (delta_of range.now).files ≡ Some files.now }
    ensures key { IfOk result (λ o. (i : Image) (found : Found) → (D.story disk.old).told ≡ Some i → AreThere i found evolving.now.value (delta_of range.now) → keeps_bound (columns_of evolving.now.value) (present_of (rows_found found) evolving.now.value (delta_of range.now)) ≡ true
        → o ≡ slice_get (view_keys found evolving.now.value (delta_of range.now)) 0) }
    ensures unmoved { Unmoved (D.story disk.old) (D.story disk.new) }
    ensures counted { Counted (D.story disk.old) (D.story disk.new) (is_read_failure result) }
{
    let table = Wanted {
        file: &files.file,
        evolving,
        epoch: range.epoch(),
    };
    'views: for view in files.views.as_slice() {
        if let Some(key) = one_view_key(alloc, disk, &table, view)? {
            return Ok(Some(key));
        }
    }
    Ok(None)
}

// The least key at which a view's file differs from a table's rows, grouped, where the view is there.
fn one_view_key<M: Made, D: DeltaDisk<M>>(
    alloc: Global,
    disk: &mut D,
    table: &Wanted,
    view: &ViewRef,
) -> Result<Option<KeyBytes>, CheckError>
    requires { HasEpoch table.now }
    ensures key { IfOk result (λ o. (i : Image) (found : Found) (d : AnyDelta) → (D.story disk.old).told ≡ Some i → IsThere i found (live_file_of table.now) → IsThere i found (view_live table.now.evolving.now.value view.now)
        → present_of (rows_found found) table.now.evolving.now.value d ≡ present_rows table.now (rows_found found table.now.file.now.id) → keeps_bound (columns_of table.now.evolving.now.value) (present_of (rows_found found) table.now.evolving.now.value d) ≡ true
        → key_list o ≡ key_seen found table.now.evolving.now.value d view.now (slice_get table.now.evolving.now.value.views view.now.view)) }
    ensures unmoved { Unmoved (D.story disk.old) (D.story disk.new) }
    ensures counted { Counted (D.story disk.old) (D.story disk.new) (is_read_failure result) }
{
    if view.view >= table.evolving.views() {
        return Ok(None);
    }
    let own = own_columns(alloc, table.evolving, view.view)?;
    let wanted = Wanted {
        file: &view.file,
        evolving: &own,
        epoch: 0,
    };
    view_difference(alloc, disk, table, view.view, &wanted)
}
