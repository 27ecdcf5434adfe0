// What is recorded of each file that a table names.
ghost use Rattle.std.specs.Prelude.{◌≡◌, ◌+◌, ◌-◌, ◌++◌, ◌≤◌, ◌^◌, ℕ, flat_map, length, map, min, option_map, slice_get, OnOk, Some};
ghost use Rattle.mesa_store_spec.specs.Fitting.{base_deltas, columns_seen, delta_live, files_live, meta_live, view_live};
ghost use Rattle.mesa_schema.specs.Changes.{columns_at, columns_of};
ghost use Rattle.mesa_store_spec.specs.mesa_columns.Columns.{Columns};
ghost use Rattle.mesa_catalog_table.specs.Files.{recorded_of, recorded_shared, recorded_single, recorded_view};
ghost use Rattle.mesa_catalog_table.specs.Meaning.{ending_of, meta_of, widths_of};

use crate::{Base, Delta, Loaded, Recorded, Table};
use mesa_file::FileRef;
use mesa_record::{Files, ViewRef};
use mesa_schema::{Evolving, View};
use std::alloc::AllocError;
use std::sync::Arc;

impl Table {
    /// Adds what is recorded of each file of the table's deltas.
    pub fn push_recorded(&self, files: &mut Vec<Recorded>) -> Result<(), AllocError>
        requires { self.now.widths ≡ widths_of self.now.evolving.value }
        ensures { OnOk result ((next : ℕ) → files.new.items ≡ files.old.items ++ map recorded_of (meta_live (meta_of next self.now))) }
    {
        let widths = self.widths.as_slice();
        push_base(&self.evolving, widths, &self.base, files)?;
        push_cumulatives(&self.evolving, widths, &self.cumulatives, files)?;
        push_loaded(&self.evolving, widths, &self.loaded, files)
    }
}

fn push_base(
    evolving: &Evolving,
    widths: &[u8],
    base: &Option<Base>,
    files: &mut Vec<Recorded>,
) -> Result<(), AllocError>
    requires { widths.now ≡ widths_of evolving.now }
    ensures { OnOk result (files.new.items ≡ files.old.items ++ map recorded_of (flat_map (delta_live evolving.now) (base_deltas (option_map ending_of base.now)))) }
{
    match base {
        Some(base) => match &base.delta {
            Some(delta) => push_delta(evolving, widths, delta, files),
            None => Ok(()),
        },
        None => Ok(()),
    }
}

fn push_cumulatives(
    evolving: &Evolving,
    widths: &[u8],
    cumulatives: &[Arc<Delta>],
    files: &mut Vec<Recorded>,
) -> Result<(), AllocError>
    requires { widths.now ≡ widths_of evolving.now }
    ensures { OnOk result (files.new.items ≡ files.old.items ++ flat_map (recorded_shared evolving.now) cumulatives.now) }
{
    for delta in cumulatives {
        push_delta(evolving, widths, delta, files)?;
    }
    Ok(())
}

fn push_loaded(
    evolving: &Evolving,
    widths: &[u8],
    loaded: &[Loaded],
    files: &mut Vec<Recorded>,
) -> Result<(), AllocError>
    requires { widths.now ≡ widths_of evolving.now }
    ensures { OnOk result (files.new.items ≡ files.old.items ++ flat_map (recorded_single evolving.now) loaded.now) }
{
    for single in loaded {
        push_delta(evolving, widths, &single.delta, files)?;
    }
    Ok(())
}

fn push_delta(
    evolving: &Evolving,
    widths: &[u8],
    delta: &Delta,
    files: &mut Vec<Recorded>,
) -> Result<(), AllocError>
    requires { widths.now ≡ widths_of evolving.now }
    ensures { OnOk result (files.new.items ≡ files.old.items ++ map recorded_of (delta_live evolving.now delta.now)) }
{
    match &delta.files {
        Some(own) => push_files(evolving, widths, delta.epoch, own, files),
        None => Ok(()),
    }
}

fn push_files(
    evolving: &Evolving,
    widths: &[u8],
    epoch: u32,
    own: &Files,
    files: &mut Vec<Recorded>,
) -> Result<(), AllocError>
    requires { widths.now ≡ widths_of evolving.now }
    ensures { OnOk result (files.new.items ≡ files.old.items ++ map recorded_of (files_live evolving.now epoch (Some own.now))) }
{
    let columns = count_columns(evolving, widths, epoch);
    files.push(recorded(&own.file, columns))?;
    push_views(evolving, own.views.as_slice(), files)
}

fn push_views(
    evolving: &Evolving,
    views: &[ViewRef],
    files: &mut Vec<Recorded>,
) -> Result<(), AllocError>
    ensures { OnOk result (files.new.items ≡ files.old.items ++ map (recorded_view evolving.now) views.now) }
{
    for view in views {
        let columns = count_seen(evolving, view.view);
        files.push(recorded(&view.file, columns))?;
    }
    Ok(())
}

// How many columns there were in an epoch, or, from the present one on, are.
fn count_columns(evolving: &Evolving, widths: &[u8], epoch: u32) -> u64
    requires { widths.now ≡ widths_of evolving.now }
    ensures { result ≡ min (2 ^ 64 - 1) (length (columns_at evolving.now epoch).keys + length (columns_at evolving.now epoch).values) }
{
    let epoch = epoch.min(evolving.epoch());
    (evolving.keys_at(epoch) as u64).saturating_add(widths[epoch as usize] as u64)
}

// How many columns a view has; none where it isn't there.
fn count_seen(evolving: &Evolving, view: u8) -> u64
    ensures { (s : Columns) → s ≡ columns_seen (columns_of evolving.now) (slice_get evolving.now.views view) → result ≡ min (2 ^ 64 - 1) (length s.keys + length s.values) }
{
    // That its views are allowed.
    let _ = evolving.present();
    if view < evolving.views() {
        count_view(evolving.view(view))
    } else {
        0
    }
}

fn count_view(view: &View) -> u64
    ensures { result ≡ min (2 ^ 64 - 1) (length view.now.keys + length view.now.values) }
{
    (view.keys.len() as u64).saturating_add(view.values.len() as u64)
}

// What is recorded of a file with so many columns.
fn recorded(file: &FileRef, columns: u64) -> Recorded
    ensures { (s : Columns) → columns ≡ min (2 ^ 64 - 1) (length s.keys + length s.values) → result ≡ recorded_of (record { columns = s; file = file.now }) }
{
    let tail = (60 * file.blocks as u64)
        .saturating_add(columns)
        .saturating_add(22);
    Recorded {
        id: file.id,
        len: file.len,
        tail: file.len.saturating_sub(tail),
        digest: file.digest,
    }
}
