// A table's columns as a checkpoint states them, and what fits them.
ghost use Rattle.std.specs.Prelude.{◌≡◌, ◌≢◌, ◌+◌, ◌∷◌, ◌++◌, ◌≤◌, ◌<◌, [], false, length, IfErr, IfOk, IsTrue, OnOk, is_ok};
ghost use Rattle.std.specs.List.{list_all};
ghost use Rattle.mesa_schema.specs.Changes.{columns_at, columns_of, epoch_of, max_changes, rule_checked, with_change};
ghost use Rattle.mesa_catalog_table.specs.mesa_columns.Columns.{aggs_of};
ghost use Rattle.mesa_schema.specs.Lineages.{is_view_of};
ghost use Rattle.mesa_catalog_table.specs.mesa_columns.Schema.{is_schema};
ghost use Rattle.mesa_schema.specs.Views.{max_views, with_view};
ghost use Rattle.mesa_batch.specs.Totals.{sums_in};
ghost use Rattle.mesa_catalog_table.specs.mesa_store_spec.CheckpointFits.{changes_pass, delta_fits, lineage_fits, range_fits, single_fits, totals_fit};
ghost use Rattle.mesa_catalog_table.specs.Meaning.{widths_of};
ghost use Rattle.mesa_table_records.specs.Stated.{lineage_begun, sums_of};

use crate::restoring::RestoreError;
use mesa_catalog_table::{
    CheckpointRange, CheckpointSingle, Files, counts_files, counts_totals, epochs_of, first_widths,
    keep_bound, repeated, sums_now, width_of,
};
use mesa_list::Items;
use mesa_schema::{
    Change, ChangeError, Evolving, KeyColumn, MAX_CHANGES, MAX_VIEWS, Schema, Totals, ValueColumn,
    View, ViewError,
};
use std::alloc::{AllocError, Global};
use std::collections::VecDeque;
use std::sync::Arc;

// A table's columns through its life, and how many value columns and sum columns there were in each epoch.
#[derive(Drop)]
pub(crate) struct Counted {
    pub(crate) evolving: Evolving,
    pub(crate) widths: Items<u8>,
    pub(crate) sums: Items<u8>,
    ghost widths_counted: { widths ≡ widths_of evolving },
    ghost sums_counted: { sums ≡ sums_of evolving },
}

// The columns that are stated, if they make a schema, the changes and the views pass their rules, and there aren't too many of either.
pub(crate) fn restore_columns(
    alloc: Global,
    begins: u32,
    keys: Items<KeyColumn>,
    values: Items<ValueColumn>,
    changes: Items<Change>,
    views: Items<View>,
) -> Result<Counted, RestoreError>
    ensures fits { OnOk result (IsTrue (lineage_fits (record { begins = begins; first = record { keys = keys; values = values }; changes = changes; views = views }))) }
    ensures refused { IfErr result (λ e. e ≢ RestoreError.Memory → lineage_fits (record { begins = begins; first = record { keys = keys; values = values }; changes = changes; views = views }) ≡ false) }
    ensures lineage { IfOk result (λ counted. counted.evolving ≡ record { begins = begins; first = record { keys = keys; values = values }; changes = changes; views = views }) }
{
    if begins as usize > MAX_CHANGES {
        return Err(RestoreError::Misfit);
    }
    if changes.len() > MAX_CHANGES - begins as usize {
        return Err(RestoreError::Misfit);
    }
    if views.len() > MAX_VIEWS {
        return Err(RestoreError::Misfit);
    }
    let first = restore_first(alloc, begins, keys, values)?;
    let changed = take_changes(alloc, first, changes)?;
    take_views(changed, views)
}

fn restore_first(
    alloc: Global,
    begins: u32,
    keys: Items<KeyColumn>,
    values: Items<ValueColumn>,
) -> Result<Evolving, RestoreError>
    requires { begins ≤ max_changes }
    ensures fits { OnOk result (IsTrue (is_schema (record { keys = keys; values = values }))) }
    ensures refused { IfErr result (λ e. is_schema (record { keys = keys; values = values }) ≡ false) }
    ensures lineage { IfOk result (λ first. first ≡ lineage_begun begins (record { keys = keys; values = values })) }
{
    match Schema::build(keys.into_vec(), values.into_vec()) {
        Ok(first) => Ok(Evolving::begun(alloc, begins, first)),
        Err(_) => Err(RestoreError::Misfit),
    }
}

// ---- changes

fn take_changes(
    alloc: Global,
    first: Evolving,
    changes: Items<Change>,
) -> Result<Counted, RestoreError>
    requires first { first ≡ lineage_begun first.begins (columns_of first) }
    requires none { first.changes ≡ [] }
    requires few { first.begins + length changes ≤ max_changes }
    ensures pass { OnOk result (IsTrue (changes_pass (columns_of first) changes)) }
    ensures refused { IfErr result (λ e. e ≢ RestoreError.Memory → changes_pass (columns_of first) changes ≡ false) }
    ensures lineage { IfOk result (λ counted. counted.evolving ≡ record { begins = first.begins; first = columns_of first; changes = changes; views = [] }) }
{
    let mut evolving = first;
    let mut widths = first_widths(alloc, &evolving)?;
    let mut sums = first_sums(alloc, &evolving)?;
    let mut left = VecDeque::from_vec(changes.into_vec());
    'changes: while let Some(change) = left.pop_front() {
        take_change(&mut evolving, change)?;
        push_counts(&evolving, &mut widths, &mut sums)?;
    }
    Ok(Counted {
        evolving,
        widths,
        sums,
    })
}

fn take_change(evolving: &mut Evolving, change: Change) -> Result<(), RestoreError>
    requires { epoch_of evolving.old < max_changes }
    ensures changed { OnOk result (evolving.new ≡ with_change evolving.old change) }
    ensures pass { OnOk result (IsTrue (is_ok (rule_checked evolving.old change))) }
    ensures refused { IfErr result (λ e. e ≢ RestoreError.Memory → is_ok (rule_checked evolving.old change) ≡ false) }
{
    match evolving.change(change) {
        Ok(()) => Ok(()),
        Err(ChangeError::Memory) => Err(RestoreError::Memory),
        Err(_) => Err(RestoreError::Misfit),
    }
}

// How many sum columns there were in each epoch, where there were no changes; before the first there were as many.
fn first_sums(alloc: Global, evolving: &Evolving) -> Result<Items<u8>, AllocError>
    requires { evolving.now.changes ≡ [] }
    ensures { IfOk result (λ sums. sums ≡ sums_of evolving.now) }
{
    repeated(alloc, sums_now(evolving), epochs_of(evolving))
}

// Adds how many value columns and sum columns there are at present.
fn push_counts(
    evolving: &Evolving,
    widths: &mut Items<u8>,
    sums: &mut Items<u8>,
) -> Result<(), AllocError>
    ensures widths { OnOk result (widths.new ≡ widths.old ++ length (columns_of evolving.now).values ∷ []) }
    ensures sums { OnOk result (sums.new ≡ sums.old ++ sums_in (aggs_of (columns_of evolving.now)) ∷ []) }
{
    widths.push(width_of(evolving.present()))?;
    sums.push(sums_now(evolving))
}

// ---- views

fn take_views(changed: Counted, views: Items<View>) -> Result<Counted, RestoreError>
    requires none { changed.evolving.views ≡ [] }
    requires few { length views ≤ max_views }
    ensures pass { OnOk result (IsTrue (list_all (is_view_of (columns_of changed.evolving)) views)) }
    ensures refused { IfErr result (λ e. e ≢ RestoreError.Memory → list_all (is_view_of (columns_of changed.evolving)) views ≡ false) }
    ensures lineage { IfOk result (λ counted. counted.evolving ≡ record changed.evolving { views = views }) }
{
    let Counted {
        mut evolving,
        widths,
        sums,
    } = changed;
    let mut left = VecDeque::from_vec(views.into_vec());
    'views: while let Some(view) = left.pop_front() {
        take_view(&mut evolving, view)?;
    }
    Ok(Counted {
        evolving,
        widths,
        sums,
    })
}

fn take_view(evolving: &mut Evolving, view: View) -> Result<(), RestoreError>
    requires { length evolving.old.views < max_views }
    ensures viewed { OnOk result (evolving.new ≡ with_view evolving.old view) }
    ensures pass { OnOk result (IsTrue (is_view_of (columns_of evolving.old) view)) }
    ensures refused { IfErr result (λ e. e ≢ RestoreError.Memory → is_view_of (columns_of evolving.old) view ≡ false) }
{
    let View { name, keys, values } = view;
    match evolving.add_view(name, keys.into_vec(), values.into_vec()) {
        Ok(()) => Ok(()),
        Err(ViewError::Memory) => Err(RestoreError::Memory),
        Err(_) => Err(RestoreError::Misfit),
    }
}

// ---- what fits the columns

impl Counted {
    // Whether there is a total for each sum column, and none passes its bound.
    pub(crate) fn allows_totals(&self, totals: &Totals) -> bool
        ensures { result ≡ totals_fit (columns_of self.now.evolving) totals.now }
    {
        counts_totals(&self.evolving, totals) && keep_bound(totals.as_slice())
    }

    // Whether each range is of versions that are there, of an epoch that the table has had, and counts its columns.
    pub(crate) fn allows_ranges(&self, next: u32, ranges: &[CheckpointRange]) -> bool
        ensures { result ≡ list_all (range_fits self.now.evolving next) ranges.now }
    {
        ranges.iter().all(|range| self.allows_range(next, range))
    }

    pub(crate) fn allows_range(&self, next: u32, range: &CheckpointRange) -> bool
        ensures { result ≡ range_fits self.now.evolving next range.now }
    {
        range.to < next && self.allows_files(range.epoch, &range.files)
    }

    fn allows_files(&self, epoch: u32, files: &Option<Files>) -> bool
        ensures { result ≡ delta_fits self.now.evolving epoch files.now }
    {
        if epoch < self.evolving.begins() {
            return false;
        }
        if epoch > self.evolving.epoch() {
            return false;
        }
        match files {
            None => true,
            Some(files) => counts_files(&self.evolving, self.widths.as_slice(), epoch, files),
        }
    }

    // Whether each singleton is of an epoch that the table has had, and counts its columns and its sum columns.
    pub(crate) fn allows_singles(&self, singles: &[CheckpointSingle]) -> bool
        ensures { result ≡ list_all (single_fits self.now.evolving) singles.now }
    {
        singles.iter().all(|single| self.allows_single(single))
    }

    fn allows_single(&self, single: &CheckpointSingle) -> bool
        ensures { result ≡ single_fits self.now.evolving single.now }
    {
        let epoch = single.epoch;
        if epoch < self.evolving.begins() {
            return false;
        }
        if epoch > self.evolving.epoch() {
            return false;
        }
        counts_files(&self.evolving, self.widths.as_slice(), epoch, &single.files)
            && self.allows_totals_at(epoch, &single.totals)
    }

    fn allows_totals_at(&self, epoch: u32, totals: &Totals) -> bool
        requires { epoch ≤ epoch_of self.now.evolving }
        ensures { result ≡ totals_fit (columns_at self.now.evolving epoch) totals.now }
    {
        totals.len() == self.sums.as_slice()[epoch as usize] as usize
            && keep_bound(totals.as_slice())
    }

    // The columns as a table has them, with how many value columns there were in each epoch.
    pub(crate) fn share(self, alloc: Global) -> Result<(Arc<Evolving>, Items<u8>), AllocError>
        ensures evolving { IfOk result (λ shared. shared.0.value ≡ self.evolving) }
        ensures widths { IfOk result (λ shared. shared.1 ≡ widths_of self.evolving) }
    {
        let Counted {
            evolving,
            widths,
            sums: _,
        } = self;
        Ok((Arc::new(alloc, evolving)?, widths))
    }
}
