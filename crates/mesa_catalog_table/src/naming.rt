// The files that a table names.
ghost use Rattle.std.specs.Prelude.{◌≡◌, ◌++◌, ◌==◌, flat_map, map, OnOk};
ghost use Rattle.std.specs.List.{list_any};
ghost use Rattle.mesa_record.specs.declared.record.ViewRef.{ViewRef as Seen};
ghost use Rattle.mesa_store_spec.specs.Fitting.{has_number};
ghost use Rattle.mesa_catalog_table.specs.Named.{base_ids, base_own, delta_ids, file_ids, ids_if_any, ids_recast, ids_through, own_ids, shared_ids, single_ids, single_own, table_ids, through, view_id};

use crate::{Base, Delta, Loaded, Table};
use mesa_file::FileId;
use mesa_record::{Files, ViewRef};
use std::alloc::AllocError;
use std::sync::Arc;

impl Table {
    /// Whether a file of this id is named.
    pub fn names(&self, id: u64) -> bool
        ensures { result ≡ has_number id (table_ids self.now) }
    {
        base_names(&self.base, id)
            || cumulatives_name(&self.cumulatives, id)
            || loaded_name(&self.loaded, id)
    }

    /// Adds the ids of the files of the base, of all cumulatives, and of the singletons up to a version, each with its views' files.
    pub fn push_ids(&self, to: u32, ids: &mut Vec<FileId>) -> Result<(), AllocError>
        ensures { OnOk result (ids.new.items ≡ ids.old.items ++ ids_through self.now to) }
    {
        push_base(&self.base, ids)?;
        push_cumulatives(&self.cumulatives, ids)?;
        push_loaded(&self.loaded, to, ids)
    }

    /// Adds the ids of the files that go with a recast: the table's own of the base and of the singletons, and all of the cumulatives. The views' files of the former stay.
    pub fn push_recast_ids(&self, ids: &mut Vec<FileId>) -> Result<(), AllocError>
        ensures { OnOk result (ids.new.items ≡ ids.old.items ++ ids_recast self.now) }
    {
        push_base_own(&self.base, ids)?;
        push_loaded_own(&self.loaded, ids)?;
        push_cumulatives(&self.cumulatives, ids)
    }
}

fn base_names(base: &Option<Base>, id: u64) -> bool
    ensures { result ≡ has_number id (base_ids base.now) }
{
    match base {
        Some(base) => match &base.delta {
            Some(delta) => delta.names(id),
            None => false,
        },
        None => false,
    }
}

fn cumulatives_name(cumulatives: &[Arc<Delta>], id: u64) -> bool
    ensures { result ≡ list_any (λ d. has_number id (shared_ids d)) cumulatives.now }
{
    cumulatives.iter().any(|delta| delta.names(id))
}

fn loaded_name(loaded: &[Loaded], id: u64) -> bool
    ensures { result ≡ list_any (λ l. has_number id (single_ids l)) loaded.now }
{
    loaded.iter().any(|single| single.delta.names(id))
}

impl Delta {
    fn names(&self, id: u64) -> bool
        ensures { result ≡ has_number id (delta_ids self.now) }
    {
        match &self.files {
            Some(files) => files_name(files, id),
            None => false,
        }
    }
}

fn files_name(files: &Files, id: u64) -> bool
    ensures { result ≡ has_number id (file_ids files.now) }
{
    id == files.file.id.number() || views_name(files.views.as_slice(), id)
}

fn views_name(views: &[ViewRef], id: u64) -> bool
    ensures { result ≡ list_any (λ (v : Seen). id == v.file.id) views.now }
{
    views.iter().any(|view| id == view.file.id.number())
}

// ---- lists of ids

fn push_base(base: &Option<Base>, ids: &mut Vec<FileId>) -> Result<(), AllocError>
    ensures { OnOk result (ids.new.items ≡ ids.old.items ++ base_ids base.now) }
{
    match base {
        Some(base) => match &base.delta {
            Some(delta) => push_delta(delta, ids),
            None => Ok(()),
        },
        None => Ok(()),
    }
}

fn push_cumulatives(cumulatives: &[Arc<Delta>], ids: &mut Vec<FileId>) -> Result<(), AllocError>
    ensures { OnOk result (ids.new.items ≡ ids.old.items ++ flat_map shared_ids cumulatives.now) }
{
    for delta in cumulatives {
        push_delta(delta, ids)?;
    }
    Ok(())
}

// Those of what was loaded up to a version.
fn push_loaded(loaded: &[Loaded], to: u32, ids: &mut Vec<FileId>) -> Result<(), AllocError>
    ensures { OnOk result (ids.new.items ≡ ids.old.items ++ flat_map single_ids (through to loaded.now)) }
{
    for single in loaded {
        if single.version <= to {
            push_delta(&single.delta, ids)?;
        }
    }
    Ok(())
}

// ---- a table's own files

fn push_base_own(base: &Option<Base>, ids: &mut Vec<FileId>) -> Result<(), AllocError>
    ensures { OnOk result (ids.new.items ≡ ids.old.items ++ base_own base.now) }
{
    match base {
        Some(base) => match &base.delta {
            Some(delta) => push_own(delta, ids),
            None => Ok(()),
        },
        None => Ok(()),
    }
}

fn push_loaded_own(loaded: &[Loaded], ids: &mut Vec<FileId>) -> Result<(), AllocError>
    ensures { OnOk result (ids.new.items ≡ ids.old.items ++ flat_map single_own loaded.now) }
{
    for single in loaded {
        push_own(&single.delta, ids)?;
    }
    Ok(())
}

fn push_own(delta: &Delta, ids: &mut Vec<FileId>) -> Result<(), AllocError>
    ensures { OnOk result (ids.new.items ≡ ids.old.items ++ own_ids delta.now) }
{
    match &delta.files {
        Some(files) => {
            ids.push(files.file.id)?;
            Ok(())
        }
        None => Ok(()),
    }
}

// ---- the files of a delta

fn push_delta(delta: &Delta, ids: &mut Vec<FileId>) -> Result<(), AllocError>
    ensures { OnOk result (ids.new.items ≡ ids.old.items ++ delta_ids delta.now) }
{
    match &delta.files {
        Some(files) => push_files(files, ids),
        None => Ok(()),
    }
}

fn push_files(files: &Files, ids: &mut Vec<FileId>) -> Result<(), AllocError>
    ensures { OnOk result (ids.new.items ≡ ids.old.items ++ file_ids files.now) }
{
    ids.push(files.file.id)?;
    push_views(files.views.as_slice(), ids)
}

fn push_views(views: &[ViewRef], ids: &mut Vec<FileId>) -> Result<(), AllocError>
    ensures { OnOk result (ids.new.items ≡ ids.old.items ++ map view_id views.now) }
{
    for view in views {
        ids.push(view.file.id)?;
    }
    Ok(())
}
