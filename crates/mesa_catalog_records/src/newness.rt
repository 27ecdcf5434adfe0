// Whether the files that a record brings are new. Takes no memory.
ghost use Rattle.std.specs.Prelude.{◌≡◌, ◌==◌, ◌^◌, ◌-◌, ◌≤◌, ◌<◌, [], ◌∷◌, ℕ, flat_map, count_by, map, min, IfSome, IsTrue};
ghost use Rattle.std.specs.List.{list_all, list_any, AllByRecursion};
ghost use Rattle.mesa_table_records.specs.mesa_record.declared.checkpoint.CheckpointSingle.{CheckpointSingle as Told};
ghost use Rattle.mesa_table_records.specs.mesa_record.declared.record.ViewRef.{ViewRef as Seen};
ghost use Rattle.mesa_table_records.specs.mesa_store_spec.Fitting.{are_new_ids, has_number};
ghost use Rattle.mesa_table_records.specs.mesa_store_spec.Ids.{times as times_of};
ghost use Rattle.mesa_table_records.specs.mesa_catalog_table.declared.table.Table.{Table as Held};
ghost use Rattle.mesa_table_records.specs.mesa_catalog_table.Named.{file_ids, own_if_any, table_ids, view_id};
ghost use Rattle.mesa_catalog_records.specs.Named.{RiseTo, held_ids, ids_brought, is_once_new, part_ids, recast_base_ids, recast_ids, told_id};

use crate::catalog_tables::CatalogTables;
use mesa_file::FileId;
use mesa_table_records::{
    CheckpointSingle, Files, Part, RecastBase, Recasting, Record, Table, ViewRef,
};

/// How many ids of files a run has.
pub const IDS_OF_RUN: u64 = 1 << 40;

// ---- ids that rise above all that were named, as those of a run do

/// Whether a record brings files, and they have ids of a run that rise from above a number.
pub fn brings_rising(run: u32, above: u64, r: &Record) -> bool
    ensures { IsTrue result → (last : ℕ) × RiseTo run above (ids_brought r.now) last }
{
    match r {
        Record::Publish { parts, .. } => parts_rise(run, above, parts.as_slice()).is_some(),
        Record::Swap { files, .. } => match files {
            Some(files) => files_rise(run, above, files).is_some(),
            None => false,
        },
        Record::Recast(told) => recast_rises(run, above, told).is_some(),
        Record::Run { .. }
        | Record::Table { .. }
        | Record::View { .. }
        | Record::Alter { .. }
        | Record::Expire { .. }
        | Record::ExpireTable { .. }
        | Record::Checkpoint(_) => false,
    }
}

// The last of the ids, where they rise.
fn parts_rise(run: u32, above: u64, parts: &[Part]) -> Option<u64>
    ensures { IfSome result (RiseTo run above (flat_map part_ids parts.now)) }
{
    let mut last = above;
    for part in parts {
        last = files_rise(run, last, &part.files)?;
    }
    Some(last)
}

fn files_rise(run: u32, above: u64, files: &Files) -> Option<u64>
    ensures { IfSome result (RiseTo run above (file_ids files.now)) }
{
    let last = id_rises(run, above, files.file.id)?;
    views_rise(run, last, files.views.as_slice())
}

fn views_rise(run: u32, above: u64, views: &[ViewRef]) -> Option<u64>
    ensures { IfSome result (RiseTo run above (map view_id views.now)) }
{
    let mut last = above;
    for view in views {
        last = id_rises(run, last, view.file.id)?;
    }
    Some(last)
}

fn recast_rises(run: u32, above: u64, told: &Recasting) -> Option<u64>
    ensures { IfSome result (RiseTo run above (recast_ids told.now)) }
{
    let last = base_rises(run, above, &told.base)?;
    singles_rise(run, last, told.singles.as_slice())
}

fn base_rises(run: u32, above: u64, base: &Option<RecastBase>) -> Option<u64>
    ensures { IfSome result (RiseTo run above (recast_base_ids base.now)) }
{
    match base {
        None => Some(above),
        Some(base) => own_rises(run, above, &base.files),
    }
}

fn own_rises(run: u32, above: u64, files: &Option<Files>) -> Option<u64>
    ensures { IfSome result (RiseTo run above (own_if_any files.now)) }
{
    match files {
        None => Some(above),
        Some(files) => id_rises(run, above, files.file.id),
    }
}

fn singles_rise(run: u32, above: u64, singles: &[CheckpointSingle]) -> Option<u64>
    ensures { IfSome result (RiseTo run above (map told_id singles.now)) }
{
    let mut last = above;
    for single in singles {
        last = id_rises(run, last, single.files.file.id)?;
    }
    Some(last)
}

fn id_rises(run: u32, above: u64, id: FileId) -> Option<u64>
    ensures { IfSome result (RiseTo run above (id ∷ [])) }
{
    let number = id.number();
    (number / IDS_OF_RUN == run as u64 && above < number).then_some(number)
}

// ---- any ids

/// Whether the files that a record brings have new ids, of the last run.
pub fn brings_new(catalog_tables: &CatalogTables, r: &Record) -> bool
    ensures { result ≡ are_new_ids catalog_tables.now.run (held_ids catalog_tables.now) (ids_brought r.now) }
{
    match r {
        Record::Publish { parts, .. } => parts_are_new(catalog_tables, r, parts.as_slice()),
        Record::Swap { files, .. } => match files {
            Some(files) => files_are_new(catalog_tables, r, files),
            None => true,
        },
        Record::Recast(told) => recast_is_new(catalog_tables, r, told),
        Record::Run { .. }
        | Record::Table { .. }
        | Record::View { .. }
        | Record::Alter { .. }
        | Record::Expire { .. }
        | Record::ExpireTable { .. }
        | Record::Checkpoint(_) => true,
    }
}

fn parts_are_new(catalog_tables: &CatalogTables, r: &Record, parts: &[Part]) -> bool
    ensures { result ≡ list_all (λ p. list_all (is_once_new catalog_tables.now.run (held_ids catalog_tables.now) (ids_brought r.now)) (file_ids p.files)) parts.now }
{
    parts
        .iter()
        .all(|part| files_are_new(catalog_tables, r, &part.files))
}

// Whether each id of these files is new, and stands once among those of the record.
fn files_are_new(catalog_tables: &CatalogTables, r: &Record, files: &Files) -> bool
    ensures { result ≡ list_all (is_once_new catalog_tables.now.run (held_ids catalog_tables.now) (ids_brought r.now)) (file_ids files.now) }
{
    is_new(catalog_tables, r, files.file.id.number())
        && views_are_new(catalog_tables, r, files.views.as_slice())
}

fn views_are_new(catalog_tables: &CatalogTables, r: &Record, views: &[ViewRef]) -> bool
    ensures { result ≡ list_all (λ (v : Seen). is_once_new catalog_tables.now.run (held_ids catalog_tables.now) (ids_brought r.now) v.file.id) views.now }
{
    views
        .iter()
        .all(|view| is_new(catalog_tables, r, view.file.id.number()))
}

fn recast_is_new(catalog_tables: &CatalogTables, r: &Record, told: &Recasting) -> bool
    ensures { result ≡ list_all (is_once_new catalog_tables.now.run (held_ids catalog_tables.now) (ids_brought r.now)) (recast_ids told.now) }
{
    base_is_new(catalog_tables, r, &told.base)
        && singles_are_new(catalog_tables, r, told.singles.as_slice())
}

fn base_is_new(catalog_tables: &CatalogTables, r: &Record, base: &Option<RecastBase>) -> bool
    ensures { result ≡ list_all (is_once_new catalog_tables.now.run (held_ids catalog_tables.now) (ids_brought r.now)) (recast_base_ids base.now) }
{
    match base {
        None => true,
        Some(base) => own_is_new(catalog_tables, r, &base.files),
    }
}

fn own_is_new(catalog_tables: &CatalogTables, r: &Record, files: &Option<Files>) -> bool
    ensures { result ≡ list_all (is_once_new catalog_tables.now.run (held_ids catalog_tables.now) (ids_brought r.now)) (own_if_any files.now) }
{
    match files {
        None => true,
        Some(files) => is_new(catalog_tables, r, files.file.id.number()),
    }
}

fn singles_are_new(catalog_tables: &CatalogTables, r: &Record, singles: &[CheckpointSingle]) -> bool
    ensures { result ≡ list_all (λ (s : Told). is_once_new catalog_tables.now.run (held_ids catalog_tables.now) (ids_brought r.now) s.files.file.id) singles.now }
{
    singles.iter().all(|single| is_new(catalog_tables, r, single.files.file.id.number()))
}

// Whether an id is of the last run, not named, and stands once among those of the record.
fn is_new(catalog_tables: &CatalogTables, r: &Record, id: u64) -> bool
    ensures { result ≡ is_once_new catalog_tables.now.run (held_ids catalog_tables.now) (ids_brought r.now) id }
{
    if id / IDS_OF_RUN != catalog_tables.run as u64 {
        return false;
    }
    if tables_name(&catalog_tables.tables, id) {
        return false;
    }
    times_in_record(r, id) == 1
}

fn tables_name(tables: &[Table], id: u64) -> bool
    ensures { result ≡ list_any (λ (t : Held). has_number id (table_ids t)) tables.now }
{
    tables.iter().any(|table| table.names(id))
}

// How often an id stands among those of a record; where it is more than can be counted, the greatest number.
fn times_in_record(r: &Record, id: u64) -> u64
    ensures { result ≡ min (2 ^ 64 - 1) (times_of id (ids_brought r.now)) }
{
    match r {
        Record::Publish { parts, .. } => times_in_parts(parts.as_slice(), id),
        Record::Swap { files, .. } => match files {
            Some(files) => times_in_files(files, id),
            None => 0,
        },
        Record::Recast(told) => times_in_recast(told, id),
        Record::Run { .. }
        | Record::Table { .. }
        | Record::View { .. }
        | Record::Alter { .. }
        | Record::Expire { .. }
        | Record::ExpireTable { .. }
        | Record::Checkpoint(_) => 0,
    }
}

fn times_in_parts(parts: &[Part], id: u64) -> u64
    ensures { result ≡ min (2 ^ 64 - 1) (times_of id (flat_map part_ids parts.now)) }
{
    let mut times = 0u64;
    for part in parts {
        times = times.saturating_add(times_in_files(&part.files, id));
    }
    times
}

fn times_in_files(files: &Files, id: u64) -> u64
    ensures count { result ≡ times_of id (file_ids files.now) }
    ensures most { result ≤ 2 ^ 63 }
{
    let views = times_in_views(files.views.as_slice(), id);
    if id == files.file.id.number() {
        1 + views
    } else {
        views
    }
}

fn times_in_views(views: &[ViewRef], id: u64) -> u64
    ensures count { result ≡ count_by (λ (v : Seen). id == v.file.id) views.now }
    ensures most { result < 2 ^ 63 }
{
    views
        .iter()
        .filter(|view| id == view.file.id.number())
        .count() as u64
}

fn times_in_recast(told: &Recasting, id: u64) -> u64
    ensures { result ≡ min (2 ^ 64 - 1) (times_of id (recast_ids told.now)) }
{
    times_in_singles(told.singles.as_slice(), id) + times_in_base(&told.base, id)
}

fn times_in_base(base: &Option<RecastBase>, id: u64) -> u64
    ensures count { result ≡ times_of id (recast_base_ids base.now) }
    ensures most { result ≤ 1 }
{
    match base {
        None => 0,
        Some(base) => times_in_own(&base.files, id),
    }
}

fn times_in_own(files: &Option<Files>, id: u64) -> u64
    ensures count { result ≡ times_of id (own_if_any files.now) }
    ensures most { result ≤ 1 }
{
    match files {
        None => 0,
        Some(files) => { if id == files.file.id.number() { 1 } else { 0 } }
    }
}

fn times_in_singles(singles: &[CheckpointSingle], id: u64) -> u64
    ensures count { result ≡ count_by (λ (s : Told). id == s.files.file.id) singles.now }
    ensures most { result < 2 ^ 63 }
{
    singles
        .iter()
        .filter(|single| id == single.files.file.id.number())
        .count() as u64
}

// ---- the greatest id

/// The greatest of a number and the ids of the files that a record brings.
pub fn greatest_with(least: u64, r: &Record) -> u64
    ensures least { least ≤ result }
    ensures all { AllByRecursion (λ id. id ≤ result) (ids_brought r.now) }
{
    match r {
        Record::Publish { parts, .. } => greatest_in_parts(least, parts.as_slice()),
        Record::Swap { files, .. } => match files {
            Some(files) => greatest_in_files(least, files),
            None => least,
        },
        Record::Recast(told) => greatest_in_recast(least, told),
        Record::Run { .. }
        | Record::Table { .. }
        | Record::View { .. }
        | Record::Alter { .. }
        | Record::Expire { .. }
        | Record::ExpireTable { .. }
        | Record::Checkpoint(_) => least,
    }
}

fn greatest_in_parts(least: u64, parts: &[Part]) -> u64
    ensures least { least ≤ result }
    ensures all { AllByRecursion (λ id. id ≤ result) (flat_map part_ids parts.now) }
{
    let mut greatest = least;
    for part in parts {
        greatest = greatest_in_files(greatest, &part.files);
    }
    greatest
}

fn greatest_in_files(least: u64, files: &Files) -> u64
    ensures least { least ≤ result }
    ensures all { AllByRecursion (λ id. id ≤ result) (file_ids files.now) }
{
    let least = least.max(files.file.id.number());
    greatest_in_views(least, files.views.as_slice())
}

fn greatest_in_views(least: u64, views: &[ViewRef]) -> u64
    ensures least { least ≤ result }
    ensures all { AllByRecursion (λ id. id ≤ result) (map view_id views.now) }
{
    let mut greatest = least;
    for view in views {
        greatest = greatest.max(view.file.id.number());
    }
    greatest
}

fn greatest_in_recast(least: u64, told: &Recasting) -> u64
    ensures least { least ≤ result }
    ensures all { AllByRecursion (λ id. id ≤ result) (recast_ids told.now) }
{
    let own = greatest_in_base(least, &told.base);
    greatest_in_singles(own, told.singles.as_slice())
}

fn greatest_in_base(least: u64, base: &Option<RecastBase>) -> u64
    ensures least { least ≤ result }
    ensures all { AllByRecursion (λ id. id ≤ result) (recast_base_ids base.now) }
{
    match base {
        None => least,
        Some(base) => greatest_in_own(least, &base.files),
    }
}

fn greatest_in_own(least: u64, files: &Option<Files>) -> u64
    ensures least { least ≤ result }
    ensures all { AllByRecursion (λ id. id ≤ result) (own_if_any files.now) }
{
    match files {
        None => least,
        Some(files) => least.max(files.file.id.number()),
    }
}

fn greatest_in_singles(least: u64, singles: &[CheckpointSingle]) -> u64
    ensures least { least ≤ result }
    ensures all { AllByRecursion (λ id. id ≤ result) (map told_id singles.now) }
{
    let mut greatest = least;
    for single in singles {
        greatest = greatest.max(single.files.file.id.number());
    }
    greatest
}
