// The files that catalogues name.
ghost use Rattle.mesa_store_spec.specs.Catalog.{Catalog, applied};
ghost use Rattle.mesa_store_spec.specs.Contents.{Rows, kept_of};
ghost use Rattle.mesa_store_spec.specs.Fitting.{LiveFile, alter_fits, brought, fits, live_files};
ghost use Rattle.mesa_store_spec.specs.Journaled.{catalog};
ghost use Rattle.mesa_commit.specs.mesa_disk.declared.area.Area.{Area as AreaOf};
ghost use Rattle.mesa_history_spec.specs.Sources.{Written};
ghost use Rattle.mesa_store_spec.specs.Held.{IsUnnamed};
ghost use Rattle.mesa_store_spec.specs.Shape.{IsCatalog};
ghost use Rattle.mesa_store_spec.specs.Sound.{HaveSoundRows, wants};
ghost use Rattle.mesa_store_spec.specs.Brought.{Agree};
ghost use Rattle.mesa_store_spec.specs.Ids.{HasOwnIds, IsNewId, brought_ids, dropped_ids, named, times};
ghost use Rattle.mesa_store_spec.specs.Sourced.{HasSources};
ghost use Rattle.mesa_delta_format.specs.mesa_key.Spelling.{AreBytes};
ghost use Rattle.mesa_record.specs.declared.record.Record.{Record as RecordOf};
ghost use Rattle.mesa_record.specs.declared.record.Record.TheVariants as record_of;
ghost use Rattle.mesa_record.specs.Rules.{keeps_rules};
ghost use Rattle.mesa_history_spec.specs.mesa_columns.declared.changes.Change.{Change as ChangeOf};
ghost use Rattle.std.specs.List.{AllByRecursion};
ghost use Rattle.std.specs.Prelude.{◌≡◌, ◌+◌, ◌<◌, ℕ, List, Some, true};

/// A change leaves the files that a catalogue names, and their columns.
pub fn changes_keep_files()
    ensures { (c : Catalog) (table : ℕ) (change : ChangeOf) → IsCatalog c → alter_fits c table change ≡ true → live_files (applied c (record_of.Alter table change)) ≡ live_files c }
{}

/// So does a view, where each view's file has rows of a view that is there.
pub fn views_keep_files()
    ensures { (rows : Rows) (c : Catalog) (table : ℕ) (name : List ℕ) (keys values : List (List ℕ)) → HaveSoundRows rows c → fits c (record_of.View table name keys values) ≡ true
        → live_files (applied c (record_of.View table name keys values)) ≡ live_files c }
{}

/// So does an expiry, of all tables or of one.
pub fn expiries_keep_files()
    ensures all { (c : Catalog) (version : ℕ) → live_files (applied c (record_of.Expire version)) ≡ live_files c }
    ensures table { (c : Catalog) (table version : ℕ) → live_files (applied c (record_of.ExpireTable table version)) ≡ live_files c }
{}

/// What is named after a record, with what it lets go, is what was named before with what it brings.
pub fn ids_are_counted()
    ensures { (c : Catalog) (r : RecordOf) (id : ℕ) → keeps_rules r ≡ true → fits c r ≡ true
        → times id (named (applied c r)) + times id (dropped_ids c r) ≡ times id (named c) + times id (brought_ids c r) }
{}

/// The files that a record brings have ids that none has which is named.
pub fn brought_ids_are_new()
    ensures unnamed { (c : Catalog) (r : RecordOf) → fits c r ≡ true → AllByRecursion (λ (x : LiveFile). IsUnnamed c x.file.id) (brought c r) }
    ensures own { (c : Catalog) (r : RecordOf) (id : ℕ) → fits c r ≡ true → 0 < times id (brought_ids c r) → IsNewId c r id }
{}

/// Each id that a catalogue names is that of one file, of a run that was: of every catalogue that
/// bodies of bytes make, and after each record that fits.
pub fn catalogs_own_ids()
    ensures whole { (area : AreaOf) (bodies : List (List ℕ)) (c : Catalog) → AllByRecursion AreBytes bodies → catalog area bodies ≡ Some c → HasOwnIds c }
    ensures kept { (c : Catalog) (r : RecordOf) → keeps_rules r ≡ true → fits c r ≡ true → HasOwnIds c → HasOwnIds (applied c r) }
{}

/// Rows count only for files that are named.
pub fn rows_count_where_named()
    ensures kept { (old new : Rows) (c : Catalog) → Agree old new (live_files c) → kept_of new c ≡ kept_of old c }
    ensures sound_rows { (old new : Rows) (c : Catalog) → Agree old new (live_files c) → HaveSoundRows old c → HaveSoundRows new c }
    ensures sourced { (old new : Rows) (written : ℕ → List Written) (c : Catalog) → Agree old new (live_files c) → HasSources old written c → HasSources new written c }
    ensures wanted { (old new : Rows) (files : List LiveFile) → Agree old new files → wants new files ≡ wants old files }
{}
