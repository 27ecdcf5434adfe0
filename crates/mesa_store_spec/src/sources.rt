// What the rows of deltas were made of.
ghost use Rattle.mesa_history_spec.specs.mesa_batch.Batch.{Placed, batch_of};
ghost use Rattle.mesa_history_spec.specs.mesa_batch.declared.words.RowWords.{RowWords as WordsOf};
ghost use Rattle.mesa_history_spec.specs.Law.{Accepts, Regroups};
ghost use Rattle.mesa_history_spec.specs.Sources.{Written, range_rows, sources_from};
ghost use Rattle.mesa_store_spec.specs.Catalog.{Catalog, Delta, applied, merged_delta, recast_in, meta_at};
ghost use Rattle.mesa_store_spec.specs.Contents.{Rows, content, present};
ghost use Rattle.mesa_store_spec.specs.Fitting.{fits, may_be_work};
ghost use Rattle.mesa_store_spec.specs.Shape.{IsCatalog};
ghost use Rattle.mesa_store_spec.specs.Sound.{HaveSoundRows};
ghost use Rattle.mesa_store_spec.specs.Brought.{AreTold, BringsAll, BringsRecast, Replaces, merged_of};
ghost use Rattle.mesa_store_spec.specs.Sourced.{HasSources, IsAccepted, IsMadeOf, IsMergedOf, found_written, tables_read, written_behind};
ghost use Rattle.mesa_record.specs.declared.record.Files.{Files as FilesOf};
ghost use Rattle.mesa_record.specs.declared.record.Part.{Part as PartOf};
ghost use Rattle.mesa_record.specs.declared.record.Record.TheVariants as record_of;
ghost use Rattle.mesa_record.specs.declared.recasting.Recasting.{Recasting as RecastingOf};
ghost use Rattle.mesa_record.specs.mesa_record_fields.Rules.{IsTypedChange};
ghost use Rattle.mesa_history_spec.specs.mesa_schema.Changes.{columns_of, epoch_of};
ghost use Rattle.mesa_history_spec.specs.mesa_columns.Columns.{aggs_of};
ghost use Rattle.mesa_history_spec.specs.mesa_columns.declared.changes.Change.{Change as ChangeOf};
ghost use Rattle.mesa_history_spec.specs.mesa_columns.declared.columns.KeyColumn.{KeyColumn as KeyOf};
ghost use Rattle.mesa_history_spec.specs.mesa_columns.declared.columns.ValueColumn.{ValueColumn as ValueOf};
ghost use Rattle.mesa_history_spec.specs.mesa_fold.Folded.{folded};
ghost use Rattle.std.specs.Prelude.{◌≡◌, ◌≤◌, ◌<◌, ℕ, Bool, List, Ok, Option, length, map, true};

/// A sound catalogue was made of what a run finds written of it.
pub fn sources_begin()
    ensures { (rows : Rows) (c : Catalog) → IsCatalog c → HaveSoundRows rows c → HasSources rows (λ number. found_written rows (meta_at c number)) c }
{}

/// Deltas are made of what was written, whatever records come: a batch adds what it brings to what
/// was written; a merged range was made of what was written in it; and a recast regroups what was
/// written of its table.
pub fn sources_go_on()
    ensures run { (rows : Rows) (written : ℕ → List Written) (c : Catalog) (number : ℕ) → HasSources rows written c → HasSources rows written (applied c (record_of.Run number)) }
    ensures table { (rows : Rows) (written : ℕ → List Written) (c : Catalog) (name : List ℕ) (keys : List KeyOf) (values : List ValueOf) → IsCatalog c → HasSources rows written c
        → HasSources rows written (applied c (record_of.Table name keys values)) }
    ensures view { (rows : Rows) (written : ℕ → List Written) (c : Catalog) (table : ℕ) (name : List ℕ) (keys values : List (List ℕ)) → IsCatalog c → HaveSoundRows rows c → HasSources rows written c
        → fits c (record_of.View table name keys values) ≡ true → HasSources rows written (applied c (record_of.View table name keys values)) }
    ensures alter { (rows : Rows) (written : ℕ → List Written) (c : Catalog) (table : ℕ) (change : ChangeOf) → IsCatalog c → HasSources rows written c
        → fits c (record_of.Alter table change) ≡ true → IsTypedChange change → HasSources rows written (applied c (record_of.Alter table change)) }
    ensures publish { (rows : Rows) (written : ℕ → List Written) (c : Catalog) (version : ℕ) (parts : List PartOf) (batch : List Placed) → IsCatalog c → HasSources rows written c
        → IsAccepted c batch → BringsAll rows parts batch 0 c.tables → HasSources rows (written_behind rows c (Accepts c.next batch) written) (applied c (record_of.Publish version parts)) }
    ensures swap { (rows : Rows) (written : ℕ → List Written) (c : Catalog) (table : ℕ) (base : Bool) (from to epoch : ℕ) (files : Option FilesOf) → IsCatalog c → HasSources rows written c
        → fits c (record_of.Swap table base from to epoch files) ≡ true → IsMadeOf rows (meta_at c table).lineage (written table) from to (merged_delta epoch files)
        → HasSources rows written (applied c (record_of.Swap table base from to epoch files)) }
    ensures recast { (rows : Rows) (written : ℕ → List Written) (c : Catalog) (k : RecastingOf) → IsCatalog c → HasSources rows written c → fits c (record_of.Recast k) ≡ true
        → AreTold rows c (record_of.Recast k) → BringsRecast rows c.next (meta_at c k.table) k → HasSources rows (written_behind rows c (Regroups k.table (recast_in k)) written) (applied c (record_of.Recast k)) }
    ensures expire { (rows : Rows) (written : ℕ → List Written) (c : Catalog) (version : ℕ) → HasSources rows written c → HasSources rows written (applied c (record_of.Expire version)) }
    ensures expire_table { (rows : Rows) (written : ℕ → List Written) (c : Catalog) (table version : ℕ) → HasSources rows written c → fits c (record_of.ExpireTable table version) ≡ true → HasSources rows written (applied c (record_of.ExpireTable table version)) }
{}

/// A batch that was read by a catalogue's tables may be accepted.
pub fn batches_are_accepted()
    ensures { (c : Catalog) (words : List WordsOf) (batch : List Placed) → batch_of (tables_read c) words ≡ Ok batch → IsAccepted c batch }
{}

/// A content is the fold of what was written to its version, and what a work reads that of what was
/// written in its range.
pub fn sources_tell()
    ensures contents { (rows : Rows) (written : ℕ → List Written) (c : Catalog) (table version : ℕ) → IsCatalog c → HasSources rows written c → table < length c.tables → (meta_at c table).oldest ≤ version → version < c.next
        → content rows (meta_at c table) version ≡ range_rows (meta_at c table).lineage (epoch_of (meta_at c table).lineage) (sources_from 0 version (written table)) }
    ensures works { (rows : Rows) (written : ℕ → List Written) (c : Catalog) (table : ℕ) (base : Bool) (from to : ℕ) → IsCatalog c → HasSources rows written c → table < length c.tables → may_be_work c (meta_at c table) base from to ≡ true
        → folded (aggs_of (columns_of (meta_at c table).lineage)) (map (present rows (meta_at c table).lineage) (merged_of (meta_at c table) base to))
        ≡ range_rows (meta_at c table).lineage (epoch_of (meta_at c table).lineage) (sources_from from to (written table)) }
{}

/// A delta that was merged in the epoch of its work's grant is made of its range at present,
/// whatever changes came since, and may take the place of what the table has of the range.
pub fn works_merge_sources()
    ensures made { (rows : Rows) (written : ℕ → List Written) (c : Catalog) (table from to : ℕ) (d : Delta) → IsCatalog c → HasSources rows written c → table < length c.tables
        → IsMergedOf rows (meta_at c table).lineage (written table) from to d → IsMadeOf rows (meta_at c table).lineage (written table) from to d }
    ensures replaces { (rows : Rows) (written : ℕ → List Written) (c : Catalog) (table : ℕ) (base : Bool) (from to epoch : ℕ) (files : Option FilesOf) → IsCatalog c → HasSources rows written c
        → fits c (record_of.Swap table base from to epoch files) ≡ true → IsMadeOf rows (meta_at c table).lineage (written table) from to (merged_delta epoch files)
        → Replaces rows (meta_at c table).lineage (merged_delta epoch files) (merged_of (meta_at c table) base to) }
{}
