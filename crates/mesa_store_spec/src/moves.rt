// What each record moves.
ghost use Rattle.mesa_history_spec.specs.mesa_batch.Batch.{Placed};
ghost use Rattle.mesa_store_spec.specs.Catalog.{Catalog, applied, merged_delta, recast_in, meta_at};
ghost use Rattle.mesa_store_spec.specs.Contents.{Rows, kept_of};
ghost use Rattle.mesa_store_spec.specs.Fitting.{fits};
ghost use Rattle.mesa_store_spec.specs.Shape.{IsCatalog};
ghost use Rattle.mesa_store_spec.specs.Sound.{HaveSoundRows};
ghost use Rattle.mesa_store_spec.specs.Brought.{AreTold, BringsAll, BringsRecast, Merges};
ghost use Rattle.mesa_store_spec.specs.Moves.{Moves, kept_altered, kept_expired, kept_expired_of, kept_loaded, kept_made, kept_recast, kept_swapped, kept_viewed, work_of};
ghost use Rattle.mesa_history_spec.specs.Found.{kept_of as kept_in_state};
ghost use Rattle.mesa_history_spec.specs.Machine.{Claim};
ghost use Rattle.mesa_history_spec.specs.Replay.{recasted};
ghost use Rattle.mesa_history_spec.specs.Run.{State};
ghost use Rattle.mesa_record.specs.declared.record.Files.{Files as FilesOf};
ghost use Rattle.mesa_record.specs.declared.record.Part.{Part as PartOf};
ghost use Rattle.mesa_record.specs.declared.record.Record.TheVariants as record_of;
ghost use Rattle.mesa_record.specs.declared.recasting.Recasting.{Recasting as RecastingOf};
ghost use Rattle.mesa_record.specs.mesa_record_fields.Rules.{IsTypedChange};
ghost use Rattle.mesa_history_spec.specs.mesa_columns.declared.changes.Change.{Change as ChangeOf};
ghost use Rattle.mesa_history_spec.specs.mesa_columns.declared.columns.KeyColumn.{KeyColumn as KeyOf};
ghost use Rattle.mesa_history_spec.specs.mesa_columns.declared.columns.ValueColumn.{ValueColumn as ValueOf};
ghost use Rattle.std.specs.Prelude.{◌≡◌, ℕ, Bool, List, Option, true};

/// The beginning of a run moves nothing that is kept.
pub fn runs_move_nothing()
    ensures { (rows : Rows) (c : Catalog) (number : ℕ) → HaveSoundRows rows c → Moves rows c (record_of.Run number) (kept_of rows c) }
{}

/// A table, a view, a change and an expiry, of all tables or of one, move what is kept as their
/// commands move the reference warehouse.
pub fn commands_move()
    ensures table { (rows : Rows) (c : Catalog) (name : List ℕ) (keys : List KeyOf) (values : List ValueOf) → HaveSoundRows rows c
        → Moves rows c (record_of.Table name keys values) (kept_made (kept_of rows c) name (record { keys = keys; values = values })) }
    ensures view { (rows : Rows) (c : Catalog) (table : ℕ) (name : List ℕ) (keys values : List (List ℕ)) → HaveSoundRows rows c → fits c (record_of.View table name keys values) ≡ true
        → Moves rows c (record_of.View table name keys values) (kept_viewed (kept_of rows c) table (record { name = name; keys = keys; values = values })) }
    ensures alter { (rows : Rows) (c : Catalog) (table : ℕ) (change : ChangeOf) → IsCatalog c → HaveSoundRows rows c → fits c (record_of.Alter table change) ≡ true → IsTypedChange change
        → Moves rows c (record_of.Alter table change) (kept_altered (kept_of rows c) table change) }
    ensures expire { (rows : Rows) (c : Catalog) (version : ℕ) → HaveSoundRows rows c → fits c (record_of.Expire version) ≡ true
        → Moves rows c (record_of.Expire version) (kept_expired (kept_of rows c) version) }
    ensures expire_table { (rows : Rows) (c : Catalog) (table version : ℕ) → HaveSoundRows rows c → fits c (record_of.ExpireTable table version) ≡ true
        → Moves rows c (record_of.ExpireTable table version) (kept_expired_of (kept_of rows c) table version) }
{}

/// A batch moves what is kept as a load moves the reference warehouse, where its parts bring the
/// batch's rows and their files are true.
pub fn batches_move()
    ensures { (rows : Rows) (c : Catalog) (version : ℕ) (parts : List PartOf) (batch : List Placed) → IsCatalog c → HaveSoundRows rows c
        → AreTold rows c (record_of.Publish version parts) → BringsAll rows parts batch 0 c.tables → Moves rows c (record_of.Publish version parts) (kept_loaded (kept_of rows c) batch) }
{}

/// A merged range moves the ranges as a work moves the range machine, and no content, where its rows
/// are those of what it merges and its files are true.
pub fn works_move()
    ensures { (rows : Rows) (c : Catalog) (table : ℕ) (base : Bool) (from to epoch : ℕ) (files : Option FilesOf) → IsCatalog c → HaveSoundRows rows c
        → fits c (record_of.Swap table base from to epoch files) ≡ true → AreTold rows c (record_of.Swap table base from to epoch files) → Merges rows (meta_at c table) base to (merged_delta epoch files)
        → Moves rows c (record_of.Swap table base from to epoch files) (kept_swapped (kept_of rows c) table (work_of base from to)) }
{}

/// A recast moves what is kept as its command moves the reference warehouse and the ranges, where it
/// brings the table's rows, regrouped, and its files are true. So a catalogue that stands for a state
/// stands, behind the record, for the state in which the claim's table is recast.
pub fn recasts_move()
    ensures moves { (rows : Rows) (c : Catalog) (k : RecastingOf) → IsCatalog c → HaveSoundRows rows c → fits c (record_of.Recast k) ≡ true
        → AreTold rows c (record_of.Recast k) → BringsRecast rows c.next (meta_at c k.table) k → Moves rows c (record_of.Recast k) (kept_recast (kept_of rows c) k.table (recast_in k)) }
    ensures closes { (rows : Rows) (c : Catalog) (k : RecastingOf) (s : State) (claim : Claim) → IsCatalog c → HaveSoundRows rows c → fits c (record_of.Recast k) ≡ true
        → AreTold rows c (record_of.Recast k) → BringsRecast rows c.next (meta_at c k.table) k → k.table ≡ claim.table → kept_of rows c ≡ kept_in_state s
        → kept_of rows (applied c (record_of.Recast k)) ≡ kept_in_state (recasted s claim (recast_in k)) }
{}
