// What rewritten ranges bring to a table that is recast.
ghost use Rattle.mesa_store_spec.specs.Catalog.{Catalog, meta_at};
ghost use Rattle.mesa_store_spec.specs.Contents.{Rows};
ghost use Rattle.mesa_store_spec.specs.Fitting.{kind_fits};
ghost use Rattle.mesa_store_spec.specs.Journaled.{catalog};
ghost use Rattle.mesa_commit.specs.mesa_disk.declared.area.Area.{Area as AreaOf};
ghost use Rattle.mesa_history_spec.specs.Sources.{Written};
ghost use Rattle.mesa_record.specs.declared.record.Record.TheVariants as record_of;
ghost use Rattle.mesa_store_spec.specs.Shape.{IsCatalog};
ghost use Rattle.mesa_store_spec.specs.Brought.{AreTold, BringsRecast};
ghost use Rattle.mesa_store_spec.specs.Rewritten.{CountsRange, Covers, IsRewritten, Rewritten, recasting_of};
ghost use Rattle.mesa_store_spec.specs.Sourced.{HasSources};
ghost use Rattle.mesa_delta_format.specs.mesa_key.Spelling.{AreBytes};
ghost use Rattle.mesa_history_spec.specs.mesa_schema.Changes.{columns_of};
ghost use Rattle.mesa_history_spec.specs.mesa_schema.Recasts.{Recast, recast_checked, recast_columns};
ghost use Rattle.std.specs.List.{AllByRecursion};
ghost use Rattle.std.specs.Prelude.{◌≡◌, ◌<◌, ℕ, List, Ok, Some, length, true};

/// Ranges that were rewritten from what was written in them, and that cover a table, are what its
/// recast brings, so that the batches that came meanwhile are in it. Where a recast is allowed, and
/// they count the new columns, its record keeps the rules of its kind.
pub fn rewritten_ranges_bring()
    ensures brings { (rows : Rows) (written : ℕ → List Written) (c : Catalog) (table : ℕ) (r : Recast) (made : List Rewritten) → IsCatalog c → HasSources rows written c → table < length c.tables
        → AllByRecursion (IsRewritten rows (meta_at c table).lineage r (written table)) made → Covers made (meta_at c table) → BringsRecast rows c.next (meta_at c table) (recasting_of table (meta_at c table) r made) }
    ensures told { (rows : Rows) (written : ℕ → List Written) (c : Catalog) (table : ℕ) (r : Recast) (made : List Rewritten) → IsCatalog c → HasSources rows written c → table < length c.tables
        → AllByRecursion (IsRewritten rows (meta_at c table).lineage r (written table)) made → Covers made (meta_at c table) → AreTold rows c (record_of.Recast (recasting_of table (meta_at c table) r made)) }
    ensures fits { (area : AreaOf) (bodies : List (List ℕ)) (c : Catalog) (table : ℕ) (r : Recast) (made : List Rewritten) → AllByRecursion AreBytes bodies → catalog area bodies ≡ Some c → table < length c.tables
        → recast_checked (meta_at c table).lineage r ≡ Ok tt → AllByRecursion (CountsRange (recast_columns (columns_of (meta_at c table).lineage) r)) made → Covers made (meta_at c table)
        → kind_fits c (record_of.Recast (recasting_of table (meta_at c table) r made)) ≡ true }
{}
