// What works and plans make of ranges.
ghost use Rattle.mesa_store_spec.specs.Catalog.{Catalog, TableMeta, ranges_of};
ghost use Rattle.mesa_store_spec.specs.Contents.{Rows, content, present};
ghost use Rattle.mesa_store_spec.specs.Fitting.{may_be_work};
ghost use Rattle.mesa_store_spec.specs.Shape.{IsShaped};
ghost use Rattle.mesa_store_spec.specs.Sound.{HasSoundRows};
ghost use Rattle.mesa_store_spec.specs.Moves.{first_of, is_base, last_of};
ghost use Rattle.mesa_store_spec.specs.Planned.{planned};
ghost use Rattle.mesa_history_spec.specs.mesa_schema.Changes.{columns_of};
ghost use Rattle.mesa_history_spec.specs.mesa_columns.Columns.{aggs_of};
ghost use Rattle.mesa_history_spec.specs.mesa_fold.Folded.{folded};
ghost use Rattle.mesa_history_spec.specs.mesa_span.declared.works.Work.{Work as WorkOf};
ghost use Rattle.mesa_history_spec.specs.mesa_span.Ranges.{base_before};
ghost use Rattle.mesa_history_spec.specs.mesa_span.Work.{next_work};
ghost use Rattle.std.specs.Prelude.{◌≡◌, ◌≤◌, ℕ, Some, map, true};

/// A work that was due for a table's ranges may be swapped in while they stay, however far the
/// table's oldest version and the newest have risen.
pub fn due_works_fit()
    ensures { (c : Catalog) (t : TableMeta) (oldest next : ℕ) (work : WorkOf) → next_work (ranges_of t) oldest (base_before next) ≡ Some work → oldest ≤ t.oldest → next ≤ c.next
        → may_be_work c t (is_base work) (first_of work) (last_of work) ≡ true }
{}

/// The deltas that a query at a version reads fold to the content at that version.
pub fn plans_fold()
    ensures { (rows : Rows) (floor next : ℕ) (t : TableMeta) (version : ℕ) → IsShaped floor next t → HasSoundRows rows t
        → folded (aggs_of (columns_of t.lineage)) (map (present rows t.lineage) (planned t version)) ≡ content rows t version }
{}
