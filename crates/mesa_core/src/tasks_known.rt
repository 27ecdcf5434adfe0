// What is known of granted tasks and recasts.
ghost use Rattle.std.specs.Prelude.{◌≡◌, ◌<◌, ◌++◌, ℕ, List, length, true};
ghost use Rattle.std.specs.List.{AllByRecursion};
ghost use Rattle.mesa_recast_turns.specs.mesa_pick_files.Ranges.{HoldsAll};
ghost use Rattle.mesa_engine.specs.mesa_store_spec.Catalog.{TableMeta};
ghost use Rattle.mesa_recast_turns.specs.mesa_history_spec.Claims.{HasClaim, HasRanges, is_live};
ghost use Rattle.mesa_recast_turns.specs.mesa_history_spec.Law.{begun_at};
ghost use Rattle.mesa_recast_turns.specs.mesa_history_spec.Machine.{Claim};
ghost use Rattle.mesa_recast_turns.specs.mesa_history_spec.Replay.{runs};
ghost use Rattle.mesa_recast_turns.specs.mesa_history_spec.Run.{Run as AnyRun, State};
ghost use Rattle.mesa_engine.specs.mesa_store_spec.Moves.{last_of};
ghost use Rattle.mesa_recast_turns.specs.mesa_history_spec.Sources.{Written};
ghost use Rattle.mesa_engine.specs.Vault.{Origin};
ghost use Rattle.mesa_model.specs.declared.commands.Script.{Script as AnyScript};
ghost use Rattle.mesa_model.specs.declared.entries.Entry.{Entry as AnyEntry};
ghost use Rattle.mesa_recast_turns.specs.mesa_compact.Bounded.{AreBounded, IsBounded};
ghost use Rattle.mesa_recast_turns.specs.mesa_schema.Changes.{Lineage, columns_of};
ghost use Rattle.mesa_recast_turns.specs.mesa_schema.Lineages.{IsLineage};
ghost use Rattle.mesa_core.specs.Recasts.{known_recast};
ghost use Rattle.mesa_core.specs.Works.{known_task};
ghost use Rattle.mesa_recast_turns.specs.mesa_copy.Copying.{IsRecastBounded};
ghost use Rattle.mesa_engine.specs.mesa_span.declared.works.Work.{Work as AnyWork};
ghost use Rattle.mesa_recast_turns.specs.mesa_file_records.Finished.{HasRange};
ghost use Rattle.mesa_recast_turns.specs.mesa_file_records.Grown.{HasBecome};
ghost use Rattle.mesa_recast_turns.specs.mesa_file_records.Recasts.{HasItsRanges};
ghost use Rattle.mesa_open_files.specs.Tasks.{IsMerged, IsTask};
ghost use Rattle.mesa_open_files.specs.declared.recasting.Recast.{Recast as AnyRecast};
ghost use Rattle.mesa_recast_turns.specs.mesa_invariant_spec.Invariant.{run_at};
ghost use Rattle.mesa_engine.specs.Written.{written_at};
ghost use Rattle.mesa_core.specs.Known.{AllAreBounded, AllHaveRange, AllHaveRanges, IsKnownOf, lineage_in};

use mesa_disk::{FileReader, Made};
use mesa_open_files::{NewDelta, Recast, Task};

/// A task has its range by what is known of it: so has each of which the same is known.
pub fn ranges_are_known<R: FileReader>(task: &Task<R>)
    ensures { (was : Lineage) (written : List Written) → HasRange R.bytes was task.now written → AllHaveRange R.bytes was (known_task R.bytes task.now) written }
{}

/// A task of a table is known to be one.
pub fn grants_are_known<R: FileReader>(task: &Task<R>)
    ensures { (was : Lineage) → IsTask R.bytes was task.now → IsKnownOf was (known_task R.bytes task.now) }
{}

/// What a task was merged to by some columns and views it was merged to by those of its grant.
pub fn merges_are_known<M: Made, R: FileReader>(task: &Task<R>, delta: &NewDelta<M>)
    ensures { (was l : Lineage) → IsKnownOf was (known_task R.bytes task.now) → IsTask R.bytes l task.now → IsMerged M.bytes M.id_of R.bytes l task.now delta.now
        → IsTask R.bytes was task.now × IsMerged M.bytes M.id_of R.bytes was task.now delta.now }
{}

/// Whatever turns come, a table is there still, and its columns and views become those that it has.
pub fn tables_go_on()
    ensures becomes { (script : AnyScript) (r : AnyRun) (later : List AnyEntry) (number : ℕ) → number < length r.state.warehouse.store.tables → IsLineage (lineage_in r.state.warehouse.store number)
        → HasBecome (lineage_in r.state.warehouse.store number) (lineage_in (runs script r later).state.warehouse.store number) }
    ensures there { (script : AnyScript) (r : AnyRun) (later : List AnyEntry) (number : ℕ) → number < length r.state.warehouse.store.tables → IsLineage (lineage_in r.state.warehouse.store number)
        → number < length (runs script r later).state.warehouse.store.tables }
{}

/// As long as the lease of a work is its table's last one and hasn't ended, its table isn't recast.
pub fn leases_hold()
    ensures { (script : AnyScript) (start : State) (past later : List AnyEntry) (claim : Claim) (work : AnyWork) → HasRanges start → HasClaim (run_at script start past).state claim work
        → is_live (run_at script start (past ++ later)).state.machine.leases claim.table claim.lease ≡ true
        → begun_at (run_at script start (past ++ later)).state.warehouse claim.table ≡ begun_at (run_at script start past).state.warehouse claim.table }
{}

/// As long as a table isn't recast, a task of it has its range, which ends before the version that was to come next at its grant, whatever turns come.
pub fn ranges_go_on<R: FileReader>(task: &Task<R>)
    ensures { (was : Lineage) (script : AnyScript) (start : State) (origin : Origin) (past later : List AnyEntry) → last_of task.now.work < (run_at script start past).state.warehouse.next
        → begun_at (run_at script start (past ++ later)).state.warehouse task.now.table ≡ begun_at (run_at script start past).state.warehouse task.now.table
        → HasRange R.bytes was task.now (written_at script start origin past task.now.table) → HasRange R.bytes was task.now (written_at script start origin (past ++ later) task.now.table) }
{}

/// So has a recast its ranges.
pub fn recasts_go_on<R: FileReader>(task: &Recast<R>)
    ensures { (script : AnyScript) (start : State) (origin : Origin) (past later : List AnyEntry) → AllByRecursion (λ x. x.to < (run_at script start past).state.warehouse.next) task.now.ranges.items
        → begun_at (run_at script start (past ++ later)).state.warehouse task.now.table ≡ begun_at (run_at script start past).state.warehouse task.now.table
        → HasItsRanges R.bytes task.now (written_at script start origin past task.now.table) → HasItsRanges R.bytes task.now (written_at script start origin (past ++ later) task.now.table) }
{}

/// A recast has its ranges, keeps its sums and holds what its table has by what is known of it: so does each of which the same is known.
pub fn recasts_are_known<R: FileReader>(task: &Recast<R>)
    ensures ranges { (written : List Written) → HasItsRanges R.bytes task.now written → AllHaveRanges R.bytes (known_recast R.bytes task.now) written }
    ensures bounded { IsRecastBounded R.bytes task.now → AllAreBounded R.bytes (known_recast R.bytes task.now) }
    ensures holds { (other : AnyRecast R) (table : TableMeta) → known_recast R.bytes other ≡ known_recast R.bytes task.now → HoldsAll task.now.ranges.items table → HoldsAll other.ranges.items table }
{}

/// Where the files of a task keep their sums by what was known of it at its grant, they keep them by whatever columns it is merged.
pub fn bounds_are_known<R: FileReader>(task: &Task<R>)
    ensures { (was l : Lineage) → IsKnownOf was (known_task R.bytes task.now) → IsTask R.bytes l task.now → AreBounded (columns_of was) (known_task R.bytes task.now).files → IsBounded R.bytes l task.now }
{}
