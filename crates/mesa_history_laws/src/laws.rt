// Laws of histories.
ghost use Rattle.std.specs.Prelude.{ℕ, List};
ghost use Rattle.mesa_history_spec.specs.Law.{FoldLaw, RangesStay};
ghost use Rattle.mesa_history_laws.specs.Closing.{RecastsCloseByViews};
ghost use Rattle.mesa_history_spec.specs.Replay.{go, runs};
ghost use Rattle.mesa_history_spec.specs.Run.{Run};
ghost use Rattle.mesa_history_spec.specs.mesa_model.declared.commands.Command.{Command};
ghost use Rattle.mesa_history_spec.specs.mesa_model.declared.commands.Script.{Script};
ghost use Rattle.mesa_history_spec.specs.mesa_model.declared.entries.Entry.{Entry};
ghost use Rattle.mesa_history_spec.specs.mesa_model.Step.{step};
ghost use Rattle.mesa_history_spec.specs.mesa_model.Warehouse.{Warehouse, empty_warehouse};
ghost use Rattle.mesa_history_spec.specs.mesa_model.WellFormed.{IsWellFormed};

/// From a well-formed start every history leaves each content as the fold of what stood at the
/// start and of the batches accepted since, each carried to the present: lifted through the changes
/// of its table's schema, and grouped by its recasts.
pub fn fold_law()
    ensures { FoldLaw }
{}

/// As long as a table isn't recast, what is written of it at versions that are there stays as it
/// is, whatever comes.
pub fn ranges_stay()
    ensures { RangesStay }
{}

/// At the close of a recast whose table has the epoch that it had at the grant, only a view that came
/// since can be against it: what is checked is that no view would lose a column.
pub fn recasts_close_by_views()
    ensures { RecastsCloseByViews }
{}

/// A warehouse in which nothing was done yet is well formed, and one that is stays so through every
/// command, every turn and every history: what the fold law asks of a start holds of whatever a run
/// reaches.
pub fn keeps_well_formed()
    ensures empty { IsWellFormed empty_warehouse }
    ensures command { (w : Warehouse) (session : ℕ) (c : Command) → IsWellFormed w → IsWellFormed (step w session c).0 }
    ensures turn { (script : Script) (r : Run) (e : Entry) → IsWellFormed r.state.warehouse → IsWellFormed (go script r e).state.warehouse }
    ensures history { (script : Script) (r : Run) (h : List Entry) → IsWellFormed r.state.warehouse → IsWellFormed (runs script r h).state.warehouse }
{}
