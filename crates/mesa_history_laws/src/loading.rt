// Laws of batches.
ghost use Rattle.std.specs.Prelude.{◌≡◌, ℕ, ◌+◌, List, [], length, Some};
ghost use Rattle.mesa_history_spec.specs.mesa_batch.declared.words.RowWords.{RowWords};
ghost use Rattle.mesa_history_spec.specs.Law.{written_in};
ghost use Rattle.mesa_history_spec.specs.Replay.{runs};
ghost use Rattle.mesa_history_spec.specs.Run.{Run};
ghost use Rattle.mesa_history_laws.specs.Whole.{IsWholeOrNone};
ghost use Rattle.mesa_history_spec.specs.mesa_model.declared.commands.Command.{Command};
ghost use Rattle.mesa_history_spec.specs.mesa_model.declared.commands.Command.TheVariants as command;
ghost use Rattle.mesa_history_spec.specs.mesa_model.declared.commands.Script.{Script};
ghost use Rattle.mesa_history_spec.specs.mesa_model.declared.entries.Entry.{Entry};
ghost use Rattle.mesa_history_spec.specs.mesa_model.declared.replies.Refusal.{Refusal};
ghost use Rattle.mesa_history_spec.specs.mesa_model.declared.replies.Reply.TheVariants as reply;
ghost use Rattle.mesa_history_spec.specs.mesa_model.Relations.{relation_content};
ghost use Rattle.mesa_history_spec.specs.mesa_model.Step.{step};
ghost use Rattle.mesa_history_spec.specs.mesa_model.Warehouse.{Table, Warehouse, content_at};
ghost use Rattle.mesa_history_spec.specs.mesa_model.WellFormed.{IsWellFormed};
ghost use Rattle.mesa_history_spec.specs.mesa_schema.Changes.{columns_of};
ghost use Rattle.mesa_history_spec.specs.mesa_fold.Folded.{grouped};
ghost use Rattle.mesa_history_spec.specs.mesa_schema.Views.{view_key_places, view_value_places};
ghost use Rattle.mesa_history_spec.specs.mesa_columns.declared.views.View.{View};

/// A load adds its batch to all tables at once, or to none, and there are as many versions more as
/// batches were accepted, which are written of every table; whatever is refused changes nothing; and
/// a view, which has no state of its own, is its table grouped, so it has the batch when its table
/// has.
pub fn batch_is_whole()
    ensures load { (w : Warehouse) (session : ℕ) (rows : List RowWords) → IsWellFormed w → IsWholeOrNone w rows (step w session (command.Load rows)).0 (step w session (command.Load rows)).1 }
    ensures versions { (script : Script) (r : Run) (h : List Entry) (number : ℕ) → (runs script r h).state.warehouse.next ≡ r.state.warehouse.next + length (written_in script r h number []) }
    ensures refused { (w : Warehouse) (session : ℕ) (c : Command) (refusal : Refusal) → (step w session c).1 ≡ reply.Refused refusal → (step w session c).0 ≡ w }
    ensures view { (number version : ℕ) (t : Table) (view : View) → relation_content (record { number = number; table = t; view = Some view }) version ≡ grouped (columns_of t.lineage) (view_key_places (columns_of t.lineage) view) (view_value_places (columns_of t.lineage) view) (content_at t version) }
{}
