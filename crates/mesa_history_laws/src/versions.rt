// Laws of versions.
ghost use Rattle.std.specs.Prelude.{◌≡◌, ℕ, List, Option, Some, Ok, slice_get, IsTrue};
ghost use Rattle.mesa_history_spec.specs.mesa_filter.declared.words.QueryWords.{QueryWords};
ghost use Rattle.mesa_history_spec.specs.mesa_filter.declared.words.VersionWord.TheVariants as asks;
ghost use Rattle.mesa_history_spec.specs.Replay.{runs};
ghost use Rattle.mesa_history_spec.specs.Run.{Run};
ghost use Rattle.mesa_history_laws.specs.Later.{IsLater, IsStillThere};
ghost use Rattle.mesa_history_laws.specs.Versions.{is_of_another, outlives};
ghost use Rattle.mesa_history_spec.specs.mesa_model.declared.commands.Command.TheVariants as command;
ghost use Rattle.mesa_history_spec.specs.mesa_model.declared.commands.Script.{Script};
ghost use Rattle.mesa_history_spec.specs.mesa_model.declared.entries.Entry.{Entry};
ghost use Rattle.mesa_history_spec.specs.mesa_model.Query.{Answer, query_answer};
ghost use Rattle.mesa_history_spec.specs.mesa_model.Step.{step};
ghost use Rattle.mesa_history_spec.specs.mesa_model.Warehouse.{Table, Warehouse};
ghost use Rattle.mesa_history_spec.specs.mesa_model.WellFormed.{IsWellFormed};

/// Letting old versions go, of one table or of all, changes no session's answer at a version that
/// stays: the newest one, one that isn't below the new oldest, or a pin's. Where one table lets them
/// go, no answer over another table changes at all.
pub fn expire_keeps_answers()
    ensures stays { (w : Warehouse) (session other oldest : ℕ) (table : Option (List ℕ)) (words : QueryWords) → IsTrue (outlives oldest words.version) → query_answer (step w session (command.Expire table oldest)).0 other words ≡ query_answer w other words }
    ensures others { (w : Warehouse) (session other oldest : ℕ) (table : List ℕ) (words : QueryWords) → IsTrue (is_of_another w.store table words.relation) → query_answer (step w session (command.Expire (Some table) oldest)).0 other words ≡ query_answer w other words }
{}

/// A version stays what it is: through any history a table keeps its name and its views, and while
/// its epoch is the same its columns and each content that can still be queried. So whoever asks
/// again at such a version gets the same answer.
pub fn versions_stay()
    ensures tables { (script : Script) (r : Run) (h : List Entry) → IsWellFormed r.state.warehouse → (number : ℕ) (t : Table) → slice_get r.state.warehouse.store.tables number ≡ Some t → (later : Table) × (slice_get (runs script r h).state.warehouse.store.tables number ≡ Some later) × IsLater r.state.warehouse t later }
    ensures answers { (script : Script) (r : Run) (h : List Entry) → IsWellFormed r.state.warehouse → (session other : ℕ) (words : QueryWords) (version : ℕ) (answer : Answer) → words.version ≡ asks.At version → query_answer r.state.warehouse session words ≡ Ok answer → IsStillThere r.state.warehouse (runs script r h).state.warehouse words.relation version → query_answer (runs script r h).state.warehouse other words ≡ Ok answer }
{}
