// Laws of projections.
ghost use Rattle.std.specs.Prelude.{◌≡◌, ℕ, List, Bool};
ghost use Rattle.mesa_script.specs.mesa_filter.declared.words.QueryWords.{QueryWords};
ghost use Rattle.mesa_history_spec.specs.Legal.{IsLegal};
ghost use Rattle.mesa_history_spec.specs.Machine.{Machine, claim_of, explained, recast_claim_of};
ghost use Rattle.mesa_history_spec.specs.Refused.{some_refused};
ghost use Rattle.mesa_history_spec.specs.Replay.{runs, turned};
ghost use Rattle.mesa_history_spec.specs.Run.{Run, State, begins};
ghost use Rattle.mesa_script.specs.mesa_model.Query.{query_answer};
ghost use Rattle.mesa_script.specs.mesa_model.Step.{step};
ghost use Rattle.mesa_script.specs.mesa_model.Warehouse.{Warehouse};
ghost use Rattle.mesa_script.specs.mesa_model.declared.commands.Command.{Command};
ghost use Rattle.mesa_script.specs.mesa_model.declared.commands.ExplainWords.{ExplainWords};
ghost use Rattle.mesa_script.specs.mesa_model.declared.commands.RecastWords.{RecastWords};
ghost use Rattle.mesa_script.specs.mesa_model.declared.commands.Script.{Script};
ghost use Rattle.mesa_script.specs.mesa_model.declared.entries.Entry.{Entry};
ghost use Rattle.mesa_history_spec.specs.Bare.{bare, bare_answer, bare_done, bare_result, bare_run, bare_state, bare_turned};

/// A command does the same to a warehouse and to its projection: it is refused alike, and else has the
/// same reply but for a page's rows, and leaves the same projection. A work, a recast and an explain are
/// answered by the projection.
pub fn commands_see_no_rows()
    ensures step { (w : Warehouse) (session : ℕ) (c : Command) → bare_done (step w session c) ≡ bare_done (step (bare w) session c) }
    ensures query { (w : Warehouse) (session : ℕ) (words : QueryWords) → bare_result bare_answer (query_answer w session words) ≡ bare_result bare_answer (query_answer (bare w) session words) }
    ensures explain { (w : Warehouse) (m : Machine) (words : ExplainWords) → explained w m words ≡ explained (bare w) m words }
    ensures work { (w : Warehouse) (m : Machine) (position : ℕ) (name : List ℕ) → claim_of w m position name ≡ claim_of (bare w) m position name }
    ensures recast { (w : Warehouse) (m : Machine) (position : ℕ) (words : RecastWords) → recast_claim_of w m position words ≡ recast_claim_of (bare w) m position words }
{}

/// Starts with one projection have the same legal histories, in which the same turns are refused, and
/// every history takes them to one projection.
pub fn runs_are_alike()
    ensures turn { (script : Script) (r : Run) (e : Entry) → bare_turned (turned script r e) ≡ bare_turned (turned script (bare_run r) e) }
    ensures run { (script : Script) (r s : Run) (h : List Entry) → bare_run r ≡ bare_run s → bare_run (runs script r h) ≡ bare_run (runs script s h) }
    ensures legal { (a b : State) (script : Script) (h : List Entry) (failed : Bool) → bare_state a ≡ bare_state b → IsLegal a script h failed → IsLegal b script h failed }
    ensures refused { (a b : State) (script : Script) (h : List Entry) → bare_state a ≡ bare_state b → some_refused script (begins a) h ≡ some_refused script (begins b) h }
{}
