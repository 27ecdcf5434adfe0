// Laws of passes.
ghost use Rattle.std.specs.Prelude.{◌≡◌, ◌≢◌, ◌<◌, ◌≤◌, ◌+◌, ℕ, List, [], ◌∷◌, IsTrue, true, length};
ghost use Rattle.mesa_recast_turns.specs.mesa_history_spec.Run.{State, Place, First, Finished, commands_of, place_of};
ghost use Rattle.mesa_recast_turns.specs.mesa_history_spec.Turns.{place_then};
ghost use Rattle.mesa_model.specs.declared.commands.Script.{Script as AnyScript};
ghost use Rattle.mesa_turn.specs.History.{has};
ghost use Rattle.mesa_turn.specs.Passes.{Finds, IsExact, Joins, Known, left_of, part_of};
ghost use Rattle.mesa_core.specs.Passes.{Gains, HasEnded, HaveEnded, Mine, Took, Waits, at_stage, run_seen};

/// A session is where it was, whatever turns of others came between two of its own, or to a pass that is joined to its
/// own. What its turns add to the positions of its pass is its own entries.
pub fn turns_go_on()
    ensures found { (script : AnyScript) (start : State) (p : Known) (ticket session : ℕ) (list : List ℕ) → Finds p ticket list → IsExact p → IsTrue (has p.names session)
        → place_of (run_seen script start list) session ≡ place_of (run_seen script start p.seen) session }
    ensures first { (script : AnyScript) (start : State) (a b p : Known) (session : ℕ) → Joins a b p → IsTrue (has a.names session)
        → place_of (run_seen script start p.seen) session ≡ place_of (run_seen script start a.seen) session }
    ensures second { (script : AnyScript) (start : State) (a b p : Known) (session : ℕ) → Joins a b p → IsTrue (has b.names session)
        → place_of (run_seen script start p.seen) session ≡ place_of (run_seen script start b.seen) session }
    ensures gains { (session : ℕ) (p q : Known) (turns : ℕ) → Took session p q turns → IsExact p → IsExact q → Gains session p q }
{}

/// A session has ended where no command of it is left, or where its last turn was skipped.
pub fn sessions_end()
    ensures whole { (script : AnyScript) (start : State) (p : Known) (session i : ℕ) → length (commands_of script session) ≤ i → Mine script start p session (at_stage (i + 1) First) → HasEnded script start p session }
    ensures cut { (script : AnyScript) (start : State) (p : Known) (session number : ℕ) → Mine script start p session (place_then true number Finished) → HasEnded script start p session }
{}

/// A session whose pass is split off is before its first turn; where it has ended and its pass is joined to that of the
/// sessions behind it, all these have ended.
pub fn passes_are_divided()
    ensures begins { (script : AnyScript) (start : State) (p : Known) → p.seen ≡ [] → IsExact p → ((n : ℕ) → n < 8 → IsTrue (has p.names n)) → Mine script start p 0 (at_stage 1 First) }
    ensures given { (script : AnyScript) (start : State) (p : Known) (next room : ℕ) → Waits script start p next → next < 8 → 0 < next → IsExact (part_of next room p) → Mine script start (part_of next room p) next (at_stage 1 First) }
    ensures kept { (script : AnyScript) (start : State) (p : Known) (next room : ℕ) → Waits script start p next → next < 8 → 0 < next → IsExact (left_of next room p) → Waits script start (left_of next room p) (next + 1) }
    ensures joined { (script : AnyScript) (start : State) (a b p : Known) (next : ℕ) → Joins a b p → b.names ≡ next ∷ [] → length script.sessions ≤ 8 → HaveEnded script start a (next + 1) → HasEnded script start b next → HaveEnded script start p next }
    ensures own { (script : AnyScript) (start : State) (p : Known) → length script.sessions ≤ 8 → HaveEnded script start p 1 → (k : ℕ) → k < length p.seen → IsTrue (has p.own k) }
{}
