// Laws of turns that speak of no disk.
ghost use Rattle.std.specs.Prelude.{◌≡◌, ℕ, List, Bool, None, false};
ghost use Rattle.mesa_history_spec.specs.mesa_filter.declared.words.VersionWord.{VersionWord};
ghost use Rattle.mesa_history_spec.specs.Legal.{is_answered};
ghost use Rattle.mesa_history_spec.specs.Machine.{Claim};
ghost use Rattle.mesa_history_spec.specs.Run.{Answered, Finished, First, Granted, Looked, Renewed, Stage, State};
ghost use Rattle.mesa_history_spec.specs.Turns.{IsDue};
ghost use Rattle.mesa_history_spec.specs.mesa_model.Pins.{make_pin, next_token, release_pin};
ghost use Rattle.mesa_history_spec.specs.mesa_model.Query.{Answer};
ghost use Rattle.mesa_history_spec.specs.mesa_model.declared.commands.Command.{Command};
ghost use Rattle.mesa_history_spec.specs.mesa_model.declared.commands.Script.{Script};
ghost use Rattle.mesa_history_spec.specs.mesa_model.declared.entries.Entry.{Entry};
ghost use Rattle.mesa_history_spec.specs.mesa_model.declared.entries.Kind.TheVariants as kind;
ghost use Rattle.mesa_history_spec.specs.mesa_model.declared.replies.Reply.TheVariants as reply;
ghost use Rattle.mesa_history_spec.specs.Bare.{bare_state};
ghost use Rattle.mesa_invariant_spec.specs.Books.{Books, pinned_books, released_books};
ghost use Rattle.mesa_invariant_spec.specs.Changes.{IsChange, MakesPin, ReleasesPin};
ghost use Rattle.mesa_invariant_spec.specs.Turns.{Asks, IsSeen, IsTurn, Shown, Takes, is_load, is_simple};
ghost use Rattle.mesa_invariant_spec.specs.Invariant.{run_at};

/// What is due hangs on a start's projection alone, unless an answer is open: so it is known of a
/// start whose rows nobody has read.
pub fn starts_are_alike()
    ensures due { (script : Script) (a b : State) (h : List Entry) (session number : ℕ) (c : Command) (stage : Stage) → bare_state a ≡ bare_state b → is_answered stage ≡ false
        → IsDue script (run_at script a h) session number c stage → IsDue script (run_at script b h) session number c stage }
    ensures asked { (script : Script) (a b : State) (h : List Entry) (session number : ℕ) (stage : Stage) (sort : Command → Bool) → bare_state a ≡ bare_state b → is_answered stage ≡ false
        → Asks script (run_at script a h) session number stage sort → Asks script (run_at script b h) session number stage sort }
{}

/// Each of these turns takes its session to one stage, whatever its outcome, unless the sink had
/// failed before, which cuts the session off.
pub fn turns_take_sessions_on()
    ensures look { (script : Script) (start : State) (old new : Shown) (session number : ℕ) → Asks script (run_at script start old.history) session number First is_load
        → IsTurn old new session number kind.Look → IsSeen script start new → Takes script start old new session number kind.Look Looked }
    ensures publish { (script : Script) (start : State) (old new : Shown) (session number : ℕ) → Asks script (run_at script start old.history) session number Looked is_load
        → IsTurn old new session number kind.Decide → IsSeen script start new → Takes script start old new session number kind.Decide Finished }
    ensures simple { (script : Script) (start : State) (old new : Shown) (session number : ℕ) → Asks script (run_at script start old.history) session number First is_simple
        → IsTurn old new session number kind.Decide → IsSeen script start new → Takes script start old new session number kind.Decide Finished }
    ensures close { (script : Script) (start : State) (old new : Shown) (session number : ℕ) (c : Command) (position : ℕ) (answer : Answer) → IsDue script (run_at script start old.history) session number c (Answered position answer)
        → IsTurn old new session number kind.Close → IsSeen script start new → Takes script start old new session number kind.Close Finished }
    ensures complete { (script : Script) (start : State) (old new : Shown) (session number : ℕ) (c : Command) (claim : Claim) → IsDue script (run_at script start old.history) session number c (Renewed claim)
        → IsTurn old new session number kind.Close → IsSeen script start new → Takes script start old new session number kind.Close Finished }
    ensures unmerged { (script : Script) (start : State) (old new : Shown) (session number : ℕ) (c : Command) (claim : Claim) → IsDue script (run_at script start old.history) session number c (Granted claim)
        → IsTurn old new session number kind.Close → IsSeen script start new → Takes script start old new session number kind.Close Finished }
{}

/// A pin, and a release, makes of books of a state those of the state after it.
pub fn pins_change_books()
    ensures pin { (sound : Bool) (books : Books) (session : ℕ) (asked : VersionWord) (version : ℕ) → MakesPin books session asked version → books.bare.closed ≡ None
        → IsChange sound books (pinned_books session version books) (λ w. make_pin w session asked) (reply.Pinned (next_token books.bare session) version) }
    ensures release { (sound : Bool) (books : Books) (session token : ℕ) → ReleasesPin books session token → books.bare.closed ≡ None
        → IsChange sound books (released_books session token books) (λ w. release_pin w session token) (reply.Released token) }
{}
