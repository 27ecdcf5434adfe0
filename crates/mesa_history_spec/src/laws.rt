// Laws of histories.
ghost use Rattle.std.specs.List.{AllByRecursion};
ghost use Rattle.std.specs.Prelude.{◌≡◌, ℕ, ◌-◌, ◌^◌, ◌==◌, ◌<◌, ◌≤◌, List, length, Bool, Some, true, false, IsTrue};
ghost use Rattle.mesa_history_spec.specs.Claims.{HasClaimAt, HasRanges};
ghost use Rattle.mesa_history_spec.specs.Legal.{AllFit, Fits, IsLegal, fits_sink, has_ended, is_answered, is_cut_off, same_kind, tells_other_refusal, wrote as writes};
ghost use Rattle.mesa_history_spec.specs.Machine.{Claim};
ghost use Rattle.mesa_history_spec.specs.Replay.{closes, refuses, runs, told_by, turned};
ghost use Rattle.mesa_history_spec.specs.Run.{Granted, Run, Skipped, State, begins, place_of};
ghost use Rattle.mesa_script.specs.mesa_model.declared.commands.Script.{Script};
ghost use Rattle.mesa_script.specs.mesa_model.declared.entries.Entry.{Entry};
ghost use Rattle.mesa_script.specs.mesa_model.declared.entries.Kind.TheVariants as kind;
ghost use Rattle.mesa_script.specs.mesa_model.declared.entries.Outcome.TheVariants as outcome;
ghost use Rattle.mesa_script.specs.mesa_model.declared.replies.Refusal.TheVariants as no;

/// A closed warehouse answers everything by the position at which it closed, and changes nothing:
/// every turn that stands, but a load's look and the close of a query that was answered before.
pub fn closed_runs_refuse_what_comes()
    ensures { (script : Script) (r : Run) (e : Entry) (position : ℕ) → r.state.warehouse.closed ≡ Some position → Fits script r e → e.outcome ≡ outcome.Stands
        → same_kind kind.Look e.kind ≡ false → is_answered (place_of r e.session).stage ≡ false
        → turned script r e ≡ refuses r.position r.state (no.Closed position) }
{}

/// No entry is earlier than the one before it. Where the disk's clock is below its last value, an
/// entry that wrote is later, and so is one that closes; any other has the same moment.
pub fn moments_never_fall()
    ensures never_fall { (script : Script) (r : Run) (e : Entry) (before : ℕ) → r.moment ≡ Some before → before < 2 ^ 64 → Fits script r e → before ≤ e.moment }
    ensures wrote { (script : Script) (r : Run) (e : Entry) (before : ℕ) → r.moment ≡ Some before → e.moment < 2 ^ 64 - 1 → Fits script r e
        → writes (told_by script r e) ≡ true → before < e.moment }
    ensures closing { (r : Run) (e : Entry) (before : ℕ) → r.moment ≡ Some before → e.moment < 2 ^ 64 - 1 → IsTrue (closes r.moment e) → before < e.moment }
    ensures same { (script : Script) (r : Run) (e : Entry) (before : ℕ) → r.moment ≡ Some before → Fits script r e
        → writes (told_by script r e) ≡ false → closes r.moment e ≡ false → e.moment ≡ before }
{}

/// A work or a recast that closes without a renewal of its lease is neither swapped in nor told that
/// its lease is lost.
pub fn unrenewed_works_are_refused()
    ensures { (script : Script) (r : Run) (e : Entry) (claim : Claim) → Fits script r e → (place_of r e.session).stage ≡ Granted claim → e.kind ≡ kind.Close
        → IsTrue (tells_other_refusal (told_by script r e)) }
{}

/// While a session's work has a claim, from its grant to its close, the claim's table has the ranges
/// that the work was made for, and isn't recast, as long as the claim's lease is the table's last one
/// and hasn't ended. So a range that is swapped in under a lease that holds still follows on those
/// before it. A recast's claim has an epoch that its table had, and was allowed of the columns that the
/// table has as long as it has that epoch.
pub fn claims_stay()
    ensures { (script : Script) (start : State) (h : List Entry) (session : ℕ) → HasRanges start → HasClaimAt (runs script (begins start) h).state (place_of (runs script (begins start) h) session).stage }
{}

/// A session stays where it is while others have their turns.
pub fn sessions_keep_their_places()
    ensures { (script : Script) (r : Run) (h : List Entry) (session : ℕ) → AllByRecursion (λ e. (session == e.session) ≡ false) h → place_of (runs script r h) session ≡ place_of r session }
{}

/// A history each of whose entries the run may have is legal once every session is complete or was
/// cut off, where the next entry would be a skipped one exactly as the sink has failed. In it a
/// session is cut off only where the last turn was skipped.
pub fn ended_runs_are_legal()
    ensures legal { (start : State) (script : Script) (h : List Entry) (failed : Bool) → AllFit script (begins start) h → IsTrue (fits_sink (runs script (begins start) h).last failed)
        → ((session : ℕ) → session < length script.sessions → IsTrue (has_ended script (runs script (begins start) h) session)) → IsLegal start script h failed }
    ensures cut { (start : State) (script : Script) (h : List Entry) (session : ℕ) → AllFit script (begins start) h → is_cut_off (runs script (begins start) h) session ≡ true
        → (runs script (begins start) h).last ≡ Skipped }
{}
