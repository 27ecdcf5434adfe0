// A recast's last turn where its ranges weren't rewritten.
ghost use Rattle.std.specs.Prelude.{◌≡◌, ◌⊎◌, ◌<◌, ◌==◌, ◌++◌, ◌∷◌, [], Bool, true, false, length, Some};
ghost use Rattle.mesa_io.specs.Causes.{last};
ghost use Rattle.mesa_work_turns.specs.mesa_history_spec.Run.{Finished};
ghost use Rattle.mesa_work_turns.specs.mesa_history_spec.Turns.{IsDue};
ghost use Rattle.mesa_model.specs.declared.commands.Command.TheVariants as command;
ghost use Rattle.mesa_model.specs.declared.commands.RecastWords.{RecastWords};
ghost use Rattle.mesa_model.specs.declared.entries.Kind.TheVariants as kind;
ghost use Rattle.mesa_work_turns.specs.mesa_history_spec.Output.{block};
ghost use Rattle.mesa_work_turns.specs.mesa_history_spec.Rows.{Rows, no_rows};
ghost use Rattle.mesa_open_files.specs.GivingBack.{SomeFailed};
ghost use Rattle.mesa_open_files.specs.Recasts.{claim_of_recast, recast_inputs};
ghost use Rattle.mesa_open_files.specs.declared.merging.CompactError.TheVariants as compact;
ghost use Rattle.mesa_delta.specs.declared.error.FileError.TheVariants as file_error;
ghost use Rattle.mesa_work_turns.specs.mesa_invariant_spec.Causes.{is_read_fault, outcome_of, reply_of, told_at};
ghost use Rattle.mesa_work_turns.specs.mesa_invariant_spec.Printing.{IsPut};
ghost use Rattle.mesa_work_turns.specs.mesa_invariant_spec.Turns.{AnswersDisk, AnswersDraft, SomeRose, Takes, entry};
ghost use Rattle.mesa_work_turns.specs.mesa_invariant_spec.Undamaged.{is_damaged};
ghost use Rattle.mesa_work_turns.specs.mesa_invariant_spec.Invariant.{run_at};
ghost use Rattle.mesa_work_turns.specs.mesa_invariant_spec.Works.{closing_stage};
ghost use Rattle.mesa_work_turns.specs.Unmerged.{MergeDiffered, cause_of, closing_cause, closing_state};
ghost use Rattle.mesa_recast_turns.specs.Rested.{HasUnpaid};

use mesa_disk::{Disk, Made};
use mesa_engine::{Engine, Naming, Who};
use mesa_io::Sink;
use mesa_lease::TABLES;
use mesa_model::Kind;
use mesa_open_files::{CompactError, Recast, retire_recast};
use mesa_work_turns::{fall, may_be_told};

// The turn that closes a recast whose ranges weren't all rewritten, while the sink hasn't failed: its lease ends, unless the vault has closed. All that it was handed is given back. Takes no memory.
pub(crate) fn abandon<N: Naming, M: Made, D: Disk<M>, K: Sink>(
    engine: &mut Engine<N, M, D, K>,
    who: Who,
    task: Recast<D::Reader>,
    error: CompactError,
)
    requires due { (words : RecastWords) × (early : Bool) × IsDue N.script (run_at N.script (N.start no_rows) engine.old.shown.history) who.session who.command (command.Recast words) (closing_stage early (claim_of_recast task)) }
    requires table { task.table < TABLES }
    requires read { is_read_fault (cause_of error) ≡ true → SomeFailed D.Reader.faults (recast_inputs task) ⊎ HasUnpaid N.script N.start N.counted engine.old.shown engine.old.faults }
    requires damaged { MergeDiffered error }
    // On a sound store no damage comes of rewriting.
    requires undamaged { (w : Rows) → N.sound w → is_damaged (outcome_of (cause_of error)) ≡ false }
    requires room { length engine.old.shown.history < N.room }
    requires runs { engine.old.shown.running ≡ true }
    ensures turn { Takes N.script (N.start no_rows) engine.old.shown engine.new.shown who.session who.command kind.Close Finished }
    ensures disk { AnswersDisk N.script (N.start no_rows) engine.old.shown engine.new.shown (SomeRose engine.old.faults engine.new.faults ⊎ (error ≡ compact.File file_error.Read)) }
    ensures draft { AnswersDraft N.script (N.start no_rows) engine.old.shown engine.new.shown who.session (error ≡ compact.Draft) }
    ensures state { engine.new.state ≡ closing_state engine.old.state.closed error (engine.old.shown.clock == last) (length engine.old.shown.history) task.table task.lease engine.old.state }
    ensures outcome { engine.new.shown.history ≡ engine.old.shown.history ++ entry who.session who.command kind.Close (outcome_of (closing_cause engine.old.state.closed error)) engine.new.shown.clock ∷ [] }
    ensures prints { IsPut (block (entry who.session who.command kind.Close (outcome_of (closing_cause engine.old.state.closed error)) engine.new.shown.clock) (Some (told_at (length engine.old.shown.history) (reply_of (closing_cause engine.old.state.closed error))))) engine.new.shown.running engine.old.sink engine.new.sink }
{
    may_be_told(&error);
    let at = engine.log.position();
    let table = task.table;
    let lease = task.lease;
    retire_recast(&mut engine.disk, task);
    let moment = engine.disk.clock();
    let failure = fall(&mut engine.metadata, table, lease, &error, at, moment);
    engine.log.fail(who, Kind::Close, moment, failure);
}
