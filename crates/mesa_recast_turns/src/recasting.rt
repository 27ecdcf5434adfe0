// A recast's last turn.
ghost use Rattle.std.specs.Prelude.{◌≡◌, ◌⊎◌, ◌<◌, ◌==◌, ◌++◌, ◌∷◌, [], Bool, ℕ, List, Ok, Err, IfErr, IfOk, OnOk, Some, true, false, length};
ghost use Rattle.mesa_io.specs.Causes.{last};
ghost use Rattle.mesa_delta.specs.declared.error.FileError.TheVariants as file_error;
ghost use Rattle.mesa_work_turns.specs.mesa_history_spec.Machine.{claim_checked, still_checked};
ghost use Rattle.mesa_work_turns.specs.mesa_history_spec.Run.{Finished, Renewed};
ghost use Rattle.mesa_work_turns.specs.mesa_history_spec.Turns.{IsDue};
ghost use Rattle.mesa_engine.specs.EngineState.{books_of};
ghost use Rattle.mesa_engine.specs.Written.{written_at};
ghost use Rattle.mesa_work_turns.specs.mesa_invariant_spec.Causes.{is_read_fault, outcome_of, reply_of, told_at};
ghost use Rattle.mesa_work_turns.specs.mesa_invariant_spec.Printing.{IsPut};
ghost use Rattle.mesa_work_turns.specs.mesa_invariant_spec.Turns.{AnswersDisk, AnswersDraft, SomeRose, Takes, entry};
ghost use Rattle.mesa_work_turns.specs.mesa_invariant_spec.Undamaged.{is_damaged};
ghost use Rattle.mesa_work_turns.specs.mesa_invariant_spec.Invariant.{run_at};
ghost use Rattle.mesa_work_turns.specs.mesa_invariant_spec.Works.{closing_stage};
ghost use Rattle.mesa_engine.specs.Failure.{cause_in};
ghost use Rattle.mesa_engine.specs.Memory.{with_state};
ghost use Rattle.mesa_model.specs.declared.commands.Command.TheVariants as command;
ghost use Rattle.mesa_model.specs.declared.commands.RecastWords.{RecastWords as AnyWords};
ghost use Rattle.mesa_model.specs.declared.entries.Kind.TheVariants as kind;
ghost use Rattle.mesa_work_turns.specs.mesa_history_spec.Output.{block};
ghost use Rattle.mesa_work_turns.specs.mesa_schema.Changes.{epoch_of};
ghost use Rattle.mesa_work_turns.specs.mesa_history_spec.Rows.{Rows, no_rows};
ghost use Rattle.mesa_work_turns.specs.mesa_file_records.Recasts.{HasItsRanges, meta_of_recast};
ghost use Rattle.mesa_open_files.specs.GivingBack.{SomeFailed};
ghost use Rattle.mesa_open_files.specs.Recasts.{IsRecasted, claim_of_recast, recast_in, recast_inputs};
ghost use Rattle.mesa_open_files.specs.declared.merging.CompactError.TheVariants as compact;
ghost use Rattle.mesa_work_turns.specs.Swept.{ClaimHolds, HasStood, IsSwept};
ghost use Rattle.mesa_work_turns.specs.Unmerged.{MergeDiffered, cause_of, closing_cause, closing_state};
ghost use Rattle.mesa_recast_turns.specs.Rested.{HasRested, HasUnpaid};
ghost use Rattle.mesa_recast_turns.specs.Unfit.{HasNotRecast, cause_unfit, unfit_state};

use crate::checking::{Unfit, check_recast};
use crate::readying::{Ready, prepare};
use crate::unmade::abandon;
use mesa_disk::{Disk, Made};
use mesa_engine::{Engine, Failure, Metadata, Naming, Who};
use mesa_io::Sink;
use mesa_lease::TABLES;
use mesa_model::{Kind, Outcome, RecastWords};
use mesa_open_files::{CompactError, Recast, Recasted};
use mesa_work_turns::{Drops, Staged, Swapped, commit, give_back_recast};
use std::alloc::{AllocError, Global};

// Why a table isn't recast. Unless its claim doesn't hold, the lease ends.
fn fall(metadata: &mut Metadata, table: u16, lease: u64, why: Unfit) -> Failure
    requires { table < TABLES }
    ensures cause { cause_in result ≡ cause_unfit why }
    ensures after { metadata.new ≡ with_state (unfit_state why table lease metadata.old.state) metadata.old }
{
    match why {
        Unfit::Lost(refusal) => Failure::Refused(refusal),
        Unfit::Changed(refusal) => {
            metadata.end_lease(table, lease);
            Failure::Refused(refusal)
        }
        Unfit::Memory => {
            metadata.end_lease(table, lease);
            Failure::Memory
        }
    }
}

// The turn of a recast that isn't done. The disk isn't called.
fn refuse<N: Naming, M: Made, D: Disk<M>, K: Sink>(
    engine: &mut Engine<N, M, D, K>,
    who: Who,
    task: &Recast<D::Reader>,
    why: Unfit,
)
    requires due { (words : AnyWords) × IsDue N.script (run_at N.script (N.start no_rows) engine.old.shown.history) who.session who.command (command.Recast words) (Renewed (claim_of_recast task.now)) }
    requires table { task.now.table < TABLES }
    requires why { HasNotRecast (books_of no_rows engine.old.state) (length engine.old.shown.history) (claim_of_recast task.now) task.now.epoch (recast_in task.now) why }
    requires room { length engine.old.shown.history < N.room }
    requires runs { engine.old.shown.running ≡ true }
    ensures turn { Takes N.script (N.start no_rows) engine.old.shown engine.new.shown who.session who.command kind.Close Finished }
    ensures disk { AnswersDisk N.script (N.start no_rows) engine.old.shown engine.new.shown ⊥ }
    ensures draft { AnswersDraft N.script (N.start no_rows) engine.old.shown engine.new.shown who.session ⊥ }
    ensures state { engine.new.state ≡ unfit_state why task.now.table task.now.lease engine.old.state }
    ensures outcome { engine.new.shown.history ≡ engine.old.shown.history ++ entry who.session who.command kind.Close (outcome_of (cause_unfit why)) engine.new.shown.clock ∷ [] }
{
    let moment = engine.disk.clock();
    let failure = fall(&mut engine.metadata, task.table, task.lease, why);
    engine.log.fail(who, Kind::Close, moment, failure);
}

// The turn of a recast whose claim holds and that may be done still: all memory is taken first, then the record is written with its files, and only then is the table recast. Where the store can't be written the vault closes. The lease ends, whatever comes.
fn regroup<N: Naming, M: Made, D: Disk<M>, K: Sink>(
    alloc: Global,
    engine: &mut Engine<N, M, D, K>,
    who: Who,
    task: &Recast<D::Reader>,
    made: Recasted<M>,
)
    requires due { (words : AnyWords) × IsDue N.script (run_at N.script (N.start no_rows) engine.old.shown.history) who.session who.command (command.Recast words) (Renewed (claim_of_recast task.now)) }
    requires table { task.now.table < TABLES }
    requires holds { claim_checked (books_of no_rows engine.old.state).bare (books_of no_rows engine.old.state).machine (length engine.old.shown.history) (claim_of_recast task.now) ≡ Ok tt }
    requires still { still_checked (meta_of_recast engine.old.state task.now).lineage task.now.epoch (recast_in task.now) ≡ Ok tt }
    requires rested { HasRested D.Reader.bytes engine.old.state task.now }
    requires rewritten { IsRecasted M.bytes M.id_of D.Reader.bytes task.now made }
    requires ranges { (w : Rows) → N.sound w → epoch_of (meta_of_recast engine.old.state task.now).lineage ≡ task.now.epoch → HasItsRanges D.Reader.bytes task.now (written_at N.script (N.start w) (N.origin w) engine.old.shown.history task.now.table) }
    requires told { (w : Rows) → N.sound w → (file : M) → (bytes : List ℕ) × (M.bytes file ≡ Some bytes) }
    requires room { length engine.old.shown.history < N.room }
    requires runs { engine.old.shown.running ≡ true }
    ensures turn { Takes N.script (N.start no_rows) engine.old.shown engine.new.shown who.session who.command kind.Close Finished }
    ensures disk { AnswersDisk N.script (N.start no_rows) engine.old.shown engine.new.shown (SomeRose engine.old.faults engine.new.faults) }
    ensures draft { AnswersDraft N.script (N.start no_rows) engine.old.shown engine.new.shown who.session ⊥ }
    ensures swept { HasStood engine.old.shown engine.new.shown who.session who.command → IsSwept engine.new.told engine.new.state engine.new.shown.history }
{
    let at = engine.log.position();
    let Ready {
        recast,
        gone,
        framed,
        removed,
        reply,
    } = match prepare(alloc, &mut engine.metadata, at, task, made) {
        Ok(ready) => ready,
        Err(AllocError) => return refuse(engine, who, task, Unfit::Memory),
    };
    let Swapped {
        entry,
        made,
        adopted,
    } = recast;
    let staged = Staged {
        entry,
        framed,
        made,
        adopted,
    };
    let drops = Some(Drops { gone, removed });
    let committed = commit(&mut engine.disk, &mut engine.metadata, at, staged, drops);
    engine.metadata.end_lease(task.table, task.lease);
    let moment = engine.disk.clock();
    match committed {
        Ok(()) => {
            let turn = who.turn(Kind::Close, Outcome::Stands, moment);
            engine.log.tell(turn, at, &reply, b"");
        }
        Err(_) => {
            engine
                .log
                .fail(who, Kind::Close, moment, Failure::Unwritten);
        }
    }
}

// The turn of a recast whose ranges are rewritten, while the sink hasn't failed. What it was handed isn't given back yet.
fn close<N: Naming, M: Made, D: Disk<M>, K: Sink>(
    alloc: Global,
    engine: &mut Engine<N, M, D, K>,
    who: Who,
    task: &Recast<D::Reader>,
    made: Recasted<M>,
)
    requires due { (words : AnyWords) × IsDue N.script (run_at N.script (N.start no_rows) engine.old.shown.history) who.session who.command (command.Recast words) (Renewed (claim_of_recast task.now)) }
    requires table { task.now.table < TABLES }
    requires rested { HasRested D.Reader.bytes engine.old.state task.now }
    requires rewritten { IsRecasted M.bytes M.id_of D.Reader.bytes task.now made }
    requires ranges { (w : Rows) → N.sound w → epoch_of (meta_of_recast engine.old.state task.now).lineage ≡ task.now.epoch → HasItsRanges D.Reader.bytes task.now (written_at N.script (N.start w) (N.origin w) engine.old.shown.history task.now.table) }
    requires told { (w : Rows) → N.sound w → (file : M) → (bytes : List ℕ) × (M.bytes file ≡ Some bytes) }
    requires room { length engine.old.shown.history < N.room }
    requires runs { engine.old.shown.running ≡ true }
    ensures turn { Takes N.script (N.start no_rows) engine.old.shown engine.new.shown who.session who.command kind.Close Finished }
    ensures disk { AnswersDisk N.script (N.start no_rows) engine.old.shown engine.new.shown (SomeRose engine.old.faults engine.new.faults) }
    ensures draft { AnswersDraft N.script (N.start no_rows) engine.old.shown engine.new.shown who.session ⊥ }
    ensures swept { HasStood engine.old.shown engine.new.shown who.session who.command → ClaimHolds engine.old.state (length engine.old.shown.history) (claim_of_recast task.now) → still_checked (meta_of_recast engine.old.state task.now).lineage task.now.epoch (recast_in task.now) ≡ Ok tt
        → IsSwept engine.new.told engine.new.state engine.new.shown.history }
{
    let at = engine.log.position();
    match check_recast(&engine.metadata, task, at) {
        Ok(()) => regroup(alloc, engine, who, task, made),
        Err(why) => {
            drop(made);
            refuse(engine, who, task, why);
        }
    }
}

/// The turn that closes a recast. Where its ranges are rewritten its table is recast, unless its lease is lost or the vault has closed: then nothing changes. Else its lease ends with the turn, also where the table isn't what it was any more, where there is no memory, or where the store can't be written: that closes the vault. Where the ranges weren't rewritten its lease ends, unless the vault has closed. All that it was handed is given back.
pub fn recast<N: Naming, M: Made, D: Disk<M>, K: Sink>(
    alloc: Global,
    engine: &mut Engine<N, M, D, K>,
    who: Who,
    words: &RecastWords,
    task: Recast<D::Reader>,
    made: Result<Recasted<M>, CompactError>,
)
    requires due { (early : Bool) × IsDue N.script (run_at N.script (N.start no_rows) engine.old.shown.history) who.session who.command (command.Recast words.now) (closing_stage early (claim_of_recast task)) }
    requires table { task.table < TABLES }

    // Its ranges are rewritten only once its lease was renewed, and then they are all that its table has, while the epoch is the same.
    requires renewed { OnOk made (IsDue N.script (run_at N.script (N.start no_rows) engine.old.shown.history) who.session who.command (command.Recast words.now) (Renewed (claim_of_recast task))) }
    requires rested { OnOk made (HasRested D.Reader.bytes engine.old.state task) }
    requires rewritten { IfOk made (IsRecasted M.bytes M.id_of D.Reader.bytes task) }
    requires ranges { OnOk made ((w : Rows) → N.sound w → epoch_of (meta_of_recast engine.old.state task).lineage ≡ task.epoch → HasItsRanges D.Reader.bytes task (written_at N.script (N.start w) (N.origin w) engine.old.shown.history task.table)) }

    // A fault that is answered was counted, and damage that is told is some.
    requires read { IfErr made (λ e. is_read_fault (cause_of e) ≡ true → SomeFailed D.Reader.faults (recast_inputs task) ⊎ HasUnpaid N.script N.start N.counted engine.old.shown engine.old.faults) }
    requires damaged { IfErr made MergeDiffered }
    requires undamaged { IfErr made (λ e. (w : Rows) → N.sound w → is_damaged (outcome_of (cause_of e)) ≡ false) }
    requires told { (w : Rows) → N.sound w → (file : M) → (bytes : List ℕ) × (M.bytes file ≡ Some bytes) }
    requires room { length engine.old.shown.history < N.room }
    requires runs { engine.old.shown.running ≡ true }
    ensures turn { Takes N.script (N.start no_rows) engine.old.shown engine.new.shown who.session who.command kind.Close Finished }

    // A fault of the disk is answered only where one of its counts rose in the turn, or a read had failed before; one of a draft only where it had.
    ensures disk { AnswersDisk N.script (N.start no_rows) engine.old.shown engine.new.shown (SomeRose engine.old.faults engine.new.faults ⊎ (made ≡ Err (compact.File file_error.Read))) }
    ensures draft { AnswersDraft N.script (N.start no_rows) engine.old.shown engine.new.shown who.session (made ≡ Err compact.Draft) }

    // Where the ranges weren't rewritten, it ends as its argument says, unless the vault has closed, and that is what it prints.
    ensures state { IfErr made (λ e. engine.new.state ≡ closing_state engine.old.state.closed e (engine.old.shown.clock == last) (length engine.old.shown.history) task.table task.lease engine.old.state) }
    ensures outcome { IfErr made (λ e. engine.new.shown.history ≡ engine.old.shown.history ++ entry who.session who.command kind.Close (outcome_of (closing_cause engine.old.state.closed e)) engine.new.shown.clock ∷ []) }
    ensures prints { IfErr made (λ e. IsPut (block (entry who.session who.command kind.Close (outcome_of (closing_cause engine.old.state.closed e)) engine.new.shown.clock) (Some (told_at (length engine.old.shown.history) (reply_of (closing_cause engine.old.state.closed e))))) engine.new.shown.running engine.old.sink engine.new.sink) }

    // Where the table is recast, each file that is there is one that the catalogue, a held pin or an open query names: its ranges are rewritten, its claim holds and the rules allow it still, and its turn stands.
    ensures swept { OnOk made (HasStood engine.old.shown engine.new.shown who.session who.command → ClaimHolds engine.old.state (length engine.old.shown.history) (claim_of_recast task) → still_checked (meta_of_recast engine.old.state task).lineage task.epoch (recast_in task) ≡ Ok tt
        → IsSwept engine.new.told engine.new.state engine.new.shown.history) }
{
    match made {
        Ok(made) => {
            close(alloc, engine, who, &task, made);
            give_back_recast(engine, task);
        }
        Err(error) => abandon(engine, who, task, error),
    }
}
