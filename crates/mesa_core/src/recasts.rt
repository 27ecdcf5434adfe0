// The turns of a recast, and what it does between its renewal and its close.
ghost use Rattle.std.specs.Prelude.{◌≡◌, ◌⊎◌, ◌<◌, ◌++◌, ◌∷◌, [], Bool, true, Ok, Err, IfErr, IfOk, IfSome, OnSome, OnOk, None, Some, length};
ghost use Rattle.mesa_recast_turns.specs.mesa_work_turns.Swept.{ClaimHolds, HasStood, IsSwept};
ghost use Rattle.mesa_recast_turns.specs.mesa_work_turns.Unmerged.{closing_cause};
ghost use Rattle.mesa_core.specs.Handing.{AllAreRested, IsRecastGranted, IsRecastHeld, rested};
ghost use Rattle.mesa_delta.specs.declared.error.FileError.TheVariants as file_error;
ghost use Rattle.mesa_core.specs.Recasts.{CanBeRegrouped, HasRegrouped, known_recast};
ghost use Rattle.mesa_core.specs.Works.{WasGranted};
ghost use Rattle.mesa_recast_turns.specs.mesa_file_records.Recasts.{meta_of_recast};
ghost use Rattle.mesa_recast_turns.specs.mesa_history_spec.Machine.{still_checked};
ghost use Rattle.mesa_recast_turns.specs.mesa_history_spec.Run.{Finished, First, Granted, Renewed};
ghost use Rattle.mesa_model.specs.declared.entries.Kind.TheVariants as kind;
ghost use Rattle.mesa_recast_turns.specs.Rested.{HasUnpaid, IsLonger, MayRest};
ghost use Rattle.mesa_recast_turns.specs.mesa_history_spec.Rows.{no_rows};
ghost use Rattle.mesa_open_files.specs.Recasts.{IsRecastTask, IsRecasted, IsRecastedSoFar, claim_of_recast, recast_in};
ghost use Rattle.mesa_open_files.specs.declared.merging.CompactError.TheVariants as compact;
ghost use Rattle.mesa_open_files.specs.declared.recasting.Recasted.{Recasted as AnyRecasted};
ghost use Rattle.mesa_recast_turns.specs.mesa_history_spec.Output.{block};
ghost use Rattle.mesa_recast_turns.specs.mesa_invariant_spec.Causes.{outcome_of, reply_of, told_at};
ghost use Rattle.mesa_recast_turns.specs.mesa_invariant_spec.Printing.{IsPut};
ghost use Rattle.mesa_recast_turns.specs.mesa_invariant_spec.Turns.{AnswersDisk, AnswersDraft, Asks, NoneFell, SomeRose, Takes, entry, is_recast};
ghost use Rattle.mesa_recast_turns.specs.mesa_invariant_spec.Invariant.{run_at};
ghost use Rattle.mesa_recast_turns.specs.mesa_invariant_spec.Works.{closing_stage, stage_if};

use crate::asked::recast_of;
use crate::standing::{allocator, catalogue};
use crate::{Vault, recasts_are_known, recasts_go_on, tables_go_on};
use mesa_delta::FileError;
use mesa_disk::{Disk, Made};
use mesa_engine::{Engine, Naming, Who};
use mesa_io::Sink;
use mesa_model::Kind;
use mesa_open_files::{CompactError, DeltaDisk, Recast, Recasted};
use mesa_recast_turns::{
    give_back_recast, grant_recast, recast, renew_recast, rest, tables_become,
};

// What holds of a recast's files between turns, by what was so at its grant.
fn held<N: Naming, M: Made, D: Disk<M>, K: Sink>(
    engine: &Engine<N, M, D, K>,
    task: &Recast<D::Reader>,
)
    requires granted { WasGranted (IsRecastGranted D.Reader.bytes N.script N.start N.origin N.sound) engine.now.shown.history (known_recast D.Reader.bytes task.now)
        ⊎ IsRecastHeld D.Reader.bytes N.script N.start N.origin N.sound engine.now.shown.history (known_recast D.Reader.bytes task.now) }
    requires task { IsRecastTask D.Reader.bytes task.now }
    ensures { IsRecastHeld D.Reader.bytes N.script N.start N.origin N.sound engine.now.shown.history (known_recast D.Reader.bytes task.now) }
{
    recasts_go_on(task);
    recasts_are_known(task);
    tables_go_on();
    tables_become();
}

impl<'s, N: Naming, M: Made, D: DeltaDisk<M>, K: Sink> Vault<'s, N, M, D, K> {
    /// A recast's first turn: the files of its table's ranges. They have to come back by `renew_recast` or `recast`.
    pub fn grant_recast(&mut self, who: Who) -> Option<Recast<D::Reader>>
        requires due { Asks N.script (run_at N.script (N.start no_rows) self.old.shown.history) who.session who.command First is_recast }
        requires room { length self.old.shown.history < N.room }
        ensures turn { Takes N.script (N.start no_rows) self.old.shown self.new.shown who.session who.command kind.Grant (stage_if claim_of_recast Granted result) }
        ensures disk { AnswersDisk N.script (N.start no_rows) self.old.shown self.new.shown (SomeRose self.old.faults self.new.faults) }
        ensures ran { OnSome result (self.old.shown.running ≡ true) }
        ensures task { IfSome result (CanBeRegrouped D.Reader.bytes) }
        ensures granted { IfSome result (λ t. IsRecastGranted D.Reader.bytes N.script N.start N.origin N.sound self.new.shown.history (known_recast D.Reader.bytes t)) }
    {
        if !self.engine.running() {
            self.engine.skip(who, Kind::Grant);
            return None;
        }
        let words = recast_of(self.script, who);
        let granted = grant_recast(&mut self.engine, who, words);
        catalogue(&self.engine);
        let Some(task) = granted else {
            return None;
        };
        recasts_are_known(&task);
        Some(task)
    }

    /// What a recast does before its close, in the same turn: the files of the batches that came since its grant are opened, as long as its table is the one that was granted. It adds no entry. A call of the disk that failed is answered by the close behind it.
    pub fn rest(
        &mut self,
        task: Recast<D::Reader>,
    ) -> Result<Recast<D::Reader>, (FileError, Recast<D::Reader>)>
        requires granted { WasGranted (IsRecastGranted D.Reader.bytes N.script N.start N.origin N.sound) self.old.shown.history (known_recast D.Reader.bytes task) }
        requires task { CanBeRegrouped D.Reader.bytes task }
        ensures shown { self.new.shown ≡ self.old.shown }
        ensures run { self.new.run ≡ self.old.run }
        ensures state { self.new.state ≡ self.old.state }
        ensures told { self.new.told ≡ self.old.told }
        ensures sink { self.new.sink ≡ self.old.sink }
        ensures faults { NoneFell self.old.faults self.new.faults }

        // It never answers damage. A fault that it answers was counted in the call, and is unpaid.
        ensures sort { IfErr result (λ x. (x.0 ≡ file_error.Read) ⊎ (x.0 ≡ file_error.Memory)) }
        ensures cause { IfErr result (λ x. x.0 ≡ file_error.Read → SomeRose self.old.faults self.new.faults) }
        ensures unpaid { IfErr result (λ x. x.0 ≡ file_error.Read → HasUnpaid N.script N.start N.counted self.new.shown self.new.faults) }

        // Where further ranges may not be opened, the recast comes back as it was, and no fault is counted: the sink has failed, the vault has closed, a file of the recast was damaged, or its table has another epoch.
        ensures stays { (self.old.shown.running ≡ true → MayRest self.old.state task → ⊥) → (result ≡ Ok task) × (self.new.faults ≡ self.old.faults) }

        // The recast is the one that it was, with further ranges behind, and what is known of it holds.
        ensures longer { IsLonger D.Reader.bytes task (rested result) }
        ensures begun { (made : AnyRecasted M) → IsRecasted M.bytes M.id_of D.Reader.bytes task made → IsRecastedSoFar M.bytes M.id_of D.Reader.bytes (rested result) made }
        ensures task { CanBeRegrouped D.Reader.bytes (rested result) }
        ensures held { IsRecastHeld D.Reader.bytes N.script N.start N.origin N.sound self.new.shown.history (known_recast D.Reader.bytes (rested result)) }
        ensures rested { IfOk result (λ t. self.new.shown.running ≡ true → t.damage ≡ None → AllAreRested D.Reader.bytes self.new.state (known_recast D.Reader.bytes t)) }
    {
        held(&self.engine, &task);
        if !self.engine.running() {
            return Ok(task);
        }
        let mut task = task;
        catalogue(&self.engine);
        let found = rest(&mut self.engine, &mut task);
        recasts_are_known(&task);
        match found {
            Ok(()) => {}
            Err(error) => return Err((error, task)),
        }
        Ok(task)
    }
}

impl<'s, N: Naming, M: Made, D: Disk<M>, K: Sink> Vault<'s, N, M, D, K> {
    /// A recast's turn once its ranges are rewritten: its lease holds anew.
    pub fn renew_recast(&mut self, who: Who, task: Recast<D::Reader>) -> Option<Recast<D::Reader>>
        requires due { Asks N.script (run_at N.script (N.start no_rows) self.old.shown.history) who.session who.command (Granted (claim_of_recast task)) is_recast }
        requires granted { WasGranted (IsRecastGranted D.Reader.bytes N.script N.start N.origin N.sound) self.old.shown.history (known_recast D.Reader.bytes task) }
        requires room { length self.old.shown.history < N.room }
        ensures turn { Takes N.script (N.start no_rows) self.old.shown self.new.shown who.session who.command kind.Renew (stage_if claim_of_recast Renewed result) }
        ensures disk { AnswersDisk N.script (N.start no_rows) self.old.shown self.new.shown (SomeRose self.old.faults self.new.faults) }
        ensures ran { OnSome result (self.old.shown.running ≡ true) }
        ensures same { IfSome result (λ t. t ≡ task) }
    {
        if !self.engine.running() {
            self.engine.skip(who, Kind::Renew);
            give_back_recast(&mut self.engine, task);
            return None;
        }
        let words = recast_of(self.script, who);
        renew_recast(&mut self.engine, who, words, task)
    }

    /// A recast's last turn: what its ranges were rewritten to, once its lease was renewed, or why they weren't.
    pub fn recast(
        &mut self,
        who: Who,
        task: Recast<D::Reader>,
        made: Result<Recasted<M>, CompactError>,
    )
        requires due { (early : Bool) × Asks N.script (run_at N.script (N.start no_rows) self.old.shown.history) who.session who.command (closing_stage early (claim_of_recast task)) is_recast }
        requires renewed { OnOk made (Asks N.script (run_at N.script (N.start no_rows) self.old.shown.history) who.session who.command (Renewed (claim_of_recast task)) is_recast) }
        requires granted { WasGranted (IsRecastGranted D.Reader.bytes N.script N.start N.origin N.sound) self.old.shown.history (known_recast D.Reader.bytes task)
            ⊎ IsRecastHeld D.Reader.bytes N.script N.start N.origin N.sound self.old.shown.history (known_recast D.Reader.bytes task) }
        requires task { CanBeRegrouped D.Reader.bytes task }

        // Where its ranges are rewritten, they are all that its table has.
        requires rested { OnOk made (self.old.shown.running ≡ true → AllAreRested D.Reader.bytes self.old.state (known_recast D.Reader.bytes task)) }
        requires made { HasRegrouped M.bytes M.id_of D.Reader.bytes D.Reader.faults task made ⊎ ((made ≡ Err (compact.File file_error.Read)) × HasUnpaid N.script N.start N.counted self.old.shown self.old.faults) }
        requires room { length self.old.shown.history < N.room }
        ensures turn { Takes N.script (N.start no_rows) self.old.shown self.new.shown who.session who.command kind.Close Finished }
        ensures disk { AnswersDisk N.script (N.start no_rows) self.old.shown self.new.shown (SomeRose self.old.faults self.new.faults ⊎ (made ≡ Err (compact.File file_error.Read))) }
        ensures draft { AnswersDraft N.script (N.start no_rows) self.old.shown self.new.shown who.session (made ≡ Err compact.Draft) }

        // Where its ranges weren't rewritten it ends so, unless the vault has closed, and that is what it prints: no other cause, and no other damage.
        ensures outcome { IfErr made (λ e. self.old.shown.running ≡ true → self.new.shown.history ≡ self.old.shown.history ++ entry who.session who.command kind.Close (outcome_of (closing_cause self.old.state.closed e)) self.new.shown.clock ∷ []) }
        ensures prints { IfErr made (λ e. self.old.shown.running ≡ true → IsPut (block (entry who.session who.command kind.Close (outcome_of (closing_cause self.old.state.closed e)) self.new.shown.clock) (Some (told_at (length self.old.shown.history) (reply_of (closing_cause self.old.state.closed e))))) self.new.shown.running self.old.sink self.new.sink) }

        // Where its ranges are rewritten, its claim holds, the rules allow it still and its turn stands, the table is recast: then each file that is there is one that the catalogue, a held pin or an open query names.
        ensures swept { OnOk made (HasStood self.old.shown self.new.shown who.session who.command → ClaimHolds self.old.state (length self.old.shown.history) (claim_of_recast task) → still_checked (meta_of_recast self.old.state task).lineage task.epoch (recast_in task) ≡ Ok tt → IsSwept self.new.told self.new.state self.new.shown.history) }
    {
        if !self.engine.running() {
            self.engine.skip(who, Kind::Close);
            give_back_recast(&mut self.engine, task);
            return;
        }
        catalogue(&self.engine);
        let alloc = allocator(&self.engine);
        let words = recast_of(self.script, who);
        held(&self.engine, &task);
        recast(alloc, &mut self.engine, who, words, task, made);
    }
}
