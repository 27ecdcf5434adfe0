// The turns of a work.
ghost use Rattle.std.specs.Prelude.{◌≡◌, ◌<◌, ◌++◌, ◌∷◌, [], true, not, Err, IfErr, IfSome, OnSome, OnOk, Some, is_ok, length};
ghost use Rattle.mesa_recast_turns.specs.mesa_work_turns.Swept.{ClaimHolds, HasStood, IsSwept};
ghost use Rattle.mesa_recast_turns.specs.mesa_work_turns.Unmerged.{closing_cause};
ghost use Rattle.mesa_core.specs.Handing.{IsGranted};
ghost use Rattle.mesa_recast_turns.specs.mesa_history_spec.Run.{Finished, First, Granted, Renewed};
ghost use Rattle.mesa_model.specs.declared.entries.Kind.TheVariants as kind;
ghost use Rattle.mesa_core.specs.Works.{CanBeMerged, HasMerged, WasGranted, known_task};
ghost use Rattle.mesa_recast_turns.specs.mesa_history_spec.Rows.{no_rows};
ghost use Rattle.mesa_recast_turns.specs.mesa_history_spec.Output.{block};
ghost use Rattle.mesa_open_files.specs.Tasks.{claim_in};
ghost use Rattle.mesa_open_files.specs.declared.merging.CompactError.TheVariants as compact;
ghost use Rattle.mesa_recast_turns.specs.mesa_invariant_spec.Causes.{outcome_of, reply_of, told_at};
ghost use Rattle.mesa_recast_turns.specs.mesa_invariant_spec.Printing.{IsPut};
ghost use Rattle.mesa_recast_turns.specs.mesa_invariant_spec.Turns.{AnswersDisk, AnswersDraft, Asks, SomeRose, Takes, entry, is_merge};
ghost use Rattle.mesa_recast_turns.specs.mesa_invariant_spec.Invariant.{run_at};
ghost use Rattle.mesa_recast_turns.specs.mesa_invariant_spec.Works.{closing_stage, stage_if};

use crate::asked::work_of;
use crate::standing::{allocator, catalogue, claims};
use crate::{Vault, bounds_are_known, leases_hold, merges_are_known, ranges_go_on, tables_go_on};
use mesa_disk::{Disk, Made};
use mesa_engine::{Naming, Who};
use mesa_io::Sink;
use mesa_model::Kind;
use mesa_open_files::{CompactError, DeltaDisk, NewDelta, Task};
use mesa_recast_turns::{complete, give_back, give_up, grant, renew, tables_become};

impl<'s, N: Naming, M: Made, D: DeltaDisk<M>, K: Sink> Vault<'s, N, M, D, K> {
    /// A work's first turn: the files that are to be merged. They have to come back by `renew` or `complete`.
    pub fn grant(&mut self, who: Who) -> Option<Task<D::Reader>>
        requires due { Asks N.script (run_at N.script (N.start no_rows) self.old.shown.history) who.session who.command First is_merge }
        requires room { length self.old.shown.history < N.room }
        ensures turn { Takes N.script (N.start no_rows) self.old.shown self.new.shown who.session who.command kind.Grant (stage_if claim_in Granted result) }
        ensures disk { AnswersDisk N.script (N.start no_rows) self.old.shown self.new.shown (SomeRose self.old.faults self.new.faults) }
        ensures ran { OnSome result (self.old.shown.running ≡ true) }
        ensures task { IfSome result (CanBeMerged D.Reader.bytes) }
        ensures granted { IfSome result (λ t. IsGranted D.Reader.bytes N.script N.start N.origin N.sound self.new.shown.history (known_task D.Reader.bytes t)) }
    {
        if !self.engine.running() {
            self.engine.skip(who, Kind::Grant);
            return None;
        }
        let words = work_of(self.script, who);
        let granted = grant(&mut self.engine, who, words);
        catalogue(&self.engine);
        claims(&self.engine);
        granted
    }
}

impl<'s, N: Naming, M: Made, D: Disk<M>, K: Sink> Vault<'s, N, M, D, K> {
    /// A work's turn once its files are merged: its lease holds anew.
    pub fn renew(&mut self, who: Who, task: Task<D::Reader>) -> Option<Task<D::Reader>>
        requires due { Asks N.script (run_at N.script (N.start no_rows) self.old.shown.history) who.session who.command (Granted (claim_in task)) is_merge }
        requires granted { WasGranted (IsGranted D.Reader.bytes N.script N.start N.origin N.sound) self.old.shown.history (known_task D.Reader.bytes task) }
        requires room { length self.old.shown.history < N.room }
        ensures turn { Takes N.script (N.start no_rows) self.old.shown self.new.shown who.session who.command kind.Renew (stage_if claim_in Renewed result) }
        ensures disk { AnswersDisk N.script (N.start no_rows) self.old.shown self.new.shown (SomeRose self.old.faults self.new.faults) }
        ensures ran { OnSome result (self.old.shown.running ≡ true) }
        ensures same { IfSome result (λ t. t ≡ task) }
    {
        if !self.engine.running() {
            self.engine.skip(who, Kind::Renew);
            give_back(&mut self.engine, task);
            return None;
        }
        let words = work_of(self.script, who);
        renew(&mut self.engine, who, words, task)
    }

    /// A work's last turn: what its files were merged to, once its lease was renewed, or why they weren't.
    pub fn complete(
        &mut self,
        who: Who,
        task: Task<D::Reader>,
        merged: Result<NewDelta<M>, CompactError>,
    )
        requires due { Asks N.script (run_at N.script (N.start no_rows) self.old.shown.history) who.session who.command (closing_stage (not (is_ok merged)) (claim_in task)) is_merge }
        requires granted { WasGranted (IsGranted D.Reader.bytes N.script N.start N.origin N.sound) self.old.shown.history (known_task D.Reader.bytes task) }
        requires merged { HasMerged M.bytes M.id_of D.Reader.bytes D.Reader.faults task merged }
        requires room { length self.old.shown.history < N.room }
        ensures turn { Takes N.script (N.start no_rows) self.old.shown self.new.shown who.session who.command kind.Close Finished }
        ensures disk { AnswersDisk N.script (N.start no_rows) self.old.shown self.new.shown (SomeRose self.old.faults self.new.faults) }
        ensures draft { AnswersDraft N.script (N.start no_rows) self.old.shown self.new.shown who.session (merged ≡ Err compact.Draft) }

        // Where the merge failed it ends so, unless the vault has closed, and that is what it prints: no other cause, and no other damage.
        ensures outcome { IfErr merged (λ e. self.old.shown.running ≡ true → self.new.shown.history ≡ self.old.shown.history ++ entry who.session who.command kind.Close (outcome_of (closing_cause self.old.state.closed e)) self.new.shown.clock ∷ []) }
        ensures prints { IfErr merged (λ e. self.old.shown.running ≡ true → IsPut (block (entry who.session who.command kind.Close (outcome_of (closing_cause self.old.state.closed e)) self.new.shown.clock) (Some (told_at (length self.old.shown.history) (reply_of (closing_cause self.old.state.closed e))))) self.new.shown.running self.old.sink self.new.sink) }

        // Where its files are merged, its claim holds and its turn stands, the range is swapped in: then each file that is there is one that the catalogue, a held pin or an open query names.
        ensures swept { OnOk merged (HasStood self.old.shown self.new.shown who.session who.command → ClaimHolds self.old.state (length self.old.shown.history) (claim_in task) → IsSwept self.new.told self.new.state self.new.shown.history) }
    {
        if !self.engine.running() {
            self.engine.skip(who, Kind::Close);
            give_back(&mut self.engine, task);
            return;
        }
        catalogue(&self.engine);
        claims(&self.engine);
        let alloc = allocator(&self.engine);
        let words = work_of(self.script, who);
        match merged {
            Ok(delta) => {
                merges_are_known(&task, &delta);
                leases_hold();
                ranges_go_on(&task);
                tables_go_on();
                tables_become();
                complete(alloc, &mut self.engine, who, words, task, delta);
            }
            Err(error) => {
                bounds_are_known(&task);
                give_up(&mut self.engine, who, words, task, error);
            }
        }
    }
}
