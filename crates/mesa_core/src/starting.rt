// A vault's start and end.
ghost use Rattle.std.specs.Prelude.{◌≡◌, ◌<◌, ◌≤◌, ◌^◌, [], Bool, true, false, not, None, IsTrue, IfErr, IfOk};
ghost use Rattle.std.specs.List.{AllByRecursion};
ghost use Rattle.mesa_core.specs.Vault.{AllTold};
ghost use Rattle.mesa_engine.specs.Beginning.{IsBegun};
ghost use Rattle.mesa_engine.specs.DiskState.{ReadsState};
ghost use Rattle.mesa_engine.specs.Engine.{most_turns, starts_of};
ghost use Rattle.mesa_io.specs.Causes.{last, Rose};
ghost use Rattle.mesa_recast_turns.specs.mesa_history_spec.Legal.{AllFit, fits_sink};
ghost use Rattle.mesa_recast_turns.specs.mesa_history_spec.Run.{begins};
ghost use Rattle.mesa_engine.specs.Vault.{outset_of};
ghost use Rattle.mesa_engine.specs.Memory.{opened_state};
ghost use Rattle.mesa_core.specs.Passes.{turns_of as turns_in};
ghost use Rattle.mesa_recast_turns.specs.mesa_history_spec.Rows.{Rows};
ghost use Rattle.mesa_recast_turns.specs.mesa_invariant_spec.Printing.{IsPrinted, IsPrintedButRows};
ghost use Rattle.mesa_recast_turns.specs.mesa_invariant_spec.Turns.{faults_of};
ghost use Rattle.mesa_recast_turns.specs.mesa_invariant_spec.Undamaged.{NoneDamaged};
ghost use Rattle.mesa_recast_turns.specs.mesa_invariant_spec.Invariant.{AllFound, HasCounted, faults_in, run_at};

use crate::{Vault, turns_of};
use mesa_disk::{Disk, Made};
use mesa_engine::{Begun, Engine, Naming};
use mesa_io::Sink;
use mesa_model::{Entry, Script};
use std::alloc::{AllocError, Global};

impl<'s, N: Naming, M: Made, D: Disk<M>, K: Sink> Vault<'s, N, M, D, K> {
    /// The vault of the run that N names, over a store where it has begun. All memory that its history
    /// takes is taken here; where there isn't so much, all that was handed over is given back.
    pub fn start(
        alloc: Global,
        begun: Begun<D>,
        out: K,
        script: &'s Script,
    ) -> Result<Self, (AllocError, Begun<D>, K)>
        requires script { script.now ≡ N.script }
        requires begun { (w : Rows) (b : Bool) → (IsTrue b → N.sound w) → IsBegun (starts_of N.script N.start N.sound N.origin N.since N.counted N.at_start) w b begun.catalog.catalogue begun.area begun.end script.now.lease (D.story begun.disk) (K.held out) }
        requires told { AllTold M.bytes N.sound }
        requires faults { K.faults out ≡ N.sink_faults }
        requires run { begun.catalog.catalogue.run < 2 ^ 24 }
        requires free { begun.catalog.reserved ≡ None }
        requires room { N.room ≡ turns_in N.script.sessions }
        requires few { N.room ≤ most_turns }
        ensures started { IfOk result (λ v. v ≡ record {
          shown = record { history = []; running = true; clock = (D.story begun.disk).moment };
          run = begun.catalog.catalogue.run;
          state = opened_state begun.catalog.catalogue begun.area begun.end script.now.lease;
          told = (D.story begun.disk).told;
          faults = faults_of (D.story begun.disk);
          sink = K.held out;
        }) }
        ensures given_back { IfErr result (λ e. (e.1 ≡ begun) × (e.2 ≡ out)) }
    {
        let turns = turns_of(script);
        match Vec::with_capacity(alloc, turns as usize) {
            Ok(history) => {
                let Begun {
                    disk,
                    catalog,
                    run: _run,
                    area,
                    end,
                    since: _since,
                } = begun;
                let engine = Engine::start(
                    alloc,
                    catalog,
                    area,
                    end,
                    script.lease,
                    disk,
                    out,
                    history,
                );
                Ok(Vault { script, engine })
            }
            Err(AllocError) => Err((AllocError, begun, out)),
        }
    }

    /// The disk, the sink and the history.
    pub fn stop(self) -> (D, K, Vec<Entry>)
        ensures history { result.2.items ≡ self.entry.shown.history }
        ensures clock { (D.story result.0).moment ≡ self.entry.shown.clock }

        // On every store the history is legal as far as it goes.
        ensures legal { (w : Rows) → AllFit N.script (begins (N.start w)) result.2.items }
        ensures sink { (w : Rows) → IsTrue (fits_sink (run_at N.script (N.start w) result.2.items).last (not self.entry.shown.running)) }

        // Its moments are those of the run.
        ensures since { AllByRecursion (λ e. N.since ≤ e.moment) result.2.items }
        ensures until { AllByRecursion (λ e. e.moment ≤ (D.story result.0).moment) result.2.items }
        ensures later { N.since ≤ (D.story result.0).moment }

        // Each fault that it answers was counted, and the sink's count rose exactly where the sink failed.
        ensures counts { (w : Rows) → HasCounted N.counted (D.story result.0) (faults_in (outset_of (starts_of N.script N.start N.sound N.origin N.since N.counted N.at_start) w) result.2.items) }
        ensures failed { self.entry.shown.running ≡ false → Rose N.sink_faults (K.faults result.1) }
        ensures whole { self.entry.shown.running ≡ true → K.faults result.1 ≡ N.sink_faults }

        // On every store what was printed is the history's blocks, but for the rows of pages.
        ensures blocks { (w : Rows) → IsPrintedButRows N.script (begins (N.start w)) result.2.items self.entry.shown.running N.at_start (K.held result.1) }

        // On a sound store no entry met damage.
        ensures undamaged { (w : Rows) → N.sound w → NoneDamaged result.2.items }

        // A run without a turn left the sink as it was.
        ensures first { result.2.items ≡ [] → K.held result.1 ≡ N.at_start }

        // On a sound store, while the clock is below its last value, what was printed is its output, and what a crash may have left is found.
        ensures printed { (w : Rows) → N.sound w → (D.story result.0).moment < last → IsPrinted N.script (begins (N.start w)) result.2.items self.entry.shown.running N.at_start (K.held result.1) }
        ensures found { (w : Rows) → N.sound w → AllFound (outset_of (starts_of N.script N.start N.sound N.origin N.since N.counted N.at_start) w) result.2.items (D.story result.0) }

        // On a sound store that nothing closed, a read gives what stands behind the last turn, also where the clock stands at its last value.
        ensures reads { (w : Rows) → N.sound w → ReadsState N.script (N.start w) result.2.items (D.story result.0) }
    {
        let Vault {
            script: _script,
            engine,
        } = self;
        engine.stop()
    }
}
