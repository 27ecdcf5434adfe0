// An engine's start and end.
ghost use Rattle.std.specs.Prelude.{◌≡◌, ◌<◌, ◌≤◌, ◌^◌, [], Bool, true, false, not, None, IsTrue, vec_capacity};
ghost use Rattle.std.specs.List.{AllByRecursion};
ghost use Rattle.mesa_engine.specs.Beginning.{IsBegun};
ghost use Rattle.mesa_engine.specs.DiskState.{ReadsState};
ghost use Rattle.mesa_engine.specs.Engine.{most_turns, starts_of};
ghost use Rattle.mesa_io.specs.Causes.{last, Rose};
ghost use Rattle.mesa_invariant_spec.specs.mesa_history_spec.Legal.{AllFit, fits_sink};
ghost use Rattle.mesa_invariant_spec.specs.mesa_history_spec.Run.{begins};
ghost use Rattle.mesa_engine.specs.Vault.{outset_of};
ghost use Rattle.mesa_engine.specs.Memory.{opened_state};
ghost use Rattle.mesa_invariant_spec.specs.mesa_history_spec.Rows.{Rows};
ghost use Rattle.mesa_invariant_spec.specs.Printing.{IsPrinted, IsPrintedButRows};
ghost use Rattle.mesa_invariant_spec.specs.Turns.{faults_of};
ghost use Rattle.mesa_invariant_spec.specs.Undamaged.{NoneDamaged};
ghost use Rattle.mesa_invariant_spec.specs.Invariant.{AllFound, HasCounted, faults_in, run_at};

use crate::{Catalog, Engine, Log, Metadata, Naming};
use mesa_disk::{Area, Disk, Made};
use mesa_io::Sink;
use mesa_model::Entry;
use mesa_print::Printer;
use std::alloc::Global;
use std::marker::PhantomData;

impl<N: Naming, M: Made, D: Disk<M>, K: Sink> Engine<N, M, D, K> {
    /// The engine of the run that N names, before its first turn. The journal's next body goes to
    /// `end` in its area, and a lease holds for `lease` turns. The history has room for all turns.
    pub fn start(
        alloc: Global,
        catalog: Catalog,
        area: Area,
        end: u64,
        lease: u32,
        disk: D,
        sink: K,
        history: Vec<Entry>,
    ) -> Self
        requires begun { (w : Rows) (b : Bool) → (IsTrue b → N.sound w) → IsBegun (starts_of N.script N.start N.sound N.origin N.since N.counted N.at_start) w b catalog.catalogue area end lease (D.story disk) (K.held sink) }
        requires faults { K.faults sink ≡ N.sink_faults }
        requires run { catalog.catalogue.run < 2 ^ 24 }
        requires free { catalog.reserved ≡ None }
        requires empty { history.items ≡ [] }
        requires room { N.room ≤ vec_capacity history }
        requires few { N.room ≤ most_turns }
        ensures shown { result.shown ≡ record { history = []; running = true; clock = (D.story disk).moment } }
        ensures state { result.state ≡ opened_state catalog.catalogue area end lease }
        ensures told { result.told ≡ (D.story disk).told }
        ensures counts { result.faults ≡ faults_of (D.story disk) }
        ensures sink { result.sink ≡ K.held sink }
    {
        Engine {
            metadata: Metadata::new(alloc, catalog, area, end, lease),
            disk,
            log: Log {
                printer: Printer {
                    sink,
                    broken: false,
                },
                history,
                refused: false,
            },
            files: PhantomData,
            name: PhantomData,
        }
    }

    /// The disk, the sink and the history.
    pub fn stop(self) -> (D, K, Vec<Entry>)
        ensures history { result.2.items ≡ self.shown.history }
        ensures clock { (D.story result.0).moment ≡ self.shown.clock }

        // On every store the history is legal as far as it goes.
        ensures legal { (w : Rows) → AllFit N.script (begins (N.start w)) result.2.items }
        ensures sink { (w : Rows) → IsTrue (fits_sink (run_at N.script (N.start w) result.2.items).last (not self.shown.running)) }

        // Its moments are those of the run.
        ensures since { AllByRecursion (λ e. N.since ≤ e.moment) result.2.items }
        ensures until { AllByRecursion (λ e. e.moment ≤ (D.story result.0).moment) result.2.items }
        ensures later { N.since ≤ (D.story result.0).moment }

        // Each fault that it answers was counted.
        ensures counts { (w : Rows) → HasCounted N.counted (D.story result.0) (faults_in (outset_of (starts_of N.script N.start N.sound N.origin N.since N.counted N.at_start) w) result.2.items) }
        ensures failed { self.shown.running ≡ false → Rose N.sink_faults (K.faults result.1) }
        ensures whole { self.shown.running ≡ true → K.faults result.1 ≡ N.sink_faults }

        // A run without a turn left the sink as it was.
        ensures first { result.2.items ≡ [] → K.held result.1 ≡ N.at_start }

        // On every store what was printed is the history's blocks, but for the rows of pages.
        ensures blocks { (w : Rows) → IsPrintedButRows N.script (begins (N.start w)) result.2.items self.shown.running N.at_start (K.held result.1) }

        // On a sound store no entry met damage.
        ensures undamaged { (w : Rows) → N.sound w → NoneDamaged result.2.items }

        // On a sound store, while the clock is below its last value, what was printed is its output, and what a crash may have left is found.
        ensures printed { (w : Rows) → N.sound w → (D.story result.0).moment < last → IsPrinted N.script (begins (N.start w)) result.2.items self.shown.running N.at_start (K.held result.1) }
        ensures found { (w : Rows) → N.sound w → AllFound (outset_of (starts_of N.script N.start N.sound N.origin N.since N.counted N.at_start) w) result.2.items (D.story result.0) }

        // On a sound store that nothing closed, a read gives what stands behind the last turn, also where the clock stands at its last value.
        ensures reads { (w : Rows) → N.sound w → ReadsState N.script (N.start w) result.2.items (D.story result.0) }
    {
        let Engine {
            metadata,
            disk,
            log,
            files: _files,
            name: _name,
        } = self;
        let Log {
            printer,
            history,
            refused: _refused,
        } = log;
        metadata.discard();
        (disk, printer.sink, history)
    }
}
