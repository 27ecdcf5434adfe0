// The engine, and what can be asked of it between turns.
ghost use Rattle.std.specs.Prelude.{◌≡◌, ◌+◌, ◌<◌, ◌^◌, IfOk};
ghost use Rattle.mesa_batch.specs.Glance.{tables_of};
ghost use Rattle.mesa_catalog.specs.Lookups.{sight_of};
ghost use Rattle.mesa_invariant_spec.specs.mesa_history_spec.Refused.{some_refused};
ghost use Rattle.mesa_invariant_spec.specs.mesa_history_spec.Run.{begins};
ghost use Rattle.mesa_invariant_spec.specs.mesa_history_spec.Rows.{Rows, no_rows};
ghost use Rattle.mesa_invariant_spec.specs.Sight.{schema_changes, tables_seen};
ghost use Rattle.mesa_invariant_spec.specs.Invariant.{run_at};

use crate::{Log, Metadata, Naming};
use mesa_batch::Glance;
use mesa_disk::{Disk, Made};
use mesa_io::Sink;
use std::alloc::AllocError;
use std::marker::{Model, PhantomData};

/// What a vault has at hand for its turns.
pub struct Engine<N: Naming, M: Made, D: Disk<M>, K: Sink> {
    pub metadata: Metadata,
    pub disk: D,
    pub log: Log<K>,
    pub files: PhantomData<M>,
    pub name: PhantomData<N>,
}

impl<N: Naming, M: Made, D: Disk<M>, K: Sink> Model for Engine<N, M, D, K> {
    ghost use Rattle.std.specs.Prelude.{not};
    ghost use Rattle.std.specs.Coded.{codes, coded_list, coded_ℕ};
    ghost use Rattle.std.specs.FinMap.{code as coded_map};
    ghost use Rattle.std.specs.Ordering.{nat_cmp};
    ghost use Rattle.mesa_engine.specs.Engine.{IsEngine, Standing, starts_of};
    ghost use Rattle.mesa_invariant_spec.specs.Turns.{faults_of};

    ghost Value = { Standing };

    ghost coded = { Prim.hlevel (codes, coded_map {R = nat_cmp} coded_ℕ (coded_list coded_ℕ)) };

    ghost view = { λ e. record {
      shown = record { history = e.log.history.items; running = not e.log.printer.broken; clock = (D.story e.disk).moment };
      state = e.metadata.state;
      told = (D.story e.disk).told;
      faults = faults_of (D.story e.disk);
      sink = K.held e.log.printer.sink;
    } };

    ghost invariant = { λ e. IsEngine K.held K.faults (starts_of N.script N.start N.sound N.origin N.since N.counted N.at_start) N.room N.sink_faults e.metadata (D.story e.disk) e.log };
}

impl<N: Naming, M: Made, D: Disk<M>, K: Sink> Engine<N, M, D, K> {
    /// False exactly where the sink has failed.
    pub fn running(&self) -> bool
        ensures { result ≡ self.now.shown.running }
    {
        self.log.runs()
    }

    /// Whether some reply so far was a refusal.
    pub fn refused(&self) -> bool
        ensures { (w : Rows) → result ≡ some_refused N.script (begins (N.start w)) self.now.shown.history }
    {
        self.log.refused
    }

    /// The catalogue's generation: how often tables, views and columns have changed.
    pub fn generation(&self) -> u64
        ensures { (w : Rows) → result ≡ (N.origin w).generation + schema_changes N.script (begins (N.start w)) self.now.shown.history }
    {
        self.metadata.generation()
    }

    /// The run's number.
    pub fn run(&self) -> u32
        ensures number { result ≡ self.now.state.catalogue.run }
        ensures origin { (w : Rows) → result ≡ (N.origin w).run }
        ensures few { result < 2 ^ 24 }
    {
        self.metadata.run()
    }

    /// What a load sees of the tables now.
    pub fn glance(&self) -> Result<Glance, AllocError>
        ensures catalogue { IfOk result (λ g. g ≡ sight_of self.now.state.catalogue) }
        ensures tables { IfOk result (λ g. tables_of g ≡ tables_seen (run_at N.script (N.start no_rows) self.now.shown.history)) }
    {
        self.metadata.catalog().glance()
    }
}
