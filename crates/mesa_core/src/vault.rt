// The vault, and what can be asked of it between turns.
ghost use Rattle.std.specs.Prelude.{◌≡◌, ◌<◌, ◌^◌, IfOk};
ghost use Rattle.mesa_recast_turns.specs.mesa_history_spec.Refused.{some_refused};
ghost use Rattle.mesa_recast_turns.specs.mesa_history_spec.Run.{begins};
ghost use Rattle.mesa_core.specs.Sight.{sight_after};
ghost use Rattle.mesa_recast_turns.specs.mesa_history_spec.Rows.{Rows, no_rows};
ghost use Rattle.mesa_recast_turns.specs.mesa_invariant_spec.Turns.{IsSeen};

use crate::standing::{catalogue, standing};
use mesa_batch::Glance;
use mesa_disk::{Disk, Made};
use mesa_engine::{Engine, Naming};
use mesa_io::Sink;
use mesa_model::Script;
use std::alloc::AllocError;
use std::marker::Model;

/// A run over a store, which is taken on by turns. It borrows its script. Each call with a `who` is one turn of that
/// command: it adds one entry to the history. Where the sink had failed before, such a call adds its entry and gives back
/// the readers that it was handed, and does nothing else.
pub struct Vault<'s, N: Naming, M: Made, D: Disk<M>, K: Sink> {
    pub(crate) script: &'s Script,
    pub(crate) engine: Engine<N, M, D, K>,
}

impl<'s, N: Naming, M: Made, D: Disk<M>, K: Sink> Model for Vault<'s, N, M, D, K> {
    ghost use Rattle.std.specs.Coded.{codes, coded_list, coded_ℕ};
    ghost use Rattle.std.specs.FinMap.{code as coded_map};
    ghost use Rattle.std.specs.Ordering.{nat_cmp};
    ghost use Rattle.mesa_core.specs.Vault.{IsOfRun, Stand};

    ghost Value = { Stand };

    ghost coded = { Prim.hlevel (codes, coded_map {R = nat_cmp} coded_ℕ (coded_list coded_ℕ)) };

    ghost view = { λ v. record { shown = v.engine.shown; run = v.engine.state.catalogue.run; state = v.engine.state; told = v.engine.told; faults = v.engine.faults; sink = v.engine.sink } };

    ghost invariant = { λ v. IsOfRun M.bytes N.sound N.script v.script.now };
}

impl<'s, N: Naming, M: Made, D: Disk<M>, K: Sink> Vault<'s, N, M, D, K> {
    /// False exactly where the sink has failed. Whatever turns there were, each entry is one that the run may have.
    pub fn running(&self) -> bool
        ensures running { result ≡ self.now.shown.running }
        ensures seen { IsSeen N.script (N.start no_rows) self.now.shown }
    {
        standing(&self.engine);
        self.engine.running()
    }

    /// Whether some reply so far was a refusal.
    pub fn refused(&self) -> bool
        ensures { (w : Rows) → result ≡ some_refused N.script (begins (N.start w)) self.now.shown.history }
    {
        self.engine.refused()
    }

    /// How often tables, views and columns have changed.
    pub fn generation(&self) -> u64
        ensures { result ≡ (sight_after N.script (N.start no_rows) (N.origin no_rows).generation self.now.shown.history).generation }
    {
        self.engine.generation()
    }

    /// The run's number.
    pub fn run(&self) -> u32
        ensures number { result ≡ self.now.run }
        ensures origin { (w : Rows) → result ≡ (N.origin w).run }
        ensures few { result < 2 ^ 24 }
    {
        self.engine.run()
    }

    /// What a load sees of the tables now.
    pub fn glance(&self) -> Result<Glance, AllocError>
        ensures { IfOk result (λ g. g ≡ sight_after N.script (N.start no_rows) (N.origin no_rows).generation self.now.shown.history) }
    {
        catalogue(&self.engine);
        self.engine.glance()
    }
}
