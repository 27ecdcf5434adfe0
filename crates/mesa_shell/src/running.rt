// The run of a script over a store on which it has begun.
ghost use Rattle.std.specs.Prelude.{◌≡◌, ◌+◌, ◌<◌, ◌≤◌, ◌^◌, [], Bool, true, false, None, IfErr, IfOk, IsTrue, length};
ghost use Rattle.mesa_io.specs.Causes.{last, Rose};
ghost use Rattle.mesa_engine.specs.Beginning.{IsBegun};
ghost use Rattle.mesa_engine.specs.Engine.{most_turns, starts_of};
ghost use Rattle.mesa_session.specs.mesa_history_spec.Refused.{some_refused};
ghost use Rattle.mesa_session.specs.mesa_history_spec.Run.{begins};
ghost use Rattle.mesa_session.specs.mesa_history_spec.Rows.{Rows};
ghost use Rattle.mesa_session.specs.mesa_core.Passes.{turns_of};
ghost use Rattle.mesa_shell.specs.Counting.{HasBenchCounts};
ghost use Rattle.mesa_shell.specs.Ports.{ports};
ghost use Rattle.mesa_session.specs.mesa_invariant_spec.Invariant.{AllFound};
ghost use Rattle.mesa_engine.specs.Vault.{IsRead};
ghost use Rattle.mesa_shell.specs.Run.{RanAnyhow, RanSoundly, outset_from};
ghost use Rattle.mesa_shell.specs.Scripts.{IsSmall};
ghost use Rattle.mesa_shell.specs.StoreStart.{AreTold};
ghost use Rattle.mesa_shell.specs.Begun.{IsReadyToRun};
ghost use Rattle.mesa_shell.specs.Ran.{HasNotRun, RanFrom};

use crate::Devices;
use mesa_disk::{Bench, Made};
use mesa_engine::Naming;
use mesa_io::Sink;
use mesa_model::{Entry, Script};
use mesa_open_files::DeltaDisk;
use mesa_recover::Begun;
use mesa_session::{Gate, Vault, serve, turns_of};
use std::alloc::{AllocError, Global};
use std::marker::Brand;
use std::sync::Wait;
use std::thread::Threads;

/// What a run leaves.
pub(crate) struct Left<K, D, B> {
    pub(crate) out: K,
    pub(crate) disk: D,
    pub(crate) benches: Vec<B>,
    pub(crate) history: Vec<Entry>,
    /// Whether the sink failed.
    pub(crate) failed: bool,
    /// Whether some printed reply is a refusal.
    pub(crate) refused: bool,
}

// The disk of a store on which a run has begun that takes no turn.
fn disk_of<D>(begun: Begun<D>) -> D
    ensures { result ≡ begun.disk }
{
    let Begun { disk, catalog, .. } = begun;
    drop(catalog);
    disk
}

// A run under its name: its vault is put into a lock, every session is run, and it is stopped. No type of
// its signature has the name.
fn run_named<
    N: Naming + Send,
    M: Made,
    D: DeltaDisk<M>,
    K: Sink + Send,
    B: Bench<M>,
    R: Threads + Wait + Sync,
    G: Gate,
>(
    rt: &R,
    alloc: Global,
    script: &Script,
    begun: Begun<D>,
    out: K,
    benches: Vec<B>,
    gate: &G,
) -> Result<Left<K, D, B>, Devices<K, D, B>>
    requires script { script.now ≡ N.script }
    requires small { IsSmall N.script }
    requires begun { (w : Rows) (b : Bool) → (IsTrue b → N.sound w) → IsBegun (starts_of N.script N.start N.sound N.origin N.since N.counted N.at_start) w b begun.catalog.catalogue begun.area begun.end script.now.lease (D.story begun.disk) (K.held out) }
    requires files { (w : Rows) → N.sound w → AreTold M.bytes }
    requires faults { K.faults out ≡ N.sink_faults }
    requires run { begun.catalog.catalogue.run < 2 ^ 24 }
    requires free { begun.catalog.reserved ≡ None }
    requires room { N.room ≡ turns_of N.script.sessions }
    requires few { N.room ≤ most_turns }
    requires benches { 8 ≤ length benches.items }

    // Want of memory, before any turn.
    ensures memory { IfErr result (λ d. (K.held d.out ≡ K.held out) × (K.faults d.out ≡ K.faults out) × (d.benches.items ≡ benches.items)) }
    ensures kept { IfErr result (λ d. (w : Rows) → N.sound w → AllFound (outset_from N.script (N.start w) N.since N.counted N.at_start) [] (D.story d.disk)) }
    ensures read { IfErr result (λ d. (w : Rows) → N.sound w → IsRead (D.story d.disk)) }

    ensures anyhow { IfOk result (λ l. (w : Rows) → RanAnyhow N.script (N.start w) l.history.items l.failed N.since N.counted (D.story l.disk) N.at_start (K.held l.out)) }
    ensures returned { IfOk result (λ l. length l.benches.items ≡ length benches.items) }
    ensures benches { IfOk result (λ l. (w : Rows) → HasBenchCounts B.faults (D.story l.disk) N.script (begins (N.start w)) l.history.items benches.items l.benches.items) }
    ensures refused { IfOk result (λ l. (w : Rows) → l.refused ≡ some_refused N.script (begins (N.start w)) l.history.items) }
    ensures failed { IfOk result (λ l. l.failed ≡ true → Rose (K.faults out) (K.faults l.out)) }
    ensures whole { IfOk result (λ l. l.failed ≡ false → K.faults l.out ≡ K.faults out) }

    // On a sound store, while the clock is below its last value.
    ensures soundly { IfOk result (λ l. (w : Rows) → N.sound w → (D.story l.disk).moment < last → RanSoundly N.script (N.start w) l.history.items l.failed N.since N.counted (D.story l.disk) N.at_start (K.held l.out)) }
{
    let room = turns_of(script);
    let mut benches = benches;
    let vault = match Vault::<N, M, D, K>::start(alloc, begun, out, script) {
        Ok(vault) => vault,
        Err((AllocError, begun, out)) => {
            let disk = disk_of(begun);
            return Err(Devices { out, disk, benches });
        }
    };
    match serve(rt, alloc, vault, script, room, &mut benches, gate) {
        Ok(vault) => {
            let failed = !vault.running();
            let refused = vault.refused();
            let (disk, out, history) = vault.stop();
            Ok(Left {
                out,
                disk,
                benches,
                history,
                failed,
                refused,
            })
        }
        Err(vault) => {
            let (disk, out, _none) = vault.stop();
            Err(Devices { out, disk, benches })
        }
    }
}

/// Runs a script over a store on which its run has begun; or there was no memory for that.
pub(crate) fn run_begun<
    M: Made,
    D: DeltaDisk<M>,
    K: Sink + Send,
    B: Bench<M>,
    R: Threads + Wait + Sync,
    G: Gate,
>(
    rt: &R,
    alloc: Global,
    script: &Script,
    begun: Begun<D>,
    out: K,
    benches: Vec<B>,
    gate: &G,
) -> Result<Left<K, D, B>, Devices<K, D, B>>
    requires small { IsSmall script.now }
    requires ready { IsReadyToRun D.story begun }
    requires benches { 8 ≤ length benches.items }
    ensures memory { IfErr result (HasNotRun (ports K.held K.faults D.story M.bytes B.faults) script.now begun out benches.items) }
    ensures ran { IfOk result (RanFrom (ports K.held K.faults D.story M.bytes B.faults) script.now begun out benches.items) }
{
    run_named::<Brand, M, D, K, B, R, G>(rt, alloc, script, begun, out, benches, gate)
}
