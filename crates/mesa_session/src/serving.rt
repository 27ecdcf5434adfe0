// All turns of a script.
ghost use Rattle.std.specs.Prelude.{◌≡◌, ◌<◌, ◌≤◌, ◌^◌, ℕ, [], not, IfErr, IfOk, length};
ghost use Rattle.mesa_session_turns.specs.mesa_history_spec.Legal.{IsLegal};
ghost use Rattle.mesa_session_turns.specs.mesa_history_spec.Run.{commands_of};
ghost use Rattle.mesa_session_turns.specs.mesa_history_spec.Rows.{no_rows};
ghost use Rattle.mesa_session_turns.specs.mesa_core.Answers.{HaveCounted};
ghost use Rattle.mesa_session_turns.specs.mesa_core.Passes.{turns_of};

use crate::all::run_all;
use crate::{Gate, Vault};
use mesa_disk::{Bench, Made};
use mesa_io::Sink;
use mesa_model::Script;
use mesa_session_turns::{DeltaDisk, Naming};
use mesa_turn::TurnLock;
use std::alloc::Global;
use std::sync::Wait;
use std::thread::Threads;

/// Runs all sessions of a script, each of whose turns has its place in one history, and gives the
/// value back; or there was no memory for its lock, and no turn was taken.
pub fn serve<
    's,
    N: Naming + Send,
    M: Made,
    D: DeltaDisk<M>,
    K: Sink + Send,
    R: Threads + Wait + Sync,
    B: Bench<M>,
    G: Gate,
>(
    rt: &R,
    alloc: Global,
    vault: Vault<'s, N, M, D, K>,
    script: &Script,
    room: u64,
    benches: &mut [B],
    gate: &G,
) -> Result<Vault<'s, N, M, D, K>, Vault<'s, N, M, D, K>>
    requires script { script.now ≡ N.script }
    requires few { (0 < length N.script.sessions) × (length N.script.sessions ≤ 8) }
    requires commands { (s : ℕ) → length (commands_of N.script s) ≤ 200000 }
    requires empty { vault.shown.history ≡ [] }
    requires room { (turns_of N.script.sessions ≤ room) × (room ≤ N.room) × (room < 2 ^ 60) }
    requires benches { 8 ≤ length benches.old }
    ensures legal { IfOk result (λ v. IsLegal (N.start no_rows) N.script v.shown.history (not v.shown.running)) }

    // Each session's bench counted the faults that the session's entries answer, while neither the clock nor its count stands at its last value.
    ensures counted { IfOk result (λ v. HaveCounted B.faults N.script (N.start no_rows) v.shown.history 0 benches.old benches.new) }
    ensures none { IfErr result (λ v. v ≡ vault.entry) }
    ensures untouched { IfErr result (λ v. benches.new ≡ benches.old) }
{
    let run = vault.run();
    let (lock, pass) = match TurnLock::new(alloc, vault, room) {
        Ok(made) => made,
        Err((vault, _)) => return Err(vault),
    };
    let pass = run_all(rt, alloc, &lock, pass, script, run, benches, gate);
    let vault = lock.close(pass);
    let _seen = vault.running(); // each of its entries is one that the run may have
    Ok(vault)
}
