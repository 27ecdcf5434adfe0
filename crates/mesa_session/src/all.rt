// All sessions of a script: the prologue alone, and then the others at once.
ghost use Rattle.std.specs.Prelude.{◌≡◌, ◌<◌, ◌≤◌, ◌+◌, ◌-◌, ◌*◌, ◌^◌, ℕ, [], ◌∷◌, IsTrue, IfSome, is_some, length, drop};
ghost use Rattle.std.specs.Thread.{IsSync};
ghost use Rattle.mesa_session_turns.specs.mesa_history_spec.Run.{First, commands_of};
ghost use Rattle.mesa_model.specs.Entry.{history_of};
ghost use Rattle.mesa_session_turns.specs.mesa_history_spec.Rows.{no_rows};
ghost use Rattle.mesa_turn.specs.History.{has};
ghost use Rattle.mesa_turn.specs.Passes.{IsExact, Joins};
ghost use Rattle.mesa_session_turns.specs.mesa_core.Answers.{HasCounted, HaveCounted, answered};
ghost use Rattle.mesa_session_turns.specs.mesa_core.Passes.{HasEnded, HaveEnded, Mine, Waits, at_stage, turns_of};

use crate::{Gate, Sessions, Vault, run_session};
use mesa_disk::{Bench, Disk, Made};
use mesa_io::Sink;
use mesa_model::Script;
use mesa_session_turns::{DeltaDisk, Naming};
use mesa_turn::{Pass, TurnLock};
use std::alloc::Global;
use std::sync::Wait;
use std::thread::{Threads, join_mut};

// How many turns a session has at most.
fn most_turns(script: &Script, session: u16) -> u64
    requires there { session < length script.now.sessions }
    requires commands { length (commands_of script.now session) ≤ 200000 }
    ensures { result ≡ 3 * length (commands_of script.now session) }
{
    3 * script.sessions.as_slice()[session as usize].len() as u64
}

// The pass of the others, and that of the next session.
fn part_next<'s, N: Naming + Send, M: Made, D: Disk<M>, K: Sink + Send>(
    lock: &TurnLock<Vault<'s, N, M, D, K>>,
    pass: Pass,
    next: u16,
    room: u64,
) -> (Pass, Pass)
    requires lock { pass.lock ≡ lock.now }
    requires next { (0 < next) × (next < length N.script.sessions) × (length N.script.sessions ≤ 8) }
    requires waits { Waits N.script (N.start no_rows) pass next }
    requires room { room ≡ 3 * length (commands_of N.script next) }
    requires enough { turns_of (drop next N.script.sessions) ≤ pass.room }
    ensures locks { (result.0.lock ≡ pass.lock) × (result.1.lock ≡ pass.lock) }
    ensures limits { (result.0.limit ≡ pass.limit) × (result.1.limit ≡ pass.limit) }
    ensures rooms { (turns_of (drop (next + 1) N.script.sessions) ≤ result.0.room) × (3 * length (commands_of N.script next) ≤ result.1.room) }
    ensures rest { Waits N.script (N.start no_rows) result.0 (next + 1) }
    ensures name { result.1.names ≡ next ∷ [] }
    ensures mine { Mine N.script (N.start no_rows) result.1 next (at_stage 1 First) }
    ensures fresh { answered N.script (N.start no_rows) next result.1 ≡ 0 }
    ensures seen { result.0.seen ≡ pass.seen }
{
    lock.split(pass, next, room)
}

// The pass of the others and of the next session.
fn join_next<'s, N: Naming + Send, M: Made, D: Disk<M>, K: Sink + Send>(
    lock: &TurnLock<Vault<'s, N, M, D, K>>,
    rest: Pass,
    mine: Pass,
    next: u16,
) -> Pass
    requires locks { (rest.lock ≡ lock.now) × (mine.lock ≡ lock.now) }
    requires few { length N.script.sessions ≤ 8 }
    requires name { mine.names ≡ next ∷ [] }
    requires rest { HaveEnded N.script (N.start no_rows) rest (next + 1) }
    requires mine { HasEnded N.script (N.start no_rows) mine next }
    ensures lock { result.lock ≡ rest.lock }
    ensures ended { HaveEnded N.script (N.start no_rows) result next }
    ensures joins { Joins rest mine result }
    ensures rest { HaveEnded N.script (N.start no_rows) rest (next + 1) }
{
    lock.join(rest, mine)
}

// A session above the prologue, whose pass has its name alone.
fn run_one<
    'a,
    's,
    N: Naming + Send,
    M: Made,
    D: DeltaDisk<M>,
    K: Sink + Send,
    R: Threads + Wait + Sync,
    B: Bench<M>,
    G: Gate,
>(at: &Sessions<'a, 's, N, M, D, K, R, G>, pass: Pass, session: u16, bench: &mut B) -> Pass
    requires lock { pass.lock ≡ at.now.lock.now }
    requires script { at.now.script.now ≡ N.script }
    requires run { (at.now.run ≡ (N.origin no_rows).run) × (at.now.run < 2 ^ 24) }
    requires few { length N.script.sessions ≤ 8 }
    requires there { session < length N.script.sessions }
    requires commands { length (commands_of N.script session) ≤ 200000 }
    requires room { (3 * length (commands_of N.script session) ≤ pass.room) × (pass.limit ≤ N.room) }
    requires name { pass.names ≡ session ∷ [] }
    requires mine { Mine N.script (N.start no_rows) pass session (at_stage 1 First) }
    requires fresh { answered N.script (N.start no_rows) session pass ≡ 0 }
    ensures lock { result.lock ≡ pass.lock }
    ensures name { result.names ≡ session ∷ [] }
    ensures ended { HasEnded N.script (N.start no_rows) result session }
    ensures counted { HasCounted N.script (N.start no_rows) (history_of result.seen) session (B.faults bench.old) (B.faults bench.new) }
{
    run_session(at, pass, session, bench)
}

// The sessions from one on, each in a thread of its own.
fn run_rest<
    'a,
    's,
    N: Naming + Send,
    M: Made,
    D: DeltaDisk<M>,
    K: Sink + Send,
    R: Threads + Wait + Sync,
    B: Bench<M>,
    G: Gate,
>(at: &Sessions<'a, 's, N, M, D, K, R, G>, pass: Pass, next: u16, benches: &mut [B]) -> Pass
    requires lock { pass.lock ≡ at.now.lock.now }
    requires script { at.now.script.now ≡ N.script }
    requires run { (at.now.run ≡ (N.origin no_rows).run) × (at.now.run < 2 ^ 24) }
    requires few { length N.script.sessions ≤ 8 }
    requires next { (0 < next) × (next ≤ length N.script.sessions) }
    requires commands { (s : ℕ) → length (commands_of N.script s) ≤ 200000 }
    requires room { (turns_of (drop next N.script.sessions) ≤ pass.room) × (pass.limit ≤ N.room) }
    requires waits { Waits N.script (N.start no_rows) pass next }
    requires benches { length N.script.sessions ≤ next + length benches.old }
    ensures lock { result.lock ≡ pass.lock }
    ensures ended { HaveEnded N.script (N.start no_rows) result next }
    ensures counted { HaveCounted B.faults N.script (N.start no_rows) (history_of result.seen) next benches.old benches.new }

    // What the prologue's bench counted is still enough.
    ensures kept { (before now : ℕ) → HasCounted N.script (N.start no_rows) (history_of pass.seen) 0 before now → HasCounted N.script (N.start no_rows) (history_of result.seen) 0 before now }
{
    if next as usize == at.script.sessions.len() {
        return pass;
    }
    let (rest, mine) = part_next(at.lock, pass, next, most_turns(at.script, next));
    let (head, tail) = benches.split_at_mut(1);
    let bench = &mut head[0];
    let mut left = Some(mine);
    let mut right = Some(rest);
    let behind = next + 1;
    let (mine, rest) = join_mut(
        at.rt,
        &mut || -> Option<Pass>
            requires script { (at.now.script.now ≡ N.script) × (at.now.run ≡ (N.origin no_rows).run) × (at.now.run < 2 ^ 24) × (length N.script.sessions ≤ 8) × (next < length N.script.sessions) × (length (commands_of N.script next) ≤ 200000) }
            requires mine { IfSome left (λ a. (a.lock ≡ at.now.lock.now) × (3 * length (commands_of N.script next) ≤ a.room) × (a.limit ≤ N.room) × (a.names ≡ next ∷ []) × Mine N.script (N.start no_rows) a next (at_stage 1 First) × (answered N.script (N.start no_rows) next a ≡ 0)) }
            ensures some { is_some result ≡ is_some left.entry }
            ensures ended { IfSome left.entry (λ a. IfSome result (λ r. (r.lock ≡ a.lock) × (r.names ≡ next ∷ []) × HasEnded N.script (N.start no_rows) r next)) }
            ensures counted { IfSome left.entry (λ a. IfSome result (λ r. HasCounted N.script (N.start no_rows) (history_of r.seen) next (B.faults bench.entry.now) (B.faults bench.exit.now))) }
        {
            let pass = left.take()?;
            Some(run_one(at, pass, next, bench))
        },
        &mut || -> Option<Pass>
            requires own { IsSync R.row }
            requires script { (at.now.script.now ≡ N.script) × (at.now.run ≡ (N.origin no_rows).run) × (at.now.run < 2 ^ 24) × (length N.script.sessions ≤ 8) × (0 < behind) × (behind ≤ length N.script.sessions) × ((s : ℕ) → length (commands_of N.script s) ≤ 200000) }
            requires rest { IfSome right (λ b. (b.lock ≡ at.now.lock.now) × (turns_of (drop behind N.script.sessions) ≤ b.room) × (b.limit ≤ N.room) × Waits N.script (N.start no_rows) b behind) }
            requires benches { length N.script.sessions ≤ behind + length tail.now }
            ensures some { is_some result ≡ is_some right.entry }
            ensures ended { IfSome right.entry (λ b. IfSome result (λ r. (r.lock ≡ b.lock) × HaveEnded N.script (N.start no_rows) r behind)) }
            ensures counted { IfSome right.entry (λ b. IfSome result (λ r. HaveCounted B.faults N.script (N.start no_rows) (history_of r.seen) behind tail.entry.now tail.exit.now)) }
            ensures kept { IfSome right.entry (λ b. IfSome result (λ r. (before now : ℕ) → HasCounted N.script (N.start no_rows) (history_of b.seen) 0 before now → HasCounted N.script (N.start no_rows) (history_of r.seen) 0 before now)) }
        {
            let pass = right.take()?;
            Some(run_rest(at, pass, behind, tail))
        },
    );
    join_next(at.lock, rest.unwrap(), mine.unwrap(), next)
}

/// Runs the prologue, and then the other sessions at once, each in a thread of its own.
pub fn run_all<
    'a,
    's,
    N: Naming + Send,
    M: Made,
    D: DeltaDisk<M>,
    K: Sink + Send,
    R: Threads + Wait + Sync,
    B: Bench<M>,
    G: Gate,
>(
    rt: &'a R,
    alloc: Global,
    lock: &'a TurnLock<Vault<'s, N, M, D, K>>,
    pass: Pass,
    script: &'a Script,
    run: u32,
    benches: &mut [B],
    gate: &'a G,
) -> Pass
    requires lock { pass.lock ≡ lock.now }
    requires script { script.now ≡ N.script }
    requires run { (run ≡ (N.origin no_rows).run) × (run < 2 ^ 24) }
    requires few { (0 < length N.script.sessions) × (length N.script.sessions ≤ 8) }
    requires commands { (s : ℕ) → length (commands_of N.script s) ≤ 200000 }
    requires names { (n : ℕ) → n < 8 → IsTrue (has pass.names n) }
    requires none { pass.seen ≡ [] }
    requires exact { IsExact pass }
    requires room { (turns_of N.script.sessions ≤ pass.room) × (pass.limit ≤ N.room) }
    requires benches { 8 ≤ length benches.old }
    ensures lock { result.lock ≡ pass.lock }
    ensures names { (n : ℕ) → n < 8 → IsTrue (has result.names n) }
    ensures own { (k : ℕ) → k < length result.seen → IsTrue (has result.own k) }
    ensures ended { (s : ℕ) → s < length N.script.sessions → HasEnded N.script (N.start no_rows) result s }

    // Each session's bench counted the faults that the session's entries answer.
    ensures counted { HaveCounted B.faults N.script (N.start no_rows) (history_of result.seen) 0 benches.old benches.new }
{
    let at = Sessions {
        rt,
        alloc,
        lock,
        script,
        run,
        gate,
    };
    let (head, tail) = benches.split_at_mut(1);
    let pass = run_session(&at, pass, 0, &mut head[0]);
    run_rest(&at, pass, 1, tail)
}
