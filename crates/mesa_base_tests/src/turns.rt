// Threads that take turns to their end.
ghost use Rattle.std.specs.Prelude.{◌≡◌, ◌+◌, ◌-◌, ◌*◌, ◌^◌, ◌<◌, ◌≤◌, ℕ, [], ◌∷◌, ◌++◌, IsTrue, length};
ghost use Rattle.std.specs.Thread.{IsSync};
ghost use Rattle.mesa_turn.specs.History.{has};

use mesa_turn::{Pass, TurnLock, Turned};
use std::alloc::Global;
use std::marker::Model;
use std::process::Abort;
use std::sync::Wait;
use std::sync::atomic::{AtomicU64, Ordering};
use std::thread::{Threads, join, yield_now};

/// How many turns each thread takes.
const TURNS: u32 = 1000;

/// How often a thread looks for the others before it gives up.
const LOOKS: u32 = 20_000_000;

/// A list of entries, which is its own history.
#[derive(Drop)]
struct Log {
    entries: Vec<u128>,
}

impl Model for Log {
    ghost use Rattle.std.specs.Prelude.{List, ℕ};

    ghost Value = { List ℕ };

    ghost view = { λ l. l.entries.items };
}

impl Turned for Log {
    ghost history = { λ l. l };

    fn length(&self) -> u64 {
        self.entries.len() as u64
    }
}

impl Log {
    fn add(&mut self, rt: &impl Abort, entry: u128)
        ensures { self.new ≡ self.old ++ entry ∷ [] }
    {
        if self.entries.push(entry).is_err() {
            panic!(rt; "no memory");
        }
    }
}

/// The number of a turn of a thread: its count above the thread's name.
fn number(name: u16, turn: u32) -> u128
    ensures { result ≡ turn * 2 ^ 32 + name * 2 ^ 16 }
{
    ((turn as u128) << 32) + ((name as u128) << 16)
}

/// Waits until so many threads are here, so that their turns come in any order.
fn meet<R: Abort>(rt: &R, here: &AtomicU64, threads: u64) {
    here.fetch_add(1, Ordering::SeqCst);
    for _ in 0..LOOKS {
        if here.load(Ordering::SeqCst) >= threads {
            return;
        }
        yield_now();
    }
    panic!(rt; "the other threads didn't come");
}

/// Takes one turn after another under a name.
fn take_turns<R: Abort + Wait>(rt: &R, lock: &TurnLock<Log>, pass: Pass, name: u16) -> Pass
    requires lock { pass.lock ≡ lock.now }
    requires name { (name < 8) × IsTrue (has pass.names name) }
    requires room { TURNS ≤ pass.room }
    ensures lock { result.lock ≡ pass.lock }
    ensures names { result.names ≡ pass.names }
{
    let mut pass = pass;
    for turn in 0..TURNS {
        let mut held = lock.enter(rt, pass);
        let position = held.position();
        assert!(rt; held.value().length() == position);
        held.value().add(rt, number(name, turn));
        pass = lock.leave(held);
    }
    pass
}

/// Splits off the pass of the first name.
fn part_first(lock: &TurnLock<Log>, pass: Pass, name: u16, last: u16) -> (Pass, Pass)
    requires lock { pass.lock ≡ lock.now }
    requires name { (name < last) × (last < 8) }
    requires names { (n : ℕ) → name ≤ n → n < 8 → IsTrue (has pass.names n) }
    requires fresh { pass.own ≡ [] }
    requires room { (last + 1 - name) * TURNS ≤ pass.room }
    ensures locks { (result.0.lock ≡ pass.lock) × (result.1.lock ≡ pass.lock) }
    ensures mine { (result.1.names ≡ name ∷ []) × (TURNS ≤ result.1.room) }
    ensures rest { (n : ℕ) → name + 1 ≤ n → n < 8 → IsTrue (has result.0.names n) }
    ensures fresh { result.0.own ≡ [] }
    ensures room { (last + 1 - (name + 1)) * TURNS ≤ result.0.room }
{
    lock.split(pass, name, TURNS as u64)
}

/// Joins the pass of the first name and that of the others.
fn join_first(lock: &TurnLock<Log>, mine: Pass, rest: Pass, name: u16) -> Pass
    requires locks { (mine.lock ≡ lock.now) × (rest.lock ≡ lock.now) }
    requires mine { mine.names ≡ name ∷ [] }
    requires rest { (n : ℕ) → name + 1 ≤ n → n < 8 → IsTrue (has rest.names n) }
    ensures lock { result.lock ≡ mine.lock }
    ensures names { (n : ℕ) → name ≤ n → n < 8 → IsTrue (has result.names n) }
{
    lock.join(mine, rest)
}

/// Takes turns under each name from one to the last, each in a thread of its own.
fn run_from<R: Abort + Threads + Wait + Sync>(
    rt: &R,
    lock: &TurnLock<Log>,
    here: &AtomicU64,
    pass: Pass,
    name: u16,
    last: u16,
) -> Pass
    requires lock { pass.lock ≡ lock.now }
    requires name { (name ≤ last) × (last < 8) }
    requires names { (n : ℕ) → name ≤ n → n < 8 → IsTrue (has pass.names n) }
    requires fresh { pass.own ≡ [] }
    requires room { (last + 1 - name) * TURNS ≤ pass.room }
    ensures lock { result.lock ≡ pass.lock }
    ensures names { (n : ℕ) → name ≤ n → n < 8 → IsTrue (has result.names n) }
{
    let threads = last as u64 + 1;
    if name == last {
        meet(rt, here, threads);
        return take_turns(rt, lock, pass, name);
    }
    let next = name + 1;
    let (rest, mine) = part_first(lock, pass, name, last);
    let (mine, rest) = join(
        rt,
        || -> Pass
            requires { (mine.lock ≡ lock.now) × (name < 8) × (mine.names ≡ name ∷ []) × (TURNS ≤ mine.room) }
            ensures { (result.lock ≡ mine.lock) × (result.names ≡ mine.names) }
        {
            meet(rt, here, threads);
            take_turns(rt, lock, mine, name)
        },
        || -> Pass
            requires own { IsSync R.row }
            requires rest { (rest.lock ≡ lock.now) × (next ≤ last) × (last < 8) × ((n : ℕ) → next ≤ n → n < 8 → IsTrue (has rest.names n)) × (rest.own ≡ []) × ((last + 1 - next) * TURNS ≤ rest.room) }
            ensures lock { result.lock ≡ rest.lock }
            ensures names { (n : ℕ) → next ≤ n → n < 8 → IsTrue (has result.names n) }
        { run_from(rt, lock, here, rest, next, last) },
    );
    join_first(lock, mine, rest, name)
}

/// Whether the entries are those of so many threads: each thread's in its order, and no others.
fn are_complete(entries: &[u128], threads: u16) -> bool {
    let mut taken = [0u32; 8];
    for entry in entries {
        let name = ((*entry >> 16) & 0xffff) as usize;
        if name >= threads as usize || name >= 8 {
            return false;
        }
        let turn = taken[name];
        if turn >= TURNS || *entry != number(name as u16, turn) {
            return false;
        }
        taken[name] = turn + 1;
    }
    entries.len() == threads as usize * TURNS as usize
}

/// Lets so many threads take their turns, and looks at the whole history.
fn run_threads<R: Abort + Threads + Wait + Sync>(rt: &R, alloc: Global, threads: u16) -> bool
    requires { (0 < threads) × (threads ≤ 8) }
{
    let log = Log {
        entries: Vec::new(alloc),
    };
    let here = AtomicU64::new(0);
    let Ok((lock, pass)) = TurnLock::new(alloc, log, 8 * TURNS as u64) else {
        panic!(rt; "no memory");
    };
    let last = run_from(rt, &lock, &here, pass, 0, threads - 1);
    let log = lock.close(last);
    are_complete(log.entries.as_slice(), threads)
}

#[test]
fn two_threads_take_turns(rt: HostRuntime) {
    assert!(rt; run_threads(&rt, rt.alloc(), 2));
}

#[test]
fn eight_threads_take_turns(rt: HostRuntime) {
    assert!(rt; run_threads(&rt, rt.alloc(), 8));
}
