// Runs of the script that a seed gives.
ghost use Rattle.std.specs.Prelude.{◌≡◌, ◌≤◌, ◌++◌, ℕ, List, Ok, false, true, length, if◌then◌else◌};
ghost use Rattle.mesa_shell.specs.Exit as spec;
ghost use Rattle.mesa_shell.specs.ExitLines.{gen_line, memory_line, memory_status};
ghost use Rattle.mesa_shell.specs.Ports.{ports};
ghost use Rattle.mesa_shell.specs.Scripts.{IsSmall};
ghost use Rattle.mesa_generate.specs.Excerpt.{CutsOut};
ghost use Rattle.mesa_print.specs.Printed.{Printed};
ghost use Rattle.mesa_script.specs.Generated.{generated as generated_by};
ghost use Rattle.mesa_script.specs.Script.{script_of};

use crate::opening::open;
use crate::running::{Left, run_begun};
use crate::{Devices, Done, ended_opening, lacks_memory, run_status, scripts_are_small, statuses};
use mesa_disk::{Bench, Disk, Made};
use mesa_generate::{excerpt, generate};
use mesa_io::{MemSink, Sink};
use mesa_model::{Entry, Script};
use mesa_open_files::DeltaDisk;
use mesa_parse::parse;
use mesa_print::Printer;
use mesa_session::Gate;
use std::alloc::{AllocError, Global};
use std::sync::Wait;
use std::thread::Threads;

// Prints the line of a seed, and what its script's run printed last.
fn print_last<K: Sink>(out: K, seed: u32, versions: u32, last: &[u8]) -> Printer<K>
    ensures { Printed K.held K.faults (record { sink = out; broken = false }) result (gen_line seed versions ++ last.now) }
{
    let mut printer = Printer {
        sink: out,
        broken: false,
    };
    printer.put(b"gen ");
    printer.put_number(seed as u64);
    printer.put(b" ");
    printer.put_number(versions as u64);
    printer.put(b"\n");
    printer.put(last);
    printer
}

// Prints that memory was short.
fn print_memory<K: Sink>(out: K) -> Printer<K>
    ensures { Printed K.held K.faults (record { sink = out; broken = false }) result memory_line }
{
    let mut printer = Printer {
        sink: out,
        broken: false,
    };
    printer.put(b"mesa: memory\n");
    printer
}

// What a call leaves that has run a script in memory, once a text was printed.
fn after_run<K, D, B>(
    printer: Printer<K>,
    status: u8,
    disk: D,
    benches: Vec<B>,
    history: Vec<Entry>,
) -> Done<K, D, B>
    ensures { result ≡ record { status = (if printer.broken then 5 else status); out = printer.sink; disk = disk; benches = benches; history = history } }
{
    let Printer { sink, broken } = printer;
    Done {
        status: if broken { statuses::SINK_FAULT } else { status },
        out: sink,
        disk,
        benches,
        history,
    }
}

// Shows what a run in memory printed last; or that its sink, which grows, found no memory.
fn show<M: Made, D: Disk<M>, K: Sink, B: Bench<M>>(
    seed: u32,
    versions: u32,
    script: &Script,
    out: K,
    left: Left<MemSink, D, B>,
) -> Done<K, D, B>
    ensures disk { result.disk ≡ left.disk }
    ensures benches { result.benches ≡ left.benches }
    ensures history { result.history ≡ left.history }
    ensures shown { left.failed ≡ false → (last : List ℕ) × CutsOut script.now left.out.held last × spec.Prints (ports K.held K.faults D.story M.bytes B.faults) (record { out = out; disk = left.disk; benches = left.benches }) result (if left.refused then 1 else 0) (gen_line seed versions ++ last) }
    ensures failed { left.failed ≡ true → spec.Prints (ports K.held K.faults D.story M.bytes B.faults) (record { out = out; disk = left.disk; benches = left.benches }) result memory_status memory_line }
{
    let Left {
        out: memory,
        disk,
        benches,
        history,
        failed,
        refused,
    } = left;
    if failed {
        let printer = print_memory(out);
        return after_run(printer, statuses::NO_MEMORY, disk, benches, history);
    }
    let last = excerpt(script, memory.bytes());
    let printer = print_last(out, seed, versions, last);
    let status = run_status(false, refused);
    after_run(printer, status, disk, benches, history)
}

// Opens the store, runs the script of a seed over it on a sink in memory, and shows what it printed last.
fn run_in_memory<M: Made, D: DeltaDisk<M>, K: Sink, B: Bench<M>, R: Threads + Wait + Sync, G: Gate>(
    rt: &R,
    alloc: Global,
    seed: u32,
    versions: u32,
    script: &Script,
    given: Devices<K, D, B>,
    gate: &G,
) -> Done<K, D, B>
    requires small { IsSmall script.now }
    requires read { script_of (generated_by seed versions) ≡ Ok script.now }
    requires benches { 8 ≤ length given.benches.items }
    ensures { spec.EndsShown (ports K.held K.faults D.story M.bytes B.faults) given result seed versions script.now }
{
    let Devices { out, disk, benches } = given;
    let begun = match open(alloc, disk) {
        Ok(begun) => begun,
        Err((error, disk)) => return ended_opening(alloc, Devices { out, disk, benches }, &error),
    };
    let memory = MemSink::new(alloc, Vec::new(alloc));
    match run_begun(rt, alloc, script, begun, memory, benches, gate) {
        Ok(left) => show(seed, versions, script, out, left),
        Err(unrun) => {
            let Devices {
                out: _memory,
                disk,
                benches,
            } = unrun;
            lacks_memory(alloc, Devices { out, disk, benches })
        }
    }
}

/// Runs the script that a seed gives with so many versions. It is read as any script is: where it
/// can't be, memory was short.
pub(crate) fn run_generated<
    M: Made,
    D: DeltaDisk<M>,
    K: Sink,
    B: Bench<M>,
    R: Threads + Wait + Sync,
    G: Gate,
>(
    rt: &R,
    alloc: Global,
    seed: u32,
    versions: u32,
    given: Devices<K, D, B>,
    gate: &G,
) -> Done<K, D, B>
    requires benches { 8 ≤ length given.benches.items }
    ensures { spec.EndsGenerated (ports K.held K.faults D.story M.bytes B.faults) given result seed versions }
{
    scripts_are_small();
    let bytes = match generate(alloc, seed, versions) {
        Ok(bytes) => bytes,
        Err(AllocError) => return lacks_memory(alloc, given),
    };
    match parse(alloc, bytes) {
        Ok(script) => run_in_memory(rt, alloc, seed, versions, &script, given, gate),
        Err(_) => lacks_memory(alloc, given),
    }
}
