// How a call ends that runs nothing: with a line, and the status of its cause or of its verdict.
ghost use Rattle.std.specs.Prelude.{◌≡◌, [], codes, if◌then◌else◌};
ghost use Rattle.mesa_shell.specs.Exit as spec;
ghost use Rattle.mesa_shell.specs.ExitLines.{open_line, open_status, script_line, script_status, verdict_line, verdict_status};
ghost use Rattle.mesa_shell.specs.Ports.{ports};
ghost use Rattle.mesa_check.specs.Verdict.{fault_told};

use crate::lines::{put_open_error, put_script_error};
use crate::verdict_line::put_verdict;
use crate::{Devices, Done, statuses};
use mesa_check::Verdict;
use mesa_disk::{Bench, Disk, Made};
use mesa_io::Sink;
use mesa_print::Printer;
use mesa_recover::OpenError;
use mesa_script::ScriptError;
use std::alloc::Global;

// What such a call leaves, once its line was printed.
pub(crate) fn without_run<K, D, B>(
    alloc: Global,
    printer: Printer<K>,
    disk: D,
    benches: Vec<B>,
    status: u8,
) -> Done<K, D, B>
    ensures status { result.status ≡ (if printer.broken then 5 else status) }
    ensures out { result.out ≡ printer.sink }
    ensures disk { result.disk ≡ disk }
    ensures benches { result.benches.items ≡ benches.items }
    ensures history { result.history.items ≡ [] }
{
    let Printer { sink, broken } = printer;
    let status = if broken { statuses::SINK_FAULT } else { status };
    Done {
        status,
        out: sink,
        disk,
        benches,
        history: Vec::new(alloc),
    }
}

/// Ends a call with a line.
pub fn ended<M: Made, D: Disk<M>, K: Sink, B: Bench<M>>(
    alloc: Global,
    given: Devices<K, D, B>,
    status: u8,
    line: &[u8],
) -> Done<K, D, B>
    ensures disk { result.disk ≡ given.disk }
    ensures ended { spec.Ended (ports K.held K.faults D.story M.bytes B.faults) given result status line.now }
{
    let Devices { out, disk, benches } = given;
    let mut printer = Printer {
        sink: out,
        broken: false,
    };
    printer.put(line);
    without_run(alloc, printer, disk, benches, status)
}

/// Ends a call for want of memory.
pub fn lacks_memory<M: Made, D: Disk<M>, K: Sink, B: Bench<M>>(
    alloc: Global,
    given: Devices<K, D, B>,
) -> Done<K, D, B>
    ensures disk { result.disk ≡ given.disk }
    ensures ended { spec.Ended (ports K.held K.faults D.story M.bytes B.faults) given result 8 (codes "mesa: memory\n") }
{
    ended(alloc, given, statuses::NO_MEMORY, b"mesa: memory\n")
}

/// Ends a call whose script is refused.
pub fn ended_refused<M: Made, D: Disk<M>, K: Sink, B: Bench<M>>(
    alloc: Global,
    given: Devices<K, D, B>,
    error: &ScriptError,
) -> Done<K, D, B>
    ensures disk { result.disk ≡ given.disk }
    ensures ended { spec.Ended (ports K.held K.faults D.story M.bytes B.faults) given result script_status (script_line error.now) }
{
    let Devices { out, disk, benches } = given;
    let mut printer = Printer {
        sink: out,
        broken: false,
    };
    printer.put(b"mesa: script ");
    put_script_error(&mut printer, error);
    printer.put(b"\n");
    without_run(alloc, printer, disk, benches, statuses::BAD_SCRIPT)
}

/// The status of a script that was run: whether the sink failed, and whether some reply is a refusal.
pub fn run_status(failed: bool, refused: bool) -> u8
    ensures { result ≡ (if failed then 5 else (if refused then 1 else 0)) }
{
    if failed {
        statuses::SINK_FAULT
    } else if refused {
        statuses::REFUSED
    } else {
        statuses::ANSWERED
    }
}

// The status of a store that isn't opened.
fn status_of(error: &OpenError) -> u8
    ensures { result ≡ open_status error.now }
{
    match error {
        OpenError::Fault => statuses::DISK_FAULT,
        OpenError::Journal { .. } => statuses::DAMAGED,
        OpenError::File(_) => statuses::DAMAGED,
        OpenError::RunsFull => statuses::RUNS_FULL,
        OpenError::Memory => statuses::NO_MEMORY,
    }
}

/// Ends a call whose store isn't opened.
pub fn ended_opening<M: Made, D: Disk<M>, K: Sink, B: Bench<M>>(
    alloc: Global,
    given: Devices<K, D, B>,
    error: &OpenError,
) -> Done<K, D, B>
    ensures disk { result.disk ≡ given.disk }
    ensures ended { spec.Ended (ports K.held K.faults D.story M.bytes B.faults) given result (open_status error.now) (open_line error.now) }
{
    let Devices { out, disk, benches } = given;
    let mut printer = Printer {
        sink: out,
        broken: false,
    };
    printer.put(b"mesa: ");
    put_open_error(&mut printer, error);
    printer.put(b"\n");
    without_run(alloc, printer, disk, benches, status_of(error))
}

// The status of a verdict.
fn status_of_verdict(verdict: &Verdict) -> u8
    ensures { result ≡ verdict_status (fault_told verdict.now) }
{
    match verdict {
        Verdict::Sound => statuses::SOUND,
        Verdict::Unsound { .. } => statuses::UNSOUND,
    }
}

/// Ends a call that has checked the store.
pub fn ended_checked<M: Made, D: Disk<M>, K: Sink, B: Bench<M>>(
    alloc: Global,
    given: Devices<K, D, B>,
    verdict: &Verdict,
) -> Done<K, D, B>
    ensures disk { result.disk ≡ given.disk }
    ensures ended { spec.Ended (ports K.held K.faults D.story M.bytes B.faults) given result (verdict_status (fault_told verdict.now)) (verdict_line (fault_told verdict.now)) }
{
    let Devices { out, disk, benches } = given;
    let mut printer = Printer {
        sink: out,
        broken: false,
    };
    put_verdict(&mut printer, verdict);
    printer.put(b"\n");
    without_run(alloc, printer, disk, benches, status_of_verdict(verdict))
}
