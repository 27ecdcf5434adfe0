// Calls of the program over devices in memory.
use crate::devices::{Hold, Meeting, MetBench, MetDisk};
use mesa_disk::{MemBench, MemDisk};
use mesa_io::{MemSink, MemSource};
use mesa_model::Entry;
use mesa_shell::{Done, mesa};
use std::alloc::Global;
use std::process::Abort;
use std::sync::Wait;
use std::thread::Threads;

/// A call of the program over a store, and what it leaves.
#[derive(Clone, Copy)]
pub struct Case<'a> {
    pub name: &'a str,
    pub words: &'a [&'a str],
    pub script: &'a [u8],
    /// The calls of the source that fail, and those of the sink, by their numbers from 0.
    pub source_fails: &'a [u64],
    pub sink_fails: &'a [u64],
    /// The calls on the prologue's drafts that fail, each by its draft's number and its own.
    pub draft_fails: &'a [(u64, u64)],
    /// Where sessions are held.
    pub holds: &'static [Hold],
    /// The store as text, where the call is the first over its disk, and a read, counted from 0, that fails of the next
    /// reader of a file.
    pub store: &'a str,
    pub read_fails: Option<(u64, u64)>,
    pub status: u8,
    pub text: &'a str,
    /// How many turns there were, which files there are, and the store as text: each is compared where it is given.
    pub turns: Option<usize>,
    pub files: Option<&'a [u64]>,
    pub left: Option<&'a str>,
}

/// A run of an empty script over an empty store, of which nothing fails and nobody is held.
pub const PLAIN: Case<'static> = Case {
    name: "",
    words: &["run"],
    script: b"",
    source_fails: &[],
    sink_fails: &[],
    draft_fails: &[],
    holds: &[],
    store: "",
    read_fails: None,
    status: 0,
    text: "",
    turns: None,
    files: None,
    left: None,
};

/// A run of a script over an empty store.
pub fn script_run<'a>(script: &'a [u8]) -> Case<'a> {
    Case { script, ..PLAIN }
}

/// What a call leaves.
#[derive(Drop)]
pub struct Left {
    pub status: u8,
    /// What was printed.
    pub text: Vec<u8>,
    pub history: Vec<Entry>,
    pub disk: MemDisk,
}

/// An empty disk.
pub fn empty_disk(alloc: Global) -> MemDisk {
    MemDisk::new(
        alloc,
        Vec::new(alloc),
        Vec::new(alloc),
        Vec::new(alloc),
        Vec::new(alloc),
    )
}

// A bench for each of eight sessions; these calls on the first one's drafts fail.
fn benches<'a>(
    rt: &impl Abort,
    alloc: Global,
    meeting: &'a Meeting,
    fails: &[(u64, u64)],
) -> Vec<MetBench<'a>> {
    let mut benches = Vec::new(alloc);
    for session in 0..8u16 {
        let fails = if session == 0 { fails } else { &[] };
        let fails = fails.to_vec(alloc).expect(rt, "memory");
        let bench = MetBench::new(MemBench::new(alloc, fails), meeting, session);
        benches.push(bench).expect(rt, "memory");
    }
    benches
}

fn source_of(rt: &impl Abort, alloc: Global, case: &Case<'_>) -> MemSource {
    let script = case.script.to_vec(alloc).expect(rt, "memory");
    let fails = case.source_fails.to_vec(alloc).expect(rt, "memory");
    MemSource::new(script, fails)
}

fn sink_of(rt: &impl Abort, alloc: Global, case: &Case<'_>) -> MemSink {
    let fails = case.sink_fails.to_vec(alloc).expect(rt, "memory");
    MemSink::new(alloc, fails)
}

// What is left of an ended call.
fn left_of(
    rt: &impl Abort,
    alloc: Global,
    done: Done<MemSink, MetDisk<'_, MemDisk>, MetBench<'_>>,
) -> Left {
    let Done {
        status,
        out,
        disk,
        benches: _benches,
        history,
    } = done;
    let text = out.bytes().to_vec(alloc).expect(rt, "memory");
    let disk = disk.into_disk();
    Left {
        status,
        text,
        history,
        disk,
    }
}

// Calls the program, whose sessions come by a meeting.
fn call_meeting<R: Abort + Threads + Wait + Sync>(
    rt: &R,
    alloc: Global,
    disk: MemDisk,
    case: &Case<'_>,
    meeting: &Meeting,
) -> Left {
    let mut source = source_of(rt, alloc, case);
    let sink = sink_of(rt, alloc, case);
    let benches = benches(rt, alloc, meeting, case.draft_fails);
    assert!(rt; benches.len() >= 8, "too few benches");
    let disk = MetDisk::new(disk, meeting);
    let done = mesa(
        rt,
        alloc,
        case.words,
        &mut source,
        sink,
        disk,
        benches,
        meeting,
    );
    left_of(rt, alloc, done)
}

/// Calls the program over a disk.
pub fn call_over<R: Abort + Threads + Wait + Sync>(
    rt: &R,
    alloc: Global,
    disk: MemDisk,
    case: &Case<'_>,
) -> Left {
    let meeting = Meeting::new(case.holds);
    call_meeting(rt, alloc, disk, case, &meeting)
}

/// Runs a script over an empty disk.
pub fn run<R: Abort + Threads + Wait + Sync>(rt: &R, alloc: Global, script: &str) -> Left {
    let case = script_run(script.as_bytes());
    call_over(rt, alloc, empty_disk(alloc), &case)
}
