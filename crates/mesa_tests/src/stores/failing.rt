// A run of which each call of the disk fails, one in each run, up to the first run in which none does: behind each the
// store stands as it did before the command that failed or behind it.
use crate::call::{Case, Left, PLAIN, call_over};
use crate::cases::expect_text;
use crate::expected::{expect_same, expect_that};
use crate::stores::shown::spelled;
use mesa_model::{Entry, Kind, Outcome};
use std::alloc::Global;
use std::process::Abort;
use std::str;
use std::sync::Wait;
use std::thread::Threads;

// Three loads, an expiry, a work, and queries at both versions that are left.
static RUN: Case<'static> = Case {
    script: b"table,t,k int,v replace\n\
     row,t,1,5\n\
     commit\n\
     row,t,1,6\n\
     commit\n\
     row,t,1,4\n\
     commit\n\
     expire,1\n\
     work,t\n\
     query,t,1\n\
     query,t\n",
    ..PLAIN
};

// The same with a work whose files are opened four times.
static RUN_IN_PARTS: Case<'static> = Case {
    script: b"table,t,k int,v replace\n\
     row,t,1,5\n\
     commit\n\
     row,t,1,6\n\
     commit\n\
     row,t,1,4\n\
     commit\n\
     expire,1\n\
     work,t,4\n\
     query,t,1\n\
     query,t\n",
    ..PLAIN
};

// How many of its commands change the store.
const CHANGES: u32 = 6;

static CHECKED: Case<'static> = Case {
    words: &["check"],
    ..PLAIN
};

static ASKED: Case<'static> = Case {
    script: b"query,t,1\nquery,t\nexplain,t\nquery,t,0\n",
    ..PLAIN
};

// The answers behind so many commands.
static FRONTS: [&str; 7] = [
    "0.1@0 refused no_table\n\
     0.2@1 refused no_table\n\
     0.3@2 refused no_table\n\
     0.4@3 refused no_table\n",
    "0.1@0 refused future asked=1 newest=none\n\
     0.2@1 refused future asked=latest newest=none\n\
     0.3@2 refused future asked=latest newest=none\n\
     0.4@3 refused future asked=0 newest=none\n",
    "0.1@0 refused future asked=1 newest=0\n\
     0.2@1 rows 1 version=0\n\
     1,5\n\
     0.3@3 spans 1\n\
     [0,0]\n\
     0.4@4 rows 1 version=0\n\
     1,5\n",
    "0.1@0 rows 1 version=1\n\
     1,6\n\
     0.2@2 rows 1 version=1\n\
     1,6\n\
     0.3@4 spans 2\n\
     [0,0]\n\
     [1,1]\n\
     0.4@5 rows 1 version=0\n\
     1,5\n",
    "0.1@0 rows 1 version=1\n\
     1,6\n\
     0.2@2 rows 1 version=2\n\
     1,4\n\
     0.3@4 spans 3\n\
     [0,0]\n\
     [1,1]\n\
     [2,2]\n\
     0.4@5 rows 1 version=0\n\
     1,5\n",
    "0.1@0 rows 1 version=1\n\
     1,6\n\
     0.2@2 rows 1 version=2\n\
     1,4\n\
     0.3@4 spans 3\n\
     [0,0]\n\
     [1,1]\n\
     [2,2]\n\
     0.4@5 refused stale asked=0 oldest=1\n",
    "0.1@0 rows 1 version=1\n\
     1,6\n\
     0.2@2 rows 1 version=2\n\
     1,4\n\
     0.3@4 spans 2\n\
     [0,1]\n\
     [2,2]\n\
     0.4@5 refused stale asked=0 oldest=1\n",
];

// How many of the commands that change the store were done before the one that closed it, and whether one did.
fn done(history: &[Entry]) -> (u32, bool) {
    let mut count = 0;
    for entry in history {
        if matches!(entry.outcome, Outcome::WriteFault) {
            return (count, true);
        }
        let is_last = matches!(entry.kind, Kind::Decide | Kind::Close);
        if is_last && matches!(entry.outcome, Outcome::Stands) && entry.command <= CHANGES {
            count = entry.command;
        }
    }
    (count, false)
}

// Whether these are the answers behind so many commands.
fn is_front(commands: u32, answers: &str) -> bool {
    match FRONTS.get(commands as usize) {
        Some(front) => *front == answers,
        None => false,
    }
}

// Stops the test where a store answers neither as before the command that failed nor as behind it.
fn expect_either(rt: &impl Abort, history: &[Entry], asked: &Left, call: u64) {
    let answers = str::from_utf8(&asked.text).unwrap_or("no text");
    let (commands, closed) = done(history);
    let next = commands.wrapping_add(1);
    let is_either = is_front(commands, answers) || (closed && is_front(next, answers));
    let case = ("the failed call and the commands before it", call, commands);
    expect_that(rt, is_either, &answers, &case);
}

// Makes a call of a run's disk fail, and looks at what is left; tells whether the run came so far.
fn fails<R: Abort + Threads + Wait + Sync>(
    rt: &R,
    alloc: Global,
    case: &Case<'_>,
    call: u64,
) -> bool {
    let disk = spelled(rt, alloc, "", &[call]);
    let Left {
        status,
        text: _text,
        history,
        disk,
    } = call_over(rt, alloc, disk, case);
    if status == 0 {
        return false;
    }
    let checked = call_over(rt, alloc, disk, &CHECKED);
    expect_text(rt, "the check behind a failed call", &checked, 0, "sound\n");
    let asked = call_over(rt, alloc, checked.disk, &ASKED);
    expect_either(rt, &history, &asked, call);
    true
}

// Makes each call of the disk fail, one in each run, up to the first run in which none does. Gives its number.
fn first_unfailing<R: Abort + Threads + Wait + Sync>(
    rt: &R,
    alloc: Global,
    case: &Case<'_>,
) -> u64 {
    for call in 0..100 {
        if !fails(rt, alloc, case, call) {
            return call;
        }
    }
    100
}

#[test]
fn each_call_failing_up_to_the_last(rt: HostRuntime) {
    let calls = first_unfailing(&rt, rt.alloc(), &RUN);
    // Opening takes ten calls, and each of the six commands that change the store four or more.
    expect_that(
        &rt,
        33 <= calls && calls < 99,
        &calls,
        &"the calls of a run",
    );
    let in_parts = first_unfailing(&rt, rt.alloc(), &RUN_IN_PARTS);
    // The work has two files, and each is opened three times more.
    expect_same(
        &rt,
        &in_parts,
        &calls.wrapping_add(6),
        &"the calls of a run in parts",
    );
}
