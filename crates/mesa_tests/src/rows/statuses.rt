// How calls end that run nothing, or whose streams fail.
use crate::call::{Case, PLAIN, call_over, empty_disk, script_run};
use crate::cases::{expect_cases, expect_text};
use crate::expected::expect_same;
use std::alloc::Global;
use std::process::Abort;
use std::sync::Wait;
use std::thread::Threads;

const ONE_ROW: &[u8] = b"table,t,k int,v sum\nrow,t,1,5\ncommit\ncommit\nquery,t\n";

// The blocks that it prints.
static ONE_ROW_BLOCKS: [&str; 4] = [
    "0.1@0 table t\n",
    "0.2@2 loaded version=0 rows=1\n",
    "0.3@4 loaded version=1 rows=0\n",
    "0.4@5 rows 1 version=1\n1,5\n",
];

const USAGE: &str =
    "mesa: usage: mesa run | mesa check | mesa gen SEED VERSIONS | mesa digest NAME\n";

const UNSERVED: Case<'static> = Case {
    name: "words that aren't served",
    source_fails: &[0],
    status: 2,
    text: USAGE,
    turns: Some(0),
    left: Some(""),
    ..PLAIN
};

static ENDINGS: [Case<'static>; 10] = [
    Case {
        words: &[],
        ..UNSERVED
    },
    Case {
        words: &["run", "x"],
        ..UNSERVED
    },
    Case {
        words: &["check", "x"],
        ..UNSERVED
    },
    Case {
        words: &["digest"],
        ..UNSERVED
    },
    Case {
        words: &["digest", "t", "u"],
        ..UNSERVED
    },
    Case {
        words: &["digest", "-t"],
        ..UNSERVED
    },
    Case {
        words: &["--help"],
        ..UNSERVED
    },
    Case {
        name: "a source that fails",
        script: ONE_ROW,
        source_fails: &[0],
        status: 4,
        text: "mesa: source fault\n",
        turns: Some(0),
        left: Some(""),
        ..PLAIN
    },
    // The command whose block failed has its turn, and the next one is skipped.
    Case {
        name: "a sink that fails",
        script: ONE_ROW,
        sink_fails: &[0],
        status: 5,
        turns: Some(2),
        ..PLAIN
    },
    Case {
        name: "a sink that fails before the usage",
        words: &[],
        sink_fails: &[0],
        status: 5,
        turns: Some(0),
        left: Some(""),
        ..PLAIN
    },
];

#[test]
fn calls_that_end_early(rt: HostRuntime) {
    expect_cases(&rt, rt.alloc(), &ENDINGS);
}

// Stops the test where a call whose sink fails at this put prints another text than the blocks before it, or ends
// with another status; tells whether there was such a put.
fn fails_at<R: Abort + Threads + Wait + Sync>(rt: &R, alloc: Global, put: usize) -> bool {
    let case = Case {
        name: "a sink that fails at a later call",
        script: ONE_ROW,
        sink_fails: &[put as u64],
        ..PLAIN
    };
    let mut text = String::new(alloc);
    for block in ONE_ROW_BLOCKS.iter().take(put) {
        text.push_str(block).expect(rt, "memory");
    }
    let left = call_over(rt, alloc, empty_disk(alloc), &case);
    let fails = left.status != 0;
    let status = if fails { 5 } else { 0 };
    expect_text(rt, case.name, &left, status, text.as_str());
    fails
}

// Each put fails, one in each run, up to the first run in which none does: a block takes one.
#[test]
fn calls_of_the_sink_failing(rt: HostRuntime) {
    let mut puts = 0usize;
    for put in 0..100 {
        puts = put;
        if !fails_at(&rt, rt.alloc(), put) {
            break;
        }
    }
    expect_same(&rt, &puts, &ONE_ROW_BLOCKS.len(), &"the puts of a run");
}

#[test]
fn input_too_long(rt: HostRuntime) {
    let mut bytes = Vec::new(rt.alloc());
    bytes.resize(67_108_865, b'\n').expect(&rt, "memory");
    let left = call_over(&rt, rt.alloc(), empty_disk(rt.alloc()), &script_run(&bytes));
    let text = "mesa: input over 67108864 bytes\n";
    expect_text(&rt, "an input that is too long", &left, 9, text);
}
