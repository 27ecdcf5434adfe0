// Stores of both formats: what was written when a sum had 64 bits, and what is written since.
use crate::call::{Case, Left, PLAIN, call_over};
use crate::cases::{expect_in_turn_over, expect_text};
use crate::expected::expect_same;
use crate::sessions::replay::expect_replayed_behind;
use crate::stores::checkpoints::{RUNS, expect_checkpoint, expect_failing, push_runs};
use crate::stores::crashes::{Stopped, expect_moments};
use crate::stores::older::STORE;
use crate::stores::shown::{shown, spelled};
use mesa_disk::Area;
use std::alloc::Global;
use std::process::Abort;
use std::str;
use std::sync::Wait;
use std::thread::Threads;

const RUN_2: u64 = 2 << 40;

// The table, and the row 1,5 in version 0 with nothing in version 1: records of the first edition, a file of format 1.
const OLD: &str =
    "01000000050100000001010000000b02017401016b000101760001000000700500000000000100000000000000000100000000000000000000000067000000000000000100000001000880000000000000010008800000000000000101000000000000000560845b21d56050bcccbfbef5313b8190744ac8bbd75fad7200d951fe1268d3930001000000000000000501000000070500000001000000\n\
     0000010000000000 0000018000000000000001000000000000000580000000000000010000000000000000000000000000000000000013cb43fefe3754e6c6547db5d4ef40d734649323eb54dab57d202f18edb41a1efe000000000000000000010000000101014d455341444c5431";

// Behind the old records a second run, an expiry and a base of the second edition; its file has 111 bytes and format 2.
const REWRITTEN: &str =
    "01000000050100000001010000000b02017401016b000101760001000000700500000000000100000000000000000100000000000000000000000067000000000000000100000001000880000000000000010008800000000000000101000000000000000560845b21d56050bcccbfbef5313b8190744ac8bbd75fad7200d951fe1268d39300010000000000000005010000000705000000010000010000000501000000020100000005070000000101000000740a00000100000000000000010000000001020000020000000000000000000000006f00000000000000010000000100088000000000000001000880000000000000010100000000000000000000000000000005c81c296f0f6edacf6039963d5def2a2dba052cfcdd802539023abf3c861cc7360000\n\
     0000020000000000 0000018000000000000001000000000000000000000000000000058000000000000001000000000000000000000000000000000000001b3b67a19d6e109f5699455c7b879e2aac9c239bc564a294d734174daebe20ca94000000000000000000010000000101014d455341444c5432";

const CHECKED: Case<'static> = Case {
    words: &["check"],
    text: "sound\n",
    ..PLAIN
};

static REWRITING: [Case<'static>; 4] = [
    Case {
        name: "a check of an old store",
        left: Some(OLD),
        ..CHECKED
    },
    Case {
        name: "an old store that is rewritten",
        script: b"query,t\n\
         expire,1\n\
         work,t\n",
        text: "0.1@0 rows 1 version=1\n\
         1,5\n\
         0.2@2 expired oldest=1\n\
         0.3@5 swapped 0 1\n",
        files: Some(&[RUN_2]),
        left: Some(REWRITTEN),
        ..PLAIN
    },
    Case {
        name: "a check of it once it is rewritten",
        left: Some(REWRITTEN),
        ..CHECKED
    },
    Case {
        name: "a query of it once it is rewritten",
        script: b"query,t\n",
        text: "0.1@0 rows 1 version=1\n\
         1,5\n",
        ..PLAIN
    },
];

#[test]
fn an_old_store_is_rewritten(rt: HostRuntime) {
    let disk = spelled(&rt, rt.alloc(), OLD, &[]);
    expect_in_turn_over(&rt, rt.alloc(), disk, &REWRITING);
}

// What made the other old store.
const BEFORE: &str = "table,t,a int;b int,v sum\n\
     table,u,k int,m max\n\
     view,w,t,a,v\n\
     row,t,1,1,5\n\
     row,t,1,2,7\n\
     row,u,9,3\n\
     commit\n\
     row,t,1,1,-2\n\
     row,t,2,1,4\n\
     commit\n\
     row,u,9,5\n\
     commit\n\
     expire,1\n\
     work,t\n";

// Loads behind old files, sums beyond 64 bits, a base in front of an old file, and bases of old files and new ones.
static COMMANDS: [&str; 8] = [
    "row,t,1,1,9223372036854775807\nrow,u,8,1\ncommit\n",
    "work,u\n",
    "row,t,1,1,9223372036854775807\nrow,t,3,1,-100000000000000000000000000000000000000\nrow,u,9,-9\ncommit\n",
    "expire,t,3\n",
    "work,t\n",
    "alter,t,add_value,x sum,0\n",
    "expire,3\n",
    "work,u\n",
];

static QUESTIONS: &str = "query,t\n\
     query,u\n\
     query,w\n\
     query,t,3,,-,v\n\
     query,u,2\n\
     explain,t\n\
     explain,u\n\
     commit\n";

fn asked() -> Case<'static> {
    Case {
        script: QUESTIONS.as_bytes(),
        ..PLAIN
    }
}

// A store, what made it, and the commands that a run does then.
#[derive(Clone, Copy)]
struct Start<'a> {
    store: &'a str,
    before: &'a str,
    commands: &'a [&'a str],
}

// The first so many commands behind a text.
fn front(rt: &impl Abort, alloc: Global, before: &str, all: &[&str], commands: usize) -> String {
    let mut script = String::from_str(alloc, before).expect(rt, "memory");
    for command in all.iter().take(commands) {
        script.push_str(command).expect(rt, "memory");
    }
    script
}

// What the first so many commands leave of the store, all of which are done.
fn left_behind<R: Abort + Threads + Wait + Sync>(
    rt: &R,
    alloc: Global,
    start: Start<'_>,
    commands: usize,
) -> Left {
    let script = front(rt, alloc, "", start.commands, commands);
    let disk = spelled(rt, alloc, start.store, &[]);
    let case = Case {
        script: script.as_bytes(),
        ..PLAIN
    };
    let left = call_over(rt, alloc, disk, &case);
    expect_same(rt, &left.status, &0, &commands);
    left
}

// What the store answers then, as the plain warehouse does; a check finds it sound.
fn answers_behind<R: Abort + Threads + Wait + Sync>(
    rt: &R,
    alloc: Global,
    start: Start<'_>,
    commands: usize,
) -> Vec<u8> {
    let left = left_behind(rt, alloc, start, commands);
    let checked = call_over(rt, alloc, left.disk, &CHECKED);
    expect_text(rt, "a store of both formats", &checked, 0, "sound\n");
    let Left { text, .. } = call_over(rt, alloc, checked.disk, &asked());
    let before = front(rt, alloc, start.before, start.commands, commands);
    expect_replayed_behind(rt, alloc, before.as_str(), QUESTIONS, &text);
    text
}

// The same behind each front, from none of the commands to all.
fn answers<R: Abort + Threads + Wait + Sync>(
    rt: &R,
    alloc: Global,
    start: Start<'_>,
) -> Vec<Vec<u8>> {
    let mut answers = Vec::new(alloc);
    for commands in 0..=start.commands.len() {
        let text = answers_behind(rt, alloc, start, commands);
        answers.push(text).expect(rt, "memory");
    }
    answers
}

// Texts as slices.
fn texts<'a>(rt: &impl Abort, alloc: Global, answers: &'a [Vec<u8>]) -> Vec<&'a str> {
    let mut texts = Vec::new(alloc);
    for text in answers {
        let text = str::from_utf8(text).expect(rt, "a text");
        texts.push(text).expect(rt, "memory");
    }
    texts
}

// Stops the test where the store answers otherwise behind some of the commands than the plain warehouse, or where an
// image of a moment of the run of all of them does.
fn expect_stopped<R: Abort + Threads + Wait + Sync>(rt: &R, alloc: Global, start: Start<'_>) {
    let answers = answers(rt, alloc, start);
    let fronts = texts(rt, alloc, &answers);
    let left = left_behind(rt, alloc, start, start.commands.len());
    let asked = asked();
    let stopped = Stopped {
        asked: &asked,
        fronts: &fronts,
    };
    expect_moments(rt, alloc, stopped, &left);
}

#[test]
fn both_formats_stopped_at_each_moment(rt: HostRuntime) {
    let start = Start {
        store: STORE,
        before: BEFORE,
        commands: &COMMANDS,
    };
    expect_stopped(&rt, rt.alloc(), start);
}

// ---- the same in a journal that is stated anew

// Adds an area, and the records of runs behind its own where the last of these is one of them.
fn push_area(rt: &impl Abort, text: &mut String, digits: &str, last: Option<u32>) {
    let Some(last) = last else {
        text.push_str(digits).expect(rt, "memory");
        return;
    };
    // All but the gate behind the last record.
    let records = digits.strip_suffix("00").expect(rt, "a gate that is shut");
    text.push_str(records).expect(rt, "memory");
    push_runs(rt, text, last, RUNS);
}

// A store in whose live area so many runs stand behind the last one that the next opening states it anew.
fn filled(rt: &impl Abort, alloc: Global, store: &str, live: Area, last: u32) -> String {
    let (areas, lines) = store.split_once('\n').expect(rt, "files");
    let (zero, one) = areas.split_once('|').unwrap_or((areas, ""));
    let mut text = String::new(alloc);
    push_area(rt, &mut text, zero, (live == Area::Zero).then_some(last));
    text.push_str("|").expect(rt, "memory");
    push_area(rt, &mut text, one, (live == Area::One).then_some(last));
    text.push_str("\n").expect(rt, "memory");
    text.push_str(lines).expect(rt, "memory");
    text
}

// Stops the test of a store that the next opening doesn't state anew in this area, whatever moment or call of that, or
// of the commands behind it, it is stopped at. The answers have this status.
fn expect_stated<R: Abort + Threads + Wait + Sync>(
    rt: &R,
    alloc: Global,
    start: Start<'_>,
    status: u8,
    area: Area,
    number: u32,
) {
    let mut opened = left_behind(rt, alloc, start, 0);
    expect_checkpoint(rt, &mut opened.disk, area, number);
    let answers = answers_behind(rt, alloc, start, 0);
    let answers = str::from_utf8(&answers).expect(rt, "a text");
    expect_failing(rt, alloc, start.store, &asked(), (status, answers));
    expect_stopped(rt, alloc, start);
}

// How many of the commands are done in the first area.
const FIRST: usize = 3;

// From area 0 to area 1, where loads, a work and sums beyond 64 bits follow, and then back, with the other commands.
#[test]
fn both_formats_stated_anew_and_back(rt: HostRuntime) {
    let alloc = rt.alloc();
    let store = filled(&rt, alloc, STORE, Area::Zero, 1);
    let there = Start {
        store: store.as_str(),
        before: BEFORE,
        commands: &COMMANDS[..FIRST],
    };
    expect_stated(&rt, alloc, there, 1, Area::One, 1);
    let mut left = left_behind(&rt, alloc, there, FIRST);
    let stated = shown(&rt, alloc, &mut left.disk);
    let before = front(&rt, alloc, BEFORE, &COMMANDS, FIRST);
    // The runs behind the first one, and the one that stated the journal anew.
    let store = filled(&rt, alloc, stated.as_str(), Area::One, RUNS + 2);
    let back = Start {
        store: store.as_str(),
        before: before.as_str(),
        commands: &COMMANDS[FIRST..],
    };
    expect_stated(&rt, alloc, back, 0, Area::Zero, 2);
}
