// A run of which tables let their versions go one by one and together, stopped at any moment: each image answers as the
// store of a front of its commands, which answers as the plain warehouse does.
use crate::call::{Case, Left, PLAIN, call_over, run};
use crate::expected::expect_same;
use crate::sessions::replay::expect_replayed_behind;
use crate::stores::crashes::{Stopped, expect_moments};
use std::alloc::Global;
use std::process::Abort;
use std::str;
use std::sync::Wait;
use std::thread::Threads;

// Two tables and a view, loads of both and of one, expiries of each table and of both, works, and a pin that is held
// beside them.
static COMMANDS: [&str; 18] = [
    "table,t,a int;b int,v sum\n",
    "table,u,k int,m max\n",
    "view,w,t,a,v\n",
    "row,t,1,1,5\nrow,t,1,2,7\nrow,u,9,3\ncommit\n",
    "row,t,1,1,-2\nrow,t,2,1,4\ncommit\n",
    "pin,0\n",
    "expire,t,1\n",
    "work,t\n",
    "row,u,9,5\nrow,u,8,1\ncommit\n",
    "expire,1\n",
    "work,u\n",
    "release,1\n",
    "expire,u,2\n",
    "row,t,1,1,1\nrow,u,7,7\ncommit\n",
    "work,u\n",
    "expire,2\n",
    "work,t\n",
    "expire,t,3\n",
];

static QUESTIONS: &str = "query,t\n\
     query,u\n\
     query,w\n\
     query,t,0\n\
     query,u,0\n\
     query,w,1\n\
     query,u,1\n\
     query,t,2\n\
     query,u,2\n\
     explain,w\n\
     explain,u\n\
     pin,1\n\
     expire,2\n\
     query,w,1\n\
     commit\n\
     query,u\n";

// The first so many commands, as a script.
fn front(rt: &impl Abort, alloc: Global, commands: usize) -> String {
    let mut script = String::new(alloc);
    for command in COMMANDS.iter().take(commands) {
        script.push_str(command).expect(rt, "memory");
    }
    script
}

fn asked() -> Case<'static> {
    Case {
        script: QUESTIONS.as_bytes(),
        ..PLAIN
    }
}

// What the store answers behind a front that ended.
fn answers_behind<R: Abort + Threads + Wait + Sync>(
    rt: &R,
    alloc: Global,
    script: &str,
) -> Vec<u8> {
    let left = run(rt, alloc, script);
    expect_same(rt, &left.status, &0, &script);
    let Left { text, .. } = call_over(rt, alloc, left.disk, &asked());
    expect_replayed_behind(rt, alloc, script, QUESTIONS, &text);
    text
}

// The same behind each front, from none of the commands to all.
fn answers<R: Abort + Threads + Wait + Sync>(rt: &R, alloc: Global) -> Vec<Vec<u8>> {
    let mut answers = Vec::new(alloc);
    for commands in 0..=COMMANDS.len() {
        let script = front(rt, alloc, commands);
        let text = answers_behind(rt, alloc, script.as_str());
        answers.push(text).expect(rt, "memory");
    }
    answers
}

// Texts as slices.
fn texts<'a>(rt: &impl Abort, alloc: Global, answers: &'a [Vec<u8>]) -> Vec<&'a str> {
    let mut texts = Vec::new(alloc);
    for text in answers {
        let text = str::from_utf8(text).expect(rt, "a text");
        texts.push(text).expect(rt, "memory");
    }
    texts
}

#[test]
fn expiries_stopped_at_each_moment(rt: HostRuntime) {
    let alloc = rt.alloc();
    let answers = answers(&rt, alloc);
    let fronts = texts(&rt, alloc, &answers);
    let script = front(&rt, alloc, COMMANDS.len());
    let left = run(&rt, alloc, script.as_str());
    expect_same(&rt, &left.status, &0, &"the run that is stopped");
    let asked = asked();
    let stopped = Stopped {
        asked: &asked,
        fronts: &fronts,
    };
    expect_moments(&rt, alloc, stopped, &left);
}
