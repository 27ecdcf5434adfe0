// A run that is stopped at any moment leaves a front of what it did, with every command that it had acknowledged.
use crate::call::{Case, Left, PLAIN, call_over, run};
use crate::cases::expect_text;
use crate::expected::{expect_same, expect_that};
use mesa_disk::{Disk, MemDisk};
use mesa_model::{Entry, Kind};
use std::alloc::Global;
use std::process::Abort;
use std::str;
use std::sync::Wait;
use std::thread::Threads;

// Two tables and a view, two loads of both tables, an expiry, a work of each table between two loads, and a
// change of columns.
static SCRIPT: &str = "table,t,a int;b int,v sum\n\
     table,u,k int,m max\n\
     view,w,t,a,v\n\
     row,t,1,1,5\n\
     row,t,1,2,7\n\
     row,u,9,3\n\
     commit\n\
     row,t,1,1,-2\n\
     row,t,2,1,4\n\
     commit\n\
     expire,1\n\
     work,t\n\
     alter,u,add_value,n min,7\n\
     row,t,1,1,1\n\
     row,u,9,5,2\n\
     row,u,8,1,1\n\
     commit\n\
     work,u\n";

// The same, with works whose merges are cut into parts.
static SCRIPT_IN_PARTS: &str = "table,t,a int;b int,v sum\n\
     table,u,k int,m max\n\
     view,w,t,a,v\n\
     row,t,1,1,5\n\
     row,t,1,2,7\n\
     row,u,9,3\n\
     commit\n\
     row,t,1,1,-2\n\
     row,t,2,1,4\n\
     commit\n\
     expire,1\n\
     work,t,4\n\
     alter,u,add_value,n min,7\n\
     row,t,1,1,1\n\
     row,u,9,5,2\n\
     row,u,8,1,1\n\
     commit\n\
     work,u,2\n";

// What each image is asked: its tables, its view, which deltas a query reads, and one load more.
const QUESTIONS: &[u8] = b"query,t\n\
     query,u\n\
     query,w\n\
     explain,t\n\
     explain,u\n\
     explain,t,0\n\
     commit\n";

static ASKED: Case<'static> = Case {
    script: QUESTIONS,
    ..PLAIN
};

// The answers behind so many of the script's commands.
static FRONTS: [&str; 11] = [
    "0.1@0 refused no_table\n\
     0.2@1 refused no_table\n\
     0.3@2 refused no_table\n\
     0.4@3 refused no_table\n\
     0.5@4 refused no_table\n\
     0.6@5 refused no_table\n\
     0.7@7 loaded version=0 rows=0\n",
    "0.1@0 refused future asked=latest newest=none\n\
     0.2@1 refused no_table\n\
     0.3@2 refused no_table\n\
     0.4@3 refused future asked=latest newest=none\n\
     0.5@4 refused no_table\n\
     0.6@5 refused future asked=0 newest=none\n\
     0.7@7 loaded version=0 rows=0\n",
    "0.1@0 refused future asked=latest newest=none\n\
     0.2@1 refused future asked=latest newest=none\n\
     0.3@2 refused no_table\n\
     0.4@3 refused future asked=latest newest=none\n\
     0.5@4 refused future asked=latest newest=none\n\
     0.6@5 refused future asked=0 newest=none\n\
     0.7@7 loaded version=0 rows=0\n",
    "0.1@0 refused future asked=latest newest=none\n\
     0.2@1 refused future asked=latest newest=none\n\
     0.3@2 refused future asked=latest newest=none\n\
     0.4@3 refused future asked=latest newest=none\n\
     0.5@4 refused future asked=latest newest=none\n\
     0.6@5 refused future asked=0 newest=none\n\
     0.7@7 loaded version=0 rows=0\n",
    "0.1@0 rows 2 version=0\n\
     1,1,5\n\
     1,2,7\n\
     0.2@2 rows 1 version=0\n\
     9,3\n\
     0.3@4 rows 1 version=0\n\
     1,12\n\
     0.4@6 spans 1\n\
     [0,0]\n\
     0.5@7 spans 1\n\
     [0,0]\n\
     0.6@8 spans 1\n\
     [0,0]\n\
     0.7@10 loaded version=1 rows=0\n",
    "0.1@0 rows 3 version=1\n\
     1,1,3\n\
     1,2,7\n\
     2,1,4\n\
     0.2@2 rows 1 version=1\n\
     9,3\n\
     0.3@4 rows 2 version=1\n\
     1,10\n\
     2,4\n\
     0.4@6 spans 2\n\
     [0,0]\n\
     [1,1]\n\
     0.5@7 spans 2\n\
     [0,0]\n\
     [1,1]\n\
     0.6@8 spans 1\n\
     [0,0]\n\
     0.7@10 loaded version=2 rows=0\n",
    "0.1@0 rows 3 version=1\n\
     1,1,3\n\
     1,2,7\n\
     2,1,4\n\
     0.2@2 rows 1 version=1\n\
     9,3\n\
     0.3@4 rows 2 version=1\n\
     1,10\n\
     2,4\n\
     0.4@6 spans 2\n\
     [0,0]\n\
     [1,1]\n\
     0.5@7 spans 2\n\
     [0,0]\n\
     [1,1]\n\
     0.6@8 refused stale asked=0 oldest=1\n\
     0.7@10 loaded version=2 rows=0\n",
    "0.1@0 rows 3 version=1\n\
     1,1,3\n\
     1,2,7\n\
     2,1,4\n\
     0.2@2 rows 1 version=1\n\
     9,3\n\
     0.3@4 rows 2 version=1\n\
     1,10\n\
     2,4\n\
     0.4@6 spans 1\n\
     [0,1]\n\
     0.5@7 spans 2\n\
     [0,0]\n\
     [1,1]\n\
     0.6@8 refused stale asked=0 oldest=1\n\
     0.7@10 loaded version=2 rows=0\n",
    "0.1@0 rows 3 version=1\n\
     1,1,3\n\
     1,2,7\n\
     2,1,4\n\
     0.2@2 rows 1 version=1\n\
     9,3,7\n\
     0.3@4 rows 2 version=1\n\
     1,10\n\
     2,4\n\
     0.4@6 spans 1\n\
     [0,1]\n\
     0.5@7 spans 2\n\
     [0,0]\n\
     [1,1]\n\
     0.6@8 refused stale asked=0 oldest=1\n\
     0.7@10 loaded version=2 rows=0\n",
    "0.1@0 rows 3 version=2\n\
     1,1,4\n\
     1,2,7\n\
     2,1,4\n\
     0.2@2 rows 2 version=2\n\
     8,1,1\n\
     9,5,2\n\
     0.3@4 rows 2 version=2\n\
     1,11\n\
     2,4\n\
     0.4@6 spans 2\n\
     [0,1]\n\
     [2,2]\n\
     0.5@7 spans 3\n\
     [0,0]\n\
     [1,1]\n\
     [2,2]\n\
     0.6@8 refused stale asked=0 oldest=1\n\
     0.7@10 loaded version=3 rows=0\n",
    "0.1@0 rows 3 version=2\n\
     1,1,4\n\
     1,2,7\n\
     2,1,4\n\
     0.2@2 rows 2 version=2\n\
     8,1,1\n\
     9,5,2\n\
     0.3@4 rows 2 version=2\n\
     1,11\n\
     2,4\n\
     0.4@6 spans 2\n\
     [0,1]\n\
     [2,2]\n\
     0.5@7 spans 2\n\
     [0,1]\n\
     [2,2]\n\
     0.6@8 refused stale asked=0 oldest=1\n\
     0.7@10 loaded version=3 rows=0\n",
];

// What a check says of each image.
static CHECKED: Case<'static> = Case {
    words: &["check"],
    ..PLAIN
};

// How many commands a history has acknowledged by a moment: up to the last whose last turn was over by then.
fn acknowledged(history: &[Entry], moment: u64) -> usize {
    let mut count = 0;
    for entry in history {
        let is_last = matches!(entry.kind, Kind::Decide | Kind::Close);
        if is_last && entry.moment <= moment {
            count = entry.command as usize;
        }
    }
    count
}

/// A run that is stopped: what each image is asked, and the answers behind so many of the run's commands.
#[derive(Clone, Copy)]
pub struct Stopped<'a> {
    pub asked: &'a Case<'a>,
    pub fronts: &'a [&'a str],
}

// Whether these are the answers behind so many commands.
fn is_front(fronts: &[&str], commands: usize, answers: &str) -> bool {
    match fronts.get(commands) {
        Some(front) => *front == answers,
        None => false,
    }
}

// Stops the test where an image answered neither as before the command that was on its way nor as behind it.
fn expect_answers(rt: &impl Abort, fronts: &[&str], left: &Left, moment: u64, commands: usize) {
    let answers = str::from_utf8(&left.text).unwrap_or("no text");
    let next = commands.wrapping_add(1);
    let is_either = is_front(fronts, commands, answers) || is_front(fronts, next, answers);
    let case = ("the moment and the commands before it", moment, commands);
    expect_that(rt, is_either, &answers, &case);
}

// The same of each image of a moment.
fn expect_moment<R: Abort + Threads + Wait + Sync>(
    rt: &R,
    alloc: Global,
    stopped: Stopped<'_>,
    disk: &MemDisk,
    moment: u64,
    commands: usize,
) {
    for pick in 0..5u8 {
        let image = disk.image(moment, pick).expect(rt, "memory");
        let checked = call_over(rt, alloc, image, &CHECKED);
        expect_text(rt, "the check of an image", &checked, 0, "sound\n");
        let left = call_over(rt, alloc, checked.disk, stopped.asked);
        expect_answers(rt, stopped.fronts, &left, moment, commands);
    }
}

/// The same of each moment of the run that left this.
pub fn expect_moments<R: Abort + Threads + Wait + Sync>(
    rt: &R,
    alloc: Global,
    stopped: Stopped<'_>,
    left: &Left,
) {
    for moment in 0..=left.disk.clock() {
        let commands = acknowledged(&left.history, moment);
        expect_moment(rt, alloc, stopped, &left.disk, moment, commands);
    }
}

// The same of a script of this test.
fn expect_stopped<R: Abort + Threads + Wait + Sync>(rt: &R, alloc: Global, script: &str) {
    let left = run(rt, alloc, script);
    expect_same(rt, &left.status, &0, &"the run that is stopped");
    let stopped = Stopped {
        asked: &ASKED,
        fronts: &FRONTS,
    };
    expect_moments(rt, alloc, stopped, &left);
}

#[test]
fn a_run_stopped_at_each_moment(rt: HostRuntime) {
    expect_stopped(&rt, rt.alloc(), SCRIPT);
}

#[test]
fn a_run_in_parts_stopped_at_each_moment(rt: HostRuntime) {
    expect_stopped(&rt, rt.alloc(), SCRIPT_IN_PARTS);
}
