// Works: their leases, what they swap in, and what plans read afterwards.
use crate::call::{Case, PLAIN, run};
use crate::cases::{LongCase, expect_cases, expect_long_cases, expect_text};
use crate::expected::expect_same;
use crate::stores::shown::shown;
use crate::texts::{Part, whole};
use std::alloc::Global;
use std::process::Abort;
use std::sync::Wait;
use std::thread::Threads;

static CASES: [Case<'static>; 6] = [
    Case {
        name: "a lease of one turn",
        script: b"lease,1\n\
         table,t,k int,v sum\n\
         row,t,1,5\n\
         commit\n\
         row,t,1,6\n\
         commit\n\
         expire,1\n\
         work,t\n",
        status: 1,
        turns: Some(8),
        text: "0.1@0 table t\n\
         0.2@2 loaded version=0 rows=1\n\
         0.3@4 loaded version=1 rows=1\n\
         0.4@5 expired oldest=1\n\
         0.5@7 refused lost lease=1 holder=none\n",
        ..PLAIN
    },
    Case {
        name: "a lease of two turns",
        script: b"lease,2\n\
         table,t,k int,v sum\n\
         row,t,1,5\n\
         commit\n\
         row,t,1,6\n\
         commit\n\
         expire,1\n\
         work,t\n",
        status: 0,
        turns: Some(9),
        text: "0.1@0 table t\n\
         0.2@2 loaded version=0 rows=1\n\
         0.3@4 loaded version=1 rows=1\n\
         0.4@5 expired oldest=1\n\
         0.5@8 swapped 0 1\n",
        ..PLAIN
    },
    Case {
        name: "a lease of one turn, in parts",
        script: b"lease,1\n\
         table,t,k int,v sum\n\
         row,t,1,5\n\
         commit\n\
         row,t,1,6\n\
         commit\n\
         expire,1\n\
         work,t,4\n",
        status: 1,
        turns: Some(8),
        text: "0.1@0 table t\n\
         0.2@2 loaded version=0 rows=1\n\
         0.3@4 loaded version=1 rows=1\n\
         0.4@5 expired oldest=1\n\
         0.5@7 refused lost lease=1 holder=none\n",
        ..PLAIN
    },
    Case {
        name: "replace across base",
        script: b"table,t,k int,v replace\n\
         row,t,1,5\n\
         commit\n\
         row,t,1,6\n\
         commit\n\
         row,t,1,4\n\
         commit\n\
         expire,1\n\
         work,t\n\
         query,t,1\n\
         query,t\n",
        status: 0,
        turns: Some(15),
        text: "0.1@0 table t\n\
         0.2@2 loaded version=0 rows=1\n\
         0.3@4 loaded version=1 rows=1\n\
         0.4@6 loaded version=2 rows=1\n\
         0.5@7 expired oldest=1\n\
         0.6@10 swapped 0 1\n\
         0.7@11 rows 1 version=1\n\
         1,6\n\
         0.8@13 rows 1 version=2\n\
         1,4\n",
        ..PLAIN
    },
    Case {
        name: "a work in no parts",
        script: b"table,t,k int,v sum\n\
         work,t,0\n",
        status: 3,
        turns: Some(0),
        text: "mesa: script place=2 reason=number\n",
        left: Some(""),
        ..PLAIN
    },
    // A work of a view, of a table that isn't there and of one with nothing to do; a table that is made
    // when versions have expired begins with an empty base.
    Case {
        name: "works that are not granted",
        script: b"table,t,k int,v sum\n\
         view,w,t,k,v\n\
         work,w\n\
         work,u\n\
         work,t\n\
         commit\n\
         commit\n\
         expire,1\n\
         table,u,k int,v sum\n\
         work,u\n\
         explain,u\n\
         explain,w,0\n\
         explain,w\n\
         work,t\n\
         explain,w\n",
        status: 1,
        text: "0.1@0 table t\n\
         0.2@1 view w\n\
         0.3@2 refused no_table\n\
         0.4@3 refused no_table\n\
         0.5@4 idle\n\
         0.6@6 loaded version=0 rows=0\n\
         0.7@8 loaded version=1 rows=0\n\
         0.8@9 expired oldest=1\n\
         0.9@10 table u\n\
         0.10@13 swapped 0 1\n\
         0.11@14 spans 1\n\
         [0,1]\n\
         0.12@15 refused stale asked=0 oldest=1\n\
         0.13@16 spans 2\n\
         [0,0]\n\
         [1,1]\n\
         0.14@19 swapped 0 1\n\
         0.15@20 spans 1\n\
         [0,1]\n",
        ..PLAIN
    },
];

#[test]
fn works_and_leases(rt: HostRuntime) {
    expect_cases(&rt, rt.alloc(), &CASES);
}

/// A script whose work is cut into parts, what stands before the work and behind it, and what is printed.
struct Parted {
    before: &'static [Part],
    behind: &'static str,
    text: &'static str,
}

static ACROSS_BASE: Parted = Parted {
    before: &[Part::Spelled(
        "table,t,k int,v replace\n\
         row,t,1,5\n\
         commit\n\
         row,t,1,6\n\
         commit\n\
         row,t,1,4\n\
         commit\n\
         expire,1\n",
    )],
    behind: "query,t,1\nquery,t\n",
    text: "0.1@0 table t\n\
     0.2@2 loaded version=0 rows=1\n\
     0.3@4 loaded version=1 rows=1\n\
     0.4@6 loaded version=2 rows=1\n\
     0.5@7 expired oldest=1\n\
     0.6@10 swapped 0 1\n\
     0.7@11 rows 1 version=1\n\
     1,6\n\
     0.8@13 rows 1 version=2\n\
     1,4\n",
};

// Two loads of three blocks and of two. They have every sixth key in common.
static BLOCKS: Parted = Parted {
    before: &[
        Part::Spelled("table,t,k int;c text,v sum;l replace\nview,w,t,c,v\n"),
        Part::Lines(0, 3_000, "row,t,{0},a,{1},{2}\n", [(2, 0), (1, 1), (1, 0)]),
        Part::Spelled("commit\n"),
        Part::Lines(0, 2_000, "row,t,{0},a,{1},{2}\n", [(3, 0), (1, 7), (1, 0)]),
        Part::Spelled("commit\nexpire,1\n"),
    ],
    behind: "query,w\nquery,t,,k>5990\n",
    text: "0.1@0 table t\n\
     0.2@1 view w\n\
     0.3@3 loaded version=0 rows=3000\n\
     0.4@5 loaded version=1 rows=2000\n\
     0.5@6 expired oldest=1\n\
     0.6@9 swapped 0 1\n\
     0.7@10 rows 1 version=1\n\
     a,6514500\n\
     0.8@12 rows 6 version=1\n\
     5991,a,2004,1997\n\
     5992,a,2997,2996\n\
     5994,a,5003,1998\n\
     5996,a,2999,2998\n\
     5997,a,2006,1999\n\
     5998,a,3000,2999\n",
};

// Runs a script with this work, and gives the store that it leaves.
fn store_of<R: Abort + Threads + Wait + Sync>(
    rt: &R,
    alloc: Global,
    parted: &Parted,
    work: &str,
) -> String {
    let mut script = whole(rt, alloc, parted.before);
    script.push_str(work).expect(rt, "memory");
    script.push_str(parted.behind).expect(rt, "memory");
    let mut left = run(rt, alloc, script.as_str());
    expect_text(rt, work, &left, 0, parted.text);
    shown(rt, alloc, &mut left.disk)
}

// Stops the test where these works leave other stores than one that isn't cut.
fn expect_parts<R: Abort + Threads + Wait + Sync>(
    rt: &R,
    alloc: Global,
    parted: &Parted,
    works: &[&str],
) {
    let uncut = store_of(rt, alloc, parted, "work,t\n");
    for work in works {
        let store = store_of(rt, alloc, parted, work);
        expect_same(rt, &store.as_str(), &uncut.as_str(), work);
    }
}

#[test]
fn works_in_parts(rt: HostRuntime) {
    let works = [
        "work,t,1\n",
        "work,t,2\n",
        "work,t,3\n",
        "work,t,4\n",
        "work,t,5\n",
        "work,t,6\n",
        "work,t,7\n",
        "work,t,8\n",
    ];
    expect_parts(&rt, rt.alloc(), &ACROSS_BASE, &works);
}

#[test]
fn works_of_blocks_in_parts(rt: HostRuntime) {
    let works = ["work,t,2\n", "work,t,3\n", "work,t,8\n"];
    expect_parts(&rt, rt.alloc(), &BLOCKS, &works);
}

// 93 versions, and works on what they leave.
const VERSIONS: &[Part] = &[
    Part::Spelled("table,t,k int,v sum\n"),
    Part::Times(93, "commit\n"),
    Part::Spelled(
        "expire,60\n\
         work,t\n\
         work,t\n\
         work,t\n\
         work,t\n\
         work,t\n\
         explain,t,91\n\
         explain,t,75\n\
         expire,75\n\
         work,t\n\
         explain,t,90\n",
    ),
];

// The last plan has the singletons from 76 to 90.
const VERSIONS_PRINTED: &[Part] = &[
    Part::Spelled("0.1@0 table t\n"),
    Part::Lines(
        0,
        93,
        "0.{0}@{1} loaded version={2} rows=0\n",
        [(1, 2), (2, 2), (1, 0)],
    ),
    Part::Spelled(
        "0.95@187 expired oldest=60\n\
         0.96@190 swapped 0 60\n\
         0.97@193 swapped 61 70\n\
         0.98@196 swapped 61 80\n\
         0.99@199 swapped 61 90\n\
         0.100@200 idle\n\
         0.101@201 spans 3\n\
         [0,60]\n\
         [61,90]\n\
         [91,91]\n\
         0.102@202 spans 7\n\
         [0,60]\n\
         [61,70]\n\
         [71,71]\n\
         [72,72]\n\
         [73,73]\n\
         [74,74]\n\
         [75,75]\n\
         0.103@203 expired oldest=75\n\
         0.104@206 swapped 0 75\n\
         0.105@207 spans 16\n\
         [0,75]\n",
    ),
    Part::Lines(76, 91, "[{0},{0}]\n", [(1, 0); 3]),
];

// A base drops the cumulatives that straddle its end.
static LONG: [LongCase; 1] = [LongCase {
    name: "cumulatives of ten versions, and a base behind them",
    script: VERSIONS,
    status: 0,
    text: VERSIONS_PRINTED,
}];

#[test]
fn ten_version_cumulatives(rt: HostRuntime) {
    expect_long_cases(&rt, rt.alloc(), &LONG);
}
