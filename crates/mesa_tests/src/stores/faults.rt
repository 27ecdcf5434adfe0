// Calls of the devices that fail: of drafts and readers, which refuse one command, and of the disk.
use crate::call::{Case, PLAIN};
use crate::cases::{expect_cases, expect_over};
use crate::stores::shown::spelled;
use std::alloc::Global;
use std::process::Abort;
use std::sync::Wait;
use std::thread::Threads;

/// The number of the first file that run 1 adopts.
const RUN_1: u64 = 1 << 40;

// A file of one block takes two appends: its block and its tail.
static DRAFTS: [Case<'static>; 5] = [
    Case {
        name: "a second load's draft that isn't made",
        draft_fails: &[(1, 0)],
        script: SECOND_LOAD,
        status: 1,
        text: SECOND_REFUSED,
        ..PLAIN
    },
    Case {
        name: "a second load's draft that isn't written",
        draft_fails: &[(1, 1)],
        script: SECOND_LOAD,
        status: 1,
        text: SECOND_REFUSED,
        ..PLAIN
    },
    Case {
        name: "a work's draft that isn't made, and one that isn't written",
        draft_fails: &[(2, 0), (3, 1)],
        script: WORKS,
        status: 1,
        text: TWO_WORKS_REFUSED,
        ..PLAIN
    },
    Case {
        name: "the same of works in parts",
        draft_fails: &[(2, 0), (3, 1)],
        script: WORKS_IN_PARTS,
        status: 1,
        text: TWO_WORKS_REFUSED,
        ..PLAIN
    },
    // The view's file of the first load: no version is there, and the table's file of that load isn't kept.
    Case {
        name: "a view's draft",
        draft_fails: &[(1, 0)],
        script: b"table,t,a int;b int,v sum\n\
         view,w,t,a,v\n\
         row,t,1,1,5\n\
         commit\n\
         query,w\n\
         row,t,1,1,5\n\
         commit\n\
         query,w\n",
        status: 1,
        text: "0.1@0 table t\n\
         0.2@1 view w\n\
         0.3@3 refused write_fault\n\
         0.4@4 refused future asked=latest newest=none\n\
         0.5@6 loaded version=0 rows=1\n\
         0.6@7 rows 1 version=0\n\
         1,5\n",
        ..PLAIN
    },
];

const SECOND_LOAD: &[u8] = b"table,t,k int,v sum\n\
     row,t,1,5\n\
     commit\n\
     row,t,1,6\n\
     commit\n\
     query,t\n\
     query,t\n\
     row,t,1,7\n\
     commit\n";

const SECOND_REFUSED: &str = "0.1@0 table t\n\
     0.2@2 loaded version=0 rows=1\n\
     0.3@4 refused write_fault\n\
     0.4@5 rows 1 version=0\n\
     1,5\n\
     0.5@7 rows 1 version=0\n\
     1,5\n\
     0.6@10 loaded version=1 rows=1\n";

const WORKS: &[u8] = b"table,t,k int,v sum\n\
     row,t,1,5\n\
     commit\n\
     row,t,1,6\n\
     commit\n\
     expire,1\n\
     work,t\n\
     work,t\n\
     work,t\n\
     query,t\n";

const WORKS_IN_PARTS: &[u8] = b"table,t,k int,v sum\n\
     row,t,1,5\n\
     commit\n\
     row,t,1,6\n\
     commit\n\
     expire,1\n\
     work,t,2\n\
     work,t,4\n\
     work,t,8\n\
     query,t\n";

const TWO_WORKS_REFUSED: &str = "0.1@0 table t\n\
     0.2@2 loaded version=0 rows=1\n\
     0.3@4 loaded version=1 rows=1\n\
     0.4@5 expired oldest=1\n\
     0.5@7 refused write_fault\n\
     0.6@9 refused write_fault\n\
     0.7@12 swapped 0 1\n\
     0.8@13 rows 1 version=1\n\
     1,11\n";

#[test]
fn drafts_that_fail(rt: HostRuntime) {
    expect_cases(&rt, rt.alloc(), &DRAFTS);
}

const QUERIES: &[u8] = b"table,t,k int,v sum\n\
     row,t,1,5\n\
     commit\n\
     row,t,1,6\n\
     commit\n\
     query,t\n\
     query,t\n";

// A file's first reader in a run reads its tail, in the first turn of its query or work, and then blocks.
const UNOPENED: Case<'static> = Case {
    name: "a work that can't open a file",
    read_fails: Some((RUN_1 + 1, 0)),
    script: WORKS,
    status: 1,
    text: "0.1@0 table t\n\
     0.2@2 loaded version=0 rows=1\n\
     0.3@4 loaded version=1 rows=1\n\
     0.4@5 expired oldest=1\n\
     0.5@6 refused read_fault\n\
     0.6@9 swapped 0 1\n\
     0.7@10 idle\n\
     0.8@11 rows 1 version=1\n\
     1,11\n",
    ..PLAIN
};

const UNREAD: Case<'static> = Case {
    name: "a work that can't read a block",
    read_fails: Some((RUN_1, 1)),
    script: WORKS,
    status: 1,
    text: "0.1@0 table t\n\
     0.2@2 loaded version=0 rows=1\n\
     0.3@4 loaded version=1 rows=1\n\
     0.4@5 expired oldest=1\n\
     0.5@7 refused read_fault\n\
     0.6@10 swapped 0 1\n\
     0.7@11 idle\n\
     0.8@12 rows 1 version=1\n\
     1,11\n",
    ..PLAIN
};

static READS: [Case<'static>; 6] = [
    Case {
        name: "a query that can't open a file",
        read_fails: Some((RUN_1 + 1, 0)),
        script: QUERIES,
        status: 1,
        text: "0.1@0 table t\n\
         0.2@2 loaded version=0 rows=1\n\
         0.3@4 loaded version=1 rows=1\n\
         0.4@5 refused read_fault\n\
         0.5@6 rows 1 version=1\n\
         1,11\n",
        ..PLAIN
    },
    Case {
        name: "a query that can't read a block",
        read_fails: Some((RUN_1 + 1, 1)),
        script: QUERIES,
        status: 1,
        text: "0.1@0 table t\n\
         0.2@2 loaded version=0 rows=1\n\
         0.3@4 loaded version=1 rows=1\n\
         0.4@5 refused read_fault\n\
         0.5@7 rows 1 version=1\n\
         1,11\n",
        ..PLAIN
    },
    UNOPENED,
    UNREAD,
    Case {
        name: "a work in parts that can't open a file",
        script: WORKS_IN_PARTS,
        ..UNOPENED
    },
    Case {
        name: "a work in parts that can't read a block",
        script: WORKS_IN_PARTS,
        ..UNREAD
    },
];

#[test]
fn reads_that_fail(rt: HostRuntime) {
    expect_cases(&rt, rt.alloc(), &READS);
}

const LOADS: &[u8] = b"table,t,k int,v sum\n\
     row,t,1,5\n\
     commit\n\
     row,t,1,6\n\
     commit\n\
     query,t\n";

/// Calls of the disk that fail, each in a run of its own, from the first to the last; what such a run prints,
/// and what the next one answers.
struct Failing {
    calls: (u64, u64),
    first: Case<'static>,
    next: Case<'static>,
}

const FIRST: Case<'static> = Case {
    name: "a run in which a call of the disk fails",
    script: LOADS,
    ..PLAIN
};

const NEXT: Case<'static> = Case {
    name: "the run behind one in which a call of the disk failed",
    script: b"query,t\n",
    ..PLAIN
};

// The calls on an empty disk. Opening reads both areas of the journal and lists the files, syncs, writes the first gate and
// syncs, and appends the run's record by four calls: its body, a sync, its gate, a sync. A table takes four
// calls, a load five, of which the first adopts its file, and the query a call for each of its two readers.
// Of a record whose last sync failed the gate is open on this disk: the record is there.
static CALLS: [Failing; 9] = [
    Failing {
        calls: (0, 9),
        first: Case {
            status: 6,
            text: "mesa: disk fault\n",
            ..FIRST
        },
        next: Case {
            status: 1,
            text: "0.1@0 refused no_table\n",
            ..NEXT
        },
    },
    Failing {
        calls: (10, 12),
        first: Case {
            status: 1,
            text: "0.1@0 refused write_fault\n\
         0.2@2 refused closed position=0\n\
         0.3@4 refused closed position=0\n\
         0.4@5 refused closed position=0\n",
            ..FIRST
        },
        next: Case {
            status: 1,
            text: "0.1@0 refused no_table\n",
            ..NEXT
        },
    },
    Failing {
        calls: (13, 13),
        first: Case {
            status: 1,
            text: "0.1@0 refused write_fault\n\
         0.2@2 refused closed position=0\n\
         0.3@4 refused closed position=0\n\
         0.4@5 refused closed position=0\n",
            ..FIRST
        },
        next: Case {
            status: 1,
            text: "0.1@0 refused future asked=latest newest=none\n",
            ..NEXT
        },
    },
    Failing {
        calls: (14, 17),
        first: Case {
            status: 1,
            text: "0.1@0 table t\n\
         0.2@2 refused write_fault\n\
         0.3@4 refused closed position=2\n\
         0.4@5 refused closed position=2\n",
            ..FIRST
        },
        next: Case {
            status: 1,
            text: "0.1@0 refused future asked=latest newest=none\n",
            ..NEXT
        },
    },
    Failing {
        calls: (18, 18),
        first: Case {
            status: 1,
            text: "0.1@0 table t\n\
         0.2@2 refused write_fault\n\
         0.3@4 refused closed position=2\n\
         0.4@5 refused closed position=2\n",
            ..FIRST
        },
        next: Case {
            status: 0,
            text: "0.1@0 rows 1 version=0\n1,5\n",
            ..NEXT
        },
    },
    Failing {
        calls: (19, 22),
        first: Case {
            status: 1,
            text: "0.1@0 table t\n\
         0.2@2 loaded version=0 rows=1\n\
         0.3@4 refused write_fault\n\
         0.4@5 refused closed position=4\n",
            ..FIRST
        },
        next: Case {
            status: 0,
            text: "0.1@0 rows 1 version=0\n1,5\n",
            ..NEXT
        },
    },
    Failing {
        calls: (23, 23),
        first: Case {
            status: 1,
            text: "0.1@0 table t\n\
         0.2@2 loaded version=0 rows=1\n\
         0.3@4 refused write_fault\n\
         0.4@5 refused closed position=4\n",
            ..FIRST
        },
        next: Case {
            status: 0,
            text: "0.1@0 rows 1 version=1\n1,11\n",
            ..NEXT
        },
    },
    Failing {
        calls: (24, 25),
        first: Case {
            status: 1,
            text: "0.1@0 table t\n\
         0.2@2 loaded version=0 rows=1\n\
         0.3@4 loaded version=1 rows=1\n\
         0.4@5 refused read_fault\n",
            ..FIRST
        },
        next: Case {
            status: 0,
            text: "0.1@0 rows 1 version=1\n1,11\n",
            ..NEXT
        },
    },
    // The next run's first call, which reads an area of the journal.
    Failing {
        calls: (26, 26),
        first: Case {
            status: 0,
            text: "0.1@0 table t\n\
         0.2@2 loaded version=0 rows=1\n\
         0.3@4 loaded version=1 rows=1\n\
         0.4@5 rows 1 version=1\n\
         1,11\n",
            ..FIRST
        },
        next: Case {
            status: 6,
            text: "mesa: disk fault\n",
            ..NEXT
        },
    },
];

// A run in which a call fails, and the next one.
fn expect_call<R: Abort + Threads + Wait + Sync>(
    rt: &R,
    alloc: Global,
    failing: &Failing,
    call: u64,
) {
    let disk = spelled(rt, alloc, "", &[call]);
    let disk = expect_over(rt, alloc, disk, &failing.first);
    let _disk = expect_over(rt, alloc, disk, &failing.next);
}

#[test]
fn each_call_of_the_disk_failing(rt: HostRuntime) {
    for failing in &CALLS {
        let (first, last) = failing.calls;
        for call in first..=last {
            expect_call(&rt, rt.alloc(), failing, call);
        }
    }
}
