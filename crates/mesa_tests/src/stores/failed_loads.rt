// What a load means that wasn't answered by `loaded`: whether its batch is there is told by a question for a version
// that can't be.
use crate::call::{Case, Left, PLAIN, call_over};
use crate::cases::expect_text;
use crate::stores::shown::spelled;
use mesa_disk::MemDisk;
use mesa_model::Entry;
use std::alloc::Global;
use std::process::Abort;
use std::sync::Wait;
use std::thread::Threads;

/// A run whose second load isn't answered by `loaded`, and what the next run finds.
struct FailedLoad {
    first: Case<'static>,
    /// The calls of the disk that fail.
    fails: &'static [u64],
    /// The run is stopped before the last sync of its second load, and this is left of the calls behind the one before.
    stop: Option<u8>,
    next: Case<'static>,
}

const LOADS: Case<'static> = Case {
    script: b"table,t,k int,v sum\n\
         row,t,1,5\n\
         commit\n\
         row,t,1,6\n\
         commit\n\
         query,t,4294967295\n\
         query,t\n",
    ..PLAIN
};

const ASKED: Case<'static> = Case {
    script: b"query,t,4294967295\nquery,t\n",
    status: 1,
    ..PLAIN
};

// The batch isn't there.
const WITHOUT: Case<'static> = Case {
    name: "the next run, without the batch",
    text: "0.1@0 refused future asked=4294967295 newest=0\n\
         0.2@1 rows 1 version=0\n\
         1,5\n",
    ..ASKED
};

const WITH: Case<'static> = Case {
    name: "the next run, with the batch",
    text: "0.1@0 refused future asked=4294967295 newest=1\n\
         0.2@1 rows 1 version=1\n\
         1,11\n",
    ..ASKED
};

// The store is closed, so the question waits for the next run.
const CLOSED: Case<'static> = Case {
    status: 1,
    text: "0.1@0 table t\n\
         0.2@2 loaded version=0 rows=1\n\
         0.3@4 refused write_fault\n\
         0.4@5 refused closed position=4\n\
         0.5@6 refused closed position=4\n",
    ..LOADS
};

const LOADED: Case<'static> = Case {
    name: "a run that is stopped within its second load",
    status: 1,
    text: "0.1@0 table t\n\
         0.2@2 loaded version=0 rows=1\n\
         0.3@4 loaded version=1 rows=1\n\
         0.4@5 refused future asked=4294967295 newest=1\n\
         0.5@6 rows 1 version=1\n\
         1,11\n",
    ..LOADS
};

static CASES: [FailedLoad; 7] = [
    // A draft failed: nothing of the batch is there, and the session goes on.
    FailedLoad {
        first: Case {
            name: "a draft that fails",
            draft_fails: &[(1, 1)],
            status: 1,
            text: "0.1@0 table t\n\
                 0.2@2 loaded version=0 rows=1\n\
                 0.3@4 refused write_fault\n\
                 0.4@5 refused future asked=4294967295 newest=0\n\
                 0.5@6 rows 1 version=0\n\
                 1,5\n",
            ..LOADS
        },
        fails: &[],
        stop: None,
        next: WITHOUT,
    },
    // The disk failed: at the first call of the load, before its record's gate is open, and behind that.
    FailedLoad {
        first: Case {
            name: "the adoption of a file that fails",
            ..CLOSED
        },
        fails: &[19],
        stop: None,
        next: WITHOUT,
    },
    FailedLoad {
        first: Case {
            name: "the write of a gate that fails",
            ..CLOSED
        },
        fails: &[22],
        stop: None,
        next: WITHOUT,
    },
    FailedLoad {
        first: Case {
            name: "the last sync that fails",
            ..CLOSED
        },
        fails: &[23],
        stop: None,
        next: WITH,
    },
    // The run was stopped before the last sync of the load: the gate's write is left or not.
    FailedLoad {
        first: LOADED,
        fails: &[],
        stop: Some(0),
        next: WITHOUT,
    },
    FailedLoad {
        first: LOADED,
        fails: &[],
        stop: Some(1),
        next: WITH,
    },
    // The sink failed at the load's own block: the batch is there.
    FailedLoad {
        first: Case {
            name: "a sink that fails",
            sink_fails: &[2],
            status: 5,
            text: "0.1@0 table t\n0.2@2 loaded version=0 rows=1\n",
            ..LOADS
        },
        fails: &[],
        stop: None,
        next: WITH,
    },
];

// The moment before the last call of the second load, whose last turn is the fifth of the run.
fn moment_of(rt: &impl Abort, history: &[Entry]) -> u64 {
    let turn = history.get(4).expect(rt, "a fifth turn");
    turn.moment.wrapping_sub(1)
}

// The disk that the next run finds.
fn disk_behind(rt: &impl Abort, left: Left, stop: Option<u8>) -> MemDisk {
    let Some(pick) = stop else {
        return left.disk;
    };
    let moment = moment_of(rt, &left.history);
    left.disk.image(moment, pick).expect(rt, "memory")
}

fn expect_load<R: Abort + Threads + Wait + Sync>(rt: &R, alloc: Global, load: &FailedLoad) {
    let disk = spelled(rt, alloc, "", load.fails);
    let left = call_over(rt, alloc, disk, &load.first);
    expect_text(
        rt,
        load.first.name,
        &left,
        load.first.status,
        load.first.text,
    );
    let disk = disk_behind(rt, left, load.stop);
    let left = call_over(rt, alloc, disk, &load.next);
    let name = format!(in alloc;
        "{} behind {} {:?}",
        load.next.name, load.first.name, load.stop
    );
    let name = name.expect(rt, "memory");
    expect_text(rt, name.as_str(), &left, load.next.status, load.next.text);
}

#[test]
fn loads_that_are_not_answered(rt: HostRuntime) {
    for load in &CASES {
        expect_load(&rt, rt.alloc(), load);
    }
}
