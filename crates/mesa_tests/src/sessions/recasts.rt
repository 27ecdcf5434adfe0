// Recasts beside other sessions: what each prints that is held until others have come somewhere, and what eight print in
// whatever order their turns come.
use crate::call::{Case, PLAIN, run};
use crate::cases::expect_cases;
use crate::devices::{Hold, Place};
use crate::expected::expect_same;
use crate::sessions::beside::push_session;
use crate::sessions::replay::expect_replayed;
use std::alloc::Global;
use std::process::Abort;

/// The number of the first file that run 1 adopts.
const RUN_1: u64 = 1 << 40;

static CASES: [Case<'static>; 4] = [
    // Session 1 rewrites until session 2, whose lease came once its own had ended, has rewritten too. Its file is
    // never adopted.
    Case {
        name: "lost lease, of recasts",
        script: b"lease,3\n\
         table,t,a int;b int,v sum\n\
         row,t,1,1,5\n\
         row,t,2,1,6\n\
         commit\n\
         session\n\
         recast,t,a,v\n\
         session\n\
         query,t\n\
         recast,t,b,v\n",
        holds: &[
            Hold {
                session: 2,
                at: Place::Started,
                until: (1, Place::Merged),
            },
            Hold {
                session: 1,
                at: Place::Merged,
                until: (2, Place::Merged),
            },
            Hold {
                session: 2,
                at: Place::Merged,
                until: (1, Place::Printed),
            },
        ],
        status: 1,
        text: "0.1@0 table t\n\
         0.2@2 loaded version=0 rows=2\n\
         2.1@4 rows 2 version=0\n\
         1,1,5\n\
         2,1,6\n\
         1.1@7 refused lost lease=1 holder=2\n\
         2.2@9 recast t epoch=1\n",
        files: Some(&[RUN_1 + 1]),
        ..PLAIN
    },
    // The lease of session 1's work is over when the table is recast.
    Case {
        name: "a work whose lease was taken before a recast",
        script: b"lease,3\n\
         table,t,a int;b int,v sum\n\
         row,t,1,1,5\n\
         commit\n\
         row,t,2,1,6\n\
         commit\n\
         expire,1\n\
         session\n\
         work,t\n\
         session\n\
         query,t\n\
         recast,t,b,v\n",
        holds: &[
            Hold {
                session: 2,
                at: Place::Started,
                until: (1, Place::Merged),
            },
            Hold {
                session: 1,
                at: Place::Merged,
                until: (2, Place::Merged),
            },
            Hold {
                session: 2,
                at: Place::Merged,
                until: (1, Place::Printed),
            },
        ],
        status: 1,
        text: "0.1@0 table t\n\
         0.2@2 loaded version=0 rows=1\n\
         0.3@4 loaded version=1 rows=1\n\
         0.4@5 expired oldest=1\n\
         2.1@7 rows 2 version=1\n\
         1,1,5\n\
         2,1,6\n\
         1.1@10 refused lost lease=1 holder=2\n\
         2.2@12 recast t epoch=1\n",
        files: Some(&[RUN_1 + 2, RUN_1 + 3]),
        ..PLAIN
    },
    // A change of columns comes under a recast's lease.
    Case {
        name: "a recast of a table that was changed",
        script: b"table,t,a int;b int,v sum\n\
         row,t,1,1,5\n\
         commit\n\
         session\n\
         recast,t,b,v\n\
         session\n\
         alter,t,add_value,m min,7\n",
        holds: &[
            Hold {
                session: 2,
                at: Place::Started,
                until: (1, Place::Merged),
            },
            Hold {
                session: 1,
                at: Place::Merged,
                until: (2, Place::Printed),
            },
        ],
        status: 1,
        text: "0.1@0 table t\n\
         0.2@2 loaded version=0 rows=1\n\
         2.1@4 altered t epoch=1\n\
         1.1@6 refused changed epoch=1\n",
        files: Some(&[RUN_1]),
        ..PLAIN
    },
    // A view comes under a recast's lease that would lose a column.
    Case {
        name: "a recast of a table whose view came meanwhile",
        script: b"table,t,a int;b int,v sum\n\
         row,t,1,1,5\n\
         commit\n\
         session\n\
         recast,t,b,v\n\
         session\n\
         view,w,t,a,v\n",
        holds: &[
            Hold {
                session: 2,
                at: Place::Started,
                until: (1, Place::Merged),
            },
            Hold {
                session: 1,
                at: Place::Merged,
                until: (2, Place::Printed),
            },
        ],
        status: 1,
        text: "0.1@0 table t\n\
         0.2@2 loaded version=0 rows=1\n\
         2.1@4 view w\n\
         1.1@6 refused in_view view=w\n",
        files: Some(&[RUN_1]),
        ..PLAIN
    },
];

#[test]
fn recasts_held(rt: HostRuntime) {
    expect_cases(&rt, rt.alloc(), &CASES);
}

/// The table and the views of all sessions. A lease lasts for some of their commands, so that recasts are lost too.
static TABLES: &str = "lease,40\n\
     table,t,a int;b int,v sum;h max\n\
     view,w,t,b,v\n\
     view,x,t,b;a,h;v\n";

// Records, and how many commands they are: loads, queries by both orders and by a view, recasts that turn the columns
// round, works, expiries, pins, queries by them, and their releases. In them stand a key, a lesser one, a value, the
// number of the session's step and a token.
static RECORDS: [(&str, u32); 16] = [
    ("row,t,{0},{1},{2},{3}\ncommit\n", 1),
    ("row,t,{0},{1},{2},{3}\nrow,t,30,{1},1,{3}\ncommit\n", 1),
    ("row,t,{0},{1},-{2},{3}\ncommit\n", 1),
    ("row,t,{1},{0},{2},{3}\ncommit\n", 1),
    ("recast,t,b;a,v;h\n", 1),
    ("recast,t,a;b,h;v\n", 1),
    ("recast,t,b;a,h\n", 1),
    ("query,t,,b={1}\n", 1),
    ("query,t,,a<{0},,v\n", 1),
    ("query,w\n", 1),
    ("query,x,,b={1},,,5\n", 1),
    ("explain,t,,b={1}\nwork,t\n", 2),
    ("work,t,2\n", 1),
    ("expire,t,{3}\n", 1),
    ("pin\nquery,t,pin:{4}\n", 2),
    ("release,{4}\n", 1),
];

fn eight_sessions(rt: &impl Abort, alloc: Global) -> String {
    let mut script = String::from_str(alloc, TABLES).expect(rt, "memory");
    push_session(rt, &mut script, &RECORDS, 0, 40);
    for session in 1..8u32 {
        script.push_str("session\n").expect(rt, "memory");
        push_session(rt, &mut script, &RECORDS, session, 40);
    }
    script
}

#[test]
fn recasts_beside_seven_sessions(rt: HostRuntime) {
    let script = eight_sessions(&rt, rt.alloc());
    let left = run(&rt, rt.alloc(), script.as_str());
    expect_same(&rt, &left.status, &1, &"some replies are refusals");
    expect_replayed(&rt, rt.alloc(), script.as_str(), &left.text);
}
