// Stores that earlier runs left.
use crate::call::{Case, PLAIN};
use crate::cases::expect_in_turn;
use crate::devices::{Hold, Place};

/// The number of the first file that a run adopts.
const RUN_1: u64 = 1 << 40;

const RUN_2: u64 = 2 << 40;

// Runs over one disk, which is empty at first.
static CASES: [&[Case<'static>]; 7] = [
    &[
        Case {
            name: "pages across a compaction and sessions, and another run",
            script: b"table,t,k int,v sum\n\
                 row,t,1,10\n\
                 row,t,2,20\n\
                 row,t,3,30\n\
                 row,t,4,40\n\
                 row,t,5,50\n\
                 commit\n\
                 commit\n\
                 query,t,1,,,,2\n\
                 expire,1\n\
                 work,t\n\
                 session\n\
                 query,t,1,,,,2,t/1/0/k/8000000000000002\n\
                 query,t,1,,,,2,t/1/0/k/8000000000000004\n\
                 query,t,1,,-,,2,t/1/0/k/8000000000000004\n",
            status: 1,
            text: "0.1@0 table t\n\
                 0.2@2 loaded version=0 rows=5\n\
                 0.3@4 loaded version=1 rows=0\n\
                 0.4@5 rows 2 version=1 more\n\
                 1,10\n\
                 2,20\n\
                 resume t/1/0/k/8000000000000002\n\
                 0.5@7 expired oldest=1\n\
                 0.6@10 swapped 0 1\n\
                 1.1@11 rows 2 version=1 more\n\
                 3,30\n\
                 4,40\n\
                 resume t/1/0/k/8000000000000004\n\
                 1.2@13 rows 1 version=1\n\
                 5,50\n\
                 1.3@15 refused bad_resume\n",
            ..PLAIN
        },
        Case {
            name: "pages across a compaction and sessions, and another run",
            script: b"query,t,1,,,,2,t/1/0/k/8000000000000002\n\
                 query,t,1,,,,2,t/1/0/k/8000000000000004\n",
            status: 0,
            text: "0.1@0 rows 2 version=1 more\n\
                 3,30\n\
                 4,40\n\
                 resume t/1/0/k/8000000000000004\n\
                 0.2@2 rows 1 version=1\n\
                 5,50\n",
            files: Some(&[RUN_1 + 1]),
            ..PLAIN
        },
    ],
    // Tables, views, versions, the oldest of them and what was merged are there; pins and leases aren't.
    &[
        Case {
            name: "a second run that goes on",
            script: b"table,t,a int;b int,v sum\n\
                 view,w,t,a,v\n\
                 row,t,1,1,5\n\
                 row,t,1,2,7\n\
                 commit\n\
                 pin\n\
                 row,t,1,3,1\n\
                 commit\n\
                 expire,1\n\
                 work,t\n",
            status: 0,
            text: "0.1@0 table t\n\
                 0.2@1 view w\n\
                 0.3@3 loaded version=0 rows=2\n\
                 0.4@4 pinned token=1 version=0\n\
                 0.5@6 loaded version=1 rows=1\n\
                 0.6@7 expired oldest=1\n\
                 0.7@10 swapped 0 1\n",
            ..PLAIN
        },
        Case {
            name: "a second run that goes on",
            script: b"table,t,k int,v sum\n\
                 query,w,pin:1\n\
                 query,t,0\n\
                 work,t\n\
                 explain,t\n\
                 row,t,1,1,-5\n\
                 row,t,2,1,9\n\
                 commit\n\
                 alter,t,add_value,m max,-3\n\
                 query,w\n\
                 query,t,1\n\
                 expire,2\n\
                 work,t\n\
                 explain,w\n",
            status: 1,
            text: "0.1@0 refused table_exists\n\
                 0.2@1 refused no_pin token=1\n\
                 0.3@2 refused stale asked=0 oldest=1\n\
                 0.4@3 idle\n\
                 0.5@4 spans 1\n\
                 [0,1]\n\
                 0.6@6 loaded version=2 rows=2\n\
                 0.7@7 altered t epoch=1\n\
                 0.8@8 rows 2 version=2\n\
                 1,8\n\
                 2,9\n\
                 0.9@10 rows 3 version=1\n\
                 1,1,5,-3\n\
                 1,2,7,-3\n\
                 1,3,1,-3\n\
                 0.10@12 expired oldest=2\n\
                 0.11@15 swapped 0 2\n\
                 0.12@16 spans 1\n\
                 [0,2]\n",
            ..PLAIN
        },
        Case {
            name: "a second run that goes on",
            script: b"query,t\n\
                 query,w\n",
            status: 0,
            text: "0.1@0 rows 4 version=2\n\
                 1,1,0,-3\n\
                 1,2,7,-3\n\
                 1,3,1,-3\n\
                 2,1,9,-3\n\
                 0.2@2 rows 2 version=2\n\
                 1,8\n\
                 2,9\n",
            files: Some(&[RUN_2 + 2, RUN_2 + 3]),
            ..PLAIN
        },
    ],
    // A pin holds what a base took the place of until it is released; the next swap or run takes it away.
    &[
        Case {
            name: "files that a pin held to the end",
            script: b"table,t,k int,v sum\n\
                 row,t,1,5\n\
                 commit\n\
                 row,t,1,6\n\
                 commit\n\
                 pin,0\n\
                 expire,1\n\
                 work,t\n\
                 query,t,pin:1\n",
            status: 0,
            text: "0.1@0 table t\n\
                 0.2@2 loaded version=0 rows=1\n\
                 0.3@4 loaded version=1 rows=1\n\
                 0.4@5 pinned token=1 version=0\n\
                 0.5@6 expired oldest=1\n\
                 0.6@9 swapped 0 1\n\
                 0.7@10 rows 1 version=0\n\
                 1,5\n",
            ..PLAIN
        },
        Case {
            name: "files that a pin held to the end",
            script: b"query,t\n",
            status: 0,
            text: "0.1@0 rows 1 version=1\n\
                 1,11\n",
            files: Some(&[RUN_1 + 2]),
            ..PLAIN
        },
    ],
    // A script that is refused opens no store.
    &[
        Case {
            name: "a refused script between two runs",
            script: b"table,t,k int,v sum\n",
            status: 0,
            text: "0.1@0 table t\n",
            ..PLAIN
        },
        Case {
            name: "a refused script between two runs",
            script: b"row,t,1,5\ncommit\ncommit,t\n",
            status: 3,
            text: "mesa: script place=3 reason=fields\n",
            ..PLAIN
        },
        Case {
            name: "a refused script between two runs",
            script: b"row,t,1,6\ncommit\nquery,t\n",
            status: 0,
            text: "0.1@1 loaded version=0 rows=1\n\
                 0.2@2 rows 1 version=0\n\
                 1,6\n",
            files: Some(&[RUN_2]),
            ..PLAIN
        },
    ],
    // Bytes by the formats of the journal, its records and the files, spelled by hand: of two runs.
    &[
        Case {
            name: "an empty script",
            script: b"",
            text: "",
            left: Some("0100000005010000000100"),
            ..PLAIN
        },
        Case {
            name: "a second one",
            script: b"",
            text: "",
            left: Some("010000000501000000010100000005010000000200"),
            ..PLAIN
        },
    ],
    // Of the table, and the row 1,5 in version 0 with nothing in version 1.
    &[
        Case {
            name: "one row",
            script: b"table,t,k int,v sum\n\
             row,t,1,5\n\
             commit\n\
             commit\n\
             query,t\n",
            text: "0.1@0 table t\n\
             0.2@2 loaded version=0 rows=1\n\
             0.3@4 loaded version=1 rows=0\n\
             0.4@5 rows 1 version=1\n\
             1,5\n",
            left: Some(
                "01000000050100000001010000000b02017401016b0001017600010000008109000000000001000000000000020000010000000000000000000000006f00000000000000010000000100088000000000000001000880000000000000010100000000000000000000000000000005c81c296f0f6edacf6039963d5def2a2dba052cfcdd802539023abf3c861cc73600010000000000000000000000000000000501000000070900000001000000\n\
         0000010000000000 0000018000000000000001000000000000000000000000000000058000000000000001000000000000000000000000000000000000001b3b67a19d6e109f5699455c7b879e2aac9c239bc564a294d734174daebe20ca94000000000000000000010000000101014d455341444c5432",
            ),
            ..PLAIN
        },
        Case {
            name: "a query of one row",
            script: b"query,t,0\n",
            text: "0.1@0 rows 1 version=0\n\
             1,5\n",
            left: Some(
                "01000000050100000001010000000b02017401016b0001017600010000008109000000000001000000000000020000010000000000000000000000006f00000000000000010000000100088000000000000001000880000000000000010100000000000000000000000000000005c81c296f0f6edacf6039963d5def2a2dba052cfcdd802539023abf3c861cc7360001000000000000000000000000000000050100000007090000000100000100000005010000000200\n\
         0000010000000000 0000018000000000000001000000000000000000000000000000058000000000000001000000000000000000000000000000000000001b3b67a19d6e109f5699455c7b879e2aac9c239bc564a294d734174daebe20ca94000000000000000000010000000101014d455341444c5432",
            ),
            ..PLAIN
        },
    ],
    // A batch that comes while a table's rows are rewritten is rewritten in the recast's last turn.
    &[
        Case {
            name: "recast under load",
            script: b"table,t,a int;b int,v sum\n\
                 row,t,1,2,5\n\
                 row,t,2,1,7\n\
                 row,t,3,1,1\n\
                 commit\n\
                 session\n\
                 recast,t,b,v\n\
                 session\n\
                 row,t,4,2,10\n\
                 commit\n",
            holds: &[
                Hold {
                    session: 2,
                    at: Place::Started,
                    until: (1, Place::Merged),
                },
                Hold {
                    session: 1,
                    at: Place::Merged,
                    until: (2, Place::Printed),
                },
            ],
            status: 0,
            turns: Some(8),
            text: "0.1@0 table t\n\
                 0.2@2 loaded version=0 rows=3\n\
                 2.1@5 loaded version=1 rows=1\n\
                 1.1@7 recast t epoch=1\n",
            files: Some(&[RUN_1 + 2, RUN_1 + 3]),
            ..PLAIN
        },
        Case {
            name: "recast under load, and the next run",
            script: b"query,t\n",
            status: 0,
            text: "0.1@0 rows 2 version=1\n\
                 1,8\n\
                 2,15\n",
            files: Some(&[RUN_1 + 2, RUN_1 + 3]),
            ..PLAIN
        },
    ],
];

#[test]
fn runs_that_go_on(rt: HostRuntime) {
    for cases in &CASES {
        expect_in_turn(&rt, rt.alloc(), cases);
    }
}
