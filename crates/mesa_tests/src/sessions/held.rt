// Sessions that are held until others have come somewhere: what each prints, whatever the threads' order.
use crate::call::{Case, PLAIN};
use crate::cases::expect_cases;
use crate::devices::{Hold, Place, READER};

/// The number of the first file that run 1 adopts.
const RUN_1: u64 = 1 << 40;

static CASES: [Case<'static>; 9] = [
    // Session 1 merges until session 2, whose lease came once its own had ended, has merged too. Its file is
    // never adopted.
    Case {
        name: "lost lease",
        script: b"lease,3\n\
         table,t,k int,v sum\n\
         row,t,1,5\n\
         commit\n\
         row,t,1,6\n\
         commit\n\
         expire,1\n\
         session\n\
         work,t\n\
         session\n\
         query,t,1\n\
         work,t\n",
        holds: &[
            Hold {
                session: 2,
                at: Place::Started,
                until: (1, Place::Merged),
            },
            Hold {
                session: 1,
                at: Place::Merged,
                until: (2, Place::Merged),
            },
            Hold {
                session: 2,
                at: Place::Merged,
                until: (1, Place::Printed),
            },
        ],
        status: 1,
        text: "0.1@0 table t\n\
         0.2@2 loaded version=0 rows=1\n\
         0.3@4 loaded version=1 rows=1\n\
         0.4@5 expired oldest=1\n\
         2.1@7 rows 1 version=1\n\
         1,11\n\
         1.1@10 refused lost lease=1 holder=2\n\
         2.2@12 swapped 0 1\n",
        files: Some(&[RUN_1 + 2]),
        ..PLAIN
    },
    Case {
        name: "lost lease, of works in parts",
        script: b"lease,3\n\
         table,t,k int,v sum\n\
         row,t,1,5\n\
         commit\n\
         row,t,1,6\n\
         commit\n\
         expire,1\n\
         session\n\
         work,t,4\n\
         session\n\
         query,t,1\n\
         work,t,2\n",
        holds: &[
            Hold {
                session: 2,
                at: Place::Started,
                until: (1, Place::Merged),
            },
            Hold {
                session: 1,
                at: Place::Merged,
                until: (2, Place::Merged),
            },
            Hold {
                session: 2,
                at: Place::Merged,
                until: (1, Place::Printed),
            },
        ],
        status: 1,
        text: "0.1@0 table t\n\
         0.2@2 loaded version=0 rows=1\n\
         0.3@4 loaded version=1 rows=1\n\
         0.4@5 expired oldest=1\n\
         2.1@7 rows 1 version=1\n\
         1,11\n\
         1.1@10 refused lost lease=1 holder=2\n\
         2.2@12 swapped 0 1\n",
        files: Some(&[RUN_1 + 2]),
        ..PLAIN
    },
    // A query beside a work that has merged.
    Case {
        name: "side by side, behind a merge",
        script: b"table,t,k int,v sum\n\
         row,t,1,5\n\
         commit\n\
         row,t,1,6\n\
         commit\n\
         expire,1\n\
         session\n\
         work,t\n\
         session\n\
         query,t,1\n",
        holds: &[
            Hold {
                session: 2,
                at: Place::Started,
                until: (1, Place::Merged),
            },
            Hold {
                session: 1,
                at: Place::Merged,
                until: (2, Place::Printed),
            },
        ],
        status: 0,
        text: "0.1@0 table t\n\
         0.2@2 loaded version=0 rows=1\n\
         0.3@4 loaded version=1 rows=1\n\
         0.4@5 expired oldest=1\n\
         2.1@7 rows 1 version=1\n\
         1,11\n\
         1.1@10 swapped 0 1\n",
        files: Some(&[RUN_1 + 2]),
        ..PLAIN
    },
    // A query while a work's file is being written.
    Case {
        name: "side by side, within a merge",
        script: b"table,t,k int,v sum\n\
         row,t,1,5\n\
         commit\n\
         row,t,1,6\n\
         commit\n\
         expire,1\n\
         session\n\
         work,t\n\
         session\n\
         query,t,1\n",
        holds: &[
            Hold {
                session: 2,
                at: Place::Started,
                until: (1, Place::Appending),
            },
            Hold {
                session: 1,
                at: Place::Appending,
                until: (2, Place::Printed),
            },
        ],
        status: 0,
        text: "0.1@0 table t\n\
         0.2@2 loaded version=0 rows=1\n\
         0.3@4 loaded version=1 rows=1\n\
         0.4@5 expired oldest=1\n\
         2.1@7 rows 1 version=1\n\
         1,11\n\
         1.1@10 swapped 0 1\n",
        files: Some(&[RUN_1 + 2]),
        ..PLAIN
    },
    // A query while a load's file is being written.
    Case {
        name: "side by side, within a load",
        script: b"table,t,k int,v sum\n\
         row,t,1,5\n\
         commit\n\
         row,t,1,6\n\
         commit\n\
         expire,1\n\
         session\n\
         row,t,1,1\n\
         commit\n\
         session\n\
         query,t,1\n",
        holds: &[
            Hold {
                session: 2,
                at: Place::Started,
                until: (1, Place::Appending),
            },
            Hold {
                session: 1,
                at: Place::Appending,
                until: (2, Place::Printed),
            },
        ],
        status: 0,
        text: "0.1@0 table t\n\
         0.2@2 loaded version=0 rows=1\n\
         0.3@4 loaded version=1 rows=1\n\
         0.4@5 expired oldest=1\n\
         2.1@7 rows 1 version=1\n\
         1,11\n\
         1.1@9 loaded version=2 rows=1\n",
        files: Some(&[RUN_1, RUN_1 + 1, RUN_1 + 2]),
        ..PLAIN
    },
    // A query whose file is being read while the work that takes its place is swapped in: its pin keeps the
    // files that it reads.
    Case {
        name: "a query that spans a swap",
        script: b"table,t,k int,v sum\n\
         row,t,1,5\n\
         commit\n\
         row,t,1,6\n\
         commit\n\
         expire,1\n\
         session\n\
         query,t,1\n\
         session\n\
         work,t\n",
        holds: &[
            Hold {
                session: 2,
                at: Place::Started,
                until: (READER, Place::Reading),
            },
            Hold {
                session: READER,
                at: Place::Reading,
                until: (2, Place::Printed),
            },
        ],
        status: 0,
        text: "0.1@0 table t\n\
         0.2@2 loaded version=0 rows=1\n\
         0.3@4 loaded version=1 rows=1\n\
         0.4@5 expired oldest=1\n\
         2.1@9 swapped 0 1\n\
         1.1@6 rows 1 version=1\n\
         1,11\n",
        files: Some(&[RUN_1, RUN_1 + 1, RUN_1 + 2]),
        ..PLAIN
    },
    // Two loads are prepared by the tables as they were before a view: both are prepared anew, with a file for
    // the view each.
    Case {
        name: "two loads prepared by an older sight of the tables",
        script: b"table,t,a int;b int,v sum\n\
         session\n\
         row,t,1,1,5\n\
         commit\n\
         session\n\
         row,t,1,2,6\n\
         row,t,2,1,4\n\
         commit\n\
         session\n\
         view,w,t,a,v\n\
         query,w\n",
        holds: &[
            Hold {
                session: 2,
                at: Place::Started,
                until: (1, Place::Appending),
            },
            Hold {
                session: 3,
                at: Place::Started,
                until: (2, Place::Appending),
            },
            Hold {
                session: 1,
                at: Place::Appending,
                until: (3, Place::Printed),
            },
            Hold {
                session: 2,
                at: Place::Appending,
                until: (1, Place::Printed),
            },
            Hold {
                session: 3,
                at: Place::Printed,
                until: (2, Place::Printed),
            },
        ],
        status: 0,
        text: "0.1@0 table t\n\
         3.1@3 view w\n\
         1.1@4 loaded version=0 rows=1\n\
         2.1@5 loaded version=1 rows=2\n\
         3.2@6 rows 2 version=1\n\
         1,11\n\
         2,4\n",
        files: Some(&[RUN_1, RUN_1 + 1, RUN_1 + 2, RUN_1 + 3]),
        ..PLAIN
    },
    // A row that was one of the table when its load began, and is none once a column is added.
    Case {
        name: "a column added while a load's file is written",
        script: b"table,t,k int,v sum\n\
         session\n\
         row,t,1,5\n\
         commit\n\
         row,t,1,5,9\n\
         commit\n\
         query,t\n\
         session\n\
         alter,t,add_value,m min,7\n",
        holds: &[
            Hold {
                session: 2,
                at: Place::Started,
                until: (1, Place::Appending),
            },
            Hold {
                session: 1,
                at: Place::Appending,
                until: (2, Place::Printed),
            },
        ],
        status: 1,
        text: "0.1@0 table t\n\
         2.1@2 altered t epoch=1\n\
         1.1@3 refused bad_row row=1 column=3\n\
         1.2@5 loaded version=0 rows=1\n\
         1.3@6 rows 1 version=0\n\
         1,5,9\n",
        files: Some(&[RUN_1]),
        ..PLAIN
    },
    // A work keeps the columns of its grant: its base is lifted when it is read.
    Case {
        name: "a column added while a work's file is written",
        script: b"table,t,k int,v sum\n\
         row,t,1,5\n\
         commit\n\
         row,t,1,6\n\
         commit\n\
         expire,1\n\
         session\n\
         work,t\n\
         session\n\
         alter,t,add_value,m min,7\n\
         row,t,1,1,3\n\
         commit\n\
         query,t,1\n\
         query,t\n",
        holds: &[
            Hold {
                session: 2,
                at: Place::Started,
                until: (1, Place::Appending),
            },
            Hold {
                session: 1,
                at: Place::Appending,
                until: (2, Place::Printed),
            },
            Hold {
                session: 2,
                at: Place::Printed,
                until: (1, Place::Printed),
            },
        ],
        status: 0,
        text: "0.1@0 table t\n\
         0.2@2 loaded version=0 rows=1\n\
         0.3@4 loaded version=1 rows=1\n\
         0.4@5 expired oldest=1\n\
         2.1@7 altered t epoch=1\n\
         1.1@9 swapped 0 1\n\
         2.2@11 loaded version=2 rows=1\n\
         2.3@12 rows 1 version=1\n\
         1,11,7\n\
         2.4@14 rows 1 version=2\n\
         1,12,3\n",
        files: Some(&[RUN_1 + 2, RUN_1 + 3]),
        ..PLAIN
    },
];

#[test]
fn sessions_that_are_held(rt: HostRuntime) {
    expect_cases(&rt, rt.alloc(), &CASES);
}
