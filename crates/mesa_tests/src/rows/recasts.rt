// Tables that are recast, and why they aren't.
use crate::call::{Case, PLAIN};
use crate::cases::expect_cases;

static CASES: [Case<'static>; 5] = [
    Case {
        name: "recast regroups",
        script: b"table,t,a int;b int,v sum\n\
         row,t,1,2,5\n\
         row,t,2,1,7\n\
         row,t,3,1,1\n\
         commit\n\
         recast,t,b,v\n\
         query,t\n\
         row,t,1,4\n\
         commit\n\
         query,t\n",
        status: 0,
        turns: Some(12),
        text: "0.1@0 table t\n\
         0.2@2 loaded version=0 rows=3\n\
         0.3@5 recast t epoch=1\n\
         0.4@6 rows 2 version=0\n\
         1,8\n\
         2,5\n\
         0.5@9 loaded version=1 rows=1\n\
         0.6@10 rows 2 version=1\n\
         1,12\n\
         2,5\n",
        ..PLAIN
    },
    // Each of them ends with its first turn: none has a lease. The last one begins the table's second epoch.
    Case {
        name: "recasts that are refused",
        script: b"table,t,a int;b int,v sum;r replace\n\
         recast,u,a,v\n\
         recast,t,c,v\n\
         recast,t,b;b,v\n\
         recast,t,b,r\n\
         view,w,t,a,v\n\
         recast,w,a,v\n\
         recast,t,b,v\n\
         alter,t,add_value,m min,7\n\
         recast,t,b;a,m;v\n",
        status: 1,
        turns: Some(12),
        text: "0.1@0 table t\n\
         0.2@1 refused no_table\n\
         0.3@2 refused no_column\n\
         0.4@3 refused bad_schema reason=name_twice\n\
         0.5@4 refused replace_group column=r\n\
         0.6@5 view w\n\
         0.7@6 refused no_table\n\
         0.8@7 refused in_view view=w\n\
         0.9@8 altered t epoch=1\n\
         0.10@11 recast t epoch=2\n",
        ..PLAIN
    },
    // The base, which is merged of two versions, and the version behind it are grouped, each by itself; a view's rows stay.
    Case {
        name: "a recast of a base and a singleton",
        script: b"table,t,a int;b int,v sum\n\
         view,w,t,b,v\n\
         row,t,1,1,5\n\
         row,t,1,2,6\n\
         commit\n\
         row,t,2,1,1\n\
         commit\n\
         expire,1\n\
         work,t\n\
         row,t,3,2,2\n\
         commit\n\
         recast,t,b,v\n\
         explain,t\n\
         query,t,1\n\
         query,t\n\
         query,w\n",
        status: 0,
        turns: Some(22),
        text: "0.1@0 table t\n\
         0.2@1 view w\n\
         0.3@3 loaded version=0 rows=2\n\
         0.4@5 loaded version=1 rows=1\n\
         0.5@6 expired oldest=1\n\
         0.6@9 swapped 0 1\n\
         0.7@11 loaded version=2 rows=1\n\
         0.8@14 recast t epoch=1\n\
         0.9@15 spans 2\n\
         [0,1]\n\
         [2,2]\n\
         0.10@16 rows 2 version=1\n\
         1,6\n\
         2,6\n\
         0.11@18 rows 2 version=2\n\
         1,6\n\
         2,8\n\
         0.12@20 rows 2 version=2\n\
         1,6\n\
         2,8\n",
        ..PLAIN
    },
    // A pin keeps the table as it was.
    Case {
        name: "a pin outlives a recast",
        script: b"table,t,a int;b int,v sum\n\
         row,t,1,2,5\n\
         row,t,2,2,7\n\
         commit\n\
         pin\n\
         recast,t,b,v\n\
         query,t,pin:1\n\
         query,t\n",
        status: 0,
        turns: Some(11),
        text: "0.1@0 table t\n\
         0.2@2 loaded version=0 rows=2\n\
         0.3@3 pinned token=1 version=0\n\
         0.4@6 recast t epoch=1\n\
         0.5@7 rows 2 version=0\n\
         1,2,5\n\
         2,2,7\n\
         0.6@9 rows 1 version=0\n\
         2,12\n",
        ..PLAIN
    },
    Case {
        name: "a recast of a table without rows",
        script: b"table,t,a int;b int,v sum\n\
         recast,t,b,v\n\
         commit\n\
         recast,t,b,v\n\
         row,t,1,4\n\
         commit\n\
         query,t\n",
        status: 0,
        turns: Some(13),
        text: "0.1@0 table t\n\
         0.2@3 recast t epoch=1\n\
         0.3@5 loaded version=0 rows=0\n\
         0.4@8 recast t epoch=2\n\
         0.5@10 loaded version=1 rows=1\n\
         0.6@11 rows 1 version=1\n\
         1,4\n",
        ..PLAIN
    },
];

#[test]
fn recasts(rt: HostRuntime) {
    expect_cases(&rt, rt.alloc(), &CASES);
}
