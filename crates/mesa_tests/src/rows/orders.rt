// Queries that are answered by a further order of their table, and what explain says of them.
use crate::call::{Case, PLAIN};
use crate::cases::expect_cases;

static CASES: [Case<'static>; 3] = [
    Case {
        name: "order chosen",
        script: b"table,t,a int;b int,v sum\n\
         view,w,t,b;a,v\n\
         row,t,1,1,5\n\
         row,t,1,2,6\n\
         commit\n\
         explain,t,,b=2\n\
         explain,t,,a=1\n\
         query,t,,b=2\n",
        status: 0,
        turns: Some(8),
        text: "0.1@0 table t\n\
         0.2@1 view w\n\
         0.3@3 loaded version=0 rows=2\n\
         0.4@4 spans 1\n\
         [0,0]\n\
         by w\n\
         0.5@5 spans 1\n\
         [0,0]\n\
         by t\n\
         0.6@6 rows 1 version=0\n\
         1,2,6\n",
        ..PLAIN
    },
    Case {
        name: "order bad filter",
        script: b"table,t,a int;b int,v sum\n\
         view,w,t,b;a,v\n\
         row,t,1,1,5\n\
         row,t,1,2,6\n\
         commit\n\
         explain,t,,c=1\n",
        status: 1,
        turns: Some(5),
        text: "0.1@0 table t\n\
         0.2@1 view w\n\
         0.3@3 loaded version=0 rows=2\n\
         0.4@4 refused no_column\n",
        ..PLAIN
    },
    // A page of a further order goes on where it ended, by the table's name and columns; a view is answered by itself.
    Case {
        name: "pages by a further order",
        script: b"table,t,a int;b int,v sum\n\
         view,w,t,b;a,v\n\
         row,t,1,2,5\n\
         row,t,2,2,6\n\
         row,t,3,2,7\n\
         row,t,3,1,8\n\
         commit\n\
         query,t,,b=2,,,2\n\
         explain,w,,b=2\n\
         explain,u,,b=2\n",
        status: 1,
        turns: Some(8),
        text: "0.1@0 table t\n\
         0.2@1 view w\n\
         0.3@3 loaded version=0 rows=4\n\
         0.4@4 rows 2 version=0 more\n\
         1,2,5\n\
         2,2,6\n\
         resume t/0/0/a;b/80000000000000028000000000000002\n\
         0.5@6 spans 1\n\
         [0,0]\n\
         by w\n\
         0.6@7 refused no_table\n",
        ..PLAIN
    },
];

#[test]
fn orders(rt: HostRuntime) {
    expect_cases(&rt, rt.alloc(), &CASES);
}
