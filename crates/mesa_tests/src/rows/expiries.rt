// Expiries of one table and of all.
use crate::call::{Case, PLAIN, call_over, run};
use crate::cases::{expect_cases, expect_store, expect_text};
use crate::expected::expect_same;
use crate::stores::shown::shown;
use std::alloc::Global;
use std::process::Abort;

static CASES: [Case<'static>; 2] = [
    Case {
        name: "expiry per table",
        script: b"table,t,k int,v sum\n\
         table,u,k int,v sum\n\
         row,t,1,5\n\
         row,u,1,7\n\
         commit\n\
         row,t,1,1\n\
         commit\n\
         expire,t,1\n\
         query,t,0\n\
         query,u,0\n\
         pin,0\n\
         expire,0\n\
         expire,t,0\n\
         work,u\n\
         work,t\n",
        status: 1,
        turns: Some(17),
        text: "0.1@0 table t\n\
         0.2@1 table u\n\
         0.3@3 loaded version=0 rows=2\n\
         0.4@5 loaded version=1 rows=1\n\
         0.5@6 expired t oldest=1\n\
         0.6@7 refused stale asked=0 oldest=1\n\
         0.7@8 rows 1 version=0\n\
         1,7\n\
         0.8@10 refused stale asked=0 oldest=1\n\
         0.9@11 expired oldest=0\n\
         0.10@12 refused stale asked=0 oldest=1\n\
         0.11@13 idle\n\
         0.12@16 swapped 0 1\n",
        ..PLAIN
    },
    // A view lets go what its table does, a pin keeps it, and a table that is made later begins at the floor.
    Case {
        name: "an expiry beside a view, a pin and a new table",
        script: b"table,t,k int,v sum\n\
         view,w,t,k,v\n\
         table,u,k int,v sum\n\
         row,t,1,5\n\
         row,u,1,7\n\
         commit\n\
         row,t,1,1\n\
         commit\n\
         pin,0\n\
         expire,t,1\n\
         work,t\n\
         query,w,0\n\
         explain,w,0\n\
         explain,u,0\n\
         query,w,pin:1\n\
         table,x,k int,v sum\n\
         query,x,0\n\
         expire,1\n\
         query,u,0\n\
         query,w\n\
         work,x\n\
         work,u\n\
         explain,u\n",
        status: 1,
        text: "0.1@0 table t\n\
         0.2@1 view w\n\
         0.3@2 table u\n\
         0.4@4 loaded version=0 rows=2\n\
         0.5@6 loaded version=1 rows=1\n\
         0.6@7 pinned token=1 version=0\n\
         0.7@8 expired t oldest=1\n\
         0.8@11 swapped 0 1\n\
         0.9@12 refused stale asked=0 oldest=1\n\
         0.10@13 refused stale asked=0 oldest=1\n\
         0.11@14 spans 1\n\
         [0,0]\n\
         0.12@15 rows 1 version=0\n\
         1,5\n\
         0.13@17 table x\n\
         0.14@18 rows 0 version=0\n\
         0.15@20 expired oldest=1\n\
         0.16@21 refused stale asked=0 oldest=1\n\
         0.17@22 rows 1 version=1\n\
         1,6\n\
         0.18@26 swapped 0 1\n\
         0.19@29 swapped 0 1\n\
         0.20@30 spans 1\n\
         [0,1]\n",
        ..PLAIN
    },
];

#[test]
fn expiries(rt: HostRuntime) {
    expect_cases(&rt, rt.alloc(), &CASES);
}

// Two tables, a view, three versions of which the first is kept of neither table and the second not of `t`.
static PROLOGUE: &str = "table,t,k int,v sum\n\
     view,w,t,k,v\n\
     table,u,k int,v sum\n\
     row,t,1,5\n\
     row,u,1,7\n\
     commit\n\
     row,t,1,1\n\
     commit\n\
     commit\n\
     expire,1\n\
     expire,t,2\n";

// Below the floor and above the newest; below the table's oldest and above the newest; of no table, and of a view;
// and what isn't asked of the table that is named.
static REFUSED: Case<'static> = Case {
    name: "refused expiries",
    script: b"expire,0\n\
         expire,3\n\
         expire,4294967295\n\
         expire,t,0\n\
         expire,t,1\n\
         expire,t,3\n\
         expire,u,0\n\
         expire,u,4294967295\n\
         expire,x,1\n\
         expire,w,2\n\
         expire,,2\n",
    status: 1,
    text: "0.1@0 refused stale asked=0 oldest=1\n\
         0.2@1 refused future asked=3 newest=2\n\
         0.3@2 refused future asked=4294967295 newest=2\n\
         0.4@3 refused stale asked=0 oldest=2\n\
         0.5@4 refused stale asked=1 oldest=2\n\
         0.6@5 refused future asked=3 newest=2\n\
         0.7@6 refused stale asked=0 oldest=1\n\
         0.8@7 refused future asked=4294967295 newest=2\n\
         0.9@8 refused no_table\n\
         0.10@9 refused no_table\n\
         0.11@10 refused no_table\n",
    ..PLAIN
};

// A store's text with the record of its second run behind its journal, and nothing else.
fn with_second_run(rt: &impl Abort, alloc: Global, store: &str) -> String {
    let (area, files) = store.split_once('\n').expect(rt, "a file");
    let records = area.strip_suffix("00").expect(rt, "a shut gate");
    format!(in alloc; "{records}0100000005010000000200\n{files}").expect(rt, "memory")
}

#[test]
fn refused_expiries_change_nothing(rt: HostRuntime) {
    let alloc = rt.alloc();
    let mut left = run(&rt, alloc, PROLOGUE);
    expect_same(&rt, &left.status, &0, &"the run before them");
    let before = shown(&rt, alloc, &mut left.disk);
    let mut left = call_over(&rt, alloc, left.disk, &REFUSED);
    expect_text(&rt, REFUSED.name, &left, REFUSED.status, REFUSED.text);
    let store = with_second_run(&rt, alloc, before.as_str());
    expect_store(&rt, alloc, &mut left.disk, store.as_str(), REFUSED.name);
}
