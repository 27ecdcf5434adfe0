// Pages, pins, views whose files are made later, and files of several blocks.
use crate::call::{Case, PLAIN};
use crate::cases::{LongCase, expect_cases, expect_long_cases};
use crate::texts::Part;

static CASES: [Case<'static>; 4] = [
    Case {
        name: "pages and pin",
        script: b"table,t,k int,v sum\n\
         row,t,1,10\n\
         row,t,2,20\n\
         row,t,3,30\n\
         commit\n\
         query,t,0,,,,2\n\
         query,t,0,,,,2,t/0/0/k/8000000000000002\n\
         pin,0\n\
         commit\n\
         query,t,pin:1,,,,1\n",
        status: 0,
        turns: Some(12),
        text: "0.1@0 table t\n\
         0.2@2 loaded version=0 rows=3\n\
         0.3@3 rows 2 version=0 more\n\
         1,10\n\
         2,20\n\
         resume t/0/0/k/8000000000000002\n\
         0.4@5 rows 1 version=0\n\
         3,30\n\
         0.5@7 pinned token=1 version=0\n\
         0.6@9 loaded version=1 rows=0\n\
         0.7@10 rows 1 version=0 more\n\
         1,10\n\
         resume t/0/0/k/8000000000000001\n",
        ..PLAIN
    },
    Case {
        name: "derived view",
        script: b"table,t,a int;b int,v sum\n\
         row,t,1,1,5\n\
         row,t,1,2,7\n\
         commit\n\
         view,w,t,a,v\n\
         row,t,1,3,1\n\
         commit\n\
         query,w,0\n\
         query,w\n",
        status: 0,
        turns: Some(10),
        text: "0.1@0 table t\n\
         0.2@2 loaded version=0 rows=2\n\
         0.3@3 view w\n\
         0.4@5 loaded version=1 rows=1\n\
         0.5@6 rows 1 version=0\n\
         1,12\n\
         0.6@8 rows 1 version=1\n\
         1,13\n",
        ..PLAIN
    },
    // A resume key of another relation, version, epoch or group, one that is no key, and a page behind
    // the last row.
    Case {
        name: "resume keys",
        script: b"table,t,k int;c text,v sum\n\
         view,w,t,c;k,v\n\
         row,t,1,a,10\n\
         commit\n\
         commit\n\
         query,t,1,,,,,w/1/0/k;c/80000000000000016100\n\
         query,t,1,,,,,t/0/0/k;c/80000000000000016100\n\
         query,t,1,,,,,t/1/1/k;c/80000000000000016100\n\
         query,t,1,,,,,t/1/0/k/80000000000000016100\n\
         query,t,1,,,,,t/1/0/k;c/8000000000000001610\n\
         query,t,1,,,,,t/1/0/k;c/8000000000000001\n\
         query,t,1,,,,,t/1/0/k;c/80000000000000016100\n\
         query,t,1,,,,,t/1/0/k;c/8000000000000000ff00\n\
         query,t,1,,c;k,,,t/1/0/c;k/61008000000000000000\n",
        status: 1,
        text: "0.1@0 table t\n\
         0.2@1 view w\n\
         0.3@3 loaded version=0 rows=1\n\
         0.4@5 loaded version=1 rows=0\n\
         0.5@6 refused bad_resume\n\
         0.6@7 refused bad_resume\n\
         0.7@8 refused bad_resume\n\
         0.8@9 refused bad_resume\n\
         0.9@10 refused bad_resume\n\
         0.10@11 refused bad_resume\n\
         0.11@12 rows 0 version=1\n\
         0.12@14 refused bad_resume\n\
         0.13@15 rows 1 version=1\n\
         a,1,10\n",
        ..PLAIN
    },
    // What another session's pin, a released one and one that was never given are told; a token is
    // given once.
    Case {
        name: "tokens",
        script: b"table,t,k int,v sum\n\
         pin\n\
         row,t,1,10\n\
         commit\n\
         pin\n\
         pin,0\n\
         release,1\n\
         release,1\n\
         query,t,pin:2\n\
         query,t,pin:3\n\
         pin,1\n\
         pin,latest\n\
         session\n\
         query,t,pin:2\n\
         release,2\n\
         pin\n\
         query,t,pin:1\n",
        status: 1,
        text: "0.1@0 table t\n\
         0.2@1 refused future asked=latest newest=none\n\
         0.3@3 loaded version=0 rows=1\n\
         0.4@4 pinned token=1 version=0\n\
         0.5@5 pinned token=2 version=0\n\
         0.6@6 released token=1\n\
         0.7@7 refused no_pin token=1\n\
         0.8@8 rows 1 version=0\n\
         1,10\n\
         0.9@10 refused no_pin token=3\n\
         0.10@11 refused future asked=1 newest=0\n\
         0.11@12 pinned token=3 version=0\n\
         1.1@13 refused no_pin token=2\n\
         1.2@14 refused no_pin token=2\n\
         1.3@15 pinned token=1 version=0\n\
         1.4@16 rows 1 version=0\n\
         1,10\n",
        ..PLAIN
    },
];

#[test]
fn pages_pins_and_views(rt: HostRuntime) {
    expect_cases(&rt, rt.alloc(), &CASES);
}

// Files of several blocks, and a page with more behind it.
static LONG: [LongCase; 3] = [
    // 1,025 rows whose keys agree in their first sixteen letters: the file has two blocks whose short keys are equal.
    LongCase {
        name: "equal short keys",
        script: &[
            Part::Spelled("table,t,k text,v sum\n"),
            Part::Lines(1000, 2025, "row,t,aaaaaaaaaaaaaaaa{0},{0}\n", [(1, 0); 3]),
            Part::Spelled(
                "commit\n\
                 query,t,,k=aaaaaaaaaaaaaaaa2024\n\
                 query,t,,k=aaaaaaaaaaaaaaaa2023\n",
            ),
        ],
        status: 0,
        text: &[Part::Spelled(
            "0.1@0 table t\n\
             0.2@2 loaded version=0 rows=1025\n\
             0.3@3 rows 1 version=0\n\
             aaaaaaaaaaaaaaaa2024,2024\n\
             0.4@5 rows 1 version=0\n\
             aaaaaaaaaaaaaaaa2023,2023\n",
        )],
    },
    // 4,096 rows in four blocks, and a query of a later key column.
    LongCase {
        name: "later column prunes",
        script: &[
            Part::Spelled("table,t,a int;b int,v sum\n"),
            Part::Lines(0, 2048, "row,t,0,{0},{0}\n", [(1, 0); 3]),
            Part::Lines(0, 2048, "row,t,1,{0},{1}\n", [(1, 0), (1, 2048), (0, 0)]),
            Part::Spelled("commit\nquery,t,,b=2000\nquery,t,,a=1&b<2\n"),
        ],
        status: 0,
        text: &[Part::Spelled(
            "0.1@0 table t\n\
             0.2@2 loaded version=0 rows=4096\n\
             0.3@3 rows 2 version=0\n\
             0,2000,2000\n\
             1,2000,4048\n\
             0.4@5 rows 2 version=0\n\
             1,0,2048\n\
             1,1,2049\n",
        )],
    },
    // A page has at most 1,000 rows where nothing is said, and tells where it goes on.
    LongCase {
        name: "more than a page",
        script: &[
            Part::Spelled("table,t,k int,v sum\n"),
            Part::Lines(0, 1001, "row,t,{0},1\n", [(1, 0); 3]),
            Part::Spelled("commit\nquery,t\n"),
        ],
        status: 0,
        text: &[
            Part::Spelled(
                "0.1@0 table t\n\
                 0.2@2 loaded version=0 rows=1001\n\
                 0.3@3 rows 1000 version=0 more\n",
            ),
            Part::Lines(0, 1000, "{0},1\n", [(1, 0); 3]),
            Part::Spelled("resume t/0/0/k/80000000000003e7\n"),
        ],
    },
];

#[test]
fn long_files_and_pages(rt: HostRuntime) {
    expect_long_cases(&rt, rt.alloc(), &LONG);
}
