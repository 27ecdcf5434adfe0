// Limits, and the refusals at them.
use crate::call::{Case, PLAIN};
use crate::cases::{LongCase, expect_cases, expect_long_cases};
use crate::texts::Part;

static COLUMNS: [Case<'static>; 1] = [Case {
    name: "seventeen key columns",
    script: b"table,x,a int;b int;c int;d int;e int;f int;g int;h int;i int;j int;k int;l int;m int;n int;o int;p int;q int,v sum\n",
    status: 1,
    text: "0.1@0 refused bad_schema reason=too_many_columns\n",
    ..PLAIN
}];

#[test]
fn seventeen_key_columns(rt: HostRuntime) {
    expect_cases(&rt, rt.alloc(), &COLUMNS);
}

static FULL: [LongCase; 5] = [
    LongCase {
        name: "33 tables",
        script: &[Part::Lines(0, 33, "table,t{0},k int,v sum\n", [(1, 0); 3])],
        status: 1,
        text: &[
            Part::Lines(0, 32, "0.{1}@{0} table t{0}\n", [(1, 0), (1, 1), (0, 0)]),
            Part::Spelled("0.33@32 refused tables_full limit=32\n"),
        ],
    },
    LongCase {
        name: "nine views",
        script: &[
            Part::Spelled("table,t,k int,v sum\n"),
            Part::Lines(1, 10, "view,w{0},t,k,v\n", [(1, 0); 3]),
        ],
        status: 1,
        text: &[
            Part::Spelled("0.1@0 table t\n"),
            Part::Lines(1, 9, "0.{1}@{0} view w{0}\n", [(1, 0), (1, 1), (0, 0)]),
            Part::Spelled("0.10@9 refused tables_full limit=8\n"),
        ],
    },
    // 65 pins of one session, another session's, and one more once a pin is released.
    LongCase {
        name: "65 pins",
        script: &[
            Part::Spelled("commit\n"),
            Part::Times(65, "pin\n"),
            Part::Spelled("release,7\npin\nsession\npin\n"),
        ],
        status: 1,
        text: &[
            Part::Spelled("0.1@1 loaded version=0 rows=0\n"),
            Part::Lines(
                1,
                65,
                "0.{1}@{1} pinned token={0} version=0\n",
                [(1, 0), (1, 1), (0, 0)],
            ),
            Part::Spelled(
                "0.66@66 refused pins_full limit=64\n\
                 0.67@67 released token=7\n\
                 0.68@68 pinned token=65 version=0\n\
                 1.1@69 refused pins_full limit=64\n",
            ),
        ],
    },
    LongCase {
        name: "1,001 changes of a table",
        script: &[
            Part::Spelled("table,t,k int,v sum\n"),
            Part::Times(500, "alter,t,add_value,w sum,0\nalter,t,drop_value,w\n"),
            Part::Spelled("alter,t,add_value,w sum,0\n"),
        ],
        status: 1,
        text: &[
            Part::Spelled("0.1@0 table t\n"),
            Part::Lines(
                1,
                1001,
                "0.{1}@{0} altered t epoch={0}\n",
                [(1, 0), (1, 1), (0, 0)],
            ),
            Part::Spelled("0.1002@1001 refused epochs_full limit=1000\n"),
        ],
    },
    // Nothing of a script with a command too many is run.
    LongCase {
        name: "200,001 commands",
        script: &[Part::Times(200_001, "commit\n")],
        status: 3,
        text: &[Part::Spelled("mesa: script place=200001 reason=commands\n")],
    },
];

#[test]
fn full_stores_and_scripts(rt: HostRuntime) {
    expect_long_cases(&rt, rt.alloc(), &FULL);
}
