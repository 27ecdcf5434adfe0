// Stores whose journal is stated anew in the other area.
use crate::call::{Case, PLAIN, call_over, empty_disk, script_run};
use crate::cases::{expect_cases, expect_store, expect_text};
use crate::expected::{expect_same, expect_that};
use crate::sessions::replay::expect_replayed_behind;
use crate::stores::crashes::{Stopped, expect_moments};
use crate::stores::shown::spelled;
use crate::texts::{Part, whole};
use mesa_disk::{Area, Disk, MemDisk};
use std::alloc::Global;
use std::process::Abort;
use std::str;
use std::sync::Wait;
use std::thread::Threads;

// ---- an empty warehouse behind many runs

/// So many runs of an empty warehouse end at 65,540.
pub const RUNS: u32 = 6_554;

// What the next run leaves in area 1: the checkpoint of the number 1, and the run's record behind it.
const AREA_1: &str = "01000000130f000000010000199a000000000000000000000100000005010000199b00";

/// Adds the records of so many runs behind this one, and a gate that is shut.
pub fn push_runs(rt: &impl Abort, area: &mut String, last: u32, count: u32) {
    for more in 1..=count {
        let run = last.wrapping_add(more);
        write!(area, "010000000501{run:08x}").expect(rt, "memory");
    }
    area.push_str("00").expect(rt, "memory");
}

// Area 0 of so many runs.
fn runs(rt: &impl Abort, alloc: Global, count: u32) -> String {
    let mut area = String::new(alloc);
    push_runs(rt, &mut area, 0, count);
    area
}

static CHECKED: Case<'static> = Case {
    words: &["check"],
    ..PLAIN
};

static LOADED: Case<'static> = Case {
    script: b"commit\n",
    ..PLAIN
};

const ONE_VERSION: &str = "0.1@1 loaded version=0 rows=0\n";

#[test]
fn a_checkpoint_behind_many_runs(rt: HostRuntime) {
    let alloc = rt.alloc();
    let store = runs(&rt, alloc, RUNS);
    let stated = format!(in alloc; "{}|{AREA_1}", store.as_str()).expect(&rt, "memory");
    let mut left = call_over(&rt, alloc, spelled(&rt, alloc, store.as_str(), &[]), &PLAIN);
    expect_text(&rt, "a run behind many", &left, 0, "");
    let disk = &mut left.disk;
    expect_store(&rt, alloc, disk, stated.as_str(), "a run behind many");
    let stopped = Stopped {
        asked: &LOADED,
        fronts: &[ONE_VERSION],
    };
    expect_moments(&rt, alloc, stopped, &left);
}

// One run less ends below 65,536, and goes on in its area.
#[test]
fn no_checkpoint_before(rt: HostRuntime) {
    let alloc = rt.alloc();
    let store = runs(&rt, alloc, RUNS - 1);
    let next = runs(&rt, alloc, RUNS);
    let mut left = call_over(&rt, alloc, spelled(&rt, alloc, store.as_str(), &[]), &PLAIN);
    let disk = &mut left.disk;
    expect_store(&rt, alloc, disk, next.as_str(), "a run in its area");
}

// Makes a call of the opening fail, and looks at what is left; tells whether the opening came so far.
fn fails<R: Abort + Threads + Wait + Sync>(
    rt: &R,
    alloc: Global,
    store: &str,
    call: u64,
    asked: &Case<'_>,
    wanted: (u8, &str),
) -> bool {
    let left = call_over(rt, alloc, spelled(rt, alloc, store, &[call]), &PLAIN);
    if left.status == 0 {
        return false;
    }
    expect_text(rt, "an opening that fails", &left, 6, "mesa: disk fault\n");
    let checked = call_over(rt, alloc, left.disk, &CHECKED);
    expect_text(rt, "the check behind it", &checked, 0, "sound\n");
    let left = call_over(rt, alloc, checked.disk, asked);
    expect_text(rt, "the answers behind it", &left, wanted.0, wanted.1);
    true
}

/// Stops the test of a store that an opening states anew where one of its calls failed, and behind that it doesn't answer with this status and text.
pub fn expect_failing<R: Abort + Threads + Wait + Sync>(
    rt: &R,
    alloc: Global,
    store: &str,
    asked: &Case<'_>,
    wanted: (u8, &str),
) {
    let mut calls = 0u64;
    for call in 0..40 {
        calls = call;
        if !fails(rt, alloc, store, call, asked, wanted) {
            break;
        }
    }
    // Two reads and a list of files, and then eleven calls that write or sync.
    expect_that(
        rt,
        14 <= calls && calls < 39,
        &calls,
        &"the calls of an opening",
    );
}

#[test]
fn each_call_of_an_opening_that_states_anew_fails(rt: HostRuntime) {
    let alloc = rt.alloc();
    let store = runs(&rt, alloc, RUNS);
    expect_failing(&rt, alloc, store.as_str(), &LOADED, (0, ONE_VERSION));
}

// ---- what a checkpoint may say

// A checkpoint of the table `t` of an int key and a sum, with the row 1,5 in version 0 and nothing in version 1: its
// fields in digits.
#[derive(Clone, Copy)]
struct Stated {
    name: &'static str,
    number: &'static str,
    run: &'static str,
    floor: &'static str,
    versions: &'static str,
    // behind the count of tables: a table each
    oldest: &'static str,
    begins: &'static str,
    totals: &'static str,
    base: &'static str,
    cumulatives: &'static str,
    singles: &'static str,
}

// The version 0, with its file, which has the row 1,5.
const SINGLE: &str =
    "000000010000000000000000020000010000000000000000000000006f00000000000000010000000100088000000000000001000880000000000000010100000000000000000000000000000005c81c296f0f6edacf6039963d5def2a2dba052cfcdd802539023abf3c861cc736000100000000000000000000000000000005";

const FILE: &str =
    "0000010000000000 0000018000000000000001000000000000000000000000000000058000000000000001000000000000000000000000000000000000001b3b67a19d6e109f5699455c7b879e2aac9c239bc564a294d734174daebe20ca94000000000000000000010000000101014d455341444c5432";

const STATED: Stated = Stated {
    name: "",
    number: "00000001",
    run: "00000001",
    floor: "00000000",
    versions: "00000002",
    oldest: "00000000",
    begins: "00000000",
    totals: "0100000000000000000000000000000005",
    base: "00",
    cumulatives: "00000000",
    singles: SINGLE,
};

// Stores behind one run in area 0, whose checkpoint in area 1 doesn't fit.
static MISFITS: [Stated; 17] = [
    Stated {
        name: "an even number",
        number: "00000002",
        ..STATED
    },
    Stated {
        name: "a file of a later run",
        run: "00000000",
        ..STATED
    },
    Stated {
        name: "a run past the last that there may be",
        run: "01000000",
        ..STATED
    },
    Stated {
        name: "a floor that isn't there",
        floor: "00000002",
        oldest: "00000002",
        ..STATED
    },
    Stated {
        name: "a table's oldest version below the floor",
        floor: "00000001",
        ..STATED
    },
    Stated {
        name: "a table's oldest version that isn't there",
        oldest: "00000002",
        ..STATED
    },
    Stated {
        name: "a total past the bound",
        totals: "0180000000000000000000000000000000",
        ..STATED
    },
    Stated {
        name: "no total",
        totals: "00",
        ..STATED
    },
    Stated {
        name: "a version's total past the bound",
        singles: "000000010000000000000000020000010000000000000000000000006f00000000000000010000000100088000000000000001000880000000000000010100000000000000000000000000000005c81c296f0f6edacf6039963d5def2a2dba052cfcdd802539023abf3c861cc736000180000000000000000000000000000000",
        ..STATED
    },
    Stated {
        name: "a base behind the oldest version",
        base: "01000000010000000000",
        singles: "00000000",
        ..STATED
    },
    Stated {
        name: "a cumulative of two versions",
        cumulatives: "00000001000000010000000000",
        ..STATED
    },
    Stated {
        name: "a version that isn't there",
        singles: "000000010000000200000000020000010000000000000000000000006f00000000000000010000000100088000000000000001000880000000000000010100000000000000000000000000000005c81c296f0f6edacf6039963d5def2a2dba052cfcdd802539023abf3c861cc736000100000000000000000000000000000005",
        ..STATED
    },
    Stated {
        name: "a version in the base",
        base: "01000000000000000000",
        ..STATED
    },
    Stated {
        name: "an epoch that the table hasn't had",
        singles: "000000010000000000000001020000010000000000000000000000006f00000000000000010000000100088000000000000001000880000000000000010100000000000000000000000000000005c81c296f0f6edacf6039963d5def2a2dba052cfcdd802539023abf3c861cc736000100000000000000000000000000000005",
        ..STATED
    },
    Stated {
        name: "an epoch before the table's first",
        begins: "00000001",
        ..STATED
    },
    Stated {
        name: "more epochs than there may be",
        begins: "000003e9",
        singles: "00000000",
        ..STATED
    },
    Stated {
        name: "a file that is named twice",
        singles: "000000020000000000000000020000010000000000000000000000006f00000000000000010000000100088000000000000001000880000000000000010100000000000000000000000000000005c81c296f0f6edacf6039963d5def2a2dba052cfcdd802539023abf3c861cc7360001000000000000000000000000000000050000000100000000020000010000000000000000000000006f00000000000000010000000100088000000000000001000880000000000000010100000000000000000000000000000005c81c296f0f6edacf6039963d5def2a2dba052cfcdd802539023abf3c861cc736000100000000000000000000000000000005",
        ..STATED
    },
];

/// The kind of a checkpoint as it is written, and as it was before tables could be recast.
const WRITTEN: &str = "0f";

const OLDER: &str = "0d";

// A store with this checkpoint, of this kind.
fn store_of(rt: &impl Abort, alloc: Global, stated: &Stated, kind: &str) -> String {
    let Stated {
        name: _,
        number,
        run,
        floor,
        versions,
        oldest,
        begins,
        totals,
        base,
        cumulatives,
        singles,
    } = *stated;
    let mut body = String::new(alloc);
    write!(body, "{kind}{number}{run}{floor}{versions}0001").expect(rt, "memory");
    write!(body, "0174{oldest}{begins}01016b00010176000000").expect(rt, "memory");
    write!(body, "00{totals}{base}{cumulatives}{singles}").expect(rt, "memory");
    let len = body.len() / 2;
    format!(in alloc; "0100000005010000000100|01{len:08x}{body}00\n{FILE}").expect(rt, "memory")
}

static QUERIED: Case<'static> = Case {
    script: b"query,t\nquery,t,0\n",
    ..PLAIN
};

// Stops the test where a store with this checkpoint is opened, or changed.
fn expect_misfit<R: Abort + Threads + Wait + Sync>(rt: &R, alloc: Global, stated: &Stated) {
    let store = store_of(rt, alloc, stated, WRITTEN);
    let disk = spelled(rt, alloc, store.as_str(), &[]);
    let mut left = call_over(rt, alloc, disk, &QUERIED);
    let text = "mesa: damaged journal=1 at=0 want=fits found=misfit:0\n";
    expect_text(rt, stated.name, &left, 7, text);
    expect_store(rt, alloc, &mut left.disk, store.as_str(), stated.name);
}

#[test]
fn checkpoints_that_do_not_fit(rt: HostRuntime) {
    for stated in &MISFITS {
        expect_misfit(&rt, rt.alloc(), stated);
    }
}

// A table that is stated without a first epoch.
static STATED_BEFORE: Stated = Stated {
    begins: "",
    ..STATED
};

// Stops the test where a store with a checkpoint that fits isn't opened, or isn't sound.
fn expect_fit<R: Abort + Threads + Wait + Sync>(
    rt: &R,
    alloc: Global,
    stated: &Stated,
    kind: &str,
) {
    let store = store_of(rt, alloc, stated, kind);
    let disk = spelled(rt, alloc, store.as_str(), &[]);
    let left = call_over(rt, alloc, disk, &QUERIED);
    let text = "0.1@0 rows 1 version=1\n1,5\n0.2@2 rows 1 version=0\n1,5\n";
    expect_text(rt, "a checkpoint that fits", &left, 0, text);
    let left = call_over(rt, alloc, left.disk, &CHECKED);
    expect_text(rt, "its check", &left, 0, "sound\n");
}

#[test]
fn a_checkpoint_that_fits(rt: HostRuntime) {
    expect_fit(&rt, rt.alloc(), &STATED, WRITTEN);
}

#[test]
fn an_older_checkpoint_that_fits(rt: HostRuntime) {
    expect_fit(&rt, rt.alloc(), &STATED_BEFORE, OLDER);
}

// ---- which area is live

// A store that is damaged is left as it is.
static AREAS: [Case<'static>; 17] = [
    Case {
        name: "a checkpoint of the first edition",
        store: "0100000005010000000100|01000000130800000001000000010000000000000000000000",
        left: Some(
            "0100000005010000000100|0100000013080000000100000001000000000000000000000100000005010000000200",
        ),
        ..PLAIN
    },
    Case {
        name: "a checkpoint of the second edition",
        store: "0100000005010000000100|01000000130b00000001000000010000000000000000000000",
        left: Some(
            "0100000005010000000100|01000000130b0000000100000001000000000000000000000100000005010000000200",
        ),
        ..PLAIN
    },
    Case {
        name: "a checkpoint of the third edition",
        store: "0100000005010000000100|01000000130d00000001000000010000000000000000000000",
        left: Some(
            "0100000005010000000100|01000000130d0000000100000001000000000000000000000100000005010000000200",
        ),
        ..PLAIN
    },
    Case {
        name: "a greater number in area 0",
        store: "01000000130f00000002000000050000000000000000000000|01000000130f00000001000000030000000000000000000000",
        left: Some(
            "01000000130f0000000200000005000000000000000000000100000005010000000600|01000000130f00000001000000030000000000000000000000",
        ),
        ..PLAIN
    },
    Case {
        name: "the same number in both areas",
        store: "01000000130f00000002000000050000000000000000000000|01000000130f00000002000000030000000000000000000000",
        left: Some(
            "01000000130f0000000200000005000000000000000000000100000005010000000600|01000000130f00000002000000030000000000000000000000",
        ),
        ..PLAIN
    },
    Case {
        name: "no body in either area",
        store: "00|00",
        left: Some("0100000005010000000100|00"),
        ..PLAIN
    },
    Case {
        name: "bytes behind a gate that is shut",
        store: "0100000005010000000100|00ff",
        left: Some("010000000501000000010100000005010000000200|00ff"),
        ..PLAIN
    },
    Case {
        name: "an older area whose record doesn't fit",
        store: "0100000005010000000200|01000000130f00000001000000010000000000000000000000",
        left: Some(
            "0100000005010000000200|01000000130f0000000100000001000000000000000000000100000005010000000200",
        ),
        ..PLAIN
    },
    Case {
        name: "an odd number in area 0",
        store: "01000000130f00000003000000050000000000000000000000|01000000130f00000001000000030000000000000000000000",
        status: 7,
        text: "mesa: damaged journal=0 at=0 want=fits found=misfit:0\n",
        left: Some(
            "01000000130f00000003000000050000000000000000000000|01000000130f00000001000000030000000000000000000000",
        ),
        ..PLAIN
    },
    Case {
        name: "the number 0",
        store: "01000000130f00000000000000010000000000000000000000",
        status: 7,
        text: "mesa: damaged journal=0 at=0 want=fits found=misfit:0\n",
        left: Some("01000000130f00000000000000010000000000000000000000"),
        ..PLAIN
    },
    Case {
        name: "a checkpoint behind a run",
        store: "0100000005010000000101000000130f00000002000000010000000000000000000000",
        status: 7,
        text: "mesa: damaged journal=0 at=10 want=fits found=misfit:0\n",
        left: Some("0100000005010000000101000000130f00000002000000010000000000000000000000"),
        ..PLAIN
    },
    Case {
        name: "a run first in area 1",
        store: "|0100000005010000000100",
        status: 7,
        text: "mesa: damaged journal=1 at=0 want=fits found=misfit:0\n",
        left: Some("|0100000005010000000100"),
        ..PLAIN
    },
    Case {
        name: "a checkpoint without its count of tables",
        store: "0100000005010000000100|01000000110f0000000100000001000000000000000000",
        status: 7,
        text: "mesa: damaged journal=1 at=0 want=fits found=misfit:17\n",
        left: Some("0100000005010000000100|01000000110f0000000100000001000000000000000000"),
        ..PLAIN
    },
    Case {
        name: "a byte behind a checkpoint",
        store: "0100000005010000000100|01000000140f0000000100000001000000000000000000000700",
        status: 7,
        text: "mesa: damaged journal=1 at=0 want=fits found=misfit:19\n",
        left: Some("0100000005010000000100|01000000140f0000000100000001000000000000000000000700"),
        ..PLAIN
    },
    Case {
        name: "area 1 cut short beside a live area 0",
        store: "0100000005010000000100|01000000130f000000",
        status: 7,
        text: "mesa: damaged journal=1 at=0 want=length:25 found=length:9\n",
        left: Some("0100000005010000000100|01000000130f000000"),
        ..PLAIN
    },
    Case {
        name: "both areas cut short",
        store: "0100000005010000000101000000050100|01000000130f000000",
        status: 7,
        text: "mesa: damaged journal=0 at=10 want=length:21 found=length:17\n",
        left: Some("0100000005010000000101000000050100|01000000130f000000"),
        ..PLAIN
    },
    Case {
        name: "area 1 cut short beside a record that doesn't fit",
        store: "0100000005010000000200|01000000130f000000",
        status: 7,
        text: "mesa: damaged journal=1 at=0 want=length:25 found=length:9\n",
        left: Some("0100000005010000000200|01000000130f000000"),
        ..PLAIN
    },
];

#[test]
fn which_area_is_live(rt: HostRuntime) {
    expect_cases(&rt, rt.alloc(), &AREAS);
}

// ---- from one area to the other and back, under loads and works

// A table with a view, and three hundred loads, of which 256 and more fill an area.
static BEGINNING: [Part; 2] = [
    Part::Spelled("table,t,k int;c text,v sum\nview,w,t,c,v\n"),
    Part::Lines(
        0,
        300,
        "row,t,{0},x,{1}\ncommit\n",
        [(1, 0), (7, 1), (0, 0)],
    ),
];

// Another three hundred; then so much is let go that there is a base, cumulatives and singletons.
static ROUNDS: [[Part; 3]; 3] = [
    [
        Part::Spelled("expire,120\nwork,t\nwork,t\nwork,t\nalter,t,add_value,m max,-1\n"),
        Part::Lines(
            0,
            300,
            "row,t,{0},y,{1},{0}\ncommit\n",
            [(1, 0), (3, 2), (0, 0)],
        ),
        Part::Spelled("expire,t,400\nwork,t\nwork,t\n"),
    ],
    [
        Part::Spelled("table,u,k int,v replace\n"),
        Part::Lines(
            0,
            300,
            "row,t,{0},x,-{1},5\nrow,u,{0},{1}\ncommit\n",
            [(1, 0), (1, 1), (0, 0)],
        ),
        Part::Spelled("expire,700\nwork,t\nwork,u\nwork,t\n"),
    ],
    [
        Part::Spelled("alter,t,drop_value,m\n"),
        Part::Lines(
            0,
            300,
            "row,t,{0},z,{1}\nrow,u,{0},{0}\ncommit\n",
            [(1, 0), (2, 1), (0, 0)],
        ),
        Part::Spelled("work,u\nwork,t\n"),
    ],
];

static QUESTIONS: &str = "query,w\nquery,t,,k<9\nquery,t,,,-,v\nexplain,t\nexplain,w\n";

fn asked() -> Case<'static> {
    Case {
        script: QUESTIONS.as_bytes(),
        ..PLAIN
    }
}

// Runs the script of some parts, and adds it to what was run before.
fn go_on<R: Abort + Threads + Wait + Sync>(
    rt: &R,
    alloc: Global,
    disk: MemDisk,
    before: &mut String,
    parts: &[Part],
) -> MemDisk {
    let script = whole(rt, alloc, parts);
    let case = script_run(script.as_bytes());
    let left = call_over(rt, alloc, disk, &case);
    expect_same(rt, &left.status, &0, &"a run of many loads");
    before.push_str(script.as_str()).expect(rt, "memory");
    left.disk
}

// Opens the store, which goes on in the other area, whatever moment of that it is stopped at; the answers are those of
// the plain warehouse.
fn turn<R: Abort + Threads + Wait + Sync>(
    rt: &R,
    alloc: Global,
    disk: MemDisk,
    before: &str,
    area: Area,
    number: u32,
) -> MemDisk {
    let since = disk.clock();
    let mut left = call_over(rt, alloc, disk, &asked());
    expect_replayed_behind(rt, alloc, before, QUESTIONS, &left.text);
    let answers = str::from_utf8(&left.text).unwrap_or("no text");
    for moment in since..=left.disk.clock() {
        expect_same_answers(rt, alloc, &left.disk, moment, answers);
    }
    expect_checkpoint(rt, &mut left.disk, area, number);
    left.disk
}

/// Stops the test where an area doesn't begin with the checkpoint of a number.
pub fn expect_checkpoint(rt: &impl Abort, disk: &mut MemDisk, area: Area, number: u32) {
    let mut front = [0u8; 10];
    if disk.journal_len(area) >= 10 {
        disk.journal_read(area, 0, &mut front).expect(rt, "an area");
    }
    let [gate, _, _, _, _, kind, a, b, c, d] = front;
    let found = (gate, kind, u32::from_be_bytes([a, b, c, d]));
    expect_same(rt, &found, &(1, 15, number), &"the first record of an area");
}

// Stops the test where an image of a moment isn't sound or answers otherwise.
fn expect_same_answers<R: Abort + Threads + Wait + Sync>(
    rt: &R,
    alloc: Global,
    disk: &MemDisk,
    moment: u64,
    answers: &str,
) {
    for pick in 0..5u8 {
        let image = disk.image(moment, pick).expect(rt, "memory");
        let checked = call_over(rt, alloc, image, &CHECKED);
        expect_text(rt, "the check of an image", &checked, 0, "sound\n");
        let left = call_over(rt, alloc, checked.disk, &asked());
        expect_text(rt, "the answers of an image", &left, 0, answers);
    }
}

#[test]
fn from_area_to_area(rt: HostRuntime) {
    let alloc = rt.alloc();
    let mut before = String::new(alloc);
    let mut disk = go_on(&rt, alloc, empty_disk(alloc), &mut before, &BEGINNING);
    let mut area = Area::One;
    let mut number = 1;
    for round in &ROUNDS {
        disk = turn(&rt, alloc, disk, before.as_str(), area, number);
        disk = go_on(&rt, alloc, disk, &mut before, round);
        area = match area {
            Area::Zero => Area::One,
            Area::One => Area::Zero,
        };
        number = number.wrapping_add(1);
    }
    let disk = turn(&rt, alloc, disk, before.as_str(), area, number);
    let checked = call_over(&rt, alloc, disk, &CHECKED);
    expect_text(&rt, "the check of the store", &checked, 0, "sound\n");
}
