// The script that a seed gives: what is printed of its run, and the words that ask for it.
use crate::call::{Case, PLAIN, call_over, empty_disk, run};
use crate::cases::{expect_cases, expect_text};
use crate::sessions::replay::expect_replayed;
use mesa_generate::generate;
use std::alloc::Global;
use std::process::Abort;
use std::str;
use std::sync::Wait;
use std::thread::Threads;

const USAGE: &str =
    "mesa: usage: mesa run | mesa check | mesa gen SEED VERSIONS | mesa digest NAME\n";

const ONE: &str = "gen 1 1\n\
     0.5@5 rows 1 version=0\n\
     133,305\n\
     0.6@7 rows 0 version=0\n\
     0.7@9 rows 3 version=0\n\
     0,49,8,819,0\n\
     0,55,-66,836,0\n\
     0,62,97,472,0\n";

// The source fails in every call: none of these asks it for anything.
const GEN: Case<'static> = Case {
    name: "the words of a seed",
    source_fails: &[0],
    ..PLAIN
};

const UNSERVED: Case<'static> = Case {
    status: 2,
    text: USAGE,
    turns: Some(0),
    left: Some(""),
    ..GEN
};

static CASES: [Case<'static>; 9] = [
    Case {
        words: &["gen", "1", "1"],
        text: ONE,
        turns: Some(11),
        ..GEN
    },
    // Leading zeros are taken, and the line has the numbers in their shortest form.
    Case {
        words: &["gen", "001", "01"],
        text: ONE,
        turns: Some(11),
        ..GEN
    },
    // The script was run when the sink fails.
    Case {
        words: &["gen", "1", "1"],
        sink_fails: &[0],
        status: 5,
        turns: Some(11),
        ..GEN
    },
    Case {
        words: &["gen", "1"],
        ..UNSERVED
    },
    Case {
        words: &["gen", "65537", "1"],
        ..UNSERVED
    },
    Case {
        words: &["gen", "1", "0"],
        ..UNSERVED
    },
    Case {
        words: &["gen", "1", "20001"],
        ..UNSERVED
    },
    Case {
        words: &["gen", "-1", "1"],
        ..UNSERVED
    },
    Case {
        words: &["gen", "1", "1", "1"],
        ..UNSERVED
    },
];

#[test]
fn words_of_a_seed(rt: HostRuntime) {
    expect_cases(&rt, rt.alloc(), &CASES);
}

static LONG: Case<'static> = Case {
    words: &["gen", "7", "400"],
    ..GEN
};

// Stops the test where `gen` prints anything but its line and these blocks.
fn expect_printed<R: Abort + Threads + Wait + Sync>(rt: &R, alloc: Global, blocks: &str) {
    let text = format!(in alloc; "gen 7 400\n0.819@{blocks}").expect(rt, "memory");
    let left = call_over(rt, alloc, empty_disk(alloc), &LONG);
    expect_text(rt, "400 versions of seed 7", &left, 0, text.as_str());
}

// Stops the test where the printed text of the script isn't what the plain warehouse prints, of works but their form, or
// `gen` prints anything but its last three blocks, in each of two calls. Two commands make the tables, each version has
// two, each twenty-fifth one more, and the last three are queries.
fn expect_generated<R: Abort + Threads + Wait + Sync>(rt: &R, alloc: Global, script: &str) {
    let left = run(rt, alloc, script);
    expect_replayed(rt, alloc, script, &left.text);
    let all = str::from_utf8(&left.text).expect(rt, "a text");
    let (_before, blocks) = all.split_once("\n0.819@").expect(rt, "block 819");
    expect_printed(rt, alloc, blocks);
    expect_printed(rt, alloc, blocks);
}

#[test]
fn four_hundred_versions_twice(rt: HostRuntime) {
    let script = generate(rt.alloc(), 7, 400).expect(&rt, "memory");
    let script = str::from_utf8(&script).expect(&rt, "a text");
    expect_generated(&rt, rt.alloc(), script);
}
