// The words that the program is called with, and the script that a seed gives.
use crate::expected::expect_same;
use mesa_generate::generate;
use mesa_parse::{Form, read_form};
use std::str;

// What words ask for.
#[derive(Clone, Copy, Debug, PartialEq, Eq)]
enum Asked<'a> {
    Nothing,
    Run,
    Check,
    Gen { seed: u32, versions: u32 },
    Digest(&'a [u8]),
}

fn what_is_asked(form: &Option<Form>) -> Asked<'_> {
    match form {
        None => Asked::Nothing,
        Some(Form::Run) => Asked::Run,
        Some(Form::Check) => Asked::Check,
        Some(Form::Gen { seed, versions }) => Asked::Gen {
            seed: *seed,
            versions: *versions,
        },
        Some(Form::Digest { relation }) => Asked::Digest(relation.as_slice()),
    }
}

static WORDS: [(&[&str], Asked<'static>); 23] = [
    (&["run"], Asked::Run),
    (&["check"], Asked::Check),
    (
        &["gen", "1", "20000"],
        Asked::Gen {
            seed: 1,
            versions: 20_000,
        },
    ),
    (
        &["gen", "065536", "01"],
        Asked::Gen {
            seed: 65_536,
            versions: 1,
        },
    ),
    (&["digest", "t"], Asked::Digest(b"t")),
    (&["digest", "digest"], Asked::Digest(b"digest")),
    (&["digest", ""], Asked::Digest(b"")),
    (&[], Asked::Nothing),
    (&[""], Asked::Nothing),
    (&["help"], Asked::Nothing),
    (&["run", "run"], Asked::Nothing),
    (&["gen", "1"], Asked::Nothing),
    (&["gen", "1", "1", "1"], Asked::Nothing),
    (&["gen", "65537", "1"], Asked::Nothing),
    (&["gen", "1", "0"], Asked::Nothing),
    (&["gen", "+1", "1"], Asked::Nothing),
    (&["gen", "--", "1", "1"], Asked::Nothing),
    (&["digest"], Asked::Nothing),
    (&["digest", "t", "u"], Asked::Nothing),
    (&["digest", "-t"], Asked::Nothing),
    (&["digests", "t"], Asked::Nothing),
    (&["run", "--help"], Asked::Nothing),
    (&["-h"], Asked::Nothing),
];

#[test]
fn reads_words(rt: HostRuntime) {
    for (words, wanted) in &WORDS {
        let found = read_form(rt.alloc(), words).expect(&rt, "memory");
        expect_same(&rt, &what_is_asked(&found), wanted, words);
    }
}

static SEED_ONE: &str =
    "table,facts,day int;site int,clicks sum;low min;last replace\nview,by_site,facts,site,clicks;low\nrow,facts,0,20,94,305,0\nrow,facts,0,49,8,819,0\nrow,facts,0,62,97,472,0\nrow,facts,0,55,-66,836,0\ncommit\nwork,facts\nquery,facts,latest,,-,clicks;low\nquery,by_site,latest,site<16,,,8\nquery,facts,latest,day=0&site>=48,,,4\n";

#[test]
fn generates_a_script(rt: HostRuntime) {
    let script = generate(rt.alloc(), 1, 1).expect(&rt, "memory");
    expect_same(&rt, &str::from_utf8(&script), &Ok(SEED_ONE), &"seed 1");
}
