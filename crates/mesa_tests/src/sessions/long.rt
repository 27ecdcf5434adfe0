// A long run with expiry and work: its answers are those of a warehouse that merges nothing, and what is on the
// disk is bounded by what is live.
use crate::call::{Left, run};
use crate::expected::expect_same;
use crate::sessions::replay::expect_replayed;
use crate::texts::push_filled;
use mesa_disk::Disk;
use std::alloc::Global;
use std::process::Abort;
use std::str;

/// How many versions there are.
const VERSIONS: u32 = 2_000;

static TABLES: &str = "table,t,k int;c text,v sum;l replace\n\
     view,w,t,c,v\n";

// A version: two rows, of a key and a letter.
static VERSION: &str = "row,t,{0},c{1},{2},{2}\nrow,t,-{0},d,-{2},1\ncommit\n";

// Behind each tenth: all but the last 25 are let go, and there are three works and two queries.
static WORKS: &str = "expire,{0}\nwork,t\nwork,t\nwork,t\nquery,w\nquery,t,{0},k>40\n";

fn push_version(rt: &impl Abort, script: &mut String, version: u32) {
    push_filled(rt, script, VERSION, &[version % 50, version % 4, version]);
    if version % 10 == 9 {
        push_filled(rt, script, WORKS, &[version.saturating_sub(24)]);
    }
}

fn long_script(rt: &impl Abort, alloc: Global) -> String {
    let mut script = String::from_str(alloc, TABLES).expect(rt, "memory");
    for version in 0..VERSIONS {
        push_version(rt, &mut script, version);
    }
    script.push_str("query,t\nexplain,t\n").expect(rt, "memory");
    script
}

// What the last plan reads.
static PLAN: &str = " spans 6\n\
     [0,1975]\n\
     [1976,1995]\n\
     [1996,1996]\n\
     [1997,1997]\n\
     [1998,1998]\n\
     [1999,1999]\n";

// A base, two cumulatives and the 24 singletons behind the base: of each a file of the table and one of the view.
fn expect_few(rt: &impl Abort, left: &mut Left) {
    expect_same(rt, &left.status, &0, &"no reply is a refusal");
    let plan = left.text.len().saturating_sub(PLAN.len());
    let last = left.text.get(plan..).unwrap_or(b"");
    expect_same(rt, &str::from_utf8(last), &Ok(PLAN), &"the last plan");
    let files = left.disk.file_ids().expect(rt, "a list of files");
    expect_same(rt, &files.len(), &54, &"the files of 27 deltas");
}

#[test]
fn two_thousand_versions(rt: HostRuntime) {
    let script = long_script(&rt, rt.alloc());
    let mut left = run(&rt, rt.alloc(), script.as_str());
    expect_few(&rt, &mut left);
    expect_replayed(&rt, rt.alloc(), script.as_str(), &left.text);
}
