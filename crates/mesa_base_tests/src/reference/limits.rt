// Limits, and the refusals at them.
use crate::reference::trial::{expect, expect_last, replies};
use std::alloc::Global;
use std::process::Abort;

// Lines so many times behind others.
fn repeated(rt: &impl Abort, alloc: Global, before: &str, lines: &str, times: u32) -> String {
    let mut script = String::from_str(alloc, before).expect(rt, "memory");
    for _time in 0..times {
        script.push_str(lines).expect(rt, "memory");
    }
    script
}

// Records of so many tables.
fn tables(rt: &impl Abort, alloc: Global, count: u32) -> String {
    let mut script = String::new(alloc);
    for table in 0..count {
        write!(script, "table,t{table},k int,v sum\n").expect(rt, "memory");
    }
    script
}

#[test]
fn tables_full(rt: HostRuntime) {
    let script = tables(&rt, rt.alloc(), 33);
    let line = "0.33@0 refused tables_full limit=32";
    expect_last(&rt, rt.alloc(), "tables full", script.as_str(), line);
}

// A table, and records of so many views of it.
fn views(rt: &impl Abort, alloc: Global, count: u32) -> String {
    let mut script = String::from_str(alloc, "table,t,k int,v sum\n").expect(rt, "memory");
    for view in 0..count {
        write!(script, "view,w{view},t,k,v\n").expect(rt, "memory");
    }
    script
}

#[test]
fn views_full(rt: HostRuntime) {
    let script = views(&rt, rt.alloc(), 9);
    let line = "0.10@0 refused tables_full limit=8";
    expect_last(&rt, rt.alloc(), "views full", script.as_str(), line);
}

static PINS_FULL: &str = "0.65@0 pinned token=63 version=0\n\
                          1.1@0 pinned token=1 version=0\n\
                          1.2@0 refused pins_full limit=64\n\
                          1.3@0 released token=1\n\
                          1.4@0 pinned token=2 version=0\n";

// 63 pins of one session, and two of another. The limit is that of all sessions together.
#[test]
fn pins_full(rt: HostRuntime) {
    let before = "table,t,k int,v sum\ncommit\n";
    let mut script = repeated(&rt, rt.alloc(), before, "pin,0\n", 63);
    let end = "session\npin,0\npin,0\nrelease,1\npin,0\n";
    script.push_str(end).expect(&rt, "memory");
    let replies = replies(&rt, rt.alloc(), script.as_str());
    let text = replies.as_str();
    assert!(rt; text.ends_with(PINS_FULL), "pins full: {text}");
}

// 1,000 changes of a table, and some records behind them.
fn changes(rt: &impl Abort, alloc: Global, end: &str) -> String {
    let pair = "alter,t,add_value,w sum,0\nalter,t,drop_value,w\n";
    let mut script = repeated(rt, alloc, "table,t,k int,v sum\n", pair, 500);
    script.push_str(end).expect(rt, "memory");
    script
}

// Records behind 1,000 changes, and what is replied to the last.
static CHANGES: [(&str, &str); 2] = [
    ("", "0.1001@0 altered t epoch=1000"),
    (
        "alter,t,add_value,w sum,0\n",
        "0.1002@0 refused epochs_full limit=1000",
    ),
];

#[test]
fn epochs_full(rt: HostRuntime) {
    for (end, line) in &CHANGES {
        let script = changes(&rt, rt.alloc(), end);
        expect_last(&rt, rt.alloc(), "1,000 changes", script.as_str(), line);
    }
}

#[test]
fn seventeen_columns(rt: HostRuntime) {
    expect(
        &rt,
        rt.alloc(),
        "seventeen columns",
        "table,x,a int;b int;c int;d int;e int;f int;g int;h int;i int;j int;k int;l int;m int;n int;o int;p int;q int,v sum\n\
         table,x,a int;b int;c int;d int;e int;f int;g int;h int;i int;j int;k int;l int;m int;n int;o int;p int,v sum\n\
         alter,x,add_key,q int,0\n\
         alter,x,add_value,w sum,0\n",
        "0.1@0 refused bad_schema reason=too_many_columns\n\
         0.2@0 table x\n\
         0.3@0 refused bad_schema reason=too_many_columns\n\
         0.4@0 altered x epoch=1\n",
    );
}
