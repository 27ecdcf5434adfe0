// Head lines.
use crate::expected::expect_same;
use mesa_file::{Damage, FileId, Seen};
use mesa_filter::VersionWord;
use mesa_list::Items;
use mesa_model::{Refusal, Reply, SchemaFault};
use mesa_print::{HEAD_ROOM, head};
use mesa_schema::Name;
use std::alloc::Global;
use std::process::Abort;
use std::str;

// Stops the test of a reply to the fifth command of the prologue, at position 8, that has another head line.
fn expect(rt: &impl Abort, reply: &Reply, want: &'static str) {
    let mut line = [0; HEAD_ROOM];
    let end = head(0, 5, 8, reply, &mut line);
    expect_same(rt, &str::from_utf8(&line[..end]), &Ok(want), &"a head line");
}

// A reply and its head line.
type Line = (Reply, &'static str);

// The same of each reply.
fn expect_all(rt: &impl Abort, lines: &[Line]) {
    for (reply, want) in lines {
        expect(rt, reply, want);
    }
}

fn name(rt: &impl Abort, alloc: Global, text: &str) -> Name {
    Name::read(alloc, text.as_bytes()).expect(rt, "a name")
}

fn replies() -> [Line; 9] {
    [
        (
            Reply::Loaded {
                version: 0,
                rows: 4,
            },
            "0.5@8 loaded version=0 rows=4\n",
        ),
        (
            Reply::Rows {
                rows: 1000,
                version: 1,
                more: true,
            },
            "0.5@8 rows 1000 version=1 more\n",
        ),
        (
            Reply::Rows {
                rows: 3,
                version: 1,
                more: false,
            },
            "0.5@8 rows 3 version=1\n",
        ),
        (
            Reply::Pinned {
                token: 0,
                version: 2,
            },
            "0.5@8 pinned token=0 version=2\n",
        ),
        (Reply::Released { token: 7 }, "0.5@8 released token=7\n"),
        (
            Reply::Expired {
                table: None,
                oldest: 1,
            },
            "0.5@8 expired oldest=1\n",
        ),
        (Reply::Swapped { from: 0, to: 1 }, "0.5@8 swapped 0 1\n"),
        (Reply::Idle, "0.5@8 idle\n"),
        (Reply::Busy { lease: 2 }, "0.5@8 busy lease=2\n"),
    ]
}

#[test]
fn prints_replies(rt: HostRuntime) {
    expect_all(&rt, &replies());
}

#[test]
fn prints_spans(rt: HostRuntime) {
    let spans = vec![in rt.alloc(); (0, 3), (4, 4)].expect(&rt, "memory");
    let ranges = Items::from_vec(spans);
    let by = Some(name(&rt, rt.alloc(), "w"));
    expect(&rt, &Reply::Spans { ranges, by }, "0.5@8 spans 2\n");
}

// Replies that name a table or a view, by their names.
fn named(table: Name, view: Name, altered: Name, expired: Name, recast: Name) -> [Line; 5] {
    let altered = Reply::Altered {
        table: altered,
        epoch: 1,
    };
    let expired = Reply::Expired {
        table: Some(expired),
        oldest: 4_294_967_294,
    };
    let recast = Reply::Recast {
        table: recast,
        epoch: 2,
    };
    [
        (Reply::Table { name: table }, "0.5@8 table a\n"),
        (Reply::View { name: view }, "0.5@8 view c\n"),
        (altered, "0.5@8 altered a epoch=1\n"),
        (expired, "0.5@8 expired d oldest=4294967294\n"),
        (recast, "0.5@8 recast e epoch=2\n"),
    ]
}

fn named_replies(rt: &impl Abort, alloc: Global) -> [Line; 5] {
    let table = name(rt, alloc, "a");
    let view = name(rt, alloc, "c");
    let altered = name(rt, alloc, "a");
    let expired = name(rt, alloc, "d");
    let recast = name(rt, alloc, "e");
    named(table, view, altered, expired, recast)
}

#[test]
fn prints_named_replies(rt: HostRuntime) {
    expect_all(&rt, &named_replies(&rt, rt.alloc()));
}

// Refusals, and their head lines.
fn refusals() -> [Line; 12] {
    let damage = Damage {
        file: FileId::of(0x100_0000_0000),
        place: 0,
        want: Seen::Length(103),
        found: Seen::Absent,
    };
    let reason = SchemaFault::NameTwice;
    let future = Refusal::Future {
        asked: VersionWord::Latest,
        newest: None,
    };
    let later = Refusal::Future {
        asked: VersionWord::At(3),
        newest: Some(2),
    };
    [
        (
            Reply::Refused(Refusal::NoTable { row: Some(2) }),
            "0.5@8 refused no_table row=2\n",
        ),
        (
            Reply::Refused(Refusal::NoTable { row: None }),
            "0.5@8 refused no_table\n",
        ),
        (
            Reply::Refused(Refusal::BadSchema { reason }),
            "0.5@8 refused bad_schema reason=name_twice\n",
        ),
        (
            Reply::Refused(Refusal::BadRow { row: 1, column: 2 }),
            "0.5@8 refused bad_row row=1 column=2\n",
        ),
        (
            Reply::Refused(future),
            "0.5@8 refused future asked=latest newest=none\n",
        ),
        (
            Reply::Refused(later),
            "0.5@8 refused future asked=3 newest=2\n",
        ),
        (
            Reply::Refused(Refusal::PinsFull { limit: 64 }),
            "0.5@8 refused pins_full limit=64\n",
        ),
        (
            Reply::Refused(Refusal::Damaged(damage)),
            "0.5@8 refused damaged file=0000010000000000 place=0 want=length:103 found=absent\n",
        ),
        (
            Reply::Refused(Refusal::Lost {
                lease: 1,
                holder: None,
            }),
            "0.5@8 refused lost lease=1 holder=none\n",
        ),
        (Reply::Refused(Refusal::Memory), "0.5@8 refused memory\n"),
        (
            Reply::Refused(Refusal::Changed { epoch: 3 }),
            "0.5@8 refused changed epoch=3\n",
        ),
        (
            Reply::Refused(Refusal::TooManyDeltas { limit: 1_000_000 }),
            "0.5@8 refused too_many_deltas limit=1000000\n",
        ),
    ]
}

#[test]
fn prints_refusals(rt: HostRuntime) {
    expect_all(&rt, &refusals());
}

fn sum_bound(rt: &impl Abort, alloc: Global) -> Reply {
    let table = name(rt, alloc, "t");
    let column = name(rt, alloc, "v");
    Reply::Refused(Refusal::SumBound { table, column })
}

#[test]
fn prints_a_refusal_with_names(rt: HostRuntime) {
    let reply = sum_bound(&rt, rt.alloc());
    expect(&rt, &reply, "0.5@8 refused sum_bound table=t column=v\n");
}
