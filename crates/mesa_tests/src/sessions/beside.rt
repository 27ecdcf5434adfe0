// Eight sessions of 200 commands each beside each other, in whatever order their turns come.
use crate::call::run;
use crate::expected::expect_same;
use crate::sessions::replay::expect_replayed;
use crate::texts::push_filled;
use std::alloc::Global;
use std::process::Abort;

/// The tables and the view of all sessions, and a short lease, so that works are lost too.
static TABLES: &str = "lease,12\n\
     table,t,k int;c text,v sum;h max\n\
     table,u,k int,r replace;m min\n\
     view,w,t,c,h;v\n";

// Records, and how many commands they are: loads of one table and of both, queries, works, expiries, pins, queries
// by them, and their releases. In them stand a key, a letter, a value, the number of the session's step and a token;
// the numbers of versions and tokens rise with the session's steps, so most are there.
static RECORDS: [(&str, u32); 16] = [
    ("row,t,{0},c{1},{2},{3}\ncommit\n", 1),
    ("row,t,{0},c{1},{2},{3}\nrow,t,{0},d,1,{3}\ncommit\n", 1),
    ("row,t,{0},c{1},-{2},{3}\ncommit\n", 1),
    ("row,t,{0},c{1},{2},{3}\nrow,u,{1},{2},{3}\ncommit\n", 1),
    ("row,u,{0},{2},{3}\nrow,u,{1},1,1\ncommit\n", 1),
    ("query,t,latest,k<{0}\n", 1),
    ("query,t,,c=c{1}|d\n", 1),
    ("query,t,{3},,c,v\n", 1),
    ("query,w\n", 1),
    ("query,u,,k>={1},,,5\n", 1),
    ("work,t\n", 1),
    ("explain,t\nwork,t\n", 2),
    ("work,u\n", 1),
    ("expire,t,{3}\nexpire,{4}\n", 2),
    ("pin\nquery,t,pin:{4}\n", 2),
    ("release,{4}\n", 1),
];

// The next number of a sequence.
fn next(number: u32) -> u32 {
    (number.wrapping_mul(75).wrapping_add(74)) % 65537
}

// Adds the records of a session's step by a number; how many commands they are.
fn push_step(
    rt: &impl Abort,
    script: &mut String,
    all: &[(&str, u32); 16],
    step: u32,
    number: u32,
) -> u32 {
    let place = (number % 16) as usize;
    let (records, commands) = all[place];
    let numbers = [number % 23, number % 3, number % 101, step, 1 + step / 16];
    push_filled(rt, script, records, &numbers);
    commands
}

/// Adds a session's commands, of these sorts: so many, or one more where the last are two.
pub fn push_session(
    rt: &impl Abort,
    script: &mut String,
    all: &[(&str, u32); 16],
    session: u32,
    commands: u32,
) {
    let mut number = session;
    let mut count = 0u32;
    for step in 0..commands {
        if count < commands {
            number = next(number);
            count = count.saturating_add(push_step(rt, script, all, step, number));
        }
    }
}

// The prologue's commands come behind the tables; each further session has its own.
fn eight_sessions(rt: &impl Abort, alloc: Global) -> String {
    let mut script = String::from_str(alloc, TABLES).expect(rt, "memory");
    push_session(rt, &mut script, &RECORDS, 0, 200);
    for session in 1..8u32 {
        script.push_str("session\n").expect(rt, "memory");
        push_session(rt, &mut script, &RECORDS, session, 200);
    }
    script
}

#[test]
fn eight_sessions_of_200_commands(rt: HostRuntime) {
    let script = eight_sessions(&rt, rt.alloc());
    let left = run(&rt, rt.alloc(), script.as_str());
    expect_same(&rt, &left.status, &1, &"some replies are refusals");
    expect_replayed(&rt, rt.alloc(), script.as_str(), &left.text);
}
