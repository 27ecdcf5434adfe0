// Scripts whose commands are done by a plain warehouse.
ghost use Rattle.std.specs.Prelude.{◌≡◌, ◌<◌, ◌+◌, ◌^◌};
ghost use Rattle.mesa_test_oracle.specs.Plain.{GaveAtMost, is_plain};

use crate::expected::expect_same;
use crate::reference::replies::push_reply;
use mesa_key::KeyType;
use mesa_model::Command;
use mesa_parse::parse;
use mesa_script::Script;
use mesa_test_oracle::PlainWarehouse;
use std::alloc::Global;
use std::process::Abort;

// Whether the warehouse does a command itself.
fn is_done(command: &Command) -> bool
    ensures { result ≡ is_plain command.now }
{
    !matches!(command, Command::Explain(_) | Command::Work(_))
}

// The types of the group columns of a query's rows; none where there is no page.
fn kinds_asked(
    rt: &impl Abort,
    alloc: Global,
    warehouse: &PlainWarehouse,
    session: u16,
    command: &Command,
) -> Vec<KeyType> {
    let mut kinds = Vec::new(alloc);
    if let Command::Query(words) = command {
        if let Ok((_, query)) = warehouse.query(session, words).expect(rt, "memory") {
            let asked = query.group_kinds();
            kinds.extend_from_slice(asked).expect(rt, "memory");
        }
    }
    kinds
}

// Does a command after so many others, and adds what is replied.
fn apply(
    rt: &impl Abort,
    alloc: Global,
    warehouse: &mut PlainWarehouse,
    done: u32,
    session: u16,
    number: u32,
    command: &Command,
    text: &mut Vec<u8>,
)
    requires few { GaveAtMost done warehouse.old }
    requires room { done + 1 < 2 ^ 32 }
    ensures { GaveAtMost (done + 1) warehouse.new }
{
    assert!(rt; is_done(command));
    let kinds = kinds_asked(rt, alloc, warehouse, session, command);
    let reply = warehouse.apply(session, command).expect(rt, "memory");
    push_reply(rt, alloc, session, number, &reply, &kinds, text);
}

// Does a session's commands after so many others; how many there are then.
fn do_session(
    rt: &impl Abort,
    alloc: Global,
    warehouse: &mut PlainWarehouse,
    before: u32,
    session: u16,
    commands: &[Command],
    text: &mut Vec<u8>,
) -> u32
    requires { GaveAtMost before warehouse.old }
    ensures { GaveAtMost result warehouse.new }
{
    let mut done = before;
    let mut number = 0u32;
    'commands: for command in commands {
        assert!(rt; done < u32::MAX, "too many commands");
        number = number.wrapping_add(1);
        apply(rt, alloc, warehouse, done, session, number, command, text);
        done += 1;
    }
    done
}

// Does the commands of one session after another.
fn do_sessions(
    rt: &impl Abort,
    alloc: Global,
    warehouse: &mut PlainWarehouse,
    script: &Script,
    text: &mut Vec<u8>,
)
    requires { GaveAtMost 0 warehouse.old }
{
    let mut done = 0;
    let mut session = 0u16;
    'sessions: for commands in script.sessions.as_slice() {
        let commands = commands.as_slice();
        done = do_session(rt, alloc, warehouse, done, session, commands, text);
        session = session.wrapping_add(1);
    }
}

/// What is replied to a script's commands, one session after another, each as at position 0.
pub fn replies(rt: &impl Abort, alloc: Global, script: &str) -> String {
    let bytes = script.as_bytes().to_vec(alloc).expect(rt, "memory");
    let script = parse(alloc, bytes).ok().expect(rt, "a script");
    let mut warehouse = PlainWarehouse::new(alloc);
    let mut text = Vec::new(alloc);
    do_sessions(rt, alloc, &mut warehouse, &script, &mut text);
    String::from_utf8(text).ok().expect(rt, "a text")
}

/// A case's name, its script, and what is replied.
pub type Case = (&'static str, &'static str, &'static str);

/// Stops the test of a case whose script is replied to otherwise.
pub fn expect(rt: &impl Abort, alloc: Global, case: &str, script: &str, text: &str) {
    let replies = replies(rt, alloc, script);
    expect_same(rt, &replies.as_str(), &text, &case);
}

/// The same of each case.
pub fn expect_all(rt: &impl Abort, alloc: Global, cases: &[Case]) {
    for (case, script, text) in cases {
        expect(rt, alloc, case, script, text);
    }
}

/// The same of the reply to the last command.
pub fn expect_last(rt: &impl Abort, alloc: Global, case: &str, script: &str, line: &str) {
    let replies = replies(rt, alloc, script);
    expect_same(rt, &replies.lines().last(), &Some(line), &case);
}
