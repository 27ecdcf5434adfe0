// Scripts that are read, and scripts that are refused.
use crate::expected::expect_same;
use itoa::Buffer;
use mesa_batch::{LoadRows, RowView};
use mesa_filter::{QueryWords, VersionWord};
use mesa_model::{
    AlterWords, ChangeWords, Command, ExplainWords, RecastWords, TableWords, ViewWords,
};
use mesa_parse::parse;
use mesa_schema::Words;
use mesa_script::{Reason, ScriptError};
use std::alloc::{AllocError, Global};
use std::process::Abort;
use std::str;

// Lists of bytes, each behind a comma.
fn push_all(out: &mut Vec<u8>, lists: &[Words]) -> Result<(), AllocError> {
    for list in lists {
        out.push(b',')?;
        out.extend_from_slice(list.as_slice())?;
    }
    Ok(())
}

// A row of a load behind a space.
fn push_row(out: &mut Vec<u8>, row: &RowView) -> Result<(), AllocError> {
    out.push(b' ')?;
    out.extend_from_slice(row.table())?;
    for place in 0..row.fields().len() {
        if let Some(field) = row.fields().get(place) {
            out.push(b',')?;
            out.extend_from_slice(field)?;
        }
    }
    Ok(())
}

fn push_table(out: &mut Vec<u8>, words: &TableWords) -> Result<(), AllocError> {
    out.extend_from_slice(b"table ")?;
    out.extend_from_slice(words.table.as_slice())?;
    for column in words.keys.as_slice() {
        out.push(b' ')?;
        out.extend_from_slice(column.name.as_slice())?;
    }
    for column in words.values.as_slice() {
        out.push(b':')?;
        out.extend_from_slice(column.name.as_slice())?;
    }
    Ok(())
}

fn push_view(out: &mut Vec<u8>, words: &ViewWords) -> Result<(), AllocError> {
    out.extend_from_slice(b"view ")?;
    out.extend_from_slice(words.table.as_slice())?;
    push_all(out, words.keys.as_slice())?;
    push_all(out, words.values.as_slice())
}

fn push_load(out: &mut Vec<u8>, rows: &LoadRows) -> Result<(), AllocError> {
    out.extend_from_slice(b"load")?;
    for place in 0..rows.len() {
        push_row(out, &rows.row(place))?;
    }
    Ok(())
}

fn push_number(out: &mut Vec<u8>, number: u32) -> Result<(), AllocError> {
    out.push(b' ')?;
    out.extend_from_slice(Buffer::new().format(number).as_bytes())
}

fn push_version(out: &mut Vec<u8>, version: VersionWord) -> Result<(), AllocError> {
    match version {
        VersionWord::Latest => out.extend_from_slice(b" latest"),
        VersionWord::At(number) => push_number(out, number),
        VersionWord::Pin(token) => {
            out.extend_from_slice(b" pin")?;
            push_number(out, token)
        }
    }
}

fn push_query(out: &mut Vec<u8>, words: &QueryWords) -> Result<(), AllocError> {
    out.extend_from_slice(b"query ")?;
    out.extend_from_slice(words.relation.as_slice())?;
    for part in [&words.filter, &words.group, &words.values, &words.resume] {
        out.push(b',')?;
        out.extend_from_slice(part.as_slice())?;
    }
    push_version(out, words.version)?;
    push_number(out, words.limit)
}

// A change: its sign, its column's name, and its default behind a comma.
fn push_alter(out: &mut Vec<u8>, words: &AlterWords) -> Result<(), AllocError> {
    out.extend_from_slice(b"alter ")?;
    out.extend_from_slice(words.table.as_slice())?;
    let (sign, name, default) = match &words.change {
        ChangeWords::AddValue { column, default } => (b" :", &column.name, Some(default)),
        ChangeWords::DropValue { name } => (b" -", name, None),
        ChangeWords::AddKey { column, default } => (b" +", &column.name, Some(default)),
    };
    out.extend_from_slice(sign)?;
    out.extend_from_slice(name.as_slice())?;
    let Some(default) = default else {
        return Ok(());
    };
    out.push(b',')?;
    out.extend_from_slice(default.as_slice())
}

fn push_named(out: &mut Vec<u8>, what: &[u8], name: &Words) -> Result<(), AllocError> {
    out.extend_from_slice(what)?;
    out.push(b' ')?;
    out.extend_from_slice(name.as_slice())
}

fn push_expiry(out: &mut Vec<u8>, table: &Option<Words>, version: u32) -> Result<(), AllocError> {
    match table {
        Some(name) => push_named(out, b"expire", name)?,
        None => out.extend_from_slice(b"expire")?,
    }
    push_number(out, version)
}

// What an explain asks of, with its filter in brackets, where it has one.
fn push_explain(out: &mut Vec<u8>, words: &ExplainWords) -> Result<(), AllocError> {
    push_named(out, b"explain", &words.relation)?;
    push_version(out, words.version)?;
    let Some(filter) = &words.filter else {
        return Ok(());
    };
    out.extend_from_slice(b" (")?;
    out.extend_from_slice(filter.as_slice())?;
    out.push(b')')?;
    Ok(())
}

fn push_recast(out: &mut Vec<u8>, words: &RecastWords) -> Result<(), AllocError> {
    push_named(out, b"recast", &words.table)?;
    push_all(out, words.keys.as_slice())?;
    out.push(b':')?;
    push_all(out, words.values.as_slice())
}

fn push_command(out: &mut Vec<u8>, command: &Command) -> Result<(), AllocError> {
    match command {
        Command::Table(words) => push_table(out, words),
        Command::View(words) => push_view(out, words),
        Command::Alter(words) => push_alter(out, words),
        Command::Load(rows) => push_load(out, rows),
        Command::Query(words) => push_query(out, words),
        Command::Explain(words) => push_explain(out, words),
        Command::Pin(version) => {
            out.extend_from_slice(b"pin")?;
            push_version(out, *version)
        }
        Command::Release(token) => {
            out.extend_from_slice(b"release")?;
            push_number(out, *token)
        }
        Command::Expire { table, version } => push_expiry(out, table, *version),
        Command::Work(words) => {
            push_named(out, b"work", &words.table)?;
            push_number(out, words.parts as u32)
        }
        Command::Recast(words) => push_recast(out, words),
    }
}

static TEXT: &str =
    "lease,007\ntable,a,day int;country text,clicks sum;low min\nrow,a,1,US,10,2\nrow,b,2,\"U,K\",-3\ncommit\ncommit\nview,c,a,country,clicks\nquery,c,007,country=US,-,clicks\nquery,c\nexpire,1\nsession\nalter,a,add_value,high max,-5\nalter,a,drop_value,low\nalter,a,add_key,hour int,x\nquery,c,pin:07,,,,10000,c/0/1/country/555300\nquery,c,latest,,,,01\nexplain,c\nexplain,a,3\npin\npin,4294967295\nrelease,0\nexpire,a,007\nexpire,,0\nwork,a\nwork,a,08\nexplain,a,,\nexplain,a,latest,day=1\nrecast,a,day;hour,high\nrecast,a,,\n";

static OUTLINES: [&str; 25] = [
    "table a day country:clicks:low",
    "load a,1,US,10,2 b,2,U,K,-3",
    "load",
    "view a,country,clicks",
    "query c,country=US,-,clicks, 7 1000",
    "query c,,,, latest 1000",
    "expire 1",
    "alter a :high,-5",
    "alter a -low",
    "alter a +hour,x",
    "query c,,,,c/0/1/country/555300 pin 7 10000",
    "query c,,,, latest 1",
    "explain c latest",
    "explain a 3",
    "pin latest",
    "pin 4294967295",
    "release 0",
    "expire a 7",
    "expire  0",
    "work a 1",
    "work a 8",
    "explain a latest ()",
    "explain a latest (day=1)",
    "recast a,day,hour:,high",
    "recast a:",
];

// Stops the test of a command with other words, its columns' types apart.
fn expect_outline(rt: &impl Abort, alloc: Global, command: &Command, want: &'static str) {
    let mut out = Vec::new(alloc);
    push_command(&mut out, command).expect(rt, "memory");
    expect_same(rt, &str::from_utf8(&out), &Ok(want), &"a command");
}

// The same of each command.
fn expect(rt: &impl Abort, alloc: Global, commands: &[Command], outlines: &[&'static str]) {
    assert_eq!(rt; commands.len(), outlines.len());
    for (command, want) in commands.iter().zip(outlines) {
        expect_outline(rt, alloc, command, want);
    }
}

fn bytes_of(rt: &impl Abort, alloc: Global, text: &str) -> Vec<u8> {
    text.as_bytes().to_vec(alloc).expect(rt, "memory")
}

#[test]
fn reads_a_script(rt: HostRuntime) {
    let alloc = rt.alloc();
    let script = parse(alloc, bytes_of(&rt, alloc, TEXT)).expect(&rt, "a script");
    let sessions = script.sessions.as_slice();
    expect_same(&rt, &script.lease, &7, &"the lease");
    assert_eq!(rt; sessions.len(), 2);
    expect(&rt, alloc, sessions[0].as_slice(), &OUTLINES[..7]);
    expect(&rt, alloc, sessions[1].as_slice(), &OUTLINES[7..]);
}

// A script, its first bad record, and what is wrong with it.
static BAD: [(&str, u64, Reason); 48] = [
    ("tabel,t\npin,pin:1\n", 1, Reason::Unknown),
    ("\u{feff}tabel,t\n", 1, Reason::Unknown),
    ("table,t,k int\n", 1, Reason::Fields),
    ("\n\nrow,t,1,5\ncommit,1\n", 2, Reason::Fields),
    ("query\n", 1, Reason::Fields),
    ("query,t,,,,,,,9\n", 1, Reason::Fields),
    ("alter,t,add_value,v sum\n", 1, Reason::Fields),
    ("alter,t,drop_value,v,0\n", 1, Reason::Fields),
    ("alter,t,rename\n", 1, Reason::Fields),
    ("pin\npin,0,0\n", 2, Reason::Fields),
    ("session\nsession,1\n", 2, Reason::Fields),
    ("row,t,1,5\nquery,t\n", 2, Reason::Order),
    ("row,t,1,5\nsession\n", 2, Reason::Order),
    ("row,t,1,5\n", 2, Reason::Order),
    ("row,t,1,5\ntable,t\n", 2, Reason::Fields),
    ("lease,5\nlease,5\n", 2, Reason::Order),
    ("pin\nlease,0\n", 2, Reason::Order),
    ("table,t,k  int,v sum\n", 1, Reason::Word),
    ("table,t,k int;,v sum\n", 1, Reason::Word),
    ("table,t,k int,v avg\n", 1, Reason::Word),
    ("alter,t,rename,v\n", 1, Reason::Word),
    ("alter,t,add_key,k sum,0\n", 1, Reason::Word),
    ("query,t,x\n", 1, Reason::Word),
    ("query,t,-1\n", 1, Reason::Word),
    ("query,t,pin:x,,,,0\n", 1, Reason::Word),
    ("explain,t,pin:1\n", 1, Reason::Word),
    ("pin,pin:1\n", 1, Reason::Word),
    ("query,t,4294967296\n", 1, Reason::Number),
    ("query,t,pin:4294967296\n", 1, Reason::Number),
    ("query,t,,,,,0\n", 1, Reason::Number),
    ("query,t,,,,,10001\n", 1, Reason::Number),
    ("lease,0\n", 1, Reason::Number),
    ("release,\n", 1, Reason::Number),
    ("expire,4294967295\nexpire,+1\n", 2, Reason::Number),
    ("expire\n", 1, Reason::Fields),
    ("expire,t,0\nexpire,t,0,0\n", 2, Reason::Fields),
    ("expire,t,\n", 1, Reason::Number),
    ("expire,0,t\n", 1, Reason::Number),
    ("expire,t,4294967296\n", 1, Reason::Number),
    ("table,t,k int,v sum\nwork,t,0\n", 2, Reason::Number),
    ("work,t,9\n", 1, Reason::Number),
    ("work,t,\n", 1, Reason::Number),
    ("work,t,two\n", 1, Reason::Number),
    ("work,t,+1\n", 1, Reason::Number),
    ("work,t,1,1\n", 1, Reason::Fields),
    ("explain,t,latest,k=1,0\n", 1, Reason::Fields),
    ("recast,t,k\n", 1, Reason::Fields),
    ("recast,t,k,v,0\n", 1, Reason::Fields),
];

// Stops the test of a script that is taken, or refused otherwise.
fn expect_bad(rt: &impl Abort, alloc: Global, text: &str, place: u64, reason: Reason) {
    let found = parse(alloc, bytes_of(rt, alloc, text)).err();
    let wanted = Some(ScriptError::BadRecord { place, reason });
    expect_same(rt, &found, &wanted, &text);
}

#[test]
fn tells_the_first_bad_record(rt: HostRuntime) {
    for (text, place, reason) in &BAD {
        expect_bad(&rt, rt.alloc(), text, *place, *reason);
    }
}

// A record so many times, some records behind it, and how many sessions the script has that they are.
struct Counted {
    record: &'static [u8],
    count: u32,
    end: &'static [u8],
    sessions: Result<usize, ScriptError>,
}

static COMMANDS: [Counted; 2] = [
    Counted {
        record: b"commit\n",
        count: 200_000,
        end: b"session\n",
        sessions: Ok(2),
    },
    Counted {
        record: b"commit\n",
        count: 200_000,
        end: b"session\nrow,t,1,5\ncommit\n",
        sessions: Err(ScriptError::TooManyCommands { place: 200_003 }),
    },
];

static SESSIONS: [Counted; 3] = [
    Counted {
        record: b"session\n",
        count: 7,
        end: b"pin\n",
        sessions: Ok(8),
    },
    Counted {
        record: b"session\n",
        count: 7,
        end: b"pin\nsession\n",
        sessions: Err(ScriptError::TooManySessions { place: 9 }),
    },
    Counted {
        record: b"session\n",
        count: 8,
        end: b"session,1\n",
        sessions: Err(ScriptError::TooManySessions { place: 8 }),
    },
];

// The text of a script.
fn repeated(rt: &impl Abort, alloc: Global, case: &Counted) -> Vec<u8> {
    let mut text = Vec::new(alloc);
    for _ in 0..case.count {
        text.extend_from_slice(case.record).expect(rt, "memory");
    }
    text.extend_from_slice(case.end).expect(rt, "memory");
    text
}

// Stops the test of a script that has another count of sessions, or is refused otherwise.
fn expect_sessions(rt: &impl Abort, alloc: Global, case: &Counted) {
    let text = repeated(rt, alloc, case);
    let found = parse(alloc, text).map(|script| script.sessions.len());
    expect_same(rt, &found, &case.sessions, &case.end);
}

#[test]
fn counts_commands(rt: HostRuntime) {
    for case in &COMMANDS {
        expect_sessions(&rt, rt.alloc(), case);
    }
}

#[test]
fn counts_sessions(rt: HostRuntime) {
    for case in &SESSIONS {
        expect_sessions(&rt, rt.alloc(), case);
    }
}
