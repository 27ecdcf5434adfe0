// What a run printed, done again by the plain warehouse in the order of the printed positions.
ghost use Rattle.std.specs.Prelude.{◌≡◌, ◌<◌, ◌+◌, ◌^◌, IsTrue};
ghost use Rattle.mesa_test_oracle.specs.Plain.{GaveAtMost, is_plain};

use crate::expected::{expect_same, expect_that};
use mesa_model::{Command, Reply};
use mesa_parse::parse;
use mesa_print::{HEAD_ROOM, head, render};
use mesa_script::Script;
use mesa_test_oracle::PlainWarehouse;
use std::alloc::Global;
use std::process::Abort;
use std::str;

/// A printed block: whose it is, its position, and where it stands in the text.
#[derive(Clone, Copy)]
struct Block {
    session: u32,
    command: u32,
    position: u32,
    from: usize,
    to: usize,
}

fn number(word: &str) -> Option<u32> {
    word.parse().ok()
}

// The numbers on both sides of a point.
fn numbers(text: &str) -> Option<(u32, u32)> {
    let (one, other) = text.split_once('.')?;
    Some((number(one)?, number(other)?))
}

// The block that a line begins at this place of the text, where it is a head line. No line of a body is one.
fn head_at(line: &str, from: usize) -> Option<Block> {
    let (front, _reply) = line.split_once(' ')?;
    let (name, position) = front.split_once('@')?;
    let (session, command) = numbers(name)?;
    Some(Block {
        session,
        command,
        position: number(position)?,
        from,
        to: from,
    })
}

// Ends the last block here.
fn end_last(blocks: &mut [Block], to: usize) {
    if let Some(last) = blocks.last_mut() {
        last.to = to;
    }
}

fn blocks(rt: &impl Abort, alloc: Global, text: &str) -> Vec<Block> {
    let mut blocks = Vec::new(alloc);
    let mut at = 0usize;
    for line in text.lines() {
        if let Some(block) = head_at(line, at) {
            blocks.push(block).expect(rt, "memory");
        }
        at = at.saturating_add(line.len()).saturating_add(1);
        end_last(&mut blocks, at);
    }
    blocks
}

// How many commands of a session were printed. Stops the test where they don't stand in their order.
fn commands_of(rt: &impl Abort, blocks: &[Block], session: usize) -> usize {
    let mut number = 0u32;
    for block in blocks {
        if block.session as usize == session {
            number = number.wrapping_add(1);
            expect_same(rt, &block.command, &number, &session);
        }
    }
    number as usize
}

// The same, or where a command of a session is missing.
fn expect_order(rt: &impl Abort, script: &Script, blocks: &[Block]) {
    for (session, commands) in script.sessions.as_slice().iter().enumerate() {
        let printed = commands_of(rt, blocks, session);
        expect_same(rt, &printed, &commands.as_slice().len(), &session);
    }
}

fn command_of<'a>(script: &'a Script, block: &Block) -> Option<&'a Command> {
    let commands = script.sessions.as_slice().get(block.session as usize)?;
    commands
        .as_slice()
        .get((block.command as usize).wrapping_sub(1))
}

// Whether the warehouse does a command itself.
fn is_done(command: &Command) -> bool
    ensures { result ≡ is_plain command.now }
{
    !matches!(command, Command::Explain(_) | Command::Work(_))
}

// Adds the lines below the head of a query's page; other commands have none.
fn push_body(
    rt: &impl Abort,
    alloc: Global,
    warehouse: &PlainWarehouse,
    session: u16,
    command: &Command,
    text: &mut Vec<u8>,
) {
    if let Command::Query(words) = command {
        if let Ok((page, query)) = warehouse.query(session, words).expect(rt, "memory") {
            let rendered = render(alloc, &page, query.group_kinds(), query.prefix());
            let body = rendered.expect(rt, "memory").body;
            text.extend_from_slice(body.as_slice()).expect(rt, "memory");
        }
    }
}

fn session_of(block: &Block) -> u16 {
    (block.session & 0xffff) as u16
}

fn push_head(rt: &impl Abort, block: &Block, reply: &Reply, text: &mut Vec<u8>) {
    let mut line = [0; HEAD_ROOM];
    let session = session_of(block);
    let position = u64::from(block.position);
    let length = head(session, block.command, position, reply, &mut line);
    text.extend_from_slice(&line[..length]).expect(rt, "memory");
}

// Does a command after so many others.
fn reply_to(
    rt: &impl Abort,
    warehouse: &mut PlainWarehouse,
    done: u32,
    session: u16,
    command: &Command,
) -> Reply
    requires few { GaveAtMost done warehouse.old }
    requires room { done + 1 < 2 ^ 32 }
    requires plain { IsTrue (is_plain command.now) }
    ensures { GaveAtMost (done + 1) warehouse.new }
{
    warehouse.apply(session, command).expect(rt, "memory")
}

// The same, and adds the head of its block.
fn apply(
    rt: &impl Abort,
    warehouse: &mut PlainWarehouse,
    done: u32,
    block: &Block,
    command: &Command,
    text: &mut Vec<u8>,
)
    requires few { GaveAtMost done warehouse.old }
    requires room { done + 1 < 2 ^ 32 }
    requires plain { IsTrue (is_plain command.now) }
    ensures { GaveAtMost (done + 1) warehouse.new }
{
    let reply = reply_to(rt, warehouse, done, session_of(block), command);
    push_head(rt, block, &reply, text);
}

// Stops the test where a block isn't what the warehouse prints. A query changes nothing, so its page is the same
// once it is done.
fn expect_block(
    rt: &impl Abort,
    alloc: Global,
    warehouse: &mut PlainWarehouse,
    done: u32,
    block: &Block,
    command: &Command,
    printed: &[u8],
    text: &mut Vec<u8>,
)
    requires few { GaveAtMost done warehouse.old }
    requires room { done + 1 < 2 ^ 32 }
    requires plain { IsTrue (is_plain command.now) }
    ensures { GaveAtMost (done + 1) warehouse.new }
{
    text.clear();
    apply(rt, warehouse, done, block, command, text);
    push_body(rt, alloc, warehouse, session_of(block), command, text);
    expect_same(
        rt,
        &str::from_utf8(printed),
        &str::from_utf8(text),
        &block.position,
    );
}

// Whether a recast was told that another session's turns came between.
fn is_interrupted(printed: &[u8]) -> bool {
    let reply = str::from_utf8(printed).unwrap_or("");
    let (_head, reply) = reply.split_once(' ').unwrap_or(("", ""));
    reply.starts_with("busy lease=")
        || reply.starts_with("refused lost lease=")
        || reply.starts_with("refused changed epoch=")
}

// Stops the test where a block is none of a work, of an interrupted recast, and no plan.
fn expect_work(rt: &impl Abort, printed: &[u8]) {
    let reply = str::from_utf8(printed).unwrap_or("");
    let (_head, reply) = reply.split_once(' ').unwrap_or(("", ""));
    let is_one = reply.starts_with("swapped ")
        || reply.starts_with("idle\n")
        || reply.starts_with("busy lease=")
        || reply.starts_with("refused lost lease=")
        || reply.starts_with("refused changed epoch=")
        || reply.starts_with("refused no_table\n")
        || reply.starts_with("refused stale asked=")
        || reply.starts_with("refused future asked=")
        || reply.starts_with("spans ");
    expect_that(rt, is_one, &reply, &"the reply to a work or an explain");
}

// Does the commands of blocks one after the other, after so many others.
fn expect_blocks(
    rt: &impl Abort,
    alloc: Global,
    warehouse: &mut PlainWarehouse,
    before: u32,
    script: &Script,
    blocks: &[Block],
    all: &[u8],
    text: &mut Vec<u8>,
)
    requires { GaveAtMost before warehouse.old }
{
    let mut done = before;
    'commands: for block in blocks {
        let command = command_of(script, block).expect(rt, "a command");
        let printed = all.get(block.from..block.to).expect(rt, "a text");
        if is_done(command) && !is_interrupted(printed) {
            assert!(rt; done < u32::MAX, "too many commands");
            expect_block(rt, alloc, warehouse, done, block, command, printed, text);
            done += 1;
        } else {
            expect_work(rt, printed);
        }
    }
}

// Whether what a command does is there in the next run too.
fn is_kept(command: &Command) -> bool {
    matches!(
        command,
        Command::Table(_)
            | Command::View(_)
            | Command::Alter(_)
            | Command::Load(_)
            | Command::Recast(_)
            | Command::Expire { .. }
    )
}

// Does what the next run finds of the first session's commands; how many they are.
fn do_kept(rt: &impl Abort, warehouse: &mut PlainWarehouse, script: &Script) -> u32
    requires { GaveAtMost 0 warehouse.old }
    ensures { GaveAtMost result warehouse.new }
{
    let mut done = 0u32;
    let commands = script.sessions.as_slice().first().expect(rt, "a session");
    'commands: for command in commands.as_slice() {
        if is_done(command) && is_kept(command) {
            assert!(rt; done < u32::MAX, "too many commands");
            let _reply = reply_to(rt, warehouse, done, 0, command);
            done += 1;
        }
    }
    done
}

fn script_of(rt: &impl Abort, alloc: Global, script: &str) -> Script {
    let bytes = script.as_bytes().to_vec(alloc).expect(rt, "memory");
    parse(alloc, bytes).ok().expect(rt, "a script")
}

/// Stops the test where the plain warehouse, given a script's commands in the order of the printed positions,
/// prints another block than the run did. Of a work, of an explain
/// and of a recast that others came between it is tested that it is one of their replies.
pub fn expect_replayed(rt: &impl Abort, alloc: Global, script: &str, printed: &[u8]) {
    expect_replayed_behind(rt, alloc, "", script, printed);
}

/// The same of a run behind another one, of one session, which did all of its script's commands.
pub fn expect_replayed_behind(
    rt: &impl Abort,
    alloc: Global,
    before: &str,
    script: &str,
    printed: &[u8],
) {
    let text = str::from_utf8(printed).expect(rt, "a text");
    let mut blocks = blocks(rt, alloc, text);
    blocks
        .sort_by_key(|block| block.position)
        .expect(rt, "memory");
    let script = script_of(rt, alloc, script);
    expect_order(rt, &script, &blocks);
    let mut warehouse = PlainWarehouse::new(alloc);
    let done = do_kept(rt, &mut warehouse, &script_of(rt, alloc, before));
    let mut text = Vec::new(alloc);
    expect_blocks(
        rt,
        alloc,
        &mut warehouse,
        done,
        &script,
        &blocks,
        printed,
        &mut text,
    );
}
