// What replies say.
use mesa_key::{KeyType, KeyValue, decode};
use mesa_model::Reply;
use mesa_print::{HEAD_ROOM, head};
use mesa_schema::Row;
use std::alloc::{AllocError, Global};
use std::process::Abort;

fn push_number(alloc: Global, number: i128, text: &mut Vec<u8>) -> Result<(), AllocError> {
    text.extend_from_slice(format!(in alloc; "{number}")?.as_bytes())
}

fn push_value(alloc: Global, value: &KeyValue, text: &mut Vec<u8>) -> Result<(), AllocError> {
    match value {
        KeyValue::Int(number) => push_number(alloc, i128::from(*number), text),
        KeyValue::Text(word) => text.extend_from_slice(word.as_bytes()),
    }
}

fn push_key(alloc: Global, values: &[KeyValue], text: &mut Vec<u8>) -> Result<(), AllocError> {
    for value in values {
        push_value(alloc, value, text)?;
        text.push(b',')?;
    }
    Ok(())
}

fn push_numbers(alloc: Global, numbers: &[i128], text: &mut Vec<u8>) -> Result<(), AllocError> {
    for (place, number) in numbers.iter().enumerate() {
        if place > 0 {
            text.push(b',')?;
        }
        push_number(alloc, *number, text)?;
    }
    Ok(text.push(b'\n')?)
}

// A row as a line, with commas between its fields.
fn push_row(rt: &impl Abort, alloc: Global, kinds: &[KeyType], row: &Row, text: &mut Vec<u8>) {
    let Ok((key, _)) = decode(alloc, kinds, row.key.as_slice()) else {
        panic!(rt; "no key");
    };
    push_key(alloc, key.as_slice(), text).expect(rt, "memory");
    push_numbers(alloc, row.values.as_slice(), text).expect(rt, "memory");
}

/// Adds a reply's head line, and a page's rows.
pub fn push_reply(
    rt: &impl Abort,
    alloc: Global,
    session: u16,
    number: u32,
    reply: &Reply,
    kinds: &[KeyType],
    text: &mut Vec<u8>,
) {
    let mut line = [0; HEAD_ROOM];
    let length = head(session, number, 0, reply, &mut line);
    text.extend_from_slice(&line[..length]).expect(rt, "memory");
    if let Reply::Page(page) = reply {
        for row in page.rows.as_slice() {
            push_row(rt, alloc, kinds, row, text);
        }
    }
}
