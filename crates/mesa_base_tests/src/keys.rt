// Keys as bytes, and bytes that begin with no key.
use crate::expected::expect_same;
use mesa_key::{Key, KeyError, KeyText, KeyType, KeyValue, compare, decode, encode, short};
use mesa_list::{Items, TryCopy};
use std::alloc::Global;
use std::cmp::Ordering;
use std::process::Abort;

// The value of the text of these bytes.
fn text_of(rt: &impl Abort, alloc: Global, bytes: &[u8]) -> KeyValue {
    assert!(rt; KeyText::allows(bytes));
    let text = Items::from_bytes(alloc, bytes).expect(rt, "memory");
    KeyValue::Text(KeyText::new(text))
}

// The bytes of a key.
fn spelled(rt: &impl Abort, alloc: Global, key: &Key) -> Vec<u8> {
    let mut bytes = Vec::new(alloc);
    encode(key, &mut bytes).expect(rt, "memory");
    bytes
}

// The values of a key: a number, if there is one, and a text, if there is one.
type Values = (Option<i64>, Option<&'static [u8]>);

fn key_of(rt: &impl Abort, alloc: Global, values: &Values) -> Key {
    let mut key = Items::new(alloc);
    if let Some(number) = values.0 {
        key.push(KeyValue::Int(number)).expect(rt, "memory");
    }
    if let Some(text) = values.1 {
        key.push(text_of(rt, alloc, text)).expect(rt, "memory");
    }
    key
}

// The bytes of a copy of the key of these values.
fn bytes_of(rt: &impl Abort, alloc: Global, values: &Values) -> Vec<u8> {
    let key = key_of(rt, alloc, values);
    spelled(rt, alloc, &key.copy().expect(rt, "memory"))
}

// A key's values, and its bytes.
static KEYS: [(Values, &[u8]); 5] = [
    ((Some(2), None), &[0x80, 0, 0, 0, 0, 0, 0, 2]),
    ((Some(0), None), &[0x80, 0, 0, 0, 0, 0, 0, 0]),
    ((Some(-1), None), &[0x7f, 255, 255, 255, 255, 255, 255, 255]),
    ((None, Some(b"ab")), &[0x61, 0x62, 0]),
    (
        (Some(20140101), Some(b"UK")),
        &[0x80, 0, 0, 0, 1, 0x33, 0x50, 0x45, 0x55, 0x4b, 0],
    ),
];

#[test]
fn spells_the_vectors(rt: HostRuntime) {
    for (values, want) in &KEYS {
        let bytes = bytes_of(&rt, rt.alloc(), values);
        expect_same(&rt, &bytes.as_slice(), want, values);
    }
}

#[test]
fn compares_keys_and_cuts_them_short(rt: HostRuntime) {
    expect_same(
        &rt,
        &compare(KEYS[2].1, KEYS[1].1),
        &Ordering::Less,
        &"how two keys compare",
    );
    expect_same(
        &rt,
        &short(KEYS[3].1),
        &[0x61, 0x62, 0, 0, 0, 0, 0, 0, 0, 0, 0, 0, 0, 0, 0, 0],
        &"a short key",
    );
}

// The key of a number and a text that bytes begin with, and how long it is.
fn decoded(alloc: Global, bytes: &[u8]) -> (Key, usize) {
    match decode(alloc, &[KeyType::Int, KeyType::Text], bytes) {
        Ok(found) => found,
        Err(_) => (Items::new(alloc), 0),
    }
}

static KEY_AND_MORE: [u8; 12] = [0x80, 0, 0, 0, 1, 0x33, 0x50, 0x45, 0x55, 0x4b, 0, 9];

#[test]
fn reads_a_key_and_what_follows(rt: HostRuntime) {
    let (key, len) = decoded(rt.alloc(), &KEY_AND_MORE);
    expect_same(&rt, &len, &11, &"how long the key is");
    let bytes = spelled(&rt, rt.alloc(), &key);
    expect_same(&rt, &bytes.as_slice(), &&KEY_AND_MORE[..11], &"the bytes");
}

const LONG: [u8; 256] = [0x61; 256];

const NOT_ENDED: [u8; 255] = [0x61; 255];

// Bytes that begin with no key of one column of this type, and why.
type Fault = (KeyType, &'static [u8], KeyError);

static FAULTS: [Fault; 7] = [
    (KeyType::Text, &[0x61], KeyError::Truncated),
    (KeyType::Text, &[0xc3], KeyError::Truncated),
    (KeyType::Text, &[0xff], KeyError::NotUtf8),
    (KeyType::Text, &[0xc3, 0], KeyError::NotUtf8),
    (KeyType::Text, &LONG, KeyError::TooLong),
    (KeyType::Text, &NOT_ENDED, KeyError::Truncated),
    (KeyType::Int, &[0x61; 7], KeyError::Truncated),
];

#[test]
fn names_the_first_fault(rt: HostRuntime) {
    for (kind, bytes, fault) in &FAULTS {
        let found = decode(rt.alloc(), &[*kind], bytes).err();
        expect_same(&rt, &found, &Some(*fault), bytes);
    }
}
