// A file of 1,025 rows whose keys have the same first sixteen bytes.
use crate::delta::files::{attach, count_bytes, open_file, reference, schema};
use crate::expected::expect_same;
use mesa_delta::DeltaReader;
use mesa_disk::{FileRef, MemReader};
use mesa_key::{Format, KeyType};
use sha2::{Digest, Sha256};
use std::alloc::{AllocError, Global};
use std::process::Abort;

// The SHA-256 of the file's tail, by another program.
const TAIL_DIGEST: [u8; 32] = [
    48, 151, 83, 224, 191, 34, 201, 2, 124, 159, 24, 234, 29, 70, 74, 113, 145, 81, 88, 101, 237,
    7, 94, 142, 113, 238, 133, 242, 214, 228, 22, 89,
];

// Sixteen letters and four digits.
fn text(i: u16) -> [u8; 20] {
    let mut text = [b'a'; 20];
    text[16] = b'0' + (i / 1000 % 10) as u8;
    text[17] = b'0' + (i / 100 % 10) as u8;
    text[18] = b'0' + (i / 10 % 10) as u8;
    text[19] = b'0' + (i % 10) as u8;
    text
}

// The block of the texts from one on, each with the value 1.
fn put_block(bytes: &mut Vec<u8>, first: u16, count: u16) -> Result<(), AllocError> {
    bytes.push(0)?;
    bytes.extend_from_slice(&count.to_be_bytes())?;
    for _ in 0..count {
        bytes.push(20)?;
    }
    for i in 0..count {
        bytes.extend_from_slice(&text(first.saturating_add(i)))?;
    }
    for _ in 0..count {
        bytes.extend_from_slice(&[0, 0, 0, 0, 0, 0, 0, 1])?;
    }
    Ok(())
}

// A block's entry.
fn put_entry(
    bytes: &mut Vec<u8>,
    offset: u64,
    len: u32,
    digest: &[u8; 32],
) -> Result<(), AllocError> {
    bytes.extend_from_slice(&[b'a'; 16])?;
    bytes.extend_from_slice(&offset.to_be_bytes())?;
    bytes.extend_from_slice(&len.to_be_bytes())?;
    bytes.extend_from_slice(digest)?;
    Ok(())
}

fn block(alloc: Global, first: u16, count: u16) -> Result<Vec<u8>, AllocError> {
    let mut bytes = Vec::new(alloc);
    put_block(&mut bytes, first, count)?;
    Ok(bytes)
}

// The entries of two blocks, and the footer.
fn put_tail(bytes: &mut Vec<u8>, first: &[u8; 32], last: &[u8; 32]) -> Result<(), AllocError> {
    put_entry(bytes, 0, 29_699, first)?;
    put_entry(bytes, 29_699, 32, last)?;
    bytes.extend_from_slice(&[1, 0])?;
    bytes.extend_from_slice(&1025u64.to_be_bytes())?;
    bytes.extend_from_slice(&2u32.to_be_bytes())?;
    bytes.extend_from_slice(&[1, 1])?;
    bytes.extend_from_slice(b"MESADLT1")
}

fn put_file(bytes: &mut Vec<u8>, first: &[u8], last: &[u8]) -> Result<(), AllocError> {
    bytes.extend_from_slice(first)?;
    bytes.extend_from_slice(last)?;
    put_tail(bytes, &Sha256::digest(first), &Sha256::digest(last))
}

// The first 1,024 rows fill a block of 29,699 bytes, and the last one stands in another.
fn file(rt: &impl Abort, alloc: Global) -> Vec<u8> {
    let first = block(alloc, 0, 1024).expect(rt, "memory");
    let last = block(alloc, 1024, 1).expect(rt, "memory");
    let mut bytes = Vec::new(alloc);
    put_file(&mut bytes, &first, &last).expect(rt, "memory");
    bytes
}

fn file_reference(alloc: Global) -> FileRef {
    reference(alloc, Format::One, 29_875, 1025, 2, TAIL_DIGEST)
}

#[test]
fn reads_two_blocks(rt: HostRuntime) {
    let alloc = rt.alloc();
    let bytes = file(&rt, alloc);
    let counted = count_bytes(
        &rt,
        alloc,
        bytes,
        None,
        &file_reference(alloc),
        KeyType::Text,
    );
    expect_same(&rt, &counted, &Ok(1025), &"how many rows are counted");
}

// A key, and the block at which to look for it.
static PLACES: [(&[u8], u32); 3] = [
    (b"aaaaaaaaaaaaaaaa1024\0", 0),
    (b"aaaaaaaaaaaaaaaa0000\0", 0),
    (b"b\0", 1),
];

// The two blocks of texts, as they are found again.
fn attached(rt: &impl Abort, alloc: Global) -> DeltaReader<MemReader> {
    let schema = schema(rt, alloc, KeyType::Text);
    let reader = open_file(rt, alloc, file(rt, alloc), None);
    attach(alloc, reader, &file_reference(alloc), &schema).expect(rt, "a file")
}

#[test]
fn begins_before_equal_short_keys(rt: HostRuntime) {
    let reader = attached(&rt, rt.alloc());
    for (key, block) in &PLACES {
        expect_same(&rt, &reader.seek(key), block, key);
    }
    drop(reader.detach());
}
