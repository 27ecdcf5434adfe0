// Damage of blocks that are read ahead, at each place among the four whose digests are taken side by side.
use crate::query::answering::{answered, by_a, page_of, query_of};
use crate::query::inputs::{Source, input_of, one, own, source_of, source_over};
use crate::query::tables::table;
use crate::query::vectors::{NEWER, PAIRS, VECTORS, bytes_of};
use mesa_delta::FileError;
use mesa_disk::{Damage, FileReader};
use mesa_key::KeyType;
use mesa_model::Page;
use std::alloc::Global;
use std::process::Abort;
use std::thread::Threads;

// How many bytes each of the four blocks of the pairs has.
const BLOCK_BYTES: usize = 24_579;

// What was done to a block. The file stays as long as it was.
#[derive(Clone, Copy, Debug)]
enum Change {
    // It stands in the place of the next one, or of the first, and that one in its place.
    Exchanged,
    // Its first byte was cut off, and those behind it moved up.
    Cut,
    // A byte was put before it, and those behind it moved down.
    Longer,
}

static CHANGES: [Change; 3] = [Change::Exchanged, Change::Cut, Change::Longer];

fn exchange(rt: &impl Abort, bytes: &mut [u8], block: usize, other: usize) {
    for i in 0..BLOCK_BYTES {
        let one = block.saturating_mul(BLOCK_BYTES).saturating_add(i);
        let two = other.saturating_mul(BLOCK_BYTES).saturating_add(i);
        assert!(rt; one < bytes.len() && two < bytes.len());
        bytes.swap(one, two);
    }
}

// The bytes of the file of pairs with a change of this block.
fn changed(rt: &impl Abort, alloc: Global, change: Change, block: usize) -> Vec<u8> {
    let mut bytes = bytes_of(rt, alloc, &VECTORS[PAIRS]);
    let start = block.saturating_mul(BLOCK_BYTES);
    let end = start.saturating_add(BLOCK_BYTES);
    let tail = BLOCK_BYTES * 4;
    assert!(rt; 0 < end && end <= tail && tail < bytes.len());
    match change {
        Change::Exchanged => exchange(rt, &mut bytes, block, (block + 1) % 4),
        Change::Cut => bytes[start..tail].rotate_left(1),
        Change::Longer => bytes[start..tail].rotate_right(1),
    }
    bytes
}

// The damage that is told where each block is read by itself.
fn told_alone(rt: &impl Abort, alloc: Global, bytes: Vec<u8>) -> Option<Damage> {
    let table = table(rt, alloc, &["a", "b"], KeyType::Int);
    let source = source_over(rt, alloc, &VECTORS[PAIRS], bytes);
    let mut input = input_of(rt, alloc, source, &table);
    for i in 0..4 {
        assert!(rt; i < input.reader.blocks());
        if let Err(FileError::Damaged(damage)) = input.reader.block(i) {
            return Some(damage);
        }
    }
    None
}

fn damage_of(answered: Result<Page, FileError>) -> Option<Damage> {
    match answered {
        Ok(page) => {
            drop(page);
            None
        }
        Err(FileError::Damaged(damage)) => Some(damage),
        Err(_) => None,
    }
}

// What the query is answered from one file of the table.
fn answered_alone<T: Abort + Threads + Sync, R: FileReader + Drop>(
    rt: &T,
    alloc: Global,
    source: Source<R>,
) -> Result<Page, FileError> {
    let table = table(rt, alloc, &["a", "b"], KeyType::Int);
    let query = query_of(rt, alloc, &table, "t", by_a(""));
    let file = own(rt, alloc, source, &table);
    let inputs = one(rt, alloc, file);
    page_of(rt, alloc, query, None, inputs)
}

// The damage that a query over the file tells.
fn told_ahead<T: Abort + Threads + Sync>(rt: &T, alloc: Global, bytes: Vec<u8>) -> Option<Damage> {
    let source = source_over(rt, alloc, &VECTORS[PAIRS], bytes);
    damage_of(answered_alone(rt, alloc, source))
}

// The damage that a query tells of the file behind one of a single block.
fn told_behind<T: Abort + Threads + Sync>(rt: &T, alloc: Global, bytes: Vec<u8>) -> Option<Damage> {
    let older = source_of(rt, alloc, &VECTORS[NEWER], None);
    let newer = source_over(rt, alloc, &VECTORS[PAIRS], bytes);
    damage_of(answered(rt, alloc, older, newer, ""))
}

fn expect_damage<T: Abort + Threads + Sync>(rt: &T, alloc: Global, change: Change, block: usize) {
    let alone = told_alone(rt, alloc, changed(rt, alloc, change, block));
    let ahead = told_ahead(rt, alloc, changed(rt, alloc, change, block));
    let behind = told_behind(rt, alloc, changed(rt, alloc, change, block));
    assert!(rt; alone.is_some(), "{change:?} of block {block}: no damage");
    assert_eq!(rt; ahead, alone, "{change:?} of block {block}");
    assert_eq!(rt; behind, alone, "{change:?} of block {block}");
}

#[test]
fn blocks_read_ahead_are_told_damaged_as_blocks_read_alone(rt: HostRuntime) {
    for change in &CHANGES {
        for block in 0..4 {
            expect_damage(&rt, rt.alloc(), *change, block);
        }
    }
}
