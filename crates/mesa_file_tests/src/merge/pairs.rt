// Files of two key columns and a sum, written byte by byte, and a table of these columns.
ghost use Rattle.std.specs.Prelude.{◌≡◌, []};

use crate::merge::files::{name, spelled};
use crate::merge::merging::Written;
use mesa_disk::{FileId, FileRef};
use mesa_key::{Format, KeyType};
use mesa_list::Items;
use mesa_schema::{Evolving, KeyColumn, Schema, ValueColumn};
use mesa_value::{Agg, Amount};
use sha2::{Digest, Sha256};
use std::alloc::{AllocError, Global};
use std::process::Abort;
use std::sync::Arc;

/// A row: its keys `a` and `b`, and its value `v`.
pub type Pair = (i64, i64, Amount);

fn key_column(rt: &impl Abort, alloc: Global, text: &str) -> KeyColumn {
    let name = name(rt, alloc, text);
    let kind = KeyType::Int;
    KeyColumn { name, kind }
}

// The ints `a` and `b`, and the sum `v`.
fn schema(rt: &impl Abort, alloc: Global) -> Schema {
    let a = key_column(rt, alloc, "a");
    let b = key_column(rt, alloc, "b");
    let keys = vec![in alloc; a, b].expect(rt, "memory");
    let name = name(rt, alloc, "v");
    let agg = Agg::Sum;
    let values = vec![in alloc; ValueColumn { name, agg }].expect(rt, "memory");
    Schema::build(keys, values).ok().expect(rt, "a schema")
}

/// A table of these columns.
pub fn table(rt: &impl Abort, alloc: Global) -> Arc<Evolving>
    ensures { result.value.changes ≡ [] }
{
    let table = Evolving::new(alloc, schema(rt, alloc));
    Arc::new(alloc, table).expect(rt, "memory")
}

// Both keys of a row as they are spelled.
fn spelled_keys(row: Option<&Pair>) -> [u8; 16] {
    let mut key = [0; 16];
    if let Some((a, b, _)) = row {
        key[..8].copy_from_slice(&spelled(*a));
        key[8..].copy_from_slice(&spelled(*b));
    }
    key
}

// Puts the block of these rows, column by column.
fn put_block(bytes: &mut Vec<u8>, rows: &[Pair]) -> Result<(), AllocError> {
    bytes.push(0)?;
    bytes.extend_from_slice(&(rows.len().min(1024) as u16).to_be_bytes())?;
    for (a, _, _) in rows {
        bytes.extend_from_slice(&spelled(*a))?;
    }
    for (_, b, _) in rows {
        bytes.extend_from_slice(&spelled(*b))?;
    }
    for (_, _, value) in rows {
        bytes.extend_from_slice(&value.to_be_bytes())?;
    }
    Ok(())
}

// Puts the tail of a file of one block.
fn put_tail(tail: &mut Vec<u8>, rows: &[Pair], block: &[u8]) -> Result<(), AllocError> {
    tail.extend_from_slice(&spelled_keys(rows.first()))?;
    tail.extend_from_slice(&[0; 8])?;
    tail.extend_from_slice(&(block.len().min(65536) as u32).to_be_bytes())?;
    tail.extend_from_slice(&Sha256::digest(block))?;
    tail.extend_from_slice(&[0, 0, 0])?;
    tail.extend_from_slice(&(rows.len() as u64).to_be_bytes())?;
    tail.extend_from_slice(&1u32.to_be_bytes())?;
    tail.extend_from_slice(b"\x02\x01MESADLT2")
}

/// The file of these rows in one block, under this id.
pub fn file_of(rt: &impl Abort, alloc: Global, id: u64, rows: &[Pair]) -> Written {
    let mut bytes = Vec::new(alloc);
    put_block(&mut bytes, rows).expect(rt, "memory");
    let mut tail = Vec::new(alloc);
    put_tail(&mut tail, rows, &bytes).expect(rt, "memory");
    bytes.extend_from_slice(&tail).expect(rt, "memory");
    let last = spelled_keys(rows.last());
    let file = FileRef {
        format: Format::Two,
        id: FileId::of(id),
        len: bytes.len() as u64,
        rows: rows.len() as u64,
        blocks: 1,
        first: Items::new(alloc),
        last: Items::from_bytes(alloc, &last).expect(rt, "memory"),
        aggregates: Items::new(alloc),
        digest: Sha256::digest(tail.as_slice()),
    };
    Written { bytes, file }
}
