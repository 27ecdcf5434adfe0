// Inputs over files that are spelled.
ghost use Rattle.std.specs.Prelude.{◌≡◌, ◌≤◌, [], ◌∷◌, ◌++◌, ℕ, Option, Some};
ghost use Rattle.mesa_schema.specs.Changes.{columns_of};
ghost use Rattle.mesa_query.specs.mesa_columns.Columns.{Columns};
ghost use Rattle.mesa_scan.specs.Cursors.{IsInput};
ghost use Rattle.mesa_open_files.specs.Pins.{HasViewOf, IsPinnedInput, view_at};

use crate::query::vectors::{Vector, bytes_of, spelled};
use mesa_cache::Cached;
use mesa_delta::{DeltaReader, Input};
use mesa_disk::{ByteList, Disk, FileId, FileReader, FileRef, MemDisk, MemReader};
use mesa_list::Items;
use mesa_open_files::PinnedInput;
use mesa_schema::Evolving;
use std::alloc::Global;
use std::process::Abort;
use std::sync::Arc;

/// A file's reader, and its reference.
#[derive(Drop)]
pub struct Source<R> {
    pub reader: R,
    pub file: FileRef,
}

// A disk with a file of these bytes, of which this read fails, counted from 0.
fn disk_with(
    rt: &impl Abort,
    alloc: Global,
    id: FileId,
    bytes: Vec<u8>,
    fails: Option<u64>,
) -> MemDisk {
    let mut files = Vec::new(alloc);
    let bytes = ByteList::from_vec(bytes);
    files.push((id, bytes)).expect(rt, "room");
    let (zero, one) = (Vec::new(alloc), Vec::new(alloc));
    let mut disk = MemDisk::new(alloc, zero, one, files, Vec::new(alloc));
    if let Some(nth) = fails {
        disk.spoil_read(id, nth);
    }
    disk
}

fn reader_of(
    rt: &impl Abort,
    alloc: Global,
    id: FileId,
    bytes: Vec<u8>,
    fails: Option<u64>,
) -> MemReader {
    let mut disk = disk_with(rt, alloc, id, bytes, fails);
    disk.reader(id).expect(rt, "a reader")
}

// The reference of a file, with no first key and no aggregates, which no reader looks at.
fn reference(rt: &impl Abort, alloc: Global, vector: &Vector, len: u64) -> FileRef {
    let last = spelled(rt, alloc, vector.last);
    FileRef {
        format: vector.format,
        id: FileId::of(vector.id),
        len,
        rows: vector.rows,
        blocks: vector.blocks,
        first: Items::new(alloc),
        last: Items::from_vec(last),
        aggregates: Items::new(alloc),
        digest: vector.digest,
    }
}

/// A file; or one in which the bit at this place is another.
pub fn source_of(
    rt: &impl Abort,
    alloc: Global,
    vector: &Vector,
    turned: Option<usize>,
) -> Source<MemReader> {
    let mut bytes = bytes_of(rt, alloc, vector);
    if let Some(place) = turned {
        assert!(rt; place < bytes.len());
        bytes[place] ^= 1;
    }
    source_over(rt, alloc, vector, bytes)
}

/// A file of which these bytes are read.
pub fn source_over(
    rt: &impl Abort,
    alloc: Global,
    vector: &Vector,
    bytes: Vec<u8>,
) -> Source<MemReader> {
    source_spoiled(rt, alloc, vector, bytes, None)
}

/// A file of which this read fails, counted from 0.
pub fn source_failing(
    rt: &impl Abort,
    alloc: Global,
    vector: &Vector,
    nth: u64,
) -> Source<MemReader> {
    source_spoiled(rt, alloc, vector, bytes_of(rt, alloc, vector), Some(nth))
}

fn source_spoiled(
    rt: &impl Abort,
    alloc: Global,
    vector: &Vector,
    bytes: Vec<u8>,
    fails: Option<u64>,
) -> Source<MemReader> {
    let file = reference(rt, alloc, vector, bytes.len() as u64);
    Source {
        reader: reader_of(rt, alloc, file.id, bytes, fails),
        file,
    }
}

/// The same file, read through a cache of so many pages.
pub fn cached<R: FileReader + Drop>(
    rt: &impl Abort,
    alloc: Global,
    source: Source<R>,
    pages: usize,
) -> Source<Cached<R>>
    requires { 1 ≤ pages }
{
    let Source { reader, file } = source;
    let Ok(reader) = Cached::new(alloc, reader, pages) else {
        panic!(rt; "no memory");
    };
    Source { reader, file }
}

/// An input over a file of a table that was never changed.
pub fn input_of<R: FileReader + Drop>(
    rt: &impl Abort,
    alloc: Global,
    source: Source<R>,
    table: &Arc<Evolving>,
) -> Input<R>
    requires { table.now.value.changes ≡ [] }
    ensures input { IsInput R.bytes result }
    ensures table { result.evolving.value ≡ table.now.value }
{
    let Source { reader, file } = source;
    let Ok(reader) = DeltaReader::attach(alloc, reader, &file, table.present()) else {
        panic!(rt; "not attached");
    };
    let Ok(evolving) = table.clone() else {
        panic!(rt; "no memory");
    };
    Input {
        reader,
        evolving,
        epoch: 0,
    }
}

/// A file of the queried relation itself.
pub fn own<R: FileReader + Drop>(
    rt: &impl Abort,
    alloc: Global,
    source: Source<R>,
    relation: &Arc<Evolving>,
) -> PinnedInput<R>
    requires { relation.now.value.changes ≡ [] }
    ensures { (view : Option ℕ) → IsPinnedInput R.bytes (columns_of relation.now.value) view result }
{
    let input = input_of(rt, alloc, source, relation);
    PinnedInput { input, own: true }
}

/// A file of a table whose first view is queried.
pub fn derived<R: FileReader + Drop>(
    rt: &impl Abort,
    alloc: Global,
    source: Source<R>,
    table: &Arc<Evolving>,
) -> PinnedInput<R>
    requires { table.now.value.changes ≡ [] }
    ensures { (s : Columns) → HasViewOf s (columns_of table.now.value) (view_at table.now.value (Some 0)) → IsPinnedInput R.bytes s (Some 0) result }
{
    let input = input_of(rt, alloc, source, table);
    PinnedInput { input, own: false }
}

/// One file more.
pub fn more<R: FileReader + Drop>(
    rt: &impl Abort,
    inputs: &mut Vec<PinnedInput<R>>,
    input: PinnedInput<R>,
)
    ensures { inputs.new.items ≡ inputs.old.items ++ input ∷ [] }
{
    if inputs.push(input).is_err() {
        panic!(rt; "no memory");
    }
}

/// One file.
pub fn one<R: FileReader + Drop>(
    rt: &impl Abort,
    alloc: Global,
    input: PinnedInput<R>,
) -> Vec<PinnedInput<R>>
    ensures { result.items ≡ input ∷ [] }
{
    let mut inputs = Vec::new(alloc);
    more(rt, &mut inputs, input);
    inputs
}

/// Two files, the older one first.
pub fn two<R: FileReader + Drop>(
    rt: &impl Abort,
    alloc: Global,
    older: PinnedInput<R>,
    newer: PinnedInput<R>,
) -> Vec<PinnedInput<R>>
    ensures { result.items ≡ older ∷ newer ∷ [] }
{
    let mut inputs = Vec::new(alloc);
    more(rt, &mut inputs, older);
    more(rt, &mut inputs, newer);
    inputs
}

/// Three files.
pub fn three<R: FileReader + Drop>(
    rt: &impl Abort,
    alloc: Global,
    first: PinnedInput<R>,
    second: PinnedInput<R>,
    third: PinnedInput<R>,
) -> Vec<PinnedInput<R>>
    ensures { result.items ≡ first ∷ second ∷ third ∷ [] }
{
    let mut inputs = two(rt, alloc, first, second);
    more(rt, &mut inputs, third);
    inputs
}
