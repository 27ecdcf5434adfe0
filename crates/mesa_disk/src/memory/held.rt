//! What a disk in memory holds.
ghost use Rattle.std.specs.Prelude.{◌≡◌, ◌++◌, IfOk, OnOk, OnErr, Some, Option, option_map};
ghost use Rattle.std.specs.FinMap.{keys};
ghost use Rattle.std.specs.Arc.{arc_value};
ghost use Rattle.mesa_disk.specs.Image.{area_of, with_area, overwritten, file_of, with_file, without_file};
ghost use Rattle.mesa_disk.specs.Recorded.{held_image, given_image, start_image};

use crate::{Area, ByteList, FileId};
use mesa_file::TryCopy;
use std::alloc::{AllocError, Global};
use std::collections::BTreeMap;
use std::sync::Arc;

/// The bytes of a file, shared by all that hold it.
pub type SharedBytes = Arc<ByteList, Global>;

/// Two areas, and the files by the numbers of their ids.
#[derive(Drop)]
pub struct Held {
    pub zero: Vec<u8>,
    pub one: Vec<u8>,
    pub files: BTreeMap<u64, SharedBytes>,
}

/// What a disk is made from. Where an id stands twice, the first file counts.
#[derive(Drop)]
pub struct Given {
    pub zero: Vec<u8>,
    pub one: Vec<u8>,
    pub files: Vec<(FileId, ByteList)>,
}

/// What a disk held at first: as it was given, which takes no memory, or with files that can be shared.
#[derive(Drop)]
pub enum Start {
    AsGiven(Given),
    Shared(Held),
}

/// The bytes of an area.
pub fn start_bytes(start: &Start, area: Area) -> &[u8]
    ensures { result.now ≡ area_of area (start_image start.now) }
{
    match (start, area) {
        (Start::AsGiven(given), Area::Zero) => &given.zero,
        (Start::AsGiven(given), Area::One) => &given.one,
        (Start::Shared(held), area) => held_bytes(held, area),
    }
}

/// The bytes of an area.
pub fn held_bytes(held: &Held, area: Area) -> &[u8]
    ensures { result.now ≡ area_of area (held_image held.now) }
{
    match area {
        Area::Zero => &held.zero,
        Area::One => &held.one,
    }
}

/// Writes over the bytes of an area, in place.
pub fn write_area(held: &mut Held, area: Area, at: usize, bytes: &[u8]) -> Result<(), AllocError>
    ensures ok { OnOk result (held_image held.new ≡ with_area area (overwritten at bytes.now (area_of area (held_image held.old))) (held_image held.old)) }
    ensures err { OnErr result (held_image held.new ≡ held_image held.old) }
{
    match area {
        Area::Zero => write_over(&mut held.zero, at, bytes),
        Area::One => write_over(&mut held.one, at, bytes),
    }
}

// Writes over bytes, and past their end. A place behind the end is taken for the end.
fn write_over(old: &mut Vec<u8>, at: usize, bytes: &[u8]) -> Result<(), AllocError>
    ensures ok { OnOk result (old.new.items ≡ overwritten at bytes.now old.old.items) }
    ensures err { OnErr result (old.new.items ≡ old.old.items) }
{
    let at = at.min(old.len());
    let within = bytes.len().min(old.len() - at);
    old.extend_from_slice(&bytes[within..])?;
    old[at..at + within].copy_from_slice(&bytes[..within]);
    Ok(())
}

/// Puts a file under an id.
pub fn put_file(held: &mut Held, id: FileId, bytes: SharedBytes) -> Result<(), AllocError>
    ensures ok { OnOk result (held_image held.new ≡ with_file id (arc_value bytes) (held_image held.old)) }
    ensures err { OnErr result (held_image held.new ≡ held_image held.old) }
{
    held.files.insert(id.number(), bytes)?;
    Ok(())
}

/// Takes the file of an id away, if it is there.
pub fn drop_file(held: &mut Held, id: FileId)
    ensures { held_image held.new ≡ without_file id (held_image held.old) }
{
    let _file = held.files.remove(&id.number());
}

/// The bytes of the file of an id.
pub fn find_file(held: &Held, id: FileId) -> Option<&SharedBytes>
    ensures { option_map (λ bytes. arc_value bytes.now) result ≡ file_of (held_image held.now) id }
{
    held.files.get(&id.number())
}

/// The ids of all files, rising.
pub fn held_ids(alloc: Global, held: &Held) -> Result<Vec<FileId>, AllocError>
    ensures { IfOk result (λ ids. ids.items ≡ keys (held_image held.now).files) }
{
    let mut ids = Vec::with_capacity(alloc, held.files.len())?;
    for number in held.files.keys() {
        ids.push(FileId::of(*number))?;
    }
    Ok(ids)
}

/// The same again; the files are shared.
pub fn copy_held(alloc: Global, held: &Held) -> Result<Held, AllocError>
    ensures { IfOk result (λ other. held_image other ≡ held_image held.now) }
{
    Ok(Held {
        zero: held.zero.as_slice().to_vec(alloc)?,
        one: held.one.as_slice().to_vec(alloc)?,
        files: held.files.clone()?,
    })
}

/// What was held at first, with files that can be shared.
pub fn copy_start(alloc: Global, start: &Start) -> Result<Held, AllocError>
    ensures { IfOk result (λ held. held_image held ≡ start_image start.now) }
{
    match start {
        Start::AsGiven(given) => share(alloc, given),
        Start::Shared(held) => copy_held(alloc, held),
    }
}

fn share(alloc: Global, given: &Given) -> Result<Held, AllocError>
    ensures { IfOk result (λ held. held_image held ≡ given_image given.now) }
{
    let mut held = Held {
        zero: given.zero.as_slice().to_vec(alloc)?,
        one: given.one.as_slice().to_vec(alloc)?,
        files: BTreeMap::new(alloc),
    };
    let mut left = given.files.as_slice();
    while let [rest @ .., (id, bytes)] = left {
        put_file(&mut held, *id, Arc::new(alloc, bytes.copy()?)?)?;
        left = rest;
    }
    Ok(held)
}
