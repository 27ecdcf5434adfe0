// Stores as text: a line with area 0 of the journal, and behind a bar area 1 where it isn't empty, and one for each file
// with its id, all in hexadecimal digits.
use mesa_disk::{Area, ByteList, Disk, FileId, FileReader, MemDisk};
use std::alloc::Global;
use std::process::Abort;

// The bytes of an area.
fn area_of(rt: &impl Abort, alloc: Global, disk: &mut MemDisk, area: Area) -> String {
    let len = disk.journal_len(area) as usize;
    let mut bytes = vec![in alloc; 0u8; len].expect(rt, "memory");
    disk.journal_read(area, 0, &mut bytes).expect(rt, "an area");
    hex::encode(alloc, &bytes).expect(rt, "memory")
}

// Both areas.
fn areas_of(rt: &impl Abort, alloc: Global, disk: &mut MemDisk) -> String {
    let mut text = area_of(rt, alloc, disk, Area::Zero);
    let one = area_of(rt, alloc, disk, Area::One);
    if !one.is_empty() {
        write!(text, "|{one}").expect(rt, "memory");
    }
    text
}

// The bytes of a file.
fn digits_of(rt: &impl Abort, alloc: Global, disk: &mut MemDisk, id: FileId) -> String {
    let mut reader = disk.reader(id).expect(rt, "a reader");
    let mut bytes = vec![in alloc; 0u8; reader.len() as usize].expect(rt, "memory");
    reader.read_at(0, &mut bytes).expect(rt, "a file");
    hex::encode(alloc, &bytes).expect(rt, "memory")
}

/// The text of what is on a disk.
pub fn shown(rt: &impl Abort, alloc: Global, disk: &mut MemDisk) -> String {
    let mut text = areas_of(rt, alloc, disk);
    let ids = disk.file_ids().expect(rt, "a list of files");
    for id in &ids {
        let digits = digits_of(rt, alloc, disk, *id);
        write!(text, "\n{:016x} {digits}", id.number()).expect(rt, "memory");
    }
    text
}

fn bytes_of(rt: &impl Abort, alloc: Global, digits: &str) -> Vec<u8> {
    hex::decode(alloc, digits.as_bytes()).expect(rt, "digits")
}

// The file of a line.
fn file_of(rt: &impl Abort, alloc: Global, line: &str) -> (FileId, ByteList) {
    let (id, digits) = line.split_once(' ').expect(rt, "an id");
    let id = u64::from_str_radix(id, 16).expect(rt, "a number");
    let bytes = bytes_of(rt, alloc, digits);
    (FileId::of(id), ByteList::from_vec(bytes))
}

// The files of some lines.
fn files_of(rt: &impl Abort, alloc: Global, lines: &str) -> Vec<(FileId, ByteList)> {
    let mut files = Vec::new(alloc);
    for line in lines.lines() {
        files.push(file_of(rt, alloc, line)).expect(rt, "memory");
    }
    files
}

/// A disk with what a text says, of which these calls fail.
pub fn spelled(rt: &impl Abort, alloc: Global, text: &str, fails: &[u64]) -> MemDisk {
    let (areas, lines) = text.split_once('\n').unwrap_or((text, ""));
    let (zero, one) = areas.split_once('|').unwrap_or((areas, ""));
    let fails = fails.to_vec(alloc).expect(rt, "memory");
    let zero = bytes_of(rt, alloc, zero);
    let one = bytes_of(rt, alloc, one);
    let files = files_of(rt, alloc, lines);
    MemDisk::new(alloc, zero, one, files, fails)
}

/// Whether these ids are those of these numbers.
pub fn are_numbered(ids: &[FileId], numbers: &[u64]) -> bool {
    let are_same = |(id, number): (&FileId, &u64)| id.number() == *number;
    ids.len() == numbers.len() && ids.iter().zip(numbers).all(are_same)
}
