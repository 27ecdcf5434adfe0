// What a start finds in the folder.
use crate::failure::Failure;
use crate::records::{FILE_LEN, file_bytes, file_id, files_of};
use mesa_disk::{Area, Disk, FileId, FileReader, Made, remove_all};
use mesa_journal::{Body, JournalRead, close_gate, read_journal};
use std::alloc::{AllocError, Global};

/// How many batches there are, and where the journal ends.
#[derive(Clone, Copy)]
pub struct Found {
    pub batches: u64,
    pub end: u64,
}

// Whether a reader gives the file of this number.
fn is_file<R: FileReader>(alloc: Global, reader: &mut R, number: u64) -> Result<bool, AllocError> {
    let wanted = file_bytes(alloc, number)?;
    let mut bytes = vec![in alloc; 0u8; FILE_LEN]?;
    if reader.len() != bytes.len() as u64 || reader.read_at(0, &mut bytes).is_err() {
        return Ok(false);
    }
    Ok(bytes.as_slice() == wanted.as_slice())
}

// Checks that a file is there.
fn check_file<M: Made, D: Disk<M>>(
    alloc: Global,
    disk: &mut D,
    number: u64,
) -> Result<(), Failure> {
    let Ok(mut reader) = disk.reader(file_id(number)) else {
        return Err(Failure::File(number));
    };
    let is_there = is_file(alloc, &mut reader, number);
    disk.retire(reader);
    if is_there? {
        Ok(())
    } else {
        Err(Failure::File(number))
    }
}

// Checks that the records are those from 0 on and that each has its files, and counts them.
fn check_records<M: Made, D: Disk<M>>(
    alloc: Global,
    disk: &mut D,
    records: &[Body],
) -> Result<u64, Failure> {
    let mut batches = 0u64;
    for record in records {
        if record.bytes.as_slice() != batches.to_be_bytes().as_slice() {
            return Err(Failure::Record(batches));
        }
        for file in files_of(batches) {
            check_file(alloc, disk, file)?;
        }
        batches = batches.saturating_add(1);
    }
    Ok(batches)
}

// The ids of files that no record names.
fn strays(alloc: Global, ids: &[FileId], batches: u64) -> Result<Vec<FileId>, AllocError> {
    let [first, _] = files_of(batches);
    let mut strays = Vec::new(alloc);
    for id in ids {
        if id.number() >= file_id(first).number() {
            strays.push(*id)?;
        }
    }
    Ok(strays)
}

// Removes the files of a batch that was not acknowledged.
fn remove_strays<M: Made, D: Disk<M>>(
    alloc: Global,
    disk: &mut D,
    batches: u64,
) -> Result<(), Failure> {
    let Ok(ids) = disk.file_ids() else {
        return Err(Failure::Disk);
    };
    let strays = strays(alloc, &ids, batches)?;
    remove_all(disk, &strays).or(Err(Failure::Disk))
}

// The journal as it is read. One with no byte gets its first gate.
fn read<M: Made, D: Disk<M>>(alloc: Global, disk: &mut D) -> Result<JournalRead, Failure> {
    if disk.journal_len(Area::Zero) <= 1 && close_gate(disk, Area::Zero).is_err() {
        return Err(Failure::Disk);
    }
    read_journal(alloc, disk, Area::Zero).or(Err(Failure::Journal))
}

fn check<M: Made, D: Disk<M>>(
    alloc: Global,
    disk: &mut D,
    journal: &JournalRead,
) -> Result<Found, Failure> {
    let batches = check_records(alloc, disk, journal.bodies.as_slice())?;
    remove_strays(alloc, disk, batches)?;
    let end = journal.end;
    Ok(Found { batches, end })
}

/// Checks all that is there, and removes files that no record names.
pub fn find<M: Made, D: Disk<M>>(alloc: Global, disk: &mut D) -> Result<Found, Failure> {
    let journal = read(alloc, disk)?;
    check(alloc, disk, &journal)
}
