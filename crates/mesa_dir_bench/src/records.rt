// The files that belong to a batch.
use crate::failure::Failure;
use mesa_disk::{Bench, Draft, FileId, Made};
use std::alloc::{AllocError, Global};

/// How many bytes a file has.
pub const FILE_LEN: usize = 2_048;

// The numbers of ids from here on are another run's.
const IDS: u64 = 1 << 40;

/// The numbers of a batch's files.
pub fn files_of(number: u64) -> [u64; 2] {
    let first = number.saturating_mul(2);
    [first, first.saturating_add(1)]
}

/// The id of a file. Numbers so great that they would leave the run's ids share the last.
pub fn file_id(number: u64) -> FileId {
    FileId::adopted(1, number.min(IDS - 1))
}

/// The bytes of a file: its number over and over.
pub fn file_bytes(alloc: Global, number: u64) -> Result<Vec<u8>, AllocError> {
    let mut bytes = Vec::with_capacity(alloc, FILE_LEN)?;
    for _ in 0..FILE_LEN / 8 {
        bytes.extend_from_slice(&number.to_be_bytes())?;
    }
    Ok(bytes)
}

/// Writes a file.
pub fn make_file<M: Made, B: Bench<M>>(
    alloc: Global,
    bench: &mut B,
    number: u64,
) -> Result<M, Failure> {
    let bytes = file_bytes(alloc, number)?;
    let Ok(mut draft) = bench.draft(file_id(number)) else {
        return Err(Failure::Disk);
    };
    if draft.append(&bytes).is_err() {
        bench.spoil(draft);
        return Err(Failure::Disk);
    }
    match draft.finish() {
        Ok(made) => Ok(made),
        Err((_, draft)) => {
            bench.spoil(draft);
            Err(Failure::Disk)
        }
    }
}
