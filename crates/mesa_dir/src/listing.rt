// The adopted files of a folder.
use crate::names::adopted_number;
use mesa_disk::FileId;
use mesa_os::System;
use std::io::{self, ErrorKind};

// The number of an entry's id; none where the name isn't an adopted file's, or isn't even text.
fn entry_number(entry: io::Result<String>) -> io::Result<Option<u64>> {
    match entry {
        Ok(name) => Ok(adopted_number(name.as_str())),
        Err(error) if error.kind() == ErrorKind::InvalidFilename => Ok(None),
        Err(error) => Err(error),
    }
}

// The numbers of the ids of all adopted files of a folder.
fn adopted_numbers<S: System>(system: S, path: &str) -> io::Result<Vec<u64>> {
    let mut numbers = Vec::new(system.memory());
    for entry in system.names(path)? {
        if let Some(number) = entry_number(entry)? {
            numbers.push(number)?;
        }
    }
    Ok(numbers)
}

/// The ids of all adopted files of a folder, rising.
pub(crate) fn adopted_ids<S: System>(system: S, path: &str) -> io::Result<Vec<FileId>> {
    let mut numbers = adopted_numbers(system, path)?;
    numbers.sort_unstable();
    let mut ids = Vec::with_capacity(system.memory(), numbers.len())?;
    for number in numbers {
        ids.push(FileId::of(number))?;
    }
    Ok(ids)
}
