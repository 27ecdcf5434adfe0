// Preparing the files of a load.
use crate::failure::Failure;
use mesa_batch::{Glance, LoadRows};
use mesa_disk::{MemBench, MemMade};
use mesa_file::Serials;
use mesa_load::prepare;
use mesa_open_files::Prepared;
use std::alloc::Global;
use std::thread::Threads;

/// What the files of a load come to.
#[derive(Clone, Copy)]
pub struct Summary {
    pub rows: u64,
    pub bytes: u64,
    pub views: usize,
}

fn summary_of(prepared: &Prepared<MemMade>) -> Result<Summary, Failure> {
    let Some(part) = prepared.parts.first() else {
        return Err(Failure::Words);
    };
    let Some(files) = &part.files else {
        return Err(Failure::Refused);
    };
    let table = &files.file.file;
    Ok(Summary {
        rows: table.rows,
        bytes: table.len,
        views: files.views.len(),
    })
}

/// Writes the files of a load, the table's and its views'.
pub fn prepare_load<R: Threads + Sync>(
    threads: &R,
    alloc: Global,
    glance: &Glance,
    load: &LoadRows,
) -> Result<Summary, Failure> {
    let mut bench = MemBench::new(alloc, Vec::new(alloc));
    let mut ids = Serials::new(1, 0);
    match prepare(threads, alloc, &mut bench, &mut ids, glance, load) {
        Ok(prepared) => summary_of(&prepared),
        Err(_) => Err(Failure::Refused),
    }
}
