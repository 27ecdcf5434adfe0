//! Stores numbered batches in a folder, each of two files and a record, until it has so many or is killed.
//!
//! The arguments are a word and a number: `anew N` empties the folder first, `on N` goes on with what is
//! there. It checks all that it finds, prints `found K`, and then each number that is acknowledged. A
//! program beside it kills it at any moment, starts it again and compares; another takes the time.
#![tactic(auto)]

mod failure;
mod finding;
mod records;

use failure::Failure;
use finding::{Found, find};
use mesa_dir::{DirBench, DirDisk, Host};
use mesa_disk::{Area, Disk};
use mesa_journal::{Framed, append};
use records::{file_id, files_of, make_file};
use std::alloc::Global;
use std::thread::Threads;
use std::{env, fs};

// The folder, within the current one.
const FOLDER: &str = "mesa-bench-store";

// Adopts the files of a batch.
fn add_files<R: Threads + Sync + Copy + Send>(
    alloc: Global,
    disk: &mut DirDisk<Host<R>>,
    bench: &mut DirBench<Host<R>>,
    number: u64,
) -> Result<(), Failure> {
    for file in files_of(number) {
        let made = make_file(alloc, bench, file)?;
        if disk.adopt(made, file_id(file)).is_err() {
            return Err(Failure::Disk);
        }
    }
    Ok(())
}

// Appends the record of a batch: then it is acknowledged.
fn add_record<R: Threads + Sync + Copy + Send>(
    alloc: Global,
    disk: &mut DirDisk<Host<R>>,
    number: u64,
    end: u64,
) -> Result<u64, Failure> {
    if disk.journal_len(Area::Zero) <= end {
        return Err(Failure::Journal);
    }
    let framed = Framed::new(alloc, &number.to_be_bytes())?;
    append(disk, Area::Zero, end, &framed).or(Err(Failure::Disk))
}

// Adds batches until there are so many.
fn add_all<R: Threads + Sync + Copy + Send>(
    rt: &HostRuntime,
    disk: &mut DirDisk<Host<R>>,
    bench: &mut DirBench<Host<R>>,
    count: u64,
) -> Result<(), Failure> {
    let Found { batches, mut end } = find(rt.alloc(), disk)?;
    println!(rt; "found {batches}")?;
    for number in batches..count {
        add_files(rt.alloc(), disk, bench, number)?;
        end = add_record(rt.alloc(), disk, number, end)?;
        println!(rt; "{number}")?;
    }
    Ok(())
}

// Opens the folder, and adds batches.
fn run<R: Threads + Sync + Copy + Send>(
    threads: R,
    rt: HostRuntime,
    words: &[String],
) -> Result<(), Failure> {
    let [word, count] = words else {
        return Err(Failure::Words);
    };
    let Ok(count) = count.parse::<u64>() else {
        return Err(Failure::Words);
    };
    match word.as_str() {
        "anew" => {
            let _ = fs::remove_dir_all(&rt, FOLDER);
        }
        "on" => {}
        _ => return Err(Failure::Words),
    }
    let mut disk = DirDisk::open(Host::new(threads, rt), FOLDER)?;
    let mut bench = disk.bench()?;
    add_all(&rt, &mut disk, &mut bench, count)
}

fn main(rt: HostRuntime) -> Result<(), Failure> {
    let words: Vec<String> = env::args(&rt)?.skip(1).collect(rt.alloc())?;
    run(rt, rt, &words)
}
