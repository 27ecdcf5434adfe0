//! Measures what is done with rows in memory; a program beside it takes the time.
//!
//! The arguments are pairs of a word and a number N. `rows N` makes N rows one by one.
//!
//! Files: `write N` writes the file of N rows, `read N` writes it and reads it again, and `digest N` takes the SHA-256
//! of N bytes.
//!
//! Answers: `put N` puts each of N rows into its group as it is made. `hold N` makes a list of N rows; over such a list
//! `answer N` answers a query, `copy N` copies each row, and `lift N` lifts each row through ten changes.
//!
//! Loads: `load N` makes a load of N rows, `batch N` makes it and reads it as a batch, and `prepare N` makes it and
//! writes its files, the table's and two views'.
#![tactic(auto)]

mod answering;
mod columns;
mod failure;
mod hashing;
mod lifting;
mod loads;
mod preparing;
mod reading;
mod rows;
mod table;
mod writing;

use answering::{answer_rows, put_rows};
use failure::Failure;
use hashing::digest_blocks;
use lifting::{copy_rows, lift_rows};
use loads::{make_load, read_load};
use mesa_disk::{FileRef, MemMade};
use preparing::{Summary, prepare_load};
use reading::read_file;
use rows::{add_up_rows, hold_rows};
use std::alloc::Global;
use std::env;
use std::thread::Threads;
use table::glance;
use writing::write_file;

// Makes rows one by one.
fn make(rt: &HostRuntime, rows: u32) -> Result<(), Failure> {
    let total = add_up_rows(rt.alloc(), rows)?;
    println!(rt; "made rows={rows} total={total}")?;
    Ok(())
}

fn tell_written(rt: &HostRuntime, file: &FileRef) -> Result<(), Failure> {
    println!(rt;
        "wrote rows={} blocks={} bytes={}",
        file.rows, file.blocks, file.len
    )?;
    Ok(())
}

// Writes a file.
fn write(rt: &HostRuntime, rows: u32) -> Result<(), Failure> {
    let (made, file) = write_file(rt.alloc(), rows)?;
    drop(made);
    tell_written(rt, &file)
}

fn tell_read(rt: &HostRuntime, made: MemMade, file: &FileRef) -> Result<(), Failure> {
    let total = read_file(rt.alloc(), made, file)?;
    println!(rt;
        "read rows={} blocks={} bytes={} total={total}",
        file.rows, file.blocks, file.len
    )?;
    Ok(())
}

// Writes a file, and reads it again.
fn read(rt: &HostRuntime, rows: u32) -> Result<(), Failure> {
    let (made, file) = write_file(rt.alloc(), rows)?;
    tell_read(rt, made, &file)
}

// Takes digests.
fn digest(rt: &HostRuntime, bytes: u32) -> Result<(), Failure> {
    let odd = digest_blocks(rt.alloc(), u64::from(bytes))?;
    println!(rt; "digested bytes={bytes} odd={odd}")?;
    Ok(())
}

// How many rows a measurement came to.
fn count(alloc: Global, word: &str, rows: u32) -> Result<usize, Failure> {
    match word {
        "put" => put_rows(alloc, rows),
        "hold" => Ok(hold_rows(alloc, rows)?),
        "answer" => answer_rows(alloc, rows),
        "copy" => Ok(copy_rows(alloc, rows)?),
        "lift" => lift_rows(alloc, rows),
        _ => Err(Failure::Words),
    }
}

fn tell_count(rt: &HostRuntime, word: &str, rows: u32) -> Result<(), Failure> {
    let found = count(rt.alloc(), word, rows)?;
    println!(rt; "{word} {rows} found={found}")?;
    Ok(())
}

// Makes a load.
fn load(rt: &HostRuntime, rows: u32) -> Result<(), Failure> {
    let rows = make_load(rt.alloc(), rows)?.len();
    println!(rt; "made rows={rows}")?;
    Ok(())
}

fn read_rows(alloc: Global, rows: u32) -> Result<usize, Failure> {
    let glance = glance(alloc)?;
    let load = make_load(alloc, rows)?;
    read_load(alloc, &glance, &load)
}

// Reads a load as a batch.
fn batch(rt: &HostRuntime, rows: u32) -> Result<(), Failure> {
    let rows = read_rows(rt.alloc(), rows)?;
    println!(rt; "read rows={rows}")?;
    Ok(())
}

fn prepare_rows<R: Threads + Sync>(
    threads: &R,
    alloc: Global,
    rows: u32,
) -> Result<Summary, Failure> {
    let glance = glance(alloc)?;
    let load = make_load(alloc, rows)?;
    prepare_load(threads, alloc, &glance, &load)
}

// Writes the files of a load.
fn prepare<R: Threads + Sync>(rt: &HostRuntime, threads: &R, rows: u32) -> Result<(), Failure> {
    let Summary { rows, bytes, views } = prepare_rows(threads, rt.alloc(), rows)?;
    println!(rt; "prepared rows={rows} bytes={bytes} views={views}")?;
    Ok(())
}

// One measurement.
fn measure<R: Threads + Sync>(
    rt: &HostRuntime,
    threads: &R,
    word: &str,
    number: u32,
) -> Result<(), Failure> {
    match word {
        "rows" => make(rt, number),
        "write" => write(rt, number),
        "read" => read(rt, number),
        "digest" => digest(rt, number),
        "load" => load(rt, number),
        "batch" => batch(rt, number),
        "prepare" => prepare(rt, threads, number),
        _ => tell_count(rt, word, number),
    }
}

fn measure_all<R: Threads + Sync>(
    rt: &HostRuntime,
    threads: &R,
    words: &[String],
) -> Result<(), Failure> {
    let mut left = words;
    while let [word, number, rest @ ..] = left {
        let Ok(number) = number.parse::<u32>() else {
            return Err(Failure::Words);
        };
        measure(rt, threads, word.as_str(), number)?;
        left = rest;
    }
    if left.is_empty() {
        Ok(())
    } else {
        Err(Failure::Words)
    }
}

fn main(rt: HostRuntime) -> Result<(), Failure> {
    let words: Vec<String> = env::args(&rt)?.skip(1).collect(rt.alloc())?;
    measure_all(&rt, &rt, &words)
}
