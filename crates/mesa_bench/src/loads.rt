// Loads, and the batches that they make.

use crate::failure::Failure;
use mesa_batch::{BatchBuilder, Glance, LoadRows};
use mesa_list::Fields;
use std::alloc::{AllocError, Global};

// How many rows have the same day.
const ITEMS: u64 = 10_000;

// Rows come in steps of so many, so that they don't rise.
const STEP: u64 = 7_919;

fn push_number(alloc: Global, words: &mut Fields, number: u64) -> Result<(), AllocError> {
    words.push(format!(in alloc; "{number}")?.as_bytes())
}

// The words of the row of this number.
fn push_words(alloc: Global, words: &mut Fields, number: u64) -> Result<(), AllocError> {
    words.push(b"sales")?;
    push_number(alloc, words, number / ITEMS)?;
    push_number(alloc, words, number % ITEMS)?;
    push_number(alloc, words, number % 1_000)?;
    push_number(alloc, words, number % 777)
}

fn push_row(alloc: Global, load: &mut LoadRows, number: u64) -> Result<(), AllocError> {
    let mut words = Fields::new(alloc);
    push_words(alloc, &mut words, number)?;
    load.push(&words)
}

/// A load of so many rows, each with a key of its own where their number isn't a multiple of the step.
pub fn make_load(alloc: Global, rows: u32) -> Result<LoadRows, AllocError> {
    let mut load = LoadRows::new(alloc);
    let count = u64::from(rows);
    for i in 0..rows {
        let number = (u64::from(i) * STEP) % count;
        push_row(alloc, &mut load, number)?;
    }
    Ok(load)
}

/// Reads a load as a batch, and counts its rows.
pub fn read_load(alloc: Global, glance: &Glance, load: &LoadRows) -> Result<usize, Failure> {
    let mut builder = BatchBuilder::new(alloc);
    for i in 0..load.len() {
        if builder.row(glance, &load.row(i)).is_err() {
            return Err(Failure::Refused);
        }
    }
    match builder.finish() {
        Ok(batch) => Ok(batch.len()),
        Err(_) => Err(Failure::Refused),
    }
}
