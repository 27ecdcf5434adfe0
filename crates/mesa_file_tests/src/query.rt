// Tests of scanning files and of answering queries from them, over files that are spelled by their format.
mod answering;
mod beside;
mod inputs;
mod read_ahead;
mod scanning;
mod sums;
mod tables;
mod vectors;
mod views;
mod warmed;
