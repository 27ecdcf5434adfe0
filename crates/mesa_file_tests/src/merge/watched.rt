// Readers of a merge's parts, which are held until others are asked.
ghost use Rattle.std.specs.Prelude.{None};
ghost use Rattle.mesa_disk.specs.Untold.{no_size};

use mesa_disk::{FileReader, ReadFailed};
use std::sync::atomic::{AtomicU64, Ordering};
use std::thread::yield_now;

/// How often a reader looks whether another was asked before it gives up and answers.
const LOOKS: u32 = 20_000_000;

/// Where the readers of the first part are held until one of the second was asked.
#[derive(Drop)]
pub struct Gate {
    asked: AtomicU64,
    given_up: AtomicU64,
}

impl Gate {
    pub fn new() -> Gate {
        Gate::asked(0)
    }

    /// A gate that holds nobody.
    pub fn open() -> Gate {
        Gate::asked(1)
    }

    // A gate by which so many readers of the second part have come.
    fn asked(asked: u64) -> Gate {
        Gate {
            asked: AtomicU64::new(asked),
            given_up: AtomicU64::new(0),
        }
    }

    /// How many readers of the first part have answered though none of the second was asked.
    pub fn given_up(&self) -> u64 {
        self.given_up.load(Ordering::SeqCst)
    }

    // Whether a reader of the second part is asked before this one gives up.
    fn is_asked(&self) -> bool {
        for _look in 0..LOOKS {
            if self.asked.load(Ordering::SeqCst) > 0 {
                return true;
            }
            yield_now();
        }
        false
    }

    // A reader of a part comes by.
    fn come(&self, part: u8) {
        match part {
            0 if !self.is_asked() => {
                self.given_up.fetch_add(1, Ordering::SeqCst);
            }
            1 => {
                self.asked.fetch_add(1, Ordering::SeqCst);
            }
            _ => {}
        }
    }
}

/// A reader of a part, which tells nothing of its bytes. It comes by the gate at each read but its first, which is of the file's tail.
#[derive(Drop)]
pub struct PartReader<'a, R> {
    reader: R,
    part: u8,
    gate: &'a Gate,
    has_read: bool,
}

impl<'a, R> PartReader<'a, R> {
    pub fn new(reader: R, part: u8, gate: &'a Gate) -> PartReader<'a, R> {
        PartReader {
            reader,
            part,
            gate,
            has_read: false,
        }
    }
}

impl<'a, R: FileReader> FileReader for PartReader<'a, R> {
    ghost bytes = { λ r. None };

    ghost size = { λ r. R.size r.reader };

    ghost faults = { λ r. R.faults r.reader };

    ghost reads = { λ r. R.reads r.reader };

    ghost sized = { λ r b is. absurd (no_size b is) };

    fn len(&self) -> u64 {
        self.reader.len()
    }

    fn read_at(&mut self, at: u64, buf: &mut [u8]) -> Result<(), ReadFailed> {
        if self.has_read {
            self.gate.come(self.part);
        }
        self.has_read = true;
        self.reader.read_at(at, buf)
    }
}
