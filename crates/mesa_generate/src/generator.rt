// The records of versions, from what a generator draws.
ghost use Rattle.std.specs.Prelude.{◌≡◌, ◌<◌, ℕ, suc, ◌+◌, ◌%◌, pos, ◌-ℤ◌, ◌++◌, [], List, OnOk};
ghost use Rattle.mesa_invariant_spec.specs.mesa_script.Generated.{draw, expiry_after, row_record, rows_from, versions_from};

use itoa::{Buffer, Integer};
use std::alloc::{AllocError, Global};

/// A script that is being generated: the generator's state, and the records so far.
#[derive(Drop)]
pub(crate) struct Generator {
    pub(crate) state: u64,
    pub(crate) script: Vec<u8>,
}

// A row's clicks, from -100 to 100.
fn clicks_of(drawn: u64) -> i64
    ensures { result ≡ pos (drawn % 201) -ℤ pos 100 }
{
    (drawn % 201) as i64 - 100
}

impl Generator {
    /// A generator with a seed, and no records.
    pub(crate) fn new(alloc: Global, seed: u32) -> Self
        ensures state { result.state ≡ seed }
        ensures script { result.script.items ≡ [] }
    {
        Generator {
            state: seed as u64,
            script: Vec::new(alloc),
        }
    }

    // The next number that is drawn.
    fn draw(&mut self) -> u64
        requires { self.old.state < 4294967296 }
        ensures drawn { result ≡ draw self.old.state }
        ensures state { self.new.state ≡ draw self.old.state }
        ensures script { self.new.script.items ≡ self.old.script.items }
    {
        self.state = (75 * self.state + 74) % 65_537;
        self.state
    }

    /// Writes bytes.
    pub(crate) fn write(&mut self, bytes: &[u8]) -> Result<(), AllocError>
        ensures script { OnOk result (self.new.script.items ≡ self.old.script.items ++ bytes.now) }
        ensures state { self.new.state ≡ self.old.state }
    {
        self.script.extend_from_slice(bytes)
    }

    // Writes a number behind some bytes.
    fn write_number<I: Integer>(&mut self, before: &[u8], number: I) -> Result<(), AllocError>
        ensures script { OnOk result (self.new.script.items ≡ self.old.script.items ++ (before.now ++ I.text number)) }
        ensures state { self.new.state ≡ self.old.state }
    {
        self.write(before)?;
        let mut buffer = Buffer::new();
        self.write(buffer.format(number).as_bytes())
    }

    // Writes row j of a version.
    fn write_row(&mut self, version: u32, j: u32) -> Result<(), AllocError>
        requires state { self.old.state < 4294967296 }
        requires row { j < 4 }
        ensures script { OnOk result (self.new.script.items ≡ self.old.script.items ++ row_record version j (draw self.old.state) (draw (draw self.old.state)) (draw (draw (draw self.old.state)))) }
        ensures state { OnOk result (self.new.state ≡ draw (draw (draw self.old.state))) }
    {
        let site = self.draw();
        let clicks = self.draw();
        let low = self.draw();
        self.write_number(b"row,facts,", version / 10)?;
        self.write_number(b",", 4 * (site % 16) + j as u64)?;
        self.write_number(b",", clicks_of(clicks))?;
        self.write_number(b",", low % 1000)?;
        self.write_number(b",", version)?;
        self.write(b"\n")
    }

    // Writes the four rows of a version.
    fn write_rows(&mut self, version: u32) -> Result<(), AllocError>
        requires { self.old.state < 4294967296 }
        ensures script { OnOk result ((rest : ℕ → List ℕ) → self.old.script.items ++ rows_from version 0 4 self.old.state rest ≡ self.new.script.items ++ rest self.new.state) }
        ensures state { OnOk result (self.new.state < 4294967296) }
    {
        'rows: for j in 0..4 {
            self.write_row(version, j)?;
        }
        Ok(())
    }

    // Writes the expiry behind a version, where one follows it.
    fn write_expiry(&mut self, version: u32) -> Result<(), AllocError>
        ensures script { OnOk result (self.new.script.items ≡ self.old.script.items ++ expiry_after version) }
        ensures state { self.new.state ≡ self.old.state }
    {
        if version % 25 != 24 {
            return Ok(());
        }
        self.write_number(b"expire,", version - 10)?;
        self.write(b"\n")
    }

    /// Writes a version: its rows, its end and a work, and perhaps an expiry.
    pub(crate) fn write_version(&mut self, version: u32) -> Result<(), AllocError>
        requires { self.old.state < 4294967296 }
        ensures script { OnOk result ((more : ℕ) → self.old.script.items ++ versions_from version (suc more) self.old.state ≡ self.new.script.items ++ versions_from (version + 1) more self.new.state) }
        ensures state { OnOk result (self.new.state < 4294967296) }
    {
        self.write_rows(version)?;
        self.write(b"commit\nwork,facts\n")?;
        self.write_expiry(version)
    }
}
