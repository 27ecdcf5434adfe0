// An input scanned block by block.
ghost use Rattle.std.specs.Prelude.{◌≡◌, ◌<◌, ◌≤◌, ◌+◌, ◌++◌, ◌↔◌, [], List, length, IfOk, OnOk, OnErr, IfErr, IsTrue, Some, slice_get};
ghost use Rattle.mesa_disk.specs.mesa_io.Causes.{HasCause, HasFaultCause};
ghost use Rattle.mesa_delta.specs.mesa_file.declared.damage.Damage.{Damage as AnyDamage};
ghost use Rattle.mesa_delta.specs.mesa_columns.declared.rows.Row.{Row as AnyRow};
ghost use Rattle.mesa_delta.specs.declared.error.FileError.TheVariants as file_error;
ghost use Rattle.mesa_delta.specs.Ahead.{AreAhead, AreOfFile, Told as AnyTold};
ghost use Rattle.mesa_delta.specs.Reading.{index_of};
ghost use Rattle.mesa_scan.specs.Cursors.{IsInput, IsSameInput, reader_in};
ghost use Rattle.mesa_scan.specs.Damaged.{IsDamaged};
ghost use Rattle.mesa_scan.specs.Moving.{moved_to, told_in};
ghost use Rattle.mesa_scan.specs.Scanning.{HasScanned, IsFilterOf, filter_of, next_of, read_of};

use crate::ahead::read_on;
use crate::allowing::{key_columns, may_have};
use crate::matching::{MatchingRows, matching_in};
use mesa_block::fits_alone;
use mesa_delta::{Ahead, FileError, Input, keys_between};
use mesa_disk::{FileReader, ReadFailed};
use mesa_filter::Filter;
use mesa_schema::{Lift, lifts_to_present, reads_back};
use std::alloc::{AllocError, Global};

/// Where an input is being scanned for the rows that match a filter. It goes on block by block, and a block is read only where it may have a matching row; so what is held is at most a block.
///
/// A scan is of the input that it was made for, which each call is given that reads it.
#[derive(Drop)]
pub struct Scan<'a> {
    alloc: Global,
    filter: &'a Filter,
    lift: Lift,
    // How many key columns the file's rows have.
    columns: u8,
    next: u32,
    blocks_read: u32,
}

impl<'a> Scan<'a> {
    /// At the first block of an input. The filter is one of the columns to which its rows are lifted.
    pub fn of<R: FileReader>(
        alloc: Global,
        input: &Input<R>,
        filter: &'a Filter,
    ) -> Result<Self, AllocError>
        requires input { IsInput R.bytes input.now }
        requires filter { IsFilterOf input.now filter.now }
        ensures given { IfOk result (λ s. HasScanned R.bytes input.now s []) }
        ensures filter { IfOk result (λ s. filter_of s ≡ filter.now) }
        ensures start { IfOk result (λ s. next_of s ≡ 0) }
    {
        let lift = input.evolving.lift_from(input.epoch)?;
        Ok(Scan {
            alloc,
            filter,
            lift,
            columns: key_columns(input),
            next: 0,
            blocks_read: 0,
        })
    }

    /// Whether every block was looked at.
    pub fn is_over<R: FileReader>(&self, input: &Input<R>) -> bool
        ensures { IsTrue result ↔ (length (index_of input.now.reader).entries ≤ next_of self.now) }
    {
        self.next >= input.reader.blocks()
    }

    /// How many blocks were read.
    pub fn blocks_read(&self) -> u32
        ensures { result ≡ read_of self.now }
    {
        self.blocks_read
    }

    /// Goes on by a block: its matching rows, lifted. After an error the scan stands where it stood.
    pub fn block<R: FileReader>(&mut self, input: &mut Input<R>) -> Result<MatchingRows, FileError>
        requires scanning { (given : List AnyRow) × HasScanned R.bytes input.old self.old given }
        requires left { next_of self.old < length (index_of input.old.reader).entries }
        ensures more { IfOk result (λ more. (given : List AnyRow) → HasScanned R.bytes input.old self.old given → HasScanned R.bytes input.new self.new (given ++ more)) }
        ensures next { OnOk result (next_of self.new ≡ next_of self.old + 1) }
        ensures filter { filter_of self.new ≡ filter_of self.old }
        ensures stays { OnErr result (self.new ≡ self.old) }

        // The input stays one, of the same file, and is read at most once.
        ensures input { IsInput R.bytes input.new }
        ensures same { IsSameInput R.bytes input.old input.new }
        ensures size { R.size (reader_in input.new) ≡ R.size (reader_in input.old) }
        ensures reads { OnOk result (R.reads (reader_in input.new) + read_of self.old ≤ R.reads (reader_in input.old) + read_of self.new) }

        // Read comes where the count of faults rose, and Damaged where the file isn't the recorded one.
        ensures cause { HasFaultCause (λ e. e ≡ file_error.Read) (R.faults (reader_in input.old)) (R.faults (reader_in input.new)) result }
        ensures damaged { IfErr result (λ e. (d : AnyDamage) → e ≡ file_error.Damaged d → IsDamaged R.bytes R.size input.old d) }
    {
        fits_alone();
        keys_between();
        lifts_to_present();
        reads_back();
        let _columns = input.evolving.present();
        let index = input.reader.index();
        let _blocks = index.blocks();
        if !may_have(self.filter, self.columns, index, self.next) {
            self.next += 1;
            return Ok(MatchingRows::none(self.alloc));
        }
        let block = match input.reader.block(self.next) {
            Ok(block) => block,
            Err(error) => return Err(error),
        };
        let rows = matching_in(self.alloc, self.filter, block.lifted(&self.lift)?)?;
        self.blocks_read += 1;
        self.next += 1;
        Ok(rows)
    }

    /// Goes on by a block as `block` does: the first that waits, or else it is read. Where none waits, those behind it are read ahead. The input is known by its place among those that are scanned.
    pub fn next_block<R: FileReader>(
        &mut self,
        input: &mut Input<R>,
        place: usize,
        ahead: &mut Ahead,
    ) -> Result<MatchingRows, FileError>
        requires scanning { (given : List AnyRow) × HasScanned R.bytes input.old self.old given }
        requires left { next_of self.old < length (index_of input.old.reader).entries }
        requires ahead { AreOfFile (R.bytes (reader_in input.old)) (index_of input.old.reader) place ahead.old }
        ensures more { IfOk result (λ more. (given : List AnyRow) → HasScanned R.bytes input.old self.old given → HasScanned R.bytes input.new self.new (given ++ more)) }
        ensures next { OnOk result (next_of self.new ≡ next_of self.old + 1) }
        ensures filter { filter_of self.new ≡ filter_of self.old }
        ensures stays { OnErr result (self.new ≡ self.old) }

        // What waits is of this input, or waited before.
        ensures own { AreOfFile (R.bytes (reader_in input.old)) (index_of input.old.reader) place ahead.new }
        ensures ahead { (files : List AnyTold) → slice_get files place ≡ Some (told_in R.bytes input.old) → AreAhead files ahead.old → AreAhead files ahead.new }

        // The input stays one, of the same file.
        ensures input { IsInput R.bytes input.new }
        ensures same { IsSameInput R.bytes input.old input.new }
        ensures size { R.size (reader_in input.new) ≡ R.size (reader_in input.old) }

        // Read comes where the count of faults rose, and Damaged where the file isn't the recorded one.
        ensures cause { HasFaultCause (λ e. e ≡ file_error.Read) (R.faults (reader_in input.old)) (R.faults (reader_in input.new)) result }
        ensures damaged { IfErr result (λ e. (d : AnyDamage) → e ≡ file_error.Damaged d → IsDamaged R.bytes R.size input.old d) }
    {
        fits_alone();
        keys_between();
        lifts_to_present();
        reads_back();
        let _columns = input.evolving.present();
        let index = input.reader.index();
        let _blocks = index.blocks();
        if !may_have(self.filter, self.columns, index, self.next) {
            self.next += 1;
            return Ok(MatchingRows::none(self.alloc));
        }
        self.fill(input, place, ahead)?;
        let block = match input.reader.take_block(self.next, place, ahead) {
            Ok(block) => block,
            Err(error) => return Err(error),
        };
        let rows = matching_in(self.alloc, self.filter, block.lifted(&self.lift)?)?;
        self.blocks_read += 1;
        self.next += 1;
        Ok(rows)
    }

    // Reads ahead from the next block on, where none waits.
    fn fill<R: FileReader>(
        &self,
        input: &mut Input<R>,
        place: usize,
        ahead: &mut Ahead,
    ) -> Result<(), ReadFailed>
        ensures own { AreOfFile (R.bytes (reader_in input.old)) (index_of input.old.reader) place ahead.old → AreOfFile (R.bytes (reader_in input.old)) (index_of input.old.reader) place ahead.new }
        ensures ahead { (files : List AnyTold) → slice_get files place ≡ Some (told_in R.bytes input.old) → AreAhead files ahead.old → AreAhead files ahead.new }
        ensures input { input.new ≡ moved_to (reader_in input.new) input.old }
        ensures bytes { R.bytes (reader_in input.new) ≡ R.bytes (reader_in input.old) }
        ensures size { R.size (reader_in input.new) ≡ R.size (reader_in input.old) }
        ensures cause { HasCause (R.faults (reader_in input.old)) (R.faults (reader_in input.new)) result }
    {
        if !ahead.is_empty() {
            return Ok(());
        }
        read_on(
            input,
            place,
            Some(self.filter),
            self.columns,
            self.next,
            ahead,
        )?;
        ahead.digest();
        Ok(())
    }
}
