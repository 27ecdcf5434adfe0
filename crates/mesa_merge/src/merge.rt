// The fold of inputs as a stream.
ghost use Rattle.std.specs.Prelude.{◌≡◌, ◌<◌, ◌≤◌, ◌*◌, ◌-◌, ◌^◌, [], ℕ, List, length, Option, min, sum_by, slice_get, IfOk, IfErr, IfNone, None, Some, Err};
ghost use Rattle.std.specs.List.{AllByRecursion};
ghost use Rattle.mesa_value.specs.declared.Agg.{Agg as AnyAgg};
ghost use Rattle.mesa_scan.specs.mesa_columns.declared.rows.Row.{Row as AnyRow};
ghost use Rattle.mesa_scan.specs.mesa_columns.Columns.{Columns};
ghost use Rattle.mesa_scan.specs.mesa_fold.Folded.{folded};
ghost use Rattle.mesa_scan.specs.mesa_columns.Lent.{lent};
ghost use Rattle.mesa_delta.specs.declared.error.FileError.{FileError as AnyError};
ghost use Rattle.mesa_scan.specs.Cursors.{IsInput};
ghost use Rattle.mesa_merge.specs.Inputs.{AreInputs, Known as AnyKnown, knowns_of};

use crate::making::{Parts, parts_of};
use crate::matches::Tree;
use crate::next::{begin, next_row};
use crate::streams::held_by;
use crate::sums::file_at;
use mesa_delta::{FileError, Input};
use mesa_disk::{FileId, FileReader};
use mesa_key::KeyBytes;
use mesa_scan::Cursor;
use mesa_schema::{LentRow, Row};
use mesa_value::Agg;
use std::alloc::{AllocError, Global};

/// The fold of files as a stream, whole or between two keys: its rows come one by one, in the order of their keys. The files stand in version order, and at most one block is held of each.
#[derive(Drop)]
pub struct Merge<R> {
    inputs: Vec<Input<R>>,
    cursors: Vec<Cursor>,
    tree: Tree,
    // The aggregations of the columns that the rows are lifted to.
    aggs: Vec<Agg>,
    // No row is given whose key is at or above this one.
    high: Option<KeyBytes>,
    // The row that was given last, in room that is used again for the next one.
    row: Row,
    // The place of the newest input that gave a row of its key.
    last: usize,
    // Whether the first blocks were read.
    begun: bool,
    failed: Option<FileError>,
}

impl<R: FileReader> Merge<R> {
    ghost use Rattle.mesa_merge.specs.Calls.{IsNextBetween, IsNextOf, answer_of};
    ghost use Rattle.mesa_merge.specs.Merged.{HasMerged, HasMergedBetween, IsBegun, IsGoing, failed_of, hands_in, high_of, inputs_of, last_in, nothing_given, row_in};

    /// A merge of inputs in version order, whose rows are lifted to one schema. Nothing is read yet.
    pub fn new(alloc: Global, inputs: Vec<Input<R>>) -> Result<Self, (AllocError, Vec<Input<R>>)>
        requires { AllByRecursion (IsInput R.bytes) inputs.items }
        ensures merged { IfOk result (λ m. (s : Columns) → AreInputs R.bytes s inputs.items → HasMerged R.bytes s m (nothing_given inputs.items)) }
        ensures nothing { (aggs : List AnyAgg) → folded aggs (nothing_given inputs.items) ≡ [] }
        ensures inputs { IfOk result (λ m. inputs_of m ≡ inputs.items) }
        ensures given_back { IfErr result (λ e. e.1 ≡ inputs) }
    {
        Merge::between(alloc, inputs, None, None)
    }

    /// A merge of inputs in version order of which only the rows from `low` on are given, where there is one, and below `high`, where there is one. Nothing is read yet; where an index tells in which block `low` would stand, the blocks before it aren't read at all.
    pub fn between(
        alloc: Global,
        inputs: Vec<Input<R>>,
        low: Option<KeyBytes>,
        high: Option<KeyBytes>,
    ) -> Result<Self, (AllocError, Vec<Input<R>>)>
        requires { AllByRecursion (IsInput R.bytes) inputs.items }
        ensures merged { IfOk result (λ m. (s : Columns) → AreInputs R.bytes s inputs.items → HasMergedBetween R.bytes low high s m (nothing_given inputs.items)) }
        ensures nothing { (aggs : List AnyAgg) → folded aggs (nothing_given inputs.items) ≡ [] }
        ensures high { IfOk result (λ m. high_of m ≡ high) }
        ensures inputs { IfOk result (λ m. inputs_of m ≡ inputs.items) }
        ensures given_back { IfErr result (λ e. e.1 ≡ inputs) }
    {
        let Ok(parts) = parts_of(alloc, &inputs, &low) else {
            return Err((AllocError, inputs));
        };
        let Parts {
            cursors,
            tree,
            aggs,
        } = parts;
        Ok(Merge {
            inputs,
            cursors,
            tree,
            aggs,
            high,
            row: Row::empty(alloc),
            last: 0,
            begun: false,
            failed: None,
        })
    }

    /// Whether there is a next row of the fold, which `row` then lends; at the end of all inputs, or at the high end, there is none. After an Err each call answers the same Err.
    pub fn next(&mut self) -> Result<bool, FileError>
        requires { IfNone (failed_of self.old) (IsGoing R.bytes self.old) }
        ensures next { failed_of self.old ≡ None → IsNextOf R.bytes R.faults R.size self.old self.new (answer_of result self.new) }
        ensures between { failed_of self.old ≡ None → IsNextBetween R.bytes R.faults R.size self.old self.new (answer_of result self.new) }
        ensures failed { IfErr result (λ e. failed_of self.new ≡ Some e) }
        ensures again { (e : AnyError) → failed_of self.old ≡ Some e → (result ≡ Err e) × (self.new ≡ self.old) }
    {
        match self.failed {
            Some(error) => Err(error),
            None => self.go_on(),
        }
    }

    /// The row of the last `next` that answered true. After an Err it may be any row.
    pub fn row(&self) -> LentRow<'_>
        ensures { lent result ≡ row_in self.now }
    {
        self.row.lend()
    }

    /// The newest file that has a row of the key that was given last.
    pub fn last_file(&self) -> FileId
        requires { last_in self.now < length (inputs_of self.now) }
        ensures { (k : AnyKnown) × (slice_get (knowns_of R.bytes (inputs_of self.now)) (last_in self.now) ≡ Some k) × (result ≡ k.file.file) }
    {
        file_at(&self.inputs, self.last)
    }

    // The next row of a merge that has not failed. An Err is kept.
    fn go_on(&mut self) -> Result<bool, FileError>
        requires { IsGoing R.bytes self.old }
        ensures next { IsNextBetween R.bytes R.faults R.size self.old self.new (answer_of result self.new) }
        ensures failed { IfErr result (λ e. failed_of self.new ≡ Some e) }
    {
        match self.step() {
            Ok(more) => Ok(more),
            Err(error) => {
                self.failed = Some(same(&error));
                Err(error)
            }
        }
    }

    // The next row, after the first blocks were read.
    fn step(&mut self) -> Result<bool, FileError>
        requires { IsGoing R.bytes self.old }
        ensures { IsNextBetween R.bytes R.faults R.size self.old self.new (answer_of result self.new) }
    {
        if self.begun {
            return self.further();
        }
        let alloc = *self.inputs.allocator();
        match begin(alloc, &mut self.inputs, &mut self.cursors, &mut self.tree) {
            Ok(()) => {
                self.begun = true;
                self.further()
            }
            Err(error) => Err(error),
        }
    }

    // The next row, where the first blocks were read.
    fn further(&mut self) -> Result<bool, FileError>
        requires { (low : Option (List ℕ)) × (high : Option (List ℕ)) × (s : Columns) × (givens : List (List AnyRow)) × HasMergedBetween R.bytes low high s self.old givens × IsBegun self.old }
        ensures { IsNextBetween R.bytes R.faults R.size self.old self.new (answer_of result self.new) }
    {
        next_row(
            &mut self.inputs,
            &mut self.cursors,
            &mut self.tree,
            &self.aggs,
            &self.high,
            &mut self.row,
            &mut self.last,
        )
    }

    /// How many rows are held, at most those of one block of each input. It takes no memory.
    pub fn held(&self) -> u64
        ensures held { result ≡ min (sum_by length (hands_in self.now)) (2 ^ 64 - 1) }
        ensures few { (low high : Option (List ℕ)) (s : Columns) (givens : List (List AnyRow)) → HasMergedBetween R.bytes low high s self.now givens → result ≤ 1024 * length (inputs_of self.now) }
    {
        held_by(&self.cursors)
    }

    /// The inputs. It takes no memory.
    pub fn into_inputs(self) -> Vec<Input<R>>
        ensures { result.items ≡ inputs_of self }
    {
        let Merge {
            inputs,
            cursors: _cursors,
            tree: _tree,
            aggs: _aggs,
            high: _high,
            row: _row,
            last: _last,
            begun: _begun,
            failed: _failed,
        } = self;
        inputs
    }
}

// The error once more.
fn same(error: &FileError) -> FileError
    ensures { result ≡ error.now }
{
    *error
}
