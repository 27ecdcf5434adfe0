// A file read as a stream of lifted rows.
ghost use Rattle.std.specs.Prelude.{◌≡◌, ◌⊎◌, ◌<◌, ◌≤◌, ◌+◌, ◌++◌, [], ◌∷◌, ℕ, List, length, map, drop, IfOk, OnOk, IfErr, OnErr, IfSome, IfNone, IsTrue, Ok, Option, Some, None};
ghost use Rattle.std.specs.Ordering.{is_le};
ghost use Rattle.mesa_disk.specs.mesa_io.Causes.{HasFaultCause};
ghost use Rattle.mesa_delta.specs.mesa_file.declared.damage.Damage.{Damage as AnyDamage};
ghost use Rattle.mesa_delta.specs.mesa_key.Order.{byte_cmp};
ghost use Rattle.mesa_delta.specs.mesa_columns.declared.rows.Row.{Row as AnyRow};
ghost use Rattle.mesa_schema.specs.Changes.{columns_of};
ghost use Rattle.mesa_delta.specs.mesa_fold.Laws.{AreUnder};
ghost use Rattle.mesa_delta.specs.mesa_columns.Lent.{lent};
ghost use Rattle.mesa_delta.specs.mesa_columns.Rows.{AreRowsOf, keys_rise};
ghost use Rattle.mesa_delta.specs.declared.error.FileError.TheVariants as file_error;
ghost use Rattle.mesa_delta.specs.Ahead.{AreOfFile};
ghost use Rattle.mesa_delta.specs.mesa_delta_format.Places.{entry_of};
ghost use Rattle.mesa_delta.specs.Reading.{IsBlockDamage, IsIndexed, index_of};
ghost use Rattle.mesa_scan.specs.Cursors.{HasGiven, HasGivenFrom, IsAllOf, IsDamageFrom, IsInput, IsReady, IsSameInput, IsStill, at_hand, lift_by, low_of, next_of, reader_in};
ghost use Rattle.mesa_scan.specs.Cut.{cut, is_from};

use crate::beginning::{copied, first_from, follows, start_of};
use mesa_block::{Block, fits_alone};
use mesa_delta::{Ahead, FileError, Index, Input};
use mesa_disk::{Damage, FileReader, Seen};
use mesa_schema::{KeyBytes, LentRow, Lift, lifts_to_present};
use std::alloc::{AllocError, Global};

/// Where an input is being read: its rows come one after the other, from the first on or from a key on, lifted to the
/// present, and at most one block of them is held.
///
/// A cursor is of the input that it was made for, which each call is given that reads it or says something of it.
#[derive(Drop)]
pub struct Cursor {
    alloc: Global,
    lift: Lift,
    // The key from which rows are given.
    low: Option<KeyBytes>,
    next: u32,
    // The rows of the block that was read last, lifted, and how many of them are behind the cursor.
    block: Block,
    given: usize,
}

// That keys fall to a block from the one before it.
fn fall(index: &Index, at: u32) -> Damage
    requires { at < length index.now.entries }
    ensures { result ≡ record { file = index.now.file; place = (entry_of index.now.entries at).offset; want = Seen.Fits; found = Seen.Misfit 0 } }
{
    Damage::misfit(index.file(), index.offset(at))
}

impl Cursor {
    /// At the first row of an input, of which nothing was read yet by this cursor. How rows are lifted is found out here, once for all of them.
    pub fn of<R: FileReader>(alloc: Global, input: &Input<R>) -> Result<Self, AllocError>
        requires { IsInput R.bytes input.now }
        ensures given { IfOk result (λ c. HasGiven R.bytes input.now c []) }
        ensures none { IfOk result (λ c. at_hand c ≡ []) }
    {
        Cursor::from_key(alloc, input, &None)
    }

    /// At the first row of an input whose key, at present, is at or above this one, if there is one. Nothing was read
    /// yet by this cursor. It begins at a block that the index tells, where no key column was added since the input's
    /// epoch.
    pub fn from_key<R: FileReader>(
        alloc: Global,
        input: &Input<R>,
        low: &Option<KeyBytes>,
    ) -> Result<Self, AllocError>
        requires { IsInput R.bytes input.now }
        ensures given { IfOk result (λ c. HasGivenFrom R.bytes low.now input.now c []) }
        ensures none { IfOk result (λ c. at_hand c ≡ []) }
    {
        let _present = input.evolving.present();
        let _blocks = input.reader.index().blocks();
        let lift = input.evolving.lift_from(input.epoch)?;
        let next = start_of(input, low);
        Ok(Cursor {
            alloc,
            lift,
            low: copied(low)?,
            next,
            block: Block::none(alloc),
            given: 0,
        })
    }

    /// The row at hand.
    pub fn head(&self) -> Option<LentRow<'_>>
        ensures some { IfSome result (λ row. (rows : List AnyRow) × (at_hand self.now ≡ lent row ∷ rows)) }
        ensures none { IfNone result (at_hand self.now ≡ []) }
    {
        if self.given < self.block.len() {
            Some(self.block.row(self.given))
        } else {
            None
        }
    }

    /// How many rows are held.
    pub fn held(&self) -> usize
        ensures { result ≡ length (at_hand self.now) }
    {
        self.block.len().saturating_sub(self.given)
    }

    /// Gives the row at hand, if there is one: the one behind it is at hand then.
    pub fn step(&mut self)
        ensures rows { at_hand self.new ≡ drop 1 (at_hand self.old) }
        ensures still { IsStill self.old self.new }
    {
        if self.given < self.block.len() {
            self.given += 1;
        }
    }

    // Reads the next block.
    fn read<R: FileReader>(&mut self, input: &mut Input<R>) -> Result<(), FileError>
        requires none { at_hand self.old ≡ [] }
        requires left { next_of self.old < length (index_of input.old.reader).entries }
        ensures given { OnOk result ((low : Option (List ℕ)) (given : List AnyRow) → HasGivenFrom R.bytes low input.old self.old given → HasGivenFrom R.bytes low input.new self.new given) }
        ensures some { OnOk result (low_of self.old ≡ None → 0 < length (at_hand self.new)) }
        ensures low { low_of self.new ≡ low_of self.old }
        ensures next { OnOk result (next_of self.new ≡ next_of self.old + 1) }
        ensures err { OnErr result (self.new ≡ self.old) }
        ensures input { IsInput R.bytes input.old → IsInput R.bytes input.new }
        ensures same { IsSameInput R.bytes input.old input.new }
        ensures size { R.size (reader_in input.new) ≡ R.size (reader_in input.old) }
        ensures reads { R.reads (reader_in input.new) ≤ R.reads (reader_in input.old) + 1 }
        ensures cause { HasFaultCause (λ e. e ≡ file_error.Read) (R.faults (reader_in input.old)) (R.faults (reader_in input.new)) result }
        ensures damaged { IfErr result (λ e. (d : AnyDamage) → e ≡ file_error.Damaged d → low_of self.old ≡ None → IsInput R.bytes input.old
            → (parts : List (List AnyRow)) × IsBlockDamage (R.bytes (reader_in input.old)) (R.size (reader_in input.old)) (index_of input.old.reader) (next_of self.old) parts d) }
        ensures accepts { IfErr result (λ e. (d : AnyDamage) → e ≡ file_error.Damaged d → low_of self.old ≡ None → IsInput R.bytes input.old
            → (b : List ℕ) (all : List AnyRow) → R.bytes (reader_in input.old) ≡ Some b → IsIndexed (index_of input.old.reader) all b → ⊥) }
        ensures damaged_from { IfErr result (λ e. (d : AnyDamage) → e ≡ file_error.Damaged d → (low : Option (List ℕ)) (given : List AnyRow) → HasGivenFrom R.bytes low input.old self.old given
            → IsDamageFrom (R.bytes (reader_in input.old)) (R.size (reader_in input.old)) (index_of input.old.reader) d) }
        ensures accepts_from { IfErr result (λ e. (d : AnyDamage) → e ≡ file_error.Damaged d → (low : Option (List ℕ)) (given : List AnyRow) → HasGivenFrom R.bytes low input.old self.old given
            → (b : List ℕ) (all : List AnyRow) → R.bytes (reader_in input.old) ≡ Some b → IsIndexed (index_of input.old.reader) all b → ⊥) }
    {
        let mut none = Ahead::new(self.alloc);
        self.read_waiting(input, 0, &mut none)
    }

    // Reads the next block as `read` does, from what was read ahead if it is the first that waits.
    fn read_waiting<R: FileReader>(
        &mut self,
        input: &mut Input<R>,
        place: usize,
        ahead: &mut Ahead,
    ) -> Result<(), FileError>
        requires ahead { AreOfFile (R.bytes (reader_in input.old)) (index_of input.old.reader) place ahead.old }
        requires none { at_hand self.old ≡ [] }
        requires left { next_of self.old < length (index_of input.old.reader).entries }
        ensures taken { (ahead.new ≡ ahead.old) ⊎ (ahead.new ≡ drop 1 ahead.old) }
        ensures given { OnOk result ((low : Option (List ℕ)) (given : List AnyRow) → HasGivenFrom R.bytes low input.old self.old given → HasGivenFrom R.bytes low input.new self.new given) }
        ensures some { OnOk result (low_of self.old ≡ None → 0 < length (at_hand self.new)) }
        ensures low { low_of self.new ≡ low_of self.old }
        ensures next { OnOk result (next_of self.new ≡ next_of self.old + 1) }
        ensures err { OnErr result (self.new ≡ self.old) }
        ensures input { IsInput R.bytes input.old → IsInput R.bytes input.new }
        ensures same { IsSameInput R.bytes input.old input.new }
        ensures size { R.size (reader_in input.new) ≡ R.size (reader_in input.old) }
        ensures reads { R.reads (reader_in input.new) ≤ R.reads (reader_in input.old) + 1 }
        ensures cause { HasFaultCause (λ e. e ≡ file_error.Read) (R.faults (reader_in input.old)) (R.faults (reader_in input.new)) result }
        ensures damaged { IfErr result (λ e. (d : AnyDamage) → e ≡ file_error.Damaged d → low_of self.old ≡ None → IsInput R.bytes input.old
            → (parts : List (List AnyRow)) × IsBlockDamage (R.bytes (reader_in input.old)) (R.size (reader_in input.old)) (index_of input.old.reader) (next_of self.old) parts d) }
        ensures accepts { IfErr result (λ e. (d : AnyDamage) → e ≡ file_error.Damaged d → low_of self.old ≡ None → IsInput R.bytes input.old
            → (b : List ℕ) (all : List AnyRow) → R.bytes (reader_in input.old) ≡ Some b → IsIndexed (index_of input.old.reader) all b → ⊥) }
        ensures damaged_from { IfErr result (λ e. (d : AnyDamage) → e ≡ file_error.Damaged d → (low : Option (List ℕ)) (given : List AnyRow) → HasGivenFrom R.bytes low input.old self.old given
            → IsDamageFrom (R.bytes (reader_in input.old)) (R.size (reader_in input.old)) (index_of input.old.reader) d) }
        ensures accepts_from { IfErr result (λ e. (d : AnyDamage) → e ≡ file_error.Damaged d → (low : Option (List ℕ)) (given : List AnyRow) → HasGivenFrom R.bytes low input.old self.old given
            → (b : List ℕ) (all : List AnyRow) → R.bytes (reader_in input.old) ≡ Some b → IsIndexed (index_of input.old.reader) all b → ⊥) }
    {
        fits_alone();
        lifts_to_present();
        let _blocks = input.reader.index().blocks();
        let block = match input.reader.take_block(self.next, place, ahead) {
            Ok(block) => block,
            Err(error) => return Err(error),
        };
        let block = block.lifted(&self.lift)?;
        if !follows(&self.low, &self.block, &block) {
            return Err(FileError::Damaged(fall(input.reader.index(), self.next)));
        }
        self.given = first_from(&block, &self.low);
        self.block = block;
        self.next += 1;
        Ok(())
    }

    /// Reads on where no row is at hand, until one is or there is no block more. Without a key to begin from that is one block at most.
    pub fn fill<R: FileReader>(&mut self, input: &mut Input<R>) -> Result<(), FileError>
        // What was given stays so, and then a row is at hand or the input is at its end.
        ensures given { OnOk result ((low : Option (List ℕ)) (given : List AnyRow) → HasGivenFrom R.bytes low input.old self.old given → HasGivenFrom R.bytes low input.new self.new given) }
        ensures ready { OnOk result (IsReady input.new self.new) }
        ensures stays { 0 < length (at_hand self.old) → (result ≡ Ok tt) × (self.new ≡ self.old) × (input.new ≡ input.old) }
        ensures low { low_of self.new ≡ low_of self.old }

        // The input stays one, of the same file.
        ensures input { IsInput R.bytes input.old → IsInput R.bytes input.new }
        ensures same { IsSameInput R.bytes input.old input.new }

        // No block is read twice.
        ensures reads { low_of self.old ≡ None → R.reads (reader_in input.new) ≤ R.reads (reader_in input.old) + 1 }
        ensures reads_from { R.reads (reader_in input.new) + next_of self.old ≤ R.reads (reader_in input.old) + next_of self.new + 1 }

        // Read comes where the count of faults rose, and Damaged where the file isn't the recorded one. Without a key it is the damage of the next block.
        ensures cause { HasFaultCause (λ e. e ≡ file_error.Read) (R.faults (reader_in input.old)) (R.faults (reader_in input.new)) result }
        ensures damaged { IfErr result (λ e. (d : AnyDamage) → e ≡ file_error.Damaged d → low_of self.old ≡ None → IsInput R.bytes input.old
            → (parts : List (List AnyRow)) × IsBlockDamage (R.bytes (reader_in input.old)) (R.size (reader_in input.old)) (index_of input.old.reader) (next_of self.old) parts d) }
        ensures accepts { IfErr result (λ e. (d : AnyDamage) → e ≡ file_error.Damaged d → low_of self.old ≡ None → IsInput R.bytes input.old
            → (b : List ℕ) (all : List AnyRow) → R.bytes (reader_in input.old) ≡ Some b → IsIndexed (index_of input.old.reader) all b → ⊥) }
        ensures damaged_from { IfErr result (λ e. (d : AnyDamage) → e ≡ file_error.Damaged d → (low : Option (List ℕ)) (given : List AnyRow) → HasGivenFrom R.bytes low input.old self.old given
            → IsDamageFrom (R.bytes (reader_in input.old)) (R.size (reader_in input.old)) (index_of input.old.reader) d) }
        ensures accepts_from { IfErr result (λ e. (d : AnyDamage) → e ≡ file_error.Damaged d → (low : Option (List ℕ)) (given : List AnyRow) → HasGivenFrom R.bytes low input.old self.old given
            → (b : List ℕ) (all : List AnyRow) → R.bytes (reader_in input.old) ≡ Some b → IsIndexed (index_of input.old.reader) all b → ⊥) }
    {
        'reading: while self.given >= self.block.len() && self.next < input.reader.blocks() {
            match self.read(input) {
                Ok(()) => {}
                Err(error) => return Err(error),
            }
        }
        Ok(())
    }

    /// Reads on as `fill` does, and takes the next block from what was read ahead if it is the first that waits. The input is known by its place among those that are read.
    pub fn fill_waiting<R: FileReader>(
        &mut self,
        input: &mut Input<R>,
        place: usize,
        ahead: &mut Ahead,
    ) -> Result<(), FileError>
        requires ahead { AreOfFile (R.bytes (reader_in input.old)) (index_of input.old.reader) place ahead.old }
        ensures taken { (ahead.new ≡ ahead.old) ⊎ (ahead.new ≡ drop 1 ahead.old) }
        ensures given { OnOk result ((low : Option (List ℕ)) (given : List AnyRow) → HasGivenFrom R.bytes low input.old self.old given → HasGivenFrom R.bytes low input.new self.new given) }
        ensures ready { OnOk result (IsReady input.new self.new) }
        ensures input { IsInput R.bytes input.old → IsInput R.bytes input.new }
        ensures same { IsSameInput R.bytes input.old input.new }
        ensures cause { HasFaultCause (λ e. e ≡ file_error.Read) (R.faults (reader_in input.old)) (R.faults (reader_in input.new)) result }
        ensures damaged_from { IfErr result (λ e. (d : AnyDamage) → e ≡ file_error.Damaged d → (low : Option (List ℕ)) (given : List AnyRow) → HasGivenFrom R.bytes low input.old self.old given
            → IsDamageFrom (R.bytes (reader_in input.old)) (R.size (reader_in input.old)) (index_of input.old.reader) d) }
        ensures accepts_from { IfErr result (λ e. (d : AnyDamage) → e ≡ file_error.Damaged d → (low : Option (List ℕ)) (given : List AnyRow) → HasGivenFrom R.bytes low input.old self.old given
            → (b : List ℕ) (all : List AnyRow) → R.bytes (reader_in input.old) ≡ Some b → IsIndexed (index_of input.old.reader) all b → ⊥) }
    {
        if self.given >= self.block.len() && self.next < input.reader.blocks() {
            if let Err(error) = self.read_waiting(input, place, ahead) {
                return Err(error);
            }
            return self.fill(input);
        }
        self.fill(input)
    }

    /// The number of the block that is read next, if there is one.
    pub fn next_block<R: FileReader>(&self, input: &Input<R>) -> Option<u32>
        ensures { IfSome result (λ block. block < length (index_of input.now.reader).entries) }
    {
        (self.next < input.reader.blocks()).then_some(self.next)
    }

    /// What was given and what is at hand has the present columns' form, its keys rise, and none is below the key from which rows are given.
    pub fn rises<R: FileReader>(&self, input: &Input<R>)
        ensures form { (low : Option (List ℕ)) (given : List AnyRow) → HasGivenFrom R.bytes low input.now self.now given → AreRowsOf (columns_of input.now.evolving.value) (given ++ at_hand self.now) }
        ensures rise { (low : Option (List ℕ)) (given : List AnyRow) → HasGivenFrom R.bytes low input.now self.now given → IsTrue (keys_rise (given ++ at_hand self.now)) }
        ensures above { (low : Option (List ℕ)) (given : List AnyRow) (row : AnyRow) (rows : List AnyRow) → HasGivenFrom R.bytes low input.now self.now given → at_hand self.now ≡ row ∷ rows → AreUnder row.key given }
        ensures from { (low : Option (List ℕ)) (given : List AnyRow) (row : AnyRow) (rows : List AnyRow) → HasGivenFrom R.bytes low input.now self.now given → at_hand self.now ≡ row ∷ rows → IsTrue (is_from low row.key) }
        ensures few { (low : Option (List ℕ)) (given : List AnyRow) → HasGivenFrom R.bytes low input.now self.now given → length (at_hand self.now) ≤ 1024 }
    {
        lifts_to_present();
    }

    /// Where no row is at hand and every block was read, all of the input's rows were given, or all from the key on.
    pub fn ends<R: FileReader>(&self, input: &Input<R>)
        ensures all { (given : List AnyRow) → HasGiven R.bytes input.now self.now given → IsReady input.now self.now → at_hand self.now ≡ [] → IsAllOf R.bytes input.now given }
        ensures from { (low : Option (List ℕ)) (given : List AnyRow) → HasGivenFrom R.bytes low input.now self.now given → IsReady input.now self.now → at_hand self.now ≡ []
            → (b : List ℕ) (all : List AnyRow) → R.bytes (reader_in input.now) ≡ Some b → IsIndexed (index_of input.now.reader) all b → given ≡ cut low None (map (lift_by input.now) all) }
    {}

    /// Where the row at hand is at or above a key, and each given one below it, all of the input's rows up to that key were given.
    pub fn stops<R: FileReader>(&self, input: &Input<R>)
        ensures { (low : Option (List ℕ)) (high : List ℕ) (given : List AnyRow) (row : AnyRow) (rows : List AnyRow) → HasGivenFrom R.bytes low input.now self.now given → at_hand self.now ≡ row ∷ rows
            → IsTrue (is_le (byte_cmp high row.key)) → AreUnder high given
            → (b : List ℕ) (all : List AnyRow) → R.bytes (reader_in input.now) ≡ Some b → IsIndexed (index_of input.now.reader) all b → given ≡ cut low (Some high) (map (lift_by input.now) all) }
    {
        lifts_to_present();
    }
}
