// Whether a file is the recorded one.
ghost use Rattle.std.specs.Prelude.{◌≡◌, [], ℕ, List, IfOk, IfErr, OnOk, Some};
ghost use Rattle.mesa_open_files.specs.mesa_io.Causes.{HasFaultCause};
ghost use Rattle.mesa_open_files.specs.mesa_file.declared.damage.Damage.{Damage as AnyDamage};
ghost use Rattle.mesa_open_files.specs.mesa_columns.declared.rows.Row.{Row as AnyRow};
ghost use Rattle.mesa_schema.specs.Changes.{columns_of, epoch_of};
ghost use Rattle.mesa_schema.specs.Lifting.{Lifts};
ghost use Rattle.mesa_disk.specs.Image.{Image};
ghost use Rattle.mesa_disk.specs.Story.{Unmoved};
ghost use Rattle.mesa_delta.specs.Reading.{IsIndexed, index_of};
ghost use Rattle.mesa_delta.specs.declared.error.FileError.TheVariants as file_error;
ghost use Rattle.mesa_scan.specs.Cursors.{IsAllOf, IsInput, IsSameInput, reader_in};
ghost use Rattle.mesa_open_files.specs.Opening.{Counted, HasEpoch, wanted_columns};
ghost use Rattle.mesa_examine.specs.Examined.{AreJudged, IsExaminedAs, is_read_failure};
ghost use Rattle.mesa_examine.specs.Tallies.{Tallies};

use crate::CheckError;
use crate::rows::next_row;
use crate::tally::Tally;
use crate::totals::{Sums, sum_totals};
use mesa_block::fits_alone;
use mesa_delta::{FileError, Input};
use mesa_disk::{FileReader, FileRef, Made};
use mesa_open_files::{DeltaDisk, Met, Wanted, open_one, retire_input};
use mesa_scan::Cursor;
use mesa_schema::{Evolving, Lift, Row, Schema, TryCopy};
use std::alloc::{AllocError, Global};
use std::sync::Arc;

/// Reads a file once: whether it is the recorded one, and what its rows add up to. One block of it is held.
pub fn examine<M: Made, D: DeltaDisk<M>>(
    alloc: Global,
    disk: &mut D,
    wanted: &Wanted,
) -> Result<Option<Sums>, CheckError>
    requires { HasEpoch wanted.now }
    ensures found { IfOk result (λ o. (i : Image) → (D.story disk.old).told ≡ Some i → IsExaminedAs i wanted.now o) }
    ensures unmoved { Unmoved (D.story disk.old) (D.story disk.new) }
    ensures counted { Counted (D.story disk.old) (D.story disk.new) (is_read_failure result) }
{
    fits_alone();
    let (alone, lift) = alone(alloc, wanted)?;
    let own = Wanted {
        file: wanted.file,
        evolving: &alone,
        epoch: 0,
    };
    let mut input = match open_one(alloc, disk, &own) {
        Met::Input(input) => input,
        Met::Damaged(_) => return Ok(None),
        Met::Fault => return Err(CheckError::Read),
        Met::Memory => return Err(CheckError::Memory),
    };
    let present = wanted.evolving.present();
    let judged = judge(alloc, &mut input, wanted.file, &lift, present);
    retire_input(disk, input);
    match judged {
        Ok(sums) => Ok(sums),
        Err(error) => match error {
            FileError::Damaged(_) => Ok(None),
            FileError::Read => Err(CheckError::Read),
            FileError::Memory => Err(CheckError::Memory),
        },
    }
}

// A table that was made with the columns of a file's epoch, and how the file's rows are lifted.
fn alone(alloc: Global, wanted: &Wanted) -> Result<(Arc<Evolving>, Lift), AllocError>
    requires { HasEpoch wanted.now }
    ensures columns { IfOk result (λ x. x.0.value ≡ record { begins = 0; first = wanted_columns wanted.now; changes = []; views = [] }) }
    ensures lift { IfOk result (λ x. Lifts x.1 wanted.now.evolving.now.value wanted.now.epoch) }
{
    let schema = wanted.evolving.schema_at(wanted.epoch)?;
    let lift = wanted.evolving.lift_from(wanted.epoch)?;
    let alone = Arc::new(alloc, Evolving::new(alloc, schema))?;
    Ok((alone, lift))
}

// Reads an input's rows: whether the reference tells them, and what they add up to.
fn judge<R: FileReader>(
    alloc: Global,
    input: &mut Input<R>,
    file: &FileRef,
    lift: &Lift,
    present: &Schema,
) -> Result<Option<Sums>, FileError>
    requires input { IsInput R.bytes input.old }
    ensures judged { IfOk result (λ o. (given : List AnyRow) × IsAllOf R.bytes input.new given × AreJudged (columns_of input.old.evolving.value) present.now lift.now file.now given o) }
    ensures same { IsSameInput R.bytes input.old input.new }
    ensures cause { HasFaultCause (λ e. e ≡ file_error.Read) (R.faults (reader_in input.old)) (R.faults (reader_in input.new)) result }
    ensures accepts { IfErr result (λ e. (d : AnyDamage) → e ≡ file_error.Damaged d → (b : List ℕ) (all : List AnyRow) → R.bytes (reader_in input.old) ≡ Some b → IsIndexed (index_of input.old.reader) all b → ⊥) }
{
    let own = input.evolving.present().copy()?;
    let mut tally = Tally::new(alloc, own.values().len(), present.values().len())?;
    tally_rows(alloc, input, &own, lift, &mut tally)?;
    if !tally.ends.are_of(file) {
        return Ok(None);
    }
    Ok(Some(Sums {
        own: sum_totals(alloc, &own, &tally.own)?,
        present: sum_totals(alloc, present, &tally.present)?,
    }))
}

// Tallies all rows of an input.
fn tally_rows<R: FileReader>(
    alloc: Global,
    input: &mut Input<R>,
    own: &Schema,
    lift: &Lift,
    tally: &mut Tally,
) -> Result<(), FileError>
    requires input { IsInput R.bytes input.old }
    requires own { own.now ≡ columns_of input.old.evolving.value }
    ensures tallied { OnOk result ((present : ℕ) → Tallies own.now lift.now present tally.old [] → (given : List AnyRow) × IsAllOf R.bytes input.new given × Tallies own.now lift.now present tally.new given) }
    ensures same { IsSameInput R.bytes input.old input.new }
    ensures cause { HasFaultCause (λ e. e ≡ file_error.Read) (R.faults (reader_in input.old)) (R.faults (reader_in input.new)) result }
    ensures accepts { IfErr result (λ e. (d : AnyDamage) → e ≡ file_error.Damaged d → (b : List ℕ) (all : List AnyRow) → R.bytes (reader_in input.old) ≡ Some b → IsIndexed (index_of input.old.reader) all b → ⊥) }
{
    let mut cursor = Cursor::of(alloc, input)?;
    let mut row = Row::empty(alloc);
    'rows: for _ in 0..u64::MAX {
        let more = match next_row(&mut cursor, input, &mut row) {
            Ok(more) => more,
            Err(error) => return Err(error),
        };
        if !more {
            return Ok(());
        }
        tally.add(own, lift, &row)?;
    }
    Err(FileError::Memory)
}
