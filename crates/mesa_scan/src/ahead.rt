// Blocks of an input read before they are scanned.
ghost use Rattle.std.specs.Prelude.{◌≡◌, ◌<◌, Some, List, length, slice_get, IfErr};
ghost use Rattle.mesa_disk.specs.mesa_io.Causes.{HasCause, HasFaultCause};
ghost use Rattle.mesa_delta.specs.declared.error.FileError.TheVariants as file_error;
ghost use Rattle.mesa_delta.specs.Ahead.{AreAhead, AreOfFile, Told as AnyTold};
ghost use Rattle.mesa_delta.specs.Reading.{index_of};
ghost use Rattle.mesa_scan.specs.Cursors.{reader_in};
ghost use Rattle.mesa_scan.specs.Moving.{moved_to, told_in};

use crate::allowing::may_have;
use mesa_delta::{Ahead, FileError, Input};
use mesa_disk::{FileReader, ReadFailed};
use mesa_filter::Filter;

/// Reads ahead an input's first blocks, until no more may be: those that may have a row that matches the filter, or where there is none, all. The input is known by its place among those that are scanned.
pub fn read_ahead<R: FileReader>(
    input: &mut Input<R>,
    place: usize,
    filter: Option<&Filter>,
    ahead: &mut Ahead,
) -> Result<(), FileError>
    // What waits is of this input, or waited before.
    ensures own { AreOfFile (R.bytes (reader_in input.old)) (index_of input.old.reader) place ahead.old → AreOfFile (R.bytes (reader_in input.old)) (index_of input.old.reader) place ahead.new }
    ensures ahead { (files : List AnyTold) → slice_get files place ≡ Some (told_in R.bytes input.old) → AreAhead files ahead.old → AreAhead files ahead.new }

    // Of the input only what it reads from moved, and Read comes where its count of faults rose.
    ensures input { input.new ≡ moved_to (reader_in input.new) input.old }
    ensures bytes { R.bytes (reader_in input.new) ≡ R.bytes (reader_in input.old) }
    ensures size { R.size (reader_in input.new) ≡ R.size (reader_in input.old) }
    ensures cause { HasFaultCause (λ e. e ≡ file_error.Read) (R.faults (reader_in input.old)) (R.faults (reader_in input.new)) result }
    ensures fault { IfErr result (λ e. e ≡ file_error.Read) }
{
    let columns = input.reader.index().schema().keys().len() as u8;
    read_on(input, place, filter, columns, 0, ahead)?;
    Ok(())
}

// Reads ahead an input's blocks from one on, until no more may be.
pub(crate) fn read_on<R: FileReader>(
    input: &mut Input<R>,
    place: usize,
    filter: Option<&Filter>,
    columns: u8,
    from: u32,
    ahead: &mut Ahead,
) -> Result<(), ReadFailed>
    ensures own { AreOfFile (R.bytes (reader_in input.old)) (index_of input.old.reader) place ahead.old → AreOfFile (R.bytes (reader_in input.old)) (index_of input.old.reader) place ahead.new }
    ensures ahead { (files : List AnyTold) → slice_get files place ≡ Some (told_in R.bytes input.old) → AreAhead files ahead.old → AreAhead files ahead.new }
    ensures input { input.new ≡ moved_to (reader_in input.new) input.old }
    ensures bytes { R.bytes (reader_in input.new) ≡ R.bytes (reader_in input.old) }
    ensures size { R.size (reader_in input.new) ≡ R.size (reader_in input.old) }
    ensures cause { HasCause (R.faults (reader_in input.old)) (R.faults (reader_in input.new)) result }
{
    let blocks = input.reader.blocks();
    'each_block: for block in from..blocks {
        if ahead.is_full() {
            return Ok(());
        }
        if !is_wanted(filter, columns, input, block) {
            continue;
        }
        if !ahead.read(place, &mut input.reader, block)? {
            return Ok(());
        }
    }
    Ok(())
}

// Whether a block may have a row that matches, or is wanted in any case.
fn is_wanted<R: FileReader>(
    filter: Option<&Filter>,
    columns: u8,
    input: &Input<R>,
    block: u32,
) -> bool
    requires { block < length (index_of input.now.reader).entries }
{
    match filter {
        Some(filter) => may_have(filter, columns, input.reader.index(), block),
        None => true,
    }
}
