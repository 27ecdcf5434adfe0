// The first blocks of inputs, read ahead.
ghost use Rattle.std.specs.Prelude.{◌≡◌, ◌<◌, List, length, Some, slice_get, IfErr};
ghost use Rattle.mesa_scan.specs.mesa_io.Causes.{HasFaultCause};
ghost use Rattle.mesa_delta.specs.declared.error.FileError.TheVariants as file_error;
ghost use Rattle.mesa_delta.specs.Ahead.{AreAhead, Told as AnyTold};
ghost use Rattle.mesa_scan.specs.Cursors.{reader_in};
ghost use Rattle.mesa_scan.specs.Moving.{moved_to, told_in};
ghost use Rattle.mesa_merge.specs.Faults.{HaveFaultCause, faults_of};
ghost use Rattle.mesa_merge.specs.Waiting.{AreWaiting};

use mesa_delta::{Ahead, FileError, Input};
use mesa_disk::FileReader;
use mesa_scan::Cursor;

// Reads the block ahead that a cursor reads next, if there is one, and says whether more may be read. It isn't tested yet.
fn wait_for<R: FileReader>(
    cursor: &Cursor,
    input: &mut Input<R>,
    place: usize,
    ahead: &mut Ahead,
) -> Result<bool, FileError>
    ensures ahead { (files : List AnyTold) → slice_get files place ≡ Some (told_in R.bytes input.old) → AreAhead files ahead.old → AreAhead files ahead.new }
    ensures input { input.new ≡ moved_to (reader_in input.new) input.old }
    ensures bytes { R.bytes (reader_in input.new) ≡ R.bytes (reader_in input.old) }
    ensures cause { HasFaultCause (λ e. e ≡ file_error.Read) (R.faults (reader_in input.old)) (R.faults (reader_in input.new)) result }
    ensures fault { IfErr result (λ e. e ≡ file_error.Read) }
{
    if ahead.is_full() {
        return Ok(false);
    }
    let Some(block) = cursor.next_block(input) else {
        return Ok(true);
    };
    if !ahead.read(place, &mut input.reader, block)? {
        return Ok(false);
    }
    Ok(true)
}

// Reads ahead the first blocks of inputs from a place on, one of each, until no more may be.
fn read_first<R: FileReader>(
    inputs: &mut [Input<R>],
    cursors: &[Cursor],
    from: usize,
    ahead: &mut Ahead,
) -> Result<(), FileError>
    requires count { length cursors.now ≡ length inputs.old }
    ensures waiting { AreWaiting R.bytes cursors.now inputs.old inputs.new ahead.old ahead.new }
    ensures cause { HaveFaultCause (λ e. e ≡ file_error.Read) (faults_of R.faults inputs.old) (faults_of R.faults inputs.new) result }
    ensures fault { IfErr result (λ e. e ≡ file_error.Read) }
{
    'first: for i in from..inputs.len() {
        let cursor = &cursors[i];
        let input = &mut inputs[i];
        match wait_for(cursor, input, i, ahead) {
            Ok(true) => {}
            Ok(false) => return Ok(()),
            Err(error) => return Err(error),
        }
    }
    Ok(())
}

// Where nothing waits, reads ahead the first blocks of an input, if it has one, and of those behind it, and takes their digests side by side. So of no input more than a block is held.
pub(crate) fn wait_from<R: FileReader>(
    inputs: &mut [Input<R>],
    cursors: &[Cursor],
    from: usize,
    ahead: &mut Ahead,
) -> Result<(), FileError>
    requires count { length cursors.now ≡ length inputs.old }
    requires within { from < length inputs.old }
    ensures waiting { AreWaiting R.bytes cursors.now inputs.old inputs.new ahead.old ahead.new }
    ensures cause { HaveFaultCause (λ e. e ≡ file_error.Read) (faults_of R.faults inputs.old) (faults_of R.faults inputs.new) result }
    ensures fault { IfErr result (λ e. e ≡ file_error.Read) }
{
    if !ahead.is_empty() || cursors[from].next_block(&inputs[from]).is_none() {
        return Ok(());
    }
    read_first(inputs, cursors, from, ahead)?;
    ahead.digest();
    Ok(())
}
