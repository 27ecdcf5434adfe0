// A file's rows one by one.
ghost use Rattle.std.specs.Prelude.{◌≡◌, [], ◌∷◌, ◌++◌, ℕ, List, IfOk, IfErr, IfSome, IfNone, None, Some};
ghost use Rattle.std.specs.Bool.{then_some};
ghost use Rattle.mesa_scan.specs.Cursors.{HasGiven, IsAllOf, IsInput, IsSameInput, low_of, reader_in};
ghost use Rattle.mesa_open_files.specs.mesa_io.Causes.{HasFaultCause};
ghost use Rattle.mesa_open_files.specs.mesa_file.declared.damage.Damage.{Damage as AnyDamage};
ghost use Rattle.mesa_open_files.specs.mesa_columns.declared.rows.Row.{Row as AnyRow};
ghost use Rattle.mesa_schema.specs.Changes.{columns_of};
ghost use Rattle.mesa_open_files.specs.mesa_columns.Rows.{IsRowOf};
ghost use Rattle.mesa_delta.specs.Reading.{IsIndexed, index_of};
ghost use Rattle.mesa_delta.specs.declared.error.FileError.TheVariants as file_error;

use mesa_delta::{FileError, Input};
use mesa_disk::FileReader;
use mesa_scan::Cursor;
use mesa_schema::Row;

/// Puts the next row of an input, lifted to the present, into this one, in the room that it has: whether there is one. Beside it at most a block of the file is held. After an Err the row may hold anything.
pub fn next_row<R: FileReader>(
    cursor: &mut Cursor,
    input: &mut Input<R>,
    row: &mut Row,
) -> Result<bool, FileError>
    // What was given grows by the row, or it is all of the input.
    ensures some { IfOk result (λ more. IfSome (then_some more row.new) (λ next. (given : List AnyRow) → HasGiven R.bytes input.old cursor.old given → HasGiven R.bytes input.new cursor.new (given ++ next ∷ []) × IsRowOf (columns_of input.old.evolving.value) next)) }
    ensures none { IfOk result (λ more. IfNone (then_some more row.new) ((given : List AnyRow) → HasGiven R.bytes input.old cursor.old given → HasGiven R.bytes input.new cursor.new given × IsAllOf R.bytes input.new given)) }

    ensures low { low_of cursor.new ≡ low_of cursor.old }

    // The input stays one, of the same file.
    ensures input { IsInput R.bytes input.old → IsInput R.bytes input.new }
    ensures same { IsSameInput R.bytes input.old input.new }

    // Read comes where the count of faults rose, and Damaged where the file isn't the recorded one.
    ensures cause { HasFaultCause (λ e. e ≡ file_error.Read) (R.faults (reader_in input.old)) (R.faults (reader_in input.new)) result }
    ensures accepts { IfErr result (λ e. (d : AnyDamage) → e ≡ file_error.Damaged d → low_of cursor.old ≡ None → IsInput R.bytes input.old
        → (b : List ℕ) (all : List AnyRow) → R.bytes (reader_in input.old) ≡ Some b → IsIndexed (index_of input.old.reader) all b → ⊥) }
{
    match cursor.fill(input) {
        Ok(()) => {}
        Err(error) => return Err(error),
    }
    cursor.rises(input);
    cursor.ends(input);
    let Some(head) = cursor.head() else {
        return Ok(false);
    };
    row.fill(head)?;
    cursor.step();
    Ok(true)
}
