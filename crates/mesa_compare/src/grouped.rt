// A view's file compared with the rows of a table's file, grouped.
ghost use Rattle.std.specs.Prelude.{◌≡◌, ◌∷◌, [], ◌<◌, ℕ, List, length, map, slice_get, IfErr, IfOk, IfSome, IsTrue, None, Some};
ghost use Rattle.mesa_disk.specs.mesa_io.Causes.{HasFaultCause};
ghost use Rattle.mesa_examine.specs.mesa_file.declared.damage.Damage.{Damage as AnyDamage};
ghost use Rattle.mesa_schema.specs.mesa_columns.declared.rows.Row.{Row as AnyRow};
ghost use Rattle.mesa_schema.specs.Changes.{columns_of};
ghost use Rattle.mesa_schema.specs.mesa_columns.Rows.{keys_rise};
ghost use Rattle.mesa_schema.specs.Views.{view_rows};
ghost use Rattle.mesa_view.specs.mesa_answer.Answering.{KeepsSums};
ghost use Rattle.mesa_examine.specs.mesa_delta.Reading.{IsIndexed, index_of};
ghost use Rattle.mesa_examine.specs.mesa_delta.declared.error.FileError.TheVariants as file_error;
ghost use Rattle.mesa_examine.specs.mesa_scan.Cursors.{HasGiven, IsInput, IsSameInput, lift_by, low_of, reader_in};
ghost use Rattle.mesa_merge.specs.Faults.{HaveFaultCause};
ghost use Rattle.mesa_compare.specs.Difference.{first_difference};

use crate::finishing::finish_input;
use crate::keys::difference_at;
use crate::same_rows_differ_nowhere;
use mesa_disk::FileReader;
use mesa_examine::{Cursor, FileError, Input, next_row};
use mesa_schema::{KeyBytes, Row, groups_rise};
use mesa_view::derive;
use std::alloc::Global;

/// The first key at which the rows of a table's file, grouped by the view of a number, differ from the rows of the view's file; None where they are the same.
pub(crate) fn grouped_difference<R: FileReader>(
    alloc: Global,
    table: &mut Input<R>,
    view: u8,
    own: &mut Input<R>,
) -> Result<Option<KeyBytes>, FileError>
    requires table { IsInput R.bytes table.old }
    requires there { view < length table.old.evolving.value.views }
    requires own { IsInput R.bytes own.old }

    // Where both files are told and their indexes are true of them, it is the first difference of their rows.
    ensures difference { IfOk result (λ o. (b c : List ℕ) (all mine : List AnyRow) → R.bytes (reader_in table.old) ≡ Some b → IsIndexed (index_of table.old.reader) all b → R.bytes (reader_in own.old) ≡ Some c → IsIndexed (index_of own.old.reader) mine c
        → IfSome (slice_get table.old.evolving.value.views view) (λ v. o ≡ first_difference (view_rows (columns_of table.old.evolving.value) v (map (lift_by table.old) all)) (map (lift_by own.old) mine))) }

    // Both stay inputs, of the same files.
    ensures table_same { IsSameInput R.bytes table.old table.new }
    ensures own_same { IsSameInput R.bytes own.old own.new }

    // Read comes where a count of faults rose, and Damaged never where the files are the recorded ones and the sums keep their bound.
    ensures cause { HaveFaultCause (λ e. e ≡ file_error.Read) (R.faults (reader_in table.old) ∷ R.faults (reader_in own.old) ∷ []) (R.faults (reader_in table.new) ∷ R.faults (reader_in own.new) ∷ []) result }
    ensures never { IfErr result (λ e. (d : AnyDamage) → e ≡ file_error.Damaged d → (b c : List ℕ) (all mine : List AnyRow) → R.bytes (reader_in table.old) ≡ Some b → IsIndexed (index_of table.old.reader) all b → R.bytes (reader_in own.old) ≡ Some c → IsIndexed (index_of own.old.reader) mine c
        → KeepsSums (columns_of table.old.evolving.value) (map (lift_by table.old) all) → ⊥) }
{
    groups_rise();
    let rows = match derive(alloc, table, view) {
        Ok(rows) => rows,
        Err(error) => return Err(error),
    };
    let mut cursor = Cursor::of(alloc, own)?;
    listed_difference(alloc, rows.as_slice(), &mut cursor, own)
}

// The first key at which rows differ from those of a file, of which nothing was read yet.
fn listed_difference<R: FileReader>(
    alloc: Global,
    rows: &[Row],
    cursor: &mut Cursor,
    input: &mut Input<R>,
) -> Result<Option<KeyBytes>, FileError>
    requires input { IsInput R.bytes input.old }
    requires given { HasGiven R.bytes input.old cursor.old [] }
    ensures difference { IfOk result (λ o. (b : List ℕ) (all : List AnyRow) → IsTrue (keys_rise rows.now) → R.bytes (reader_in input.old) ≡ Some b → IsIndexed (index_of input.old.reader) all b
        → o ≡ first_difference rows.now (map (lift_by input.old) all)) }
    ensures same { IsSameInput R.bytes input.old input.new }
    ensures cause { HasFaultCause (λ e. e ≡ file_error.Read) (R.faults (reader_in input.old)) (R.faults (reader_in input.new)) result }
    ensures never { IfErr result (λ e. (d : AnyDamage) → e ≡ file_error.Damaged d → (b : List ℕ) (all : List AnyRow) → R.bytes (reader_in input.old) ≡ Some b → IsIndexed (index_of input.old.reader) all b → ⊥) }
{
    let mut beside = Row::empty(alloc);
    for row in rows {
        let read = match next_row(cursor, input, &mut beside) {
            Ok(read) => read,
            Err(error) => return Err(error),
        };
        let one = Some(row.lend());
        let other = read.then_some(beside.lend());
        let difference = difference_at(alloc, one, other)?;
        if let Some(key) = difference {
            finish_input(alloc, cursor, input, !read)?;
            cursor.rises(input);
            return Ok(Some(key));
        }
    }
    further_key(alloc, cursor, input)
}

// The key of the next row of a file, and None at its end: where the rows that were given differ from all of them.
fn further_key<R: FileReader>(
    alloc: Global,
    cursor: &mut Cursor,
    input: &mut Input<R>,
) -> Result<Option<KeyBytes>, FileError>
    requires input { IsInput R.bytes input.old }
    requires whole { low_of cursor.old ≡ None }
    ensures difference { IfOk result (λ o. (given : List AnyRow) (b : List ℕ) (all : List AnyRow) → HasGiven R.bytes input.old cursor.old given → R.bytes (reader_in input.old) ≡ Some b → IsIndexed (index_of input.old.reader) all b
        → o ≡ first_difference given (map (lift_by input.old) all)) }
    ensures same { IsSameInput R.bytes input.old input.new }
    ensures cause { HasFaultCause (λ e. e ≡ file_error.Read) (R.faults (reader_in input.old)) (R.faults (reader_in input.new)) result }
    ensures never { IfErr result (λ e. (d : AnyDamage) → e ≡ file_error.Damaged d → (b : List ℕ) (all : List AnyRow) → R.bytes (reader_in input.old) ≡ Some b → IsIndexed (index_of input.old.reader) all b → ⊥) }
{
    same_rows_differ_nowhere();
    cursor.rises(input);
    let mut beside = Row::empty(alloc);
    let read = match next_row(cursor, input, &mut beside) {
        Ok(read) => read,
        Err(error) => return Err(error),
    };
    let other = read.then_some(beside.lend());
    let difference = difference_at(alloc, None, other)?;
    let Some(key) = difference else {
        return Ok(None);
    };
    finish_input(alloc, cursor, input, false)?;
    cursor.rises(input);
    Ok(Some(key))
}
