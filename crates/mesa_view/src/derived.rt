// The rows of a view, derived from a file of its table.
ghost use Rattle.std.specs.Prelude.{◌≡◌, ◌⊎◌, ◌<◌, ℕ, List, [], length, map, slice_get, IfOk, IfErr, IfSome, IsTrue, OnOk, Some};
ghost use Rattle.mesa_scan.specs.mesa_io.Causes.{HasFaultCause};
ghost use Rattle.mesa_scan.specs.mesa_file.declared.damage.Damage.{Damage as AnyDamage};
ghost use Rattle.mesa_columns.specs.declared.rows.Row.{Row as AnyRow};
ghost use Rattle.mesa_scan.specs.mesa_schema.Changes.{columns_of};
ghost use Rattle.mesa_scan.specs.mesa_fold.Folded.{grouped};
ghost use Rattle.mesa_columns.specs.Rows.{AreRowsOf};
ghost use Rattle.mesa_scan.specs.mesa_schema.Views.{view_columns, view_rows};
ghost use Rattle.mesa_filter.specs.Filter.{filtered};
ghost use Rattle.mesa_filter.specs.Query.{are_places};
ghost use Rattle.mesa_delta.specs.declared.error.FileError.TheVariants as file_error;
ghost use Rattle.mesa_delta.specs.Reading.{IsIndexed, index_of};
ghost use Rattle.mesa_scan.specs.Cursors.{IsInput, IsSameInput, lift_by, reader_in};
ghost use Rattle.mesa_scan.specs.Damaged.{IsDamaged};
ghost use Rattle.mesa_scan.specs.Scanning.{IsFilterOf};
ghost use Rattle.mesa_answer.specs.Answering.{KeepsSums, grouped_columns};
ghost use Rattle.mesa_answer.specs.Gathered.{HasPut, wanted_of};
ghost use Rattle.mesa_view.specs.SumDamage.{IsFileSum, every_group, view_groups};

use crate::error::GatherError;
use crate::filters::every_row;
use crate::gathering::gather;
use crate::putting::sum_damage;
use mesa_answer::{Groups, Regrouping};
use mesa_columns::{RowList, Schema};
use mesa_delta::{Ahead, FileError, Input};
use mesa_disk::FileReader;
use mesa_filter::Filter;
use mesa_list::TryCopy;
use std::alloc::Global;

/// The rows of the view of a number that an input's rows come to, lifted to the present and grouped. Beside them at most a block of the file is held.
pub fn derive<R: FileReader>(
    alloc: Global,
    input: &mut Input<R>,
    view: u8,
) -> Result<RowList, FileError>
    requires input { IsInput R.bytes input.old }
    requires there { view < length input.old.evolving.value.views }

    // Where the file is told and its index is true of it, these are its rows, grouped.
    ensures derived { IfOk result (λ rows. (b : List ℕ) (all : List AnyRow) → R.bytes (reader_in input.old) ≡ Some b → IsIndexed (index_of input.old.reader) all b
        → IfSome (slice_get input.old.evolving.value.views view) (λ v. rows ≡ view_rows (columns_of input.old.evolving.value) v (map (lift_by input.old) all))) }
    ensures form { IfOk result (λ rows. IfSome (slice_get input.old.evolving.value.views view) (λ v. AreRowsOf (view_columns (columns_of input.old.evolving.value) v) rows)) }

    // The input stays one, of the same file.
    ensures input { IsInput R.bytes input.new }
    ensures same { IsSameInput R.bytes input.old input.new }

    // Read comes where the count of faults rose, and Damaged where the file isn't the recorded one, or a sum of the view's groups really leaves its type with one of the file's rows.
    ensures cause { HasFaultCause (λ e. e ≡ file_error.Read) (R.faults (reader_in input.old)) (R.faults (reader_in input.new)) result }
    ensures damaged { IfErr result (λ e. (d : AnyDamage) → e ≡ file_error.Damaged d → IsDamaged R.bytes R.size input.old d ⊎ IfSome (slice_get input.old.evolving.value.views view) (λ v. IsFileSum R.bytes (view_groups (columns_of input.old.evolving.value) v) input.old d)) }
    ensures never { IfErr result (λ e. (d : AnyDamage) → e ≡ file_error.Damaged d → (b : List ℕ) (all : List AnyRow) → R.bytes (reader_in input.old) ≡ Some b → IsIndexed (index_of input.old.reader) all b
        → KeepsSums (columns_of input.old.evolving.value) (map (lift_by input.old) all) → ⊥) }
{
    let table = input.evolving.present().copy()?;
    let seen = Regrouping::of(alloc, &input.evolving, view)?;
    group_file(alloc, input, &table, seen.columns(), seen.values())
}

// An input's rows, lifted to these columns and grouped by those at these places.
fn group_file<R: FileReader>(
    alloc: Global,
    input: &mut Input<R>,
    table: &Schema,
    columns: &[u16],
    values: &[u16],
) -> Result<RowList, FileError>
    requires input { IsInput R.bytes input.old }
    requires table { table.now ≡ columns_of input.old.evolving.value }
    requires columns_there { IsTrue (are_places table.now.keys columns.now) }
    requires values_there { IsTrue (are_places table.now.values values.now) }
    ensures rows { IfOk result (λ rows. (b : List ℕ) (all : List AnyRow) → R.bytes (reader_in input.old) ≡ Some b → IsIndexed (index_of input.old.reader) all b
        → rows ≡ grouped table.now columns.now values.now (map (lift_by input.old) all)) }
    ensures form { IfOk result (λ rows. AreRowsOf (grouped_columns table.now columns.now values.now) rows) }
    ensures input { IsInput R.bytes input.new }
    ensures same { IsSameInput R.bytes input.old input.new }
    ensures cause { HasFaultCause (λ e. e ≡ file_error.Read) (R.faults (reader_in input.old)) (R.faults (reader_in input.new)) result }
    ensures damaged { IfErr result (λ e. (d : AnyDamage) → e ≡ file_error.Damaged d → IsDamaged R.bytes R.size input.old d ⊎ IsFileSum R.bytes (every_group table.now columns.now values.now) input.old d) }
    ensures never { IfErr result (λ e. (d : AnyDamage) → e ≡ file_error.Damaged d → (b : List ℕ) (all : List AnyRow) → R.bytes (reader_in input.old) ≡ Some b → IsIndexed (index_of input.old.reader) all b
        → KeepsSums (columns_of input.old.evolving.value) (map (lift_by input.old) all) → ⊥) }
{
    let filter = every_row(alloc, table)?;
    let mut groups = Groups::all(alloc, table, columns, values)?;
    gather_alone(alloc, &mut groups, input, &filter)?;
    Ok(groups.into_rows()?)
}

// Puts an input's rows into groups that have no rows of other files: so this one is the newest that holds the key of a group whose sum leaves its type.
fn gather_alone<R: FileReader>(
    alloc: Global,
    groups: &mut Groups,
    input: &mut Input<R>,
    filter: &Filter,
) -> Result<(), FileError>
    requires none { HasPut groups.old [] }
    requires columns { (wanted_of groups.old).schema ≡ columns_of input.old.evolving.value }
    requires input { IsInput R.bytes input.old }
    requires filter { IsFilterOf input.old filter.now }
    requires every { filter.now.terms ≡ [] }
    ensures put { OnOk result ((more : List AnyRow) × HasPut groups.new more
        × ((b : List ℕ) (all : List AnyRow) → R.bytes (reader_in input.old) ≡ Some b → IsIndexed (index_of input.old.reader) all b
        → more ≡ filtered (columns_of input.old.evolving.value) filter.now.terms (map (lift_by input.old) all))) }
    ensures wanted { wanted_of groups.new ≡ wanted_of groups.old }
    ensures input { IsInput R.bytes input.new }
    ensures same { IsSameInput R.bytes input.old input.new }
    ensures cause { HasFaultCause (λ e. e ≡ file_error.Read) (R.faults (reader_in input.old)) (R.faults (reader_in input.new)) result }
    ensures damaged { IfErr result (λ e. (d : AnyDamage) → e ≡ file_error.Damaged d → IsDamaged R.bytes R.size input.old d ⊎ IsFileSum R.bytes (wanted_of groups.old) input.old d) }
    ensures never { IfErr result (λ e. (d : AnyDamage) → e ≡ file_error.Damaged d → (b : List ℕ) (all : List AnyRow) → R.bytes (reader_in input.old) ≡ Some b → IsIndexed (index_of input.old.reader) all b
        → KeepsSums (columns_of input.old.evolving.value) (filtered (columns_of input.old.evolving.value) filter.now.terms (map (lift_by input.old) all)) → ⊥) }
{
    let mut ahead = Ahead::new(alloc);
    match gather(alloc, groups, input, 0, filter, &mut ahead) {
        Ok(()) => Ok(()),
        Err(GatherError::File(error)) => Err(error),
        Err(GatherError::Sum) => {
            let file = input.reader.index().file();
            Err(FileError::Damaged(sum_damage(file)))
        }
    }
}
