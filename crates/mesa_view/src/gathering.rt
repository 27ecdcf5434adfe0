// A file's matching rows put into groups as they are read.
ghost use Rattle.std.specs.Prelude.{◌≡◌, ◌++◌, ℕ, List, map, OnOk, IfErr, Some, slice_get};
ghost use Rattle.mesa_scan.specs.mesa_io.Causes.{HasFaultCause};
ghost use Rattle.mesa_scan.specs.mesa_file.declared.damage.Damage.{Damage as AnyDamage};
ghost use Rattle.mesa_columns.specs.declared.rows.Row.{Row as AnyRow};
ghost use Rattle.mesa_scan.specs.mesa_schema.Changes.{columns_of};
ghost use Rattle.mesa_filter.specs.Filter.{filtered};
ghost use Rattle.mesa_delta.specs.declared.error.FileError.TheVariants as file_error;
ghost use Rattle.mesa_delta.specs.Ahead.{AreAhead, AreOfFile, Told as AnyTold};
ghost use Rattle.mesa_delta.specs.Reading.{IsIndexed, index_of};
ghost use Rattle.mesa_scan.specs.Cursors.{IsInput, IsSameInput, lift_by, reader_in};
ghost use Rattle.mesa_scan.specs.Damaged.{IsDamaged};
ghost use Rattle.mesa_scan.specs.Moving.{told_in};
ghost use Rattle.mesa_scan.specs.Scanning.{IsFilterOf};
ghost use Rattle.mesa_answer.specs.Answering.{KeepsSums};
ghost use Rattle.mesa_answer.specs.Gathered.{HasPut, key_at_hand, wanted_of};
ghost use Rattle.mesa_answer.specs.Sums.{SumLeavesAmong};
ghost use Rattle.mesa_view.specs.declared.error.GatherError.TheVariants as gather;

use crate::error::GatherError;
use crate::putting::put_rows;
use mesa_answer::Groups;
use mesa_delta::{Ahead, Input};
use mesa_disk::FileReader;
use mesa_filter::Filter;
use mesa_scan::Scan;
use std::alloc::Global;

/// Puts an input's rows that match a filter, lifted to the present, into groups. The groups are of the columns to which the rows are lifted. The input is known by its place among those that are read, and blocks of it may have been read ahead.
pub fn gather<R: FileReader>(
    alloc: Global,
    groups: &mut Groups,
    input: &mut Input<R>,
    place: usize,
    filter: &Filter,
    ahead: &mut Ahead,
) -> Result<(), GatherError>
    requires gathering { (given : List AnyRow) × HasPut groups.old given }
    requires columns { (wanted_of groups.old).schema ≡ columns_of input.old.evolving.value }
    requires input { IsInput R.bytes input.old }
    requires filter { IsFilterOf input.old filter.now }
    requires ahead { AreOfFile (R.bytes (reader_in input.old)) (index_of input.old.reader) place ahead.old }

    // Some rows are put in; where the file is told and its index is true of it, its matching rows.
    ensures put { OnOk result ((given : List AnyRow) → HasPut groups.old given → (more : List AnyRow) × HasPut groups.new (given ++ more)
        × ((b : List ℕ) (all : List AnyRow) → R.bytes (reader_in input.old) ≡ Some b → IsIndexed (index_of input.old.reader) all b
        → more ≡ filtered (columns_of input.old.evolving.value) filter.now.terms (map (lift_by input.old) all))) }
    ensures wanted { wanted_of groups.new ≡ wanted_of groups.old }

    // What waits is of this input, or waited before.
    ensures ahead { (files : List AnyTold) → slice_get files place ≡ Some (told_in R.bytes input.old) → AreAhead files ahead.old → AreAhead files ahead.new }

    // The input stays one, of the same file.
    ensures input { IsInput R.bytes input.new }
    ensures same { IsSameInput R.bytes input.old input.new }
    ensures size { R.size (reader_in input.new) ≡ R.size (reader_in input.old) }

    // Read comes where the count of faults rose, and Damaged where the file isn't the recorded one.
    ensures cause { HasFaultCause (λ e. e ≡ gather.File file_error.Read) (R.faults (reader_in input.old)) (R.faults (reader_in input.new)) result }
    ensures damaged { IfErr result (λ e. (d : AnyDamage) → e ≡ gather.File (file_error.Damaged d) → IsDamaged R.bytes R.size input.old d) }

    // Sum comes where a sum really leaves its type with one of some rows, that of the group whose key is at hand then. Where the file is told and its index is true of it, these are the first of its matching rows, and together with those that were given they don't keep the bound.
    ensures sum { IfErr result (λ e. e ≡ gather.Sum → (given : List AnyRow) → HasPut groups.old given → (more : List AnyRow) × SumLeavesAmong (wanted_of groups.old) given more (key_at_hand groups.new)
        × ((b : List ℕ) (all : List AnyRow) → R.bytes (reader_in input.old) ≡ Some b → IsIndexed (index_of input.old.reader) all b
        → (rest : List AnyRow) × (filtered (columns_of input.old.evolving.value) filter.now.terms (map (lift_by input.old) all) ≡ more ++ rest))) }
    ensures never { IfErr result (λ e. e ≡ gather.Sum → (given : List AnyRow) → HasPut groups.old given
        → (b : List ℕ) (all : List AnyRow) → R.bytes (reader_in input.old) ≡ Some b → IsIndexed (index_of input.old.reader) all b
        → KeepsSums (columns_of input.old.evolving.value) (given ++ filtered (columns_of input.old.evolving.value) filter.now.terms (map (lift_by input.old) all)) → ⊥) }
{
    let mut scan = Scan::of(alloc, input, filter)?;
    'each_block: while !scan.is_over(input) {
        let rows = scan.next_block(input, place, ahead)?;
        put_rows(groups, &rows)?;
    }
    Ok(())
}
