// The rows of parts, given to one writer.
ghost use Rattle.std.specs.Prelude.{◌≡◌, ◌++◌, ℕ, List, [], map, IsTrue, IfErr, OnOk};
ghost use Rattle.std.specs.List.{AllByRecursion};
ghost use Rattle.mesa_file.specs.declared.damage.Damage.{Damage as AnyDamage};
ghost use Rattle.mesa_compact.specs.mesa_columns.declared.rows.Row.{Row as AnyRow};
ghost use Rattle.mesa_compact.specs.mesa_columns.Rows.{AreRowsOf, keys_rise};
ghost use Rattle.mesa_delta.specs.Writing.{columns_of, draft_of, id_of};
ghost use Rattle.mesa_answer.specs.Answering.{KeepsSums};
ghost use Rattle.mesa_merge.specs.Sums.{sum_damage};
ghost use Rattle.mesa_compact.specs.Damaged.{LeavesAmong, RowLeaves};
ghost use Rattle.mesa_answer.specs.Gathered.{wanted_of};
ghost use Rattle.mesa_compact.specs.Grouping.{TakesRows};
ghost use Rattle.mesa_compact.specs.Writing.{HasCauses, damaged_by};
ghost use Rattle.mesa_split.specs.Parts.{gained, joined};
ghost use Rattle.mesa_split.specs.Written.{HasPoured, HasWritten};

use crate::flat::FlatRows;
use mesa_answer::Groups;
use mesa_compact::{put_all, sum_fault};
use mesa_delta::{DeltaWriter, FileError};
use mesa_disk::{Draft, Made};
use mesa_file::FileId;
use mesa_open_files::CompactError;
use std::alloc::Global;

/// Gives a writer the rows of more parts, one part after the other, and puts them into the groups. A total that leaves its type is told of this file.
pub(crate) fn write_parts<M: Made, T: Draft<M>>(
    alloc: Global,
    writer: &mut DeltaWriter<M, T>,
    parts: &[Result<FlatRows, FileError>],
    groups: &mut [Groups],
    newest: FileId,
) -> Result<(), CompactError>
    requires poured { (given : List AnyRow) × HasPoured T.bytes writer.old groups.old given × IsTrue (keys_rise (given ++ joined parts.now)) }
    requires form { AreRowsOf (columns_of writer.old) (joined parts.now) }
    requires takes { AllByRecursion (TakesRows (columns_of writer.old)) groups.old }
    ensures { HasWritten T.bytes T.id_of T.faults newest (joined parts.now) writer.old groups.old writer.new groups.new result }
{
    let none = FlatRows::new(alloc);
    'parts: for part in parts {
        match write_rows(writer, rows_of_part(part, &none), groups, newest) {
            Ok(()) => {}
            Err(error) => return Err(error),
        }
    }
    Ok(())
}

// The rows of a part; none where it has failed.
fn rows_of_part<'a>(part: &'a Result<FlatRows, FileError>, none: &'a FlatRows) -> &'a FlatRows
    requires { none.now ≡ [] }
    ensures { result.now ≡ gained part.now }
{
    match part {
        Ok(rows) => rows,
        Err(_) => none,
    }
}

// Gives a writer more rows, and puts them into the groups.
fn write_rows<M: Made, T: Draft<M>>(
    writer: &mut DeltaWriter<M, T>,
    rows: &FlatRows,
    groups: &mut [Groups],
    newest: FileId,
) -> Result<(), CompactError>
    requires poured { (given : List AnyRow) × HasPoured T.bytes writer.old groups.old given × IsTrue (keys_rise (given ++ rows.now)) }
    requires form { AreRowsOf (columns_of writer.old) rows.now }
    requires takes { AllByRecursion (TakesRows (columns_of writer.old)) groups.old }
    ensures poured { OnOk result ((given : List AnyRow) → HasPoured T.bytes writer.old groups.old given → IsTrue (keys_rise (given ++ rows.now)) → HasPoured T.bytes writer.new groups.new (given ++ rows.now)) }
    ensures columns { columns_of writer.new ≡ columns_of writer.old }
    ensures id { id_of writer.new ≡ id_of writer.old }
    ensures draft { T.id_of (draft_of writer.new) ≡ T.id_of (draft_of writer.old) }
    ensures wanted { map wanted_of groups.new ≡ map wanted_of groups.old }
    ensures causes { (reads : List ℕ) → HasCauses (T.faults (draft_of writer.old)) (T.faults (draft_of writer.new)) reads reads
        (λ d. (d ≡ sum_damage newest) × ((given : List AnyRow) → HasPoured T.bytes writer.old groups.old given → IsTrue (keys_rise (given ++ rows.now)) → LeavesAmong (RowLeaves (columns_of writer.old)) (given ++ rows.now))) result }
    ensures accepts { IfErr result (λ e. (d : AnyDamage) → e ≡ damaged_by d → (given : List AnyRow) → HasPoured T.bytes writer.old groups.old given → IsTrue (keys_rise (given ++ rows.now)) → KeepsSums (columns_of writer.old) (given ++ rows.now) → ⊥) }
{
    'rows: for i in 0..rows.len() {
        let next = rows.row(i);
        if !writer.allows(next) {
            return Err(sum_fault(newest));
        }
        match put_all(groups, newest, next) {
            Ok(()) => {}
            Err(unfit) => return Err(CompactError::File(unfit)),
        }
        match writer.push(next) {
            Ok(()) => {}
            Err(error) => return Err(CompactError::from(error)),
        }
    }
    Ok(())
}
