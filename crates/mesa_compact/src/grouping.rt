// Rows put into the groups of views as they are merged.
ghost use Rattle.std.specs.Prelude.{◌≡◌, ◌≢◌, ◌++◌, ◌∷◌, [], List, map, OnOk, IfErr};
ghost use Rattle.std.specs.List.{AllByRecursion};
ghost use Rattle.mesa_file.specs.declared.damage.Damage.{Damage as AnyDamage};
ghost use Rattle.mesa_open_files.specs.mesa_columns.declared.rows.Row.{Row as AnyRow};
ghost use Rattle.mesa_open_files.specs.mesa_columns.Columns.{Columns};
ghost use Rattle.mesa_open_files.specs.mesa_columns.Lent.{lent};
ghost use Rattle.mesa_open_files.specs.mesa_columns.Rows.{IsRowOf};
ghost use Rattle.mesa_delta.specs.declared.error.FileError.TheVariants as file_error;
ghost use Rattle.mesa_answer.specs.Answering.{KeepsSums};
ghost use Rattle.mesa_answer.specs.Gathered.{wanted_of};
ghost use Rattle.mesa_merge.specs.Sums.{sum_damage};
ghost use Rattle.mesa_compact.specs.Damaged.{GroupLeaves};
ghost use Rattle.mesa_compact.specs.Grouping.{HavePut, TakesRows};

use mesa_answer::Groups;
use mesa_delta::FileError;
use mesa_file::FileId;
use mesa_schema::LentRow;
use mesa_view::put_row;

/// Puts a row more into each gatherer. A sum of a group that leaves its type is told of this file.
pub fn put_all(groups: &mut [Groups], file: FileId, row: LentRow) -> Result<(), FileError>
    requires gathering { (given : List AnyRow) × HavePut groups.old given }
    requires form { (s : Columns) × IsRowOf s (lent row) × AllByRecursion (TakesRows s) groups.old }
    ensures put { OnOk result ((given : List AnyRow) → HavePut groups.old given → HavePut groups.new (given ++ lent row.entry ∷ [])) }
    ensures wanted { map wanted_of groups.new ≡ map wanted_of groups.old }
    ensures unread { IfErr result (λ e. e ≢ file_error.Read) }
    ensures damaged { IfErr result (λ e. (d : AnyDamage) → e ≡ file_error.Damaged d → d ≡ sum_damage file) }
    ensures leaves { IfErr result (λ e. (d : AnyDamage) → e ≡ file_error.Damaged d → (s : Columns) (given : List AnyRow) → HavePut groups.old given → AllByRecursion (TakesRows s) groups.old → GroupLeaves s given (lent row.entry)) }
    ensures never { IfErr result (λ e. (d : AnyDamage) → e ≡ file_error.Damaged d → (s : Columns) (given : List AnyRow) → HavePut groups.old given → AllByRecursion (TakesRows s) groups.old → KeepsSums s (given ++ lent row.entry ∷ []) → ⊥) }
{
    'groups: for i in 0..groups.len() {
        match put_row(&mut groups[i], file, row) {
            Ok(()) => {}
            Err(error) => return Err(error),
        }
    }
    Ok(())
}
