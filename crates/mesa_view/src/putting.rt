// Rows of a file put into their groups.
ghost use Rattle.std.specs.Prelude.{◌≡◌, ◌≢◌, [], ◌∷◌, ◌++◌, List, OnOk, IfErr};
ghost use Rattle.mesa_scan.specs.mesa_file.declared.damage.Damage.{Damage as AnyDamage};
ghost use Rattle.mesa_columns.specs.declared.rows.Row.{Row as AnyRow};
ghost use Rattle.mesa_columns.specs.Lent.{lent};
ghost use Rattle.mesa_columns.specs.Rows.{AreRowsOf, IsRowOf};
ghost use Rattle.mesa_delta.specs.declared.error.FileError.TheVariants as file_error;
ghost use Rattle.mesa_answer.specs.Answering.{KeepsSums};
ghost use Rattle.mesa_answer.specs.Gathered.{HasPut, key_at_hand, wanted_of};
ghost use Rattle.mesa_answer.specs.Sums.{SumLeaves, SumLeavesAmong};
ghost use Rattle.mesa_answer.specs.declared.error.GroupError.TheVariants as group_error;
ghost use Rattle.mesa_view.specs.SumDamage.{IsSumDamage};

use mesa_answer::{GroupError, Groups};
use mesa_columns::LentRow;
use mesa_delta::FileError;
use mesa_disk::{Damage, FileId};
use mesa_scan::MatchingRows;

/// One row more of a file. A sum that would leave its type is damage of the file: of sound files none does.
pub fn put_row(groups: &mut Groups, file: FileId, row: LentRow) -> Result<(), FileError>
    requires gathering { (given : List AnyRow) × HasPut groups.old given }
    requires form { IsRowOf (wanted_of groups.old).schema (lent row) }
    ensures put { OnOk result ((given : List AnyRow) → HasPut groups.old given → HasPut groups.new (given ++ lent row.entry ∷ [])) }
    ensures wanted { wanted_of groups.new ≡ wanted_of groups.old }

    // Nothing is read here, and damage is a sum, which really leaves its type with this row: that of the group whose key is at hand then,
    ensures unread { IfErr result (λ e. e ≢ file_error.Read) }
    ensures damaged { IfErr result (λ e. (d : AnyDamage) → e ≡ file_error.Damaged d → IsSumDamage file d) }
    ensures leaves { IfErr result (λ e. (d : AnyDamage) → e ≡ file_error.Damaged d → (given : List AnyRow) → HasPut groups.old given → SumLeaves (wanted_of groups.old) given (lent row.entry) (key_at_hand groups.new)) }
    // and only where the absolute values of the rows may add up to more than it holds.
    ensures never { IfErr result (λ e. (d : AnyDamage) → e ≡ file_error.Damaged d → (given : List AnyRow) → HasPut groups.old given → KeepsSums (wanted_of groups.old).schema (given ++ lent row.entry ∷ []) → ⊥) }
{
    match groups.put(row) {
        Ok(()) => Ok(()),
        Err(GroupError::Memory) => Err(FileError::Memory),
        Err(GroupError::Sum) => Err(FileError::Damaged(sum_damage(file))),
    }
}

/// The damage of a file whose rows make a sum leave its type: it can't be one of a sound store.
pub fn sum_damage(file: FileId) -> Damage
    ensures { IsSumDamage file result }
{
    Damage::misfit(file, 0)
}

// The rows of a file's block more, in their order.
pub(crate) fn put_rows(groups: &mut Groups, rows: &MatchingRows) -> Result<(), GroupError>
    requires gathering { (given : List AnyRow) × HasPut groups.old given }
    requires form { AreRowsOf (wanted_of groups.old).schema rows.now }
    ensures put { OnOk result ((given : List AnyRow) → HasPut groups.old given → HasPut groups.new (given ++ rows.now)) }
    ensures wanted { wanted_of groups.new ≡ wanted_of groups.old }
    ensures sum { IfErr result (λ e. e ≡ group_error.Sum → (given : List AnyRow) → HasPut groups.old given → SumLeavesAmong (wanted_of groups.old) given rows.now (key_at_hand groups.new)) }
    ensures never { IfErr result (λ e. e ≡ group_error.Sum → (given : List AnyRow) → HasPut groups.old given → KeepsSums (wanted_of groups.old).schema (given ++ rows.now) → ⊥) }
{
    for i in 0..rows.len() {
        groups.put(rows.row(i))?;
    }
    Ok(())
}
