// Inputs that are read row by row, each at its cursor.
ghost use Rattle.std.specs.Prelude.{◌≡◌, ◌≢◌, ◌<◌, ◌+◌, ◌++◌, ◌∷◌, [], ℕ, List, length, Option, OnOk, IfErr, get_or, slice_set, min, sum_by, ◌^◌, ◌-◌};
ghost use Rattle.std.specs.List.{AllByRecursion};
ghost use Rattle.mesa_scan.specs.mesa_file.declared.damage.Damage.{Damage as AnyDamage};
ghost use Rattle.mesa_scan.specs.mesa_columns.declared.rows.Row.{Row as AnyRow};
ghost use Rattle.mesa_scan.specs.mesa_columns.Columns.{Columns};
ghost use Rattle.mesa_scan.specs.mesa_columns.Rows.{IsRowOf};
ghost use Rattle.mesa_delta.specs.declared.error.FileError.TheVariants as file_error;
ghost use Rattle.mesa_delta.specs.Ahead.{AreAhead};
ghost use Rattle.mesa_scan.specs.Cursors.{IsInput};
ghost use Rattle.mesa_merge.specs.Damaged.{IsBlockOf};
ghost use Rattle.mesa_merge.specs.Faults.{HaveFaultCause, faults_of};
ghost use Rattle.mesa_merge.specs.Hands.{IsAhead, hands_of};
ghost use Rattle.mesa_merge.specs.Inputs.{AreAlike, AreTold, knowns_of, tolds_of};
ghost use Rattle.mesa_merge.specs.Matches.{IsTree};
ghost use Rattle.mesa_merge.specs.Merging.{AreReady, HasGivens};

use crate::matches::{Tree, play};
use mesa_delta::{Ahead, FileError, Input};
use mesa_disk::FileReader;
use mesa_scan::Cursor;

// Gives the row at hand of an input, if there is one, and reads its next block where then none is.
pub(crate) fn advance<R: FileReader>(
    inputs: &mut [Input<R>],
    cursors: &mut [Cursor],
    tree: &mut Tree,
    i: usize,
) -> Result<(), FileError>
    requires within { i < length inputs.old }
    requires count { length cursors.old ≡ length inputs.old }
    requires tree { IsTree (hands_of cursors.old) tree.old }
    ensures tree { IsTree (hands_of cursors.new) tree.new }
    ensures others { (j : ℕ) → j ≢ i → get_or (hands_of cursors.new) j [] ≡ get_or (hands_of cursors.old) j [] }

    // A row was at hand: it is given, and the row at hand then is above it.
    ensures given { OnOk result ((row : AnyRow) (rows : List AnyRow) → get_or (hands_of cursors.old) i [] ≡ row ∷ rows → (low : Option (List ℕ)) (givens : List (List AnyRow)) → HasGivens R.bytes low inputs.old cursors.old givens
        → HasGivens R.bytes low inputs.new cursors.new (slice_set givens i (get_or givens i [] ++ row ∷ []))) }
    ensures form { OnOk result ((row : AnyRow) (rows : List AnyRow) → get_or (hands_of cursors.old) i [] ≡ row ∷ rows → (low : Option (List ℕ)) (s : Columns) (givens : List (List AnyRow)) → AreAlike s (knowns_of R.bytes inputs.old) → HasGivens R.bytes low inputs.old cursors.old givens → IsRowOf s row) }
    ensures above { OnOk result ((row : AnyRow) (rows : List AnyRow) → get_or (hands_of cursors.old) i [] ≡ row ∷ rows → (low : Option (List ℕ)) (givens : List (List AnyRow)) → HasGivens R.bytes low inputs.old cursors.old givens → IsAhead row.key (get_or (hands_of cursors.new) i [])) }

    // Then one is, or the input is at its end.
    ensures ready { OnOk result ((n : ℕ) → AreReady n inputs.old cursors.old → AreReady n inputs.new cursors.new) }

    // The inputs stay the same, whatever is answered.
    ensures known { knowns_of R.bytes inputs.new ≡ knowns_of R.bytes inputs.old }
    ensures inputs { AllByRecursion (IsInput R.bytes) inputs.old → AllByRecursion (IsInput R.bytes) inputs.new }
    ensures cause { HaveFaultCause (λ e. e ≡ file_error.Read) (faults_of R.faults inputs.old) (faults_of R.faults inputs.new) result }
    ensures damaged { IfErr result (λ e. (d : AnyDamage) → e ≡ file_error.Damaged d → (low : Option (List ℕ)) (givens : List (List AnyRow)) → HasGivens R.bytes low inputs.old cursors.old givens → IsBlockOf R.bytes R.size (knowns_of R.bytes inputs.old) d) }
    ensures accepts { IfErr result (λ e. (d : AnyDamage) → e ≡ file_error.Damaged d → (low : Option (List ℕ)) (givens : List (List AnyRow)) → HasGivens R.bytes low inputs.old cursors.old givens → (contents : List (List AnyRow)) → AreTold (knowns_of R.bytes inputs.old) contents → ⊥) }
{
    let cursor = &mut cursors[i];
    let input = &mut inputs[i];
    cursor.rises(input);
    cursor.step();
    let filled = cursor.fill(input);
    cursor.rises(input);
    play(tree, cursors, i);
    match filled {
        Ok(()) => Ok(()),
        Err(error) => Err(error),
    }
}

// Reads the first block of an input, from what was read ahead if it waits there.
pub(crate) fn start<R: FileReader>(
    inputs: &mut [Input<R>],
    cursors: &mut [Cursor],
    tree: &mut Tree,
    i: usize,
    ahead: &mut Ahead,
) -> Result<(), FileError>
    requires within { i < length inputs.old }
    requires count { length cursors.old ≡ length inputs.old }
    requires tree { IsTree (hands_of cursors.old) tree.old }
    requires ahead { AreAhead (tolds_of (knowns_of R.bytes inputs.old)) ahead.old }
    ensures ahead { AreAhead (tolds_of (knowns_of R.bytes inputs.old)) ahead.new }
    ensures tree { IsTree (hands_of cursors.new) tree.new }
    ensures others { (j : ℕ) → j ≢ i → get_or (hands_of cursors.new) j [] ≡ get_or (hands_of cursors.old) j [] }
    ensures given { OnOk result ((low : Option (List ℕ)) (givens : List (List AnyRow)) → HasGivens R.bytes low inputs.old cursors.old givens → HasGivens R.bytes low inputs.new cursors.new givens) }
    ensures more { OnOk result (AreReady i inputs.old cursors.old → AreReady (i + 1) inputs.new cursors.new) }

    // The inputs stay the same, whatever is answered.
    ensures known { knowns_of R.bytes inputs.new ≡ knowns_of R.bytes inputs.old }
    ensures inputs { AllByRecursion (IsInput R.bytes) inputs.old → AllByRecursion (IsInput R.bytes) inputs.new }
    ensures cause { HaveFaultCause (λ e. e ≡ file_error.Read) (faults_of R.faults inputs.old) (faults_of R.faults inputs.new) result }
    ensures damaged { IfErr result (λ e. (d : AnyDamage) → e ≡ file_error.Damaged d → (low : Option (List ℕ)) (givens : List (List AnyRow)) → HasGivens R.bytes low inputs.old cursors.old givens → IsBlockOf R.bytes R.size (knowns_of R.bytes inputs.old) d) }
    ensures accepts { IfErr result (λ e. (d : AnyDamage) → e ≡ file_error.Damaged d → (low : Option (List ℕ)) (givens : List (List AnyRow)) → HasGivens R.bytes low inputs.old cursors.old givens → (contents : List (List AnyRow)) → AreTold (knowns_of R.bytes inputs.old) contents → ⊥) }
{
    let cursor = &mut cursors[i];
    let input = &mut inputs[i];
    let filled = cursor.fill_waiting(input, i, ahead);
    play(tree, cursors, i);
    match filled {
        Ok(()) => Ok(()),
        Err(error) => Err(error),
    }
}

// How many rows the inputs have at hand.
pub(crate) fn held_by(cursors: &[Cursor]) -> u64
    ensures { result ≡ min (sum_by length (hands_of cursors.now)) (2 ^ 64 - 1) }
{
    let mut held: u64 = 0;
    'cursors: for cursor in cursors {
        held = held.saturating_add(cursor.held() as u64);
    }
    held
}
