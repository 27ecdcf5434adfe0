// A table's file put into the groups of one of its views.
ghost use Rattle.std.specs.Prelude.{◌≡◌, ◌++◌, [], ◌∷◌, List, map, slice_get, OnOk, IfErr, IsTrue, Some};
ghost use Rattle.std.specs.List.{AllByRecursion};
ghost use Rattle.mesa_open_files.specs.mesa_io.Causes.{HasFaultCause};
ghost use Rattle.mesa_open_files.specs.mesa_file.declared.damage.Damage.{Damage as AnyDamage};
ghost use Rattle.mesa_view.specs.mesa_key.Spelling.{is_spelling};
ghost use Rattle.mesa_open_files.specs.mesa_columns.declared.rows.Row.{Row as AnyRow};
ghost use Rattle.mesa_open_files.specs.mesa_columns.declared.views.View.{View as Chosen};
ghost use Rattle.mesa_schema.specs.Changes.{columns_of};
ghost use Rattle.mesa_open_files.specs.mesa_columns.Columns.{kinds_of};
ghost use Rattle.mesa_open_files.specs.mesa_columns.Lent.{lent};
ghost use Rattle.mesa_open_files.specs.mesa_columns.Rows.{AreRowsOf, IsRowOf};
ghost use Rattle.mesa_schema.specs.Views.{view_columns};
ghost use Rattle.mesa_filter.specs.Filter.{filtered};
ghost use Rattle.mesa_delta.specs.declared.error.FileError.TheVariants as file_error;
ghost use Rattle.mesa_delta.specs.Ahead.{AreAhead, AreOfFile, Told as AnyTold};
ghost use Rattle.mesa_delta.specs.Reading.{index_of};
ghost use Rattle.mesa_scan.specs.Cursors.{IsInput, IsSameInput, lift_by, reader_in};
ghost use Rattle.mesa_merge.specs.Inputs.{IsTold, known_of};
ghost use Rattle.mesa_scan.specs.Damaged.{IsDamaged};
ghost use Rattle.mesa_scan.specs.MatchingRows.{matching_rows};
ghost use Rattle.mesa_scan.specs.Moving.{told_in};
ghost use Rattle.mesa_scan.specs.Scanning.{IsFilterOf};
ghost use Rattle.mesa_answer.specs.Answering.{KeepsSums};
ghost use Rattle.mesa_answer.specs.Gathered.{HasPut, key_at_hand, wanted_of};
ghost use Rattle.mesa_answer.specs.Regrouping.{places_seen, row_under};
ghost use Rattle.mesa_answer.specs.Sums.{SumLeavesAmong};
ghost use Rattle.mesa_answer.specs.declared.error.GroupError.TheVariants as group_error;
ghost use Rattle.mesa_view.specs.declared.error.GatherError.TheVariants as gather;
ghost use Rattle.mesa_group_blocks.specs.Ungrouped.{under_view};

use mesa_answer::{GroupError, Groups, Hand, Regrouping};
use mesa_delta::{Ahead, Input};
use mesa_disk::FileReader;
use mesa_filter::Filter;
use mesa_scan::{MatchingRows, Scan};
use mesa_schema::LentRow;
use mesa_view::{GatherError, every_row};
use std::alloc::Global;

/// Puts the rows of a table's file that match, as rows of the view of a number, into that view's groups. The filter is the view's: which blocks have matching rows can't be told by the table's short keys, so each is read.
pub fn gather_regrouped<R: FileReader>(
    alloc: Global,
    groups: &mut Groups,
    input: &mut Input<R>,
    place: usize,
    view: u8,
    filter: &Filter,
    ahead: &mut Ahead,
) -> Result<(), GatherError>
    requires gathering { (given : List AnyRow) × HasPut groups.old given }
    requires columns { (v : Chosen) × (slice_get input.old.evolving.value.views view ≡ Some v) × (view_columns (columns_of input.old.evolving.value) v ≡ (wanted_of groups.old).schema) }
    requires input { IsInput R.bytes input.old }
    requires filter { filter.now.kinds ≡ kinds_of (wanted_of groups.old).schema }
    requires ahead { AreOfFile (R.bytes (reader_in input.old)) (index_of input.old.reader) place ahead.old }
    ensures put { OnOk result ((given : List AnyRow) → HasPut groups.old given → (more : List AnyRow) × HasPut groups.new (given ++ more)
        × ((v : Chosen) → slice_get input.old.evolving.value.views view ≡ Some v → (rows : List AnyRow) → IsTold (known_of R.bytes input.old) rows
        → more ≡ filtered (wanted_of groups.old).schema filter.now.terms (under_view (columns_of input.old.evolving.value) v (map (lift_by input.old) rows)))) }
    ensures wanted { wanted_of groups.new ≡ wanted_of groups.old }
    ensures ahead { (files : List AnyTold) → slice_get files place ≡ Some (told_in R.bytes input.old) → AreAhead files ahead.old → AreAhead files ahead.new }
    ensures input { IsInput R.bytes input.new }
    ensures same { IsSameInput R.bytes input.old input.new }
    ensures cause { HasFaultCause (λ e. e ≡ gather.File file_error.Read) (R.faults (reader_in input.old)) (R.faults (reader_in input.new)) result }
    ensures damaged { IfErr result (λ e. (d : AnyDamage) → e ≡ gather.File (file_error.Damaged d) → IsDamaged R.bytes R.size input.old d) }
    ensures sum { IfErr result (λ e. e ≡ gather.Sum → (given : List AnyRow) → HasPut groups.old given → (more : List AnyRow) × SumLeavesAmong (wanted_of groups.old) given more (key_at_hand groups.new)
        × ((v : Chosen) → slice_get input.old.evolving.value.views view ≡ Some v → (rows : List AnyRow) → IsTold (known_of R.bytes input.old) rows
        → (rest : List AnyRow) × (filtered (wanted_of groups.old).schema filter.now.terms (under_view (columns_of input.old.evolving.value) v (map (lift_by input.old) rows)) ≡ more ++ rest))) }
    ensures never { IfErr result (λ e. e ≡ gather.Sum → (v : Chosen) → slice_get input.old.evolving.value.views view ≡ Some v
        → (given : List AnyRow) → HasPut groups.old given → (rows : List AnyRow) → IsTold (known_of R.bytes input.old) rows
        → KeepsSums (wanted_of groups.old).schema (given ++ filtered (wanted_of groups.old).schema filter.now.terms (under_view (columns_of input.old.evolving.value) v (map (lift_by input.old) rows))) → ⊥) }
{
    let every = every_row(alloc, input.evolving.present())?;
    let regrouping = Regrouping::of(alloc, &input.evolving, view)?;
    gather_each_block(
        alloc,
        groups,
        input,
        place,
        &every,
        &regrouping,
        filter,
        ahead,
    )
}

// Puts the rows of each block that match, regrouped, into groups. The first filter leaves nothing out.
fn gather_each_block<R: FileReader>(
    alloc: Global,
    groups: &mut Groups,
    input: &mut Input<R>,
    place: usize,
    every: &Filter,
    regrouping: &Regrouping,
    filter: &Filter,
    ahead: &mut Ahead,
) -> Result<(), GatherError>
    requires gathering { (given : List AnyRow) × HasPut groups.old given }
    requires input { IsInput R.bytes input.old }
    requires every { IsFilterOf input.old every.now }
    requires terms { every.now.terms ≡ [] }
    requires seen { (v : Chosen) × (regrouping.now ≡ places_seen (columns_of input.old.evolving.value) v) × (view_columns (columns_of input.old.evolving.value) v ≡ (wanted_of groups.old).schema) }
    requires filter { filter.now.kinds ≡ kinds_of (wanted_of groups.old).schema }
    requires ahead { AreOfFile (R.bytes (reader_in input.old)) (index_of input.old.reader) place ahead.old }
    ensures put { OnOk result ((given : List AnyRow) → HasPut groups.old given → (more : List AnyRow) × HasPut groups.new (given ++ more)
        × ((rows : List AnyRow) → IsTold (known_of R.bytes input.old) rows → more ≡ matching_rows filter.now (map (row_under regrouping.now) (map (lift_by input.old) rows)))) }
    ensures wanted { wanted_of groups.new ≡ wanted_of groups.old }
    ensures ahead { (files : List AnyTold) → slice_get files place ≡ Some (told_in R.bytes input.old) → AreAhead files ahead.old → AreAhead files ahead.new }
    ensures input { IsInput R.bytes input.new }
    ensures same { IsSameInput R.bytes input.old input.new }
    ensures cause { HasFaultCause (λ e. e ≡ gather.File file_error.Read) (R.faults (reader_in input.old)) (R.faults (reader_in input.new)) result }
    ensures damaged { IfErr result (λ e. (d : AnyDamage) → e ≡ gather.File (file_error.Damaged d) → IsDamaged R.bytes R.size input.old d) }
    ensures sum { IfErr result (λ e. e ≡ gather.Sum → (given : List AnyRow) → HasPut groups.old given → (more : List AnyRow) × SumLeavesAmong (wanted_of groups.old) given more (key_at_hand groups.new)
        × ((rows : List AnyRow) → IsTold (known_of R.bytes input.old) rows → (rest : List AnyRow) × (matching_rows filter.now (map (row_under regrouping.now) (map (lift_by input.old) rows)) ≡ more ++ rest))) }
    ensures never { IfErr result (λ e. e ≡ gather.Sum → (given : List AnyRow) → HasPut groups.old given → (rows : List AnyRow) → IsTold (known_of R.bytes input.old) rows
        → KeepsSums (wanted_of groups.old).schema (given ++ matching_rows filter.now (map (row_under regrouping.now) (map (lift_by input.old) rows))) → ⊥) }
{
    let mut scan = Scan::of(alloc, input, every)?;
    let mut hand = Hand::new(alloc);
    'each_block: while !scan.is_over(input) {
        let block = scan.next_block(input, place, ahead)?;
        put_regrouped(groups, &block, regrouping, filter, &mut hand)?;
    }
    Ok(())
}

// Puts a table's rows that match, as rows of a view, into that view's groups.
fn put_regrouped(
    groups: &mut Groups,
    block: &MatchingRows,
    regrouping: &Regrouping,
    filter: &Filter,
    hand: &mut Hand,
) -> Result<(), GroupError>
    requires gathering { (given : List AnyRow) × HasPut groups.old given }
    requires spelled { AllByRecursion (λ (row : AnyRow). IsTrue (is_spelling regrouping.now.kinds row.key) × IsTrue (is_spelling filter.now.kinds (row_under regrouping.now row).key)) block.now }
    requires form { AreRowsOf (wanted_of groups.old).schema (map (row_under regrouping.now) block.now) }
    ensures put { OnOk result ((given : List AnyRow) → HasPut groups.old given → HasPut groups.new (given ++ matching_rows filter.now (map (row_under regrouping.now) block.now))) }
    ensures wanted { wanted_of groups.new ≡ wanted_of groups.old }
    ensures sum { IfErr result (λ e. e ≡ group_error.Sum → (given : List AnyRow) → HasPut groups.old given → SumLeavesAmong (wanted_of groups.old) given (matching_rows filter.now (map (row_under regrouping.now) block.now)) (key_at_hand groups.new)) }
    ensures never { IfErr result (λ e. e ≡ group_error.Sum → (given : List AnyRow) → HasPut groups.old given
        → KeepsSums (wanted_of groups.old).schema (given ++ matching_rows filter.now (map (row_under regrouping.now) block.now)) → ⊥) }
{
    'block: for i in 0..block.len() {
        regrouping.take(block.row(i), hand)?;
        put_matching(groups, hand.row(), filter)?;
    }
    Ok(())
}

// Puts a row into its group, where it matches.
pub(crate) fn put_matching(
    groups: &mut Groups,
    row: LentRow,
    filter: &Filter,
) -> Result<(), GroupError>
    requires gathering { (given : List AnyRow) × HasPut groups.old given }
    requires spelled { IsTrue (is_spelling filter.now.kinds row.key.now) }
    requires form { IsRowOf (wanted_of groups.old).schema (lent row) }
    ensures put { OnOk result ((given : List AnyRow) → HasPut groups.old given → HasPut groups.new (given ++ matching_rows filter.now (lent row.entry ∷ []))) }
    ensures wanted { wanted_of groups.new ≡ wanted_of groups.old }
    ensures sum { IfErr result (λ e. e ≡ group_error.Sum → (given : List AnyRow) → HasPut groups.old given → SumLeavesAmong (wanted_of groups.old) given (matching_rows filter.now (lent row.entry ∷ [])) (key_at_hand groups.new)) }
    ensures never { IfErr result (λ e. e ≡ group_error.Sum → (given : List AnyRow) → HasPut groups.old given
        → KeepsSums (wanted_of groups.old).schema (given ++ matching_rows filter.now (lent row.entry ∷ [])) → ⊥) }
{
    if !filter.matches(row.key) {
        return Ok(());
    }
    groups.put(row)
}
