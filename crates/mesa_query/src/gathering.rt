// Pinned files put into the groups of a query.
ghost use Rattle.std.specs.Prelude.{◌≡◌, ◌⊎◌, ◌+◌, ◌++◌, ◌<◌, [], ℕ, List, drop, length, slice_get, Err, OnOk, IfErr, IsTrue, Some};
ghost use Rattle.std.specs.List.{AllByRecursion};
ghost use Rattle.mesa_group_blocks.specs.mesa_io.Causes.{HasFaultCause};
ghost use Rattle.mesa_file.specs.declared.damage.Damage.{Damage as AnyDamage};
ghost use Rattle.mesa_group_blocks.specs.mesa_columns.declared.rows.Row.{Row as AnyRow};
ghost use Rattle.mesa_group_blocks.specs.mesa_columns.Columns.{kinds_of};
ghost use Rattle.mesa_group_blocks.specs.mesa_fold.Folded.{rows_of};
ghost use Rattle.mesa_filter.specs.Filter.{filtered};
ghost use Rattle.mesa_filter.specs.Query.{are_places};
ghost use Rattle.mesa_group_blocks.specs.mesa_delta.Ahead.{AreAhead, AreOfFile, Told as AnyTold};
ghost use Rattle.mesa_group_blocks.specs.mesa_delta.Reading.{index_of};
ghost use Rattle.mesa_group_blocks.specs.mesa_delta.declared.error.FileError.TheVariants as file_error;
ghost use Rattle.mesa_group_blocks.specs.mesa_scan.Cursors.{IsSameInput, reader_in};
ghost use Rattle.mesa_group_blocks.specs.mesa_scan.Damaged.{IsDamaged};
ghost use Rattle.mesa_group_blocks.specs.mesa_scan.Moving.{told_in};
ghost use Rattle.mesa_group_blocks.specs.mesa_merge.Faults.{HaveFaultCause, faults_of};
ghost use Rattle.mesa_group_blocks.specs.mesa_merge.Inputs.{AreTold, IsTold, known_of, knowns_of, tolds_of};
ghost use Rattle.mesa_group_blocks.specs.mesa_answer.Answering.{KeepsSums};
ghost use Rattle.mesa_group_blocks.specs.mesa_answer.Gathered.{HasPut, key_at_hand, wanted_of};
ghost use Rattle.mesa_group_blocks.specs.mesa_answer.Sums.{SumLeavesAmong};
ghost use Rattle.mesa_group_blocks.specs.mesa_open_files.Pins.{IsPinnedInput};
ghost use Rattle.mesa_group_blocks.specs.Moved.{AreMoved, IsMoved, inputs_in};
ghost use Rattle.mesa_query.specs.Files.{IsDamageIn, owns_in};
ghost use Rattle.mesa_group_blocks.specs.Ungrouped.{parts_ungrouped, rows_ungrouped};
ghost use Rattle.mesa_query.specs.Sums.{IsNewestFrom, IsSumIn, rows_matching};
ghost use Rattle.mesa_group_blocks.specs.mesa_view.SumDamage.{IsSumDamage};
ghost use Rattle.mesa_group_blocks.specs.mesa_view.declared.error.GatherError.TheVariants as gather;

use crate::newest::newest_from;
use mesa_disk::FileReader;
use mesa_filter::Filter;
use mesa_group_blocks::{
    Ahead, FileError, GatherError, Groups, PinnedInput, gather, gather_regrouped, gathered_beside,
    read_ahead, sum_damage,
};
use std::alloc::Global;
use std::thread::Threads;

// Puts the matching rows of all files into groups: by a few threads where that is worth while, and else, or where they don't come to an end, one file after the other.
pub(crate) fn gather_each<'a, T: Threads + Sync, R: FileReader>(
    rt: &T,
    alloc: Global,
    groups: &mut Groups<'a>,
    view: Option<u8>,
    files: &mut [PinnedInput<R>],
    filter: &Filter,
) -> Result<(), FileError>
    requires gathering { HasPut groups.old [] }
    requires files { AllByRecursion (IsPinnedInput R.bytes (wanted_of groups.old).schema view) files.old }
    requires filter { filter.now.kinds ≡ kinds_of (wanted_of groups.old).schema }
    ensures put { OnOk result ((given : List AnyRow) × HasPut groups.new given
        × ((contents : List (List AnyRow)) → AreTold (knowns_of R.bytes (inputs_in files.old)) contents → given ≡ filtered (wanted_of groups.old).schema filter.now.terms (rows_of (parts_ungrouped view files.old contents)))) }
    ensures wanted { wanted_of groups.new ≡ wanted_of groups.old }
    ensures pinned { AllByRecursion (IsPinnedInput R.bytes (wanted_of groups.old).schema view) files.new }
    ensures known { knowns_of R.bytes (inputs_in files.new) ≡ knowns_of R.bytes (inputs_in files.old) }
    ensures own { owns_in files.new ≡ owns_in files.old }
    ensures cause { HaveFaultCause (λ e. e ≡ file_error.Read) (faults_of R.faults (inputs_in files.old)) (faults_of R.faults (inputs_in files.new)) result }
    ensures damaged { IfErr result (λ e. (d : AnyDamage) → e ≡ file_error.Damaged d → IsDamageIn R.bytes R.size d files.old files.new ⊎ IsSumIn R.bytes (wanted_of groups.old) filter.now.terms view files.old d) }
    ensures never { IfErr result (λ e. (d : AnyDamage) → e ≡ file_error.Damaged d → (contents : List (List AnyRow)) → AreTold (knowns_of R.bytes (inputs_in files.old)) contents
        → KeepsSums (wanted_of groups.old).schema (filtered (wanted_of groups.old).schema filter.now.terms (rows_of (parts_ungrouped view files.old contents))) → ⊥) }
{
    let found = gathered_beside(rt, alloc, groups, view, files, filter)?;
    if let Some(all) = found {
        *groups = all;
        return Ok(());
    }
    gather_all(alloc, groups, view, files, filter)
}

// Puts the matching rows of all files into groups. A sum that would leave its type is told of the newest file that holds its group.
pub(crate) fn gather_all<R: FileReader>(
    alloc: Global,
    groups: &mut Groups,
    view: Option<u8>,
    files: &mut [PinnedInput<R>],
    filter: &Filter,
) -> Result<(), FileError>
    requires gathering { HasPut groups.old [] }
    requires files { AllByRecursion (IsPinnedInput R.bytes (wanted_of groups.old).schema view) files.old }
    requires filter { filter.now.kinds ≡ kinds_of (wanted_of groups.old).schema }
    ensures put { OnOk result ((given : List AnyRow) × HasPut groups.new given
        × ((contents : List (List AnyRow)) → AreTold (knowns_of R.bytes (inputs_in files.old)) contents → given ≡ filtered (wanted_of groups.old).schema filter.now.terms (rows_of (parts_ungrouped view files.old contents)))) }
    ensures wanted { wanted_of groups.new ≡ wanted_of groups.old }
    ensures pinned { AllByRecursion (IsPinnedInput R.bytes (wanted_of groups.old).schema view) files.new }
    ensures known { knowns_of R.bytes (inputs_in files.new) ≡ knowns_of R.bytes (inputs_in files.old) }
    ensures own { owns_in files.new ≡ owns_in files.old }
    ensures cause { HaveFaultCause (λ e. e ≡ file_error.Read) (faults_of R.faults (inputs_in files.old)) (faults_of R.faults (inputs_in files.new)) result }
    ensures damaged { IfErr result (λ e. (d : AnyDamage) → e ≡ file_error.Damaged d → IsDamageIn R.bytes R.size d files.old files.new ⊎ IsSumIn R.bytes (wanted_of groups.old) filter.now.terms view files.old d) }
    ensures never { IfErr result (λ e. (d : AnyDamage) → e ≡ file_error.Damaged d → (contents : List (List AnyRow)) → AreTold (knowns_of R.bytes (inputs_in files.old)) contents
        → KeepsSums (wanted_of groups.old).schema (filtered (wanted_of groups.old).schema filter.now.terms (rows_of (parts_ungrouped view files.old contents))) → ⊥) }
{
    let mut ahead = Ahead::new(alloc);
    let mut looked = 0;
    'each_file: for i in 0..files.len() {
        look_ahead(files, i, filter, &mut looked, &mut ahead)?;
        match gather_one(alloc, groups, view, &mut files[i], i, filter, &mut ahead) {
            Ok(()) => {}
            Err(GatherError::File(error)) => return Err(error),
            Err(GatherError::Sum) => {
                return Err(sum_fault(alloc, groups, view, files, i, filter, &mut ahead));
            }
        }
    }
    Ok(())
}

// Where no block waits, reads ahead the first ones of the files from a place on, and keeps the place up to which files were looked at.
fn look_ahead<R: FileReader>(
    files: &mut [PinnedInput<R>],
    from: usize,
    filter: &Filter,
    looked: &mut usize,
    ahead: &mut Ahead,
) -> Result<(), FileError>
    ensures ahead { AreAhead (tolds_of (knowns_of R.bytes (inputs_in files.old))) ahead.old → AreAhead (tolds_of (knowns_of R.bytes (inputs_in files.old))) ahead.new }
    ensures moved { AreMoved R.bytes R.size files.old files.new }
    ensures cause { HaveFaultCause (λ e. e ≡ file_error.Read) (faults_of R.faults (inputs_in files.old)) (faults_of R.faults (inputs_in files.new)) result }
    ensures fault { IfErr result (λ e. e ≡ file_error.Read) }
{
    if !ahead.is_empty() || from < *looked {
        return Ok(());
    }
    *looked = read_first(files, from, filter, ahead)?;
    ahead.digest();
    Ok(())
}

// Reads ahead the first blocks of the files from a place on that may have a matching row, until no more may be, and gives the place at which it ended.
fn read_first<R: FileReader>(
    files: &mut [PinnedInput<R>],
    from: usize,
    filter: &Filter,
    ahead: &mut Ahead,
) -> Result<usize, FileError>
    ensures ahead { AreAhead (tolds_of (knowns_of R.bytes (inputs_in files.old))) ahead.old → AreAhead (tolds_of (knowns_of R.bytes (inputs_in files.old))) ahead.new }
    ensures moved { AreMoved R.bytes R.size files.old files.new }
    ensures cause { HaveFaultCause (λ e. e ≡ file_error.Read) (faults_of R.faults (inputs_in files.old)) (faults_of R.faults (inputs_in files.new)) result }
    ensures fault { IfErr result (λ e. e ≡ file_error.Read) }
{
    'next_files: for i in from..files.len() {
        if ahead.is_full() {
            return Ok(i);
        }
        read_of_file(&mut files[i], i, filter, ahead)?;
    }
    Ok(files.len())
}

// Reads ahead the first blocks of a file. Of a table's file a view's filter leaves none out.
fn read_of_file<R: FileReader>(
    file: &mut PinnedInput<R>,
    place: usize,
    filter: &Filter,
    ahead: &mut Ahead,
) -> Result<(), FileError>
    ensures ahead { (files : List AnyTold) → slice_get files place ≡ Some (told_in R.bytes file.old.input) → AreAhead files ahead.old → AreAhead files ahead.new }
    ensures moved { IsMoved R.bytes R.size file.old file.new }
    ensures cause { HasFaultCause (λ e. e ≡ file_error.Read) (R.faults (reader_in file.old.input)) (R.faults (reader_in file.new.input)) result }
    ensures fault { IfErr result (λ e. e ≡ file_error.Read) }
{
    if file.own {
        return read_ahead(&mut file.input, place, Some(filter), ahead);
    }
    read_ahead(&mut file.input, place, None, ahead)
}

// The damage of a sum that would leave its type in this file, whose group is at hand; or what comes of reading the files behind it.
fn sum_fault<R: FileReader>(
    alloc: Global,
    groups: &Groups,
    view: Option<u8>,
    files: &mut [PinnedInput<R>],
    from: usize,
    filter: &Filter,
    ahead: &mut Ahead,
) -> FileError
    requires within { from < length files.old }
    requires columns { IsTrue (are_places (wanted_of groups.now).schema.keys (wanted_of groups.now).columns) }
    requires files { AllByRecursion (IsPinnedInput R.bytes (wanted_of groups.now).schema view) files.old }
    requires filter { filter.now.kinds ≡ kinds_of (wanted_of groups.now).schema }
    requires ahead { AreAhead (tolds_of (knowns_of R.bytes (inputs_in files.old))) ahead.old }
    ensures pinned { AllByRecursion (IsPinnedInput R.bytes (wanted_of groups.now).schema view) files.new }
    ensures known { knowns_of R.bytes (inputs_in files.new) ≡ knowns_of R.bytes (inputs_in files.old) }
    ensures own { owns_in files.new ≡ owns_in files.old }
    ensures cause { HaveFaultCause {T = Unit {0}} (λ e. e ≡ file_error.Read) (faults_of R.faults (inputs_in files.old)) (faults_of R.faults (inputs_in files.new)) (Err result) }
    ensures damaged { (d : AnyDamage) → result ≡ file_error.Damaged d → IsDamageIn R.bytes R.size d (drop (from + 1) files.old) (drop (from + 1) files.new)
        ⊎ ((id : ℕ) × IsNewestFrom R.bytes (wanted_of groups.now) filter.now.terms view (key_at_hand groups.now) from files.old id × IsSumDamage id d) }
{
    match newest_from(alloc, groups, view, files, from, filter, ahead) {
        Ok(file) => FileError::Damaged(sum_damage(file)),
        Err(error) => error,
    }
}

// Puts the matching rows of a file into groups: the relation's own, or its table's.
pub(crate) fn gather_one<R: FileReader>(
    alloc: Global,
    groups: &mut Groups,
    view: Option<u8>,
    file: &mut PinnedInput<R>,
    place: usize,
    filter: &Filter,
    ahead: &mut Ahead,
) -> Result<(), GatherError>
    requires gathering { (given : List AnyRow) × HasPut groups.old given }
    requires file { IsPinnedInput R.bytes (wanted_of groups.old).schema view file.old }
    requires filter { filter.now.kinds ≡ kinds_of (wanted_of groups.old).schema }
    requires ahead { AreOfFile (R.bytes (reader_in file.old.input)) (index_of file.old.input.reader) place ahead.old }
    ensures put { OnOk result ((given : List AnyRow) → HasPut groups.old given → (more : List AnyRow) × HasPut groups.new (given ++ more)
        × ((rows : List AnyRow) → IsTold (known_of R.bytes file.old.input) rows → more ≡ filtered (wanted_of groups.old).schema filter.now.terms (rows_ungrouped view file.old rows))) }
    ensures wanted { wanted_of groups.new ≡ wanted_of groups.old }
    ensures ahead { (files : List AnyTold) → slice_get files place ≡ Some (told_in R.bytes file.old.input) → AreAhead files ahead.old → AreAhead files ahead.new }
    ensures pinned { IsPinnedInput R.bytes (wanted_of groups.old).schema view file.new }
    ensures same { IsSameInput R.bytes file.old.input file.new.input }
    ensures own { file.new.own ≡ file.old.own }
    ensures cause { HasFaultCause (λ e. e ≡ gather.File file_error.Read) (R.faults (reader_in file.old.input)) (R.faults (reader_in file.new.input)) result }
    ensures damaged { IfErr result (λ e. (d : AnyDamage) → e ≡ gather.File (file_error.Damaged d) → IsDamaged R.bytes R.size file.old.input d) }
    ensures sum { IfErr result (λ e. e ≡ gather.Sum → (given : List AnyRow) → HasPut groups.old given → (more : List AnyRow) × SumLeavesAmong (wanted_of groups.old) given more (key_at_hand groups.new)
        × ((rows : List AnyRow) → IsTold (known_of R.bytes file.old.input) rows → (rest : List AnyRow) × (rows_matching (wanted_of groups.old).schema filter.now.terms view file.old rows ≡ more ++ rest))) }
    ensures never { IfErr result (λ e. e ≡ gather.Sum → (given : List AnyRow) → HasPut groups.old given → (rows : List AnyRow) → IsTold (known_of R.bytes file.old.input) rows
        → KeepsSums (wanted_of groups.old).schema (given ++ filtered (wanted_of groups.old).schema filter.now.terms (rows_ungrouped view file.old rows)) → ⊥) }
{
    if file.own {
        return gather(alloc, groups, &mut file.input, place, filter, ahead);
    }
    match view {
        Some(view) => gather_regrouped(alloc, groups, &mut file.input, place, view, filter, ahead),
        None => unreachable!(),
    }
}
