// The newest file that holds a group whose sum leaves its type.
ghost use Rattle.std.specs.Prelude.{◌≡◌, ◌+◌, ◌<◌, ◌↔◌, List, drop, length, slice_get, IfOk, IfErr, IsTrue, Some};
ghost use Rattle.std.specs.List.{AllByRecursion};
ghost use Rattle.mesa_group_blocks.specs.mesa_io.Causes.{HasFaultCause};
ghost use Rattle.mesa_file.specs.declared.damage.Damage.{Damage as AnyDamage};
ghost use Rattle.mesa_group_blocks.specs.mesa_columns.declared.rows.Row.{Row as AnyRow};
ghost use Rattle.mesa_group_blocks.specs.mesa_columns.Columns.{kinds_of};
ghost use Rattle.mesa_filter.specs.Query.{are_places};
ghost use Rattle.mesa_group_blocks.specs.mesa_delta.Ahead.{AreAhead, AreOfFile, Told as AnyTold};
ghost use Rattle.mesa_group_blocks.specs.mesa_delta.Reading.{index_of};
ghost use Rattle.mesa_group_blocks.specs.mesa_delta.declared.error.FileError.TheVariants as file_error;
ghost use Rattle.mesa_group_blocks.specs.mesa_scan.Cursors.{IsSameInput, reader_in};
ghost use Rattle.mesa_group_blocks.specs.mesa_scan.Damaged.{IsDamaged};
ghost use Rattle.mesa_group_blocks.specs.mesa_scan.Moving.{told_in};
ghost use Rattle.mesa_group_blocks.specs.mesa_merge.Faults.{HaveFaultCause, faults_of};
ghost use Rattle.mesa_group_blocks.specs.mesa_merge.Inputs.{IsTold, known_of, knowns_of, tolds_of};
ghost use Rattle.mesa_group_blocks.specs.mesa_answer.Gathered.{key_at_hand, wanted_of};
ghost use Rattle.mesa_group_blocks.specs.mesa_answer.Sums.{HasGroup};
ghost use Rattle.mesa_group_blocks.specs.mesa_open_files.Pins.{IsPinnedInput};
ghost use Rattle.mesa_group_blocks.specs.Moved.{inputs_in};
ghost use Rattle.mesa_query.specs.Files.{IsDamageIn, owns_in};
ghost use Rattle.mesa_query.specs.Sums.{IsNewestFrom, rows_matching};

use crate::gathering::gather_one;
use mesa_disk::FileReader;
use mesa_file::FileId;
use mesa_filter::Filter;
use mesa_group_blocks::{Ahead, FileError, GatherError, Groups, PinnedInput};
use std::alloc::Global;

// The newest file that holds the group at hand: this one, which holds it, or one behind it. So those behind it are read to their ends.
pub(crate) fn newest_from<R: FileReader>(
    alloc: Global,
    groups: &Groups,
    view: Option<u8>,
    files: &mut [PinnedInput<R>],
    from: usize,
    filter: &Filter,
    ahead: &mut Ahead,
) -> Result<FileId, FileError>
    requires within { from < length files.old }
    requires columns { IsTrue (are_places (wanted_of groups.now).schema.keys (wanted_of groups.now).columns) }
    requires files { AllByRecursion (IsPinnedInput R.bytes (wanted_of groups.now).schema view) files.old }
    requires filter { filter.now.kinds ≡ kinds_of (wanted_of groups.now).schema }
    requires ahead { AreAhead (tolds_of (knowns_of R.bytes (inputs_in files.old))) ahead.old }
    ensures newest { IfOk result (λ id. IsNewestFrom R.bytes (wanted_of groups.now) filter.now.terms view (key_at_hand groups.now) from files.old id) }
    ensures pinned { AllByRecursion (IsPinnedInput R.bytes (wanted_of groups.now).schema view) files.new }
    ensures known { knowns_of R.bytes (inputs_in files.new) ≡ knowns_of R.bytes (inputs_in files.old) }
    ensures own { owns_in files.new ≡ owns_in files.old }
    ensures cause { HaveFaultCause (λ e. e ≡ file_error.Read) (faults_of R.faults (inputs_in files.old)) (faults_of R.faults (inputs_in files.new)) result }
    ensures damaged { IfErr result (λ e. (d : AnyDamage) → e ≡ file_error.Damaged d → IsDamageIn R.bytes R.size d (drop (from + 1) files.old) (drop (from + 1) files.new)) }
{
    let mut newest = files[from].input.reader.index().file();
    'newer: for i in from + 1..files.len() {
        let file = files[i].input.reader.index().file();
        if holds_group(alloc, groups, view, &mut files[i], i, filter, ahead)? {
            newest = file;
        }
    }
    Ok(newest)
}

// Whether a file has a matching row of the group at hand. It is read to its end.
fn holds_group<R: FileReader>(
    alloc: Global,
    groups: &Groups,
    view: Option<u8>,
    file: &mut PinnedInput<R>,
    place: usize,
    filter: &Filter,
    ahead: &mut Ahead,
) -> Result<bool, FileError>
    requires columns { IsTrue (are_places (wanted_of groups.now).schema.keys (wanted_of groups.now).columns) }
    requires file { IsPinnedInput R.bytes (wanted_of groups.now).schema view file.old }
    requires filter { filter.now.kinds ≡ kinds_of (wanted_of groups.now).schema }
    requires ahead { AreOfFile (R.bytes (reader_in file.old.input)) (index_of file.old.input.reader) place ahead.old }
    ensures holds { IfOk result (λ holds. (rows : List AnyRow) → IsTold (known_of R.bytes file.old.input) rows
        → IsTrue holds ↔ HasGroup (wanted_of groups.now).schema (wanted_of groups.now).columns (key_at_hand groups.now) (rows_matching (wanted_of groups.now).schema filter.now.terms view file.old rows)) }
    ensures ahead { (files : List AnyTold) → slice_get files place ≡ Some (told_in R.bytes file.old.input) → AreAhead files ahead.old → AreAhead files ahead.new }
    ensures pinned { IsPinnedInput R.bytes (wanted_of groups.now).schema view file.new }
    ensures same { IsSameInput R.bytes file.old.input file.new.input }
    ensures own { file.new.own ≡ file.old.own }
    ensures cause { HasFaultCause (λ e. e ≡ file_error.Read) (R.faults (reader_in file.old.input)) (R.faults (reader_in file.new.input)) result }
    ensures damaged { IfErr result (λ e. (d : AnyDamage) → e ≡ file_error.Damaged d → IsDamaged R.bytes R.size file.old.input d) }
{
    let mut first = groups.seek_group()?;
    match gather_one(alloc, &mut first, view, file, place, filter, ahead) {
        Ok(()) => Ok(first.holds(groups.key_at_hand())),
        Err(GatherError::File(error)) => Err(error),
        // Groups without values have no sum.
        Err(GatherError::Sum) => unreachable!(),
    }
}
