// The file of a view's groups.
ghost use Rattle.std.specs.Prelude.{◌≡◌, ◌++◌, ◌<◌, ℕ, List, [], length, map, take, IsTrue, IfErr, IfOk, OnOk};
ghost use Rattle.mesa_file.specs.declared.damage.Damage.{Damage as AnyDamage};
ghost use Rattle.mesa_open_files.specs.mesa_columns.declared.rows.Row.{Row as AnyRow};
ghost use Rattle.mesa_open_files.specs.mesa_columns.declared.views.View.{View as AnyView};
ghost use Rattle.mesa_open_files.specs.mesa_columns.Columns.{Columns};
ghost use Rattle.mesa_open_files.specs.mesa_columns.Rows.{AreRowsOf, keys_rise};
ghost use Rattle.mesa_schema.specs.Views.{view_columns, view_rows};
ghost use Rattle.mesa_delta.specs.Writing.{HasTaken, columns_of, draft_of, id_of};
ghost use Rattle.mesa_answer.specs.Answering.{KeepsSums};
ghost use Rattle.mesa_answer.specs.Gathered.{HasPut, wanted_of};
ghost use Rattle.mesa_merge.specs.Sums.{sum_damage};
ghost use Rattle.mesa_open_files.specs.Made.{IsMadeFile};
ghost use Rattle.mesa_view.specs.SumDamage.{view_groups};
ghost use Rattle.mesa_compact.specs.Damaged.{LeavesAmong, TotalLeaves};
ghost use Rattle.mesa_compact.specs.Writing.{HasCauses, damaged_by};

use crate::filing::{begin_file, end_file, give_up};
use crate::pouring::sum_fault;
use mesa_answer::Groups;
use mesa_delta::{DeltaWriter, FileError};
use mesa_disk::{Bench, Draft, Made};
use mesa_file::FileId;
use mesa_open_files::{CompactError, MadeFile};
use mesa_schema::{Row, Schema, groups_rise};
use std::alloc::Global;

// The file of a view's groups, through a new draft under this id.
pub(crate) fn grouped_file<M: Made, B: Bench<M>>(
    alloc: Global,
    bench: &mut B,
    id: FileId,
    schema: &Schema,
    groups: Groups,
    newest: FileId,
) -> Result<MadeFile<M>, CompactError>
    requires put { (s : Columns) × (v : AnyView) × (rows : List AnyRow) × HasPut groups rows × (0 < length rows) × (wanted_of groups ≡ view_groups s v) × (schema.now ≡ view_columns s v) }
    ensures made { IfOk result (λ made. (s : Columns) (v : AnyView) (rows : List AnyRow) → HasPut groups.entry rows → wanted_of groups.entry ≡ view_groups s v → schema.now ≡ view_columns s v
        → IsMadeFile M.bytes M.id_of (record { columns = view_columns s v; rows = view_rows s v rows }) made) }
    ensures id { IfOk result (λ made. M.id_of made.made ≡ id) }
    ensures causes { (reads : List ℕ) → HasCauses (B.faults bench.old) (B.faults bench.new) reads reads
        (λ d. (d ≡ sum_damage newest) × ((s : Columns) (v : AnyView) (rows : List AnyRow) → HasPut groups.entry rows → wanted_of groups.entry ≡ view_groups s v → schema.now ≡ view_columns s v → LeavesAmong (TotalLeaves (view_columns s v)) (view_rows s v rows))) result }
    ensures accepts { IfErr result (λ e. (d : AnyDamage) → e ≡ damaged_by d → (s : Columns) (v : AnyView) (rows : List AnyRow) → HasPut groups.entry rows → wanted_of groups.entry ≡ view_groups s v → schema.now ≡ view_columns s v → KeepsSums s rows → ⊥) }
{
    groups_rise();
    let rows = match groups.into_rows() {
        Ok(rows) => rows,
        Err(_) => return Err(CompactError::File(FileError::Memory)),
    };
    rows_file(alloc, bench, id, schema, rows.as_slice(), newest)
}

// The file of rows.
pub(crate) fn rows_file<M: Made, B: Bench<M>>(
    alloc: Global,
    bench: &mut B,
    id: FileId,
    schema: &Schema,
    rows: &[Row],
    newest: FileId,
) -> Result<MadeFile<M>, CompactError>
    requires some { 0 < length rows.now }
    requires form { AreRowsOf schema.now rows.now }
    requires rise { IsTrue (keys_rise rows.now) }
    ensures made { IfOk result (λ made. IsMadeFile M.bytes M.id_of (record { columns = schema.now; rows = rows.now }) made) }
    ensures id { IfOk result (λ made. M.id_of made.made ≡ id) }
    ensures causes { (reads : List ℕ) → HasCauses (B.faults bench.old) (B.faults bench.new) reads reads (λ d. (d ≡ sum_damage newest) × LeavesAmong (TotalLeaves schema.now) rows.now) result }
    ensures accepts { IfErr result (λ e. (d : AnyDamage) → e ≡ damaged_by d → KeepsSums schema.now rows.now → ⊥) }
{
    let mut writer = match begin_file(alloc, bench, id, schema) {
        Ok(writer) => writer,
        Err(error) => return Err(error),
    };
    match write_rows(&mut writer, rows, newest) {
        Ok(()) => end_file(bench, writer),
        Err(error) => {
            give_up(bench, writer);
            Err(error)
        }
    }
}

// Gives a writer these rows.
fn write_rows<M: Made, T: Draft<M>>(
    writer: &mut DeltaWriter<M, T>,
    rows: &[Row],
    newest: FileId,
) -> Result<(), CompactError>
    requires none { HasTaken T.bytes writer.old [] }
    requires form { AreRowsOf (columns_of writer.old) rows.now }
    requires rise { IsTrue (keys_rise rows.now) }
    ensures taken { OnOk result (HasTaken T.bytes writer.new rows.now) }
    ensures columns { columns_of writer.new ≡ columns_of writer.old }
    ensures id { id_of writer.new ≡ id_of writer.old }
    ensures draft { T.id_of (draft_of writer.new) ≡ T.id_of (draft_of writer.old) }
    ensures causes { (reads : List ℕ) → HasCauses (T.faults (draft_of writer.old)) (T.faults (draft_of writer.new)) reads reads (λ d. (d ≡ sum_damage newest) × LeavesAmong (TotalLeaves (columns_of writer.old)) rows.now) result }
    ensures accepts { IfErr result (λ e. (d : AnyDamage) → e ≡ damaged_by d → KeepsSums (columns_of writer.old) rows.now → ⊥) }
{
    'rows: for row in rows {
        let next = row.lend();
        if !writer.allows(next) {
            return Err(sum_fault(newest));
        }
        match writer.push(next) {
            Ok(()) => {}
            Err(error) => return Err(CompactError::from(error)),
        }
    }
    Ok(())
}
