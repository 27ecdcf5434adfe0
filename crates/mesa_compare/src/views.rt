// A view's file of a delta compared with the delta's rows.
ghost use Rattle.std.specs.Prelude.{◌≡◌, ◌<◌, ◌∷◌, [], ℕ, List, length, map, slice_get, IfOk, IfSome, Some};
ghost use Rattle.std.specs.List.{AllByRecursion};
ghost use Rattle.mesa_disk.specs.Image.{Image};
ghost use Rattle.mesa_disk.specs.Story.{Unmoved};
ghost use Rattle.mesa_schema.specs.mesa_columns.declared.rows.Row.{Row as AnyRow};
ghost use Rattle.mesa_schema.specs.Changes.{columns_of};
ghost use Rattle.mesa_schema.specs.Views.{view_rows};
ghost use Rattle.mesa_view.specs.mesa_answer.Answering.{KeepsSums};
ghost use Rattle.mesa_examine.specs.mesa_delta.Reading.{IsIndexed, index_of};
ghost use Rattle.mesa_examine.specs.mesa_scan.Cursors.{IsInput, lift_by, reader_in};
ghost use Rattle.mesa_examine.specs.mesa_open_files.Opening.{Counted, HasEpoch};
ghost use Rattle.mesa_compare.specs.Difference.{first_difference};
ghost use Rattle.mesa_examine.specs.Examined.{is_read_failure};
ghost use Rattle.mesa_compare.specs.Compared.{HasFile, present_rows};

use crate::answers::answer;
use crate::grouped::grouped_difference;
use mesa_disk::{Disk, Made};
use mesa_examine::{CheckError, DeltaDisk, Input, Met, Wanted, open_one, retire_input};
use mesa_schema::KeyBytes;
use std::alloc::Global;

/// The first group key at which the rows of a view's own file differ from those of its table's file, at present and grouped by the view of this number. Both files are read once; beside the groups one block of each is held.
pub fn view_difference<M: Made, D: DeltaDisk<M>>(
    alloc: Global,
    disk: &mut D,
    table: &Wanted,
    view: u8,
    own: &Wanted,
) -> Result<Option<KeyBytes>, CheckError>
    requires table_epoch { HasEpoch table.now }
    requires own_epoch { HasEpoch own.now }
    requires there { view < length table.now.evolving.now.value.views }

    // Of an image that has the recorded files, with a table's rows that keep the bound, it is the first difference.
    ensures difference { IfOk result (λ o. (i : Image) (all mine : List AnyRow) → (D.story disk.old).told ≡ Some i → HasFile i table.now all → HasFile i own.now mine → KeepsSums (columns_of table.now.evolving.now.value) (present_rows table.now all)
        → IfSome (slice_get table.now.evolving.now.value.views view) (λ v. o ≡ first_difference (view_rows (columns_of table.now.evolving.now.value) v (present_rows table.now all)) (present_rows own.now mine))) }

    // No image moves, and Read comes where a count of the disk rose.
    ensures unmoved { Unmoved (D.story disk.old) (D.story disk.new) }
    ensures counted { Counted (D.story disk.old) (D.story disk.new) (is_read_failure result) }
{
    let input = match open_one(alloc, disk, table) {
        Met::Input(input) => input,
        Met::Damaged(_) => return Ok(None),
        Met::Fault => return Err(CheckError::Read),
        Met::Memory => return Err(CheckError::Memory),
    };
    match open_one(alloc, disk, own) {
        Met::Input(beside) => inputs_difference(alloc, disk, input, view, beside),
        Met::Damaged(_) => {
            retire_input(disk, input);
            Ok(None)
        }
        Met::Fault => {
            retire_input(disk, input);
            Err(CheckError::Read)
        }
        Met::Memory => {
            retire_input(disk, input);
            Err(CheckError::Memory)
        }
    }
}

// The first difference of two inputs, of a table and of the view of a number. Their readers are given back.
fn inputs_difference<M: Made, D: Disk<M>>(
    alloc: Global,
    disk: &mut D,
    mut table: Input<D::Reader>,
    view: u8,
    mut own: Input<D::Reader>,
) -> Result<Option<KeyBytes>, CheckError>
    requires table { IsInput D.Reader.bytes table }
    requires there { view < length table.evolving.value.views }
    requires own { IsInput D.Reader.bytes own }
    requires fresh { AllByRecursion (λ i. D.Reader.faults (reader_in i) ≡ 0) (table ∷ own ∷ []) }
    ensures difference { IfOk result (λ o. (b c : List ℕ) (all mine : List AnyRow) → D.Reader.bytes (reader_in table) ≡ Some b → IsIndexed (index_of table.reader) all b → D.Reader.bytes (reader_in own) ≡ Some c → IsIndexed (index_of own.reader) mine c
        → KeepsSums (columns_of table.evolving.value) (map (lift_by table) all) → IfSome (slice_get table.evolving.value.views view) (λ v. o ≡ first_difference (view_rows (columns_of table.evolving.value) v (map (lift_by table) all)) (map (lift_by own) mine))) }
    ensures unmoved { Unmoved (D.story disk.old) (D.story disk.new) }
    ensures counted { Counted (D.story disk.old) (D.story disk.new) (is_read_failure result) }
{
    let compared = grouped_difference(alloc, &mut table, view, &mut own);
    retire_input(disk, own);
    retire_input(disk, table);
    answer(compared)
}
