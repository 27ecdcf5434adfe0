// Whether the files of a range are the recorded ones.
ghost use Rattle.std.specs.Prelude.{◌≡◌, ◌<◌, ◌^◌, ℕ, List, map, is_some, true, IfOk, Option, Some};
ghost use Rattle.std.specs.List.{AllByRecursion, list_all};
ghost use Rattle.mesa_disk.specs.Image.{Image};
ghost use Rattle.mesa_disk.specs.Story.{Unmoved};
ghost use Rattle.mesa_store_spec.specs.Fitting.{view_live};
ghost use Rattle.mesa_pick_files.specs.mesa_columns.declared.rows.Row.{Row as AnyRow};
ghost use Rattle.mesa_compare.specs.mesa_open_files.Opening.{Counted, HasEpoch};
ghost use Rattle.mesa_compare.specs.mesa_examine.Examined.{is_read_failure};
ghost use Rattle.mesa_check.specs.Found.{AreFound, Found, IsFoundAs};
ghost use Rattle.mesa_check.specs.Faults.{is_view_found as is_found_view};
ghost use Rattle.mesa_check.specs.Tested.{AreSumsFound, HasRows, live_file_of};

use mesa_compare::{CheckError, DeltaDisk, Sums, Wanted, examine};
use mesa_delta::one_file;
use mesa_disk::{FileRef, Made};
use mesa_pick_files::own_columns;
use mesa_record::ViewRef;
use mesa_schema::Evolving;
use std::alloc::Global;
use std::sync::Arc;

/// What the absolute values of a file's rows add up to, where it is the recorded one.
pub(crate) fn test_file<M: Made, D: DeltaDisk<M>>(
    alloc: Global,
    disk: &mut D,
    wanted: &Wanted,
) -> Result<Option<Sums>, CheckError>
    requires { HasEpoch wanted.now }
    ensures sums { IfOk result (λ o. (i : Image) (rows : Option (List AnyRow)) → (D.story disk.old).told ≡ Some i → IsFoundAs i (live_file_of wanted.now) rows → AreSumsFound wanted.now rows o) }
    ensures some { IfOk result (λ o. (i : Image) (rows : Option (List AnyRow)) → (D.story disk.old).told ≡ Some i → IsFoundAs i (live_file_of wanted.now) rows → is_some o ≡ is_some rows) }
    ensures there { IfOk result (λ o. (i : Image) → (D.story disk.old).told ≡ Some i → is_some o ≡ true → HasRows i (live_file_of wanted.now)) }
    ensures unmoved { Unmoved (D.story disk.old) (D.story disk.new) }
    ensures counted { Counted (D.story disk.old) (D.story disk.new) (is_read_failure result) }
{
    one_file();
    // That its columns keep the rules.
    let _ = wanted.evolving.present();
    let _ = length_of(wanted.file);
    examine(alloc, disk, wanted)
}

// That a file's length is a number of 64 bits.
fn length_of(file: &FileRef) -> u64
    ensures same { result ≡ file.now.len }
    ensures fits { file.now.len < 2 ^ 64 }
{
    file.len
}

/// Whether the files of views are the recorded ones, and of views that are there.
pub(crate) fn are_views_found<M: Made, D: DeltaDisk<M>>(
    alloc: Global,
    disk: &mut D,
    evolving: &Arc<Evolving>,
    views: &[ViewRef],
) -> Result<bool, CheckError>
    ensures found { IfOk result (λ b. (i : Image) (found : Found) → (D.story disk.old).told ≡ Some i → AreFound i found (map (view_live evolving.now.value) views.now) → b ≡ list_all (is_found_view found evolving.now.value) views.now) }
    ensures there { IfOk result (λ b. (i : Image) → (D.story disk.old).told ≡ Some i → b ≡ true → AllByRecursion (HasRows i) (map (view_live evolving.now.value) views.now)) }
    ensures unmoved { Unmoved (D.story disk.old) (D.story disk.new) }
    ensures counted { Counted (D.story disk.old) (D.story disk.new) (is_read_failure result) }
{
    'views: for view in views {
        if !is_view_found(alloc, disk, evolving, view)? {
            return Ok(false);
        }
    }
    Ok(true)
}

fn is_view_found<M: Made, D: DeltaDisk<M>>(
    alloc: Global,
    disk: &mut D,
    evolving: &Arc<Evolving>,
    view: &ViewRef,
) -> Result<bool, CheckError>
    ensures found { IfOk result (λ b. (i : Image) (found : Found) → (D.story disk.old).told ≡ Some i → IsFoundAs i (view_live evolving.now.value view.now) (found view.now.file.id) → b ≡ is_found_view found evolving.now.value view.now) }
    ensures there { IfOk result (λ b. (i : Image) → (D.story disk.old).told ≡ Some i → b ≡ true → HasRows i (view_live evolving.now.value view.now)) }
    ensures unmoved { Unmoved (D.story disk.old) (D.story disk.new) }
    ensures counted { Counted (D.story disk.old) (D.story disk.new) (is_read_failure result) }
{
    if view.view >= evolving.views() {
        return Ok(false);
    }
    let own = own_columns(alloc, evolving, view.view)?;
    let wanted = Wanted {
        file: &view.file,
        evolving: &own,
        epoch: 0,
    };
    let sums = test_file(alloc, disk, &wanted)?;
    Ok(sums.is_some())
}
