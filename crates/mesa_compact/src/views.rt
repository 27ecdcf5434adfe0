// The files of a table's views.
ghost use Rattle.std.specs.Prelude.{◌≡◌, ◌<◌, ℕ, List, length, map, slice_get, IfErr, IfOk, Some};
ghost use Rattle.mesa_file.specs.declared.damage.Damage.{Damage as AnyDamage};
ghost use Rattle.mesa_open_files.specs.mesa_columns.declared.rows.Row.{Row as AnyRow};
ghost use Rattle.mesa_open_files.specs.mesa_columns.declared.views.View.{View as AnyView};
ghost use Rattle.mesa_schema.specs.Changes.{columns_of};
ghost use Rattle.mesa_schema.specs.Views.{view_columns, view_rows};
ghost use Rattle.mesa_merge.specs.Sums.{sum_damage};
ghost use Rattle.mesa_open_files.specs.Made.{AreMadeViews, IsMadeFile, content_of};
ghost use Rattle.mesa_file.specs.Serials.{after_drafts, drawn, next_serials};
ghost use Rattle.mesa_open_files.specs.declared.made.MadeView.{MadeView as AnyMade};
ghost use Rattle.mesa_answer.specs.Answering.{KeepsSums};
ghost use Rattle.mesa_answer.specs.Gathered.{HasPut, wanted_of};
ghost use Rattle.mesa_view.specs.SumDamage.{view_groups};
ghost use Rattle.mesa_compact.specs.Damaged.{LeavesAmong, TotalLeaves, ViewLeaves};
ghost use Rattle.mesa_compact.specs.Grouping.{HavePut};
ghost use Rattle.mesa_compact.specs.Sources.{AreSources};
ghost use Rattle.mesa_compact.specs.Writing.{HasCauses, damaged_by};

use crate::grouped::grouped_file;
use mesa_answer::Groups;
use mesa_delta::FileError;
use mesa_disk::{Bench, Made};
use mesa_file::{FileId, Serials};
use mesa_open_files::{CompactError, MadeView};
use mesa_schema::Evolving;
use std::alloc::Global;
use std::collections::VecDeque;

/// The files of all views, by their numbers, of the groups over the table's rows.
pub fn view_files<M: Made, B: Bench<M>>(
    alloc: Global,
    bench: &mut B,
    ids: &mut Serials,
    evolving: &Evolving,
    groups: Vec<Groups>,
    newest: FileId,
) -> Result<Vec<MadeView<M>>, CompactError>
    requires sources { AreSources (columns_of evolving.now) evolving.now.views groups.items }
    requires put { (rows : List AnyRow) × (0 < length rows) × HavePut groups.items rows }
    ensures made { IfOk result (λ made. (rows : List AnyRow) → HavePut groups.entry.items rows → AreMadeViews M.bytes M.id_of 0 (map (content_of (columns_of evolving.now) rows) evolving.now.views) made.items) }
    ensures ids { (n : ℕ) × (ids.new ≡ after_drafts n ids.old) }
    ensures numbered { IfOk result (λ made. (i : ℕ) (m : AnyMade M) → slice_get made.items i ≡ Some m → M.id_of m.file.made ≡ drawn (after_drafts i ids.old)) }
    ensures causes { (reads : List ℕ) → HasCauses (B.faults bench.old) (B.faults bench.new) reads reads
        (λ d. (d ≡ sum_damage newest) × ((rows : List AnyRow) → HavePut groups.entry.items rows → ViewLeaves evolving.now rows)) result }
    ensures accepts { IfErr result (λ e. (d : AnyDamage) → e ≡ damaged_by d → (rows : List AnyRow) → HavePut groups.entry.items rows → KeepsSums (columns_of evolving.now) rows → ⊥) }
{
    let Ok(mut made) = Vec::with_capacity(alloc, groups.len()) else {
        return Err(CompactError::File(FileError::Memory));
    };
    let mut left = VecDeque::from_vec(groups);
    'views: for view in 0..evolving.views() {
        let Some(groups) = left.pop_front() else {
            unreachable!()
        };
        match view_file(alloc, bench, ids, evolving, view, groups, newest) {
            Ok(file) => made.push_reserved(file),
            Err(error) => return Err(error),
        }
    }
    Ok(made)
}

// The file of a view.
fn view_file<M: Made, B: Bench<M>>(
    alloc: Global,
    bench: &mut B,
    ids: &mut Serials,
    evolving: &Evolving,
    view: u8,
    groups: Groups,
    newest: FileId,
) -> Result<MadeView<M>, CompactError>
    requires view { (v : AnyView) × (slice_get evolving.now.views view ≡ Some v) × (wanted_of groups ≡ view_groups (columns_of evolving.now) v) }
    requires put { (rows : List AnyRow) × (0 < length rows) × HasPut groups rows }
    ensures number { IfOk result (λ made. made.view ≡ view) }
    ensures made { IfOk result (λ made. (v : AnyView) (rows : List AnyRow) → slice_get evolving.now.views view ≡ Some v → wanted_of groups.entry ≡ view_groups (columns_of evolving.now) v → HasPut groups.entry rows
        → IsMadeFile M.bytes M.id_of (content_of (columns_of evolving.now) rows v) made.file) }
    ensures ids { (n : ℕ) × (n < 2) × (ids.new ≡ after_drafts n ids.old) }
    ensures numbered { IfOk result (λ made. (M.id_of made.file.made ≡ drawn ids.old) × (ids.new ≡ next_serials ids.old)) }
    ensures causes { (reads : List ℕ) → HasCauses (B.faults bench.old) (B.faults bench.new) reads reads
        (λ d. (d ≡ sum_damage newest) × ((v : AnyView) (rows : List AnyRow) → slice_get evolving.now.views view ≡ Some v → wanted_of groups.entry ≡ view_groups (columns_of evolving.now) v → HasPut groups.entry rows
        → LeavesAmong (TotalLeaves (view_columns (columns_of evolving.now) v)) (view_rows (columns_of evolving.now) v rows))) result }
    ensures accepts { IfErr result (λ e. (d : AnyDamage) → e ≡ damaged_by d → (v : AnyView) (rows : List AnyRow) → slice_get evolving.now.views view ≡ Some v → wanted_of groups.entry ≡ view_groups (columns_of evolving.now) v → HasPut groups.entry rows
        → KeepsSums (columns_of evolving.now) rows → ⊥) }
{
    let Ok(schema) = evolving.view_schema(view) else {
        return Err(CompactError::File(FileError::Memory));
    };
    let id = ids.draw();
    match grouped_file(alloc, bench, id, &schema, groups, newest) {
        Ok(file) => Ok(MadeView { view, file }),
        Err(error) => Err(error),
    }
}
