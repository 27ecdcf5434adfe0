// The parts of a batch, with their files.
ghost use Rattle.std.specs.Prelude.{◌≡◌, ◌++◌, List, Bool, length, flat_map, IfOk};
ghost use Rattle.mesa_open_files.specs.Batches.{AreParts, HasFiles, Share as AnyShare, batch_ids, files_ids, made_ids, view_ids};
ghost use Rattle.mesa_open_files.specs.Made.{AreMadeViews, Content as AnyContent};
ghost use Rattle.mesa_load.specs.Plans.{AreMade, ArePlanned, HaveFiles, contents_of};

use crate::planning::Planned;
use mesa_disk::Made;
use mesa_open_files::{MadeFile, MadeFiles, MadeView, PreparedPart};
use std::alloc::{AllocError, Global};
use std::collections::VecDeque;

/// The parts with the files of all of them, which stand one part after the other, each table's before its views'.
/// Where there are no files, the parts have none.
pub(crate) fn filed_parts<M: Made>(
    alloc: Global,
    planned: Vec<Planned>,
    files: Vec<MadeFile<M>>,
) -> Result<Vec<PreparedPart<M>>, AllocError>
    ensures { IfOk result (λ parts. (over : Bool) (shares : List AnyShare) → ArePlanned shares planned.items
        → HaveFiles M.bytes M.id_of over (flat_map contents_of shares) files.items → AreParts M.bytes M.id_of over shares parts.items × (batch_ids M.id_of parts.items ≡ made_ids M.id_of files.items)) }
{
    let mut parts = Vec::with_capacity(alloc, planned.len())?;
    let mut left = VecDeque::from_vec(planned);
    let mut files = VecDeque::from_vec(files);
    'parts: while let Some(part) = left.pop_front() {
        parts.push(PreparedPart {
            table: part.table,
            files: take_files(alloc, &mut files, part.views)?,
            totals: part.totals,
        })?;
    }
    Ok(parts)
}

// The next table's file, and those of its views.
fn take_files<M: Made>(
    alloc: Global,
    files: &mut VecDeque<MadeFile<M>>,
    views: u8,
) -> Result<Option<MadeFiles<M>>, AllocError>
    ensures files { IfOk result (λ taken. (over : Bool) (share : AnyShare) (rest : List AnyContent) → views ≡ length share.lineage.views
        → HaveFiles M.bytes M.id_of over (contents_of share ++ rest) files.old.items
        → HasFiles M.bytes M.id_of over share taken × HaveFiles M.bytes M.id_of over rest files.new.items) }
    ensures ids { IfOk result (λ taken. files_ids M.id_of taken ++ made_ids M.id_of files.new.items ≡ made_ids M.id_of files.old.items) }
{
    let Some(file) = files.pop_front() else {
        return Ok(None);
    };
    Ok(Some(MadeFiles {
        file,
        views: take_views(alloc, files, views)?,
    }))
}

// The files of the next views, which are numbered from 0.
fn take_views<M: Made>(
    alloc: Global,
    files: &mut VecDeque<MadeFile<M>>,
    views: u8,
) -> Result<Vec<MadeView<M>>, AllocError>
    ensures views { IfOk result (λ taken. (contents rest : List AnyContent) → length contents ≡ views → AreMade M.bytes M.id_of (contents ++ rest) files.old.items
        → AreMadeViews M.bytes M.id_of 0 contents taken.items × AreMade M.bytes M.id_of rest files.new.items) }
    ensures ids { IfOk result (λ taken. view_ids M.id_of taken.items ++ made_ids M.id_of files.new.items ≡ made_ids M.id_of files.old.items) }
{
    let mut taken = Vec::with_capacity(alloc, views as usize)?;
    'views: for view in 0..views {
        let Some(file) = files.pop_front() else {
            break;
        };
        taken.push(MadeView { view, file })?;
    }
    Ok(taken)
}
