// The files by which a view is read.
ghost use Rattle.std.specs.Prelude.{◌≡◌, ◌++◌, ◌∷◌, [], ◌<◌, List, flat_map, length, map, option_map, slice_get, IfOk, IfSome, OnOk};
ghost use Rattle.std.specs.List.{AllByRecursion};
ghost use Rattle.mesa_schema.specs.Changes.{epoch_of};
ghost use Rattle.mesa_open_files.specs.Opening.{HasEpoch};
ghost use Rattle.mesa_pick_files.specs.Files.{AreSources, Seen, own_lineage, view_file, view_wanted, want_of};
ghost use Rattle.mesa_pick_files.specs.Lent.{AreOfEpochs, lent_if_any, lent_in, now_if_any, single_delta};

use crate::Deltas;
use mesa_catalog_table::{Delta, Loaded};
use mesa_open_files::Wanted;
use mesa_record::ViewRef;
use mesa_schema::Evolving;
use std::alloc::{AllocError, Global};
use std::sync::Arc;

/// Files by which a view is read, in version order.
#[derive(Drop)]
pub struct Sources<'a> {
    pub wanted: Vec<Wanted<'a>>,
    /// For each whether it is the view's own; else it is the table's, and the view's rows are derived from it.
    pub own: Vec<bool>,
}

/// A view whose files are looked for: its table's columns through their life, its own, and its number.
#[derive(Clone, Copy)]
pub struct Viewed<'a> {
    pub table: &'a Arc<Evolving>,
    pub own: &'a Arc<Evolving>,
    pub view: u8,
}

/// The columns of a view of a table through their life: no change touches them.
pub fn own_columns(alloc: Global, table: &Evolving, view: u8) -> Result<Arc<Evolving>, AllocError>
    requires { view < length table.now.views }
    ensures { IfOk result (λ own. IfSome (slice_get table.now.views view) (λ v. own.value ≡ own_lineage table.now v)) }
{
    let columns = table.view_schema(view)?;
    let own = Arc::new(alloc, Evolving::new(alloc, columns))?;
    Ok(own)
}

/// The files by which a view is read: of each delta with rows the view's own file, or the table's where the delta has none of the view.
pub fn view_files<'a>(
    alloc: Global,
    viewed: &Viewed<'a>,
    deltas: &Deltas<'a>,
) -> Result<Sources<'a>, AllocError>
    ensures files { IfOk result (λ s. AreSources s (flat_map (view_wanted viewed.now.table.now.value viewed.now.own.now.value viewed.now.view) (lent_in deltas.now))) }
    ensures epochs { AreOfEpochs (epoch_of viewed.now.table.now.value) (lent_in deltas.now) → IfOk result (λ s. AllByRecursion HasEpoch s.wanted.items) }
{
    let mut sources = Sources {
        wanted: Vec::new(alloc),
        own: Vec::new(alloc),
    };
    push_if_any(viewed, deltas.base, &mut sources)?;
    push_if_any(viewed, deltas.cumulative, &mut sources)?;
    push_singles(viewed, deltas.singles, &mut sources)?;
    Ok(sources)
}

fn push_if_any<'a>(
    viewed: &Viewed<'a>,
    delta: Option<&'a Delta>,
    sources: &mut Sources<'a>,
) -> Result<(), AllocError>
    ensures { (seen : List Seen) → AreSources sources.old seen → OnOk result (AreSources sources.new (seen ++ flat_map (view_wanted viewed.now.table.now.value viewed.now.own.now.value viewed.now.view) (lent_if_any delta.entry))) }
{
    match delta {
        Some(delta) => push_view(viewed, delta, sources),
        None => Ok(()),
    }
}

fn push_singles<'a>(
    viewed: &Viewed<'a>,
    singles: &'a [Loaded],
    sources: &mut Sources<'a>,
) -> Result<(), AllocError>
    ensures { (seen : List Seen) → AreSources sources.old seen → OnOk result (AreSources sources.new (seen ++ flat_map (view_wanted viewed.now.table.now.value viewed.now.own.now.value viewed.now.view) (map single_delta singles.now))) }
{
    for single in singles {
        push_view(viewed, &single.delta, sources)?;
    }
    Ok(())
}

fn push_view<'a>(
    viewed: &Viewed<'a>,
    delta: &'a Delta,
    sources: &mut Sources<'a>,
) -> Result<(), AllocError>
    ensures { (seen : List Seen) → AreSources sources.old seen → OnOk result (AreSources sources.new (seen ++ view_wanted viewed.now.table.now.value viewed.now.own.now.value viewed.now.view delta.now)) }
{
    let Some(files) = &delta.files else {
        return Ok(());
    };
    let own = find_view(files.views.as_slice(), viewed.view);
    let wanted = match own {
        Some(own) => Wanted {
            file: &own.file,
            evolving: viewed.own,
            epoch: 0,
        },
        None => Wanted {
            file: &files.file,
            evolving: viewed.table,
            epoch: delta.epoch,
        },
    };
    push_source(wanted, own.is_some(), sources)
}

fn push_source<'a>(
    wanted: Wanted<'a>,
    own: bool,
    sources: &mut Sources<'a>,
) -> Result<(), AllocError>
    ensures { (seen : List Seen) → AreSources sources.old seen → OnOk result (AreSources sources.new (seen ++ record { want = want_of wanted.entry; own = own } ∷ [])) }
{
    sources.wanted.push(wanted)?;
    sources.own.push(own)?;
    Ok(())
}

// The file of a view among those of a delta.
fn find_view(views: &[ViewRef], view: u8) -> Option<&ViewRef>
    ensures { now_if_any result ≡ view_file view views.now }
{
    views.iter().find(|one| one.view == view)
}
