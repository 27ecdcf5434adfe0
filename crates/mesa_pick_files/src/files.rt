// The files of deltas that are to be opened.
ghost use Rattle.std.specs.Prelude.{◌≡◌, ◌++◌, flat_map, map, IfOk, OnOk};
ghost use Rattle.mesa_pick_files.specs.Files.{table_wanted, want_of};
ghost use Rattle.std.specs.List.{AllByRecursion};
ghost use Rattle.mesa_schema.specs.Changes.{epoch_of};
ghost use Rattle.mesa_open_files.specs.Opening.{HasEpoch};
ghost use Rattle.mesa_pick_files.specs.Lent.{AreOfEpochs, lent_if_any, lent_in, single_delta};

use crate::Deltas;
use mesa_catalog_table::{Delta, Loaded};
use mesa_open_files::Wanted;
use mesa_schema::Evolving;
use std::alloc::{AllocError, Global};
use std::sync::Arc;

/// The table's own files of deltas, in version order: one of each delta with rows.
pub fn table_files<'a>(
    alloc: Global,
    evolving: &'a Arc<Evolving>,
    deltas: &Deltas<'a>,
) -> Result<Vec<Wanted<'a>>, AllocError>
    ensures files { IfOk result (λ files. map want_of files.items ≡ flat_map (table_wanted evolving.now.value) (lent_in deltas.now)) }
    ensures epochs { AreOfEpochs (epoch_of evolving.now.value) (lent_in deltas.now) → IfOk result (λ files. AllByRecursion HasEpoch files.items) }
{
    let mut files = Vec::new(alloc);
    push_if_any(evolving, deltas.base, &mut files)?;
    push_if_any(evolving, deltas.cumulative, &mut files)?;
    push_singles(evolving, deltas.singles, &mut files)?;
    Ok(files)
}

fn push_if_any<'a>(
    evolving: &'a Arc<Evolving>,
    delta: Option<&'a Delta>,
    files: &mut Vec<Wanted<'a>>,
) -> Result<(), AllocError>
    ensures { OnOk result (map want_of files.new.items ≡ map want_of files.old.items ++ flat_map (table_wanted evolving.now.value) (lent_if_any delta.entry)) }
{
    match delta {
        Some(delta) => push_delta(evolving, delta, files),
        None => Ok(()),
    }
}

fn push_singles<'a>(
    evolving: &'a Arc<Evolving>,
    singles: &'a [Loaded],
    files: &mut Vec<Wanted<'a>>,
) -> Result<(), AllocError>
    ensures { OnOk result (map want_of files.new.items ≡ map want_of files.old.items ++ flat_map (table_wanted evolving.now.value) (map single_delta singles.now)) }
{
    for single in singles {
        push_delta(evolving, &single.delta, files)?;
    }
    Ok(())
}

fn push_delta<'a>(
    evolving: &'a Arc<Evolving>,
    delta: &'a Delta,
    files: &mut Vec<Wanted<'a>>,
) -> Result<(), AllocError>
    ensures { OnOk result (map want_of files.new.items ≡ map want_of files.old.items ++ table_wanted evolving.now.value delta.now) }
{
    if let Some(found) = &delta.files {
        files.push(Wanted {
            file: &found.file,
            evolving,
            epoch: delta.epoch,
        })?;
    }
    Ok(())
}
