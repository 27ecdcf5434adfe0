// How a folder is opened.
ghost use Rattle.std.specs.Prelude.{◌≡◌, true, List, Option, IfOk, OnOk};
ghost use Rattle.mesa_os.specs.Calls.{IsOpened, Locked, with_call};
ghost use Rattle.mesa_dir.specs.Opening.{DraftsRemoved, IsAreaLocked, IsFolderMade, IsNameSynced, NamesCleared, areas_opened};
ghost use Rattle.mesa_dir.specs.Paths.{one_path_of, zero_path_of};

use crate::names::is_draft;
use crate::streams::{OpenedFolder, open_behind_streams};
use mesa_os::System;
use std::io::{self, ErrorKind};

// Makes a folder, or finds it there.
fn make_or_find<S: System>(system: S, above: &mut S::Handle, path: &str) -> io::Result<()>
    ensures { OnOk result (IsFolderMade path.now (S.calls above.old) (S.calls above.new)) }
{
    match system.make_folder(above, path) {
        Err(error) if error.kind() != ErrorKind::AlreadyExists => Err(error),
        _ => Ok(()),
    }
}

// Makes a folder within the current one, or finds it there. Its name is synced in any case: who made it may
// have been killed before that.
fn make_folder<S: System>(system: S, path: &str) -> io::Result<S::Closed>
    ensures { IfOk result (λ above. IsNameSynced path.now (S.closed_calls above)) }
{
    let mut above = system.open(".")?;
    make_or_find(system, &mut above, path)?;
    system.sync(&mut above)?;
    Ok(system.close(above))
}

// Removes drafts that a killed run left. One that can't be removed does no harm: no other draft gets its id.
// Nor does one whose name can't be told.
#[tactic(auto, using(crate::proofs::Steps::removed_more))]
fn remove_drafts<S: System>(system: S, folder: &mut S::Handle, path: &str) -> io::Result<()>
    ensures { OnOk result (DraftsRemoved path.now (S.calls folder.old) (S.calls folder.new)) }
{
    'names: for entry in system.names(path)? {
        if let Ok(name) = entry {
            if is_draft(name.as_str()) {
                let draft = format!(in system.memory(); "{path}/{name}")?;
                let _ = system.remove(folder, draft.as_str());
            }
        }
    }
    Ok(())
}

// Opens the files of both areas, and locks that of area 0.
fn open_areas<S: System>(
    system: S,
    folder: &mut S::Handle,
    path: &str,
) -> io::Result<(S::Handle, S::Handle)>
    ensures names { OnOk result (S.calls folder.new ≡ areas_opened path.now (S.calls folder.old)) }
    ensures zero { IfOk result (λ r. IsAreaLocked (zero_path_of path.now) (S.calls r.0)) }
    ensures one { IfOk result (λ r. IsOpened (one_path_of path.now) (S.calls r.1)) }
{
    let zero_path = format!(in system.memory(); "{path}/journal0")?;
    let one_path = format!(in system.memory(); "{path}/journal1")?;
    let mut zero = system.open_within(folder, zero_path.as_str())?;
    system.lock(folder, &mut zero)?;
    let one = system.open_within(folder, one_path.as_str())?;
    Ok((zero, one))
}

/// An open folder, without the drafts that a killed run left, and the files of its areas.
#[derive(Drop)]
pub(crate) struct OpenedFiles<S: System> {
    // What is left of the current folder.
    pub above: S::Closed,
    pub opened: OpenedFolder<S>,
    pub zero: S::Handle,
    pub one: S::Handle,
}

/// Opens the folder of this path within the current one, and makes what is missing.
pub(crate) fn open_files<S: System>(system: S, path: &str) -> io::Result<OpenedFiles<S>>
    ensures above { IfOk result (λ f. IsNameSynced path.now (S.closed_calls f.above)) }
    ensures names { IfOk result (λ f. NamesCleared path.now (S.calls f.opened.folder)) }
    ensures zero { IfOk result (λ f. IsAreaLocked (zero_path_of path.now) (S.calls f.zero)) }
    ensures one { IfOk result (λ f. IsOpened (one_path_of path.now) (S.calls f.one)) }
{
    let above = make_folder(system, path)?;
    let mut opened = open_behind_streams(system, path)?;
    let (zero, one) = open_areas(system, &mut opened.folder, path)?;
    remove_drafts(system, &mut opened.folder, path)?;
    Ok(OpenedFiles {
        above,
        opened,
        zero,
        one,
    })
}
