// An open folder: which calls of the system each call needs.
ghost use Rattle.std.specs.Prelude.{◌≡◌, true, false};
ghost use Rattle.mesa_dir.specs.Asked.{IsTrusted, asked};
ghost use Rattle.mesa_os.specs.Calls.{is_named};

use crate::DirMade;
use crate::area_file::AreaFile;
use crate::opening::{OpenedFiles, open_files};
use crate::streams::OpenedFolder;
use mesa_disk::Area;
use mesa_os::System;
use std::io::{self, ErrorKind};

/// An open folder. As long as it is there, no other process opens it: the file of area 0 is locked. (It is
/// opened for writing, which file systems that lock over a network ask for.)
#[derive(Drop)]
pub(crate) struct Folder<S: System> {
    system: S,
    // What is left of the folder that has its name.
    above: S::Closed,
    opened: OpenedFolder<S>,
    has_all_names: bool,
    zero: AreaFile<S>,
    one: AreaFile<S>,
    // A sync failed. The system may then forget what it couldn't write, and let the next sync succeed.
    has_lost: bool,
    ghost named: { has_all_names ≡ true → is_named (S.calls opened.folder) ≡ true },
    ghost whole: { has_lost ≡ false → IsTrusted (asked (S.closed_calls above) (S.calls opened.folder) (S.calls zero.file) (S.calls one.file)) },
}

/// A folder, and the lengths of its areas.
#[derive(Drop)]
pub(crate) struct Found<S: System> {
    pub folder: Folder<S>,
    pub zero_len: u64,
    pub one_len: u64,
}

fn lost() -> io::Error {
    ErrorKind::Other.into()
}

impl<S: System> Folder<S> {
    ghost use Rattle.std.specs.Prelude.{IfOk, OnOk, OnErr, Option, is_ok};
    ghost use Rattle.mesa_dir.specs.Asked.{AllSynced, IsAdopted, IsFound, IsGone, IsUnadopted, OnlySynced, with_asked, with_named};
    ghost use Rattle.mesa_os.specs.Calls.{Read, Removed, Synced, WroteAt, with_call};
    ghost use Rattle.std.specs.declared.io.ErrorKind.{ErrorKind};
    ghost use Rattle.mesa_dir.specs.Drafts.{path_of_made};
    ghost use Rattle.mesa_dir.specs.Folders.{folder_asked};
    ghost use Rattle.mesa_dir.specs.Opening.{IsSettled};

    /// Opens the folder of this path within the current one, and makes what is missing.
    pub(crate) fn open(system: S, path: &str) -> io::Result<Found<S>>
        ensures { IfOk result (λ f. IsFound path.now f.zero_len f.one_len (folder_asked f.folder)) }
    {
        let files = open_files(system, path)?;
        Self::settle(system, files)
    }

    // Settles both areas, and syncs the names.
    fn settle(system: S, files: OpenedFiles<S>) -> io::Result<Found<S>>
        requires { IsTrusted (asked (S.closed_calls files.above) (S.calls files.opened.folder) (S.calls files.zero) (S.calls files.one)) }
        ensures above { IfOk result (λ f. (folder_asked f.folder).above ≡ S.closed_calls files.above) }
        ensures names { IfOk result (λ f. (folder_asked f.folder).names ≡ with_call (Synced true) (S.calls files.opened.folder)) }
        ensures zero { IfOk result (λ f. IsSettled (S.calls files.zero) f.zero_len (folder_asked f.folder).zero) }
        ensures one { IfOk result (λ f. IsSettled (S.calls files.one) f.one_len (folder_asked f.folder).one) }
    {
        let OpenedFiles {
            above,
            mut opened,
            zero,
            one,
        } = files;
        let (zero, zero_len) = AreaFile::settle(system, zero)?;
        let (one, one_len) = AreaFile::settle(system, one)?;
        system.sync(&mut opened.folder)?;
        let folder = Folder {
            system,
            above,
            opened,
            has_all_names: true,
            zero,
            one,
            has_lost: false,
        };
        Ok(Found {
            folder,
            zero_len,
            one_len,
        })
    }

    /// Fills the buffer with an area's bytes.
    pub(crate) fn read(&mut self, area: Area, at: u64, buf: &mut [u8]) -> io::Result<()>
        ensures { folder_asked self.new ≡ with_asked area (Read at buf.new (is_ok result)) (folder_asked self.old) }
    {
        match area {
            Area::Zero => self.zero.read(at, buf),
            Area::One => self.one.read(at, buf),
        }
    }

    /// Writes into an area.
    pub(crate) fn write(&mut self, area: Area, at: u64, bytes: &[u8]) -> io::Result<()>
        ensures { folder_asked self.new ≡ with_asked area (WroteAt at bytes.now (is_ok result)) (folder_asked self.old) }
    {
        match area {
            Area::Zero => self.zero.write(at, bytes),
            Area::One => self.one.write(at, bytes),
        }
    }

    /// Syncs what may not be on the device: bytes of the areas, and names. Where a sync failed once, none is
    /// tried again.
    pub(crate) fn sync(&mut self) -> io::Result<()>
        ensures synced { OnOk result (AllSynced (folder_asked self.new)) }
        ensures trusted { OnOk result (IsTrusted (folder_asked self.new)) }
        ensures untried { (IsTrusted (folder_asked self.old) → ⊥) → folder_asked self.new ≡ folder_asked self.old }
        ensures only { OnlySynced (folder_asked self.old) (folder_asked self.new) }
    {
        if self.has_lost {
            return Err(lost());
        }
        self.has_lost = true;
        self.sync_changes()?;
        self.has_lost = false;
        Ok(())
    }

    // Syncs what changed, in a folder that is taken for lost until all of it was synced: the names beside the
    // area that was written, and not behind it.
    fn sync_changes(&mut self) -> io::Result<()>
        requires lost { self.old.has_lost ≡ true }
        requires trusted { IsTrusted (folder_asked self.old) }
        ensures synced { OnOk result (AllSynced (folder_asked self.new)) }
        ensures trusted { OnOk result (IsTrusted (folder_asked self.new)) }
        ensures only { OnlySynced (folder_asked self.old) (folder_asked self.new) }
    {
        if self.has_all_names {
            self.zero.sync()?;
            return self.one.sync();
        }
        let (bytes, names) = if self.zero.is_synced() {
            self.one.sync_beside(&mut self.opened.folder)
        } else {
            self.one.sync()?;
            self.zero.sync_beside(&mut self.opened.folder)
        };
        self.has_all_names = names.is_ok();
        bytes?;
        names
    }

    /// Gives a written file its name. The next sync makes that last.
    pub(crate) fn adopt(&mut self, made: DirMade<S>, path: &str) -> io::Result<()>
        ensures adopted { OnOk result (IsAdopted (path_of_made made) path.now (folder_asked self.old) (folder_asked self.new)) }
        ensures trusted { OnOk result (IsTrusted (folder_asked self.new)) }
        ensures untried { (IsTrusted (folder_asked self.old) → ⊥) → folder_asked self.new ≡ folder_asked self.old }
        ensures failed { OnErr result (IsUnadopted (path_of_made made) path.now (folder_asked self.old) (folder_asked self.new)) }
    {
        if self.has_lost {
            return Err(lost());
        }
        self.has_all_names = false;
        made.rename(&mut self.opened.folder, path)
    }

    /// Takes a name away, if it is there. The next sync makes that last.
    pub(crate) fn remove(&mut self, path: &str) -> io::Result<()>
        ensures gone { OnOk result (IsGone path.now (folder_asked self.old) (folder_asked self.new)) }
        ensures failed { OnErr result ((answer : Option ErrorKind) × (folder_asked self.new ≡ with_named (Removed path.now answer) (folder_asked self.old))) }
    {
        self.has_all_names = false;
        match self.system.remove(&mut self.opened.folder, path) {
            Err(error) if error.kind() != ErrorKind::NotFound => Err(error),
            _ => Ok(()),
        }
    }
}
