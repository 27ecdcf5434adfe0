// A folder that is open or not.

use crate::folder::{Folder, Found};
use crate::listing::adopted_ids;
use crate::names::adopted_path;
use crate::{DirBench, DirMade, DirReader};
use mesa_disk::{Area, FileId};
use mesa_os::System;
use std::alloc::AllocError;
use std::io::{self, ErrorKind};

// The length that is told of an area that can't be opened: enough that it is read.
const UNOPENED_LEN: u64 = 2;

/// A folder, or the path of one that isn't open: there each call fails.
pub(crate) struct Store<S: System> {
    system: S,
    path: String,
    folder: Option<Folder<S>>,
}

// Each exit calls this, in place of letting go of each part itself.
impl<S: System> Drop for Store<S> {
    fn drop(self) {
        let Store {
            system: _,
            path: _,
            folder: _,
        } = self;
    }
}

/// A store, and the lengths of its areas.
#[derive(Drop)]
pub(crate) struct Opened<S: System> {
    pub store: Store<S>,
    pub zero_len: u64,
    pub one_len: u64,
}

fn unopened() -> io::Error {
    ErrorKind::Other.into()
}

impl<S: System> Store<S> {
    ghost use Rattle.std.specs.Prelude.{◌≡◌, ◌⊎◌, IfOk, OnOk, OnErr, Option, true, false};
    ghost use Rattle.mesa_dir.specs.Asked.{AllSynced, IsAdopted, IsFoundOrUnasked, IsGone, IsTrusted, IsUnadopted, OnlySynced, with_asked, with_named};
    ghost use Rattle.mesa_os.specs.Calls.{IsMeasured, Read, Removed, WroteAt};
    ghost use Rattle.std.specs.declared.io.ErrorKind.{ErrorKind};
    ghost use Rattle.mesa_dir.specs.Disks.{store_asked, store_path};
    ghost use Rattle.mesa_dir.specs.Drafts.{bench_faults, bench_folder, path_of_made};
    ghost use Rattle.mesa_dir.specs.Paths.{adopted_path_of};
    ghost use Rattle.mesa_dir.specs.Readers.{reader_calls, reader_faults, reader_len};

    pub(crate) fn open(system: S, name: &str) -> Result<Opened<S>, AllocError>
        ensures path { IfOk result (λ o. store_path o.store ≡ name.now) }
        ensures opened { IfOk result (λ o. IsFoundOrUnasked name.now o.zero_len o.one_len (store_asked o.store)) }
    {
        let path = String::from_str(system.memory(), name)?;
        match Folder::open(system, name) {
            Ok(
                Found {
                    folder,
                    zero_len,
                    one_len,
                },
            ) => Ok(Opened {
                store: Store {
                    system,
                    path,
                    folder: Some(folder),
                },
                zero_len,
                one_len,
            }),
            Err(_) => Ok(Opened {
                store: Store {
                    system,
                    path,
                    folder: None,
                },
                zero_len: UNOPENED_LEN,
                one_len: UNOPENED_LEN,
            }),
        }
    }

    pub(crate) fn bench(&self) -> Result<DirBench<S>, AllocError>
        ensures faults { IfOk result (λ b. bench_faults b ≡ 0) }
        ensures folder { IfOk result (λ b. bench_folder b ≡ store_path self.now) }
    {
        DirBench::new(self.system, self.path.as_str(), self.folder.is_some())
    }

    pub(crate) fn read(&mut self, area: Area, at: u64, buf: &mut [u8]) -> io::Result<()>
        ensures asked { OnOk result (store_asked self.new ≡ with_asked area (Read at buf.new true) (store_asked self.old)) }
        ensures path { store_path self.new ≡ store_path self.old }
    {
        match &mut self.folder {
            Some(folder) => folder.read(area, at, buf),
            None => Err(unopened()),
        }
    }

    pub(crate) fn write(&mut self, area: Area, at: u64, bytes: &[u8]) -> io::Result<()>
        ensures asked { OnOk result (store_asked self.new ≡ with_asked area (WroteAt at bytes.now true) (store_asked self.old)) }
        ensures failed { OnErr result ((store_asked self.new ≡ store_asked self.old) ⊎ (store_asked self.new ≡ with_asked area (WroteAt at bytes.now false) (store_asked self.old))) }
        ensures path { store_path self.new ≡ store_path self.old }
    {
        match &mut self.folder {
            Some(folder) => folder.write(area, at, bytes),
            None => Err(unopened()),
        }
    }

    pub(crate) fn sync(&mut self) -> io::Result<()>
        ensures synced { OnOk result (AllSynced (store_asked self.new)) }
        ensures trusted { OnOk result (IsTrusted (store_asked self.new)) }
        ensures untried { (IsTrusted (store_asked self.old) → ⊥) → store_asked self.new ≡ store_asked self.old }
        ensures only { OnlySynced (store_asked self.old) (store_asked self.new) }
        ensures path { store_path self.new ≡ store_path self.old }
    {
        match &mut self.folder {
            Some(folder) => folder.sync(),
            None => Err(unopened()),
        }
    }

    pub(crate) fn adopt(&mut self, made: DirMade<S>, id: FileId) -> io::Result<()>
        ensures adopted { OnOk result (IsAdopted (path_of_made made) (adopted_path_of (store_path self.old) id) (store_asked self.old) (store_asked self.new)) }
        ensures trusted { OnOk result (IsTrusted (store_asked self.new)) }
        ensures untried { (IsTrusted (store_asked self.old) → ⊥) → store_asked self.new ≡ store_asked self.old }
        ensures failed { OnErr result (IsUnadopted (path_of_made made) (adopted_path_of (store_path self.old) id) (store_asked self.old) (store_asked self.new)) }
        ensures path { store_path self.new ≡ store_path self.old }
    {
        let path = adopted_path(self.system.memory(), self.path.as_str(), id)?;
        match &mut self.folder {
            Some(folder) => folder.adopt(made, path.as_str()),
            None => Err(unopened()),
        }
    }

    pub(crate) fn remove(&mut self, id: FileId) -> io::Result<()>
        ensures removed { OnOk result (IsGone (adopted_path_of (store_path self.old) id) (store_asked self.old) (store_asked self.new)) }
        ensures failed { OnErr result ((store_asked self.new ≡ store_asked self.old) ⊎ ((answer : Option ErrorKind) × (store_asked self.new ≡ with_named (Removed (adopted_path_of (store_path self.old) id) answer) (store_asked self.old)))) }
        ensures path { store_path self.new ≡ store_path self.old }
    {
        let path = adopted_path(self.system.memory(), self.path.as_str(), id)?;
        match &mut self.folder {
            Some(folder) => folder.remove(path.as_str()),
            None => Err(unopened()),
        }
    }

    /// A reader of an adopted file.
    pub(crate) fn reader(&self, id: FileId) -> io::Result<DirReader<S>>
        ensures faults { IfOk result (λ r. reader_faults r ≡ 0) }
        ensures opened { IfOk result (λ r. IsMeasured (adopted_path_of (store_path self.now) id) (reader_len r) (reader_calls S.calls r)) }
    {
        if self.folder.is_none() {
            return Err(unopened());
        }
        let path = adopted_path(self.system.memory(), self.path.as_str(), id)?;
        let mut file = self.system.open(path.as_str())?;
        let len = self.system.len(&mut file)?;
        Ok(DirReader::new(self.system, file, len))
    }

    pub(crate) fn adopted(&self) -> io::Result<Vec<FileId>> {
        if self.folder.is_none() {
            return Err(unopened());
        }
        adopted_ids(self.system, self.path.as_str())
    }
}
