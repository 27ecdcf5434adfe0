// Files that are written and not adopted yet.
ghost use Rattle.std.specs.Prelude.{◌≡◌, true};
ghost use Rattle.mesa_os.specs.Calls.{is_whole};
ghost use Rattle.mesa_dir.specs.Told.{told_bytes, told_sized, written_len};

use mesa_disk::{Draft, DraftError, FileId, Made};
use mesa_io::FaultCount;
use mesa_os::System;
use std::io;

/// The name of a file that isn't adopted. Whoever lets it go removes the file.
pub(crate) struct Unadopted<S: System> {
    pub system: S,
    pub path: String,
}

impl<S: System> Drop for Unadopted<S> {
    fn drop(self) {
        let Unadopted { system, path } = self;
        system.discard(path.as_str());
    }
}

impl<S: System> Unadopted<S> {
    ghost use Rattle.std.specs.Prelude.{is_ok, string_bytes};
    ghost use Rattle.mesa_os.specs.Calls.{Renamed, with_call};

    // Gives the file another name in its folder, or removes it.
    fn rename(self, folder: &mut S::Handle, to: &str) -> io::Result<()>
        ensures { S.calls folder.new ≡ with_call (Renamed (string_bytes self.path) to.now (is_ok result)) (S.calls folder.old) }
    {
        self.system.rename(folder, self.path.as_str(), to)?;
        let Unadopted { system: _, path: _ } = self;
        Ok(())
    }
}

/// A file in a folder that is being written. It is removed when it is let go.
#[derive(Drop)]
pub struct DirDraft<S: System> {
    pub(crate) name: Unadopted<S>,
    pub(crate) file: S::Handle,
    pub(crate) id: FileId,
    pub(crate) len: u64,
    pub(crate) faults: FaultCount,
    ghost counted: { written_len len (S.calls file) ≡ len },
    ghost whole: { faults ≡ 0 → is_whole (S.calls file) ≡ true },
}

/// A written and synced file that isn't adopted. It holds no descriptor, and is removed when it is let go.
#[derive(Drop)]
pub struct DirMade<S: System> {
    name: Unadopted<S>,
    closed: S::Closed,
    id: FileId,
    len: u64,
    ghost counted: { written_len len (S.closed_calls closed) ≡ len },
}

impl<S: System> DirMade<S> {
    ghost use Rattle.std.specs.Prelude.{is_ok};
    ghost use Rattle.mesa_os.specs.Calls.{Renamed, with_call};
    ghost use Rattle.mesa_dir.specs.Drafts.{path_of_made};

    /// Gives the file the name of an adopted one in its folder, or removes it.
    pub(crate) fn rename(self, folder: &mut S::Handle, to: &str) -> io::Result<()>
        ensures { S.calls folder.new ≡ with_call (Renamed (path_of_made self) to.now (is_ok result)) (S.calls folder.old) }
    {
        let DirMade {
            name,
            closed: _,
            id: _,
            len: _,
        } = self;
        name.rename(folder, to)
    }
}

impl<S: System + Send> Made for DirMade<S>
where
    S::Handle: Send,
    S::Closed: Send,
{
    ghost id_of = { λ m. m.id };

    ghost bytes = { λ m. told_bytes (S.closed_calls m.closed) };

    ghost size = { λ m. m.len };

    ghost sized = { λ m b is. told_sized (S.closed_calls m.closed) m.len b m.counted is };

    fn id(&self) -> FileId {
        self.id
    }

    fn len(&self) -> u64 {
        self.len
    }
}

impl<S: System> DirDraft<S> {
    ghost use Rattle.std.specs.Prelude.{IfErr, OnOk, OnErr};
    ghost use Rattle.mesa_disk.specs.declared.failures.DraftError.TheVariants.{Failed};
    ghost use Rattle.mesa_io.specs.Causes.{Rose};
    ghost use Rattle.mesa_os.specs.Calls.{Synced, with_call};
    ghost use Rattle.mesa_dir.specs.Drafts.{draft_bytes, draft_calls, draft_faults, draft_id, path_of_draft};

    // Syncs the file, where no call has failed. A sync after one that failed may succeed though bytes are
    // lost, so a draft that has failed is never synced.
    fn sync(&mut self) -> Result<(), DraftError>
        ensures synced { OnOk result (draft_calls self.new ≡ with_call (Synced true) (draft_calls self.old)) }
        ensures faults { OnOk result ((draft_faults self.old ≡ 0) × (draft_faults self.new ≡ 0)) }
        ensures path { path_of_draft self.new ≡ path_of_draft self.old }
        ensures id { draft_id self.new ≡ draft_id self.old }
        ensures bytes { draft_bytes self.new ≡ draft_bytes self.old }
        ensures failed { IfErr result (λ e. e ≡ Failed) }
        ensures rose { OnErr result (Rose (draft_faults self.old) (draft_faults self.new)) }
    {
        if self.faults.get() == 0 && self.name.system.sync(&mut self.file).is_ok() {
            return Ok(());
        }
        self.faults.rise();
        Err(DraftError::Failed)
    }
}

impl<S: System + Send> Draft<DirMade<S>> for DirDraft<S>
where
    S::Handle: Send,
    S::Closed: Send,
{
    ghost use Rattle.std.specs.Prelude.{◌≤◌, ◌++◌, IfOk, IfErr, OnOk, option_map};
    ghost use Rattle.mesa_io.specs.Causes.{Rose, HasFaultCause};
    ghost use Rattle.mesa_disk.specs.declared.failures.DraftError.TheVariants.{Failed};
    ghost use Rattle.mesa_os.specs.Calls.{Synced, Wrote, with_call};
    ghost use Rattle.mesa_dir.specs.Drafts.{draft_bytes, draft_calls, draft_faults, draft_id, path_of_draft, made_bytes, made_calls, made_id, path_of_made};

    ghost id_of = { λ d. d.id };

    ghost bytes = { λ d. told_bytes (S.calls d.file) };

    ghost faults = { λ d. d.faults };

    fn append(&mut self, piece: &[u8]) -> Result<(), DraftError>
        ensures appended { OnOk result (draft_bytes self.new ≡ option_map (λ b. b ++ piece.now) (draft_bytes self.old)) }
        ensures id { draft_id self.new ≡ draft_id self.old }
        ensures cause { HasFaultCause (λ e. e ≡ Failed) (draft_faults self.old) (draft_faults self.new) result }

        // The piece was written, by one call.
        ensures written { OnOk result (draft_calls self.new ≡ with_call (Wrote piece.now true) (draft_calls self.old)) }
        ensures path { path_of_draft self.new ≡ path_of_draft self.old }
    {
        if let Some(len) = self.len.checked_add(piece.len() as u64) {
            if self.name.system.write(&mut self.file, piece).is_ok() {
                self.len = len;
                return Ok(());
            }
        }
        self.faults.rise();
        Err(DraftError::Failed)
    }

    fn finish(mut self) -> Result<DirMade<S>, (DraftError, DirDraft<S>)>
        ensures bytes { IfOk result (λ m. made_bytes m ≡ draft_bytes self) }
        ensures id { IfOk result (λ m. made_id m ≡ draft_id self) }
        ensures given_back { IfErr result (λ e. (draft_bytes e.1 ≡ draft_bytes self) × (draft_id e.1 ≡ draft_id self)) }
        ensures cause { IfErr result (λ e. (draft_faults self ≤ draft_faults e.1) × (e.0 ≡ Failed → Rose (draft_faults self) (draft_faults e.1))) }
        ensures quiet { IfErr result (λ e. (e.0 ≡ Failed → ⊥) → draft_faults e.1 ≡ draft_faults self) }

        // The file was synced behind all that was written, and no write and no sync of it ever failed.
        ensures synced { IfOk result (λ m. made_calls m ≡ with_call (Synced true) (draft_calls self)) }
        ensures whole { IfOk result (λ m. is_whole (made_calls m) ≡ true) }
        ensures path { IfOk result (λ m. path_of_made m ≡ path_of_draft self) }
    {
        if let Err(error) = self.sync() {
            return Err((error, self));
        }
        let DirDraft {
            name,
            file,
            id,
            len,
            faults: _,
        } = self;
        let closed = name.system.close(file);
        Ok(DirMade {
            name,
            closed,
            id,
            len,
        })
    }
}
