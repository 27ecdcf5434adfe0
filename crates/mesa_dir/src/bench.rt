// Where drafts are made in a folder.
ghost use Rattle.std.specs.Prelude.{◌≡◌, IfOk};

use crate::draft::Unadopted;
use crate::names::draft_path;
use crate::{DirDraft, DirMade};
use mesa_disk::{Bench, DraftError, FileId};
use mesa_io::FaultCount;
use mesa_os::System;
use std::alloc::AllocError;
use std::io::{self, ErrorKind};

/// Makes drafts in a folder, each a file of its own with the digits of its id and `.draft` for its name.
/// Where the folder isn't open, each call fails.
#[derive(Drop)]
pub struct DirBench<S: System> {
    system: S,
    folder: String,
    is_open: bool,
    faults: FaultCount,
}

impl<S: System> DirBench<S> {
    ghost use Rattle.std.specs.Prelude.{string_bytes};
    ghost use Rattle.mesa_os.specs.Calls.{IsCreated};
    ghost use Rattle.mesa_dir.specs.Drafts.{bench_faults, bench_folder};

    /// A bench in the folder of this path.
    pub(crate) fn new(system: S, folder: &str, is_open: bool) -> Result<DirBench<S>, AllocError>
        ensures faults { IfOk result (λ b. bench_faults b ≡ 0) }
        ensures folder { IfOk result (λ b. bench_folder b ≡ folder.now) }
    {
        Ok(DirBench {
            system,
            folder: String::from_str(system.memory(), folder)?,
            is_open,
            faults: FaultCount::new(),
        })
    }

    // A new file, where the folder is open.
    fn make(&self, path: &str) -> io::Result<S::Handle>
        ensures { IfOk result (λ h. IsCreated path.now (S.calls h)) }
    {
        if !self.is_open {
            return Err(ErrorKind::NotFound.into());
        }
        self.system.create(path)
    }
}

impl<S: System + Send> Bench<DirMade<S>> for DirBench<S>
where
    S::Handle: Send,
    S::Closed: Send,
{
    ghost use Rattle.std.specs.Prelude.{◌≤◌, ◌<◌, ℕ, List, [], Some};
    ghost use Rattle.mesa_io.specs.Causes.{Rose, HasFaultCause};
    ghost use Rattle.mesa_disk.specs.declared.failures.DraftError.TheVariants.{Failed};
    ghost use Rattle.mesa_os.specs.Calls.{IsCreated};
    ghost use Rattle.mesa_dir.specs.Paths.{draft_path_of};
    ghost use Rattle.mesa_dir.specs.Drafts.{bench_faults, bench_folder, draft_bytes, draft_calls, draft_faults, draft_id, path_of_draft};

    type Draft = DirDraft<S>;

    ghost faults = { λ b. b.faults };

    fn draft(&mut self, id: FileId) -> Result<DirDraft<S>, DraftError>
        ensures id { IfOk result (λ d. draft_id d ≡ id) }
        ensures empty { IfOk result (λ d. (b : List ℕ) → draft_bytes d ≡ Some b → b ≡ []) }
        ensures fresh { IfOk result (λ d. draft_faults d ≡ 0) }
        ensures cause { HasFaultCause (λ e. e ≡ Failed) (bench_faults self.old) (bench_faults self.new) result }

        // The file was made under the name of its id's draft, and not found there.
        ensures created { IfOk result (λ d. IsCreated (draft_path_of (bench_folder self.old) id) (draft_calls d)) }
        ensures path { IfOk result (λ d. path_of_draft d ≡ draft_path_of (bench_folder self.old) id) }
        ensures folder { bench_folder self.new ≡ bench_folder self.old }
    {
        let Ok(path) = draft_path(self.system.memory(), self.folder.as_str(), id) else {
            return Err(DraftError::Memory);
        };
        let Ok(file) = self.make(path.as_str()) else {
            self.faults.rise();
            return Err(DraftError::Failed);
        };
        Ok(DirDraft {
            name: Unadopted {
                system: self.system,
                path,
            },
            file,
            id,
            len: 0,
            faults: FaultCount::new(),
        })
    }

    fn spoil(&mut self, failed: DirDraft<S>) {
        if failed.faults.get() > 0 {
            self.faults.rise();
        }
    }
}
