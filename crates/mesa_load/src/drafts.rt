// The drafts of a batch: opened before any of its files is built, and given back where one fails.
ghost use Rattle.std.specs.Prelude.{◌≡◌, ◌≤◌, ℕ, length, IfOk, IfErr, OnOk};
ghost use Rattle.std.specs.List.{AllByRecursion};
ghost use Rattle.mesa_load.specs.Collected.{IsBegun, IsUnwritten};
ghost use Rattle.mesa_load.specs.FilesToWrite.{HaveIds};
ghost use Rattle.mesa_file.specs.Serials.{after_drafts, next_ids};

use crate::building::WriteState;
use mesa_disk::{Bench, DraftError, Made};
use mesa_file::Serials;
use mesa_open_files::LoadError;
use std::alloc::Global;

/// So many empty drafts. Where one can't be made, those before it are given back.
pub(crate) fn open_drafts<M: Made, B: Bench<M>>(
    alloc: Global,
    bench: &mut B,
    ids: &mut Serials,
    count: usize,
) -> Result<Vec<WriteState<M, B::Draft>>, LoadError>
    ensures count { IfOk result (λ drafts. length drafts.items ≡ count) }
    ensures begun { IfOk result (λ drafts. AllByRecursion (IsBegun B.Draft.bytes B.Draft.id_of B.Draft.faults) drafts.items) }
    ensures numbered { IfOk result (λ drafts. HaveIds M.id_of (next_ids count ids.old) drafts.items × (ids.new ≡ after_drafts count ids.old)) }
    ensures ids { (n : ℕ) × (ids.new ≡ after_drafts n ids.old) }
    ensures later { B.faults bench.old ≤ B.faults bench.new }
    ensures quiet { OnOk result (B.faults bench.new ≡ B.faults bench.old) }
    ensures refused { IfErr result (IsUnwritten (B.faults bench.old) (B.faults bench.new)) }
{
    let Ok(mut drafts) = Vec::with_capacity(alloc, count) else {
        return Err(LoadError::Memory);
    };
    'drafts: for _ in 0..count {
        let id = ids.draw();
        match bench.draft(id) {
            Ok(draft) => drafts.push_reserved(WriteState::Begun(id, draft)),
            Err(DraftError::Failed) => {
                spoil_all(bench, drafts);
                return Err(LoadError::Draft);
            }
            Err(DraftError::Memory) => {
                spoil_all(bench, drafts);
                return Err(LoadError::Memory);
            }
        }
    }
    Ok(drafts)
}

// Gives back drafts that are empty.
fn spoil_all<M: Made, B: Bench<M>>(bench: &mut B, mut files: Vec<WriteState<M, B::Draft>>)
    requires { AllByRecursion (IsBegun B.Draft.bytes B.Draft.id_of B.Draft.faults) files.items }
    ensures { B.faults bench.new ≡ B.faults bench.old }
{
    'files: while let Some(file) = files.pop() {
        spoil(bench, file);
    }
    files.destroy_empty();
}

// Gives back the empty draft of a file.
fn spoil<M: Made, B: Bench<M>>(bench: &mut B, file: WriteState<M, B::Draft>)
    requires { IsBegun B.Draft.bytes B.Draft.id_of B.Draft.faults file }
    ensures { B.faults bench.new ≡ B.faults bench.old }
{
    match file {
        WriteState::Begun(_, draft) => bench.spoil(draft),
        WriteState::Failed(_, draft) => bench.spoil(draft),
        WriteState::Finished(_) => {}
        WriteState::Lent => {}
    }
}
