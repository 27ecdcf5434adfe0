// What was made of the drafts of a batch.
ghost use Rattle.std.specs.Prelude.{◌≡◌, ◌≤◌, ◌<◌, ◌+◌, [], length, map, vec_capacity, IfOk, IfErr, OnOk};
ghost use Rattle.std.specs.List.{AllByRecursion};
ghost use Rattle.mesa_load.specs.Collected.{HasCause, IsKept, IsUnwritten, finished, graver as graver_of};

use crate::building::WriteState;
use mesa_disk::{Bench, Made};
use mesa_open_files::{LoadError, MadeFile};
use std::collections::VecDeque;

/// The files of a batch in their order, in this list, which has room for them; or why there are none, a draft's fault before want of memory. Each draft that isn't finished is given back.
pub(crate) fn collect<M: Made, B: Bench<M>>(
    bench: &mut B,
    written: Vec<WriteState<M, B::Draft>>,
    mut files: Vec<MadeFile<M>>,
) -> Result<Vec<MadeFile<M>>, LoadError>
    requires told { AllByRecursion (HasCause B.Draft.faults) written.items }
    requires none { files.items ≡ [] }
    requires room { length written.items ≤ vec_capacity files }
    ensures all { IfOk result (λ files. written.items ≡ map finished files.items) }
    ensures later { B.faults bench.old ≤ B.faults bench.new }
    ensures quiet { OnOk result (B.faults bench.new ≡ B.faults bench.old) }
    ensures refused { IfErr result (IsUnwritten (B.faults bench.old) (B.faults bench.new)) }
{
    let mut left = VecDeque::from_vec(written);
    let mut kept = Ok(());
    'files: while let Some(file) = left.pop_front() {
        let next = keep(bench, &mut files, file);
        kept = graver(kept, next);
    }
    left.destroy_empty();
    match kept {
        Ok(()) => Ok(files),
        Err(error) => Err(error),
    }
}

// The graver of two ends.
fn graver(first: Result<(), LoadError>, next: Result<(), LoadError>) -> Result<(), LoadError>
    ensures { result ≡ graver_of first next }
{
    match first {
        Ok(()) => next,
        Err(LoadError::Memory) => match next {
            Ok(()) => Err(LoadError::Memory),
            Err(error) => Err(error),
        },
        Err(error) => Err(error),
    }
}

// Keeps a file behind those before it, or gives its draft back.
fn keep<M: Made, B: Bench<M>>(
    bench: &mut B,
    files: &mut Vec<MadeFile<M>>,
    file: WriteState<M, B::Draft>,
) -> Result<(), LoadError>
    requires told { HasCause B.Draft.faults file }
    requires room { length files.old.items < vec_capacity files.old }
    ensures later { B.faults bench.old ≤ B.faults bench.new }
    ensures kept { OnOk result (IsKept files.old.items file files.new.items) }
    ensures longer { length files.new.items ≤ length files.old.items + 1 }
    ensures room { vec_capacity files.new ≡ vec_capacity files.old }
    ensures quiet { OnOk result (B.faults bench.new ≡ B.faults bench.old) }
    ensures refused { IfErr result (IsUnwritten (B.faults bench.old) (B.faults bench.new)) }
{
    match file {
        WriteState::Finished(made) => {
            files.push_reserved(made);
            Ok(())
        }
        WriteState::Failed(error, draft) => {
            bench.spoil(draft);
            Err(LoadError::from(error))
        }
        WriteState::Begun(_, draft) => {
            bench.spoil(draft);
            Err(LoadError::Memory)
        }
        WriteState::Lent => Err(LoadError::Memory),
    }
}
