// Giving readers back, which takes no memory and can't fail.
ghost use Rattle.std.specs.Prelude.{[], ◌∷◌, flat_map};
ghost use Rattle.mesa_disk.specs.Story.{Unmoved};
ghost use Rattle.mesa_open_files.specs.GivingBack.{GivesBack, pinned_inputs, spare_inputs, task_inputs};
ghost use Rattle.mesa_open_files.specs.Recasts.{own, recast_inputs};

use crate::{Pinned, PinnedInput, Recast, RecastRange, Spare, Task};
use mesa_delta::Input;
use mesa_disk::{Disk, Made};

/// Gives back an input's reader.
pub fn retire_input<M: Made, D: Disk<M>>(disk: &mut D, input: Input<D::Reader>)
    ensures unmoved { Unmoved (D.story disk.old) (D.story disk.new) }
    ensures given { GivesBack D.Reader.faults (input ∷ []) (D.story disk.old) (D.story disk.new) }
{
    let Input {
        reader,
        evolving: _evolving,
        epoch: _epoch,
    } = input;
    disk.retire(reader.detach());
}

/// Gives back the readers of inputs.
pub fn retire_all<M: Made, D: Disk<M>>(disk: &mut D, mut inputs: Vec<Input<D::Reader>>)
    ensures unmoved { Unmoved (D.story disk.old) (D.story disk.new) }
    ensures given { GivesBack D.Reader.faults inputs.items (D.story disk.old) (D.story disk.new) }
{
    'inputs: while let Some(input) = inputs.pop() {
        retire_input(disk, input);
    }
    inputs.destroy_empty();
}

/// Gives back the readers of a further part of a task.
pub fn retire_spare<M: Made, D: Disk<M>>(disk: &mut D, spare: Spare<D::Reader>)
    ensures unmoved { Unmoved (D.story disk.old) (D.story disk.new) }
    ensures given { GivesBack D.Reader.faults (spare_inputs spare) (D.story disk.old) (D.story disk.new) }
{
    let Spare { inputs } = spare;
    retire_all(disk, inputs);
}

/// Gives back the readers of further parts of a task.
pub fn retire_spares<M: Made, D: Disk<M>>(disk: &mut D, mut spares: Vec<Spare<D::Reader>>)
    ensures unmoved { Unmoved (D.story disk.old) (D.story disk.new) }
    ensures given { GivesBack D.Reader.faults (flat_map spare_inputs spares.items) (D.story disk.old) (D.story disk.new) }
{
    'spares: while let Some(spare) = spares.pop() {
        retire_spare(disk, spare);
    }
    spares.destroy_empty();
}

/// Gives back the readers of a task.
pub fn retire_task<M: Made, D: Disk<M>>(disk: &mut D, task: Task<D::Reader>)
    ensures unmoved { Unmoved (D.story disk.old) (D.story disk.new) }
    ensures given { GivesBack D.Reader.faults (task_inputs task) (D.story disk.old) (D.story disk.new) }
{
    let Task {
        table: _table,
        work: _work,
        lease: _lease,
        epoch: _epoch,
        inputs,
        damage: _damage,
        spare,
    } = task;
    retire_all(disk, inputs);
    retire_spares(disk, spare);
}

// Gives back the reader of a range, if it has one.
fn retire_range<M: Made, D: Disk<M>>(disk: &mut D, range: RecastRange<D::Reader>)
    ensures unmoved { Unmoved (D.story disk.old) (D.story disk.new) }
    ensures given { GivesBack D.Reader.faults (own range) (D.story disk.old) (D.story disk.new) }
{
    let RecastRange {
        from: _from,
        to: _to,
        input,
    } = range;
    if let Some(input) = input {
        retire_input(disk, input);
    }
}

/// Gives back the readers of a recast's ranges.
pub fn retire_ranges<M: Made, D: Disk<M>>(disk: &mut D, mut ranges: Vec<RecastRange<D::Reader>>)
    ensures unmoved { Unmoved (D.story disk.old) (D.story disk.new) }
    ensures given { GivesBack D.Reader.faults (flat_map own ranges.items) (D.story disk.old) (D.story disk.new) }
{
    'each: while let Some(range) = ranges.pop() {
        retire_range(disk, range);
    }
    ranges.destroy_empty();
}

/// Gives back the readers of a recast.
pub fn retire_recast<M: Made, D: Disk<M>>(disk: &mut D, recast: Recast<D::Reader>)
    ensures unmoved { Unmoved (D.story disk.old) (D.story disk.new) }
    ensures given { GivesBack D.Reader.faults (recast_inputs recast) (D.story disk.old) (D.story disk.new) }
{
    let Recast {
        table: _table,
        lease: _lease,
        epoch: _epoch,
        evolving: _evolving,
        keys: _keys,
        values: _values,
        ranges,
        damage: _damage,
    } = recast;
    retire_ranges(disk, ranges);
}

/// Gives back the readers of a query.
pub fn retire_pinned<M: Made, D: Disk<M>>(disk: &mut D, pinned: Pinned<D::Reader>)
    ensures unmoved { Unmoved (D.story disk.old) (D.story disk.new) }
    ensures given { GivesBack D.Reader.faults (pinned_inputs pinned) (D.story disk.old) (D.story disk.new) }
{
    let Pinned {
        query: _query,
        version: _version,
        view: _view,
        at: _at,
        mut inputs,
    } = pinned;
    'inputs: while let Some(one) = inputs.pop() {
        let PinnedInput { input, own: _own } = one;
        retire_input(disk, input);
    }
    inputs.destroy_empty();
}
