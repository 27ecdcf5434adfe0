// The inputs of a task and its spares, lent to parts that merge side by side.
ghost use Rattle.std.specs.Prelude.{◌≡◌, ◌≤◌, ◌+◌, [], length, IfOk, OnErr};
ghost use Rattle.mesa_split.specs.Lending.{AreEmpty, AreLent, lists_in, lists_of, returned};

use crate::parts::Part;
use mesa_delta::{FileError, Input};
use mesa_disk::FileReader;
use mesa_open_files::Spare;
use std::alloc::{AllocError, Global};
use std::collections::VecDeque;
use std::mem;

/// Parts to which inputs are lent: these to the first, and a spare's to each of so many further ones.
pub(crate) fn lend<R: FileReader>(
    alloc: Global,
    further: usize,
    inputs: &mut Vec<Input<R>>,
    spare: &mut [Spare<R>],
) -> Result<Vec<Part<R>>, AllocError>
    requires few { further ≤ length spare.old }
    ensures count { IfOk result (λ parts. length parts.items ≡ further + 1) }
    ensures lent { IfOk result (λ parts. AreLent (lists_of inputs.old spare.old) (lists_of inputs.new spare.new) (lists_in parts.items)) }
    ensures unread { OnErr result (lists_of inputs.new spare.new ≡ lists_of inputs.old spare.old) }
{
    let mut parts = match Vec::with_capacity(alloc, further + 1) {
        Ok(parts) => parts,
        Err(error) => return Err(error),
    };
    parts.push_reserved(part_of(alloc, inputs));
    'spares: for i in 0..further {
        parts.push_reserved(spare_part(alloc, &mut spare[i]));
    }
    Ok(parts)
}

// A part to which these inputs are lent.
fn part_of<R: FileReader>(alloc: Global, inputs: &mut Vec<Input<R>>) -> Part<R>
    ensures lent { result.inputs ≡ inputs.old }
    ensures empty { inputs.new.items ≡ [] }
{
    Part {
        inputs: mem::replace(inputs, Vec::new(alloc)),
        rows: Err(FileError::Memory),
    }
}

// A part to which a spare's inputs are lent.
fn spare_part<R: FileReader>(alloc: Global, spare: &mut Spare<R>) -> Part<R>
    ensures lent { result.inputs ≡ spare.old.inputs }
    ensures empty { spare.new.inputs.items ≡ [] }
{
    part_of(alloc, &mut spare.inputs)
}

/// Gives the inputs of parts back: the first part's here, and each further one's to a spare.
pub(crate) fn give_back<R: FileReader>(
    parts: Vec<Part<R>>,
    further: usize,
    inputs: &mut Vec<Input<R>>,
    spare: &mut [Spare<R>],
)
    requires count { length parts.items ≡ further + 1 }
    requires few { further ≤ length spare.old }
    requires empty { AreEmpty (further + 1) (lists_of inputs.old spare.old) }
    ensures { lists_of inputs.new spare.new ≡ returned (lists_of inputs.old spare.old) (lists_in parts.items) }
{
    let mut left = VecDeque::from_vec(parts);
    let Some(first) = left.pop_front() else {
        unreachable!()
    };
    put_back(first, inputs);
    'spares: for i in 0..further {
        let Some(part) = left.pop_front() else {
            unreachable!()
        };
        spare_put_back(part, &mut spare[i]);
    }
    left.destroy_empty();
}

// A part's inputs take the place of none.
fn put_back<R: FileReader>(part: Part<R>, inputs: &mut Vec<Input<R>>)
    requires { inputs.old.items ≡ [] }
    ensures { inputs.new ≡ part.inputs }
{
    let Part {
        inputs: lent,
        rows: _rows,
    } = part;
    let empty = mem::replace(inputs, lent);
    empty.destroy_empty();
}

// A part's inputs go to a spare that has none.
fn spare_put_back<R: FileReader>(part: Part<R>, spare: &mut Spare<R>)
    requires { spare.old.inputs.items ≡ [] }
    ensures { spare.new.inputs ≡ part.inputs }
{
    put_back(part, &mut spare.inputs)
}
