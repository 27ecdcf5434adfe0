// Inputs, each with whose file it reads.
ghost use Rattle.std.specs.Prelude.{◌≡◌, ◌≤◌, length, vec_capacity, vec_len};
ghost use Rattle.mesa_query.specs.mesa_group_blocks.Moved.{inputs_in};
ghost use Rattle.mesa_query.specs.Files.{owns_in};

use mesa_delta::Input;
use mesa_open_files::PinnedInput;

// Puts each input with whether its file is the relation's own, in their order. Takes no memory.
pub(crate) fn join<R>(files: &mut Vec<PinnedInput<R>>, mut inputs: Vec<Input<R>>, own: &[bool])
    requires empty { vec_len files.old ≡ 0 }
    requires room { length own.now ≤ vec_capacity files.old }
    requires same { length inputs.items ≡ length own.now }
    ensures inputs { inputs_in files.new.items ≡ inputs.items }
    ensures own { owns_in files.new.items ≡ own.now }
{
    'inputs: while let Some(input) = inputs.pop() {
        let whose = own[inputs.len()];
        files.push_reserved(PinnedInput { input, own: whose });
    }
    inputs.destroy_empty();
    files.reverse();
}
