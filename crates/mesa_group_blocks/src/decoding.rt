// How the blocks of files are decoded.
ghost use Rattle.std.specs.Prelude.{IfOk};
ghost use Rattle.std.specs.List.{AllByRecursion};
ghost use Rattle.mesa_merge.specs.Inputs.{knowns_of};
ghost use Rattle.mesa_scan.specs.Cursors.{IsInput};
ghost use Rattle.mesa_group_blocks.specs.Moved.{inputs_in};
ghost use Rattle.mesa_group_blocks.specs.Pieces.{AreDecodingsOf, AreLiftsOf};

use mesa_delta::Index;
use mesa_disk::FileReader;
use mesa_open_files::PinnedInput;
use mesa_schema::Lift;
use std::alloc::{AllocError, Global};

/// How a file's blocks are decoded. It doesn't read the file.
#[derive(Clone, Copy)]
pub(crate) struct Decoding<'a> {
    pub index: &'a Index,
    pub lift: &'a Lift,
}

/// How the rows of each file are lifted to the present.
pub(crate) fn lifts_of<R: FileReader>(
    alloc: Global,
    files: &[PinnedInput<R>],
) -> Result<Vec<Lift>, AllocError>
    requires { AllByRecursion (IsInput R.bytes) (inputs_in files.now) }
    ensures { IfOk result (λ lifts. AreLiftsOf (knowns_of R.bytes (inputs_in files.now)) lifts.items) }
{
    let mut lifts = Vec::with_capacity(alloc, files.len())?;
    'each_file: for i in 0..files.len() {
        let input = &files[i].input;
        let _columns = input.evolving.present();
        lifts.push(input.evolving.lift_from(input.epoch)?)?;
    }
    Ok(lifts)
}

/// How the blocks of each file are decoded.
pub(crate) fn decodings_of<'a, R: FileReader>(
    alloc: Global,
    files: &'a [PinnedInput<R>],
    lifts: &'a [Lift],
) -> Result<Vec<Decoding<'a>>, AllocError>
    requires { AreLiftsOf (knowns_of R.bytes (inputs_in files.now)) lifts.now }
    ensures { IfOk result (λ found. AreDecodingsOf (knowns_of R.bytes (inputs_in files.now)) found.items) }
{
    let mut found = Vec::with_capacity(alloc, files.len())?;
    'each_file: for i in 0..files.len() {
        let index = files[i].input.reader.index();
        let lift = &lifts[i];
        found.push(Decoding { index, lift })?;
    }
    Ok(found)
}
