// Which blocks of which files are read for a query.
ghost use Rattle.std.specs.Prelude.{◌≡◌, ◌++◌, List, true, IfOk, OnOk};
ghost use Rattle.std.specs.List.{AllByRecursion};
ghost use Rattle.mesa_open_files.specs.mesa_columns.declared.rows.Row.{Row as AnyRow};
ghost use Rattle.mesa_open_files.specs.mesa_columns.Columns.{Columns, kinds_of};
ghost use Rattle.mesa_open_files.specs.mesa_fold.Folded.{rows_of};
ghost use Rattle.mesa_filter.specs.Filter.{filtered};
ghost use Rattle.mesa_merge.specs.Inputs.{AreTold, known_of, knowns_of};
ghost use Rattle.mesa_scan.specs.Cursors.{IsInput};
ghost use Rattle.mesa_scan.specs.Scanning.{IsFilterOf};
ghost use Rattle.mesa_open_files.specs.Pins.{IsPinnedInput};
ghost use Rattle.mesa_open_files.specs.declared.querying.PinnedInput.{PinnedInput as AnyPinned};
ghost use Rattle.mesa_group_blocks.specs.declared.pieces.Piece.{Piece as AnyPiece};
ghost use Rattle.mesa_group_blocks.specs.Moved.{inputs_in};
ghost use Rattle.mesa_group_blocks.specs.Pieces.{ArePiecesOf, IsPieceOf, rows_of_pieces};
ghost use Rattle.mesa_group_blocks.specs.Ungrouped.{parts_ungrouped};

use mesa_delta::Input;
use mesa_disk::FileReader;
use mesa_filter::Filter;
use mesa_open_files::PinnedInput;
use mesa_scan::allows;
use std::alloc::{AllocError, Global};

/// A block of a file, which is known by its place among those that are read.
#[derive(Clone, Copy)]
pub(crate) struct Piece {
    pub file: usize,
    pub block: u32,
}

/// The blocks of all files that may have a matching row, in the files' order. All files are the relation's own.
pub(crate) fn pieces_of<R: FileReader>(
    alloc: Global,
    view: Option<u8>,
    files: &[PinnedInput<R>],
    filter: &Filter,
) -> Result<Vec<Piece>, AllocError>
    requires files { (s : Columns) × (filter.now.kinds ≡ kinds_of s) × AllByRecursion (IsPinnedInput R.bytes s view) files.now }
    requires own { AllByRecursion (λ (file : AnyPinned R). file.own ≡ true) files.now }
    ensures pieces { IfOk result (λ pieces. AllByRecursion (IsPieceOf (knowns_of R.bytes (inputs_in files.now))) pieces.items) }
    ensures rows { IfOk result (λ pieces. (s : Columns) → AllByRecursion (IsPinnedInput R.bytes s view) files.now → (contents : List (List AnyRow)) → AreTold (knowns_of R.bytes (inputs_in files.now)) contents
        → rows_of_pieces filter.now (knowns_of R.bytes (inputs_in files.now)) contents pieces.items ≡ filtered s filter.now.terms (rows_of (parts_ungrouped view files.now contents))) }
{
    let mut pieces = Vec::new(alloc);
    'each_file: for i in 0..files.len() {
        add_pieces(&files[i].input, i, filter, &mut pieces)?;
    }
    Ok(pieces)
}

// Adds the blocks of an input that may have a matching row.
fn add_pieces<R: FileReader>(
    input: &Input<R>,
    place: usize,
    filter: &Filter,
    pieces: &mut Vec<Piece>,
) -> Result<(), AllocError>
    requires input { IsInput R.bytes input.now }
    requires filter { IsFilterOf input.now filter.now }
    ensures more { OnOk result ((more : List AnyPiece) × (pieces.new.items ≡ pieces.old.items ++ more) × ArePiecesOf (known_of R.bytes input.now) filter.now place more) }
{
    let blocks = input.reader.blocks();
    'each_block: for block in 0..blocks {
        if !allows(input, filter, block) {
            continue;
        }
        pieces.push(Piece { file: place, block })?;
    }
    Ok(())
}
