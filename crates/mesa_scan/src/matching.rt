// The matching rows of a block.
ghost use Rattle.std.specs.Prelude.{◌≡◌, ◌<◌, [], IfOk, IsTrue, Some, length, slice_get};
ghost use Rattle.std.specs.List.{AllByRecursion};
ghost use Rattle.mesa_delta.specs.mesa_key.Spelling.{is_spelling};
ghost use Rattle.mesa_delta.specs.mesa_columns.declared.rows.Row.{Row as AnyRow};
ghost use Rattle.mesa_delta.specs.mesa_columns.Lent.{lent};
ghost use Rattle.mesa_scan.specs.MatchingRows.{matching_rows};

use mesa_block::Block;
use mesa_filter::Filter;
use mesa_schema::LentRow;
use std::alloc::{AllocError, Global};
use std::marker::Model;

/// The rows of a block that match a filter, in their order. They stand where they were read, and are lent from there.
#[derive(Drop)]
pub struct MatchingRows {
    block: Block,
    // Where the rows stand in the block.
    places: Vec<usize>,
}

impl Model for MatchingRows {
    ghost use Rattle.std.specs.Prelude.{◌<◌, List, length};
    ghost use Rattle.std.specs.List.{AllByRecursion};
    ghost use Rattle.mesa_delta.specs.mesa_columns.declared.rows.Row.{Row};
    ghost use Rattle.mesa_delta.specs.mesa_columns.Columns.{chosen};

    ghost Value = { List Row };

    ghost view = { λ m. chosen m.places.items m.block };

    ghost invariant = { λ m. AllByRecursion (λ place. place < length m.block) m.places.items };
}

impl MatchingRows {
    // No rows.
    pub(crate) fn none(alloc: Global) -> Self
        ensures { result ≡ [] }
    {
        MatchingRows {
            block: Block::none(alloc),
            places: Vec::new(alloc),
        }
    }

    /// How many rows there are.
    pub fn len(&self) -> usize
        ensures { result ≡ length self.now }
    {
        self.places.len()
    }

    /// The row at a place, counted from 0.
    pub fn row(&self, i: usize) -> LentRow<'_>
        requires { i < length self.now }
        ensures { slice_get self.now i ≡ Some (lent result) }
    {
        self.block.row(self.places[i])
    }
}

// The rows of a block that match.
pub(crate) fn matching_in(
    alloc: Global,
    filter: &Filter,
    block: Block,
) -> Result<MatchingRows, AllocError>
    requires { AllByRecursion (λ (row : AnyRow). IsTrue (is_spelling filter.now.kinds row.key)) block }
    ensures { IfOk result (λ m. m ≡ matching_rows filter.now block) }
{
    let mut places = Vec::with_capacity(alloc, block.len())?;
    for place in 0..block.len() {
        if filter.matches(block.row(place).key) {
            places.push(place)?;
        }
    }
    Ok(MatchingRows { block, places })
}
