// What a merge is made of, beside its inputs.
ghost use Rattle.std.specs.Prelude.{◌≡◌, ◌<◌, [], ℕ, length, map, get_or, IfOk};
ghost use Rattle.std.specs.List.{AllByRecursion};
ghost use Rattle.mesa_schema.specs.Changes.{columns_of};
ghost use Rattle.mesa_scan.specs.mesa_columns.Columns.{Columns, aggs_of};
ghost use Rattle.mesa_scan.specs.Cursors.{IsInput};
ghost use Rattle.mesa_merge.specs.Hands.{hands_of};
ghost use Rattle.mesa_merge.specs.Inputs.{AreAlike, knowns_of};
ghost use Rattle.mesa_merge.specs.Matches.{IsTree};
ghost use Rattle.mesa_merge.specs.Merged.{nothing_given};
ghost use Rattle.mesa_merge.specs.Merging.{HasGivens};

use crate::matches::{Tree, first_tree};
use mesa_delta::Input;
use mesa_disk::FileReader;
use mesa_key::KeyBytes;
use mesa_scan::Cursor;
use mesa_schema::Evolving;
use mesa_value::Agg;
use std::alloc::{AllocError, Global};

/// What is kept beside the inputs of a merge.
pub(crate) struct Parts {
    pub cursors: Vec<Cursor>,
    pub tree: Tree,
    pub aggs: Vec<Agg>,
}

// Of inputs of which nothing was read yet.
pub(crate) fn parts_of<R: FileReader>(
    alloc: Global,
    inputs: &[Input<R>],
    low: &Option<KeyBytes>,
) -> Result<Parts, AllocError>
    requires { AllByRecursion (IsInput R.bytes) inputs.now }
    ensures given { IfOk result (λ p. HasGivens R.bytes low.now inputs.now p.cursors.items (nothing_given inputs.now)) }
    ensures none { IfOk result (λ p. (j : ℕ) → get_or (hands_of p.cursors.items) j [] ≡ []) }
    ensures tree { IfOk result (λ p. IsTree (hands_of p.cursors.items) p.tree) }
    ensures columns { IfOk result (λ p. (s : Columns) → AreAlike s (knowns_of R.bytes inputs.now) → 0 < length inputs.now → p.aggs.items ≡ aggs_of s) }
{
    let cursors = cursors_of(alloc, inputs, low)?;
    let tree = first_tree(alloc, cursors.len())?;
    let aggs = aggs_in(alloc, inputs)?;
    Ok(Parts {
        cursors,
        tree,
        aggs,
    })
}

// Each at its first row from the low end on, where there is one.
fn cursors_of<R: FileReader>(
    alloc: Global,
    inputs: &[Input<R>],
    low: &Option<KeyBytes>,
) -> Result<Vec<Cursor>, AllocError>
    requires { AllByRecursion (IsInput R.bytes) inputs.now }
    ensures given { IfOk result (λ cs. HasGivens R.bytes low.now inputs.now cs.items (nothing_given inputs.now)) }
    ensures none { IfOk result (λ cs. (j : ℕ) → get_or (hands_of cs.items) j [] ≡ []) }
{
    let mut cursors = Vec::with_capacity(alloc, inputs.len())?;
    'inputs: for i in 0..inputs.len() {
        cursors.push(Cursor::from_key(alloc, &inputs[i], low)?)?;
    }
    Ok(cursors)
}

// The aggregations of the columns to which they are lifted.
fn aggs_in<R: FileReader>(alloc: Global, inputs: &[Input<R>]) -> Result<Vec<Agg>, AllocError>
    ensures { IfOk result (λ aggs. (s : Columns) → AreAlike s (knowns_of R.bytes inputs.now) → 0 < length inputs.now → aggs.items ≡ aggs_of s) }
{
    if inputs.is_empty() {
        return Ok(Vec::new(alloc));
    }
    present_aggs(alloc, &inputs[0].evolving)
}

fn present_aggs(alloc: Global, evolving: &Evolving) -> Result<Vec<Agg>, AllocError>
    ensures { IfOk result (λ aggs. aggs.items ≡ aggs_of (columns_of evolving.now)) }
{
    let columns = evolving.present().values();
    columns.iter().map(|column| column.agg).collect(alloc)
}
