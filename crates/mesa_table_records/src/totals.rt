// The absolute totals of a table through records.
ghost use Rattle.std.specs.Prelude.{◌≡◌, ◌+◌, ◌-◌, ◌^◌, ℕ, IfOk, is_none, map, min, true, zip};
ghost use Rattle.mesa_batch.specs.Totals.{over_bound, totals_with as with_more};

use mesa_list::Items;
use mesa_schema::Totals;
use std::alloc::{AllocError, Global};

/// With those of a batch, which keep the bound together.
pub fn totals_with(totals: &Totals, more: &Totals) -> Result<Totals, AllocError>
    requires { is_none (over_bound totals.now more.now) ≡ true }
    ensures { IfOk result (λ sums. sums ≡ with_more totals.now more.now) }
{
    let sums = added(totals.allocator(), totals.as_slice(), more.as_slice())?;
    Ok(Items::from_vec(sums))
}

fn added(alloc: Global, totals: &[u128], more: &[u128]) -> Result<Vec<u128>, AllocError>
    ensures { IfOk result (λ sums. sums.items ≡ map (λ (p : ℕ × ℕ). min (2 ^ 128 - 1) (p.0 + p.1)) (zip totals.now more.now)) }
{
    totals
        .iter()
        .zip(more)
        .map(|(total, more)| total.saturating_add(*more))
        .collect(alloc)
}
