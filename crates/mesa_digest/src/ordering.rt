// The order of columns by their names.
ghost use Rattle.std.specs.Prelude.{◌≡◌, ◌<◌, ◌≤◌, length, map, IfOk};
ghost use Rattle.std.specs.List.{AllByRecursion};
ghost use Rattle.std.specs.Ordering.{is_le};
ghost use Rattle.mesa_digest.specs.Digests.{label_cmp};
ghost use Rattle.mesa_digest.specs.Places.{IsOrder, count_of, label_at, place_among};

use mesa_columns::Schema;
use std::alloc::{AllocError, Global};

// The places of a schema's columns in the order of their names.
pub(crate) fn column_order(alloc: Global, schema: &Schema) -> Result<Vec<usize>, AllocError>
    ensures { IfOk result (λ order. IsOrder schema.now order.items) }
{
    let count = schema.keys().len() + schema.values().len();
    let mut order = Vec::new(alloc);
    'places: for place in 0..count {
        let at = place_in(schema, place, &order);
        order.insert(at, place)?;
    }
    Ok(order)
}

// How many of the columns at these places come before the one at another place.
fn place_in(schema: &Schema, place: usize, order: &[usize]) -> usize
    requires place { place < count_of schema.now }
    requires order { AllByRecursion (λ place. place < count_of schema.now) order.now }
    ensures among { result ≡ place_among (label_at schema.now place) (map (label_at schema.now) order.now) }
    ensures within { result ≤ length order.now }
{
    let mut passed = 0;
    'others: for other in order {
        if is_before(schema, place, *other) {
            return passed;
        }
        passed += 1;
    }
    passed
}

// Whether the column at a place doesn't come behind the one at another place.
fn is_before(schema: &Schema, place: usize, other: usize) -> bool
    requires place { place < count_of schema.now }
    requires other { other < count_of schema.now }
    ensures { result ≡ is_le (label_cmp (label_at schema.now place) (label_at schema.now other)) }
{
    let (name, rank) = label(schema, place);
    let (other_name, other_rank) = label(schema, other);
    name.cmp(other_name).then(rank.cmp(&other_rank)).is_le()
}

// The name of the column at a place, and 0 for a key column, 1 for a value column.
pub(crate) fn label(schema: &Schema, place: usize) -> (&[u8], u8)
    requires { place < count_of schema.now }
    ensures name { result.0.now ≡ (label_at schema.now place).name }
    ensures rank { result.1 ≡ (label_at schema.now place).rank }
    ensures short { length result.0.now ≤ 32 }
{
    let keys = schema.keys();
    if place < keys.len() {
        return (keys[place].name.bytes(), 0);
    }
    (schema.values()[place - keys.len()].name.bytes(), 1)
}
