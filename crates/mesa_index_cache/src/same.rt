// Whether the columns of two schemas are the same. Takes no memory.
ghost use Rattle.std.specs.Prelude.{◌≡◌, ◌↔◌, IsTrue};

use mesa_columns::{KeyColumn, Schema, ValueColumn};

pub(crate) fn same_columns(a: &Schema, b: &Schema) -> bool
    ensures { IsTrue result ↔ (a.now ≡ b.now) }
{
    same_keys(a.keys(), b.keys()) && same_values(a.values(), b.values())
}

fn same_keys(a: &[KeyColumn], b: &[KeyColumn]) -> bool
    ensures { IsTrue result ↔ (a.now ≡ b.now) }
{
    match (a, b) {
        ([], []) => true,
        ([one, more @ ..], [other, others @ ..]) => {
            same_key(one, other) && same_keys(more, others)
        }
        _ => false,
    }
}

fn same_key(a: &KeyColumn, b: &KeyColumn) -> bool
    ensures { IsTrue result ↔ (a.now ≡ b.now) }
{
    a.kind == b.kind && a.name.bytes() == b.name.bytes()
}

fn same_values(a: &[ValueColumn], b: &[ValueColumn]) -> bool
    ensures { IsTrue result ↔ (a.now ≡ b.now) }
{
    match (a, b) {
        ([], []) => true,
        ([one, more @ ..], [other, others @ ..]) => {
            same_value(one, other) && same_values(more, others)
        }
        _ => false,
    }
}

fn same_value(a: &ValueColumn, b: &ValueColumn) -> bool
    ensures { IsTrue result ↔ (a.now ≡ b.now) }
{
    a.agg == b.agg && a.name.bytes() == b.name.bytes()
}
