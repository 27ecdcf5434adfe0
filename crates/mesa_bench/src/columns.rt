// The columns of the rows.
ghost use Rattle.std.specs.Prelude.{◌≡◌, [], ◌∷◌, IfOk, map};
ghost use Rattle.mesa_open_files.specs.mesa_columns.declared.columns.KeyColumn.{KeyColumn as Key};
ghost use Rattle.mesa_open_files.specs.mesa_columns.declared.columns.ValueColumn.{ValueColumn as Value};
ghost use Rattle.mesa_bench.specs.Made.{HasColumns};

use crate::failure::Failure;
use mesa_key::KeyType;
use mesa_schema::{KeyColumn, Name, Schema, ValueColumn};
use mesa_value::Agg;
use std::alloc::Global;

pub fn name(alloc: Global, text: &str) -> Result<Name, Failure> {
    match Name::read(alloc, text.as_bytes()) {
        Ok(name) => Ok(name),
        Err(_) => Err(Failure::Refused),
    }
}

pub fn key_column(alloc: Global, text: &str) -> Result<KeyColumn, Failure>
    ensures { IfOk result (λ c. c.kind ≡ KeyType.Int) }
{
    let name = name(alloc, text)?;
    let kind = KeyType::Int;
    Ok(KeyColumn { name, kind })
}

pub fn value_column(alloc: Global, text: &str, agg: Agg) -> Result<ValueColumn, Failure>
    ensures { IfOk result (λ c. c.agg ≡ agg) }
{
    let name = name(alloc, text)?;
    Ok(ValueColumn { name, agg })
}

// A day and an item.
fn keys(alloc: Global) -> Result<Vec<KeyColumn>, Failure>
    ensures { IfOk result (λ keys. map (λ (c : Key). c.kind) keys.items ≡ KeyType.Int ∷ KeyType.Int ∷ []) }
{
    let day = key_column(alloc, "day")?;
    let item = key_column(alloc, "item")?;
    Ok(vec![in alloc; day, item]?)
}

// An amount that is added up, and a peak.
fn values(alloc: Global) -> Result<Vec<ValueColumn>, Failure>
    ensures { IfOk result (λ values. map (λ (c : Value). c.agg) values.items ≡ Agg.Sum ∷ Agg.Max ∷ []) }
{
    let amount = value_column(alloc, "amount", Agg::Sum)?;
    let peak = value_column(alloc, "peak", Agg::Max)?;
    Ok(vec![in alloc; amount, peak]?)
}

/// A day and an item; an amount that is added up, and a peak.
pub fn schema(alloc: Global) -> Result<Schema, Failure>
    ensures { IfOk result HasColumns }
{
    let keys = keys(alloc)?;
    let values = values(alloc)?;
    match Schema::build(keys, values) {
        Ok(schema) => Ok(schema),
        Err(_) => Err(Failure::Refused),
    }
}
