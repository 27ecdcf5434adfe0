// The columns that a table is asked to have.
ghost use Rattle.std.specs.Prelude.{◌≡◌, Ok, IfOk, IfErr, OnOk, map, true};
ghost use Rattle.std.specs.List.{list_all};
ghost use Rattle.mesa_list.specs.Checks.{refuse_unless};
ghost use Rattle.mesa_model.specs.mesa_columns.declared.columns.KeyColumn.{KeyColumn as Key};
ghost use Rattle.mesa_model.specs.mesa_columns.declared.columns.ValueColumn.{ValueColumn as Column};
ghost use Rattle.mesa_model.specs.mesa_columns.Names.{is_name};
ghost use Rattle.mesa_model.specs.Refusals.{bad_schema};
ghost use Rattle.mesa_model.specs.declared.replies.SchemaFault.TheVariants as fault;
ghost use Rattle.mesa_model.specs.Tables.{columns_asked};
ghost use Rattle.mesa_binding.specs.Asked.{columns_checked, keys_asked, values_asked};
ghost use Rattle.mesa_binding.specs.Told.{IsDue, schema_failure};

use crate::failure::Failure;
use crate::naming::read_name;
use mesa_list::Items;
use mesa_model::{KeyWords, Refusal, SchemaFault, TableWords, ValueWords};
use mesa_schema::{KeyColumn, Schema, SchemaError, ValueColumn};
use std::alloc::Global;

/// The columns that a table is asked to have, or why they make none.
pub fn schema_asked(alloc: Global, words: &TableWords) -> Result<Schema, Failure>
    ensures asked { IfOk result (λ schema. schema ≡ columns_asked words.now) }
    ensures checked { OnOk result (columns_checked (columns_asked words.now) ≡ Ok tt) }
    ensures refused { IfErr result (IsDue (columns_checked (columns_asked words.now))) }
{
    let keys = key_columns(alloc, words.keys.as_slice())?;
    let values = value_columns(alloc, words.values.as_slice())?;
    match Schema::build(keys.into_vec(), values.into_vec()) {
        Ok(schema) => Ok(schema),
        Err(error) => Err(refusal_of(error)),
    }
}

fn refusal_of(error: SchemaError) -> Failure
    ensures { result ≡ schema_failure error }
{
    let reason = match error {
        SchemaError::NoKey => SchemaFault::NoKey,
        SchemaError::NoValue => SchemaFault::NoValue,
        SchemaError::TooManyColumns => SchemaFault::TooManyColumns,
        SchemaError::NameTwice { .. } => SchemaFault::NameTwice,
        SchemaError::Memory => return Failure::Memory,
    };
    Failure::Refused(Refusal::BadSchema { reason })
}

// The key columns that are asked, each of which has a name.
fn key_columns(alloc: Global, words: &[KeyWords]) -> Result<Items<KeyColumn>, Failure>
    ensures asked { IfOk result (λ keys. keys ≡ keys_asked words.now) }
    ensures named { OnOk result (list_all is_name (map (λ (c : Key). c.name) (keys_asked words.now)) ≡ true) }
    ensures refused { IfErr result (IsDue (refuse_unless (list_all is_name (map (λ (c : Key). c.name) (keys_asked words.now))) (bad_schema fault.BadName))) }
{
    let mut keys = Items::new(alloc);
    'words: for column in words {
        let name = read_name(alloc, column.name.as_slice())?;
        let kind = column.kind;
        keys.push(KeyColumn { name, kind })?;
    }
    Ok(keys)
}

// The value columns that are asked, each of which has a name.
fn value_columns(alloc: Global, words: &[ValueWords]) -> Result<Items<ValueColumn>, Failure>
    ensures asked { IfOk result (λ values. values ≡ values_asked words.now) }
    ensures named { OnOk result (list_all is_name (map (λ (c : Column). c.name) (values_asked words.now)) ≡ true) }
    ensures refused { IfErr result (IsDue (refuse_unless (list_all is_name (map (λ (c : Column). c.name) (values_asked words.now))) (bad_schema fault.BadName))) }
{
    let mut values = Items::new(alloc);
    'words: for column in words {
        let name = read_name(alloc, column.name.as_slice())?;
        let agg = column.agg;
        values.push(ValueColumn { name, agg })?;
    }
    Ok(values)
}
