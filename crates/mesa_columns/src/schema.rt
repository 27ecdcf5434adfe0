// The columns of a table or a view together.
ghost use Rattle.std.specs.Prelude.{◌≡◌, IsTrue, IfErr, IfOk, OnOk};
ghost use Rattle.mesa_columns.specs.Schema.{is_schema, schema_checked};

use crate::{KeyColumn, Name, ValueColumn, repeated_place};
use mesa_key::{Items, TryCopy};
use std::alloc::AllocError;
use std::marker::Model;

/// How many columns of each sort a schema may have.
pub const MAX_COLUMNS: usize = 16;

/// The columns of a table or a view: 1 to 16 of each sort, no name twice among the key columns nor among the value columns.
#[derive(Drop)]
pub struct Schema {
    keys: Items<KeyColumn>,
    values: Items<ValueColumn>,
}

impl Model for Schema {
    ghost use Rattle.std.specs.Prelude.{IsTrue};
    ghost use Rattle.mesa_columns.specs.Columns.{Columns};
    ghost use Rattle.mesa_columns.specs.Schema.{is_schema};

    ghost Value = { Columns };

    ghost view = { λ s. record { keys = s.keys; values = s.values } };

    ghost invariant = { λ s. IsTrue (is_schema (record { keys = s.keys; values = s.values })) };
}

/// Why columns are no schema, the first reason that applies.
#[derive(Drop)]
pub enum SchemaError {
    NoKey,
    NoValue,
    /// More than 16 key columns or more than 16 value columns.
    TooManyColumns,
    /// This name stands at an earlier column of its sort too; key columns are looked at first.
    NameTwice { name: Name },
    Memory,
}

impl Schema {
    /// Whether these columns make a schema.
    pub fn allows(keys: &[KeyColumn], values: &[ValueColumn]) -> bool
        ensures { result ≡ is_schema (record { keys = keys.now; values = values.now }) }
    {
        if keys.is_empty() || values.is_empty() {
            return false;
        }
        if keys.len() > MAX_COLUMNS || values.len() > MAX_COLUMNS {
            return false;
        }
        repeated_place(keys).is_none() && repeated_place(values).is_none()
    }

    /// The schema of these columns; none is copied.
    pub fn build(
        mut keys: Vec<KeyColumn>,
        mut values: Vec<ValueColumn>,
    ) -> Result<Self, SchemaError>
        ensures built { IfOk result (λ s. s ≡ record { keys = keys.items; values = values.items }) }
        ensures allowed { OnOk result (IsTrue (is_schema (record { keys = keys.items; values = values.items }))) }
        ensures refused { IfErr result (λ e. schema_checked (record { keys = keys.items; values = values.items }) ≡ Err e) }
    {
        if keys.is_empty() {
            return Err(SchemaError::NoKey);
        }
        if values.is_empty() {
            return Err(SchemaError::NoValue);
        }
        if keys.len() > MAX_COLUMNS || values.len() > MAX_COLUMNS {
            return Err(SchemaError::TooManyColumns);
        }
        if let Some(place) = repeated_place(&keys) {
            let name = keys.swap_remove(place).name;
            return Err(SchemaError::NameTwice { name });
        }
        if let Some(place) = repeated_place(&values) {
            let name = values.swap_remove(place).name;
            return Err(SchemaError::NameTwice { name });
        }
        Ok(Schema {
            keys: Items::from_vec(keys),
            values: Items::from_vec(values),
        })
    }

    /// Two lists of columns that are known to make a schema.
    pub fn of(keys: Vec<KeyColumn>, values: Vec<ValueColumn>) -> Self
        requires { IsTrue (is_schema (record { keys = keys.items; values = values.items })) }
        ensures { result ≡ record { keys = keys.items; values = values.items } }
    {
        Schema {
            keys: Items::from_vec(keys),
            values: Items::from_vec(values),
        }
    }

    /// Copies of the columns, to be changed.
    pub fn columns(&self) -> Result<(Vec<KeyColumn>, Vec<ValueColumn>), AllocError>
        ensures keys { IfOk result (λ found. found.0.items ≡ self.now.keys) }
        ensures values { IfOk result (λ found. found.1.items ≡ self.now.values) }
    {
        let keys = self.keys.copy()?;
        let values = self.values.copy()?;
        Ok((keys.into_vec(), values.into_vec()))
    }

    /// The columns, to be changed; none is copied.
    pub fn into_columns(self) -> (Vec<KeyColumn>, Vec<ValueColumn>)
        ensures keys { result.0.items ≡ self.keys }
        ensures values { result.1.items ≡ self.values }
    {
        (self.keys.into_vec(), self.values.into_vec())
    }

    /// The key columns, in the order of the key.
    pub fn keys(&self) -> &[KeyColumn]
        ensures same { result.now ≡ self.now.keys }
        ensures sound { IsTrue (is_schema self.now) }
    {
        self.keys.as_slice()
    }

    /// The value columns.
    pub fn values(&self) -> &[ValueColumn]
        ensures same { result.now ≡ self.now.values }
        ensures sound { IsTrue (is_schema self.now) }
    {
        self.values.as_slice()
    }
}

impl TryCopy for Schema {
    fn copy(&self) -> Result<Self, AllocError> {
        Ok(Schema {
            keys: self.keys.copy()?,
            values: self.values.copy()?,
        })
    }
}
