// Copies of columns, schemas, views, changes, rows and refusals.
use crate::{Change, ChangeError, KeyColumn, Row, SchemaError, ValueColumn, View, ViewError};
use mesa_key::TryCopy;
use std::alloc::AllocError;

impl TryCopy for KeyColumn {
    fn copy(&self) -> Result<Self, AllocError> {
        Ok(KeyColumn {
            name: self.name.copy()?,
            kind: self.kind,
        })
    }
}

impl TryCopy for ValueColumn {
    fn copy(&self) -> Result<Self, AllocError> {
        Ok(ValueColumn {
            name: self.name.copy()?,
            agg: self.agg,
        })
    }
}

impl TryCopy for Row {
    fn copy(&self) -> Result<Self, AllocError> {
        Ok(Row {
            key: self.key.copy()?,
            values: self.values.copy()?,
        })
    }
}

impl TryCopy for View {
    fn copy(&self) -> Result<Self, AllocError> {
        Ok(View {
            name: self.name.copy()?,
            keys: self.keys.copy()?,
            values: self.values.copy()?,
        })
    }
}

impl TryCopy for Change {
    fn copy(&self) -> Result<Self, AllocError> {
        match self {
            Change::AddValue { column, default } => Ok(Change::AddValue {
                column: column.copy()?,
                default: *default,
            }),
            Change::DropValue { name } => Ok(Change::DropValue { name: name.copy()? }),
            Change::AddKey { column, default } => Ok(Change::AddKey {
                column: column.copy()?,
                default: default.copy()?,
            }),
        }
    }
}

impl TryCopy for SchemaError {
    fn copy(&self) -> Result<Self, AllocError> {
        match self {
            SchemaError::NoKey => Ok(SchemaError::NoKey),
            SchemaError::NoValue => Ok(SchemaError::NoValue),
            SchemaError::TooManyColumns => Ok(SchemaError::TooManyColumns),
            SchemaError::NameTwice { name } => Ok(SchemaError::NameTwice { name: name.copy()? }),
            SchemaError::Memory => Ok(SchemaError::Memory),
        }
    }
}

impl TryCopy for ViewError {
    fn copy(&self) -> Result<Self, AllocError> {
        match self {
            ViewError::NoColumn => Ok(ViewError::NoColumn),
            ViewError::NoKey => Ok(ViewError::NoKey),
            ViewError::NoValue => Ok(ViewError::NoValue),
            ViewError::NameTwice => Ok(ViewError::NameTwice),
            ViewError::ReplaceInView { column } => Ok(ViewError::ReplaceInView {
                column: column.copy()?,
            }),
            ViewError::Memory => Ok(ViewError::Memory),
        }
    }
}

impl TryCopy for ChangeError {
    fn copy(&self) -> Result<Self, AllocError> {
        match self {
            ChangeError::NameTwice => Ok(ChangeError::NameTwice),
            ChangeError::NoColumn => Ok(ChangeError::NoColumn),
            ChangeError::BadDefault => Ok(ChangeError::BadDefault),
            ChangeError::LastValue => Ok(ChangeError::LastValue),
            ChangeError::InView { view } => Ok(ChangeError::InView { view: view.copy()? }),
            ChangeError::TooManyColumns => Ok(ChangeError::TooManyColumns),
            ChangeError::EpochsFull => Ok(ChangeError::EpochsFull),
            ChangeError::Memory => Ok(ChangeError::Memory),
        }
    }
}
