// Copies of key values.
use crate::{KeyText, KeyType, KeyValue};
use mesa_value::TryCopy;
use std::alloc::AllocError;

impl TryCopy for KeyType {
    fn copy(&self) -> Result<Self, AllocError> {
        Ok(*self)
    }
}

impl TryCopy for KeyValue {
    fn copy(&self) -> Result<Self, AllocError> {
        match self {
            KeyValue::Int(number) => Ok(KeyValue::Int(*number)),
            KeyValue::Text(text) => Ok(KeyValue::Text(text.copy()?)),
        }
    }
}
