// Values of which there can be another one, where there is memory.
ghost use Rattle.std.specs.Prelude.{◌≡◌, IfOk};

use crate::Items;
use std::alloc::{AllocError, Global};

/// A value of which there can be another one, where there is memory.
pub trait TryCopy: Drop {
    /// Another one, equal to this one.
    fn copy(&self) -> Result<Self, AllocError>
    where
        Self: Sized,
        ensures { IfOk result (λ other. other ≡ self.now) };

    /// Another one of each, in a list that has just the room for them.
    fn copy_all(alloc: Global, values: &[Self]) -> Result<Vec<Self>, AllocError>
    where
        Self: Sized,
        ensures { IfOk result (λ others. others.items ≡ values.now) }
    {
        let mut others = Vec::with_capacity(alloc, values.len())?;
        for value in values {
            others.push(value.copy()?)?;
        }
        Ok(others)
    }
}

impl TryCopy for u8 {
    fn copy(&self) -> Result<Self, AllocError> {
        Ok(*self)
    }

    fn copy_all(alloc: Global, values: &[Self]) -> Result<Vec<Self>, AllocError> {
        Vec::from_slice(alloc, values)
    }
}

impl TryCopy for u16 {
    fn copy(&self) -> Result<Self, AllocError> {
        Ok(*self)
    }

    fn copy_all(alloc: Global, values: &[Self]) -> Result<Vec<Self>, AllocError> {
        Vec::from_slice(alloc, values)
    }
}

impl TryCopy for u32 {
    fn copy(&self) -> Result<Self, AllocError> {
        Ok(*self)
    }

    fn copy_all(alloc: Global, values: &[Self]) -> Result<Vec<Self>, AllocError> {
        Vec::from_slice(alloc, values)
    }
}

impl TryCopy for u64 {
    fn copy(&self) -> Result<Self, AllocError> {
        Ok(*self)
    }

    fn copy_all(alloc: Global, values: &[Self]) -> Result<Vec<Self>, AllocError> {
        Vec::from_slice(alloc, values)
    }
}

impl TryCopy for (u32, u32) {
    fn copy(&self) -> Result<Self, AllocError> {
        Ok(*self)
    }

    fn copy_all(alloc: Global, values: &[Self]) -> Result<Vec<Self>, AllocError> {
        Vec::from_slice(alloc, values)
    }
}

impl TryCopy for u128 {
    fn copy(&self) -> Result<Self, AllocError> {
        Ok(*self)
    }

    fn copy_all(alloc: Global, values: &[Self]) -> Result<Vec<Self>, AllocError> {
        Vec::from_slice(alloc, values)
    }
}

impl TryCopy for i128 {
    fn copy(&self) -> Result<Self, AllocError> {
        Ok(*self)
    }

    fn copy_all(alloc: Global, values: &[Self]) -> Result<Vec<Self>, AllocError> {
        Vec::from_slice(alloc, values)
    }
}

impl<T: TryCopy> TryCopy for Items<T> {
    fn copy(&self) -> Result<Self, AllocError> {
        Ok(Items::from_vec(T::copy_all(self.allocator(), self.as_slice())?))
    }
}
