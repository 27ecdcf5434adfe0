// The deltas of a table that are no singletons, by the versions at which they end.
ghost use Rattle.std.specs.Prelude.{◌≡◌, ◌≤◌, ◌^◌};

use mesa_list::{Items, TryCopy};
use std::alloc::AllocError;

/// A range of versions, from its first to its last.
pub type Span = (u32, u32);

/// The deltas of a table: a base from version 0, cumulatives that all start behind it, and one
/// delta for each version behind it.
#[derive(Drop)]
pub struct Ranges {
    /// The base's last version, or none where there is no base.
    pub base_to: Option<u32>,
    /// The cumulatives' last versions, rising.
    pub cumulatives: Items<u32>,
}

impl TryCopy for Ranges {
    fn copy(&self) -> Result<Self, AllocError> {
        Ok(Ranges {
            base_to: self.base_to,
            cumulatives: self.cumulatives.copy()?,
        })
    }
}

impl Ranges {
    ghost use Rattle.mesa_span.specs.Ranges.{start_of};

    /// The first version behind the base.
    pub(crate) fn start(&self) -> u64
        ensures start { result ≡ start_of self.now }
        ensures bound { result ≤ 2 ^ 32 }
    {
        match self.base_to {
            None => 0,
            Some(to) => to as u64 + 1,
        }
    }
}
