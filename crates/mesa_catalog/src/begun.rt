use crate::Catalog;
use mesa_disk::Area;

/// A store that was opened, and whose run has begun.
#[derive(Drop)]
pub struct Begun<D> {
    pub disk: D,
    pub catalog: Catalog,
    /// The number of the run.
    pub run: u32,
    /// The journal's area, and where its next body goes.
    pub area: Area,
    pub end: u64,
    /// The disk's clock when the opening began.
    pub since: u64,
}
