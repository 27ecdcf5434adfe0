use mesa_catalog::Catalog;
use mesa_disk::Area;

/// A store that was read.
#[derive(Drop)]
pub struct Opened<D> {
    pub disk: D,
    pub catalog: Catalog,
    /// The number of the last run, 0 for none.
    pub last_run: u32,
    /// The journal's live area, the number of the checkpoint that is its first body, 0 without one, and where it ends.
    pub area: Area,
    pub number: u32,
    pub end: u64,
    /// Whether the other area holds a body.
    pub holds: bool,
    /// The disk's clock at the call of `read`.
    pub since: u64,
}

// The live area of a journal, and whether the other one holds a body.
#[derive(Clone, Copy)]
pub(crate) struct LiveArea {
    pub(crate) area: Area,
    pub(crate) number: u32,
    pub(crate) end: u64,
    pub(crate) holds: bool,
}
