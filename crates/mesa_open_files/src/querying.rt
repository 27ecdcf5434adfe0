// A query with the files that answer it.
use mesa_delta::Input;
use mesa_filter::Query;

/// A query whose files are open: a copy of what the catalogue named when its turn came.
#[derive(Drop)]
pub struct Pinned<R> {
    pub query: Query,
    /// The version that answers.
    pub version: u32,
    /// The number of the view that is queried; none for a table.
    pub view: Option<u8>,
    /// The position of the turn that opened it: its reply is printed under it, whenever it comes.
    pub at: u64,
    /// In version order.
    pub inputs: Vec<PinnedInput<R>>,
}

/// A file that answers a query.
#[derive(Drop)]
pub struct PinnedInput<R> {
    pub input: Input<R>,
    /// Whether the file is the queried relation's own. Else it is its table's, and the view's rows are derived from it.
    pub own: bool,
}
