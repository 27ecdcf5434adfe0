// A file among those that are merged, scanned or queried.
use crate::DeltaReader;
use mesa_schema::Evolving;
use std::sync::Arc;

/// A file that is read, and the table or view whose rows it has.
///
/// The rows have the columns of this epoch, and are lifted to the present ones. A view's file has the view's
/// columns alone, and epoch 0.
#[derive(Drop)]
pub struct Input<R> {
    pub reader: DeltaReader<R>,
    pub evolving: Arc<Evolving>,
    pub epoch: u32,
}
