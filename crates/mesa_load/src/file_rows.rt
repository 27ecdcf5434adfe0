// The rows of one file.
ghost use Rattle.std.specs.Prelude.{◌≡◌, ◌<◌, Some, length, slice_get};
ghost use Rattle.mesa_open_files.specs.mesa_columns.Lent.{lent};
ghost use Rattle.mesa_load.specs.Filing.{file_rows};

use mesa_batch::Batch;
use mesa_schema::{LentRow, Row};

/// The rows of one file: a table's of a batch, or those of a list. They are lent one by one.
#[derive(Clone, Copy)]
pub(crate) enum FileRows<'a> {
    Batched { batch: &'a Batch, table: u16 },
    Listed(&'a [Row]),
}

impl<'a> FileRows<'a> {
    /// How many there are.
    pub(crate) fn len(&self) -> usize
        ensures { result ≡ length (file_rows self.now) }
    {
        match self {
            FileRows::Batched { batch, table } => batch.count(*table),
            FileRows::Listed(rows) => rows.len(),
        }
    }

    /// The row at a place, counted from 0.
    pub(crate) fn row(&self, place: usize) -> LentRow<'a>
        requires { place < length (file_rows self.now) }
        ensures { slice_get (file_rows self.now) place ≡ Some (lent result) }
    {
        match *self {
            FileRows::Batched { batch, table } => batch.row(table, place),
            FileRows::Listed(rows) => match rows.get(place) {
                Some(row) => row.lend(),
                None => unreachable!(),
            },
        }
    }
}
