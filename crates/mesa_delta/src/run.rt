// Blocks that are read one after the other, from the first on.
ghost use Rattle.std.specs.Prelude.{◌≡◌, ◌<◌, ◌+◌, [], length, IfOk};
ghost use Rattle.mesa_delta_format.specs.mesa_columns.Lent.{lent};
ghost use Rattle.mesa_delta.specs.NextBlock.{goes_on};
ghost use Rattle.mesa_delta_format.specs.Summary.{last_key};

use mesa_delta_format::{Block, is_full, rises, row_size};
use mesa_schema::{Format, Items, KeyBytes, LentRow, Schema};
use std::alloc::{AllocError, Global};

/// What is kept of the blocks that were read one after the other, so that the next one can be tested against them.
#[derive(Drop)]
pub struct Run {
    /// How many blocks.
    pub next: u32,
    /// How many rows they have.
    pub rows: u64,
    /// The key of the last row.
    pub last: KeyBytes,
    /// How many rows the last block has.
    pub count: usize,
    /// How many bytes the last block has.
    pub len: u32,
}

impl Run {
    /// Of no blocks.
    pub fn start(alloc: Global) -> Self
        ensures next { result.next ≡ 0 }
        ensures rows { result.rows ≡ 0 }
        ensures last { result.last ≡ [] }
        ensures count { result.count ≡ 0 }
    {
        Run {
            next: 0,
            rows: 0,
            last: Items::new(alloc),
            count: 0,
            len: 0,
        }
    }

    /// Whether a block that begins with this row may come next.
    pub fn allows(&self, format: Format, schema: &Schema, row: LentRow) -> bool
        ensures { result ≡ goes_on (record { format = format; columns = schema.now }) self.now (lent row.entry) }
    {
        if self.next == 0 {
            return true;
        }
        rises(self.last.as_slice(), row.key)
            && is_full(row_size(format, schema), self.count, self.len as usize, row)
    }

    /// With a block of these rows more, of this many bytes. More rows than can be counted are answered as want of memory.
    pub fn after(&self, rows: &Block, len: u32) -> Result<Run, AllocError>
        requires some { 0 < length rows.now }
        ensures next { IfOk result (λ run. run.next ≡ self.now.next + 1) }
        ensures rows { IfOk result (λ run. run.rows ≡ self.now.rows + length rows.now) }
        ensures last { IfOk result (λ run. run.last ≡ last_key rows.now) }
        ensures count { IfOk result (λ run. run.count ≡ length rows.now) }
        ensures len { IfOk result (λ run. run.len ≡ len) }
    {
        let Some(next) = self.next.checked_add(1) else {
            return Err(AllocError);
        };
        let Some(sum) = self.rows.checked_add(rows.len() as u64) else {
            return Err(AllocError);
        };
        Ok(Run {
            next,
            rows: sum,
            last: Items::from_bytes(self.last.allocator(), rows.row(rows.len() - 1).key)?,
            count: rows.len(),
            len,
        })
    }
}
