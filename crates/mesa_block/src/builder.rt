// A block that is filled row by row.
ghost use Rattle.std.specs.Prelude.{◌≡◌, ℕ, ◌<◌, [], ◌∷◌, ◌++◌, IfOk, OnErr, OnOk, length, map};
ghost use Rattle.mesa_columns.specs.Lent.{lent};
ghost use Rattle.mesa_block.specs.Spelling.{block, key_of};
ghost use Rattle.mesa_block.specs.Rows.{AreRows, IsRow, Rise};
ghost use Rattle.mesa_block.specs.Fill.{after, fit};

use crate::layout::{row_size, widths};
use crate::writing::{kinds, put_head, put_keys, put_values};
use crate::{Width, is_full};
use mesa_columns::{Amount, Format, KeyType, LentRow, Schema, reads_back};
use mesa_list::{Fields, TryCopy};
use std::alloc::{AllocError, Global};
use std::marker::Model;
use std::mem::swap;

/// How many bytes stand before a block's columns.
const HEAD: usize = 3;

/// A block that is being filled. It holds the rows, and spells them when the block is taken.
///
/// The keys stand one behind the other in one buffer, and so do the values, row by row. The buffers stay for the next block.
pub struct BlockBuilder {
    alloc: Global,
    format: Format,
    schema: Schema,
    kinds: Vec<KeyType>,
    widths: Vec<Width>,
    // How many bytes a row's values take.
    size: usize,
    keys: Fields,
    values: Vec<Amount>,
    len: usize,
    cells: Vec<u8>,
    // Where a block is spelled, so that the caller's buffer stays as it is until the whole block stands.
    spelled: Vec<u8>,
}

impl Model for BlockBuilder {
    ghost use Rattle.std.specs.Prelude.{length};
    ghost use Rattle.mesa_block.specs.Fill.{Built, IsHeld, rows_over};

    ghost Value = { Built };

    ghost view = { λ b. record { layout = record { format = b.format; columns = b.schema }; rows = rows_over (length b.schema.values) b.keys b.values.items } };

    ghost invariant = { λ b. IsHeld (record { format = b.format; columns = b.schema }) b.kinds.items b.widths.items b.size b.keys b.values.items b.len };
}

// Each exit calls this, in place of letting go of each part itself.
impl Drop for BlockBuilder {
    fn drop(self) {
        let BlockBuilder {
            alloc: _,
            format: _,
            schema: _,
            kinds: _,
            widths: _,
            size: _,
            keys: _,
            values: _,
            len: _,
            cells: _,
            spelled: _,
        } = self;
    }
}

impl BlockBuilder {
    /// An empty block of the format for rows of the schema.
    pub fn new(alloc: Global, format: Format, schema: &Schema) -> Result<Self, AllocError>
        ensures { IfOk result (λ b. b ≡ record { layout = record { format = format; columns = schema.now }; rows = [] }) }
    {
        Ok(BlockBuilder {
            alloc,
            format,
            schema: schema.copy()?,
            kinds: kinds(alloc, schema)?,
            widths: widths(alloc, format, schema)?,
            size: row_size(format, schema),
            keys: Fields::new(alloc),
            values: Vec::new(alloc),
            len: HEAD,
            cells: Vec::new(alloc),
            spelled: Vec::new(alloc),
        })
    }

    /// Whether the row fits, and then the row is in the block.
    pub fn push(&mut self, row: LentRow) -> Result<bool, AllocError>
        requires form { IsRow self.old.layout (lent row) }
        requires greater { Rise (map key_of (self.old.rows ++ lent row ∷ [])) }
        ensures fits { IfOk result (λ b. b ≡ fit self.old.layout (self.old.rows ++ lent row.entry ∷ [])) }
        ensures ok { IfOk result (λ b. self.new ≡ after b self.old (lent row.entry)) }
        ensures err { OnErr result (self.new ≡ self.old) }
    {
        reads_back();
        let rows = self.keys.len();
        if is_full(self.size, rows, self.len, row) {
            return Ok(false);
        }
        self.keys.push(row.key)?;
        if let Err(error) = self.values.extend_from_slice(row.values) {
            self.keys.truncate(rows);
            return Err(error);
        }
        self.len += row.key.len() + self.size;
        Ok(true)
    }

    /// Gives the bytes of the block in place of what is in the buffer, and the next block is empty. The buffers are exchanged: what was in the caller's is written over by the next block.
    pub fn take(&mut self, out: &mut Vec<u8>) -> Result<(), AllocError>
        requires { 0 < length self.old.rows }
        ensures spelled { OnOk result (out.new.items ≡ block self.old.layout self.old.rows) }
        ensures rows { OnOk result (AreRows self.old.layout self.old.rows) }
        ensures empty { OnOk result (self.new ≡ record self.old { rows = [] }) }
        ensures err { OnErr result (self.new ≡ self.old) }
        ensures refused { OnErr result (out.new.items ≡ out.old.items) }
    {
        reads_back();
        self.spelled.clear();
        put_head(&mut self.spelled, self.keys.len())?;
        put_keys(
            self.alloc,
            &mut self.spelled,
            &mut self.cells,
            &self.kinds,
            &self.keys,
        )?;
        put_values(&mut self.spelled, &self.values, &self.widths)?;
        swap(out, &mut self.spelled);
        self.clear();
        Ok(())
    }

    /// Takes the rows out of the block.
    pub fn clear(&mut self)
        ensures { self.new ≡ record self.old { rows = [] } }
    {
        self.keys.truncate(0);
        self.values.clear();
        self.len = HEAD;
    }
}
