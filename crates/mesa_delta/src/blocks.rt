// Blocks that are written through a draft.
ghost use Rattle.std.specs.Prelude.{◌≡◌, IsTrue, ◌<◌, ◌≤◌, ◌^◌, ℕ, List, [], ◌∷◌, ◌++◌, length, map, IfOk, OnOk, IfErr, None};
ghost use Rattle.mesa_disk.specs.mesa_io.Causes.{HasFaultCause};
ghost use Rattle.mesa_delta_format.specs.mesa_columns.Lent.{lent};
ghost use Rattle.mesa_delta_format.specs.mesa_block.Layout.{Layout};
ghost use Rattle.mesa_delta_format.specs.mesa_block.Fill.{after, fit};
ghost use Rattle.mesa_delta_format.specs.mesa_block.Rows.{IsRow, Rise};
ghost use Rattle.mesa_delta_format.specs.mesa_block.Spelling.{key_of};
ghost use Rattle.mesa_delta.specs.declared.error.WriteError.TheVariants.{Draft as DraftFault};
ghost use Rattle.mesa_delta.specs.Begun.{begun};
ghost use Rattle.mesa_delta.specs.Laying.{IsSealed, Lays};
ghost use Rattle.mesa_delta_format.specs.Spread.{Filling, with_more};

use crate::WriteError;
use crate::pending::Pending;
use mesa_delta_format::{BlockBuilder, fits_alone, put_foot};
use mesa_disk::{Draft, Made};
use mesa_schema::{Format, LentRow, Schema, short};
use sha2::{Digest, Sha256};
use std::alloc::AllocError;
use std::marker::PhantomData;

/// What is known of a file once its tail is written.
#[derive(Drop)]
pub struct Sealed {
    pub len: u64,
    pub blocks: u32,
    pub digest: [u8; 32],
}

/// The blocks of a file: the full ones are on the draft, and the open one is in memory.
pub struct BlockWriter<M, T> {
    pub draft: T,
    pub builder: BlockBuilder,
    /// The entries of the full blocks, as the tail has them, but for those that are pending.
    pub entries: Vec<u8>,
    /// The last of the full blocks, whose digests are still to be taken.
    pub pending: Pending,
    /// The length of the full blocks.
    pub offset: u64,
    /// How many are full.
    pub blocks: u32,
    /// The short key of the open block's first row, once there is one.
    pub short: Option<[u8; 16]>,
    pub made: PhantomData<M>,
}

impl<M: Made, T: Draft<M>> BlockWriter<M, T> {
    /// One row more, in the open block where it fits there, else in the next one.
    pub fn push(&mut self, schema: &Schema, row: LentRow) -> Result<(), WriteError>
        requires columns { self.old.builder.layout ≡ record { format = Format.Two; columns = schema.now } }
        requires form { IsRow (record { format = Format.Two; columns = schema.now }) (lent row) }
        requires greater { Rise (map key_of (self.old.builder.rows ++ lent row ∷ [])) }
        requires short { self.old.short ≡ begun self.old.builder.rows }
        ensures laid { OnOk result ((f : Filling) → Lays T.bytes (record { format = Format.Two; columns = schema.now }) self.old f → Lays T.bytes (record { format = Format.Two; columns = schema.now }) self.new (with_more (record { format = Format.Two; columns = schema.now }) f (lent row.entry))) }
        ensures id { T.id_of self.new.draft ≡ T.id_of self.old.draft }
        ensures cause { HasFaultCause (λ e. e ≡ DraftFault) (T.faults self.old.draft) (T.faults self.new.draft) result }
    {
        fits_alone();
        let _columns = schema.keys();
        if self.offer(row)? {
            return Ok(());
        }
        self.close()?;
        self.offer(row)?;
        Ok(())
    }

    /// The same blocks with another draft, and the draft so far.
    pub fn over<U: Draft<M>>(self, draft: U) -> (BlockWriter<M, U>, T)
        ensures laid { (s : Layout) (f : Filling) → Lays T.bytes s self f → U.bytes draft ≡ T.bytes self.draft → Lays U.bytes s result.0 f }
        ensures draft { result.0.draft ≡ draft }
        ensures given_back { result.1 ≡ self.draft }
    {
        let BlockWriter {
            draft: before,
            builder,
            entries,
            pending,
            offset,
            blocks,
            short,
            made,
        } = self;
        let writer = BlockWriter {
            draft,
            builder,
            entries,
            pending,
            offset,
            blocks,
            short,
            made,
        };
        (writer, before)
    }

    /// The draft as it is.
    pub fn into_draft(self) -> T
        ensures { result ≡ self.draft }
    {
        let BlockWriter {
            draft,
            builder: _builder,
            entries: _entries,
            pending: _pending,
            offset: _offset,
            blocks: _blocks,
            short: _short,
            made: _made,
        } = self;
        draft
    }

    // Whether the row fits in the open block, and then it is there.
    fn offer(&mut self, row: LentRow) -> Result<bool, AllocError>
        requires form { IsRow self.old.builder.layout (lent row) }
        requires greater { Rise (map key_of (self.old.builder.rows ++ lent row ∷ [])) }
        requires short { self.old.short ≡ begun self.old.builder.rows }
        ensures fits { IfOk result (λ b. b ≡ fit self.old.builder.layout (self.old.builder.rows ++ lent row.entry ∷ [])) }
        ensures ok { IfOk result (λ b. self.new.builder ≡ after b self.old.builder (lent row.entry)) }
        ensures short { OnOk result (self.new.short ≡ begun self.new.builder.rows) }
        ensures same { self.new ≡ record self.old { builder = self.new.builder; short = self.new.short } }
    {
        let fits = self.builder.push(row)?;
        if fits && self.short.is_none() {
            self.short = Some(short(row.key));
        }
        Ok(fits)
    }

    /// Puts the open block on the draft at once, so that a draft that fails is met here, and the next one is empty. The block's entry waits for its digest.
    pub fn close(&mut self) -> Result<(), WriteError>
        requires some { 0 < length self.old.builder.rows }
        requires short { self.old.short ≡ begun self.old.builder.rows }
        ensures laid { OnOk result ((s : Layout) (f : Filling) → Lays T.bytes s self.old f → Lays T.bytes s self.new (record { done = f.done ++ f.last ∷ []; last = [] })) }
        ensures empty { OnOk result (self.new.builder ≡ record self.old.builder { rows = [] }) }
        ensures short { OnOk result (self.new.short ≡ None) }
        ensures id { T.id_of self.new.draft ≡ T.id_of self.old.draft }
        ensures cause { HasFaultCause (λ e. e ≡ DraftFault) (T.faults self.old.draft) (T.faults self.new.draft) result }
    {
        let Some(short) = self.short else {
            return Err(WriteError::Memory);
        };
        self.pending.make_room(&mut self.entries)?;
        self.pending.push(&mut self.builder, short, self.offset)?;
        let bytes = self.pending.last();
        let Some(offset) = self.offset.checked_add(bytes.len() as u64) else {
            return Err(WriteError::Memory);
        };
        let Some(blocks) = self.blocks.checked_add(1) else {
            return Err(WriteError::Memory);
        };
        self.draft.append(bytes)?;
        self.offset = offset;
        self.blocks = blocks;
        self.short = None;
        Ok(())
    }

    /// Puts the open block and the tail on the draft.
    pub fn seal(&mut self, schema: &Schema, rows: u64) -> Result<Sealed, WriteError>
        requires some { 0 < length self.old.builder.rows }
        requires short { self.old.short ≡ begun self.old.builder.rows }
        ensures sealed { IfOk result (λ x. (f : Filling) → Lays T.bytes (record { format = Format.Two; columns = schema.now }) self.old f → IsSealed T.bytes (record { format = Format.Two; columns = schema.now }) self.new.draft rows (f.done ++ f.last ∷ []) x) }
        ensures id { T.id_of self.new.draft ≡ T.id_of self.old.draft }
        ensures cause { HasFaultCause (λ e. e ≡ DraftFault) (T.faults self.old.draft) (T.faults self.new.draft) result }
    {
        self.close()?;
        self.pending.put_entries(&mut self.entries)?;
        put_foot(&mut self.entries, Format::Two, schema, rows, self.blocks)?;
        let Some(len) = self.offset.checked_add(self.entries.len() as u64) else {
            return Err(WriteError::Memory);
        };
        self.draft.append(&self.entries)?;
        let digest = Sha256::digest(self.entries.as_slice());
        Ok(Sealed {
            len,
            blocks: self.blocks,
            digest,
        })
    }
}
