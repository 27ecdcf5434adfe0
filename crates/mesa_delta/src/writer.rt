// Writing a file.
ghost use Rattle.std.specs.Prelude.{◌≡◌, ◌≢◌, ◌<◌, ◌≤◌, ◌+◌, ◌↔◌, ℕ, List, [], ◌∷◌, ◌++◌, length, map, IfOk, OnOk, IfErr, IsTrue, Some};
ghost use Rattle.mesa_disk.specs.mesa_io.Causes.{HasFaultCause, Rose};
ghost use Rattle.std.specs.List.{AllByRecursion};
ghost use Rattle.mesa_delta_format.specs.mesa_value.Agg.{IsAmount};
ghost use Rattle.mesa_delta_format.specs.mesa_columns.declared.rows.Row.{Row as AnyRow};
ghost use Rattle.mesa_delta_format.specs.mesa_columns.Columns.{aggs_of};
ghost use Rattle.mesa_delta_format.specs.mesa_columns.Lent.{lent};
ghost use Rattle.mesa_delta_format.specs.mesa_block.Rows.{IsRow, Rise};
ghost use Rattle.mesa_delta_format.specs.mesa_block.Spelling.{key_of};
ghost use Rattle.mesa_delta.specs.declared.error.WriteError.TheVariants.{Draft as DraftFault};
ghost use Rattle.mesa_delta_format.specs.File.{IsFile};
ghost use Rattle.mesa_delta_format.specs.Summary.{AllCombine, IsReferenceOf, aggregates};
ghost use Rattle.mesa_delta.specs.Writing.{HasTaken, IsNext, columns_of, id_of, draft_of, layout_of};

use crate::WriteError;
use crate::blocks::{BlockWriter, Sealed};
use crate::pending::Pending;
use mesa_delta_format::{BlockBuilder, Tally};
use mesa_disk::{Draft, FileId, FileRef, Made};
use mesa_schema::{Amount, Format, Items, LentRow, Schema, TryCopy};
use std::alloc::{AllocError, Global};
use std::marker::PhantomData;
use std::mem;

/// A file that is being written through a draft: full blocks are appended whole, and one is kept in memory. The bytes of up to four blocks stay until their digests are taken side by side.
///
/// After an `Err` of `push` the writer may only be abandoned.
pub struct DeltaWriter<M, T> {
    pub(crate) id: FileId,
    pub(crate) schema: Schema,
    pub(crate) blocks: BlockWriter<M, T>,
    pub(crate) tally: Tally,
}

impl<M: Made, T: Draft<M>> DeltaWriter<M, T> {
    /// A file of no rows yet, through an empty draft; the reference will have this id.
    pub fn new(
        alloc: Global,
        draft: T,
        id: FileId,
        schema: &Schema,
    ) -> Result<Self, (AllocError, T)>
        requires { (bytes : List ℕ) → T.bytes draft ≡ Some bytes → bytes ≡ [] }
        ensures taken { IfOk result (λ w. HasTaken T.bytes w []) }
        ensures columns { IfOk result (λ w. columns_of w ≡ schema.now) }
        ensures id { IfOk result (λ w. id_of w ≡ id) }
        ensures draft { IfOk result (λ w. draft_of w ≡ draft) }
        ensures given_back { IfErr result (λ e. e.1 ≡ draft) }
    {
        let Ok(copy) = schema.copy() else {
            return Err((AllocError, draft));
        };
        let Ok(builder) = BlockBuilder::new(alloc, Format::Two, schema) else {
            return Err((AllocError, draft));
        };
        let blocks = BlockWriter {
            draft,
            builder,
            entries: Vec::new(alloc),
            pending: Pending::new(alloc),
            offset: 0,
            blocks: 0,
            short: None,
            made: PhantomData,
        };
        Ok(DeltaWriter {
            id,
            schema: copy,
            blocks,
            tally: Tally::new(alloc),
        })
    }

    /// Whether the sums over the rows so far and the row stay in their type.
    pub fn allows(&self, row: LentRow) -> bool
        ensures { (rows : List AnyRow) → HasTaken T.bytes self.now rows
            → IsTrue result ↔ (0 < length rows → AllCombine (aggs_of (columns_of self.now)) (aggregates (aggs_of (columns_of self.now)) rows) row.entry.values.now) }
    {
        self.tally.allows(&self.schema, row)
    }

    /// The rows so far have the columns' form, and their keys rise.
    pub fn held(&self)
        ensures { (rows : List AnyRow) → HasTaken T.bytes self.now rows → AllByRecursion (IsRow (layout_of self.now)) rows × Rise (map key_of rows) }
    {}

    /// One row more.
    pub fn push(&mut self, row: LentRow) -> Result<(), WriteError>
        requires { IsNext T.bytes self.old (lent row) }
        ensures taken { OnOk result ((rows : List AnyRow) → HasTaken T.bytes self.old rows → HasTaken T.bytes self.new (rows ++ lent row.entry ∷ [])) }
        ensures columns { columns_of self.new ≡ columns_of self.old }
        ensures id { id_of self.new ≡ id_of self.old }
        ensures draft { T.id_of (draft_of self.new) ≡ T.id_of (draft_of self.old) }
        ensures cause { HasFaultCause (λ e. e ≡ DraftFault) (T.faults (draft_of self.old)) (T.faults (draft_of self.new)) result }
    {
        are_amounts(row.values);
        self.tally.add(&self.schema, row)?;
        self.blocks.push(&self.schema, row)?;
        Ok(())
    }

    /// The finished file, and the reference that is true of it.
    pub fn finish(self) -> Result<(M, FileRef), (WriteError, T)>
        requires { (rows : List AnyRow) × (0 < length rows) × HasTaken T.bytes self rows }
        ensures file { IfOk result (λ x. (rows : List AnyRow) → HasTaken T.bytes self rows → (bytes : List ℕ) → M.bytes x.0 ≡ Some bytes → IsFile (layout_of self) rows bytes) }
        ensures reference { IfOk result (λ x. (rows : List AnyRow) → HasTaken T.bytes self rows → IsReferenceOf (layout_of self) (id_of self) rows x.1) }
        ensures id { IfOk result (λ x. M.id_of x.0 ≡ T.id_of (draft_of self)) }
        ensures given_back { IfErr result (λ e. T.id_of e.1 ≡ T.id_of (draft_of self)) }
        ensures cause { IfErr result (λ e. (T.faults (draft_of self) ≤ T.faults e.1) × (e.0 ≡ DraftFault → Rose (T.faults (draft_of self)) (T.faults e.1))) }
        ensures quiet { IfErr result (λ e. e.0 ≢ DraftFault → T.faults e.1 ≡ T.faults (draft_of self)) }
    {
        let DeltaWriter {
            mut blocks,
            id,
            schema,
            tally,
        } = self;
        let sealed = match blocks.seal(&schema, tally.rows) {
            Ok(sealed) => sealed,
            Err(error) => return Err((error, blocks.into_draft())),
        };
        let file = reference(id, &sealed, tally);
        match blocks.into_draft().finish() {
            Ok(made) => Ok((made, file)),
            Err((error, draft)) => Err((WriteError::from(error), draft)),
        }
    }

    /// The draft that full blocks are put on.
    pub fn draft(&self) -> &T
        ensures { result.now ≡ draft_of self.now }
    {
        &self.blocks.draft
    }

    /// Puts further blocks on another draft, and gives the one so far. The rows so far are taken where both have the same bytes.
    pub fn replace_draft(&mut self, draft: T) -> T
        ensures taken { (rows : List AnyRow) → HasTaken T.bytes self.old rows → T.bytes draft ≡ T.bytes (draft_of self.old) → HasTaken T.bytes self.new rows }
        ensures columns { columns_of self.new ≡ columns_of self.old }
        ensures id { id_of self.new ≡ id_of self.old }
        ensures draft { draft_of self.new ≡ draft }
        ensures given_back { result ≡ draft_of self.old }
    {
        mem::replace(&mut self.blocks.draft, draft)
    }

    /// The writer over a draft of another type, and the draft so far. The rows so far are taken where both have the same bytes.
    pub fn over<U: Draft<M>>(self, draft: U) -> (DeltaWriter<M, U>, T)
        ensures taken { (rows : List AnyRow) → HasTaken T.bytes self rows → U.bytes draft ≡ T.bytes (draft_of self) → HasTaken U.bytes result.0 rows }
        ensures columns { columns_of result.0 ≡ columns_of self }
        ensures id { id_of result.0 ≡ id_of self }
        ensures draft { draft_of result.0 ≡ draft }
        ensures given_back { result.1 ≡ draft_of self }
    {
        let DeltaWriter {
            id,
            schema,
            blocks,
            tally,
        } = self;
        let (blocks, before) = blocks.over(draft);
        let writer = DeltaWriter {
            id,
            schema,
            blocks,
            tally,
        };
        (writer, before)
    }

    /// The draft as it is.
    pub fn abandon(self) -> T
        ensures { result ≡ draft_of self }
    {
        let DeltaWriter {
            blocks,
            id: _id,
            schema: _schema,
            tally: _tally,
        } = self;
        blocks.into_draft()
    }
}

// What a row has as values are amounts: each that is read is one.
fn are_amounts(values: &[Amount])
    ensures { AllByRecursion IsAmount values.now }
{
    for value in values {
        let _amount = *value;
    }
}

// The reference of a file with these rows.
fn reference(id: FileId, sealed: &Sealed, tally: Tally) -> FileRef
    ensures format { result.format ≡ Format.Two }
    ensures id { result.id ≡ id }
    ensures len { result.len ≡ sealed.now.len }
    ensures rows { result.rows ≡ tally.rows }
    ensures blocks { result.blocks ≡ sealed.now.blocks }
    ensures first { result.first ≡ tally.first.items }
    ensures last { result.last ≡ tally.last.items }
    ensures aggregates { result.aggregates ≡ tally.totals.items }
    ensures digest { result.digest ≡ sealed.now.digest }
{
    FileRef {
        format: Format::Two,
        id,
        len: sealed.len,
        rows: tally.rows,
        blocks: sealed.blocks,
        first: Items::from_vec(tally.first),
        last: Items::from_vec(tally.last),
        aggregates: Items::from_vec(tally.totals),
        digest: sealed.digest,
    }
}
