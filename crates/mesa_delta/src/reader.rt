// Reading a file.
ghost use Rattle.std.specs.Prelude.{◌≡◌, ◌≢◌, ◌⊎◌, ◌<◌, ◌≤◌, ◌+◌, ◌-◌, ◌^◌, ℕ, List, [], ◌∷◌, ◌++◌, length, map, take, drop, IfOk, OnOk, IfErr, OnErr, IfSome, IfNone, IsTrue, ◌↔◌, get_or, true, Some};
ghost use Rattle.std.specs.Ordering.{is_le};
ghost use Rattle.sha2.specs.Sha256.{sha256};
ghost use Rattle.mesa_disk.specs.mesa_io.Causes.{HasFaultCause, Rose};
ghost use Rattle.mesa_delta_format.specs.mesa_file.declared.damage.Damage.{Damage as AnyDamage};
ghost use Rattle.mesa_delta_format.specs.mesa_key.Order.{byte_cmp, short_key};
ghost use Rattle.mesa_delta_format.specs.mesa_block.Rows.{AreRows};
ghost use Rattle.mesa_delta_format.specs.mesa_block.Spelling.{block};
ghost use Rattle.mesa_delta_format.specs.mesa_fold.Folded.{rows_of};
ghost use Rattle.mesa_delta_format.specs.mesa_columns.declared.rows.Row.{Row as AnyRow};
ghost use Rattle.mesa_delta.specs.declared.error.FileError.TheVariants as file_error;
ghost use Rattle.mesa_delta.specs.Ahead.{AreOfFile};
ghost use Rattle.mesa_delta.specs.Damages.{IsPiece, IsPieceDamage, IsWrongLength};
ghost use Rattle.mesa_delta_format.specs.Indexed.{IsIndexOf, tail_length, tail_place};
ghost use Rattle.mesa_delta_format.specs.File.{IsFile};
ghost use Rattle.mesa_delta_format.specs.Places.{entry_of, shorts_of};
ghost use Rattle.mesa_delta.specs.Reading.{HasRead, IsBlock, IsBlockDamage, IsIndexed, IsNeverNext, IsNoBlock, IsNoTail, IsNoneIn, IsNotNext, IsOver, IsReaderOf, IsRun, IsTailDamage, IsWhole, buffer_of, index_of, piece_of, reader_of};
ghost use Rattle.mesa_delta_format.specs.Seeking.{seek_in};
ghost use Rattle.mesa_delta_format.specs.Spread.{blocks_of};
ghost use Rattle.mesa_delta_format.specs.Summary.{IsReferenceOf};
ghost use Rattle.mesa_delta_format.specs.Tail.{first_key};

use crate::FileError;
use crate::ahead::Ahead;
use crate::digesting::Message;
use crate::piece::{check_digest, check_found, read_piece};
use crate::run::Run;
use mesa_delta_format::{
    Block, BlockError, Index, begins_before, fits_alone, grows_by_rows, read_block, reads_blocks,
};
use mesa_disk::{Damage, FileId, FileReader, FileRef, Seen};
use mesa_schema::{Format, Schema, short};
use sha2::{Digest, Sha256};
use std::alloc::{AllocError, Global};
use std::mem::replace;

/// A file that is read block by block. The tail was read once, and a block is read by one read.
pub struct DeltaReader<R> {
    pub(crate) reader: R,
    pub(crate) index: Index,
    pub(crate) run: Run,
    /// The bytes of the piece that was read last. The buffer stays for the next one.
    pub(crate) bytes: Vec<u8>,
}

// Each exit calls this, in place of letting go of each part itself.
impl<R: Drop> Drop for DeltaReader<R> {
    fn drop(self) {
        let DeltaReader {
            reader: _,
            index: _,
            run: _,
            bytes: _,
        } = self;
    }
}

// How long a file's tail is.
fn tail_len(schema: &Schema, blocks: u32) -> u64
    ensures { result ≡ tail_length schema.now blocks }
{
    let columns = schema.keys().len() + schema.values().len();
    60 * (blocks as u64) + columns as u64 + 22
}

// Refuses a file of another length.
fn check_length<R: FileReader>(reader: &R, file: FileId, len: u64) -> Result<(), Damage>
    ensures ok { OnOk result (R.size reader.now ≡ len) }
    ensures err { IfErr result (λ d. IsWrongLength file len (R.size reader.now) d) }
    ensures told { (b : List ℕ) → R.bytes reader.now ≡ Some b → length b ≡ R.size reader.now }
{
    let found = reader.len();
    if found == len {
        return Ok(());
    }
    Err(Damage {
        file,
        place: 0,
        want: Seen::Length(len),
        found: Seen::Length(found),
    })
}

// The index of a file, by one read of its tail.
fn read_index<R: FileReader>(
    alloc: Global,
    reader: &mut R,
    file: &FileRef,
    schema: &Schema,
    bytes: &mut Vec<u8>,
) -> Result<Index, FileError>
    ensures index { IfOk result (λ x. (bytes : List ℕ) × IsIndexOf file.now (record { format = file.now.format; columns = schema.now }) bytes x × (sha256 bytes ≡ file.now.digest)) }
    ensures over { IfOk result (λ x. (b : List ℕ) → R.bytes reader.old ≡ Some b → IsOver x b) }
    ensures bytes { R.bytes reader.new ≡ R.bytes reader.old }
    ensures size { R.size reader.new ≡ R.size reader.old }
    ensures reads { R.reads reader.new ≤ R.reads reader.old + 1 }
    ensures cause { HasFaultCause (λ e. e ≡ file_error.Read) (R.faults reader.old) (R.faults reader.new) result }
    ensures damaged { IfErr result (λ e. (d : AnyDamage) → e ≡ file_error.Damaged d → IsTailDamage (R.bytes reader.old) (R.size reader.old) (record { format = file.now.format; columns = schema.now }) file.now d) }
{
    fits_alone();
    let _columns = schema.keys();
    if let Err(damage) = check_length(reader, file.id, file.len) {
        return Err(FileError::Damaged(damage));
    }
    let place = file.len.saturating_sub(tail_len(schema, file.blocks));
    read_piece(reader, place, file.len - place, bytes)?;
    if let Err(damage) = check_digest(file.id, place, &file.digest, bytes) {
        return Err(FileError::Damaged(damage));
    }
    match Index::read(alloc, file, schema, bytes)? {
        Some(index) => Ok(index),
        None => Err(FileError::Damaged(Damage::misfit(file.id, place))),
    }
}

// The block that these bytes spell, if it begins with a key of this short key.
fn block_in(
    alloc: Global,
    format: Format,
    schema: &Schema,
    short: &[u8; 16],
    bytes: &[u8],
) -> Result<Option<Block>, AllocError>
    ensures found { IfOk result (λ o. IfSome o (λ rows. AreRows (record { format = format; columns = schema.now }) rows × (block (record { format = format; columns = schema.now }) rows ≡ bytes.now) × (short_key (first_key rows) ≡ short.now))) }
    ensures none { IfOk result (λ o. IfNone o (IsNoneIn (record { format = format; columns = schema.now }) short.now bytes.now)) }
{
    reads_blocks();
    match read_block(alloc, schema, format, bytes) {
        Ok(block) => {
            if begins(&block, short) {
                Ok(Some(block))
            } else {
                Ok(None)
            }
        }
        Err(error) => {
            if error == BlockError::Memory {
                Err(AllocError)
            } else {
                Ok(None)
            }
        }
    }
}

// Whether the first row's key has this short key.
fn begins(rows: &Block, wanted: &[u8; 16]) -> bool
    requires { 0 < length rows.now }
    ensures { IsTrue result ↔ (short_key (first_key rows.now) ≡ wanted.now) }
{
    short(rows.row(0).key) == *wanted
}

// The bytes of a block, by one read.
pub(crate) fn read_block_bytes<R: FileReader>(
    reader: &mut R,
    index: &Index,
    i: u32,
    bytes: &mut Vec<u8>,
) -> Result<(), FileError>
    requires { i < length index.now.entries }
    ensures piece { OnOk result (IsPiece (R.bytes reader.old) (entry_of index.now.entries i).offset (entry_of index.now.entries i).len bytes.new.items) }
    ensures bytes { R.bytes reader.new ≡ R.bytes reader.old }
    ensures size { R.size reader.new ≡ R.size reader.old }
    ensures reads { R.reads reader.new ≤ R.reads reader.old + 1 }
    ensures cause { HasFaultCause (λ e. e ≡ file_error.Read) (R.faults reader.old) (R.faults reader.new) result }
    ensures damaged { IfErr result (λ e. (d : AnyDamage) → e ≡ file_error.Damaged d → IsWrongLength index.now.file index.now.len (R.size reader.old) d) }
{
    let entry = index.entry(i);
    if let Err(damage) = check_length(reader, index.file(), index.len()) {
        return Err(FileError::Damaged(damage));
    }
    read_piece(reader, entry.offset, entry.len as u64, bytes)
}

// The block of these bytes, tested by itself.
fn test<R: FileReader>(
    alloc: Global,
    reader: &R,
    index: &Index,
    i: u32,
    bytes: &[u8],
    digest: &[u8; 32],
) -> Result<Block, FileError>
    requires within { i < length index.now.entries }
    requires piece { IsPiece (R.bytes reader.now) (entry_of index.now.entries i).offset (entry_of index.now.entries i).len bytes.now }
    requires digest { digest.now ≡ sha256 bytes.now }
    ensures block { IfOk result (λ rows. IsBlock index.now i rows) }
    ensures told { IfOk result (λ rows. (b : List ℕ) → R.bytes reader.now ≡ Some b → piece_of index.now i b ≡ block index.now.layout rows) }
    ensures unread { IfErr result (λ e. e ≢ file_error.Read) }
    ensures damaged { IfErr result (λ e. (d : AnyDamage) → e ≡ file_error.Damaged d → IsWrongLength index.now.file index.now.len (R.size reader.now) d
        ⊎ ((R.size reader.now ≡ index.now.len) × IsPieceDamage (R.bytes reader.now) index.now.file (entry_of index.now.entries i).offset (entry_of index.now.entries i).len (entry_of index.now.entries i).digest (IsNoBlock index.now i) d)) }
    ensures sized { OnOk result (R.size reader.now ≡ index.now.len) }
{
    fits_alone();
    let entry = index.entry(i);
    if let Err(damage) = check_length(reader, index.file(), index.len()) {
        return Err(FileError::Damaged(damage));
    }
    if let Err(damage) = check_found(index.file(), entry.offset, &entry.digest, *digest) {
        return Err(FileError::Damaged(damage));
    }
    match block_in(alloc, index.format(), index.schema(), &entry.short, bytes)? {
        Some(block) => Ok(block),
        None => Err(FileError::Damaged(Damage::misfit(index.file(), entry.offset))),
    }
}

/// The block of these bytes by itself, if it is the one that the index tells.
pub(crate) fn tested(
    index: &Index,
    i: u32,
    bytes: &[u8],
    digest: &[u8; 32],
) -> Result<Option<Block>, AllocError>
    requires within { i < length index.now.entries }
    requires digest { digest.now ≡ sha256 bytes.now }
    ensures block { IfOk result (λ o. IfSome o (λ rows. IsBlock index.now i rows)) }
    ensures spelled { IfOk result (λ o. IfSome o (λ rows. block index.now.layout rows ≡ bytes.now)) }
{
    fits_alone();
    let entry = index.entry(i);
    if bytes.len() != entry.len as usize {
        return Ok(None);
    }
    if entry.digest != *digest {
        return Ok(None);
    }
    let (format, schema) = (index.format(), index.schema());
    block_in(index.allocator(), format, schema, &entry.short, bytes)
}

// What is kept of the blocks that were read, with one more.
fn go_on(index: &Index, run: &Run, rows: &Block) -> Result<Run, FileError>
    requires some { 0 < length rows.now }
    requires place { run.now.next < length index.now.entries }
    ensures more { IfOk result (λ after. (parts : List (List AnyRow)) → IsRun index.now.layout run.now parts → IsBlock index.now run.now.next rows.now → IsRun index.now.layout after (parts ++ rows.now ∷ [])) }
    ensures counted { IfOk result (λ after. after.next ≡ length index.now.entries → after.rows ≡ index.now.rows) }
    ensures next { IfOk result (λ after. after.next ≡ run.now.next + 1) }
    ensures err { IfErr result (λ e. (d : AnyDamage) → e ≡ file_error.Damaged d
        → d ≡ record { file = index.now.file; place = (entry_of index.now.entries run.now.next).offset; want = Seen.Fits; found = Seen.Misfit 0 }) }
    ensures never { IfErr result (λ e. (d : AnyDamage) → e ≡ file_error.Damaged d → IsNeverNext index.now run.now rows.now) }
    ensures cause { IfErr result (λ e. e ≢ file_error.Read) }
{
    fits_alone();
    grows_by_rows();
    let entry = index.entry(run.next);
    if !run.allows(index.format(), index.schema(), rows.row(0)) {
        return Err(FileError::Damaged(Damage::misfit(index.file(), entry.offset)));
    }
    let after = run.after(rows, entry.len)?;
    if after.next == index.blocks() {
        if after.rows != index.rows() {
            return Err(FileError::Damaged(Damage::misfit(index.file(), entry.offset)));
        }
    }
    Ok(after)
}

impl<R: FileReader> DeltaReader<R> {
    /// Reads the tail of a file of this reference, whose rows have these columns.
    pub fn attach(
        alloc: Global,
        mut reader: R,
        file: &FileRef,
        schema: &Schema,
    ) -> Result<Self, (FileError, R)>
        // The index is what the tail tells.
        ensures index { IfOk result (λ r. (bytes : List ℕ) × IsIndexOf file.now (record { format = file.now.format; columns = schema.now }) bytes (index_of r) × (sha256 bytes ≡ file.now.digest)) }
        ensures over { IfOk result (λ r. IsReaderOf R.bytes (reader_of r) (index_of r)) }
        ensures read { IfOk result (λ r. HasRead R.bytes r []) }

        // It is one read.
        ensures reads { IfOk result (λ r. R.reads (reader_of r) ≤ R.reads reader + 1) }
        ensures bytes { IfOk result (λ r. R.bytes (reader_of r) ≡ R.bytes reader) }
        ensures size { IfOk result (λ r. R.size (reader_of r) ≡ R.size reader) }
        ensures faults { IfOk result (λ r. R.faults reader ≤ R.faults (reader_of r)) }
        ensures given_back { IfErr result (λ e. (R.bytes e.1 ≡ R.bytes reader) × (R.size e.1 ≡ R.size reader) × (R.reads e.1 ≤ R.reads reader + 1)) }

        // Read comes where the count of faults rose, and Damaged where the file isn't the recorded one.
        ensures cause { IfErr result (λ e. (R.faults reader ≤ R.faults e.1) × (e.0 ≡ file_error.Read → Rose (R.faults reader) (R.faults e.1))) }
        ensures quiet { IfOk result (λ r. R.faults (reader_of r) ≡ R.faults reader) }
        ensures other { IfErr result (λ e. e.0 ≢ file_error.Read → R.faults e.1 ≡ R.faults reader) }
        ensures damaged { IfErr result (λ e. (d : AnyDamage) → e.0 ≡ file_error.Damaged d → IsTailDamage (R.bytes reader) (R.size reader) (record { format = file.now.format; columns = schema.now }) file.now d) }
        ensures accepts { IfErr result (λ e. (d : AnyDamage) → e.0 ≡ file_error.Damaged d → (b : List ℕ) (rows : List AnyRow) → R.bytes reader ≡ Some b → IsFile (record { format = file.now.format; columns = schema.now }) rows b
            → IsReferenceOf (record { format = file.now.format; columns = schema.now }) file.now.id rows file.now → ⊥) }
    {
        told_sizes(&reader);
        told_length(file);
        fits_alone();
        let _columns = schema.keys();
        let mut bytes = Vec::new(alloc);
        match read_index(alloc, &mut reader, file, schema, &mut bytes) {
            Ok(index) => Ok(DeltaReader {
                reader,
                index,
                run: Run::start(alloc),
                bytes,
            }),
            Err(error) => Err((error, reader)),
        }
    }

    /// What is known of the file.
    pub fn index(&self) -> &Index
        ensures { result.now ≡ index_of self.now }
    {
        &self.index
    }

    /// How many blocks the file has.
    pub fn blocks(&self) -> u32
        ensures { result ≡ length (index_of self.now).entries }
    {
        self.index.blocks()
    }

    /// Reads a block, by one read.
    ///
    /// Blocks that are read one after the other from the first on are tested against those before: their keys
    /// rise, no block but the last has room for the next one's first row, and their rows are as many as the
    /// tail says. Any other block is tested by itself.
    pub fn block(&mut self, i: u32) -> Result<Block, FileError>
        requires { i < length (index_of self.old).entries }

        // The block is the one that the entry tells, read from the bytes at its place.
        ensures block { IfOk result (λ rows. IsBlock (index_of self.old) i rows) }
        ensures told { IfOk result (λ rows. (b : List ℕ) → R.bytes (reader_of self.old) ≡ Some b → piece_of (index_of self.old) i b ≡ block (index_of self.old).layout rows) }

        // What was written is read again.
        ensures again { IfOk result (λ rows. (b : List ℕ) (all : List AnyRow) → R.bytes (reader_of self.old) ≡ Some b → IsIndexed (index_of self.old) all b
            → rows ≡ get_or (blocks_of (index_of self.old).layout all) i []) }

        // Which blocks were read one after the other from the first on.
        ensures first { IfOk result (λ rows. i ≡ 0 → HasRead R.bytes self.new (rows ∷ [])) }
        ensures next { IfOk result (λ rows. (parts : List (List AnyRow)) → HasRead R.bytes self.old parts → i ≡ length parts → HasRead R.bytes self.new (parts ++ rows ∷ [])) }
        ensures other { OnOk result ((parts : List (List AnyRow)) → HasRead R.bytes self.old parts → 0 < i → i ≢ length parts → HasRead R.bytes self.new parts) }

        // Once all were, they are those of a file.
        ensures whole { OnOk result ((parts : List (List AnyRow)) → HasRead R.bytes self.new parts → length parts ≡ length (index_of self.new).entries
            → IsReaderOf R.bytes (reader_of self.new) (index_of self.new) → IsWhole (index_of self.new) (rows_of parts) (R.bytes (reader_of self.new))) }
        ensures index { index_of self.new ≡ index_of self.old }
        ensures bytes { R.bytes (reader_of self.new) ≡ R.bytes (reader_of self.old) }
        ensures size { R.size (reader_of self.new) ≡ R.size (reader_of self.old) }
        ensures reads { R.reads (reader_of self.new) ≤ R.reads (reader_of self.old) + 1 }
        ensures err { OnErr result (self.new ≡ record self.old { reader = reader_of self.new; bytes = buffer_of self.new }) }

        // Read comes where the count of faults rose, and Damaged where the file isn't the recorded one.
        ensures cause { HasFaultCause (λ e. e ≡ file_error.Read) (R.faults (reader_of self.old)) (R.faults (reader_of self.new)) result }
        ensures damaged { IfErr result (λ e. (d : AnyDamage) → e ≡ file_error.Damaged d → (parts : List (List AnyRow)) → HasRead R.bytes self.old parts → IsBlockDamage (R.bytes (reader_of self.old)) (R.size (reader_of self.old)) (index_of self.old) i parts d) }
        ensures accepts { IfErr result (λ e. (d : AnyDamage) → e ≡ file_error.Damaged d → (parts : List (List AnyRow)) → HasRead R.bytes self.old parts
            → (b : List ℕ) (all : List AnyRow) → R.bytes (reader_of self.old) ≡ Some b → IsIndexed (index_of self.old) all b → ⊥) }
    {
        let alloc = self.index.allocator();
        let mut bytes = replace(&mut self.bytes, Vec::new(alloc));
        if let Err(error) = read_block_bytes(&mut self.reader, &self.index, i, &mut bytes) {
            self.bytes = bytes;
            return Err(error);
        }
        let digest = Sha256::digest(bytes.as_slice());
        let block = self.accept(i, &bytes, &digest);
        self.bytes = bytes;
        block
    }

    /// A block as `block` gives it, from what was read ahead if it is the first that waits, else by one read.
    pub fn take_block(&mut self, i: u32, file: usize, ahead: &mut Ahead) -> Result<Block, FileError>
        requires within { i < length (index_of self.old).entries }
        requires ahead { AreOfFile (R.bytes (reader_of self.old)) (index_of self.old) file ahead.old }
        ensures taken { (ahead.new ≡ ahead.old) ⊎ (ahead.new ≡ drop 1 ahead.old) }

        // The block is the one that the entry tells, read from the bytes at its place.
        ensures block { IfOk result (λ rows. IsBlock (index_of self.old) i rows) }
        ensures told { IfOk result (λ rows. (b : List ℕ) → R.bytes (reader_of self.old) ≡ Some b → piece_of (index_of self.old) i b ≡ block (index_of self.old).layout rows) }

        // What was written is read again.
        ensures again { IfOk result (λ rows. (b : List ℕ) (all : List AnyRow) → R.bytes (reader_of self.old) ≡ Some b → IsIndexed (index_of self.old) all b
            → rows ≡ get_or (blocks_of (index_of self.old).layout all) i []) }

        // Which blocks were read one after the other from the first on.
        ensures first { IfOk result (λ rows. i ≡ 0 → HasRead R.bytes self.new (rows ∷ [])) }
        ensures next { IfOk result (λ rows. (parts : List (List AnyRow)) → HasRead R.bytes self.old parts → i ≡ length parts → HasRead R.bytes self.new (parts ++ rows ∷ [])) }
        ensures other { OnOk result ((parts : List (List AnyRow)) → HasRead R.bytes self.old parts → 0 < i → i ≢ length parts → HasRead R.bytes self.new parts) }

        // Once all were, they are those of a file.
        ensures whole { OnOk result ((parts : List (List AnyRow)) → HasRead R.bytes self.new parts → length parts ≡ length (index_of self.new).entries
            → IsReaderOf R.bytes (reader_of self.new) (index_of self.new) → IsWhole (index_of self.new) (rows_of parts) (R.bytes (reader_of self.new))) }
        ensures index { index_of self.new ≡ index_of self.old }
        ensures bytes { R.bytes (reader_of self.new) ≡ R.bytes (reader_of self.old) }
        ensures size { R.size (reader_of self.new) ≡ R.size (reader_of self.old) }
        ensures reads { R.reads (reader_of self.new) ≤ R.reads (reader_of self.old) + 1 }
        ensures err { OnErr result (self.new ≡ record self.old { reader = reader_of self.new; bytes = buffer_of self.new }) }

        // Read comes where the count of faults rose, and Damaged where the file isn't the recorded one.
        ensures cause { HasFaultCause (λ e. e ≡ file_error.Read) (R.faults (reader_of self.old)) (R.faults (reader_of self.new)) result }
        ensures damaged { IfErr result (λ e. (d : AnyDamage) → e ≡ file_error.Damaged d → (parts : List (List AnyRow)) → HasRead R.bytes self.old parts → IsBlockDamage (R.bytes (reader_of self.old)) (R.size (reader_of self.old)) (index_of self.old) i parts d) }
        ensures accepts { IfErr result (λ e. (d : AnyDamage) → e ≡ file_error.Damaged d → (parts : List (List AnyRow)) → HasRead R.bytes self.old parts
            → (b : List ℕ) (all : List AnyRow) → R.bytes (reader_of self.old) ≡ Some b → IsIndexed (index_of self.old) all b → ⊥) }
    {
        let taken = match ahead.first(file, i) {
            Some(block) => self.accept(i, block.bytes(), &block.digest()),
            None => return self.block(i),
        };
        ahead.step();
        taken
    }

    // Tests a block of these bytes and of this digest, by itself and behind those that were read.
    fn accept(&mut self, i: u32, bytes: &[u8], digest: &[u8; 32]) -> Result<Block, FileError>
        requires within { i < length (index_of self.old).entries }
        requires piece { IsPiece (R.bytes (reader_of self.old)) (entry_of (index_of self.old).entries i).offset (entry_of (index_of self.old).entries i).len bytes.now }
        requires digest { digest.now ≡ sha256 bytes.now }
        ensures block { IfOk result (λ rows. IsBlock (index_of self.old) i rows) }
        ensures told { IfOk result (λ rows. (b : List ℕ) → R.bytes (reader_of self.old) ≡ Some b → piece_of (index_of self.old) i b ≡ block (index_of self.old).layout rows) }
        ensures again { IfOk result (λ rows. (b : List ℕ) (all : List AnyRow) → R.bytes (reader_of self.old) ≡ Some b → IsIndexed (index_of self.old) all b
            → rows ≡ get_or (blocks_of (index_of self.old).layout all) i []) }
        ensures first { IfOk result (λ rows. i ≡ 0 → HasRead R.bytes self.new (rows ∷ [])) }
        ensures next { IfOk result (λ rows. (parts : List (List AnyRow)) → HasRead R.bytes self.old parts → i ≡ length parts → HasRead R.bytes self.new (parts ++ rows ∷ [])) }
        ensures other { OnOk result ((parts : List (List AnyRow)) → HasRead R.bytes self.old parts → 0 < i → i ≢ length parts → HasRead R.bytes self.new parts) }
        ensures whole { OnOk result ((parts : List (List AnyRow)) → HasRead R.bytes self.new parts → length parts ≡ length (index_of self.new).entries
            → IsReaderOf R.bytes (reader_of self.new) (index_of self.new) → IsWhole (index_of self.new) (rows_of parts) (R.bytes (reader_of self.new))) }
        ensures damaged { IfErr result (λ e. (d : AnyDamage) → e ≡ file_error.Damaged d → (parts : List (List AnyRow)) → HasRead R.bytes self.old parts → IsBlockDamage (R.bytes (reader_of self.old)) (R.size (reader_of self.old)) (index_of self.old) i parts d) }
        ensures accepts { IfErr result (λ e. (d : AnyDamage) → e ≡ file_error.Damaged d → (parts : List (List AnyRow)) → HasRead R.bytes self.old parts
            → (b : List ℕ) (all : List AnyRow) → R.bytes (reader_of self.old) ≡ Some b → IsIndexed (index_of self.old) all b → ⊥) }
        ensures reader { reader_of self.new ≡ reader_of self.old }
        ensures index { index_of self.new ≡ index_of self.old }
        ensures buffer { buffer_of self.new ≡ buffer_of self.old }
        ensures err { OnErr result (self.new ≡ self.old) }
        ensures unread { IfErr result (λ e. e ≢ file_error.Read) }
    {
        told_sizes(&self.reader);
        fits_alone();
        grows_by_rows();
        reads_blocks();
        let _blocks = self.index.blocks();
        let alloc = self.index.allocator();
        let block = match test(alloc, &self.reader, &self.index, i, bytes, digest) {
            Ok(block) => block,
            Err(error) => return Err(error),
        };
        if i == 0 {
            let start = Run::start(alloc);
            match go_on(&self.index, &start, &block) {
                Ok(run) => self.run = run,
                Err(error) => return Err(error),
            }
            return Ok(block);
        }
        if i == self.run.next {
            match go_on(&self.index, &self.run, &block) {
                Ok(run) => self.run = run,
                Err(error) => return Err(error),
            }
            return Ok(block);
        }
        Ok(block)
    }

    /// The block at which to begin to look for a key: the least that is the last one, or whose next begins
    /// with a short key at least this key's. It takes no memory.
    pub fn seek(&self, key: &[u8]) -> u32
        ensures seek { result ≡ seek_in (short_key key.now) (shorts_of (index_of self.now).entries) }
        ensures begins { (rows : List AnyRow) (bytes : List ℕ) → IsIndexed (index_of self.now) rows bytes → (before : List (List AnyRow)) (front : List AnyRow) (row : AnyRow) (back : List AnyRow) (behind : List (List AnyRow))
            → blocks_of (index_of self.now).layout rows ≡ before ++ (front ++ row ∷ back) ∷ behind → is_le (byte_cmp key.now row.key) ≡ true → result ≤ length before }
    {
        fits_alone();
        begins_before();
        let _blocks = self.index.blocks();
        self.index.seek(key)
    }

    /// The reader as it is.
    pub fn detach(self) -> R
        ensures { result ≡ reader_of self }
    {
        self.part().0
    }

    /// The reader, and what is known of the file. It takes no memory.
    pub fn part(self) -> (R, Index)
        ensures reader { result.0 ≡ reader_of self }
        ensures index { result.1 ≡ index_of self }
    {
        let DeltaReader {
            reader,
            index,
            run: _run,
            bytes: _bytes,
        } = self;
        (reader, index)
    }

    /// A reader of the file of this index, of which no block was read yet. It takes no memory.
    pub fn whole(reader: R, index: Index) -> Self
        requires { IsReaderOf R.bytes reader index }
        ensures reader { reader_of result ≡ reader }
        ensures index { index_of result ≡ index }
        ensures read { HasRead R.bytes result [] }
    {
        let alloc = index.allocator();
        let _blocks = index.blocks();
        DeltaReader {
            reader,
            index,
            run: Run::start(alloc),
            bytes: Vec::new(alloc),
        }
    }
}

// What a reader tells is as long as it says.
fn told_sizes<R: FileReader>(reader: &R)
    ensures { (b : List ℕ) → R.bytes reader.now ≡ Some b → length b ≡ R.size reader.now }
{}

// A recorded length is a number of 64 bits.
fn told_length(file: &FileRef)
    ensures { file.now.len < 2 ^ 64 }
{
    let _len = file.len;
}
