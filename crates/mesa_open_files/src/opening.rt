// Opening the files of a turn.
ghost use Rattle.std.specs.Prelude.{◌≡◌, ℕ, List, [], IfOk, IfErr};
ghost use Rattle.std.specs.List.{AllByRecursion};
ghost use Rattle.sha2.specs.Sha256.{sha256};
ghost use Rattle.mesa_file.specs.declared.damage.Damage.{Damage as AnyDamage};
ghost use Rattle.mesa_disk.specs.Story.{Unmoved};
ghost use Rattle.mesa_scan.specs.mesa_delta_format.Indexed.{IsIndexOf};
ghost use Rattle.mesa_delta.specs.Reading.{HasRead, IsReaderOf, index_of, reader_of};
ghost use Rattle.mesa_scan.specs.mesa_delta_format.Summary.{file_layout};
ghost use Rattle.mesa_delta.specs.declared.error.FileError.TheVariants as file_error;
ghost use Rattle.mesa_open_files.specs.Opening.{Counted, HasBytes, HasEpoch, HasMet, HaveOpened, IsDamageOf, IsUntold, is_fault_in, is_fault_met, is_read_fault, wanted_columns};

use crate::{DeltaDisk, retire_all};
use mesa_delta::{DeltaReader, FileError, Input};
use mesa_disk::{FileReader, Made, OpenFault};
use mesa_file::{Damage, FileRef, Seen};
use mesa_schema::{Evolving, Schema};
use std::alloc::{AllocError, Global};
use std::sync::Arc;

/// A file that is to be opened: its reference, the table or view whose rows it has, and their epoch.
#[derive(Drop)]
pub struct Wanted<'a> {
    pub file: &'a FileRef,
    pub evolving: &'a Arc<Evolving>,
    pub epoch: u32,
}

/// What was met where a file was opened.
pub enum Met<R> {
    Input(Input<R>),
    /// The file is absent, or its length or its tail isn't the recorded one.
    Damaged(Damage),
    /// The disk or the reader failed, and the disk has counted it.
    Fault,
    Memory,
}

/// The files that were opened, up to the first that isn't the recorded one.
pub struct Opened<R> {
    pub inputs: Vec<Input<R>>,
    pub damage: Option<Damage>,
}

/// Why no file is open.
#[derive(Clone, Copy, Debug, PartialEq, Eq)]
pub enum Unopened {
    /// The disk or a reader failed, and the disk has counted it.
    Fault,
    Memory,
}

/// Opens a file, and reads its tail where its index isn't kept.
pub fn open_one<M: Made, D: DeltaDisk<M>>(
    alloc: Global,
    disk: &mut D,
    wanted: &Wanted,
) -> Met<D::Reader>
    requires { HasEpoch wanted.now }
    ensures unmoved { Unmoved (D.story disk.old) (D.story disk.new) }
    ensures counted { Counted (D.story disk.old) (D.story disk.new) (is_fault_met result) }
    ensures met { HasMet D.Reader.bytes D.Reader.faults (D.story disk.old).told wanted.now result }
{
    let Ok((evolving, schema)) = shared(wanted) else {
        return Met::Memory;
    };
    match attach(alloc, disk, wanted.file, &schema) {
        Ok(reader) => Met::Input(Input {
            reader,
            evolving,
            epoch: wanted.epoch,
        }),
        Err(FileError::Damaged(damage)) => Met::Damaged(damage),
        Err(FileError::Read) => Met::Fault,
        Err(FileError::Memory) => Met::Memory,
    }
}

// The table or view of a wanted file, shared, and its columns in the file's epoch.
fn shared(wanted: &Wanted) -> Result<(Arc<Evolving>, Schema), AllocError>
    requires { HasEpoch wanted.now }
    ensures evolving { IfOk result (λ x. x.0.value ≡ wanted.now.evolving.now.value) }
    ensures schema { IfOk result (λ x. x.1 ≡ wanted_columns wanted.now) }
{
    let schema = wanted.evolving.schema_at(wanted.epoch)?;
    Ok((wanted.evolving.clone()?, schema))
}

// The reader of a file with these columns. Its tail is read where its index isn't kept, and where the file isn't as long
// as the reference says, so that a wrong length is told at each opening. A fault is counted, be it the disk's or the reader's.
fn attach<M: Made, D: DeltaDisk<M>>(
    alloc: Global,
    disk: &mut D,
    file: &FileRef,
    schema: &Schema,
) -> Result<DeltaReader<D::Reader>, FileError>
    ensures unmoved { Unmoved (D.story disk.old) (D.story disk.new) }
    ensures counted { Counted (D.story disk.old) (D.story disk.new) (is_read_fault result) }
    ensures index { IfOk result (λ r. (tail : List ℕ) × IsIndexOf file.now (file_layout schema.now file.now) tail (index_of r) × (sha256 tail ≡ file.now.digest)) }
    ensures over { IfOk result (λ r. IsReaderOf D.Reader.bytes (reader_of r) (index_of r)) }
    ensures read { IfOk result (λ r. HasRead D.Reader.bytes r []) }
    ensures bytes { IfOk result (λ r. HasBytes D.Reader.bytes (D.story disk.old).told file.now.id (reader_of r)) }
    ensures untold { IfOk result (λ r. IsUntold D.Reader.bytes (D.story disk.old).told (reader_of r)) }
    ensures fresh { IfOk result (λ r. D.Reader.faults (reader_of r) ≡ 0) }
    ensures damaged { IfErr result (λ e. (d : AnyDamage) → e ≡ file_error.Damaged d → IsDamageOf (D.story disk.old).told schema.now file.now d) }
{
    let reader = match disk.reader(file.id) {
        Ok(reader) => reader,
        Err(OpenFault::Failed) => return Err(FileError::Read),
        Err(OpenFault::Memory) => return Err(FileError::Memory),
        Err(OpenFault::Absent) => return Err(FileError::Damaged(absence(file))),
    };
    if reader.len() == file.len {
        if let Some(index) = disk.find_index(file, schema) {
            return Ok(DeltaReader::whole(reader, index));
        }
    }
    match DeltaReader::attach(alloc, reader, file, schema) {
        Ok(opened) => {
            disk.keep_index(opened.index(), &file.digest);
            Ok(opened)
        }
        Err((error, reader)) => {
            disk.retire(reader);
            Err(error)
        }
    }
}

// The damage of a file that isn't there.
fn absence(file: &FileRef) -> Damage
    ensures { result ≡ record { file = file.now.id; place = 0; want = Seen.Length file.now.len; found = Seen.Absent } }
{
    Damage {
        file: file.id,
        place: 0,
        want: Seen::Length(file.len),
        found: Seen::Absent,
    }
}

/// Opens files in order. Where a call fails or memory is wanting, those that were opened are given back. The first file
/// that isn't the recorded one ends the opening, and its damage is told beside those before it.
pub fn open_all<M: Made, D: DeltaDisk<M>>(
    alloc: Global,
    disk: &mut D,
    wanted: &[Wanted],
) -> Result<Opened<D::Reader>, Unopened>
    requires { AllByRecursion HasEpoch wanted.now }
    ensures unmoved { Unmoved (D.story disk.old) (D.story disk.new) }
    ensures counted { Counted (D.story disk.old) (D.story disk.new) (is_fault_in result) }
    ensures opened { IfOk result (λ o. HaveOpened D.Reader.bytes D.Reader.faults (D.story disk.old).told wanted.now o.inputs.items o.damage) }
{
    let Ok(mut inputs) = Vec::with_capacity(alloc, wanted.len()) else {
        return Err(Unopened::Memory);
    };
    'files: for one in wanted {
        match open_one(alloc, disk, one) {
            Met::Input(input) => inputs.push_reserved(input),
            Met::Damaged(damage) => {
                return Ok(Opened {
                    inputs,
                    damage: Some(damage),
                });
            }
            Met::Fault => {
                retire_all(disk, inputs);
                return Err(Unopened::Fault);
            }
            Met::Memory => {
                retire_all(disk, inputs);
                return Err(Unopened::Memory);
            }
        }
    }
    Ok(Opened {
        inputs,
        damage: None,
    })
}
