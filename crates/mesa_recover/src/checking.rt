// Whether files are as they are recorded.
ghost use Rattle.std.specs.Prelude.{◌≡◌, ◌⊎◌, ℕ, List, length, drop, OnOk, IfErr, Some};
ghost use Rattle.std.specs.List.{AllByRecursion};
ghost use Rattle.sha2.specs.Sha256.{sha256};
ghost use Rattle.mesa_store.specs.mesa_io.Causes.{HasFaultCause};
ghost use Rattle.mesa_store_spec.specs.mesa_file.declared.damage.Damage.{Damage as AnyDamage};
ghost use Rattle.mesa_disk.specs.Image.{Image, file_of};
ghost use Rattle.mesa_disk.specs.Story.{Unmoved};
ghost use Rattle.mesa_delta.specs.Damages.{IsWrongLength, IsWrongDigest};
ghost use Rattle.mesa_recover.specs.declared.error.OpenError.TheVariants as open_error;
ghost use Rattle.mesa_recover.specs.Damages.{IsAsRecorded, IsFileDamage, IsFirstDamage};
ghost use Rattle.mesa_recover.specs.Checking.{HasSound, Counts, IsOfFiles};

use crate::{OpenError, Recorded};
use mesa_disk::{Damage, Disk, FileReader, Made, OpenFault, Seen};
use sha2::{Digest, Sha256};
use std::alloc::Global;

/// Tests each file in order, and ends at the first that isn't as it is recorded.
pub fn check_files<M: Made, D: Disk<M>>(
    alloc: Global,
    disk: &mut D,
    files: &[Recorded],
) -> Result<(), OpenError>
    ensures good { OnOk result ((i : Image) → (D.story disk.old).told ≡ Some i → AllByRecursion (IsAsRecorded i) files.now) }
    ensures damaged { IfErr result (λ e. (d : AnyDamage) → e ≡ open_error.File d → (i : Image) → (D.story disk.old).told ≡ Some i → IsFirstDamage i files.now d) }
    ensures kind { IfErr result IsOfFiles }
    ensures unmoved { Unmoved (D.story disk.old) (D.story disk.new) }
    ensures counts { Counts (D.story disk.old) (D.story disk.new) result }
{
    let mut tail = Vec::new(alloc);
    for file in files {
        check_file(disk, file, &mut tail)?;
    }
    Ok(())
}

// Tests a file: whether it is there, its length, and the digest of its tail.
fn check_file<M: Made, D: Disk<M>>(
    disk: &mut D,
    file: &Recorded,
    tail: &mut Vec<u8>,
) -> Result<(), OpenError>
    ensures good { OnOk result ((i : Image) → (D.story disk.old).told ≡ Some i → IsAsRecorded i file.now) }
    ensures damaged { IfErr result (λ e. (d : AnyDamage) → e ≡ open_error.File d → (i : Image) → (D.story disk.old).told ≡ Some i → IsFileDamage (file_of i file.now.id) file.now d) }
    ensures kind { IfErr result IsOfFiles }
    ensures unmoved { Unmoved (D.story disk.old) (D.story disk.new) }
    ensures counts { Counts (D.story disk.old) (D.story disk.new) result }
{
    let mut reader = match disk.reader(file.id) {
        Ok(reader) => reader,
        Err(OpenFault::Failed) => return Err(OpenError::Fault),
        Err(OpenFault::Memory) => return Err(OpenError::Memory),
        Err(OpenFault::Absent) => return Err(OpenError::File(absent(file))),
    };
    let checked = check_bytes(&mut reader, file, tail);
    disk.retire(reader);
    checked
}

// Tests the length of a file that was opened, and the digest of its tail.
fn check_bytes<R: FileReader>(
    reader: &mut R,
    file: &Recorded,
    tail: &mut Vec<u8>,
) -> Result<(), OpenError>
    ensures good { OnOk result ((b : List ℕ) → R.bytes reader.old ≡ Some b → HasSound b file.now) }
    ensures damaged { IfErr result (λ e. (d : AnyDamage) → e ≡ open_error.File d → (b : List ℕ) → R.bytes reader.old ≡ Some b → IsFileDamage (Some b) file.now d) }
    ensures cause { HasFaultCause (λ e. e ≡ open_error.Fault) (R.faults reader.old) (R.faults reader.new) result }
    ensures kind { IfErr result IsOfFiles }
{
    check_length(reader, file)?;
    read_tail(reader, file, tail)?;
    check_digest(file, tail)?;
    Ok(())
}

// Refuses a file of another length.
fn check_length<R: FileReader>(reader: &R, file: &Recorded) -> Result<(), Damage>
    ensures ok { OnOk result (R.size reader.now ≡ file.now.len) }
    ensures err { IfErr result (λ d. IsWrongLength file.now.id file.now.len (R.size reader.now) d) }
    ensures told { (b : List ℕ) → R.bytes reader.now ≡ Some b → length b ≡ R.size reader.now }
{
    let found = reader.len();
    if found == file.len {
        return Ok(());
    }
    Err(damage(file, 0, Seen::Length(file.len), Seen::Length(found)))
}

// Fills the buffer with the tail of a file of the recorded length, by one read.
fn read_tail<R: FileReader>(
    reader: &mut R,
    file: &Recorded,
    tail: &mut Vec<u8>,
) -> Result<(), OpenError>
    requires { R.size reader.old ≡ file.now.len }
    ensures read { OnOk result ((b : List ℕ) → R.bytes reader.old ≡ Some b → length b ≡ file.now.len → tail.new.items ≡ drop file.now.tail b) }
    ensures bytes { R.bytes reader.new ≡ R.bytes reader.old }
    ensures whole { IfErr result (λ e. (e ≡ open_error.Fault) ⊎ (e ≡ open_error.Memory)) }
    ensures cause { HasFaultCause (λ e. e ≡ open_error.Fault) (R.faults reader.old) (R.faults reader.new) result }
{
    let place = file.tail.min(file.len);
    tail.resize((file.len - place) as usize, 0)?;
    reader.read_at(place, tail)?;
    Ok(())
}

// Refuses a tail of another digest.
fn check_digest(file: &Recorded, tail: &[u8]) -> Result<(), Damage>
    ensures ok { OnOk result (sha256 tail.now ≡ file.now.digest) }
    ensures err { IfErr result (λ d. IsWrongDigest file.now.id file.now.tail file.now.digest tail.now d) }
{
    let found = Sha256::digest(tail);
    if found == file.digest {
        return Ok(());
    }
    Err(damage(
        file,
        file.tail,
        Seen::Digest(file.digest),
        Seen::Digest(found),
    ))
}

// No such file is there.
fn absent(file: &Recorded) -> Damage
    ensures { result ≡ record { file = file.now.id; place = 0; want = Seen.Length file.now.len; found = Seen.Absent } }
{
    damage(file, 0, Seen::Length(file.len), Seen::Absent)
}

fn damage(file: &Recorded, place: u64, want: Seen, found: Seen) -> Damage
    ensures { result ≡ record { file = file.now.id; place = place; want = want; found = found } }
{
    Damage {
        file: file.id,
        place,
        want,
        found,
    }
}
