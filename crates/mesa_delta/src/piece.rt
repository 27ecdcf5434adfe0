// A piece of a file, read at once.
ghost use Rattle.std.specs.Prelude.{◌≡◌, ◌≢◌, ◌+◌, ◌≤◌, IfErr, OnOk};
ghost use Rattle.sha2.specs.Sha256.{sha256};
ghost use Rattle.mesa_disk.specs.mesa_io.Causes.{HasFaultCause};
ghost use Rattle.mesa_delta_format.specs.mesa_file.declared.damage.Damage.{Damage as AnyDamage};
ghost use Rattle.mesa_delta.specs.declared.error.FileError.TheVariants as file_error;
ghost use Rattle.mesa_delta.specs.Damages.{IsPiece, IsWrongDigest};

use crate::FileError;
use mesa_disk::{Damage, FileId, FileReader, Seen};
use sha2::{Digest, Sha256};

/// Fills the buffer with the bytes from a place on, by one read, in place of what is there.
pub fn read_piece<R: FileReader>(
    reader: &mut R,
    at: u64,
    len: u64,
    bytes: &mut Vec<u8>,
) -> Result<(), FileError>
    requires { at + len ≤ R.size reader.old }
    ensures piece { OnOk result (IsPiece (R.bytes reader.old) at len bytes.new.items) }
    ensures bytes { R.bytes reader.new ≡ R.bytes reader.old }
    ensures size { R.size reader.new ≡ R.size reader.old }
    ensures reads { R.reads reader.new ≤ R.reads reader.old + 1 }
    ensures cause { HasFaultCause (λ e. e ≡ file_error.Read) (R.faults reader.old) (R.faults reader.new) result }
    ensures whole { IfErr result (λ e. (d : AnyDamage) → e ≢ file_error.Damaged d) }
{
    bytes.resize(len as usize, 0)?;
    reader.read_at(at, bytes)?;
    Ok(())
}

/// Refuses a digest that isn't the recorded one.
pub fn check_found(
    file: FileId,
    place: u64,
    digest: &[u8; 32],
    found: [u8; 32],
) -> Result<(), Damage>
    ensures ok { OnOk result (found ≡ digest.now) }
    ensures err { IfErr result (λ d. (d ≡ record { file = file; place = place; want = Seen.Digest digest.now; found = Seen.Digest found }) × (found ≢ digest.now)) }
{
    if found == *digest {
        return Ok(());
    }
    Err(Damage {
        file,
        place,
        want: Seen::Digest(*digest),
        found: Seen::Digest(found),
    })
}

/// Refuses bytes of another digest.
pub fn check_digest(file: FileId, place: u64, digest: &[u8; 32], bytes: &[u8]) -> Result<(), Damage>
    ensures ok { OnOk result (sha256 bytes.now ≡ digest.now) }
    ensures err { IfErr result (λ d. IsWrongDigest file place digest.now bytes.now d) }
{
    check_found(file, place, digest, Sha256::digest(bytes))
}
