// What is answered of a comparison.
ghost use Rattle.std.specs.Prelude.{◌≡◌};
ghost use Rattle.mesa_compare.specs.Compared.{answer_of};

use mesa_examine::{CheckError, FileError};
use mesa_schema::KeyBytes;

/// The answer to a comparison: no difference is asked of a file that isn't the recorded one.
pub(crate) fn answer(
    compared: Result<Option<KeyBytes>, FileError>,
) -> Result<Option<KeyBytes>, CheckError>
    ensures { result ≡ answer_of compared }
{
    match compared {
        Ok(difference) => Ok(difference),
        Err(FileError::Damaged(_)) => Ok(None),
        Err(FileError::Read) => Err(CheckError::Read),
        Err(FileError::Memory) => Err(CheckError::Memory),
    }
}
