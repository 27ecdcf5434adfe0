ghost use Rattle.std.specs.Prelude.{◌≡◌};
ghost use Rattle.mesa_file.specs.declared.damage.Seen.TheVariants as seen;

use crate::FileId;

/// A place in a file where what was recorded isn't what is there.
#[derive(Clone, Copy, Debug, PartialEq, Eq)]
pub struct Damage {
    pub file: FileId,
    /// Counted in bytes from the file's start; 0 for a wrong or absent length.
    pub place: u64,
    pub want: Seen,
    pub found: Seen,
}

/// What a file was to have at a place, or what it has there.
#[derive(Clone, Copy, Debug, PartialEq, Eq)]
pub enum Seen {
    /// This many bytes.
    Length(u64),
    /// Bytes of this SHA-256.
    Digest([u8; 32]),
    /// No such file.
    Absent,
    /// Bytes of the right grammar.
    Fits,
    /// Bytes that leave the grammar at this place, counted from the start of what was read.
    Misfit(u64),
}

impl Damage {
    /// Bytes at a place that leave the grammar, though they are the recorded ones.
    pub fn misfit(file: FileId, place: u64) -> Self
        ensures { result ≡ record { file = file; place = place; want = seen.Fits; found = seen.Misfit 0 } }
    {
        Damage {
            file,
            place,
            want: Seen::Fits,
            found: Seen::Misfit(0),
        }
    }
}
