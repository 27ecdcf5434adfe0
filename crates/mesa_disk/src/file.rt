ghost use Rattle.std.specs.Prelude.{◌≡◌, ◌+◌, ◌^◌, ◌≤◌, min, ℕ, List, length, take, drop, OnOk, Option, Some};
ghost use Rattle.mesa_io.specs.Causes.{last, HasCause};

use crate::{FileId, ReadFailed};

/// A finished file that no image shows yet. One that isn't adopted is dropped.
pub trait Made: Send + Drop {
    /// The number of its draft's id.
    ghost id_of: { Self → ℕ };

    /// Its bytes, where they are told.
    ghost bytes: { Self → Option (List ℕ) };

    /// How many bytes it has.
    ghost size: { Self → ℕ };

    /// The id of its draft.
    fn id(&self) -> FileId
        ensures { result ≡ id_of self.now };

    /// How many bytes it has.
    fn len(&self) -> u64
        ensures { result ≡ size self.now };

    ghost sized: { (m : Self) (b : List ℕ) → bytes m ≡ Some b → length b ≡ size m };
}

/// An adopted file as it is read. Its bytes never change, whatever is removed from the disk.
pub trait FileReader: Send {
    /// Its bytes, where they are told.
    ghost bytes: { Self → Option (List ℕ) };

    /// How many bytes it has.
    ghost size: { Self → ℕ };

    /// How often it has failed.
    ghost faults: { Self → ℕ };

    /// How often it was read.
    ghost reads: { Self → ℕ };

    /// How many bytes the file has.
    fn len(&self) -> u64
        ensures { result ≡ size self.now };

    /// Fills the buffer with the bytes from this place on.
    fn read_at(&mut self, at: u64, buf: &mut [u8]) -> Result<(), ReadFailed>
        requires { at + length buf.old ≤ size self.old }
        ensures read { OnOk result ((b : List ℕ) → bytes self.old ≡ Some b → buf.new ≡ take (length buf.old) (drop at b)) }
        ensures bytes { bytes self.new ≡ bytes self.old }
        ensures size { size self.new ≡ size self.old }
        ensures reads { reads self.new ≡ min (reads self.old + 1) last }
        ensures cause { HasCause (faults self.old) (faults self.new) result };

    ghost sized: { (r : Self) (b : List ℕ) → bytes r ≡ Some b → length b ≡ size r };
}
