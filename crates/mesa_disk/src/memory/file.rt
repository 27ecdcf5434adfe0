//! Files in memory.
ghost use Rattle.std.specs.Prelude.{◌≡◌, ◌↔◌, ◌+◌, ◌≤◌, min, ℕ, List, [], Some, length, take, drop, IsErr, OnOk};
ghost use Rattle.mesa_io.specs.Causes.{last, HasCause};
ghost use Rattle.mesa_disk.specs.MemoryLaws.{same_size};

use crate::memory::held::SharedBytes;
use crate::{FileId, FileReader, Made, ReadFailed};
use mesa_io::FaultCount;

/// A finished file in memory.
#[derive(Drop)]
pub struct MemMade {
    pub(crate) id: FileId,
    pub(crate) bytes: SharedBytes,
}

impl Made for MemMade {
    ghost use Rattle.mesa_disk.specs.MemFiles.{made_bytes, made_id};

    ghost id_of = { made_id };

    ghost bytes = { λ m. Some (made_bytes m) };

    ghost size = { λ m. length (made_bytes m) };

    ghost sized = { λ m b is. same_size (made_bytes m) b is };

    fn id(&self) -> FileId {
        self.id
    }

    fn len(&self) -> u64 {
        self.bytes.len() as u64
    }
}

/// A reader of a file in memory. The read that was named to `spoil_read`, counted from 0, fails.
#[derive(Drop)]
pub struct MemReader {
    pub(crate) bytes: SharedBytes,
    pub(crate) fails: Option<u64>,
    pub(crate) reads: u64,
    pub(crate) faults: FaultCount,
}

impl FileReader for MemReader {
    ghost use Rattle.mesa_disk.specs.MemFiles.{failing_read, reader_bytes, reader_faults, reader_reads};

    ghost bytes = { λ r. Some (reader_bytes r) };

    ghost size = { λ r. length (reader_bytes r) };

    ghost faults = { reader_faults };

    ghost reads = { reader_reads };

    ghost sized = { λ r b is. same_size (reader_bytes r) b is };

    fn len(&self) -> u64 {
        self.bytes.len() as u64
    }

    fn read_at(&mut self, at: u64, buf: &mut [u8]) -> Result<(), ReadFailed>
        requires { at + length buf.old ≤ length (reader_bytes self.old) }
        ensures read { OnOk result ((b : List ℕ) → Some (reader_bytes self.old) ≡ Some b → buf.new ≡ take (length buf.old) (drop at b)) }
        ensures bytes { Some (reader_bytes self.new) ≡ Some (reader_bytes self.old) }
        ensures size { length (reader_bytes self.new) ≡ length (reader_bytes self.old) }
        ensures reads { reader_reads self.new ≡ min (reader_reads self.old + 1) last }
        ensures cause { HasCause (reader_faults self.old) (reader_faults self.new) result }
        ensures due { IsErr result ↔ (failing_read self.old ≡ Some (reader_reads self.old)) }
        ensures same { failing_read self.new ≡ failing_read self.old }
    {
        let number = self.reads;
        self.reads = number.saturating_add(1);
        if self.fails == Some(number) {
            self.faults.rise();
            return Err(ReadFailed);
        }
        let at = at as usize;
        buf.copy_from_slice(&self.bytes.as_slice()[at..at + buf.len()]);
        Ok(())
    }
}
