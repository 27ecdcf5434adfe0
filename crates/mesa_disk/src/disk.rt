ghost use Rattle.std.specs.Prelude.{◌≡◌, ◌↔◌, ◌+◌, ◌^◌, ◌<◌, ◌≤◌, max, ℕ, List, length, take, drop, IfOk, IfErr, OnOk, OnErr, None, Some};
ghost use Rattle.std.specs.FinMap.{keys};
ghost use Rattle.mesa_disk.specs.declared.area.Area.{Area};
ghost use Rattle.mesa_disk.specs.declared.failures.OpenFault.TheVariants.{Failed as OpenFailed, Absent};
ghost use Rattle.mesa_disk.specs.declared.failures.ListFault.TheVariants.{Failed as ListFailed};
ghost use Rattle.mesa_disk.specs.Image.{Image, area_of, file_of, Overwrites, Tears, Adopts, Loses, May};
ghost use Rattle.mesa_disk.specs.Story.{Story, Steps, Follows, Elapses, Unmoved};
ghost use Rattle.mesa_io.specs.Causes.{last, Rose, HasCause, HasFaultCause};

use crate::{Area, DiskFailed, FileId, FileReader, ListFault, Made, OpenFault};
use std::alloc::Global;

/// What a store may assume of a disk.
///
/// It has two journal areas, which are never cut, and adopted files, which are there whole or not at all.
/// Its clock rises in each `journal_write`, `journal_sync`, `adopt` and `remove`, whatever they answer,
/// and in no other call; no other call changes an area, a file or what a crash may leave.
/// A disk may tell its bytes or not. One that doesn't still has lengths, a clock and counts.
pub trait Disk<M: Made>: Send {
    type Reader: FileReader;

    /// What is known of it: what a read gives, what a crash may leave, its clock and its counts.
    ghost story: { Self → Story };

    /// The clock of device calls. At its type's last value it stays.
    fn clock(&self) -> u64
        ensures { result ≡ (story self.now).moment };

    /// How many bytes an area has.
    fn journal_len(&self, area: Area) -> u64
        ensures { result ≡ (story self.now).len area };

    /// Fills the buffer with an area's bytes from this place on.
    fn journal_read(&mut self, area: Area, at: u64, buf: &mut [u8]) -> Result<(), DiskFailed>
        requires { at + length buf.old ≤ (story self.old).len area }
        ensures read { OnOk result ((i : Image) → (story self.old).told ≡ Some i → buf.new ≡ take (length buf.old) (drop at (area_of area i))) }
        ensures unmoved { Unmoved (story self.old) (story self.new) }
        ensures cause { HasCause (story self.old).faults (story self.new).faults result }
        ensures read_cause { (story self.new).read_faults ≡ (story self.old).read_faults };

    /// Writes over an area's bytes from this place on, or past its end. Until a sync succeeds, a crash
    /// may leave any bytes in that range, and its part past the old end may be missing; so may a read
    /// after an `Err`.
    fn journal_write(&mut self, area: Area, at: u64, bytes: &[u8]) -> Result<(), DiskFailed>
        requires { at ≤ (story self.old).len area }
        ensures written { OnOk result (Steps (Overwrites area at bytes.now) (story self.old).told (story self.new).told) }
        ensures torn { Steps (Tears area at (length bytes.now)) (story self.old).told (story self.new).told }
        ensures crash { Follows (Tears area at (length bytes.now)) (story self.old).may_leave (story self.new).may_leave }

        ensures len { OnOk result ((story self.new).len area ≡ max ((story self.old).len area) (at + length bytes.now)) }
        ensures fits { OnOk result (at + length bytes.now < 2 ^ 64) }
        ensures longer { (story self.old).len area ≤ (story self.new).len area }
        ensures other { (a : Area) → (a ≡ area → ⊥) → (story self.new).len a ≡ (story self.old).len a }

        ensures time { Elapses (story self.new).may_leave (story self.old) (story self.new) }
        ensures clock { Rose (story self.old).moment (story self.new).moment }
        ensures cause { HasCause (story self.old).faults (story self.new).faults result }
        ensures read_cause { (story self.new).read_faults ≡ (story self.old).read_faults };

    /// After it a crash leaves what a read gives. After an `Err` a crash leaves nothing that it couldn't
    /// leave before.
    fn journal_sync(&mut self) -> Result<(), DiskFailed>
        ensures durable { OnOk result ((c : Image) → (story self.new).may_leave c → (story self.new).told ≡ Some c) }
        ensures told { (story self.new).told ≡ (story self.old).told }
        ensures crash { (c : Image) → (story self.new).may_leave c → (story self.old).may_leave c }

        ensures len { (a : Area) → (story self.new).len a ≡ (story self.old).len a }
        ensures time { Elapses (story self.new).may_leave (story self.old) (story self.new) }
        ensures clock { Rose (story self.old).moment (story self.new).moment }
        ensures cause { HasCause (story self.old).faults (story self.new).faults result }
        ensures read_cause { (story self.new).read_faults ≡ (story self.old).read_faults };

    /// Puts a finished file on the disk under this id, whatever its draft's was. After Ok a read finds it.
    /// After Ok or Err a crash may leave it whole or absent, until a sync succeeds.
    fn adopt(&mut self, made: M, id: FileId) -> Result<(), DiskFailed>
        requires { (i : Image) → (story self.old).told ≡ Some i → file_of i id ≡ None }
        ensures adopted { OnOk result (Steps (Adopts (id, M.bytes made)) (story self.old).told (story self.new).told) }
        ensures whole { Steps (May Adopts (id, M.bytes made)) (story self.old).told (story self.new).told }
        ensures crash { Follows (May Adopts (id, M.bytes made)) (story self.old).may_leave (story self.new).may_leave }

        ensures len { (a : Area) → (story self.new).len a ≡ (story self.old).len a }
        ensures time { Elapses (story self.new).may_leave (story self.old) (story self.new) }
        ensures clock { Rose (story self.old).moment (story self.new).moment }
        ensures cause { HasCause (story self.old).faults (story self.new).faults result }
        ensures read_cause { (story self.new).read_faults ≡ (story self.old).read_faults };

    /// Takes a file from the disk, if it is there. After Ok or Err a crash may leave the file or not.
    fn remove(&mut self, id: FileId) -> Result<(), DiskFailed>
        ensures removed { OnOk result (Steps (Loses id) (story self.old).told (story self.new).told) }
        ensures whole { Steps (May Loses id) (story self.old).told (story self.new).told }
        ensures crash { Follows (May Loses id) (story self.old).may_leave (story self.new).may_leave }

        ensures len { (a : Area) → (story self.new).len a ≡ (story self.old).len a }
        ensures time { Elapses (story self.new).may_leave (story self.old) (story self.new) }
        ensures clock { Rose (story self.old).moment (story self.new).moment }
        ensures cause { HasCause (story self.old).faults (story self.new).faults result }
        ensures read_cause { (story self.new).read_faults ≡ (story self.old).read_faults };

    /// Opens an adopted file.
    fn reader(&mut self, id: FileId) -> Result<Self::Reader, OpenFault>
        ensures opened { IfOk result (λ r. (i : Image) → (story self.old).told ≡ Some i
            → (b : List ℕ) × (file_of i id ≡ Some b) × (Self.Reader.bytes r ≡ Some b)) }
        ensures untold { IfOk result (λ r. (story self.old).told ≡ None → Self.Reader.bytes r ≡ None) }
        ensures fresh { IfOk result (λ r. Self.Reader.faults r ≡ 0) }
        ensures absent { IfErr result (λ e. e ≡ Absent → (i : Image) → (story self.old).told ≡ Some i → file_of i id ≡ None) }
        ensures unmoved { Unmoved (story self.old) (story self.new) }
        ensures cause { HasFaultCause (λ e. e ≡ OpenFailed) (story self.old).faults (story self.new).faults result }
        ensures read_cause { (story self.new).read_faults ≡ (story self.old).read_faults };

    /// Takes a reader back. Where it has failed, and only there, the count of read faults rises.
    fn retire(&mut self, reader: Self::Reader)
        ensures unmoved { Unmoved (story self.old) (story self.new) }
        ensures counted { 0 < Self.Reader.faults reader → Rose (story self.old).read_faults (story self.new).read_faults }
        ensures quiet { Self.Reader.faults reader ≡ 0 → (story self.new).read_faults ≡ (story self.old).read_faults }
        ensures later { (story self.old).read_faults ≤ (story self.new).read_faults }
        ensures cause { (story self.new).faults ≡ (story self.old).faults };

    /// The ids of all adopted files, rising.
    fn file_ids(&mut self) -> Result<Vec<FileId>, ListFault>
        ensures listed { IfOk result (λ ids. (i : Image) → (story self.old).told ≡ Some i → ids.items ≡ keys i.files) }
        ensures unmoved { Unmoved (story self.old) (story self.new) }
        ensures cause { HasFaultCause (λ e. e ≡ ListFailed) (story self.old).faults (story self.new).faults result }
        ensures read_cause { (story self.new).read_faults ≡ (story self.old).read_faults };

    /// What a read gives is one of the images.
    ghost read_is_left: { (d : Self) (i : Image) → (story d).told ≡ Some i → (story d).may_leave i };

    /// An area's length is a number of 64 bits.
    ghost bounded: { (d : Self) (a : Area) → (story d).len a < 2 ^ 64 };

    /// So is the clock.
    ghost clock_bounded: { (d : Self) → (story d).moment ≤ last };

    /// The length of an area is that of its bytes, where they are told.
    ghost lengths: { (d : Self) (i : Image) (a : Area) → (story d).told ≡ Some i → length (area_of a i) ≡ (story d).len a };

    /// This moment is one of those since an earlier one.
    ghost counts_now: { (d : Self) (t : ℕ) (c : Image) → t ≤ (story d).moment → (story d).may_leave c → (story d).may_have_left t c };

    /// What a crash since a moment may have left, one since an earlier moment may have left.
    ghost earlier: { (d : Self) (s t : ℕ) (c : Image) → s ≤ t → (story d).may_have_left t c → (story d).may_have_left s c };

    /// Since this moment there is no other, while the clock is below its last value.
    ghost only_now: { (d : Self) (c : Image) → (story d).moment < last → (story d).may_have_left (story d).moment c → (story d).may_leave c };
}
