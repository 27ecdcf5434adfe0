//! A disk in memory, of which chosen calls fail.
ghost use Rattle.std.specs.Prelude.{◌≡◌, ◌↔◌, ◌+◌, ◌^◌, ◌<◌, ◌≤◌, min, max, ℕ, List, [], length, take, drop, IfOk, IfErr, IfSome, IsErr, IsTrue, OnErr, OnOk, None, Some};
ghost use Rattle.std.specs.List.{Contains};
ghost use Rattle.std.specs.FinMap.{from_entries, keys};
ghost use Rattle.std.proofs.Common.{inl};
ghost use Rattle.mesa_io.specs.Causes.{last, Rose, HasCause, HasFaultCause};
ghost use Rattle.mesa_disk.specs.declared.area.Area.{Area};
ghost use Rattle.mesa_disk.specs.declared.failures.OpenFault.TheVariants.{Failed as OpenFailed, Absent};
ghost use Rattle.mesa_disk.specs.declared.failures.ListFault.TheVariants.{Failed as ListFailed};
ghost use Rattle.mesa_disk.specs.Image.{area_of, file_of, Overwrites, Tears, Adopts, Loses, May};
ghost use Rattle.mesa_disk.specs.Spoiled.{read_spoiled_for, read_spoiled_past};
ghost use Rattle.mesa_disk.specs.Story.{Steps, Follows, Elapses, Unmoved};
ghost use Rattle.mesa_disk.specs.Recorded.{AllBefore, AllBefore-prop, start_image};

use crate::memory::calls::{Call, CallLog};
use crate::memory::file::{MemMade, MemReader};
use crate::memory::held::{Given, Start, find_file};
use crate::{Area, ByteList, Disk, DiskFailed, FileId, ListFault, OpenFault};
use mesa_io::FaultCount;
use std::alloc::{AllocError, Global};
use std::sync::Arc;

/// A disk in memory. A growth of its record that finds no memory counts as its fault.
pub struct MemDisk {
    alloc: Global,
    log: CallLog,
    clock: u64,
    counted: u64,
    fails: Vec<u64>,
    spoiled: Option<(FileId, u64)>,
    faults: FaultCount,
    read_faults: FaultCount,
    ghost ticking: { clock ≤ last },
    ghost stamped: { AllBefore clock log.calls.items } by { AllBefore-prop clock log.calls.items },
}

// Each exit calls this, in place of letting go of each part itself.
impl Drop for MemDisk {
    fn drop(self) {
        let MemDisk {
            alloc: _,
            log: _,
            clock: _,
            counted: _,
            fails: _,
            spoiled: _,
            faults: _,
            read_faults: _,
        } = self;
    }
}

impl MemDisk {
    ghost use Rattle.mesa_disk.specs.Image.{Image};
    ghost use Rattle.mesa_disk.specs.Memory.{calls_made, failing_calls, image_at, spoiled_read, story_of};

    /// A disk with these areas and files, all synced. Its calls that can fail are counted from 0; those
    /// whose numbers stand in `fails` fail, and change no area and no file.
    pub fn new(
        alloc: Global,
        zero: Vec<u8>,
        one: Vec<u8>,
        files: Vec<(FileId, ByteList)>,
        fails: Vec<u64>,
    ) -> MemDisk
        ensures told { (story_of result).told ≡ Some (record { zero = zero.items; one = one.items; files = from_entries files.items }) }
        ensures synced { (c : Image) → (story_of result).may_leave c → (story_of result).told ≡ Some c }
        ensures moment { (story_of result).moment ≡ 0 }
        ensures faults { (story_of result).faults ≡ 0 }
        ensures read_faults { (story_of result).read_faults ≡ 0 }
        ensures fails { failing_calls result ≡ fails.items }
        ensures counted { calls_made result ≡ 0 }
        ensures unspoiled { spoiled_read result ≡ None }
    {
        let start = Start::AsGiven(Given { zero, one, files });
        MemDisk::starting(alloc, start, fails)
    }

    /// A disk that holds one image of a crash at this moment. Of the calls that no sync had followed,
    /// pick 0 leaves nothing, 1 all, and 2 all, with the byte 01 throughout what was written. 3 leaves all
    /// but what came of files whose ids are odd, 4 all but what came of the others.
    pub fn image(&self, moment: u64, pick: u8) -> Result<MemDisk, AllocError>
        ensures picked { IfOk result (λ d. (story_of d).told ≡ Some (image_at self.now moment pick)) }
        ensures left { IfOk result (λ d. (c : Image) → (story_of d).told ≡ Some c → (story_of self.now).may_have_left moment c) }
        ensures synced { IfOk result (λ d. (c : Image) → (story_of d).may_leave c → (story_of d).told ≡ Some c) }

        // It begins anew, and no call of it is to fail.
        ensures moment { IfOk result (λ d. (story_of d).moment ≡ 0) }
        ensures faults { IfOk result (λ d. (story_of d).faults ≡ 0) }
        ensures read_faults { IfOk result (λ d. (story_of d).read_faults ≡ 0) }
        ensures fails { IfOk result (λ d. failing_calls d ≡ []) }
        ensures counted { IfOk result (λ d. calls_made d ≡ 0) }
        ensures unspoiled { IfOk result (λ d. spoiled_read d ≡ None) }
    {
        let held = self.log.image(self.alloc, moment, pick)?;
        Ok(MemDisk::starting(self.alloc, Start::Shared(held), Vec::new(self.alloc)))
    }

    /// Lets a read, counted from 0, of the next reader of a file fail. It takes the place of one that
    /// was named before and that no reader has taken.
    pub fn spoil_read(&mut self, id: FileId, nth: u64)
        ensures spoiled { spoiled_read self.new ≡ Some (id, nth) }
        ensures fails { failing_calls self.new ≡ failing_calls self.old }
        ensures counted { calls_made self.new ≡ calls_made self.old }
        ensures unmoved { Unmoved (story_of self.old) (story_of self.new) }
        ensures faults { (story_of self.new).faults ≡ (story_of self.old).faults }
        ensures read_faults { (story_of self.new).read_faults ≡ (story_of self.old).read_faults }
    {
        self.spoiled = Some((id, nth));
    }

    fn starting(alloc: Global, start: Start, fails: Vec<u64>) -> MemDisk
        ensures told { (story_of result).told ≡ Some (start_image start) }
        ensures synced { (c : Image) → (story_of result).may_leave c → (story_of result).told ≡ Some c }
        ensures moment { (story_of result).moment ≡ 0 }
        ensures faults { (story_of result).faults ≡ 0 }
        ensures read_faults { (story_of result).read_faults ≡ 0 }
        ensures fails { failing_calls result ≡ fails.items }
        ensures counted { calls_made result ≡ 0 }
        ensures unspoiled { spoiled_read result ≡ None }
    {
        MemDisk {
            alloc,
            log: CallLog {
                start,
                held: None,
                calls: Vec::new(alloc),
            },
            clock: 0,
            counted: 0,
            fails,
            spoiled: None,
            faults: FaultCount::new(),
            read_faults: FaultCount::new(),
        }
    }
}

// Counts a call, and says whether it is one of those that fail.
fn is_due(counted: &mut u64, fails: &[u64]) -> bool
    ensures due { IsTrue result ↔ Contains fails.now counted.old }
    ensures counted { counted.new ≡ min (counted.old + 1) last }
{
    let number = *counted;
    *counted = number.saturating_add(1);
    fails.contains(&number)
}

// The read that was named for a file, which is named no longer.
fn take_spoiled(spoiled: &mut Option<(FileId, u64)>, id: FileId) -> Option<u64>
    ensures taken { result ≡ read_spoiled_for id spoiled.old }
    ensures left { spoiled.new ≡ read_spoiled_past id spoiled.old }
{
    if let Some((file, nth)) = *spoiled {
        if file == id {
            *spoiled = None;
            return Some(nth);
        }
    }
    None
}

impl Disk<MemMade> for MemDisk {
    type Reader = MemReader;

    ghost use Rattle.mesa_disk.specs.Image.{Image};
    ghost use Rattle.mesa_disk.specs.MemFiles.{failing_read, made_bytes, reader_bytes, reader_faults};
    ghost use Rattle.mesa_disk.specs.Memory.{spoiled_read, start_of, seen_of, story_of, IsDue, FailsIfDue, KeepsFailures};
    ghost use Rattle.mesa_disk.specs.MemoryLaws.{area_small, told_is_left, told_len, left_earlier, only_present};

    ghost story = { story_of };

    ghost read_is_left = { λ d i is. told_is_left (start_of d.log) (seen_of d.log) i d.log.calls.items d.log.tied is };

    ghost bounded = { λ d a. area_small d.log.start d.log.held a };

    ghost clock_bounded = { λ d. d.ticking };

    ghost lengths = { λ d i a is. told_len (seen_of d.log) i a is };

    ghost counts_now = { λ d t c le now. inl now };

    ghost earlier = { λ d s t c le left. left_earlier (start_of d.log) d.log.calls.items s t c le left };

    ghost only_now = { λ d c below left. only_present (start_of d.log) d.log.calls.items d.clock c d.stamped below left };

    fn clock(&self) -> u64 {
        self.clock
    }

    fn journal_len(&self, area: Area) -> u64 {
        self.log.area(area).len() as u64
    }

    fn journal_read(&mut self, area: Area, at: u64, buf: &mut [u8]) -> Result<(), DiskFailed>
        requires { at + length buf.old ≤ (story_of self.old).len area }
        ensures read { OnOk result ((i : Image) → (story_of self.old).told ≡ Some i → buf.new ≡ take (length buf.old) (drop at (area_of area i))) }
        ensures unmoved { Unmoved (story_of self.old) (story_of self.new) }
        ensures cause { HasCause (story_of self.old).faults (story_of self.new).faults result }
        ensures read_cause { (story_of self.new).read_faults ≡ (story_of self.old).read_faults }
        ensures due { FailsIfDue self.old self.new result }
        ensures spoiled { spoiled_read self.new ≡ spoiled_read self.old }
        ensures only { IsErr result → IsDue self.old }
    {
        if is_due(&mut self.counted, &self.fails) {
            self.faults.rise();
            return Err(DiskFailed);
        }
        let at = at as usize;
        buf.copy_from_slice(&self.log.area(area)[at..at + buf.len()]);
        Ok(())
    }

    fn journal_write(&mut self, area: Area, at: u64, bytes: &[u8]) -> Result<(), DiskFailed>
        requires { at ≤ (story_of self.old).len area }
        ensures written { OnOk result (Steps (Overwrites area at bytes.now) (story_of self.old).told (story_of self.new).told) }
        ensures torn { Steps (Tears area at (length bytes.now)) (story_of self.old).told (story_of self.new).told }
        ensures crash { Follows (Tears area at (length bytes.now)) (story_of self.old).may_leave (story_of self.new).may_leave }

        ensures len { OnOk result ((story_of self.new).len area ≡ max ((story_of self.old).len area) (at + length bytes.now)) }
        ensures fits { OnOk result (at + length bytes.now < 2 ^ 64) }
        ensures longer { (story_of self.old).len area ≤ (story_of self.new).len area }
        ensures other { (a : Area) → (a ≡ area → ⊥) → (story_of self.new).len a ≡ (story_of self.old).len a }

        ensures time { Elapses (story_of self.new).may_leave (story_of self.old) (story_of self.new) }
        ensures clock { Rose (story_of self.old).moment (story_of self.new).moment }
        ensures cause { HasCause (story_of self.old).faults (story_of self.new).faults result }
        ensures read_cause { (story_of self.new).read_faults ≡ (story_of self.old).read_faults }
        ensures due { FailsIfDue self.old self.new result }
        ensures spoiled { spoiled_read self.new ≡ spoiled_read self.old }
    {
        let before = self.clock;
        self.clock = before.saturating_add(1);
        if is_due(&mut self.counted, &self.fails) {
            self.faults.rise();
            return Err(DiskFailed);
        }
        let Err(_) = self.log.write(self.alloc, before, area, at, bytes) else {
            return Ok(());
        };
        self.faults.rise();
        Err(DiskFailed)
    }

    fn journal_sync(&mut self) -> Result<(), DiskFailed>
        ensures durable { OnOk result ((c : Image) → (story_of self.new).may_leave c → (story_of self.new).told ≡ Some c) }
        ensures told { (story_of self.new).told ≡ (story_of self.old).told }
        ensures crash { (c : Image) → (story_of self.new).may_leave c → (story_of self.old).may_leave c }

        ensures len { (a : Area) → (story_of self.new).len a ≡ (story_of self.old).len a }
        ensures time { Elapses (story_of self.new).may_leave (story_of self.old) (story_of self.new) }
        ensures clock { Rose (story_of self.old).moment (story_of self.new).moment }
        ensures cause { HasCause (story_of self.old).faults (story_of self.new).faults result }
        ensures read_cause { (story_of self.new).read_faults ≡ (story_of self.old).read_faults }
        ensures due { FailsIfDue self.old self.new result }
        ensures spoiled { spoiled_read self.new ≡ spoiled_read self.old }
    {
        let before = self.clock;
        self.clock = before.saturating_add(1);
        if is_due(&mut self.counted, &self.fails) {
            self.faults.rise();
            return Err(DiskFailed);
        }
        let Err(_) = self.log.note(self.alloc, before, Call::Sync) else {
            return Ok(());
        };
        self.faults.rise();
        Err(DiskFailed)
    }

    fn adopt(&mut self, made: MemMade, id: FileId) -> Result<(), DiskFailed>
        requires { (i : Image) → (story_of self.old).told ≡ Some i → file_of i id ≡ None }
        ensures adopted { OnOk result (Steps (Adopts (id, Some (made_bytes made))) (story_of self.old).told (story_of self.new).told) }
        ensures whole { Steps (May Adopts (id, Some (made_bytes made))) (story_of self.old).told (story_of self.new).told }
        ensures crash { Follows (May Adopts (id, Some (made_bytes made))) (story_of self.old).may_leave (story_of self.new).may_leave }

        ensures len { (a : Area) → (story_of self.new).len a ≡ (story_of self.old).len a }
        ensures time { Elapses (story_of self.new).may_leave (story_of self.old) (story_of self.new) }
        ensures clock { Rose (story_of self.old).moment (story_of self.new).moment }
        ensures cause { HasCause (story_of self.old).faults (story_of self.new).faults result }
        ensures read_cause { (story_of self.new).read_faults ≡ (story_of self.old).read_faults }
        ensures due { FailsIfDue self.old self.new result }
        ensures spoiled { spoiled_read self.new ≡ spoiled_read self.old }
    {
        let before = self.clock;
        self.clock = before.saturating_add(1);
        if is_due(&mut self.counted, &self.fails) {
            self.faults.rise();
            return Err(DiskFailed);
        }
        let Err(_) = self
            .log
            .note(self.alloc, before, Call::Adopt(id, made.bytes))
        else {
            return Ok(());
        };
        self.faults.rise();
        Err(DiskFailed)
    }

    fn remove(&mut self, id: FileId) -> Result<(), DiskFailed>
        ensures removed { OnOk result (Steps (Loses id) (story_of self.old).told (story_of self.new).told) }
        ensures whole { Steps (May Loses id) (story_of self.old).told (story_of self.new).told }
        ensures crash { Follows (May Loses id) (story_of self.old).may_leave (story_of self.new).may_leave }

        ensures len { (a : Area) → (story_of self.new).len a ≡ (story_of self.old).len a }
        ensures time { Elapses (story_of self.new).may_leave (story_of self.old) (story_of self.new) }
        ensures clock { Rose (story_of self.old).moment (story_of self.new).moment }
        ensures cause { HasCause (story_of self.old).faults (story_of self.new).faults result }
        ensures read_cause { (story_of self.new).read_faults ≡ (story_of self.old).read_faults }
        ensures due { FailsIfDue self.old self.new result }
        ensures spoiled { spoiled_read self.new ≡ spoiled_read self.old }
    {
        let before = self.clock;
        self.clock = before.saturating_add(1);
        if is_due(&mut self.counted, &self.fails) {
            self.faults.rise();
            return Err(DiskFailed);
        }
        let Err(_) = self.log.note(self.alloc, before, Call::Remove(id)) else {
            return Ok(());
        };
        self.faults.rise();
        Err(DiskFailed)
    }

    fn reader(&mut self, id: FileId) -> Result<MemReader, OpenFault>
        ensures opened { IfOk result (λ r. (i : Image) → (story_of self.old).told ≡ Some i
            → (b : List ℕ) × (file_of i id ≡ Some b) × (Some (reader_bytes r) ≡ Some b)) }
        ensures untold { IfOk result (λ r. (story_of self.old).told ≡ None → Some (reader_bytes r) ≡ None) }
        ensures fresh { IfOk result (λ r. reader_faults r ≡ 0) }
        ensures absent { IfErr result (λ e. e ≡ Absent → (i : Image) → (story_of self.old).told ≡ Some i → file_of i id ≡ None) }
        ensures unmoved { Unmoved (story_of self.old) (story_of self.new) }
        ensures cause { HasFaultCause (λ e. e ≡ OpenFailed) (story_of self.old).faults (story_of self.new).faults result }
        ensures read_cause { (story_of self.new).read_faults ≡ (story_of self.old).read_faults }
        ensures due { FailsIfDue self.old self.new result }
        ensures only { IfErr result (λ e. e ≡ OpenFailed → IsDue self.old) }

        // The read that `spoil_read` named for the file fails of this reader, and of no later one.
        ensures spoiled { IfOk result (λ r. failing_read r ≡ read_spoiled_for id (spoiled_read self.old)) }
        ensures healed { OnOk result (spoiled_read self.new ≡ read_spoiled_past id (spoiled_read self.old)) }
        ensures unhealed { OnErr result (spoiled_read self.new ≡ spoiled_read self.old) }
    {
        if is_due(&mut self.counted, &self.fails) {
            self.faults.rise();
            return Err(OpenFault::Failed);
        }
        if self.log.part(self.alloc).is_err() {
            return Err(OpenFault::Memory);
        }
        let Some(bytes) = self.log.file(id) else {
            return Err(OpenFault::Absent);
        };
        let Ok(bytes) = Arc::try_clone(bytes) else {
            return Err(OpenFault::Memory);
        };
        Ok(MemReader {
            bytes,
            fails: take_spoiled(&mut self.spoiled, id),
            reads: 0,
            faults: FaultCount::new(),
        })
    }

    fn retire(&mut self, reader: MemReader)
        ensures unmoved { Unmoved (story_of self.old) (story_of self.new) }
        ensures counted { 0 < reader_faults reader → Rose (story_of self.old).read_faults (story_of self.new).read_faults }
        ensures quiet { reader_faults reader ≡ 0 → (story_of self.new).read_faults ≡ (story_of self.old).read_faults }
        ensures later { (story_of self.old).read_faults ≤ (story_of self.new).read_faults }
        ensures cause { (story_of self.new).faults ≡ (story_of self.old).faults }
        ensures failures { KeepsFailures self.old self.new }
    {
        if reader.faults.get() > 0 {
            self.read_faults.rise();
        }
    }

    fn file_ids(&mut self) -> Result<Vec<FileId>, ListFault>
        ensures listed { IfOk result (λ ids. (i : Image) → (story_of self.old).told ≡ Some i → ids.items ≡ keys i.files) }
        ensures unmoved { Unmoved (story_of self.old) (story_of self.new) }
        ensures cause { HasFaultCause (λ e. e ≡ ListFailed) (story_of self.old).faults (story_of self.new).faults result }
        ensures read_cause { (story_of self.new).read_faults ≡ (story_of self.old).read_faults }
        ensures due { FailsIfDue self.old self.new result }
        ensures spoiled { spoiled_read self.new ≡ spoiled_read self.old }
        ensures only { IfErr result (λ e. e ≡ ListFailed → IsDue self.old) }
    {
        if is_due(&mut self.counted, &self.fails) {
            self.faults.rise();
            return Err(ListFault::Failed);
        }
        if self.log.part(self.alloc).is_err() {
            return Err(ListFault::Memory);
        }
        match self.log.ids(self.alloc) {
            Ok(ids) => Ok(ids),
            Err(_) => Err(ListFault::Memory),
        }
    }
}
