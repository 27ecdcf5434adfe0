// A disk over a folder.
ghost use Rattle.std.specs.Prelude.{◌<◌, ◌≤◌, ◌^◌};
ghost use Rattle.mesa_io.specs.Causes.{last};

use crate::store::{Opened, Store};
use crate::{DirBench, DirMade, DirReader};
use mesa_disk::{Area, Disk, DiskFailed, FileId, ListFault, OpenFault};
use mesa_io::FaultCount;
use mesa_os::System;
use std::alloc::AllocError;
use std::io::ErrorKind;

/// A disk over a folder: the journal areas are its files `journal0` and `journal1`, and an adopted
/// file has the digits of its id and `.mesa` for its name. Names of any other form are left alone. Over a
/// folder that can't be made or opened, or that another process has open, each area is told as 2 bytes long,
/// so that it is read, and each call that can fail fails.
#[derive(Drop)]
pub struct DirDisk<S: System> {
    store: Store<S>,
    zero_len: u64,
    one_len: u64,
    clock: u64,
    faults: FaultCount,
    read_faults: FaultCount,
    ghost small: { (zero_len < 2 ^ 64) × (one_len < 2 ^ 64) },
    ghost ticking: { clock ≤ last },
}

impl<S: System> DirDisk<S> {
    ghost use Rattle.std.specs.Prelude.{◌≡◌, IfOk};
    ghost use Rattle.mesa_dir.specs.Asked.{IsFoundOrUnasked};
    ghost use Rattle.mesa_dir.specs.Disks.{disk_asked, disk_path, story_of};
    ghost use Rattle.mesa_dir.specs.Drafts.{bench_faults, bench_folder};
    ghost use Rattle.mesa_disk.specs.declared.area.Area.TheVariants.{Zero, One};

    /// The disk over the folder of this name within the current one. The folder and its areas are made where
    /// they are missing.
    pub fn open(system: S, name: &str) -> Result<DirDisk<S>, AllocError>
        ensures clock { IfOk result (λ d. (story_of d).moment ≡ 0) }
        ensures faults { IfOk result (λ d. (story_of d).faults ≡ 0) }
        ensures read_faults { IfOk result (λ d. (story_of d).read_faults ≡ 0) }
        ensures path { IfOk result (λ d. disk_path d ≡ name.now) }

        // Area 0 was locked before anything was written or removed, drafts alone were removed, and all that
        // was found in the areas was written again and synced. Over a folder that isn't open no call is told.
        ensures opened { IfOk result (λ d. IsFoundOrUnasked name.now ((story_of d).len Zero) ((story_of d).len One) (disk_asked d)) }
    {
        let Opened {
            store,
            zero_len,
            one_len,
        } = Store::open(system, name)?;
        Ok(DirDisk {
            store,
            zero_len,
            one_len,
            clock: 0,
            faults: FaultCount::new(),
            read_faults: FaultCount::new(),
        })
    }

    /// A bench in the same folder.
    pub fn bench(&self) -> Result<DirBench<S>, AllocError>
        ensures faults { IfOk result (λ b. bench_faults b ≡ 0) }
        ensures folder { IfOk result (λ b. bench_folder b ≡ disk_path self.now) }
    {
        self.store.bench()
    }
}

impl<S: System + Send> Disk<DirMade<S>> for DirDisk<S>
where
    S::Handle: Send,
    S::Closed: Send,
{
    ghost use Rattle.std.specs.Prelude.{◌≡◌, ◌⊎◌, ◌+◌, ℕ, List, max, true, false, length, take, drop, IfOk, IfErr, OnOk, OnErr, Option, None, Some};
    ghost use Rattle.std.specs.FinMap.{keys};
    ghost use Rattle.mesa_disk.specs.Image.{Image, area_of, file_of, Overwrites, Tears, Adopts, Loses, May};
    ghost use Rattle.mesa_disk.specs.Story.{Steps, Follows, Elapses, Unmoved};
    ghost use Rattle.mesa_disk.specs.Untold.{small_of, told_never};
    ghost use Rattle.mesa_disk.specs.declared.failures.OpenFault.TheVariants.{Failed as OpenFailed, Absent};
    ghost use Rattle.mesa_io.specs.Causes.{Rose, HasCause, HasFaultCause};
    ghost use Rattle.mesa_dir.specs.Asked.{AllSynced, IsAdopted, IsGone, IsTrusted, IsUnadopted, OnlySynced, with_asked, with_named};
    ghost use Rattle.mesa_os.specs.Calls.{IsMeasured, Read, Removed, WroteAt};
    ghost use Rattle.std.specs.declared.io.ErrorKind.{ErrorKind};
    ghost use Rattle.mesa_dir.specs.Disks.{disk_asked, disk_path, story_of};
    ghost use Rattle.mesa_dir.specs.Drafts.{made_bytes, path_of_made};
    ghost use Rattle.mesa_dir.specs.Paths.{adopted_path_of};
    ghost use Rattle.mesa_dir.specs.Readers.{reader_calls, reader_faults, reader_len};

    type Reader = DirReader<S>;

    ghost story = { λ d. story_of d };

    ghost read_is_left = { λ d i is. told_never i is };

    ghost bounded = { λ d a. small_of d.zero_len d.one_len d.small a };

    ghost clock_bounded = { λ d. d.ticking };

    ghost lengths = { λ d i a is. absurd (told_never i is) };

    ghost counts_now = { λ d t c le now. now };

    ghost earlier = { λ d s t c le left. left };

    ghost only_now = { λ d c below left. left };

    fn clock(&self) -> u64 {
        self.clock
    }

    fn journal_len(&self, area: Area) -> u64 {
        match area {
            Area::Zero => self.zero_len,
            Area::One => self.one_len,
        }
    }

    fn journal_read(&mut self, area: Area, at: u64, buf: &mut [u8]) -> Result<(), DiskFailed>
        ensures read { OnOk result ((i : Image) → (story_of self.old).told ≡ Some i → buf.new ≡ take (length buf.old) (drop at (area_of area i))) }
        ensures unmoved { Unmoved (story_of self.old) (story_of self.new) }
        ensures cause { HasCause (story_of self.old).faults (story_of self.new).faults result }
        ensures read_cause { (story_of self.new).read_faults ≡ (story_of self.old).read_faults }

        // The bytes are those that one call gave, from this place on; no other was made.
        ensures asked { OnOk result (disk_asked self.new ≡ with_asked area (Read at buf.new true) (disk_asked self.old)) }
        ensures path { disk_path self.new ≡ disk_path self.old }
    {
        if self.store.read(area, at, buf).is_ok() {
            return Ok(());
        }
        self.faults.rise();
        Err(DiskFailed)
    }

    fn journal_write(&mut self, area: Area, at: u64, bytes: &[u8]) -> Result<(), DiskFailed>
        ensures written { OnOk result (Steps (Overwrites area at bytes.now) (story_of self.old).told (story_of self.new).told) }
        ensures torn { Steps (Tears area at (length bytes.now)) (story_of self.old).told (story_of self.new).told }
        ensures crash { Follows (Tears area at (length bytes.now)) (story_of self.old).may_leave (story_of self.new).may_leave }

        ensures len { OnOk result ((story_of self.new).len area ≡ max ((story_of self.old).len area) (at + length bytes.now)) }
        ensures fits { OnOk result (at + length bytes.now < 2 ^ 64) }
        ensures longer { (story_of self.old).len area ≤ (story_of self.new).len area }
        ensures other { (a : Area) → (a ≡ area → ⊥) → (story_of self.new).len a ≡ (story_of self.old).len a }

        ensures time { Elapses (story_of self.new).may_leave (story_of self.old) (story_of self.new) }
        ensures clock { Rose (story_of self.old).moment (story_of self.new).moment }
        ensures cause { HasCause (story_of self.old).faults (story_of self.new).faults result }
        ensures read_cause { (story_of self.new).read_faults ≡ (story_of self.old).read_faults }

        // All the bytes were written by one call, from this place on; no other was made, and one that failed
        // isn't tried again.
        ensures asked { OnOk result (disk_asked self.new ≡ with_asked area (WroteAt at bytes.now true) (disk_asked self.old)) }
        ensures failed { OnErr result ((disk_asked self.new ≡ disk_asked self.old) ⊎ (disk_asked self.new ≡ with_asked area (WroteAt at bytes.now false) (disk_asked self.old))) }
        ensures path { disk_path self.new ≡ disk_path self.old }
    {
        self.clock = self.clock.saturating_add(1);
        let Some(end) = at.checked_add(bytes.len() as u64) else {
            self.faults.rise();
            return Err(DiskFailed);
        };
        if self.store.write(area, at, bytes).is_err() {
            self.faults.rise();
            return Err(DiskFailed);
        }
        match area {
            Area::Zero => self.zero_len = self.zero_len.max(end),
            Area::One => self.one_len = self.one_len.max(end),
        }
        Ok(())
    }

    fn journal_sync(&mut self) -> Result<(), DiskFailed>
        ensures durable { OnOk result ((c : Image) → (story_of self.new).may_leave c → (story_of self.new).told ≡ Some c) }
        ensures told { (story_of self.new).told ≡ (story_of self.old).told }
        ensures crash { (c : Image) → (story_of self.new).may_leave c → (story_of self.old).may_leave c }

        ensures len { (a : Area) → (story_of self.new).len a ≡ (story_of self.old).len a }
        ensures time { Elapses (story_of self.new).may_leave (story_of self.old) (story_of self.new) }
        ensures clock { Rose (story_of self.old).moment (story_of self.new).moment }
        ensures cause { HasCause (story_of self.old).faults (story_of self.new).faults result }
        ensures read_cause { (story_of self.new).read_faults ≡ (story_of self.old).read_faults }

        // Each area was synced behind its last write, and the names behind their last change. No sync ever
        // failed; once one has, no call is made. Nor is any but a sync.
        ensures synced { OnOk result (AllSynced (disk_asked self.new)) }
        ensures trusted { OnOk result (IsTrusted (disk_asked self.new)) }
        ensures untried { (IsTrusted (disk_asked self.old) → ⊥) → disk_asked self.new ≡ disk_asked self.old }
        ensures only { OnlySynced (disk_asked self.old) (disk_asked self.new) }
        ensures path { disk_path self.new ≡ disk_path self.old }
    {
        self.clock = self.clock.saturating_add(1);
        if self.store.sync().is_ok() {
            return Ok(());
        }
        self.faults.rise();
        Err(DiskFailed)
    }

    fn adopt(&mut self, made: DirMade<S>, id: FileId) -> Result<(), DiskFailed>
        ensures adopted { OnOk result (Steps (Adopts (id, made_bytes made)) (story_of self.old).told (story_of self.new).told) }
        ensures whole { Steps (May Adopts (id, made_bytes made)) (story_of self.old).told (story_of self.new).told }
        ensures crash { Follows (May Adopts (id, made_bytes made)) (story_of self.old).may_leave (story_of self.new).may_leave }

        ensures len { (a : Area) → (story_of self.new).len a ≡ (story_of self.old).len a }
        ensures time { Elapses (story_of self.new).may_leave (story_of self.old) (story_of self.new) }
        ensures clock { Rose (story_of self.old).moment (story_of self.new).moment }
        ensures cause { HasCause (story_of self.old).faults (story_of self.new).faults result }
        ensures read_cause { (story_of self.new).read_faults ≡ (story_of self.old).read_faults }

        // This file got the name of this id; the next sync makes that last. No sync ever failed; once one has,
        // no call is made. What failed isn't tried again.
        ensures named { OnOk result (IsAdopted (path_of_made made) (adopted_path_of (disk_path self.old) id) (disk_asked self.old) (disk_asked self.new)) }
        ensures trusted { OnOk result (IsTrusted (disk_asked self.new)) }
        ensures untried { (IsTrusted (disk_asked self.old) → ⊥) → disk_asked self.new ≡ disk_asked self.old }
        ensures failed { OnErr result (IsUnadopted (path_of_made made) (adopted_path_of (disk_path self.old) id) (disk_asked self.old) (disk_asked self.new)) }
        ensures path { disk_path self.new ≡ disk_path self.old }
    {
        self.clock = self.clock.saturating_add(1);
        if self.store.adopt(made, id).is_ok() {
            return Ok(());
        }
        self.faults.rise();
        Err(DiskFailed)
    }

    fn remove(&mut self, id: FileId) -> Result<(), DiskFailed>
        ensures removed { OnOk result (Steps (Loses id) (story_of self.old).told (story_of self.new).told) }
        ensures whole { Steps (May Loses id) (story_of self.old).told (story_of self.new).told }
        ensures crash { Follows (May Loses id) (story_of self.old).may_leave (story_of self.new).may_leave }

        ensures len { (a : Area) → (story_of self.new).len a ≡ (story_of self.old).len a }
        ensures time { Elapses (story_of self.new).may_leave (story_of self.old) (story_of self.new) }
        ensures clock { Rose (story_of self.old).moment (story_of self.new).moment }
        ensures cause { HasCause (story_of self.old).faults (story_of self.new).faults result }
        ensures read_cause { (story_of self.new).read_faults ≡ (story_of self.old).read_faults }

        // One call took the name of this id away, or found that it wasn't there. What failed isn't tried again.
        ensures gone { OnOk result (IsGone (adopted_path_of (disk_path self.old) id) (disk_asked self.old) (disk_asked self.new)) }
        ensures failed { OnErr result ((disk_asked self.new ≡ disk_asked self.old) ⊎ ((answer : Option ErrorKind) × (disk_asked self.new ≡ with_named (Removed (adopted_path_of (disk_path self.old) id) answer) (disk_asked self.old)))) }
        ensures path { disk_path self.new ≡ disk_path self.old }
    {
        self.clock = self.clock.saturating_add(1);
        if self.store.remove(id).is_ok() {
            return Ok(());
        }
        self.faults.rise();
        Err(DiskFailed)
    }

    fn reader(&mut self, id: FileId) -> Result<DirReader<S>, OpenFault>
        ensures opened { IfOk result (λ r. (i : Image) → (story_of self.old).told ≡ Some i
            → (b : List ℕ) × (file_of i id ≡ Some b) × (None ≡ Some b)) }
        ensures untold { IfOk result (λ r. (story_of self.old).told ≡ None → (◌≡◌ {A = Option (List ℕ)} None None)) }
        ensures fresh { IfOk result (λ r. reader_faults r ≡ 0) }
        ensures absent { IfErr result (λ e. e ≡ Absent → (i : Image) → (story_of self.old).told ≡ Some i → file_of i id ≡ None) }
        ensures unmoved { Unmoved (story_of self.old) (story_of self.new) }
        ensures cause { HasFaultCause (λ e. e ≡ OpenFailed) (story_of self.old).faults (story_of self.new).faults result }
        ensures read_cause { (story_of self.new).read_faults ≡ (story_of self.old).read_faults }

        // The file of this id's name was opened, and as many bytes were found in it as the reader tells.
        ensures found { IfOk result (λ r. IsMeasured (adopted_path_of (disk_path self.old) id) (reader_len r) (reader_calls S.calls r)) }
        ensures path { disk_path self.new ≡ disk_path self.old }
        ensures asked { disk_asked self.new ≡ disk_asked self.old }
    {
        match self.store.reader(id) {
            Ok(reader) => Ok(reader),
            Err(error) if error.kind() == ErrorKind::NotFound => Err(OpenFault::Absent),
            Err(error) if error.kind() == ErrorKind::OutOfMemory => Err(OpenFault::Memory),
            Err(_) => {
                self.faults.rise();
                Err(OpenFault::Failed)
            }
        }
    }

    fn retire(&mut self, reader: DirReader<S>) {
        if reader.faults.get() > 0 {
            self.read_faults.rise();
        }
    }

    fn file_ids(&mut self) -> Result<Vec<FileId>, ListFault> {
        match self.store.adopted() {
            Ok(ids) => Ok(ids),
            Err(error) if error.kind() == ErrorKind::OutOfMemory => Err(ListFault::Memory),
            Err(_) => {
                self.faults.rise();
                Err(ListFault::Failed)
            }
        }
    }
}
