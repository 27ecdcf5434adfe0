//! The record of the calls that changed a disk in memory.
ghost use Rattle.std.specs.Prelude.{◌≡◌, ◌≤◌, ◌<◌, ◌+◌, ◌^◌, ℕ, List, [], ◌∷◌, length, take, drop, IfOk, OnOk, OnErr, IsSome, Option, Some, None, option_map};
ghost use Rattle.std.specs.Coded.{Coded-set};
ghost use Rattle.std.specs.FinMap.{keys};
ghost use Rattle.std.specs.Arc.{arc_value};
ghost use Rattle.mesa_disk.specs.Image.{area_of, file_of};
ghost use Rattle.mesa_disk.specs.Recorded.{held_image, start_image, now_image, image_code, seen_step, seen_after, IsPlaced, ArePlaced, ArePlaced-prop};
ghost use Rattle.mesa_disk.specs.Picked.{loses_name as is_lost, picked_step, picked_after, picked_image, calls_before, synced};
ghost use Rattle.mesa_disk.specs.declared.memory.held.Start.{Start as Starts};
ghost use Rattle.mesa_disk.specs.declared.memory.calls.Call.TheVariants.{Write as WriteCall};

use crate::memory::held::{
    Held, SharedBytes, Start, copy_held, copy_start, drop_file, find_file, held_bytes, held_ids,
    put_file, start_bytes, write_area,
};
use crate::{Area, ByteList, FileId};
use std::alloc::{AllocError, Global};
use std::sync::Arc;

/// A call that changes a disk.
#[derive(Drop)]
pub enum Call {
    Write(Area, u64, ByteList),
    Sync,
    Adopt(FileId, SharedBytes),
    Remove(FileId),
}

/// A call that was done, and the clock before it.
#[derive(Drop)]
pub struct Done {
    pub before: u64,
    pub call: Call,
}

/// What was held at first, each call since, and what is held now. Until a call changes it, that is what
/// was held at first.
pub struct CallLog {
    pub start: Start,
    pub held: Option<Held>,
    pub calls: Vec<Done>,
    ghost tied: { now_image start held ≡ seen_after (start_image start) calls.items } by { Coded-set image_code (now_image start held) (seen_after (start_image start) calls.items) },
    ghost placed: { ArePlaced (start_image start) calls.items } by { ArePlaced-prop (start_image start) calls.items },
}

// Each exit calls this, in place of letting go of each part itself.
impl Drop for CallLog {
    fn drop(self) {
        let CallLog {
            start: _,
            held: _,
            calls: _,
        } = self;
    }
}

impl CallLog {
    ghost use Rattle.mesa_disk.specs.Memory.{start_of, seen_of, Notes, Keeps};

    /// The bytes of an area as a read gives them.
    pub fn area(&self, area: Area) -> &[u8]
        ensures { result.now ≡ area_of area (seen_of self.now) }
    {
        match &self.held {
            Some(held) => held_bytes(held, area),
            None => start_bytes(&self.start, area),
        }
    }

    /// The bytes of the file of an id, once what is held is parted from the start.
    pub fn file(&self, id: FileId) -> Option<&SharedBytes>
        requires { IsSome self.now.held }
        ensures { option_map (λ bytes. arc_value bytes.now) result ≡ file_of (seen_of self.now) id }
    {
        match &self.held {
            Some(held) => find_file(held, id),
            None => None,
        }
    }

    /// The ids of all files, rising, once what is held is parted from the start.
    pub fn ids(&self, alloc: Global) -> Result<Vec<FileId>, AllocError>
        requires { IsSome self.now.held }
        ensures { IfOk result (λ ids. ids.items ≡ keys (seen_of self.now).files) }
    {
        match &self.held {
            Some(held) => held_ids(alloc, held),
            None => Ok(Vec::new(alloc)),
        }
    }

    /// Makes ready for a change: what is held becomes another thing than what was held at first.
    pub fn part(&mut self, alloc: Global) -> Result<(), AllocError>
        ensures parted { OnOk result (IsSome self.new.held) }
        ensures same { Keeps self.old self.new }
    {
        if self.held.is_some() {
            return Ok(());
        }
        let held = copy_start(alloc, &self.start)?;
        self.start = Start::Shared(copy_held(alloc, &held)?);
        self.held = Some(held);
        Ok(())
    }

    /// Writes into an area and notes it, or leaves all as before.
    pub fn write(
        &mut self,
        alloc: Global,
        before: u64,
        area: Area,
        at: u64,
        bytes: &[u8],
    ) -> Result<(), AllocError>
        requires { at ≤ length (area_of area (seen_of self.old)) }
        ensures ok { OnOk result (Notes (record { before = before; call = WriteCall area at bytes.now }) self.old self.new) }
        ensures err { OnErr result (Keeps self.old self.new) }
    {
        let call = Call::Write(area, at, ByteList::from_bytes(alloc, bytes)?);
        self.note(alloc, before, call)
    }

    /// Does a call and notes it, or leaves all as before.
    pub fn note(&mut self, alloc: Global, before: u64, call: Call) -> Result<(), AllocError>
        requires { IsPlaced call (seen_of self.old) }
        ensures ok { OnOk result (Notes (record { before = before; call = call }) self.old self.new) }
        ensures err { OnErr result (Keeps self.old self.new) }
    {
        self.part(alloc)?;
        self.calls.reserve(1)?;
        change(&mut self.held, &call)?;
        self.calls.push_reserved(Done { before, call });
        Ok(())
    }

    /// What a crash at this moment leaves, by the pick.
    pub fn image(&self, alloc: Global, moment: u64, pick: u8) -> Result<Held, AllocError>
        ensures { IfOk result (λ held. held_image held ≡ picked_image pick (start_of self.now) (calls_before moment self.now.calls.items)) }
    {
        let calls = &self.calls[..count_before(&self.calls, moment)];
        let synced = count_synced(calls);
        let mut held = copy_start(alloc, &self.start)?;
        repeat_all(&mut held, &calls[..synced])?;
        pick_all(alloc, &mut held, &calls[synced..], pick)?;
        Ok(held)
    }
}

// How many calls there are before a moment.
fn count_before(calls: &[Done], moment: u64) -> usize
    ensures within { result ≤ length calls.now }
    ensures calls { take result calls.now ≡ calls_before moment calls.now }
{
    for (i, done) in calls.iter().enumerate() {
        if done.before >= moment {
            return i;
        }
    }
    calls.len()
}

// How many calls there are up to the last sync.
fn count_synced(calls: &[Done]) -> usize
    ensures count { result ≡ synced calls.now }
    ensures within { result ≤ length calls.now }
{
    let mut left = calls;
    while let [rest @ .., done] = left {
        if let Call::Sync = done.call {
            return left.len();
        }
        left = rest;
    }
    0
}

// Does a call to what is held now, once it is parted from the start.
fn change(held: &mut Option<Held>, call: &Call) -> Result<(), AllocError>
    requires { IsSome held.old }
    ensures ok { OnOk result ((start : Starts) → now_image start held.new ≡ seen_step call.now (now_image start held.old)) }
    ensures err { OnErr result ((start : Starts) → now_image start held.new ≡ now_image start held.old) }
{
    match held {
        Some(held) => repeat(held, call),
        None => Ok(()),
    }
}

// Does calls to what is held.
fn repeat_all(held: &mut Held, calls: &[Done]) -> Result<(), AllocError>
    ensures { OnOk result (held_image held.new ≡ seen_after (held_image held.old) calls.now) }
{
    for done in calls {
        repeat(held, &done.call)?;
    }
    Ok(())
}

// Does a call to what is held.
fn repeat(held: &mut Held, call: &Call) -> Result<(), AllocError>
    ensures ok { OnOk result (held_image held.new ≡ seen_step call.now (held_image held.old)) }
    ensures err { OnErr result (held_image held.new ≡ held_image held.old) }
{
    match call {
        Call::Write(area, at, bytes) => write_area(held, *area, *at as usize, bytes.as_slice()),
        Call::Sync => Ok(()),
        Call::Adopt(id, bytes) => put_file(held, *id, Arc::try_clone(bytes)?),
        Call::Remove(id) => {
            drop_file(held, *id);
            Ok(())
        }
    }
}

// Does to what is held what a crash leaves of calls, by the pick.
fn pick_all(alloc: Global, held: &mut Held, calls: &[Done], pick: u8) -> Result<(), AllocError>
    ensures { OnOk result (held_image held.new ≡ picked_after pick (held_image held.old) calls.now) }
{
    for done in calls {
        pick_one(alloc, held, &done.call, pick)?;
    }
    Ok(())
}

// Does to what is held what a crash leaves of a call, by the pick.
fn pick_one(alloc: Global, held: &mut Held, call: &Call, pick: u8) -> Result<(), AllocError>
    ensures { OnOk result (held_image held.new ≡ picked_step pick call.now (held_image held.old)) }
{
    match call {
        Call::Write(..) if pick == 0 => Ok(()),
        Call::Write(area, at, bytes) if pick == 2 => {
            let ones = vec![in alloc; 1; bytes.len()]?;
            write_area(held, *area, *at as usize, &ones)
        }
        Call::Adopt(id, _) | Call::Remove(id) if loses_name(pick, *id) => Ok(()),
        _ => repeat(held, call),
    }
}

// Whether the pick leaves the name of a file as it was at the last sync.
fn loses_name(pick: u8, id: FileId) -> bool
    ensures { result ≡ is_lost pick id }
{
    pick == 0 || pick > 2 && id.number() % 2 == u64::from(pick % 2)
}
