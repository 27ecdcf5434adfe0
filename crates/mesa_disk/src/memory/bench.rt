//! Drafts in memory, of which chosen calls fail.
ghost use Rattle.std.specs.Prelude.{◌≡◌, ◌↔◌, ◌+◌, ◌<◌, ◌≤◌, min, ℕ, List, [], ◌∷◌, ◌++◌, IfOk, IfErr, IsErr, IsTrue, OnErr, OnOk, Some, Err, option_map};
ghost use Rattle.mesa_io.specs.Causes.{last, Rose, HasFaultCause};
ghost use Rattle.mesa_disk.specs.declared.failures.DraftError.TheVariants.{Failed as DraftFailed};

use crate::memory::file::MemMade;
use crate::{Bench, ByteList, Draft, DraftError, FileId};
use mesa_io::FaultCount;
use std::alloc::{AllocError, AllocFailed, Global};
use std::sync::Arc;

/// A draft in memory.
#[derive(Drop)]
pub struct MemDraft {
    alloc: Global,
    id: FileId,
    bytes: Vec<u8>,
    fails: Vec<u64>,
    calls: u64,
    faults: FaultCount,
}

impl Draft<MemMade> for MemDraft {
    ghost use Rattle.mesa_disk.specs.Benches.{CallIsDue, CountsCall, draft_bytes, draft_faults, draft_id};
    ghost use Rattle.mesa_disk.specs.MemFiles.{made_bytes, made_id};

    ghost id_of = { draft_id };

    ghost bytes = { λ d. Some (draft_bytes d) };

    ghost faults = { draft_faults };

    fn append(&mut self, piece: &[u8]) -> Result<(), DraftError>
        ensures appended { OnOk result (Some (draft_bytes self.new) ≡ option_map (λ b. b ++ piece.now) (Some (draft_bytes self.old))) }
        ensures id { draft_id self.new ≡ draft_id self.old }
        ensures cause { HasFaultCause (λ e. e ≡ DraftFailed) (draft_faults self.old) (draft_faults self.new) result }
        ensures due { (result ≡ Err DraftFailed) ↔ CallIsDue self.old }
        ensures counted { CountsCall self.old self.new }
    {
        if self.is_due() {
            self.faults.rise();
            return Err(DraftError::Failed);
        }
        if self.bytes.extend_from_slice(piece).is_err() {
            return Err(DraftError::Memory);
        }
        Ok(())
    }

    fn finish(mut self) -> Result<MemMade, (DraftError, Self)>
        ensures bytes { IfOk result (λ m. Some (made_bytes m) ≡ Some (draft_bytes self)) }
        ensures id { IfOk result (λ m. made_id m ≡ draft_id self) }
        ensures given_back { IfErr result (λ e. (Some (draft_bytes e.1) ≡ Some (draft_bytes self)) × (draft_id e.1 ≡ draft_id self)) }
        ensures cause { IfErr result (λ e. (draft_faults self ≤ draft_faults e.1) × (e.0 ≡ DraftFailed → Rose (draft_faults self) (draft_faults e.1))) }
        ensures quiet { IfErr result (λ e. (e.0 ≡ DraftFailed → ⊥) → draft_faults e.1 ≡ draft_faults self) }
        ensures due { IfErr result (λ e. e.0 ≡ DraftFailed → CallIsDue self) }
        ensures counted { IfErr result (λ e. CountsCall self e.1) }
        ensures fails { CallIsDue self → IsErr result }
    {
        if self.is_due() {
            self.faults.rise();
            return Err((DraftError::Failed, self));
        }
        let MemDraft {
            alloc,
            id,
            bytes,
            fails,
            calls,
            faults,
        } = self;
        match Arc::new(alloc, ByteList::from_vec(bytes)) {
            Ok(bytes) => Ok(MemMade { id, bytes }),
            Err(AllocFailed { value }) => {
                let draft = MemDraft {
                    alloc,
                    id,
                    bytes: value.into_vec(),
                    fails,
                    calls,
                    faults,
                };
                Err((DraftError::Memory, draft))
            }
        }
    }
}

impl MemDraft {
    ghost use Rattle.mesa_disk.specs.Benches.{CallIsDue};

    // Counts a call, and says whether it is one of those that fail.
    fn is_due(&mut self) -> bool
        ensures due { IsTrue result ↔ CallIsDue self.old }
        ensures same { self.new ≡ record self.old { calls = min (self.old.calls + 1) last } }
    {
        self.calls = self.calls.saturating_add(1);
        self.fails.contains(&self.calls)
    }
}

/// Where drafts in memory are made.
#[derive(Drop)]
pub struct MemBench {
    alloc: Global,
    fails: Vec<(u64, u64)>,
    drafts: u64,
    // The numbers of the ids that have drafts.
    given: Vec<u64>,
    faults: FaultCount,
}

impl MemBench {
    ghost use Rattle.mesa_disk.specs.Benches.{DraftIsDue, bench_faults, calls_of, drafts_made, failing_calls, given_ids};

    /// A bench of which chosen calls fail: `draft` call d, counted from 0, where (d, 0)
    /// stands in `fails`, and call c, counted from 1, on the draft that it gave, where (d, c) does.
    /// Of the others those fail that ask for an id once more.
    pub fn new(alloc: Global, fails: Vec<(u64, u64)>) -> MemBench
        ensures fails { failing_calls result ≡ fails.items }
        ensures counted { drafts_made result ≡ 0 }
        ensures unasked { given_ids result ≡ [] }
        ensures faults { bench_faults result ≡ 0 }
    {
        MemBench {
            alloc,
            fails,
            drafts: 0,
            given: Vec::new(alloc),
            faults: FaultCount::new(),
        }
    }

    // Whether the next draft, under this id, is one that fails.
    fn is_due(&self, id: FileId) -> bool
        ensures { IsTrue result ↔ DraftIsDue self.now id }
    {
        self.fails.contains(&(self.drafts, 0)) || self.given.contains(&id.number())
    }

    // The numbers of the calls on the draft of this number that fail.
    fn fails_of(&self, draft: u64) -> Result<Vec<u64>, AllocError>
        ensures { IfOk result (λ calls. calls.items ≡ calls_of draft self.now.fails.items) }
    {
        let mut fails = Vec::new(self.alloc);
        for (number, call) in &self.fails {
            if *number == draft {
                fails.push(*call)?;
            }
        }
        Ok(fails)
    }
}

impl Bench<MemMade> for MemBench {
    ghost use Rattle.mesa_disk.specs.Benches.{DraftIsDue, IsFresh, bench_faults, draft_bytes, draft_faults, draft_id, drafts_made, failing_calls, given_ids};

    type Draft = MemDraft;

    ghost faults = { bench_faults };

    fn draft(&mut self, id: FileId) -> Result<MemDraft, DraftError>
        ensures id { IfOk result (λ d. draft_id d ≡ id) }
        ensures empty { IfOk result (λ d. (b : List ℕ) → Some (draft_bytes d) ≡ Some b → b ≡ []) }
        ensures fresh { IfOk result (λ d. draft_faults d ≡ 0) }
        ensures cause { HasFaultCause (λ e. e ≡ DraftFailed) (bench_faults self.old) (bench_faults self.new) result }
        ensures due { (result ≡ Err DraftFailed) ↔ DraftIsDue self.old id }
        ensures begun { IfOk result (IsFresh self.old) }
        ensures given { OnOk result (given_ids self.new ≡ given_ids self.old ++ id ∷ []) }
        ensures refused { OnErr result (given_ids self.new ≡ given_ids self.old) }
        ensures counted { drafts_made self.new ≡ min (drafts_made self.old + 1) last }
        ensures same { failing_calls self.new ≡ failing_calls self.old }
    {
        let number = self.drafts;
        let is_due = self.is_due(id);
        self.drafts = number.saturating_add(1);
        if is_due {
            self.faults.rise();
            return Err(DraftError::Failed);
        }
        let Ok(fails) = self.fails_of(number) else {
            return Err(DraftError::Memory);
        };
        if self.given.push(id.number()).is_err() {
            return Err(DraftError::Memory);
        }
        Ok(MemDraft {
            alloc: self.alloc,
            id,
            bytes: Vec::new(self.alloc),
            fails,
            calls: 0,
            faults: FaultCount::new(),
        })
    }

    fn spoil(&mut self, failed: MemDraft)
        ensures counted { 0 < draft_faults failed → Rose (bench_faults self.old) (bench_faults self.new) }
        ensures quiet { draft_faults failed ≡ 0 → bench_faults self.new ≡ bench_faults self.old }
        ensures later { bench_faults self.old ≤ bench_faults self.new }
        ensures drafts { drafts_made self.new ≡ drafts_made self.old }
        ensures given { given_ids self.new ≡ given_ids self.old }
        ensures same { failing_calls self.new ≡ failing_calls self.old }
    {
        if failed.faults.get() > 0 {
            self.faults.rise();
        }
    }
}
