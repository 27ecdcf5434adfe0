ghost use Rattle.std.specs.Prelude.{◌≡◌, ◌<◌, ◌≤◌, ℕ, List, [], ◌++◌, IfOk, IfErr, OnOk, Option, Some, option_map};
ghost use Rattle.mesa_disk.specs.declared.failures.DraftError.TheVariants.{Failed};
ghost use Rattle.mesa_io.specs.Causes.{Rose, HasFaultCause};

use crate::{DraftError, FileId, Made};

/// A file that is being written. No image shows it.
pub trait Draft<M: Made>: Send + Sized {
    /// The number of its id.
    ghost id_of: { Self → ℕ };

    /// Its bytes so far, where they are told.
    ghost bytes: { Self → Option (List ℕ) };

    /// How often it has failed.
    ghost faults: { Self → ℕ };

    /// Adds bytes at the end. After an `Err` the draft may only be given back to its bench.
    fn append(&mut self, piece: &[u8]) -> Result<(), DraftError>
        ensures appended { OnOk result (bytes self.new ≡ option_map (λ b. b ++ piece.now) (bytes self.old)) }
        ensures id { id_of self.new ≡ id_of self.old }
        ensures cause { HasFaultCause (λ e. e ≡ Failed) (faults self.old) (faults self.new) result };

    /// The file, or the draft as it was.
    fn finish(self) -> Result<M, (DraftError, Self)>
        ensures bytes { IfOk result (λ m. M.bytes m ≡ bytes self) }
        ensures id { IfOk result (λ m. M.id_of m ≡ id_of self) }
        ensures given_back { IfErr result (λ e. (bytes e.1 ≡ bytes self) × (id_of e.1 ≡ id_of self)) }
        ensures cause { IfErr result (λ e. (faults self ≤ faults e.1) × (e.0 ≡ Failed → Rose (faults self) (faults e.1))) }
        ensures quiet { IfErr result (λ e. (e.0 ≡ Failed → ⊥) → faults e.1 ≡ faults self) };
}

/// Where drafts are made.
pub trait Bench<M: Made>: Send {
    type Draft: Draft<M>;

    /// How often it has failed.
    ghost faults: { Self → ℕ };

    /// An empty draft under this id.
    fn draft(&mut self, id: FileId) -> Result<Self::Draft, DraftError>
        ensures id { IfOk result (λ d. Self.Draft.id_of d ≡ id) }
        ensures empty { IfOk result (λ d. (b : List ℕ) → Self.Draft.bytes d ≡ Some b → b ≡ []) }
        ensures fresh { IfOk result (λ d. Self.Draft.faults d ≡ 0) }
        ensures cause { HasFaultCause (λ e. e ≡ Failed) (faults self.old) (faults self.new) result };

    /// Takes back a draft that isn't finished. Where it has failed, and only there, the bench's count rises.
    fn spoil(&mut self, failed: Self::Draft)
        ensures counted { 0 < Self.Draft.faults failed → Rose (faults self.old) (faults self.new) }
        ensures quiet { Self.Draft.faults failed ≡ 0 → faults self.new ≡ faults self.old }
        ensures later { faults self.old ≤ faults self.new };
}
