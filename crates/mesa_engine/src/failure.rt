// Why a turn did nothing for its command.
ghost use Rattle.std.specs.Prelude.{◌≡◌};
ghost use Rattle.mesa_engine.specs.Failure.{cause_in};
ghost use Rattle.mesa_invariant_spec.specs.Causes.{outcome_of, reply_of};

use mesa_file::Damage;
use mesa_model::{Outcome, Refusal, Reply};

/// Why a turn did nothing for its command.
#[derive(Drop)]
pub enum Failure {
    /// The reference warehouse or the range machine refuses.
    Refused(Refusal),
    /// There is nothing to merge.
    Idle,
    /// The table has a lease that holds.
    Busy { lease: u64 },
    /// A stored file couldn't be read, and the disk has counted it.
    Unread,
    /// A stored file isn't as it was recorded.
    Damaged(Damage),
    /// A file couldn't be built, or the store not be written.
    Unwritten,
    Memory,
}

impl Failure {
    /// How the turn ends.
    pub fn outcome(&self) -> Outcome
        ensures { result ≡ outcome_of (cause_in self.now) }
    {
        match self {
            Failure::Refused(_) | Failure::Idle | Failure::Busy { .. } => Outcome::Stands,
            Failure::Unread => Outcome::ReadFault,
            Failure::Damaged(_) => Outcome::Damaged,
            Failure::Unwritten => Outcome::WriteFault,
            Failure::Memory => Outcome::Memory,
        }
    }

    /// What its command is answered.
    pub fn into_reply(self) -> Reply
        ensures { result ≡ reply_of (cause_in self) }
    {
        match self {
            Failure::Refused(refusal) => Reply::Refused(refusal),
            Failure::Idle => Reply::Idle,
            Failure::Busy { lease } => Reply::Busy { lease },
            Failure::Unread => Reply::Refused(Refusal::ReadFault),
            Failure::Damaged(damage) => Reply::Refused(Refusal::Damaged(damage)),
            Failure::Unwritten => Reply::Refused(Refusal::WriteFault),
            Failure::Memory => Reply::Refused(Refusal::Memory),
        }
    }
}

impl From<Refusal> for Failure {
    ghost use Rattle.std.specs.Prelude.{◌≡◌};
    ghost use Rattle.mesa_engine.specs.declared.failure.Failure.TheVariants.{Refused};

    ghost from_gives = { λ refusal e. e ≡ Refused refusal };

    fn from(refusal: Refusal) -> Self {
        Failure::Refused(refusal)
    }
}

// Why a turn does nothing, where the rules say why.
impl From<mesa_binding::Failure> for Failure {
    ghost use Rattle.std.specs.Prelude.{◌≡◌};
    ghost use Rattle.mesa_engine.specs.Failure.{told_as};

    ghost from_gives = { λ why e. e ≡ told_as why };

    fn from(why: mesa_binding::Failure) -> Self {
        match why {
            mesa_binding::Failure::Refused(refusal) => Failure::Refused(refusal),
            mesa_binding::Failure::Memory => Failure::Memory,
        }
    }
}
