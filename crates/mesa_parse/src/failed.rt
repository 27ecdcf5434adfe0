// Why a record isn't read.
ghost use Rattle.std.specs.Prelude.{◌≡◌};
ghost use Rattle.mesa_parse.specs.Failures.{refusal_at};

use mesa_script::{Reason, ScriptError};
use std::alloc::AllocError;

/// What is wrong with a record, or that there was no memory for what it says.
#[derive(Clone, Copy)]
pub(crate) enum Failed {
    Bad(Reason),
    Memory,
}

impl Failed {
    /// The same of the record at a place.
    pub(crate) fn at(self, place: u64) -> ScriptError
        ensures { result ≡ refusal_at place self }
    {
        match self {
            Failed::Bad(reason) => ScriptError::BadRecord { place, reason },
            Failed::Memory => ScriptError::Memory,
        }
    }
}

impl From<AllocError> for Failed {
    ghost use Rattle.mesa_parse.specs.declared.failed.Failed.TheVariants.{Memory};

    ghost from_gives = { λ _ e. e ≡ Memory };

    fn from(_: AllocError) -> Self {
        Failed::Memory
    }
}

impl From<Reason> for Failed {
    ghost use Rattle.mesa_parse.specs.declared.failed.Failed.TheVariants.{Bad};

    ghost from_gives = { λ reason e. e ≡ Bad reason };

    fn from(reason: Reason) -> Self {
        Failed::Bad(reason)
    }
}
