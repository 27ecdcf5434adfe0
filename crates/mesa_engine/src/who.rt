// Whose a turn is.
ghost use Rattle.std.specs.Prelude.{◌≡◌};
ghost use Rattle.mesa_model.specs.Entry.{IsShort};
ghost use Rattle.mesa_invariant_spec.specs.Turns.{entry};

use mesa_model::{Entry, Kind, Outcome};

/// Which command of which session. A session's commands count from 1.
#[derive(Clone, Copy, Debug, PartialEq, Eq)]
pub struct Who {
    pub session: u16,
    pub command: u32,
}

impl Who {
    /// The entry of a turn of this command.
    pub fn turn(self, kind: Kind, outcome: Outcome, moment: u64) -> Entry
        ensures same { result ≡ entry self.session self.command kind outcome moment }
        ensures short { IsShort result }
    {
        Entry {
            session: self.session,
            command: self.command,
            kind,
            outcome,
            moment,
        }
    }
}
