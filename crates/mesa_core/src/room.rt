// How many turns a run may have.
ghost use Rattle.std.specs.Prelude.{◌≡◌, ◌≤◌};
ghost use Rattle.mesa_engine.specs.Engine.{most_turns};
ghost use Rattle.mesa_core.specs.Passes.{turns_of as turns_in};

use mesa_model::{Script, Session};

/// How many turns the run of a script may have: three for each command.
pub fn turns_of(script: &Script) -> u64
    requires few { turns_in script.now.sessions ≤ most_turns }
    ensures { result ≡ turns_in script.now.sessions }
{
    turns_for(script.sessions.as_slice())
}

fn turns_for(sessions: &[Session]) -> u64
    requires few { turns_in sessions.now ≤ most_turns }
    ensures { result ≡ turns_in sessions.now }
{
    let mut turns = 0;
    for commands in sessions {
        turns += 3 * commands.len() as u64;
    }
    turns
}
