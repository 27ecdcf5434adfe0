// What a run printed for its last commands.
ghost use Rattle.std.specs.Prelude.{◌≡◌};
ghost use Rattle.mesa_generate.specs.Excerpt as spec;

use crate::lines::behind_lines;
use mesa_model::Script;

// How many commands the prologue has before its last three.
fn before_last_three(script: &Script) -> u64
    ensures { result ≡ spec.before_last_three script.now }
{
    match script.sessions.as_slice().first() {
        Some(commands) => commands.len().saturating_sub(3) as u64,
        None => 0,
    }
}

/// What the run of a generated script printed for the script's last three commands, by all that it
/// printed. Each command before them prints one line, since none is a query.
pub fn excerpt<'a>(script: &Script, text: &'a [u8]) -> &'a [u8]
    ensures { spec.CutsOut script.now text.now result.now }
{
    behind_lines(text, before_last_three(script))
}
