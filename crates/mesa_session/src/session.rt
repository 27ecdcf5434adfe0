// A session's run.
ghost use Rattle.std.specs.Prelude.{◌≡◌, ◌<◌, ◌≤◌, ◌*◌, ◌^◌, length};
ghost use Rattle.mesa_session_turns.specs.mesa_history_spec.Run.{First, commands_of as commands_in};
ghost use Rattle.mesa_session_turns.specs.mesa_history_spec.Rows.{no_rows};
ghost use Rattle.mesa_session_turns.specs.mesa_core.Answers.{Answers};
ghost use Rattle.mesa_session_turns.specs.mesa_core.Passes.{Gains, HasEnded, Mine, Took, at_stage};

use crate::gate::{Gate, Point};
use mesa_disk::{Bench, Disk, Made};
use mesa_file::Serials;
use mesa_io::Sink;
use mesa_model::{Command, Script};
use mesa_session_turns::{DeltaDisk, Naming, Vault, Who};
use mesa_turn::{Pass, TurnLock};
use std::alloc::Global;
use std::sync::Wait;
use std::thread::Threads;

// A session's commands.
fn commands_of(script: &Script, session: u16) -> &[Command]
    requires { session < length script.now.sessions }
    ensures { result.now ≡ commands_in script.now session }
{
    script.sessions.as_slice()[session as usize].as_slice()
}

/// What the sessions of a script have for their turns, and between them: threads, memory, the lock that the vault is in,
/// the script, the number of the vault's run, and where they may be held. A session's bench and the ids of its drafts are
/// handed to each command, which changes them.
#[derive(Drop)]
pub struct Sessions<'a, 's, N: Naming + Send, M: Made, D: Disk<M>, K: Sink + Send, R, G> {
    pub rt: &'a R,
    pub alloc: Global,
    pub lock: &'a TurnLock<Vault<'s, N, M, D, K>>,
    pub script: &'a Script,
    pub run: u32,
    pub gate: &'a G,
}

/// Runs a session's commands, to their end or to a turn that finds that the sink has failed. The pass holds the
/// session's name and has none of its turns; that of session 0 holds all names. May wait.
pub fn run_session<
    'a,
    's,
    N: Naming + Send,
    M: Made,
    D: DeltaDisk<M>,
    K: Sink + Send,
    R: Threads + Wait + Sync,
    B: Bench<M>,
    G: Gate,
>(at: &Sessions<'a, 's, N, M, D, K, R, G>, pass: Pass, session: u16, bench: &mut B) -> Pass
    requires lock { pass.lock ≡ at.now.lock.now }
    requires script { at.now.script.now ≡ N.script }
    requires run { (at.now.run ≡ (N.origin no_rows).run) × (at.now.run < 2 ^ 24) }
    requires few { length N.script.sessions ≤ 8 }
    requires there { session < length N.script.sessions }
    requires commands { length (commands_in N.script session) ≤ 200000 }
    requires room { (3 * length (commands_in N.script session) ≤ pass.room) × (pass.limit ≤ N.room) }
    requires mine { Mine N.script (N.start no_rows) pass session (at_stage 1 First) }

    // The pass has seen more, and keeps its names and its own positions; at most three turns a command were taken.
    ensures took { Took session pass result (3 * length (commands_in N.script session)) }

    // The positions that became its own are those of the session's entries, which are all of its turns, or those up to a skipped one.
    ensures gains { Gains session pass result }
    ensures ended { HasEnded N.script (N.start no_rows) result session }

    // Of the faults of the session's bench no more were answered than its count rose by.
    ensures answers { Answers N.script (N.start no_rows) session pass result (B.faults bench.old) (B.faults bench.new) 0 }
{
    at.gate.reach(at.rt, Point::Started, session);
    let mut pass = pass;
    let mut ids = Serials::new(at.run, session as u8);
    let commands = commands_of(at.script, session);
    'commands: for (i, command) in commands.iter().enumerate() {
        let who = Who {
            session,
            command: i as u32 + 1,
        };
        let (next, ran) = at.run_command(pass, who, command, bench, &mut ids);
        pass = next;
        if !ran {
            return pass;
        }
        at.gate.reach(at.rt, Point::Printed, session);
    }
    pass
}
