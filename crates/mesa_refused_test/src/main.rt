//! A test of the program: a run in which a command is refused goes on, and ends with status 1.
#![tactic(auto)]

use mesa_shell::program;
use std::process::ExitCode;

fn main(rt: HostRuntime) -> ExitCode {
    program(&rt, rt)
}
