//! A test of the program: a run over the store that an earlier run left, in which all tables let versions go together and sums had 64 bits.
#![tactic(auto)]

use mesa_shell::program;
use std::process::ExitCode;

fn main(rt: HostRuntime) -> ExitCode {
    program(&rt, rt)
}
