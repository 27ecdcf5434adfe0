//! Runs a script from standard input, or the one that a seed gives, over the store in the folder `mesa-store`, or checks that store, and prints to standard output.
#![tactic(auto)]

use mesa_shell::program;
use std::process::ExitCode;

fn main(rt: HostRuntime) -> ExitCode {
    program(&rt, rt)
}
