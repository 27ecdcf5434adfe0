// The command line.
ghost use Rattle.std.specs.Prelude.{◌≡◌, IfOk};
ghost use Rattle.clap.specs.Words.{app_of, with_subcommand};
ghost use Rattle.mesa_parse.specs.Command.{digest, gen, mesa};

use clap::{Arg, Command};
use std::alloc::{AllocError, Global};

// Adds `gen` with its two texts.
fn with_gen<'a>(alloc: Global, command: Command<'a>) -> Result<Command<'a>, AllocError>
    ensures { IfOk result (λ more. app_of more ≡ with_subcommand (app_of command.entry) gen.top) }
{
    let seed = Arg::new(alloc, "seed").required(true);
    let versions = Arg::new(alloc, "versions").required(true);
    let generate = Command::new(alloc, "gen").arg(seed)?.arg(versions)?;
    command.subcommand(generate)
}

// Adds `digest` with its one.
fn with_digest<'a>(alloc: Global, command: Command<'a>) -> Result<Command<'a>, AllocError>
    ensures { IfOk result (λ more. app_of more ≡ with_subcommand (app_of command.entry) digest.top) }
{
    let relation = Arg::new(alloc, "relation").required(true);
    let digest = Command::new(alloc, "digest").arg(relation)?;
    command.subcommand(digest)
}

/// The command line: four commands, of which `gen` has two texts and `digest` has one.
pub(crate) fn mesa_command<'a>(alloc: Global) -> Result<Command<'a>, AllocError>
    ensures { IfOk result (λ command. app_of command ≡ mesa) }
{
    let checks = Command::new(alloc, "mesa")
        .no_binary_name(true)
        .disable_help_flag(true)
        .disable_help_subcommand(true)
        .subcommand_required(true)
        .subcommand(Command::new(alloc, "run"))?
        .subcommand(Command::new(alloc, "check"))?;
    let generates = with_gen(alloc, checks)?;
    with_digest(alloc, generates)
}
