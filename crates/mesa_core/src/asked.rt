// What a turn's script asks.
ghost use Rattle.std.specs.Prelude.{◌≡◌, Some};
ghost use Rattle.mesa_core.specs.Asked.{lent_command};
ghost use Rattle.mesa_recast_turns.specs.mesa_history_spec.Run.{command_at};
ghost use Rattle.mesa_model.specs.declared.commands.Command.TheVariants as command;
ghost use Rattle.mesa_recast_turns.specs.mesa_history_spec.Legal.{is_query};
ghost use Rattle.mesa_core.specs.Passes.{HasSort};
ghost use Rattle.mesa_recast_turns.specs.mesa_invariant_spec.Turns.{is_load, is_merge, is_recast};

use mesa_batch::LoadRows;
use mesa_engine::Who;
use mesa_filter::QueryWords;
use mesa_model::{Command, RecastWords, Script, WorkWords};

// The command of a turn; commands are counted from 1.
pub(crate) fn command_of(script: &Script, who: Who) -> Option<&Command>
    ensures { lent_command result ≡ command_at script.now who.session who.command }
{
    let session = script.sessions.as_slice().get(who.session as usize)?;
    let place = who.command.checked_sub(1)?;
    session.as_slice().get(place as usize)
}

// The rows of the load that a turn is of.
pub(crate) fn rows_of(script: &Script, who: Who) -> &LoadRows
    requires { HasSort script.now who.session who.command is_load }
    ensures { command_at script.now who.session who.command ≡ Some (command.Load result.now) }
{
    match command_of(script, who) {
        Some(Command::Load(rows)) => rows,
        _ => unreachable!(),
    }
}

// The words of the query that a turn is of.
pub(crate) fn words_of(script: &Script, who: Who) -> &QueryWords
    requires { HasSort script.now who.session who.command is_query }
    ensures { command_at script.now who.session who.command ≡ Some (command.Query result.now) }
{
    match command_of(script, who) {
        Some(Command::Query(words)) => words,
        _ => unreachable!(),
    }
}

// The words of the work that a turn is of.
pub(crate) fn work_of(script: &Script, who: Who) -> &WorkWords
    requires { HasSort script.now who.session who.command is_merge }
    ensures { command_at script.now who.session who.command ≡ Some (command.Work result.now) }
{
    match command_of(script, who) {
        Some(Command::Work(words)) => words,
        _ => unreachable!(),
    }
}

// The words of the recast that a turn is of.
pub(crate) fn recast_of(script: &Script, who: Who) -> &RecastWords
    requires { HasSort script.now who.session who.command is_recast }
    ensures { command_at script.now who.session who.command ≡ Some (command.Recast result.now) }
{
    match command_of(script, who) {
        Some(Command::Recast(words)) => words,
        _ => unreachable!(),
    }
}
