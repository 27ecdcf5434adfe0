// What the rules let a command do while the vault is open.
ghost use Rattle.std.specs.Prelude.{IfErr, IfOk};
ghost use Rattle.mesa_model.specs.declared.commands.Command.TheVariants as command;
ghost use Rattle.mesa_write_turns.specs.Ruling.{IsAllowed, IsRefused};

use mesa_columns::Words;
use mesa_engine::{Failure, Metadata};
use mesa_model::{AlterWords, TableWords, ViewWords};
use mesa_validate::Ruled;
use std::alloc::Global;

// A table that is asked for.
pub(crate) fn rule_table(
    alloc: Global,
    metadata: &Metadata,
    words: &TableWords,
) -> Result<Ruled, Failure>
    ensures allowed { IfOk result (IsAllowed metadata.now.state (command.Table words.now)) }
    ensures refused { IfErr result (IsRefused metadata.now.state (command.Table words.now)) }
{
    metadata.check_open()?;
    Ok(mesa_validate::table(alloc, metadata.catalog(), words)?)
}

// A view that is asked for.
pub(crate) fn rule_view(
    alloc: Global,
    metadata: &Metadata,
    words: &ViewWords,
) -> Result<Ruled, Failure>
    ensures allowed { IfOk result (IsAllowed metadata.now.state (command.View words.now)) }
    ensures refused { IfErr result (IsRefused metadata.now.state (command.View words.now)) }
{
    metadata.check_open()?;
    Ok(mesa_validate::view(alloc, metadata.catalog(), words)?)
}

// A change of a table's columns that is asked for.
pub(crate) fn rule_alter(
    alloc: Global,
    metadata: &Metadata,
    words: &AlterWords,
) -> Result<Ruled, Failure>
    ensures allowed { IfOk result (IsAllowed metadata.now.state (command.Alter words.now)) }
    ensures refused { IfErr result (IsRefused metadata.now.state (command.Alter words.now)) }
{
    metadata.check_open()?;
    Ok(mesa_validate::alter(alloc, metadata.catalog(), words)?)
}

// An expiry of the versions below this one, of the table that is named or of all.
pub(crate) fn rule_expire(
    metadata: &Metadata,
    table: &Option<Words>,
    version: u32,
) -> Result<Ruled, Failure>
    ensures allowed { IfOk result (IsAllowed metadata.now.state (command.Expire table.now version)) }
    ensures refused { IfErr result (IsRefused metadata.now.state (command.Expire table.now version)) }
{
    metadata.check_open()?;
    let catalog = metadata.catalog();
    match table {
        None => Ok(mesa_validate::expire(catalog, version)?),
        Some(name) => Ok(mesa_validate::expire_table(catalog, name.as_slice(), version)?),
    }
}
