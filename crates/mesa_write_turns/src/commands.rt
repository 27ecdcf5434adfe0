// The turns of a table, a view, a change of columns and an expiry.
ghost use Rattle.std.specs.Prelude.{◌≡◌, ◌<◌, true, length};
ghost use Rattle.mesa_disk.specs.Story.{Steps};
ghost use Rattle.mesa_file_records.specs.mesa_history_spec.Run.{First, Finished};
ghost use Rattle.mesa_file_records.specs.mesa_history_spec.Turns.{IsDue};
ghost use Rattle.mesa_model.specs.declared.commands.Command.TheVariants as command;
ghost use Rattle.mesa_model.specs.declared.entries.Kind.TheVariants as kind;
ghost use Rattle.mesa_file_records.specs.mesa_history_spec.Rows.{no_rows};
ghost use Rattle.mesa_engine.specs.mesa_invariant_spec.Turns.{AnswersDisk, SomeRose, Takes};
ghost use Rattle.mesa_engine.specs.mesa_invariant_spec.Invariant.{run_at};
ghost use Rattle.mesa_write_turns.specs.Writing.{KeepsFiles};

use crate::deciding::decide;
use crate::ruling::{rule_alter, rule_expire, rule_table, rule_view};
use mesa_columns::Words;
use mesa_disk::{Disk, Made};
use mesa_engine::{Engine, Naming, Who};
use mesa_io::Sink;
use mesa_model::{AlterWords, TableWords, ViewWords};
use std::alloc::Global;

/// The turn that makes a table.
pub fn table<N: Naming, M: Made, D: Disk<M>, K: Sink>(
    alloc: Global,
    engine: &mut Engine<N, M, D, K>,
    who: Who,
    words: &TableWords,
)
    requires due { IsDue N.script (run_at N.script (N.start no_rows) engine.old.shown.history) who.session who.command (command.Table words.now) First }
    requires room { length engine.old.shown.history < N.room }
    requires runs { engine.old.shown.running ≡ true }
    ensures turn { Takes N.script (N.start no_rows) engine.old.shown engine.new.shown who.session who.command kind.Decide Finished }
    ensures disk { AnswersDisk N.script (N.start no_rows) engine.old.shown engine.new.shown (SomeRose engine.old.faults engine.new.faults) }
    ensures keeps { Steps KeepsFiles engine.old.told engine.new.told }
{
    decide(
        alloc,
        engine,
        who,
        |metadata| rule_table(alloc, metadata, words),
    );
}

/// The turn that makes a view of a table.
pub fn view<N: Naming, M: Made, D: Disk<M>, K: Sink>(
    alloc: Global,
    engine: &mut Engine<N, M, D, K>,
    who: Who,
    words: &ViewWords,
)
    requires due { IsDue N.script (run_at N.script (N.start no_rows) engine.old.shown.history) who.session who.command (command.View words.now) First }
    requires room { length engine.old.shown.history < N.room }
    requires runs { engine.old.shown.running ≡ true }
    ensures turn { Takes N.script (N.start no_rows) engine.old.shown engine.new.shown who.session who.command kind.Decide Finished }
    ensures disk { AnswersDisk N.script (N.start no_rows) engine.old.shown engine.new.shown (SomeRose engine.old.faults engine.new.faults) }
    ensures keeps { Steps KeepsFiles engine.old.told engine.new.told }
{
    decide(
        alloc,
        engine,
        who,
        |metadata| rule_view(alloc, metadata, words),
    );
}

/// The turn that changes a table's columns.
pub fn alter<N: Naming, M: Made, D: Disk<M>, K: Sink>(
    alloc: Global,
    engine: &mut Engine<N, M, D, K>,
    who: Who,
    words: &AlterWords,
)
    requires due { IsDue N.script (run_at N.script (N.start no_rows) engine.old.shown.history) who.session who.command (command.Alter words.now) First }
    requires room { length engine.old.shown.history < N.room }
    requires runs { engine.old.shown.running ≡ true }
    ensures turn { Takes N.script (N.start no_rows) engine.old.shown engine.new.shown who.session who.command kind.Decide Finished }
    ensures disk { AnswersDisk N.script (N.start no_rows) engine.old.shown engine.new.shown (SomeRose engine.old.faults engine.new.faults) }
    ensures keeps { Steps KeepsFiles engine.old.told engine.new.told }
{
    decide(
        alloc,
        engine,
        who,
        |metadata| rule_alter(alloc, metadata, words),
    );
}

/// The turn that lets the versions below one go, of the table that is named or of all.
pub fn expire<N: Naming, M: Made, D: Disk<M>, K: Sink>(
    alloc: Global,
    engine: &mut Engine<N, M, D, K>,
    who: Who,
    table: &Option<Words>,
    version: u32,
)
    requires due { IsDue N.script (run_at N.script (N.start no_rows) engine.old.shown.history) who.session who.command (command.Expire table.now version) First }
    requires room { length engine.old.shown.history < N.room }
    requires runs { engine.old.shown.running ≡ true }
    ensures turn { Takes N.script (N.start no_rows) engine.old.shown engine.new.shown who.session who.command kind.Decide Finished }
    ensures disk { AnswersDisk N.script (N.start no_rows) engine.old.shown engine.new.shown (SomeRose engine.old.faults engine.new.faults) }
    ensures keeps { Steps KeepsFiles engine.old.told engine.new.told }
{
    decide(
        alloc,
        engine,
        who,
        |metadata| rule_expire(metadata, table, version),
    );
}
