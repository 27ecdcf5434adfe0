// A plan that is told.
ghost use Rattle.std.specs.Prelude.{◌≡◌, ◌<◌, true, false, length, IfErr, IfOk, Ok};
ghost use Rattle.mesa_engine.specs.Failing.{is_of_device};
ghost use Rattle.mesa_engine.specs.mesa_history_spec.Machine.{explained};
ghost use Rattle.mesa_engine.specs.mesa_history_spec.Replay.{no_rows as no_heading};
ghost use Rattle.mesa_engine.specs.mesa_history_spec.Run.{First, Finished};
ghost use Rattle.mesa_engine.specs.mesa_history_spec.Turns.{IsDue};
ghost use Rattle.mesa_engine.specs.mesa_store_spec.Shape.{IsCatalog};
ghost use Rattle.mesa_engine.specs.EngineState.{books_of};
ghost use Rattle.mesa_engine.specs.Failure.{cause_in};
ghost use Rattle.mesa_model.specs.declared.commands.Command.TheVariants as command;
ghost use Rattle.mesa_model.specs.declared.entries.Kind.TheVariants as kind;
ghost use Rattle.mesa_script.specs.Rows.{body_of};
ghost use Rattle.mesa_engine.specs.mesa_history_spec.Rows.{no_rows};
ghost use Rattle.mesa_engine.specs.mesa_invariant_spec.Changes.{HasNoPlan};
ghost use Rattle.mesa_engine.specs.mesa_invariant_spec.Turns.{AnswersDisk, Takes};
ghost use Rattle.mesa_engine.specs.mesa_invariant_spec.Invariant.{run_at};

use crate::spans::lines_of;
use mesa_disk::{Disk, Made};
use mesa_engine::{Engine, Failure, Metadata, Naming, Who};
use mesa_io::Sink;
use mesa_model::{ExplainWords, Kind, Outcome, Reply};
use std::alloc::Global;

// A reply, and the lines behind its head line.
struct Told {
    reply: Reply,
    lines: Vec<u8>,
}

// What is told of how a query would be answered, or why it isn't told.
fn planned(alloc: Global, metadata: &Metadata, words: &ExplainWords) -> Result<Told, Failure>
    requires { IsCatalog metadata.now.state.catalogue }
    ensures explained { IfOk result (λ t. explained (books_of no_rows metadata.now.state).bare (books_of no_rows metadata.now.state).machine words.now ≡ Ok t.reply) }
    ensures lines { IfOk result (λ t. t.lines.items ≡ body_of no_heading t.reply) }
    ensures refused { IfErr result (λ failure. HasNoPlan (books_of no_rows metadata.now.state) words.now (cause_in failure)) }
    ensures quiet { IfErr result (λ failure. is_of_device (cause_in failure) ≡ false) }
{
    metadata.check_open()?;
    let reply = mesa_validate::explain(alloc, metadata.catalog(), words)?;
    match lines_of(alloc, &reply) {
        Ok(lines) => Ok(Told { reply, lines }),
        Err(_) => Err(Failure::Memory),
    }
}

/// The turn of an explain: the ranges are told that a query of a relation would read, and where its filter is named the relation in whose order it would be answered.
pub fn explain<N: Naming, M: Made, D: Disk<M>, K: Sink>(
    alloc: Global,
    engine: &mut Engine<N, M, D, K>,
    who: Who,
    words: &ExplainWords,
)
    requires due { IsDue N.script (run_at N.script (N.start no_rows) engine.old.shown.history) who.session who.command (command.Explain words.now) First }
    requires room { length engine.old.shown.history < N.room }
    requires runs { engine.old.shown.running ≡ true }
    ensures turn { Takes N.script (N.start no_rows) engine.old.shown engine.new.shown who.session who.command kind.Decide Finished }
    ensures disk { AnswersDisk N.script (N.start no_rows) engine.old.shown engine.new.shown ⊥ }
    ensures told { engine.new.told ≡ engine.old.told }
    ensures state { engine.new.state ≡ engine.old.state }
{
    let found = match planned(alloc, &engine.metadata, words) {
        Ok(found) => found,
        Err(failure) => return engine.fail(who, Kind::Decide, failure),
    };
    let at = engine.log.position();
    let turn = who.turn(Kind::Decide, Outcome::Stands, engine.disk.clock());
    let Told { reply, lines } = found;
    engine.log.tell(turn, at, &reply, &lines);
}
