// A pin of a version.
ghost use Rattle.std.specs.Prelude.{◌≡◌, ◌<◌, ℕ, true, length, IfErr, IfOk, OnOk, None, Err};
ghost use Rattle.mesa_engine.specs.mesa_history_spec.Run.{First, Finished};
ghost use Rattle.mesa_engine.specs.mesa_history_spec.Turns.{IsDue};
ghost use Rattle.mesa_engine.specs.EngineState.{books_of};
ghost use Rattle.mesa_model.specs.Pins.{make_pin};
ghost use Rattle.mesa_model.specs.declared.commands.Command.TheVariants as command;
ghost use Rattle.mesa_model.specs.declared.entries.Kind.TheVariants as kind;
ghost use Rattle.mesa_engine.specs.mesa_history_spec.Rows.{no_rows};
ghost use Rattle.mesa_engine.specs.mesa_invariant_spec.Changes.{MakesPin};
ghost use Rattle.mesa_engine.specs.mesa_invariant_spec.Turns.{AnswersDisk, Takes};
ghost use Rattle.mesa_engine.specs.mesa_invariant_spec.Invariant.{run_at};

use mesa_disk::{Disk, Made};
use mesa_engine::{Engine, Failure, Metadata, Naming, Who};
use mesa_filter::VersionWord;
use mesa_io::Sink;
use mesa_model::{Kind, Outcome, Refusal, Reply};

// The version that a pin is made of, or why none is made.
fn version_for(metadata: &Metadata, asked: VersionWord) -> Result<u32, Refusal>
    ensures pinned { IfOk result (λ version. (session : ℕ) → MakesPin (books_of no_rows metadata.now.state) session asked version) }
    ensures opened { OnOk result (metadata.now.state.closed ≡ None) }
    ensures refused { IfErr result (λ x. (session : ℕ) → make_pin (books_of no_rows metadata.now.state).bare session asked ≡ Err x) }
{
    metadata.check_open()?;
    mesa_validate::pin(metadata.catalog(), asked, metadata.pins())
}

/// The turn of a pin: the session keeps a version, with its files, until it releases it.
pub fn pin<N: Naming, M: Made, D: Disk<M>, K: Sink>(
    engine: &mut Engine<N, M, D, K>,
    who: Who,
    asked: VersionWord,
)
    requires due { IsDue N.script (run_at N.script (N.start no_rows) engine.old.shown.history) who.session who.command (command.Pin asked) First }
    requires room { length engine.old.shown.history < N.room }
    requires runs { engine.old.shown.running ≡ true }
    ensures turn { Takes N.script (N.start no_rows) engine.old.shown engine.new.shown who.session who.command kind.Decide Finished }
    ensures disk { AnswersDisk N.script (N.start no_rows) engine.old.shown engine.new.shown ⊥ }
    ensures told { engine.new.told ≡ engine.old.told }
    ensures catalogue { engine.new.state.catalogue ≡ engine.old.state.catalogue }
{
    let version = match version_for(&engine.metadata, asked) {
        Ok(version) => version,
        Err(refusal) => return engine.fail(who, Kind::Decide, Failure::Refused(refusal)),
    };
    let at = engine.log.position();
    let Ok(token) = engine.metadata.pin(who.session, version, at) else {
        return engine.fail(who, Kind::Decide, Failure::Memory);
    };
    let turn = who.turn(Kind::Decide, Outcome::Stands, engine.disk.clock());
    let reply = Reply::Pinned { token, version };
    engine.log.tell(turn, at, &reply, b"");
}
