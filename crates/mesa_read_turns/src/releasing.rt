// A pin's release.
ghost use Rattle.std.specs.Prelude.{◌≡◌, ◌<◌, true, length, IfErr, OnOk, None, Err};
ghost use Rattle.mesa_engine.specs.mesa_history_spec.Run.{First, Finished};
ghost use Rattle.mesa_engine.specs.mesa_history_spec.Turns.{IsDue};
ghost use Rattle.mesa_engine.specs.EngineState.{books_of};
ghost use Rattle.mesa_model.specs.Pins.{release_pin};
ghost use Rattle.mesa_model.specs.declared.commands.Command.TheVariants as command;
ghost use Rattle.mesa_model.specs.declared.entries.Kind.TheVariants as kind;
ghost use Rattle.mesa_engine.specs.mesa_history_spec.Rows.{no_rows};
ghost use Rattle.mesa_engine.specs.mesa_invariant_spec.Changes.{ReleasesPin};
ghost use Rattle.mesa_engine.specs.mesa_invariant_spec.Turns.{AnswersDisk, Takes};
ghost use Rattle.mesa_engine.specs.mesa_invariant_spec.Invariant.{run_at};

use mesa_disk::{Disk, Made};
use mesa_engine::{Engine, Failure, Metadata, Naming, Who};
use mesa_io::Sink;
use mesa_model::{Kind, Outcome, Refusal, Reply};

// Whether a session's pin may be released, or why it isn't.
fn check_release(metadata: &Metadata, session: u16, token: u32) -> Result<(), Refusal>
    ensures refused { IfErr result (λ x. release_pin (books_of no_rows metadata.now.state).bare session token ≡ Err x) }
    ensures released { OnOk result (ReleasesPin (books_of no_rows metadata.now.state) session token) }
    ensures opened { OnOk result (metadata.now.state.closed ≡ None) }
{
    metadata.check_open()?;
    if metadata.pin_of(session, token).is_none() {
        return Err(Refusal::NoPin { token });
    }
    Ok(())
}

/// The turn of a release: the session's pin goes, and what it held may be removed by a later turn.
pub fn release<N: Naming, M: Made, D: Disk<M>, K: Sink>(
    engine: &mut Engine<N, M, D, K>,
    who: Who,
    token: u32,
)
    requires due { IsDue N.script (run_at N.script (N.start no_rows) engine.old.shown.history) who.session who.command (command.Release token) First }
    requires room { length engine.old.shown.history < N.room }
    requires runs { engine.old.shown.running ≡ true }
    ensures turn { Takes N.script (N.start no_rows) engine.old.shown engine.new.shown who.session who.command kind.Decide Finished }
    ensures disk { AnswersDisk N.script (N.start no_rows) engine.old.shown engine.new.shown ⊥ }
    ensures told { engine.new.told ≡ engine.old.told }
    ensures catalogue { engine.new.state.catalogue ≡ engine.old.state.catalogue }
{
    if let Err(refusal) = check_release(&engine.metadata, who.session, token) {
        return engine.fail(who, Kind::Decide, Failure::Refused(refusal));
    }
    engine.metadata.release(who.session, token);
    let at = engine.log.position();
    let turn = who.turn(Kind::Decide, Outcome::Stands, engine.disk.clock());
    let reply = Reply::Released { token };
    engine.log.tell(turn, at, &reply, b"");
}
