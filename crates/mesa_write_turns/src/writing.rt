// A turn that writes.
ghost use Rattle.std.specs.Prelude.{◌≡◌, ◌<◌, true, length, Some, Ok, IsTrue, IfOk, OnErr, OnOk};
ghost use Rattle.mesa_disk.specs.Story.{Steps};
ghost use Rattle.mesa_file_records.specs.mesa_history_spec.Run.{Finished};
ghost use Rattle.mesa_engine.specs.mesa_store_spec.Fitting.{fits};
ghost use Rattle.mesa_file_records.specs.mesa_key.Spelling.{AreBytes};
ghost use Rattle.mesa_model.specs.declared.entries.Kind.TheVariants as kind;
ghost use Rattle.mesa_file_records.specs.Published.{AllTell};
ghost use Rattle.mesa_record.specs.Reading.{record_at};
ghost use Rattle.mesa_record.specs.Rules.{keeps_rules};
ghost use Rattle.mesa_file_records.specs.mesa_history_spec.Rows.{Rows, no_rows};
ghost use Rattle.mesa_engine.specs.mesa_invariant_spec.Turns.{AnswersDisk, AnswersDraft, SomeRose, Takes};
ghost use Rattle.mesa_engine.specs.mesa_invariant_spec.Invariant.{run_at};
ghost use Rattle.mesa_write_turns.specs.Writing.{IsToWrite, KeepsFiles};

use crate::committing::{Staged, commit};
use mesa_disk::{Adoption, Disk, Made};
use mesa_engine::{Engine, Failure, Metadata, Naming, Who};
use mesa_io::Sink;
use mesa_journal::Framed;
use mesa_model::{Kind, Outcome, Reply};
use mesa_record::Record;
use mesa_recover::frame;
use std::alloc::{AllocError, Global};

/// What a turn writes: its record, the files that it adopts, how many the run has adopted with them,
/// and what is told once it is written.
#[derive(Drop)]
pub struct Change<M: Drop> {
    pub writes: Record,
    pub made: Vec<Adoption<M>>,
    pub adopted: u64,
    pub tells: Reply,
}

// All memory that it takes to write a record: its frame, and its place in the vault's memory.
fn prepare(alloc: Global, metadata: &mut Metadata, writes: &Record) -> Result<Framed, AllocError>
    requires rules { IsTrue (keeps_rules writes.now) }
    requires fit { IsTrue (fits metadata.old.state.catalogue writes.now) }
    ensures reads { IfOk result (λ r. record_at r ≡ Ok writes.now) }
    ensures bytes { IfOk result (λ r. AreBytes r) }
    ensures reserved { OnOk result (metadata.new ≡ record metadata.old { reserved = Some (record { entry = writes.now; dropped = 0 }) }) }
    ensures err { OnErr result (metadata.new ≡ metadata.old) }
{
    let framed = frame(alloc, writes)?;
    metadata.reserve(writes, 0)?;
    Ok(framed)
}

/// The turn that decides a command by writing what it asks for. Where the store can't be written the
/// vault closes. Files that wait are left to the swap of a work.
pub fn write<N: Naming, M: Made, D: Disk<M>, K: Sink>(
    alloc: Global,
    engine: &mut Engine<N, M, D, K>,
    who: Who,
    change: Change<M>,
)
    requires change { IsToWrite M.bytes N.script (run_at N.script (N.start no_rows) engine.old.shown.history) engine.old.state who.session who.command change }
    requires told { (w : Rows) → N.sound w → AllTell M.bytes change.made.items }
    requires room { length engine.old.shown.history < N.room }
    requires runs { engine.old.shown.running ≡ true }
    ensures turn { Takes N.script (N.start no_rows) engine.old.shown engine.new.shown who.session who.command kind.Decide Finished }
    ensures disk { AnswersDisk N.script (N.start no_rows) engine.old.shown engine.new.shown (SomeRose engine.old.faults engine.new.faults) }
    ensures keeps { Steps KeepsFiles engine.old.told engine.new.told }
    ensures draft { AnswersDraft N.script (N.start no_rows) engine.old.shown engine.new.shown who.session ⊥ }
{
    let at = engine.log.position();
    let framed = match prepare(alloc, &mut engine.metadata, &change.writes) {
        Ok(framed) => framed,
        Err(AllocError) => {
            drop(change);
            return engine.fail(who, Kind::Decide, Failure::Memory);
        }
    };
    let Change {
        writes,
        made,
        adopted,
        tells,
    } = change;
    let staged = Staged {
        entry: writes,
        framed,
        made,
        adopted,
    };
    match commit(&mut engine.disk, &mut engine.metadata, at, staged, None) {
        Ok(()) => {
            let turn = who.turn(Kind::Decide, Outcome::Stands, engine.disk.clock());
            engine.log.tell(turn, at, &tells, b"");
        }
        Err(_) => {
            let moment = engine.disk.clock();
            engine
                .log
                .fail(who, Kind::Decide, moment, Failure::Unwritten);
        }
    }
}
