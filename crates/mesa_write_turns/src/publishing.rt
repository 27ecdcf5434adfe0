// A load's deciding turn.
ghost use Rattle.std.specs.Prelude.{◌≡◌, ◌+◌, ◌<◌, ◌^◌, true, ℕ, List, Some, Err, IfErr, IfOk, length};
ghost use Rattle.mesa_engine.specs.mesa_catalog.Lookups.{sight_of};
ghost use Rattle.mesa_disk.specs.Story.{Steps};
ghost use Rattle.mesa_file_records.specs.mesa_history_spec.Run.{Finished, Looked};
ghost use Rattle.mesa_file_records.specs.mesa_history_spec.Turns.{IsDue};
ghost use Rattle.mesa_engine.specs.mesa_store_spec.Shape.{IsCatalog};
ghost use Rattle.mesa_engine.specs.mesa_store_spec.Ids.{named};
ghost use Rattle.mesa_engine.specs.EngineState.{books_of, most_files, next_id};
ghost use Rattle.mesa_model.specs.declared.commands.Command.TheVariants as command;
ghost use Rattle.mesa_model.specs.declared.entries.Kind.TheVariants as kind;
ghost use Rattle.mesa_model.specs.Load.{load_batch};
ghost use Rattle.mesa_model.specs.Refusals.{batch_refusal};
ghost use Rattle.mesa_file_records.specs.mesa_history_spec.Rows.{Rows, no_rows};
ghost use Rattle.mesa_engine.specs.mesa_commit.Holding.{Among};
ghost use Rattle.mesa_engine.specs.mesa_invariant_spec.Causes.{Unwritten};
ghost use Rattle.mesa_engine.specs.mesa_invariant_spec.Changes.{HasFailed};
ghost use Rattle.mesa_engine.specs.mesa_invariant_spec.Turns.{AnswersDisk, AnswersDraft, SomeRose, Takes};
ghost use Rattle.mesa_engine.specs.mesa_invariant_spec.Invariant.{run_at};
ghost use Rattle.mesa_write_turns.specs.Loading.{cause_of, unready_as};
ghost use Rattle.mesa_open_files.specs.Batches.{HasPrepared};
ghost use Rattle.mesa_open_files.specs.declared.prepared.LoadError.TheVariants as load;
ghost use Rattle.mesa_write_turns.specs.declared.publishing.Unready.TheVariants as why;
ghost use Rattle.mesa_write_turns.specs.Writing.{CanWrite, KeepsFiles};

use crate::writing::{Change, write};
use mesa_batch::{BatchError, LoadRows};
use mesa_disk::{Disk, Made};
use mesa_engine::{Engine, Failure, Metadata, Naming, Who};
use mesa_file_records::{Published, Unpublished};
use mesa_io::Sink;
use mesa_model::{Kind, Refusal, Reply};
use mesa_open_files::{LoadError, Prepared};
use std::alloc::Global;

// Why a load isn't published.
#[derive(Drop)]
pub(crate) enum Unready {
    Refused(Refusal),
    Draft,
    Memory,
}

impl From<Refusal> for Unready {
    ghost use Rattle.std.specs.Prelude.{◌≡◌};
    ghost use Rattle.mesa_write_turns.specs.declared.publishing.Unready.TheVariants.{Refused};

    ghost from_gives = { λ refusal e. e ≡ Refused refusal };

    fn from(refusal: Refusal) -> Self {
        Unready::Refused(refusal)
    }
}

// Why rows make no batch, as it is told.
fn refusal_of(error: BatchError) -> Refusal
    ensures { result ≡ batch_refusal error }
{
    match error {
        BatchError::NoTable { row } => Refusal::NoTable { row: Some(row) },
        BatchError::BadRow { row, column } => Refusal::BadRow { row, column },
        BatchError::DuplicateKey { first, second } => Refusal::DuplicateKey { first, second },
        BatchError::Memory => Refusal::Memory,
    }
}

// Why a load isn't published whose rows have no files.
fn unprepared(error: LoadError) -> Unready
    ensures { result ≡ unready_as error }
{
    match error {
        LoadError::Batch(error) => Unready::Refused(refusal_of(error)),
        LoadError::Draft => Unready::Draft,
        LoadError::Memory => Unready::Memory,
    }
}

// What publishes rows whose files are made, or why they aren't published.
fn ready<M: Made>(
    alloc: Global,
    metadata: &Metadata,
    rows: &LoadRows,
    made: Result<Prepared<M>, LoadError>,
) -> Result<Change<M>, Unready>
    requires shaped { IsCatalog metadata.now.state.catalogue }
    requires given { (id : ℕ) → Among id (named metadata.now.state.catalogue) → id < next_id metadata.now.state }
    requires room { metadata.now.state.adopted + most_files < 2 ^ 40 }
    requires made { HasPrepared M.bytes M.id_of (sight_of metadata.now.state.catalogue) rows.now made }
    ensures ready { IfOk result (CanWrite M.bytes metadata.now.state (command.Load rows.now)) }
    ensures refused { IfErr result (λ e. HasFailed (books_of no_rows metadata.now.state) (command.Load rows.now) (λ w. load_batch w rows.now) (cause_of e)) }
    ensures draft { IfErr result (λ e. e ≡ why.Draft → made ≡ Err load.Draft) }
{
    metadata.check_open()?;
    match made {
        Ok(prepared) => match mesa_file_records::publish(alloc, metadata, prepared) {
            Ok(
                Published {
                    version,
                    entry,
                    made,
                    adopted,
                },
            ) => Ok(Change {
                writes: entry,
                made,
                adopted,
                tells: Reply::Loaded {
                    version,
                    rows: rows.len() as u64,
                },
            }),
            Err(Unpublished::Refused(refusal)) => Err(Unready::Refused(refusal)),
            Err(Unpublished::Memory) => Err(Unready::Memory),
        },
        Err(error) => Err(unprepared(error)),
    }
}

// The turn of a load whose files couldn't be built. Where the disk's clock stands at its last value it closes the vault.
fn undrafted<N: Naming, M: Made, D: Disk<M>, K: Sink>(
    engine: &mut Engine<N, M, D, K>,
    who: Who,
    rows: &LoadRows,
)
    requires due { IsDue N.script (run_at N.script (N.start no_rows) engine.old.shown.history) who.session who.command (command.Load rows.now) Looked }
    requires failed { HasFailed (books_of no_rows engine.old.state) (command.Load rows.now) (λ w. load_batch w rows.now) Unwritten }
    requires room { length engine.old.shown.history < N.room }
    requires runs { engine.old.shown.running ≡ true }
    ensures turn { Takes N.script (N.start no_rows) engine.old.shown engine.new.shown who.session who.command kind.Decide Finished }
    ensures disk { AnswersDisk N.script (N.start no_rows) engine.old.shown engine.new.shown (SomeRose engine.old.faults engine.new.faults) }
    ensures keeps { Steps KeepsFiles engine.old.told engine.new.told }
{
    let at = engine.log.position();
    let moment = engine.disk.clock();
    if moment < u64::MAX {
        return engine
            .log
            .fail(who, Kind::Decide, moment, Failure::Unwritten);
    }
    engine.metadata.close(at);
    engine
        .log
        .fail(who, Kind::Decide, moment, Failure::Unwritten);
}

/// The turn that publishes a load's rows, for which files were made by what the catalogue has now; or
/// that tells why it doesn't.
pub fn publish<N: Naming, M: Made, D: Disk<M>, K: Sink>(
    alloc: Global,
    engine: &mut Engine<N, M, D, K>,
    who: Who,
    rows: &LoadRows,
    made: Result<Prepared<M>, LoadError>,
)
    requires due { IsDue N.script (run_at N.script (N.start no_rows) engine.old.shown.history) who.session who.command (command.Load rows.now) Looked }
    requires made { HasPrepared M.bytes M.id_of (sight_of engine.old.state.catalogue) rows.now made }
    requires told { (w : Rows) → N.sound w → (file : M) → (bytes : List ℕ) × (M.bytes file ≡ Some bytes) }
    requires room { length engine.old.shown.history < N.room }
    requires runs { engine.old.shown.running ≡ true }
    ensures turn { Takes N.script (N.start no_rows) engine.old.shown engine.new.shown who.session who.command kind.Decide Finished }
    ensures disk { AnswersDisk N.script (N.start no_rows) engine.old.shown engine.new.shown (SomeRose engine.old.faults engine.new.faults) }
    ensures keeps { Steps KeepsFiles engine.old.told engine.new.told }
    ensures draft { AnswersDraft N.script (N.start no_rows) engine.old.shown engine.new.shown who.session (made ≡ Err load.Draft) }
{
    match ready(alloc, &engine.metadata, rows, made) {
        Ok(change) => write(alloc, engine, who, change),
        Err(Unready::Refused(refusal)) => {
            engine.fail(who, Kind::Decide, Failure::Refused(refusal));
        }
        Err(Unready::Draft) => undrafted(engine, who, rows),
        Err(Unready::Memory) => engine.fail(who, Kind::Decide, Failure::Memory),
    }
}
