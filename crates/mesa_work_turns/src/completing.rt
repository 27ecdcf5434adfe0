// A work's last turn where its merge is finished.
ghost use Rattle.std.specs.Prelude.{◌≡◌, ◌<◌, ◌++◌, ◌∷◌, [], ℕ, List, Some, true, length};
ghost use Rattle.mesa_write_turns.specs.mesa_history_spec.Claims.{is_live};
ghost use Rattle.mesa_write_turns.specs.mesa_history_spec.Machine.{swapped_reply};
ghost use Rattle.mesa_write_turns.specs.mesa_history_spec.Run.{Finished, Renewed};
ghost use Rattle.mesa_write_turns.specs.mesa_history_spec.Turns.{IsDue};
ghost use Rattle.mesa_engine.specs.mesa_store_spec.Catalog.{meta_at};
ghost use Rattle.mesa_engine.specs.EngineState.{books_of};
ghost use Rattle.mesa_engine.specs.Failure.{cause_in};
ghost use Rattle.mesa_engine.specs.Memory.{with_state};
ghost use Rattle.mesa_model.specs.declared.commands.Command.TheVariants as command;
ghost use Rattle.mesa_model.specs.declared.commands.WorkWords.{WorkWords};
ghost use Rattle.mesa_model.specs.declared.entries.Kind.TheVariants as kind;
ghost use Rattle.mesa_write_turns.specs.mesa_schema.Changes.{Lineage};
ghost use Rattle.mesa_write_turns.specs.mesa_history_spec.Rows.{Rows, no_rows};
ghost use Rattle.mesa_write_turns.specs.mesa_file_records.Finished.{HasRange, IsFinished};
ghost use Rattle.mesa_write_turns.specs.mesa_invariant_spec.Causes.{outcome_of};
ghost use Rattle.mesa_write_turns.specs.mesa_invariant_spec.Turns.{AnswersDisk, AnswersDraft, SomeRose, Takes, entry};
ghost use Rattle.mesa_write_turns.specs.mesa_invariant_spec.Invariant.{run_at};
ghost use Rattle.mesa_open_files.specs.Tasks.{claim_in};
ghost use Rattle.mesa_engine.specs.Written.{written_at};
ghost use Rattle.mesa_work_turns.specs.Merged.{HasNotSwapped, cause_unswapped, unswapped_state};
ghost use Rattle.mesa_work_turns.specs.Swept.{ClaimHolds, HasStood, IsSwept};

use crate::give_back;
use crate::lease_checking::check;
use crate::readying::{Ready, prepare};
use mesa_disk::{Disk, Made};
use mesa_engine::{Engine, Failure, Metadata, Naming, Who};
use mesa_io::Sink;
use mesa_lease::TABLES;
use mesa_model::{Kind, Outcome, Refusal, Reply, WorkWords};
use mesa_open_files::{NewDelta, Task};
use mesa_span::Work;
use mesa_write_turns::{Drops, Staged, Swapped, commit};
use std::alloc::{AllocError, Global};

// Why a range isn't swapped in, before the disk is called.
#[derive(Drop)]
pub(crate) enum Unswapped {
    Refused(Refusal),
    Memory,
}

// The reply to a work that is swapped in: its range.
fn range_of(work: Work) -> Reply
    ensures { result ≡ swapped_reply work }
{
    match work {
        Work::Base { to } => Reply::Swapped { from: 0, to },
        Work::Cumulative { from, to } => Reply::Swapped { from, to },
    }
}

// Why nothing is swapped in. Without memory the lease ends.
fn fall(metadata: &mut Metadata, table: u16, lease: u64, why: Unswapped) -> Failure
    requires { table < TABLES }
    ensures cause { cause_in result ≡ cause_unswapped why }
    ensures after { metadata.new ≡ with_state (unswapped_state why table lease metadata.old.state) metadata.old }
{
    match why {
        Unswapped::Refused(refusal) => Failure::Refused(refusal),
        Unswapped::Memory => {
            metadata.end_lease(table, lease);
            Failure::Memory
        }
    }
}

// The turn of a work whose range isn't swapped in. The disk isn't called.
fn refuse<N: Naming, M: Made, D: Disk<M>, K: Sink>(
    engine: &mut Engine<N, M, D, K>,
    who: Who,
    task: &Task<D::Reader>,
    why: Unswapped,
)
    requires due { (words : WorkWords) × IsDue N.script (run_at N.script (N.start no_rows) engine.old.shown.history) who.session who.command (command.Work words) (Renewed (claim_in task.now)) }
    requires table { task.now.table < TABLES }
    requires why { HasNotSwapped (books_of no_rows engine.old.state) (length engine.old.shown.history) (claim_in task.now) why }
    requires room { length engine.old.shown.history < N.room }
    requires runs { engine.old.shown.running ≡ true }
    ensures turn { Takes N.script (N.start no_rows) engine.old.shown engine.new.shown who.session who.command kind.Close Finished }
    ensures disk { AnswersDisk N.script (N.start no_rows) engine.old.shown engine.new.shown ⊥ }
    ensures draft { AnswersDraft N.script (N.start no_rows) engine.old.shown engine.new.shown who.session ⊥ }
    ensures state { engine.new.state ≡ unswapped_state why task.now.table task.now.lease engine.old.state }
    ensures outcome { engine.new.shown.history ≡ engine.old.shown.history ++ entry who.session who.command kind.Close (outcome_of (cause_unswapped why)) engine.new.shown.clock ∷ [] }
{
    let moment = engine.disk.clock();
    let failure = fall(&mut engine.metadata, task.table, task.lease, why);
    engine.log.fail(who, Kind::Close, moment, failure);
}

// The turn of a work whose claim holds: all memory is taken first, then the record is written with its files, and only then is the range swapped in. Where the store can't be written the vault closes. The lease ends, whatever comes.
fn swap_in<N: Naming, M: Made, D: Disk<M>, K: Sink>(
    alloc: Global,
    engine: &mut Engine<N, M, D, K>,
    who: Who,
    task: &Task<D::Reader>,
    delta: NewDelta<M>,
)
    requires due { (words : WorkWords) × IsDue N.script (run_at N.script (N.start no_rows) engine.old.shown.history) who.session who.command (command.Work words) (Renewed (claim_in task.now)) }
    requires table { task.now.table < TABLES }
    requires holds { ClaimHolds engine.old.state (length engine.old.shown.history) (claim_in task.now) }
    requires finished { (was : Lineage) × IsFinished M.bytes M.id_of D.Reader.bytes was (meta_at engine.old.state.catalogue task.now.table).lineage task.now delta
        × ((w : Rows) → N.sound w → HasRange D.Reader.bytes was task.now (written_at N.script (N.start w) (N.origin w) engine.old.shown.history task.now.table)) }
    requires told { (w : Rows) → N.sound w → (file : M) → (bytes : List ℕ) × (M.bytes file ≡ Some bytes) }
    requires room { length engine.old.shown.history < N.room }
    requires runs { engine.old.shown.running ≡ true }
    ensures turn { Takes N.script (N.start no_rows) engine.old.shown engine.new.shown who.session who.command kind.Close Finished }
    ensures disk { AnswersDisk N.script (N.start no_rows) engine.old.shown engine.new.shown (SomeRose engine.old.faults engine.new.faults) }
    ensures draft { AnswersDraft N.script (N.start no_rows) engine.old.shown engine.new.shown who.session ⊥ }
    ensures swept { HasStood engine.old.shown engine.new.shown who.session who.command → IsSwept engine.new.told engine.new.state engine.new.shown.history }
{
    let at = engine.log.position();
    let Ready {
        swapped,
        gone,
        framed,
        removed,
    } = match prepare(alloc, &mut engine.metadata, at, task, delta) {
        Ok(ready) => ready,
        Err(AllocError) => {
            refuse(engine, who, task, Unswapped::Memory);
            return;
        }
    };
    let Swapped {
        entry,
        made,
        adopted,
    } = swapped;
    let staged = Staged {
        entry,
        framed,
        made,
        adopted,
    };
    let drops = Some(Drops { gone, removed });
    let committed = commit(&mut engine.disk, &mut engine.metadata, at, staged, drops);
    engine.metadata.end_lease(task.table, task.lease);
    let moment = engine.disk.clock();
    match committed {
        Ok(()) => {
            let reply = range_of(task.work);
            let turn = who.turn(Kind::Close, Outcome::Stands, moment);
            engine.log.tell(turn, at, &reply, b"");
        }
        Err(_) => {
            engine
                .log
                .fail(who, Kind::Close, moment, Failure::Unwritten);
        }
    }
}

// The turn of a work. What it was handed isn't given back yet.
fn close<N: Naming, M: Made, D: Disk<M>, K: Sink>(
    alloc: Global,
    engine: &mut Engine<N, M, D, K>,
    who: Who,
    task: &Task<D::Reader>,
    delta: NewDelta<M>,
)
    requires due { (words : WorkWords) × IsDue N.script (run_at N.script (N.start no_rows) engine.old.shown.history) who.session who.command (command.Work words) (Renewed (claim_in task.now)) }
    requires table { task.now.table < TABLES }
    requires finished { is_live engine.old.state.leases task.now.table task.now.lease ≡ true → (was : Lineage) × IsFinished M.bytes M.id_of D.Reader.bytes was (meta_at engine.old.state.catalogue task.now.table).lineage task.now delta
        × ((w : Rows) → N.sound w → HasRange D.Reader.bytes was task.now (written_at N.script (N.start w) (N.origin w) engine.old.shown.history task.now.table)) }
    requires told { (w : Rows) → N.sound w → (file : M) → (bytes : List ℕ) × (M.bytes file ≡ Some bytes) }
    requires room { length engine.old.shown.history < N.room }
    requires runs { engine.old.shown.running ≡ true }
    ensures turn { Takes N.script (N.start no_rows) engine.old.shown engine.new.shown who.session who.command kind.Close Finished }
    ensures disk { AnswersDisk N.script (N.start no_rows) engine.old.shown engine.new.shown (SomeRose engine.old.faults engine.new.faults) }
    ensures draft { AnswersDraft N.script (N.start no_rows) engine.old.shown engine.new.shown who.session ⊥ }
    ensures swept { HasStood engine.old.shown engine.new.shown who.session who.command → ClaimHolds engine.old.state (length engine.old.shown.history) (claim_in task.now) → IsSwept engine.new.told engine.new.state engine.new.shown.history }
{
    let at = engine.log.position();
    match check(&engine.metadata, task.table, task.lease, at) {
        Ok(()) => swap_in(alloc, engine, who, task, delta),
        Err(refusal) => {
            drop(delta);
            refuse(engine, who, task, Unswapped::Refused(refusal));
        }
    }
}

/// The turn that closes a work whose merge is finished: its range is swapped in, unless its lease is lost or the vault has closed, and then nothing changes. Else its lease ends with the turn, also where there is no memory, or where the store can't be written: that closes the vault. All that it was handed is given back.
pub fn complete<N: Naming, M: Made, D: Disk<M>, K: Sink>(
    alloc: Global,
    engine: &mut Engine<N, M, D, K>,
    who: Who,
    words: &WorkWords,
    task: Task<D::Reader>,
    delta: NewDelta<M>,
)
    requires due { IsDue N.script (run_at N.script (N.start no_rows) engine.old.shown.history) who.session who.command (command.Work words.now) (Renewed (claim_in task)) }
    requires table { task.table < TABLES }

    // While the work's lease is its table's last one and hasn't ended, the table isn't recast: what was merged can be told of it.
    requires finished { is_live engine.old.state.leases task.table task.lease ≡ true → (was : Lineage) × IsFinished M.bytes M.id_of D.Reader.bytes was (meta_at engine.old.state.catalogue task.table).lineage task delta
        × ((w : Rows) → N.sound w → HasRange D.Reader.bytes was task (written_at N.script (N.start w) (N.origin w) engine.old.shown.history task.table)) }
    requires told { (w : Rows) → N.sound w → (file : M) → (bytes : List ℕ) × (M.bytes file ≡ Some bytes) }
    requires room { length engine.old.shown.history < N.room }
    requires runs { engine.old.shown.running ≡ true }
    ensures turn { Takes N.script (N.start no_rows) engine.old.shown engine.new.shown who.session who.command kind.Close Finished }
    ensures disk { AnswersDisk N.script (N.start no_rows) engine.old.shown engine.new.shown (SomeRose engine.old.faults engine.new.faults) }
    ensures draft { AnswersDraft N.script (N.start no_rows) engine.old.shown engine.new.shown who.session ⊥ }

    // Where its claim holds and its turn stands, the range is swapped in: then each file that is there is one that the catalogue, a held pin or an open query names.
    ensures swept { HasStood engine.old.shown engine.new.shown who.session who.command → ClaimHolds engine.old.state (length engine.old.shown.history) (claim_in task) → IsSwept engine.new.told engine.new.state engine.new.shown.history }
{
    close(alloc, engine, who, &task, delta);
    give_back(engine, task);
}
