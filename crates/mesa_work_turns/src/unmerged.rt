// A work's last turn where its merge failed.
ghost use Rattle.std.specs.Prelude.{◌≡◌, ◌<◌, ◌==◌, ◌++◌, ◌∷◌, [], true, false, length, Some};
ghost use Rattle.mesa_io.specs.Causes.{last};
ghost use Rattle.mesa_write_turns.specs.mesa_history_spec.Run.{Finished, Granted};
ghost use Rattle.mesa_write_turns.specs.mesa_history_spec.Turns.{IsDue};
ghost use Rattle.mesa_engine.specs.Failure.{cause_in};
ghost use Rattle.mesa_engine.specs.Memory.{with_state};
ghost use Rattle.mesa_model.specs.declared.commands.Command.TheVariants as command;
ghost use Rattle.mesa_model.specs.declared.entries.Kind.TheVariants as kind;
ghost use Rattle.mesa_write_turns.specs.mesa_history_spec.Output.{block};
ghost use Rattle.mesa_write_turns.specs.mesa_history_spec.Rows.{Rows, no_rows};
ghost use Rattle.mesa_open_files.specs.GivingBack.{SomeFailed, task_inputs};
ghost use Rattle.mesa_open_files.specs.declared.merging.CompactError.TheVariants as compact;
ghost use Rattle.mesa_write_turns.specs.mesa_invariant_spec.Causes.{is_read_fault, outcome_of, reply_of, told_at};
ghost use Rattle.mesa_write_turns.specs.mesa_invariant_spec.Printing.{IsPut};
ghost use Rattle.mesa_write_turns.specs.mesa_invariant_spec.Turns.{AnswersDisk, AnswersDraft, SomeRose, Takes, entry};
ghost use Rattle.mesa_write_turns.specs.mesa_invariant_spec.Undamaged.{is_damaged};
ghost use Rattle.mesa_write_turns.specs.mesa_invariant_spec.Invariant.{run_at};
ghost use Rattle.mesa_open_files.specs.Tasks.{claim_in};
ghost use Rattle.mesa_work_turns.specs.Unmerged.{MergeDiffered, TellsDamage, cause_of, closing_cause, closing_state, unmerged_state};

use mesa_delta::FileError;
use mesa_disk::{Disk, Made};
use mesa_engine::{Engine, Failure, Metadata, Naming, Who};
use mesa_io::Sink;
use mesa_lease::TABLES;
use mesa_model::{Kind, WorkWords};
use mesa_open_files::{CompactError, Task, retire_task};
use mesa_read_turns::can_be_told;

// Why a merge failed.
fn failed(error: &CompactError) -> Failure
    ensures { cause_in result ≡ cause_of error.now }
{
    match *error {
        CompactError::Draft => Failure::Unwritten,
        CompactError::File(FileError::Read) => Failure::Unread,
        CompactError::File(FileError::Damaged(damage)) => Failure::Damaged(damage),
        CompactError::File(FileError::Memory) => Failure::Memory,
    }
}

/// What a merge failed of can be told.
pub fn may_be_told(error: &CompactError)
    requires { MergeDiffered error.now }
    ensures { TellsDamage (cause_of error.now) }
{
    if let CompactError::File(FileError::Damaged(damage)) = error {
        can_be_told(*damage);
    }
}

// Ends the lease of a table whose merge failed. Where the clock stands at its last value, a draft that failed can't be told from a disk that did: so it closes the vault.
fn end_lease(
    metadata: &mut Metadata,
    table: u16,
    lease: u64,
    error: &CompactError,
    at: u64,
    moment: u64,
)
    requires { table < TABLES }
    ensures { metadata.new ≡ with_state (unmerged_state error.now (moment == last) at table lease metadata.old.state) metadata.old }
{
    metadata.end_lease(table, lease);
    if let CompactError::Draft = *error {
        if moment == u64::MAX {
            metadata.close(at);
        }
    }
}

/// Why no files are brought; the lease ends, unless the vault has closed.
pub fn fall(
    metadata: &mut Metadata,
    table: u16,
    lease: u64,
    error: &CompactError,
    at: u64,
    moment: u64,
) -> Failure
    requires { table < TABLES }
    ensures cause { cause_in result ≡ closing_cause metadata.old.state.closed error.now }
    ensures after { metadata.new ≡ with_state (closing_state metadata.old.state.closed error.now (moment == last) at table lease metadata.old.state) metadata.old }
{
    if let Err(refusal) = metadata.check_open() {
        return Failure::Refused(refusal);
    }
    end_lease(metadata, table, lease, error, at, moment);
    failed(error)
}

/// The turn that closes a work whose merge failed: its lease ends, unless the vault has closed. All that it was handed is given back. Takes no memory.
pub fn give_up<N: Naming, M: Made, D: Disk<M>, K: Sink>(
    engine: &mut Engine<N, M, D, K>,
    who: Who,
    words: &WorkWords,
    task: Task<D::Reader>,
    error: CompactError,
)
    requires due { IsDue N.script (run_at N.script (N.start no_rows) engine.old.shown.history) who.session who.command (command.Work words.now) (Granted (claim_in task)) }
    requires table { task.table < TABLES }
    requires read { is_read_fault (cause_of error) ≡ true → SomeFailed D.Reader.faults (task_inputs task) }
    requires damaged { MergeDiffered error }
    // On a sound store no damage comes of a merge.
    requires undamaged { (w : Rows) → N.sound w → is_damaged (outcome_of (cause_of error)) ≡ false }
    requires room { length engine.old.shown.history < N.room }
    requires runs { engine.old.shown.running ≡ true }
    ensures turn { Takes N.script (N.start no_rows) engine.old.shown engine.new.shown who.session who.command kind.Close Finished }
    ensures disk { AnswersDisk N.script (N.start no_rows) engine.old.shown engine.new.shown (SomeRose engine.old.faults engine.new.faults) }
    ensures draft { AnswersDraft N.script (N.start no_rows) engine.old.shown engine.new.shown who.session (error ≡ compact.Draft) }
    ensures state { engine.new.state ≡ closing_state engine.old.state.closed error (engine.old.shown.clock == last) (length engine.old.shown.history) task.table task.lease engine.old.state }
    // It ends as its argument says, unless the vault has closed: with want of memory, a fault or damage only where that has it.
    ensures outcome { engine.new.shown.history ≡ engine.old.shown.history ++ entry who.session who.command kind.Close (outcome_of (closing_cause engine.old.state.closed error)) engine.new.shown.clock ∷ [] }
    // And that is what it prints: no other damage.
    ensures prints { IsPut (block (entry who.session who.command kind.Close (outcome_of (closing_cause engine.old.state.closed error)) engine.new.shown.clock) (Some (told_at (length engine.old.shown.history) (reply_of (closing_cause engine.old.state.closed error))))) engine.new.shown.running engine.old.sink engine.new.sink }
{
    may_be_told(&error);
    let at = engine.log.position();
    let table = task.table;
    let lease = task.lease;
    retire_task(&mut engine.disk, task);
    let moment = engine.disk.clock();
    let failure = fall(&mut engine.metadata, table, lease, &error, at, moment);
    engine.log.fail(who, Kind::Close, moment, failure);
}
