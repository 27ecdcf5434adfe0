// The renewal of a work and of a recast.
ghost use Rattle.std.specs.Prelude.{◌≡◌, ◌+◌, ◌<◌, ◌≤◌, ◌^◌, true, length, IfErr, IfSome, OnErr, OnOk, Ok, Err};
ghost use Rattle.mesa_write_turns.specs.mesa_history_spec.Legal.{is_work};
ghost use Rattle.mesa_write_turns.specs.mesa_history_spec.Machine.{Errand};
ghost use Rattle.mesa_write_turns.specs.mesa_history_spec.Run.{Granted, Renewed};
ghost use Rattle.mesa_write_turns.specs.mesa_history_spec.Turns.{IsDue};
ghost use Rattle.mesa_lease.specs.Book.{renewed};
ghost use Rattle.mesa_engine.specs.EngineState.{books_of};
ghost use Rattle.mesa_engine.specs.Memory.{with_leases};
ghost use Rattle.mesa_model.specs.declared.commands.Command.{Command};
ghost use Rattle.mesa_model.specs.declared.commands.Command.TheVariants as command;
ghost use Rattle.mesa_model.specs.declared.entries.Kind.TheVariants as kind;
ghost use Rattle.mesa_write_turns.specs.mesa_history_spec.Rows.{no_rows};
ghost use Rattle.mesa_write_turns.specs.mesa_invariant_spec.Turns.{AnswersDisk, SomeRose, Takes};
ghost use Rattle.mesa_write_turns.specs.mesa_invariant_spec.Invariant.{run_at};
ghost use Rattle.mesa_write_turns.specs.mesa_invariant_spec.Works.{stage_if};
ghost use Rattle.mesa_open_files.specs.Recasts.{claim_of_recast};
ghost use Rattle.mesa_open_files.specs.Tasks.{claim_in};
ghost use Rattle.mesa_work_turns.specs.Claims.{claim_with, lease_checked};

use crate::{give_back, give_back_recast};
use mesa_disk::{Disk, Made};
use mesa_engine::{Engine, Metadata, Naming, Who};
use mesa_io::Sink;
use mesa_lease::TABLES;
use mesa_model::{Kind, Outcome, RecastWords, Refusal, Reply, WorkWords};
use mesa_open_files::{Recast, Task};

// Lets a lease of a table hold anew from the turn at the position on, or says why it doesn't.
fn claims(metadata: &mut Metadata, table: u16, lease: u64, position: u64) -> Result<(), Refusal>
    requires table { table < TABLES }
    requires position { position < 2 ^ 60 }
    requires rising { metadata.old.leased ≤ position }
    ensures held { OnOk result (lease_checked (books_of no_rows metadata.old.state) position table lease ≡ Ok tt) }
    ensures renewed { OnOk result (metadata.new ≡ with_leases (renewed table lease position metadata.old.state.leases) (position + 1) metadata.old) }
    ensures refused { IfErr result (λ x. lease_checked (books_of no_rows metadata.old.state) position table lease ≡ Err x) }
    ensures same { OnErr result (metadata.new.state ≡ metadata.old.state) }
    ensures leased { metadata.new.leased ≤ position + 1 }
{
    metadata.check_open()?;
    match metadata.renew(table, lease, position) {
        Ok(()) => Ok(()),
        Err(lost) => Err(Refusal::Lost {
            lease: lost.lease,
            holder: lost.holder,
        }),
    }
}

// The turn in which a lease of a table holds anew, unless it was lost or the vault has closed.
fn renew_lease<N: Naming, M: Made, D: Disk<M>, K: Sink>(
    engine: &mut Engine<N, M, D, K>,
    who: Who,
    table: u16,
    lease: u64,
) -> Option<()>
    requires due { (c : Command) × (errand : Errand) × (is_work c ≡ true) × IsDue N.script (run_at N.script (N.start no_rows) engine.old.shown.history) who.session who.command c (Granted (claim_with table lease errand)) }
    requires table { table < TABLES }
    requires room { length engine.old.shown.history < N.room }
    requires runs { engine.old.shown.running ≡ true }
    ensures turn { (c : Command) (errand : Errand) → is_work c ≡ true → IsDue N.script (run_at N.script (N.start no_rows) engine.old.shown.history) who.session who.command c (Granted (claim_with table lease errand))
        → Takes N.script (N.start no_rows) engine.old.shown engine.new.shown who.session who.command kind.Renew (stage_if (λ done. claim_with table lease errand) Renewed result) }
    ensures disk { AnswersDisk N.script (N.start no_rows) engine.old.shown engine.new.shown ⊥ }
    ensures catalogue { engine.new.state.catalogue ≡ engine.old.state.catalogue }
{
    let at = engine.log.position();
    let claimed = claims(&mut engine.metadata, table, lease, at);
    let turn = who.turn(Kind::Renew, Outcome::Stands, engine.disk.clock());
    match claimed {
        Ok(()) => {
            engine.log.pass(turn);
            Some(())
        }
        Err(refusal) => {
            let reply = Reply::Refused(refusal);
            engine.log.tell(turn, at, &reply, b"");
            None
        }
    }
}

/// The turn of a work once its rows are merged: its lease holds anew, unless it was lost or the vault has closed.
pub fn renew<N: Naming, M: Made, D: Disk<M>, K: Sink>(
    engine: &mut Engine<N, M, D, K>,
    who: Who,
    words: &WorkWords,
    task: Task<D::Reader>,
) -> Option<Task<D::Reader>>
    requires due { IsDue N.script (run_at N.script (N.start no_rows) engine.old.shown.history) who.session who.command (command.Work words.now) (Granted (claim_in task)) }
    requires table { task.table < TABLES }
    requires room { length engine.old.shown.history < N.room }
    requires runs { engine.old.shown.running ≡ true }
    ensures turn { Takes N.script (N.start no_rows) engine.old.shown engine.new.shown who.session who.command kind.Renew (stage_if claim_in Renewed result) }
    ensures disk { AnswersDisk N.script (N.start no_rows) engine.old.shown engine.new.shown (SomeRose engine.old.faults engine.new.faults) }
    ensures same { IfSome result (λ t. t ≡ task) }
    ensures catalogue { engine.new.state.catalogue ≡ engine.old.state.catalogue }
{
    match renew_lease(engine, who, task.table, task.lease) {
        Some(()) => Some(task),
        None => {
            give_back(engine, task);
            None
        }
    }
}

/// The turn of a recast once its rows are grouped: its lease holds anew, unless it was lost or the vault has closed.
pub fn renew_recast<N: Naming, M: Made, D: Disk<M>, K: Sink>(
    engine: &mut Engine<N, M, D, K>,
    who: Who,
    words: &RecastWords,
    task: Recast<D::Reader>,
) -> Option<Recast<D::Reader>>
    requires due { IsDue N.script (run_at N.script (N.start no_rows) engine.old.shown.history) who.session who.command (command.Recast words.now) (Granted (claim_of_recast task)) }
    requires table { task.table < TABLES }
    requires room { length engine.old.shown.history < N.room }
    requires runs { engine.old.shown.running ≡ true }
    ensures turn { Takes N.script (N.start no_rows) engine.old.shown engine.new.shown who.session who.command kind.Renew (stage_if claim_of_recast Renewed result) }
    ensures disk { AnswersDisk N.script (N.start no_rows) engine.old.shown engine.new.shown (SomeRose engine.old.faults engine.new.faults) }
    ensures same { IfSome result (λ t. t ≡ task) }
    ensures catalogue { engine.new.state.catalogue ≡ engine.old.state.catalogue }
{
    match renew_lease(engine, who, task.table, task.lease) {
        Some(()) => Some(task),
        None => {
            give_back_recast(engine, task);
            None
        }
    }
}
