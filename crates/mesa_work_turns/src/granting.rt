// A work's grant.
ghost use Rattle.std.specs.Prelude.{◌≡◌, ◌≢◌, ◌+◌, ◌-◌, ◌<◌, ◌≤◌, ◌^◌, ℕ, List, true, length, None, Some, Ok, IfSome};
ghost use Rattle.mesa_copy.specs.mesa_compact.Bounded.{IsBounded};
ghost use Rattle.mesa_write_turns.specs.mesa_history_spec.Machine.{claim_of};
ghost use Rattle.mesa_write_turns.specs.mesa_history_spec.Run.{First, Granted};
ghost use Rattle.mesa_write_turns.specs.mesa_history_spec.Turns.{IsDue};
ghost use Rattle.mesa_engine.specs.mesa_store_spec.Catalog.{ranges_of, meta_at};
ghost use Rattle.mesa_engine.specs.mesa_store_spec.Moves.{last_of};
ghost use Rattle.mesa_lease.specs.Book.{granted, holder};
ghost use Rattle.mesa_engine.specs.EngineState.{books_of};
ghost use Rattle.mesa_engine.specs.Failure.{cause_in};
ghost use Rattle.mesa_engine.specs.Memory.{with_leases};
ghost use Rattle.mesa_model.specs.declared.commands.Command.TheVariants as command;
ghost use Rattle.mesa_model.specs.declared.commands.WorkWords.{WorkWords};
ghost use Rattle.mesa_model.specs.declared.entries.Kind.TheVariants as kind;
ghost use Rattle.mesa_write_turns.specs.mesa_history_spec.Rows.{Rows, no_rows};
ghost use Rattle.mesa_span.specs.Ranges.{base_before};
ghost use Rattle.mesa_span.specs.Work.{next_work};
ghost use Rattle.mesa_write_turns.specs.mesa_file_records.Finished.{HasRange};
ghost use Rattle.mesa_open_files.specs.Spares.{HasSpares};
ghost use Rattle.mesa_open_files.specs.Tasks.{IsTask, claim_in};
ghost use Rattle.mesa_write_turns.specs.mesa_invariant_spec.Turns.{AnswersDisk, SomeRose, Takes};
ghost use Rattle.mesa_write_turns.specs.mesa_invariant_spec.Invariant.{run_at};
ghost use Rattle.mesa_write_turns.specs.mesa_invariant_spec.Works.{stage_if};
ghost use Rattle.mesa_work_turns.specs.Claims.{cause_unopened, claim_as};
ghost use Rattle.mesa_engine.specs.Written.{written_at};

use crate::claiming::{Claimed, claim};
use mesa_disk::Made;
use mesa_engine::{Engine, Failure, Metadata, Naming, Who};
use mesa_io::Sink;
use mesa_lease::TABLES;
use mesa_model::{Kind, Outcome, WorkWords};
use mesa_open_files::{DeltaDisk, Task, Unopened};
use mesa_read_turns::{Gathered, gather};

/// The first turn of a work: its table has a lease from it on, and the files that it folds are open; unless the vault has closed, there is no such table, another work has the table, there is nothing to merge, or a file couldn't be opened.
pub fn grant<N: Naming, M: Made, D: DeltaDisk<M>, K: Sink>(
    engine: &mut Engine<N, M, D, K>,
    who: Who,
    words: &WorkWords,
) -> Option<Task<D::Reader>>
    requires due { IsDue N.script (run_at N.script (N.start no_rows) engine.old.shown.history) who.session who.command (command.Work words.now) First }
    requires room { length engine.old.shown.history < N.room }
    requires runs { engine.old.shown.running ≡ true }
    ensures turn { Takes N.script (N.start no_rows) engine.old.shown engine.new.shown who.session who.command kind.Grant (stage_if claim_in Granted result) }
    ensures disk { AnswersDisk N.script (N.start no_rows) engine.old.shown engine.new.shown (SomeRose engine.old.faults engine.new.faults) }
    ensures catalogue { engine.new.state.catalogue ≡ engine.old.state.catalogue }
    ensures low { IfSome result (λ t. t.table < TABLES) }

    // Its table is one of those behind the turn, and its range ends before the version that comes next.
    ensures there { IfSome result (λ t. t.table < length (run_at N.script (N.start no_rows) engine.new.shown.history).state.warehouse.store.tables) }
    ensures next { IfSome result (λ t. last_of t.work < (run_at N.script (N.start no_rows) engine.new.shown.history).state.warehouse.next) }
    ensures task { IfSome result (λ t. IsTask D.Reader.bytes (meta_at engine.old.state.catalogue t.table).lineage t) }
    ensures damage { IfSome result (λ t. IfSome t.damage (λ d. d.want ≢ d.found)) }

    // Each of its files is open once more for each further part of the merge, unless one of them is damaged.
    ensures spare { IfSome result (HasSpares D.Reader.bytes (words.now.parts - 1)) }

    // On a sound store no file was damaged, no sum over them leaves its type, and it has all that was written in its range.
    ensures whole { (w : Rows) → N.sound w → IfSome result (λ t. t.damage ≡ None) }
    ensures bounded { (w : Rows) → N.sound w → IfSome result (λ t. IsBounded D.Reader.bytes (meta_at engine.old.state.catalogue t.table).lineage t) }
    ensures range { (w : Rows) → N.sound w → IfSome result (λ t. HasRange D.Reader.bytes (meta_at engine.old.state.catalogue t.table).lineage t (written_at N.script (N.start w) (N.origin w) engine.new.shown.history t.table)) }
{
    let at = engine.log.position();
    match claim(&engine.metadata, words.table.as_slice(), at) {
        Ok(claimed) => take(engine, who, claimed, words.parts),
        Err(failure) => {
            engine.fail(who, Kind::Grant, failure);
            None
        }
    }
}

// The turn of a work whose claim can be granted: the files that it folds are opened, and its table has a lease.
fn take<N: Naming, M: Made, D: DeltaDisk<M>, K: Sink>(
    engine: &mut Engine<N, M, D, K>,
    who: Who,
    claimed: Claimed,
    parts: u8,
) -> Option<Task<D::Reader>>
    requires due { (words : WorkWords) × IsDue N.script (run_at N.script (N.start no_rows) engine.old.shown.history) who.session who.command (command.Work words) First × (claim_of (books_of no_rows engine.old.state).bare (books_of no_rows engine.old.state).machine (length engine.old.shown.history) words.table ≡ Ok (claim_as engine.old.state claimed)) }
    requires there { claimed.table < length engine.old.state.catalogue.tables }
    requires low { claimed.table < TABLES }
    requires free { holder engine.old.state.leases claimed.table (length engine.old.shown.history) ≡ None }
    requires opened { engine.old.state.closed ≡ None }
    requires next { next_work (ranges_of (meta_at engine.old.state.catalogue claimed.table)) (meta_at engine.old.state.catalogue claimed.table).oldest (base_before engine.old.state.catalogue.next) ≡ Some claimed.work }
    requires room { length engine.old.shown.history < N.room }
    requires runs { engine.old.shown.running ≡ true }
    ensures turn { Takes N.script (N.start no_rows) engine.old.shown engine.new.shown who.session who.command kind.Grant (stage_if claim_in Granted result) }
    ensures disk { AnswersDisk N.script (N.start no_rows) engine.old.shown engine.new.shown (SomeRose engine.old.faults engine.new.faults) }
    ensures catalogue { engine.new.state.catalogue ≡ engine.old.state.catalogue }
    ensures table { IfSome result (λ t. t.table ≡ claimed.table) }
    ensures there { IfSome result (λ t. t.table < length (run_at N.script (N.start no_rows) engine.new.shown.history).state.warehouse.store.tables) }
    ensures next { IfSome result (λ t. last_of t.work < (run_at N.script (N.start no_rows) engine.new.shown.history).state.warehouse.next) }
    ensures task { IfSome result (λ t. IsTask D.Reader.bytes (meta_at engine.old.state.catalogue claimed.table).lineage t) }
    ensures damage { IfSome result (λ t. IfSome t.damage (λ d. d.want ≢ d.found)) }
    ensures spare { IfSome result (HasSpares D.Reader.bytes (parts - 1)) }
    ensures whole { (w : Rows) → N.sound w → IfSome result (λ t. t.damage ≡ None) }
    ensures bounded { (w : Rows) → N.sound w → IfSome result (λ t. IsBounded D.Reader.bytes (meta_at engine.old.state.catalogue t.table).lineage t) }
    ensures range { (w : Rows) → N.sound w → IfSome result (λ t. HasRange D.Reader.bytes (meta_at engine.old.state.catalogue t.table).lineage t (written_at N.script (N.start w) (N.origin w) engine.new.shown.history t.table)) }
{
    let alloc = *engine.log.history.allocator();
    let table = engine.metadata.catalog().table(claimed.table);
    let gathered = gather(alloc, &mut engine.disk, table, claimed.work, parts);
    let moment = engine.disk.clock();
    match gathered {
        Ok(
            Gathered {
                epoch,
                inputs,
                damage,
                spare,
            },
        ) => {
            let at = engine.log.position();
            let lease = lease(&mut engine.metadata, claimed.table, who.session, at);
            let turn = who.turn(Kind::Grant, Outcome::Stands, moment);
            engine.log.pass(turn);
            Some(Task {
                table: claimed.table,
                work: claimed.work,
                lease,
                epoch,
                inputs,
                damage,
                spare,
            })
        }
        Err(unopened) => {
            engine
                .log
                .fail(who, Kind::Grant, moment, failure_of(unopened));
            None
        }
    }
}

// Grants a lease on a table that has none.
pub(crate) fn lease(metadata: &mut Metadata, table: u16, worker: u16, position: u64) -> u64
    requires table { table < TABLES }
    requires position { position < 2 ^ 60 }
    requires rising { metadata.old.leased ≤ position }
    requires free { holder metadata.old.state.leases table position ≡ None }
    ensures number { result ≡ metadata.old.state.leases.granted + 1 }
    ensures granted { metadata.new ≡ with_leases (granted table position metadata.old.state.leases) (position + 1) metadata.old }
{
    match metadata.grant(table, worker, position) {
        Ok(lease) => lease,
        Err(_) => unreachable!(),
    }
}

/// Why nothing is granted whose files weren't opened.
pub fn failure_of(unopened: Unopened) -> Failure
    ensures { cause_in result ≡ cause_unopened unopened }
{
    match unopened {
        Unopened::Fault => Failure::Unread,
        Unopened::Memory => Failure::Memory,
    }
}
