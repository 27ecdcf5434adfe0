// A recast's grant.
ghost use Rattle.std.specs.Prelude.{◌≡◌, ◌≢◌, ◌<◌, ◌≤◌, true, length, None, Ok, IfSome};
ghost use Rattle.std.specs.List.{AllByRecursion};
ghost use Rattle.mesa_read_turns.specs.mesa_pick_files.Ranges.{HoldsAll};
ghost use Rattle.mesa_write_turns.specs.mesa_history_spec.Machine.{recast_claim_of};
ghost use Rattle.mesa_write_turns.specs.mesa_history_spec.Run.{First, Granted};
ghost use Rattle.mesa_write_turns.specs.mesa_history_spec.Turns.{IsDue};
ghost use Rattle.mesa_engine.specs.mesa_store_spec.Catalog.{meta_at};
ghost use Rattle.mesa_lease.specs.Book.{holder};
ghost use Rattle.mesa_engine.specs.EngineState.{books_of};
ghost use Rattle.mesa_model.specs.Tables.{recast_asked};
ghost use Rattle.mesa_model.specs.declared.commands.Command.TheVariants as command;
ghost use Rattle.mesa_model.specs.declared.commands.RecastWords.{RecastWords};
ghost use Rattle.mesa_model.specs.declared.entries.Kind.TheVariants as kind;
ghost use Rattle.mesa_write_turns.specs.mesa_schema.Recasts.{recast_checked};
ghost use Rattle.mesa_write_turns.specs.mesa_history_spec.Rows.{Rows, no_rows};
ghost use Rattle.mesa_write_turns.specs.mesa_file_records.Recasts.{HasItsRanges};
ghost use Rattle.mesa_open_files.specs.Recasts.{IsRecastTask, claim_of_recast, recast_in, recast_table};
ghost use Rattle.mesa_write_turns.specs.mesa_invariant_spec.Turns.{AnswersDisk, SomeRose, Takes};
ghost use Rattle.mesa_write_turns.specs.mesa_invariant_spec.Invariant.{run_at};
ghost use Rattle.mesa_write_turns.specs.mesa_invariant_spec.Works.{stage_if};
ghost use Rattle.mesa_copy.specs.Copying.{IsRecastBounded};
ghost use Rattle.mesa_work_turns.specs.Claims.{recast_claim_as};
ghost use Rattle.mesa_engine.specs.Written.{written_at};

use crate::granting::{failure_of, lease};
use crate::recast_claiming::claim_recast;
use mesa_disk::Made;
use mesa_engine::binding::RecastNames;
use mesa_engine::{Engine, Naming, Who};
use mesa_io::Sink;
use mesa_lease::TABLES;
use mesa_model::{Kind, Outcome, RecastWords};
use mesa_open_files::{DeltaDisk, Recast};
use mesa_read_turns::{GatheredRanges, gather_recast};
use mesa_validate::Regrouping;

/// The first turn of a recast: its table has a lease from it on, and the files of all its ranges are open; unless the vault has closed, the rules of recasts don't allow it, a lease holds, the table has too many deltas, or a file couldn't be opened.
pub fn grant_recast<N: Naming, M: Made, D: DeltaDisk<M>, K: Sink>(
    engine: &mut Engine<N, M, D, K>,
    who: Who,
    words: &RecastWords,
) -> Option<Recast<D::Reader>>
    requires due { IsDue N.script (run_at N.script (N.start no_rows) engine.old.shown.history) who.session who.command (command.Recast words.now) First }
    requires room { length engine.old.shown.history < N.room }
    requires runs { engine.old.shown.running ≡ true }
    ensures turn { Takes N.script (N.start no_rows) engine.old.shown engine.new.shown who.session who.command kind.Grant (stage_if claim_of_recast Granted result) }
    ensures disk { AnswersDisk N.script (N.start no_rows) engine.old.shown engine.new.shown (SomeRose engine.old.faults engine.new.faults) }
    ensures catalogue { engine.new.state.catalogue ≡ engine.old.state.catalogue }
    ensures low { IfSome result (λ t. t.table < TABLES) }

    // Its table is one of those behind the turn, and each range ends before the version that comes next.
    ensures there { IfSome result (λ t. t.table < length (run_at N.script (N.start no_rows) engine.new.shown.history).state.warehouse.store.tables) }
    ensures next { IfSome result (λ t. AllByRecursion (λ x. x.to < (run_at N.script (N.start no_rows) engine.new.shown.history).state.warehouse.next) t.ranges.items) }
    ensures task { IfSome result (IsRecastTask D.Reader.bytes) }
    ensures lineage { IfSome result (λ t. recast_table t ≡ (meta_at engine.old.state.catalogue t.table).lineage) }
    ensures asked { IfSome result (λ t. recast_in t ≡ recast_asked words.now) }
    ensures damage { IfSome result (λ t. IfSome t.damage (λ d. d.want ≢ d.found)) }

    // Unless a file is damaged, each range of the table that has rows is among the task's, with its file open.
    ensures holds { IfSome result (λ t. t.damage ≡ None → HoldsAll t.ranges.items (meta_at engine.old.state.catalogue t.table)) }

    // On a sound store no file was damaged, no sum over a range leaves its type, and each range has all that was written in it.
    ensures whole { (w : Rows) → N.sound w → IfSome result (λ t. t.damage ≡ None) }
    ensures bounded { (w : Rows) → N.sound w → IfSome result (IsRecastBounded D.Reader.bytes) }
    ensures ranges { (w : Rows) → N.sound w → IfSome result (λ t. HasItsRanges D.Reader.bytes t (written_at N.script (N.start w) (N.origin w) engine.new.shown.history t.table)) }
{
    let alloc = *engine.log.history.allocator();
    let at = engine.log.position();
    match claim_recast(alloc, &engine.metadata, words, at) {
        Ok(claimed) => take(engine, who, claimed),
        Err(failure) => {
            engine.fail(who, Kind::Grant, failure);
            None
        }
    }
}

// The turn of a recast whose claim can be granted: the files of its ranges are opened, and its table has a lease.
fn take<N: Naming, M: Made, D: DeltaDisk<M>, K: Sink>(
    engine: &mut Engine<N, M, D, K>,
    who: Who,
    claimed: Regrouping,
) -> Option<Recast<D::Reader>>
    requires due { (words : RecastWords) × IsDue N.script (run_at N.script (N.start no_rows) engine.old.shown.history) who.session who.command (command.Recast words) First × (recast_claim_of (books_of no_rows engine.old.state).bare (books_of no_rows engine.old.state).machine (length engine.old.shown.history) words ≡ Ok (recast_claim_as engine.old.state claimed)) }
    requires there { claimed.table < length engine.old.state.catalogue.tables }
    requires low { claimed.table < TABLES }
    requires free { holder engine.old.state.leases claimed.table (length engine.old.shown.history) ≡ None }
    requires opened { engine.old.state.closed ≡ None }
    requires checked { recast_checked (meta_at engine.old.state.catalogue claimed.table).lineage (record { keys = claimed.names.keys; values = claimed.names.values }) ≡ Ok tt }
    requires room { length engine.old.shown.history < N.room }
    requires runs { engine.old.shown.running ≡ true }
    ensures turn { Takes N.script (N.start no_rows) engine.old.shown engine.new.shown who.session who.command kind.Grant (stage_if claim_of_recast Granted result) }
    ensures disk { AnswersDisk N.script (N.start no_rows) engine.old.shown engine.new.shown (SomeRose engine.old.faults engine.new.faults) }
    ensures catalogue { engine.new.state.catalogue ≡ engine.old.state.catalogue }
    ensures table { IfSome result (λ t. t.table ≡ claimed.table) }
    ensures there { IfSome result (λ t. t.table < length (run_at N.script (N.start no_rows) engine.new.shown.history).state.warehouse.store.tables) }
    ensures next { IfSome result (λ t. AllByRecursion (λ x. x.to < (run_at N.script (N.start no_rows) engine.new.shown.history).state.warehouse.next) t.ranges.items) }
    ensures task { IfSome result (IsRecastTask D.Reader.bytes) }
    ensures lineage { IfSome result (λ t. recast_table t ≡ (meta_at engine.old.state.catalogue claimed.table).lineage) }
    ensures asked { IfSome result (λ t. recast_in t ≡ record { keys = claimed.names.keys; values = claimed.names.values }) }
    ensures damage { IfSome result (λ t. IfSome t.damage (λ d. d.want ≢ d.found)) }
    ensures holds { IfSome result (λ t. t.damage ≡ None → HoldsAll t.ranges.items (meta_at engine.old.state.catalogue t.table)) }
    ensures whole { (w : Rows) → N.sound w → IfSome result (λ t. t.damage ≡ None) }
    ensures bounded { (w : Rows) → N.sound w → IfSome result (IsRecastBounded D.Reader.bytes) }
    ensures ranges { (w : Rows) → N.sound w → IfSome result (λ t. HasItsRanges D.Reader.bytes t (written_at N.script (N.start w) (N.origin w) engine.new.shown.history t.table)) }
{
    let alloc = *engine.log.history.allocator();
    let Regrouping {
        table: number,
        names,
    } = claimed;
    let table = engine.metadata.catalog().table(number);
    let gathered = gather_recast(alloc, &mut engine.disk, table);
    let moment = engine.disk.clock();
    match gathered {
        Ok(
            GatheredRanges {
                epoch,
                evolving,
                ranges,
                damage,
            },
        ) => {
            let at = engine.log.position();
            let lease = lease(&mut engine.metadata, number, who.session, at);
            let turn = who.turn(Kind::Grant, Outcome::Stands, moment);
            engine.log.pass(turn);
            let RecastNames { keys, values } = names;
            Some(Recast {
                table: number,
                lease,
                epoch,
                evolving,
                keys,
                values,
                ranges,
                damage,
            })
        }
        Err(unopened) => {
            drop(names);
            engine
                .log
                .fail(who, Kind::Grant, moment, failure_of(unopened));
            None
        }
    }
}
