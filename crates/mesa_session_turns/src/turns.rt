// One turn of each sort.
ghost use Rattle.std.specs.Prelude.{◌≡◌, ◌<◌, ◌≤◌, ℕ, not, true, IfNone, IfOk, IfSome, OnSome, Some, is_ok, length};
ghost use Rattle.mesa_core.specs.mesa_history_spec.Legal.{is_query};
ghost use Rattle.mesa_core.specs.mesa_history_spec.Run.{First, Looked, Granted, Renewed, Finished, command_at};
ghost use Rattle.mesa_core.specs.mesa_history_spec.Turns.{place_then};
ghost use Rattle.mesa_model.specs.declared.commands.Command.TheVariants as command;
ghost use Rattle.mesa_model.specs.Entry.{history_of};
ghost use Rattle.mesa_core.specs.Handing.{IsGranted, IsRecastGranted, Tells};
ghost use Rattle.mesa_core.specs.mesa_history_spec.Rows.{no_rows};
ghost use Rattle.mesa_core.specs.mesa_invariant_spec.Turns.{is_load, is_merge, is_recast, is_simple};
ghost use Rattle.mesa_core.specs.mesa_invariant_spec.Works.{closing_stage, stage_if};
ghost use Rattle.mesa_core.specs.Answers.{Answers};
ghost use Rattle.mesa_core.specs.Passes.{HasSort, Holds, Mine, Took, at_stage};
ghost use Rattle.mesa_core.specs.Drafts.{owed_by_error, owed_by_load, owed_by_work};
ghost use Rattle.mesa_core.specs.Pins.{CanBeAnswered, HasAnswered, IsOpenQuery, known_pin};
ghost use Rattle.mesa_core.specs.Sight.{sight_after};
ghost use Rattle.mesa_core.specs.Recasts.{CanBeRegrouped, IsUnmade, known_recast};
ghost use Rattle.mesa_core.specs.Works.{CanBeMerged, HasMerged, WasGranted, known_task};
ghost use Rattle.mesa_open_files.specs.Recasts.{IsRecasted, claim_of_recast};
ghost use Rattle.mesa_open_files.specs.Tasks.{claim_in};
ghost use Rattle.mesa_file.specs.Serials.{after_drafts};
ghost use Rattle.mesa_session_turns.specs.Loads.{StaysPrepared};

use crate::outside::regrouped_now;
use crate::preparing::prepared_now;
use mesa_batch::{Glance, LoadRows};
use mesa_core::Vault;
use mesa_delta::FileError;
use mesa_disk::{Bench, Disk, Made};
use mesa_engine::{Naming, Who};
use mesa_file::Serials;
use mesa_io::Sink;
use mesa_open_files::{
    CompactError, DeltaDisk, LoadError, NewDelta, Pinned, Prepared, Recast, Recasted, Task,
};
use mesa_script::Rendered;
use mesa_turn::{Pass, TurnLock};
use std::alloc::{AllocError, Global};
use std::sync::Wait;
use std::thread::Threads;

// Of each turn the second result is whether the sink had not failed before it.

/// A load's look.
pub fn look_turn<'s, N: Naming + Send, M: Made, D: Disk<M>, K: Sink + Send, R: Wait>(
    rt: &R,
    lock: &TurnLock<Vault<'s, N, M, D, K>>,
    pass: Pass,
    who: Who,
) -> (Pass, bool, Result<Glance, AllocError>)
    requires lock { pass.lock ≡ lock.now }
    requires few { length N.script.sessions ≤ 8 }
    requires room { (0 < pass.room) × (pass.limit ≤ N.room) }
    requires mine { Mine N.script (N.start no_rows) pass who.session (at_stage who.command First) }
    requires sort { HasSort N.script who.session who.command is_load }
    ensures took { Took who.session pass result.0 1 }
    ensures mine { Mine N.script (N.start no_rows) result.0 who.session (place_then (not result.1) who.command Looked) }
    ensures glance { IfOk result.2 (λ g. g ≡ sight_after N.script (N.start no_rows) (N.origin no_rows).generation (history_of result.0.seen)) }
    ensures answers { Answers N.script (N.start no_rows) who.session pass result.0 0 0 0 }
{
    let mut held = lock.enter(rt, pass);
    let vault = held.value();
    let ran = vault.running();
    let glance = vault.look(who);
    (lock.leave(held), ran, glance)
}

/// The one turn of a command that is no load, no query, no work and no recast.
pub fn simple_turn<'s, N: Naming + Send, M: Made, D: Disk<M>, K: Sink + Send, R: Wait>(
    rt: &R,
    lock: &TurnLock<Vault<'s, N, M, D, K>>,
    pass: Pass,
    who: Who,
) -> (Pass, bool)
    requires lock { pass.lock ≡ lock.now }
    requires few { length N.script.sessions ≤ 8 }
    requires room { (0 < pass.room) × (pass.limit ≤ N.room) }
    requires mine { Mine N.script (N.start no_rows) pass who.session (at_stage who.command First) }
    requires sort { HasSort N.script who.session who.command is_simple }
    ensures took { Took who.session pass result.0 1 }
    ensures mine { Mine N.script (N.start no_rows) result.0 who.session (place_then (not result.1) who.command Finished) }
    ensures answers { Answers N.script (N.start no_rows) who.session pass result.0 0 0 0 }
{
    let mut held = lock.enter(rt, pass);
    let vault = held.value();
    let ran = vault.running();
    vault.simple(who);
    (lock.leave(held), ran)
}

/// A load's deciding turn.
pub fn publish_turn<
    's,
    N: Naming + Send,
    M: Made,
    D: Disk<M>,
    K: Sink + Send,
    R: Threads + Wait + Sync,
    B: Bench<M>,
>(
    rt: &R,
    alloc: Global,
    lock: &TurnLock<Vault<'s, N, M, D, K>>,
    pass: Pass,
    who: Who,
    rows: &LoadRows,
    bench: &mut B,
    ids: &mut Serials,
    generation: u64,
    made: Result<Prepared<M>, LoadError>,
) -> (Pass, bool)
    requires lock { pass.lock ≡ lock.now }
    requires few { length N.script.sessions ≤ 8 }
    requires room { (0 < pass.room) × (pass.limit ≤ N.room) }
    requires mine { Mine N.script (N.start no_rows) pass who.session (at_stage who.command Looked) }
    requires known { command_at N.script who.session who.command ≡ Some (command.Load rows.now) }
    requires made { StaysPrepared M.bytes M.id_of (sight_after N.script (N.start no_rows) (N.origin no_rows).generation) (history_of pass.seen) generation rows.now made }
    ensures took { Took who.session pass result.0 1 }
    ensures mine { Mine N.script (N.start no_rows) result.0 who.session (place_then (not result.1) who.command Finished) }
    ensures answers { Answers N.script (N.start no_rows) who.session pass result.0 (B.faults bench.old) (B.faults bench.new) (owed_by_load made) }
    ensures ids { (n : ℕ) × (ids.new ≡ after_drafts n ids.old) }
{
    let mut held = lock.enter(rt, pass);
    let vault = held.value();
    let ran = vault.running();
    let made = prepared_now(rt, alloc, vault, bench, ids, generation, made, rows);
    vault.publish(who, made);
    (lock.leave(held), ran)
}

/// A query's deciding turn.
pub fn pin_turn<'s, N: Naming + Send, M: Made, D: DeltaDisk<M>, K: Sink + Send, R: Wait>(
    rt: &R,
    lock: &TurnLock<Vault<'s, N, M, D, K>>,
    pass: Pass,
    who: Who,
) -> (Pass, bool, Option<Pinned<D::Reader>>)
    requires lock { pass.lock ≡ lock.now }
    requires few { length N.script.sessions ≤ 8 }
    requires room { (0 < pass.room) × (pass.limit ≤ N.room) }
    requires mine { Mine N.script (N.start no_rows) pass who.session (at_stage who.command First) }
    requires sort { HasSort N.script who.session who.command is_query }
    ensures took { Took who.session pass result.0 1 }
    ensures holds { Holds N.script (N.start no_rows) result.0 who.session }
    ensures open { IfSome result.2 (λ p. IsOpenQuery N.script N.start (history_of result.0.seen) who.session who.command p.at (λ past. Tells N.sound (known_pin D.Reader.bytes p)) × CanBeAnswered D.Reader.bytes p) }
    ensures refused { IfNone result.2 (Mine N.script (N.start no_rows) result.0 who.session (place_then (not result.1) who.command Finished)) }
    ensures answers { Answers N.script (N.start no_rows) who.session pass result.0 0 0 0 }
{
    let mut held = lock.enter(rt, pass);
    let vault = held.value();
    let ran = vault.running();
    let pinned = vault.pin_query(who);
    (lock.leave(held), ran, pinned)
}

/// A query's last turn.
pub fn close_turn<'s, N: Naming + Send, M: Made, D: Disk<M>, K: Sink + Send, R: Wait>(
    rt: &R,
    lock: &TurnLock<Vault<'s, N, M, D, K>>,
    pass: Pass,
    who: Who,
    pinned: Pinned<D::Reader>,
    answer: Result<Rendered, FileError>,
) -> (Pass, bool)
    requires lock { pass.lock ≡ lock.now }
    requires few { length N.script.sessions ≤ 8 }
    requires room { (0 < pass.room) × (pass.limit ≤ N.room) }
    requires holds { Holds N.script (N.start no_rows) pass who.session }
    requires open { IsOpenQuery N.script N.start (history_of pass.seen) who.session who.command pinned.at (λ past. Tells N.sound (known_pin D.Reader.bytes pinned)) }
    requires answer { HasAnswered D.Reader.bytes D.Reader.faults pinned answer }
    ensures took { Took who.session pass result.0 1 }
    ensures mine { Mine N.script (N.start no_rows) result.0 who.session (place_then (not result.1) who.command Finished) }
    ensures answers { Answers N.script (N.start no_rows) who.session pass result.0 0 0 0 }
{
    let mut held = lock.enter(rt, pass);
    let vault = held.value();
    let ran = vault.running();
    vault.close_query(who, pinned, answer);
    (lock.leave(held), ran)
}

/// A work's first turn.
pub fn grant_turn<'s, N: Naming + Send, M: Made, D: DeltaDisk<M>, K: Sink + Send, R: Wait>(
    rt: &R,
    lock: &TurnLock<Vault<'s, N, M, D, K>>,
    pass: Pass,
    who: Who,
) -> (Pass, bool, Option<Task<D::Reader>>)
    requires lock { pass.lock ≡ lock.now }
    requires few { length N.script.sessions ≤ 8 }
    requires room { (0 < pass.room) × (pass.limit ≤ N.room) }
    requires mine { Mine N.script (N.start no_rows) pass who.session (at_stage who.command First) }
    requires sort { HasSort N.script who.session who.command is_merge }
    ensures took { Took who.session pass result.0 1 }
    ensures mine { Mine N.script (N.start no_rows) result.0 who.session (place_then (not result.1) who.command (stage_if claim_in Granted result.2)) }
    ensures ran { OnSome result.2 (result.1 ≡ true) }
    ensures task { IfSome result.2 (CanBeMerged D.Reader.bytes) }
    ensures granted { IfSome result.2 (λ t. WasGranted (IsGranted D.Reader.bytes N.script N.start N.origin N.sound) (history_of result.0.seen) (known_task D.Reader.bytes t)) }
    ensures answers { Answers N.script (N.start no_rows) who.session pass result.0 0 0 0 }
{
    let mut held = lock.enter(rt, pass);
    let vault = held.value();
    let ran = vault.running();
    let task = vault.grant(who);
    (lock.leave(held), ran, task)
}

/// A work's turn once its files are merged.
pub fn renew_turn<'s, N: Naming + Send, M: Made, D: Disk<M>, K: Sink + Send, R: Wait>(
    rt: &R,
    lock: &TurnLock<Vault<'s, N, M, D, K>>,
    pass: Pass,
    who: Who,
    task: Task<D::Reader>,
) -> (Pass, bool, Option<Task<D::Reader>>)
    requires lock { pass.lock ≡ lock.now }
    requires few { length N.script.sessions ≤ 8 }
    requires room { (0 < pass.room) × (pass.limit ≤ N.room) }
    requires mine { Mine N.script (N.start no_rows) pass who.session (at_stage who.command (Granted (claim_in task))) }
    requires sort { HasSort N.script who.session who.command is_merge }
    requires granted { WasGranted (IsGranted D.Reader.bytes N.script N.start N.origin N.sound) (history_of pass.seen) (known_task D.Reader.bytes task) }
    ensures took { Took who.session pass result.0 1 }
    ensures mine { Mine N.script (N.start no_rows) result.0 who.session (place_then (not result.1) who.command (stage_if claim_in Renewed result.2)) }
    ensures ran { OnSome result.2 (result.1 ≡ true) }
    ensures same { IfSome result.2 (λ t. t ≡ task) }
    ensures granted { WasGranted (IsGranted D.Reader.bytes N.script N.start N.origin N.sound) (history_of result.0.seen) (known_task D.Reader.bytes task) }
    ensures answers { Answers N.script (N.start no_rows) who.session pass result.0 0 0 0 }
{
    let mut held = lock.enter(rt, pass);
    let vault = held.value();
    let ran = vault.running();
    let renewed = vault.renew(who, task);
    (lock.leave(held), ran, renewed)
}

/// A work's last turn.
pub fn complete_turn<'s, N: Naming + Send, M: Made, D: Disk<M>, K: Sink + Send, R: Wait>(
    rt: &R,
    lock: &TurnLock<Vault<'s, N, M, D, K>>,
    pass: Pass,
    who: Who,
    task: Task<D::Reader>,
    merged: Result<NewDelta<M>, CompactError>,
) -> (Pass, bool)
    requires lock { pass.lock ≡ lock.now }
    requires few { length N.script.sessions ≤ 8 }
    requires room { (0 < pass.room) × (pass.limit ≤ N.room) }
    requires mine { Mine N.script (N.start no_rows) pass who.session (at_stage who.command (closing_stage (not (is_ok merged)) (claim_in task))) }
    requires sort { HasSort N.script who.session who.command is_merge }
    requires granted { WasGranted (IsGranted D.Reader.bytes N.script N.start N.origin N.sound) (history_of pass.seen) (known_task D.Reader.bytes task) }
    requires merged { HasMerged M.bytes M.id_of D.Reader.bytes D.Reader.faults task merged }
    ensures took { Took who.session pass result.0 1 }
    ensures mine { Mine N.script (N.start no_rows) result.0 who.session (place_then (not result.1) who.command Finished) }
    ensures answers { Answers N.script (N.start no_rows) who.session pass result.0 0 0 (owed_by_work merged) }
{
    let mut held = lock.enter(rt, pass);
    let vault = held.value();
    let ran = vault.running();
    vault.complete(who, task, merged);
    (lock.leave(held), ran)
}

/// A recast's first turn.
pub fn grant_recast_turn<'s, N: Naming + Send, M: Made, D: DeltaDisk<M>, K: Sink + Send, R: Wait>(
    rt: &R,
    lock: &TurnLock<Vault<'s, N, M, D, K>>,
    pass: Pass,
    who: Who,
) -> (Pass, bool, Option<Recast<D::Reader>>)
    requires lock { pass.lock ≡ lock.now }
    requires few { length N.script.sessions ≤ 8 }
    requires room { (0 < pass.room) × (pass.limit ≤ N.room) }
    requires mine { Mine N.script (N.start no_rows) pass who.session (at_stage who.command First) }
    requires sort { HasSort N.script who.session who.command is_recast }
    ensures took { Took who.session pass result.0 1 }
    ensures mine { Mine N.script (N.start no_rows) result.0 who.session (place_then (not result.1) who.command (stage_if claim_of_recast Granted result.2)) }
    ensures ran { OnSome result.2 (result.1 ≡ true) }
    ensures task { IfSome result.2 (CanBeRegrouped D.Reader.bytes) }
    ensures granted { IfSome result.2 (λ t. WasGranted (IsRecastGranted D.Reader.bytes N.script N.start N.origin N.sound) (history_of result.0.seen) (known_recast D.Reader.bytes t)) }
    ensures answers { Answers N.script (N.start no_rows) who.session pass result.0 0 0 0 }
{
    let mut held = lock.enter(rt, pass);
    let vault = held.value();
    let ran = vault.running();
    let task = vault.grant_recast(who);
    (lock.leave(held), ran, task)
}

/// A recast's turn once its ranges are rewritten.
pub fn renew_recast_turn<'s, N: Naming + Send, M: Made, D: Disk<M>, K: Sink + Send, R: Wait>(
    rt: &R,
    lock: &TurnLock<Vault<'s, N, M, D, K>>,
    pass: Pass,
    who: Who,
    task: Recast<D::Reader>,
) -> (Pass, bool, Option<Recast<D::Reader>>)
    requires lock { pass.lock ≡ lock.now }
    requires few { length N.script.sessions ≤ 8 }
    requires room { (0 < pass.room) × (pass.limit ≤ N.room) }
    requires mine { Mine N.script (N.start no_rows) pass who.session (at_stage who.command (Granted (claim_of_recast task))) }
    requires sort { HasSort N.script who.session who.command is_recast }
    requires granted { WasGranted (IsRecastGranted D.Reader.bytes N.script N.start N.origin N.sound) (history_of pass.seen) (known_recast D.Reader.bytes task) }
    ensures took { Took who.session pass result.0 1 }
    ensures mine { Mine N.script (N.start no_rows) result.0 who.session (place_then (not result.1) who.command (stage_if claim_of_recast Renewed result.2)) }
    ensures ran { OnSome result.2 (result.1 ≡ true) }
    ensures same { IfSome result.2 (λ t. t ≡ task) }
    ensures granted { WasGranted (IsRecastGranted D.Reader.bytes N.script N.start N.origin N.sound) (history_of result.0.seen) (known_recast D.Reader.bytes task) }
    ensures answers { Answers N.script (N.start no_rows) who.session pass result.0 0 0 0 }
{
    let mut held = lock.enter(rt, pass);
    let vault = held.value();
    let ran = vault.running();
    let renewed = vault.renew_recast(who, task);
    (lock.leave(held), ran, renewed)
}

/// A recast's last turn once its lease was renewed: the ranges of the batches that came meanwhile are rewritten too, and then its table is recast.
pub fn recast_turn<
    's,
    N: Naming + Send,
    M: Made,
    D: DeltaDisk<M>,
    K: Sink + Send,
    R: Wait,
    B: Bench<M>,
>(
    rt: &R,
    alloc: Global,
    lock: &TurnLock<Vault<'s, N, M, D, K>>,
    pass: Pass,
    who: Who,
    bench: &mut B,
    ids: &mut Serials,
    task: Recast<D::Reader>,
    made: Recasted<M>,
) -> (Pass, bool)
    requires lock { pass.lock ≡ lock.now }
    requires few { length N.script.sessions ≤ 8 }
    requires room { (0 < pass.room) × (pass.limit ≤ N.room) }
    requires mine { Mine N.script (N.start no_rows) pass who.session (at_stage who.command (Renewed (claim_of_recast task))) }
    requires sort { HasSort N.script who.session who.command is_recast }
    requires granted { WasGranted (IsRecastGranted D.Reader.bytes N.script N.start N.origin N.sound) (history_of pass.seen) (known_recast D.Reader.bytes task) }
    requires task { CanBeRegrouped D.Reader.bytes task }
    requires made { IsRecasted M.bytes M.id_of D.Reader.bytes task made }
    ensures took { Took who.session pass result.0 1 }
    ensures mine { Mine N.script (N.start no_rows) result.0 who.session (place_then (not result.1) who.command Finished) }
    ensures answers { Answers N.script (N.start no_rows) who.session pass result.0 (B.faults bench.old) (B.faults bench.new) 0 }
    ensures ids { (n : ℕ) × (ids.new ≡ after_drafts n ids.old) }
{
    let mut held = lock.enter(rt, pass);
    let vault = held.value();
    let ran = vault.running();
    let (task, made) = regrouped_now(alloc, vault, bench, ids, task, made);
    vault.recast(who, task, made);
    (lock.leave(held), ran)
}

/// The last turn of a recast whose ranges weren't rewritten.
pub fn abandon_turn<'s, N: Naming + Send, M: Made, D: Disk<M>, K: Sink + Send, R: Wait>(
    rt: &R,
    lock: &TurnLock<Vault<'s, N, M, D, K>>,
    pass: Pass,
    who: Who,
    task: Recast<D::Reader>,
    error: CompactError,
) -> (Pass, bool)
    requires lock { pass.lock ≡ lock.now }
    requires few { length N.script.sessions ≤ 8 }
    requires room { (0 < pass.room) × (pass.limit ≤ N.room) }
    requires mine { Mine N.script (N.start no_rows) pass who.session (at_stage who.command (Granted (claim_of_recast task))) }
    requires sort { HasSort N.script who.session who.command is_recast }
    requires granted { WasGranted (IsRecastGranted D.Reader.bytes N.script N.start N.origin N.sound) (history_of pass.seen) (known_recast D.Reader.bytes task) }
    requires task { CanBeRegrouped D.Reader.bytes task }
    requires unmade { IsUnmade D.Reader.bytes D.Reader.faults task error }
    ensures took { Took who.session pass result.0 1 }
    ensures mine { Mine N.script (N.start no_rows) result.0 who.session (place_then (not result.1) who.command Finished) }
    ensures answers { Answers N.script (N.start no_rows) who.session pass result.0 0 0 (owed_by_error error) }
{
    let mut held = lock.enter(rt, pass);
    let vault = held.value();
    let ran = vault.running();
    vault.recast(who, task, Err(error));
    (lock.leave(held), ran)
}
