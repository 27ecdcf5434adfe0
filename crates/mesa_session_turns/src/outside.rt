// What a session does between the turns of a query, a work or a recast.
ghost use Rattle.std.specs.List.{AllByRecursion};
ghost use Rattle.std.specs.Prelude.{◌≡◌, ◌⊎◌, ◌-◌, ◌≤◌, ℕ, IsTrue, IfOk, IfErr, IfSome, OnOk, Err, None, length, true};
ghost use Rattle.mesa_key.specs.Spelling.{is_spelling};
ghost use Rattle.mesa_core.specs.mesa_columns.declared.rows.Row.{Row as AnyRow};
ghost use Rattle.mesa_filter.specs.Query.{group_kinds as kinds_grouped};
ghost use Rattle.mesa_script.specs.Rows.{rendered};
ghost use Rattle.mesa_core.specs.Answers.{Owes};
ghost use Rattle.mesa_open_files.specs.Recasts.{IsRecasted, IsRecastedSoFar, claim_of_recast, recast_ids};
ghost use Rattle.mesa_file.specs.Serials.{AreNext, after_drafts};
ghost use Rattle.mesa_open_files.specs.declared.merging.CompactError.TheVariants as compact;
ghost use Rattle.mesa_delta.specs.declared.error.FileError.TheVariants as file_error;
ghost use Rattle.mesa_core.specs.Handing.{AllAreRested, IsRecastGranted, IsRecastHeld};
ghost use Rattle.mesa_core.specs.mesa_recast_turns.Rested.{HasUnpaid};
ghost use Rattle.mesa_core.specs.mesa_history_spec.Rows.{no_rows};
ghost use Rattle.mesa_compact.specs.Tasks.{AreNumbered};
ghost use Rattle.mesa_core.specs.Drafts.{owed_by_work};
ghost use Rattle.mesa_core.specs.Pins.{CanBeAnswered, HasAnswered, heading_in, known_pin};
ghost use Rattle.mesa_core.specs.Recasts.{CanBeRegrouped, HasRegrouped, known_recast};
ghost use Rattle.mesa_core.specs.Works.{CanBeMerged, HasMerged, WasGranted, known_task};

use mesa_compact::merge_task;
use mesa_copy::{regroup_more, regroup_task};
use mesa_core::Vault;
use mesa_delta::FileError;
use mesa_disk::{Bench, FileReader, Made};
use mesa_engine::Naming;
use mesa_file::Serials;
use mesa_filter::Query;
use mesa_io::Sink;
use mesa_key::reads_back;
use mesa_model::Page;
use mesa_open_files::{CompactError, DeltaDisk, NewDelta, Pinned, Recast, Recasted, Task};
use mesa_print::render;
use mesa_query::{Warm, answer};
use mesa_script::Rendered;
use mesa_split::{merge_split, sample};
use std::alloc::{AllocError, Global};
use std::thread::Threads;

// A query's page as it is printed.
fn printed(alloc: Global, page: &Page, query: &Query) -> Result<Rendered, FileError>
    requires { AllByRecursion (λ (row : AnyRow). IsTrue (is_spelling (kinds_grouped query.now) row.key)) page.now.rows }
    ensures text { IfOk result (λ text. text ≡ rendered (heading_in query.now) page.now) }
    ensures memory { IfErr result (λ e. e ≡ FileError.Memory) }
{
    match render(alloc, page, query.group_kinds(), query.prefix()) {
        Ok(text) => Ok(text),
        Err(_) => Err(FileError::Memory),
    }
}

// How many pages of a file a query keeps while it is answered.
const PAGES: usize = 8;

/// A query beside its page as it is printed, or why there is none. Its files are read through caches, or as they are where there is no memory for those.
pub fn answered<T: Threads + Sync, R: FileReader>(
    rt: &T,
    alloc: Global,
    pinned: Pinned<R>,
) -> (Pinned<R>, Result<Rendered, FileError>)
    requires { CanBeAnswered R.bytes pinned }
    ensures known { known_pin R.bytes result.0 ≡ known_pin R.bytes pinned }
    ensures answer { HasAnswered R.bytes R.faults result.0 result.1 }
{
    match Warm::new(alloc, pinned, PAGES) {
        Ok(warm) => answered_warm(rt, alloc, warm),
        Err((_, pinned)) => answered_as_is(rt, alloc, pinned),
    }
}

// The same of a query whose files are read through caches.
fn answered_warm<T: Threads + Sync, R: FileReader>(
    rt: &T,
    alloc: Global,
    mut warm: Warm<R>,
) -> (Pinned<R>, Result<Rendered, FileError>)
    requires { CanBeAnswered R.bytes warm }
    ensures known { known_pin R.bytes result.0 ≡ known_pin R.bytes warm }
    ensures answer { HasAnswered R.bytes R.faults result.0 result.1 }
{
    reads_back();
    match warm.answer(rt) {
        Ok(page) => {
            let pinned = warm.cool();
            let text = printed(alloc, &page, &pinned.query);
            (pinned, text)
        }
        Err(error) => (warm.cool(), Err(error)),
    }
}

// The same of one whose files are read without any.
fn answered_as_is<T: Threads + Sync, R: FileReader>(
    rt: &T,
    alloc: Global,
    mut pinned: Pinned<R>,
) -> (Pinned<R>, Result<Rendered, FileError>)
    requires { CanBeAnswered R.bytes pinned }
    ensures known { known_pin R.bytes result.0 ≡ known_pin R.bytes pinned }
    ensures answer { HasAnswered R.bytes R.faults result.0 result.1 }
{
    reads_back();
    match answer(rt, alloc, &mut pinned) {
        Ok(page) => {
            let text = printed(alloc, &page, &pinned.query);
            (pinned, text)
        }
        Err(error) => (pinned, Err(error)),
    }
}

// The most parts behind the first one.
const MORE_PARTS: usize = 7;

// Into how many parts a task may be cut: one is merged from its own readers, and each further one from
// a spare's.
fn parts_of<R>(task: &Task<R>) -> u8
    ensures { result - 1 ≤ length task.now.spare.items }
{
    task.spare.len().min(MORE_PARTS) as u8 + 1
}

// The delta of a task that is cut into parts, or why there is none.
fn merged_in_parts<T: Threads + Sync, M: Made, B: Bench<M>, R: FileReader>(
    rt: &T,
    alloc: Global,
    bench: &mut B,
    ids: &mut Serials,
    task: &mut Task<R>,
) -> Result<NewDelta<M>, CompactError>
    requires { CanBeMerged R.bytes task.old }
    ensures known { known_task R.bytes task.new ≡ known_task R.bytes task.old }
    ensures merged { HasMerged M.bytes M.id_of R.bytes R.faults task.new result }
    ensures owes { Owes (B.faults bench.old) (B.faults bench.new) (owed_by_work result) }
    ensures numbered { IfOk result (λ delta. IfSome delta.files (AreNumbered M.id_of ids.old)) }
    ensures ids { (n : ℕ) × (ids.new ≡ after_drafts n ids.old) }
{
    match sample(alloc, &task.inputs, parts_of(task)) {
        Ok(cuts) => merge_split(rt, alloc, bench, ids, task, &cuts),
        Err(AllocError) => Err(CompactError::File(FileError::Memory)),
    }
}

/// A task's delta, or why there is none. Where there are further readers of its files, parts of it are
/// merged side by side.
pub fn merged<T: Threads + Sync, M: Made, B: Bench<M>, R: FileReader>(
    rt: &T,
    alloc: Global,
    bench: &mut B,
    ids: &mut Serials,
    task: &mut Task<R>,
) -> Result<NewDelta<M>, CompactError>
    requires { CanBeMerged R.bytes task.old }
    ensures known { known_task R.bytes task.new ≡ known_task R.bytes task.old }
    ensures merged { HasMerged M.bytes M.id_of R.bytes R.faults task.new result }
    ensures owes { Owes (B.faults bench.old) (B.faults bench.new) (owed_by_work result) }
    ensures numbered { IfOk result (λ delta. IfSome delta.files (AreNumbered M.id_of ids.old)) }
    ensures ids { (n : ℕ) × (ids.new ≡ after_drafts n ids.old) }
{
    if task.spare.is_empty() {
        return merge_task(alloc, bench, ids, task);
    }
    merged_in_parts(rt, alloc, bench, ids, task)
}

/// A recast's ranges rewritten, or why they aren't.
pub fn regrouped<M: Made, B: Bench<M>, R: FileReader>(
    alloc: Global,
    bench: &mut B,
    ids: &mut Serials,
    task: &mut Recast<R>,
) -> Result<Recasted<M>, CompactError>
    requires { CanBeRegrouped R.bytes task.old }
    ensures known { known_recast R.bytes task.new ≡ known_recast R.bytes task.old }
    ensures task { CanBeRegrouped R.bytes task.new }
    ensures made { HasRegrouped M.bytes M.id_of R.bytes R.faults task.new result }
    ensures owes { Owes (B.faults bench.old) (B.faults bench.new) (owed_by_work result) }
    ensures numbered { IfOk result (λ made. AreNext ids.old ids.new (recast_ids M.id_of made.ranges.items)) }
    ensures ids { (n : ℕ) × (ids.new ≡ after_drafts n ids.old) }
{
    regroup_task(alloc, bench, ids, task)
}

// The ranges behind those that are rewritten, rewritten too.
fn regrouped_more<M: Made, B: Bench<M>, R: FileReader>(
    alloc: Global,
    bench: &mut B,
    ids: &mut Serials,
    task: &mut Recast<R>,
    made: Recasted<M>,
) -> Result<Recasted<M>, CompactError>
    requires task { CanBeRegrouped R.bytes task.old }
    requires begun { IsRecastedSoFar M.bytes M.id_of R.bytes task.old made }
    ensures known { known_recast R.bytes task.new ≡ known_recast R.bytes task.old }
    ensures task { CanBeRegrouped R.bytes task.new }
    ensures made { HasRegrouped M.bytes M.id_of R.bytes R.faults task.new result }
    ensures whole { OnOk result (task.new.damage ≡ None) }
    ensures owes { Owes (B.faults bench.old) (B.faults bench.new) (owed_by_work result) }
    ensures ids { (n : ℕ) × (ids.new ≡ after_drafts n ids.old) }
{
    let mut made = made;
    match regroup_more(alloc, bench, ids, task, &mut made) {
        Ok(()) => Ok(made),
        Err(error) => {
            drop(made);
            Err(error)
        }
    }
}

/// What a recast's ranges are rewritten to, in its closing turn: with those of the batches that came meanwhile. With it the recast, which may have got further ranges.
pub(crate) fn regrouped_now<
    's,
    N: Naming + Send,
    M: Made,
    D: DeltaDisk<M>,
    K: Sink + Send,
    B: Bench<M>,
>(
    alloc: Global,
    vault: &mut Vault<'s, N, M, D, K>,
    bench: &mut B,
    ids: &mut Serials,
    task: Recast<D::Reader>,
    made: Recasted<M>,
) -> (Recast<D::Reader>, Result<Recasted<M>, CompactError>)
    requires granted { WasGranted (IsRecastGranted D.Reader.bytes N.script N.start N.origin N.sound) vault.old.shown.history (known_recast D.Reader.bytes task) }
    requires task { CanBeRegrouped D.Reader.bytes task }
    requires made { IsRecasted M.bytes M.id_of D.Reader.bytes task made }
    ensures shown { vault.new.shown ≡ vault.old.shown }
    ensures claim { claim_of_recast result.0 ≡ claim_of_recast task }
    ensures task { CanBeRegrouped D.Reader.bytes result.0 }
    ensures held { IsRecastHeld D.Reader.bytes N.script N.start N.origin N.sound vault.new.shown.history (known_recast D.Reader.bytes result.0) }
    ensures rested { OnOk result.1 (vault.new.shown.running ≡ true → AllAreRested D.Reader.bytes vault.new.state (known_recast D.Reader.bytes result.0)) }
    ensures made { HasRegrouped M.bytes M.id_of D.Reader.bytes D.Reader.faults result.0 result.1 ⊎ ((result.1 ≡ Err (compact.File file_error.Read)) × HasUnpaid N.script N.start N.counted vault.new.shown vault.new.faults) }
    ensures owes { Owes (B.faults bench.old) (B.faults bench.new) (owed_by_work result.1) }
    ensures ids { (n : ℕ) × (ids.new ≡ after_drafts n ids.old) }
{
    match vault.rest(task) {
        Ok(mut task) => {
            let made = regrouped_more(alloc, bench, ids, &mut task, made);
            (task, made)
        }
        Err((error, task)) => {
            drop(made);
            (task, Err(CompactError::File(error)))
        }
    }
}
