// Pinned files put into the groups of a query by a few threads.
ghost use Rattle.std.specs.Prelude.{◌≡◌, ◌<◌, ◌≤◌, ◌+◌, ℕ, List, [], flat_map, length, map, slice_index_or, false, true, IfErr, IfOk, IfSome};
ghost use Rattle.std.specs.List.{AllByRecursion};
ghost use Rattle.mesa_open_files.specs.mesa_columns.declared.rows.Row.{Row as AnyRow};
ghost use Rattle.mesa_open_files.specs.mesa_columns.Columns.{kinds_of};
ghost use Rattle.mesa_open_files.specs.mesa_fold.Folded.{rows_of};
ghost use Rattle.mesa_filter.specs.Filter.{KeyFilter, filtered};
ghost use Rattle.mesa_delta.specs.declared.error.FileError.TheVariants as file_error;
ghost use Rattle.mesa_merge.specs.Faults.{HaveFaultCause, faults_of};
ghost use Rattle.mesa_merge.specs.Inputs.{AreTold, Known as AnyKnown, knowns_of};
ghost use Rattle.mesa_answer.specs.Gathered.{HasPut, wanted_of};
ghost use Rattle.mesa_answer.specs.Gathering.{Wanted};
ghost use Rattle.mesa_open_files.specs.Pins.{IsPinnedInput};
ghost use Rattle.mesa_open_files.specs.declared.querying.PinnedInput.{PinnedInput as AnyPinned};
ghost use Rattle.mesa_group_blocks.specs.declared.jobs.Job.{Job as AnyJob};
ghost use Rattle.mesa_group_blocks.specs.Moved.{AreMoved, inputs_in};
ghost use Rattle.mesa_group_blocks.specs.Jobs.{AreRun, CanGroup, HasGrouped, IsJob, pieces_in};
ghost use Rattle.mesa_group_blocks.specs.Pieces.{AreLiftsOf, rows_of_pieces};
ghost use Rattle.mesa_group_blocks.specs.Ungrouped.{parts_ungrouped};

use crate::decoding::{Decoding, decodings_of, lifts_of};
use crate::jobs::{JOBS, Job, RUN, deal, group_job};
use crate::pieces::pieces_of;
use crate::reading::read_jobs;
use mesa_answer::Groups;
use mesa_delta::FileError;
use mesa_disk::FileReader;
use mesa_filter::Filter;
use mesa_open_files::PinnedInput;
use mesa_schema::Lift;
use std::alloc::{AllocError, Global};
use std::thread;
use std::thread::Threads;

/// Fewer blocks are not worth a thread.
const LEAST: usize = 32;

/// Groups of the matching rows of all files, by at most four threads, each of which has groups of its own for a run of blocks. Every block is read here, by the one reader of its file.
///
/// There are none where that isn't worth while, where memory is short, where a block isn't the recorded one, and where a sum of some rows of a run leaves its type. Then nothing is told of it: who reads the files one after the other finds what there is to tell.
pub fn gathered_beside<'a, T: Threads + Sync, R: FileReader>(
    rt: &T,
    alloc: Global,
    groups: &Groups<'a>,
    view: Option<u8>,
    files: &mut [PinnedInput<R>],
    filter: &Filter,
) -> Result<Option<Groups<'a>>, FileError>
    requires gathering { HasPut groups.now [] }
    requires files { AllByRecursion (IsPinnedInput R.bytes (wanted_of groups.now).schema view) files.old }
    requires filter { filter.now.kinds ≡ kinds_of (wanted_of groups.now).schema }
    ensures put { IfOk result (λ found. IfSome found (λ all. (given : List AnyRow) × HasPut all given
        × ((contents : List (List AnyRow)) → AreTold (knowns_of R.bytes (inputs_in files.old)) contents → given ≡ filtered (wanted_of groups.now).schema filter.now.terms (rows_of (parts_ungrouped view files.old contents))))) }
    ensures wanted { IfOk result (λ found. IfSome found (λ all. wanted_of all ≡ wanted_of groups.now)) }
    ensures moved { AreMoved R.bytes R.size files.old files.new }
    ensures cause { HaveFaultCause (λ e. e ≡ file_error.Read) (faults_of R.faults (inputs_in files.old)) (faults_of R.faults (inputs_in files.new)) result }
    ensures fault { IfErr result (λ e. e ≡ file_error.Read) }
{
    match grouped_beside(rt, alloc, groups, view, files, filter) {
        Ok(found) => Ok(found),
        Err(error) => match error {
            FileError::Read => Err(FileError::Read),
            _ => Ok(None),
        },
    }
}

// The same, where want of memory is told.
fn grouped_beside<'a, T: Threads + Sync, R: FileReader>(
    rt: &T,
    alloc: Global,
    groups: &Groups<'a>,
    view: Option<u8>,
    files: &mut [PinnedInput<R>],
    filter: &Filter,
) -> Result<Option<Groups<'a>>, FileError>
    requires gathering { HasPut groups.now [] }
    requires files { AllByRecursion (IsPinnedInput R.bytes (wanted_of groups.now).schema view) files.old }
    requires filter { filter.now.kinds ≡ kinds_of (wanted_of groups.now).schema }
    ensures put { IfOk result (λ found. IfSome found (λ all. (given : List AnyRow) × HasPut all given
        × ((contents : List (List AnyRow)) → AreTold (knowns_of R.bytes (inputs_in files.old)) contents → given ≡ filtered (wanted_of groups.now).schema filter.now.terms (rows_of (parts_ungrouped view files.old contents))))) }
    ensures wanted { IfOk result (λ found. IfSome found (λ all. wanted_of all ≡ wanted_of groups.now)) }
    ensures moved { AreMoved R.bytes R.size files.old files.new }
    ensures cause { HaveFaultCause (λ e. e ≡ file_error.Read) (faults_of R.faults (inputs_in files.old)) (faults_of R.faults (inputs_in files.new)) result }
{
    let Some(plan) = planned(alloc, groups, view, files, filter)? else {
        return Ok(None);
    };
    let Plan {
        lifts,
        mut jobs,
        rounds,
    } = plan;
    if !run_jobs(rt, alloc, files, &lifts, filter, &mut jobs, rounds)? {
        return Ok(None);
    }
    Ok(joined(jobs))
}

// What is to be done by threads.
#[derive(Drop)]
struct Plan<'a> {
    lifts: Vec<Lift>,
    jobs: Vec<Job<'a>>,
    // How often each job reads some of its blocks.
    rounds: usize,
}

// The blocks of the files dealt out, if they are worth it and all files are the relation's own.
fn planned<'a, R: FileReader>(
    alloc: Global,
    groups: &Groups<'a>,
    view: Option<u8>,
    files: &[PinnedInput<R>],
    filter: &Filter,
) -> Result<Option<Plan<'a>>, AllocError>
    requires gathering { HasPut groups.now [] }
    requires files { AllByRecursion (IsPinnedInput R.bytes (wanted_of groups.now).schema view) files.now }
    requires filter { filter.now.kinds ≡ kinds_of (wanted_of groups.now).schema }
    ensures lifts { IfOk result (λ found. IfSome found (λ plan. AreLiftsOf (knowns_of R.bytes (inputs_in files.now)) plan.lifts.items)) }
    ensures run { IfOk result (λ found. IfSome found (λ plan. AreRun (knowns_of R.bytes (inputs_in files.now)) (wanted_of groups.now) filter.now plan.jobs.items)) }
    ensures rows { IfOk result (λ found. IfSome found (λ plan. (contents : List (List AnyRow)) → AreTold (knowns_of R.bytes (inputs_in files.now)) contents
        → rows_of_pieces filter.now (knowns_of R.bytes (inputs_in files.now)) contents (flat_map pieces_in plan.jobs.items) ≡ filtered (wanted_of groups.now).schema filter.now.terms (rows_of (parts_ungrouped view files.now contents)))) }
{
    if !are_own(files) {
        return Ok(None);
    }
    let pieces = pieces_of(alloc, view, files, filter)?;
    if pieces.len() < LEAST {
        return Ok(None);
    }
    let lifts = lifts_of(alloc, files)?;
    let jobs = deal(alloc, groups, pieces.as_slice())?;
    let rounds = pieces.len().div_ceil(JOBS).div_ceil(RUN);
    Ok(Some(Plan {
        lifts,
        jobs,
        rounds,
    }))
}

// Whether all files are the relation's own.
fn are_own<R: FileReader>(files: &[PinnedInput<R>]) -> bool
    ensures { result ≡ true → AllByRecursion (λ (file : AnyPinned R). file.own ≡ true) files.now }
{
    'each_file: for i in 0..files.len() {
        if !files[i].own {
            return false;
        }
    }
    true
}

// Reads and groups the blocks of all jobs, some of each at a time, and says whether all were put in.
fn run_jobs<T: Threads + Sync, R: FileReader>(
    rt: &T,
    alloc: Global,
    files: &mut [PinnedInput<R>],
    lifts: &[Lift],
    filter: &Filter,
    jobs: &mut [Job],
    rounds: usize,
) -> Result<bool, FileError>
    requires lifts { AreLiftsOf (knowns_of R.bytes (inputs_in files.old)) lifts.now }
    requires jobs { (w : Wanted) × AreRun (knowns_of R.bytes (inputs_in files.old)) w filter.now jobs.old }
    ensures jobs { IfOk result (λ all. all ≡ true → (w : Wanted) → AreRun (knowns_of R.bytes (inputs_in files.old)) w filter.now jobs.old → AreRun (knowns_of R.bytes (inputs_in files.old)) w filter.now jobs.new) }
    ensures pieces { map pieces_in jobs.new ≡ map pieces_in jobs.old }
    ensures moved { AreMoved R.bytes R.size files.old files.new }
    ensures cause { HaveFaultCause (λ e. e ≡ file_error.Read) (faults_of R.faults (inputs_in files.old)) (faults_of R.faults (inputs_in files.new)) result }
{
    'each_round: for _round in 0..rounds {
        if !run_round(rt, alloc, files, lifts, filter, jobs)? {
            return Ok(false);
        }
    }
    Ok(true)
}

// Reads the next blocks of each job, and then groups them side by side.
fn run_round<T: Threads + Sync, R: FileReader>(
    rt: &T,
    alloc: Global,
    files: &mut [PinnedInput<R>],
    lifts: &[Lift],
    filter: &Filter,
    jobs: &mut [Job],
) -> Result<bool, FileError>
    requires lifts { AreLiftsOf (knowns_of R.bytes (inputs_in files.old)) lifts.now }
    requires jobs { (w : Wanted) × AreRun (knowns_of R.bytes (inputs_in files.old)) w filter.now jobs.old }
    ensures jobs { IfOk result (λ all. all ≡ true → (w : Wanted) → AreRun (knowns_of R.bytes (inputs_in files.old)) w filter.now jobs.old → AreRun (knowns_of R.bytes (inputs_in files.old)) w filter.now jobs.new) }
    ensures pieces { map pieces_in jobs.new ≡ map pieces_in jobs.old }
    ensures moved { AreMoved R.bytes R.size files.old files.new }
    ensures cause { HaveFaultCause (λ e. e ≡ file_error.Read) (faults_of R.faults (inputs_in files.old)) (faults_of R.faults (inputs_in files.new)) result }
{
    if !read_jobs(files, filter, jobs)? {
        return Ok(false);
    }
    let decodings = decodings_of(alloc, files, lifts)?;
    group_all(rt, &decodings, filter, jobs);
    Ok(are_sound(jobs))
}

// Groups what waits of all jobs, each job in a thread.
fn group_all<T: Threads + Sync>(rt: &T, decodings: &[Decoding], filter: &Filter, jobs: &mut [Job])
    requires { (i : ℕ) (d : AnyJob) → i < length jobs.old → (files : List AnyKnown) × (w : Wanted) × CanGroup files w filter.now decodings.now (slice_index_or jobs.old i d) }
    ensures each { (i : ℕ) (d : AnyJob) → i < length jobs.old → HasGrouped filter.now decodings.now (slice_index_or jobs.old i d) (slice_index_or jobs.new i d) }
    ensures count { length jobs.new ≡ length jobs.old }
{
    let group = |_place: usize, job: &mut Job|
        requires { (files : List AnyKnown) × (w : Wanted) × CanGroup files w filter.now decodings.now job.now }
        ensures { HasGrouped filter.entry.now decodings.entry.now job.entry.now job.exit.now }
    { group_job(decodings, filter, job) };
    thread::for_each_mut(rt, jobs, JOBS, &group);
}

// Whether all rows that were taken were put in.
fn are_sound(jobs: &[Job]) -> bool
    ensures { result ≡ true → AllByRecursion (λ (job : AnyJob). job.sound ≡ true) jobs.now }
{
    'each_job: for i in 0..jobs.len() {
        if !jobs[i].sound {
            return false;
        }
    }
    true
}

// The groups of all jobs as one, where each has the rows of all its blocks. Older ones take in newer ones.
fn joined<'a>(mut jobs: Vec<Job<'a>>) -> Option<Groups<'a>>
    requires { (files : List AnyKnown) × (w : Wanted) × (f : KeyFilter) × AllByRecursion (IsJob files w f) jobs.items }
    ensures { IfSome result (λ g. (files : List AnyKnown) (w : Wanted) (f : KeyFilter) → AllByRecursion (IsJob files w f) jobs.entry.items → (given : List AnyRow) × HasPut g given × (wanted_of g ≡ w)
        × ((contents : List (List AnyRow)) → AreTold files contents → given ≡ rows_of_pieces f files contents (flat_map pieces_in jobs.entry.items))) }
{
    let Some(last) = jobs.pop() else {
        return None;
    };
    let Some(mut all) = groups_of(last) else {
        return None;
    };
    'each_job: while let Some(job) = jobs.pop() {
        let Some(mut older) = groups_of(job) else {
            return None;
        };
        match older.join(all) {
            Ok(()) => {}
            Err(_) => return None,
        }
        all = older;
    }
    Some(all)
}

// The groups of a job, if it has the rows of all its blocks.
fn groups_of<'a>(job: Job<'a>) -> Option<Groups<'a>>
    ensures groups { IfSome result (λ g. g ≡ job.entry.groups) }
    ensures none { IfSome result (λ _. job.entry.waiting ≡ []) }
    ensures all { IfSome result (λ _. length job.entry.pieces.items ≤ job.entry.next) }
{
    if !job.waiting.is_empty() || job.next < job.pieces.len() {
        return None;
    }
    let Job {
        pieces: _,
        next: _,
        waiting: _,
        groups,
        sound: _,
    } = job;
    Some(groups)
}
