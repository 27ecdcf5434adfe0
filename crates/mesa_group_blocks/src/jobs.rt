// Blocks that are dealt out to jobs, and what a job does with its own.
ghost use Rattle.std.specs.Prelude.{◌≡◌, ◌++◌, [], List, map, flat_map, true, IfOk, OnOk};
ghost use Rattle.std.specs.List.{AllByRecursion};
ghost use Rattle.mesa_open_files.specs.mesa_columns.declared.rows.Row.{Row as AnyRow};
ghost use Rattle.mesa_open_files.specs.mesa_columns.Columns.{kinds_of};
ghost use Rattle.mesa_open_files.specs.mesa_columns.Rows.{AreRowsOf};
ghost use Rattle.mesa_filter.specs.Filter.{KeyFilter};
ghost use Rattle.mesa_delta.specs.Ahead.{AreAhead};
ghost use Rattle.mesa_merge.specs.Inputs.{AreAlike, AreTold, Known as AnyKnown, tolds_of};
ghost use Rattle.mesa_answer.specs.Gathered.{HasPut, wanted_of};
ghost use Rattle.mesa_answer.specs.Gathering.{Wanted};
ghost use Rattle.mesa_scan.specs.MatchingRows.{matching_rows};
ghost use Rattle.mesa_group_blocks.specs.Jobs.{CanGroup, HasGrouped, IsJob, pieces_in};
ghost use Rattle.mesa_group_blocks.specs.Pieces.{AreDecodingsOf, IsPieceOf, piece_of, rows_of_pieces};

use crate::decoding::Decoding;
use crate::pieces::Piece;
use crate::regrouped::put_matching;
use mesa_answer::{GroupError, Groups};
use mesa_block::Block;
use mesa_delta::Ahead;
use mesa_filter::Filter;
use mesa_schema::lifts_to_present;
use std::alloc::{AllocError, Global};

/// How many jobs there are at most.
pub(crate) const JOBS: usize = 4;

/// How many blocks of a job wait at most.
pub(crate) const RUN: usize = 16;

/// A run of the blocks that are read for a query, one behind the other, and groups into which their rows are put.
#[derive(Drop)]
pub(crate) struct Job<'a> {
    pub pieces: Vec<Piece>,
    // How many of them were read.
    pub next: usize,
    pub waiting: Ahead,
    pub groups: Groups<'a>,
    // Whether all that was taken was put in.
    pub sound: bool,
}

/// The blocks in at most four runs of about as many each.
pub(crate) fn deal<'a>(
    alloc: Global,
    groups: &Groups<'a>,
    pieces: &[Piece],
) -> Result<Vec<Job<'a>>, AllocError>
    requires gathering { (given : List AnyRow) × HasPut groups.now given }
    ensures dealt { IfOk result (λ jobs. flat_map pieces_in jobs.items ≡ pieces.now) }
    ensures begun { IfOk result (λ jobs. (files : List AnyKnown) (f : KeyFilter) → AllByRecursion (IsPieceOf files) pieces.now → AllByRecursion (IsJob files (wanted_of groups.now) f) jobs.items) }
{
    let size = pieces.len().div_ceil(JOBS).max(1);
    let mut jobs = Vec::new(alloc);
    let mut rest = pieces;
    'each_run: while !rest.is_empty() {
        let (run, behind) = rest.split_at(rest.len().min(size));
        jobs.push(Job {
            pieces: Vec::from_slice(alloc, run)?,
            next: 0,
            waiting: Ahead::with_room(alloc, RUN),
            groups: groups.anew()?,
            sound: true,
        })?;
        rest = behind;
    }
    Ok(jobs)
}

/// Puts the matching rows of what waits of a job into its groups, or tells that they aren't there.
pub(crate) fn group_job(decodings: &[Decoding], filter: &Filter, job: &mut Job)
    requires { (files : List AnyKnown) × (w : Wanted) × CanGroup files w filter.now decodings.now job.old }
    ensures { HasGrouped filter.now decodings.now job.old job.new }
{
    let Ok(all) = put_waiting(decodings, filter, &mut job.waiting, &mut job.groups) else {
        job.sound = false;
        return;
    };
    job.sound = all;
}

// Puts the matching rows of all blocks that wait into groups, and says whether each was the recorded one.
fn put_waiting(
    decodings: &[Decoding],
    filter: &Filter,
    waiting: &mut Ahead,
    groups: &mut Groups,
) -> Result<bool, GroupError>
    requires gathering { (given : List AnyRow) × HasPut groups.old given }
    requires filter { filter.now.kinds ≡ kinds_of (wanted_of groups.old).schema }
    requires files { (files : List AnyKnown) × AreAlike (wanted_of groups.old).schema files × AreDecodingsOf files decodings.now × AreAhead (tolds_of files) waiting.old }
    ensures put { IfOk result (λ all. all ≡ true → (given : List AnyRow) → HasPut groups.old given → (more : List AnyRow) × HasPut groups.new (given ++ more)
        × ((files : List AnyKnown) (contents : List (List AnyRow)) → AreAlike (wanted_of groups.old).schema files → AreDecodingsOf files decodings.now → AreAhead (tolds_of files) waiting.old → AreTold files contents
        → more ≡ rows_of_pieces filter.now files contents (map piece_of waiting.old))) }
    ensures wanted { wanted_of groups.new ≡ wanted_of groups.old }
    ensures empty { IfOk result (λ all. all ≡ true → waiting.new ≡ []) }
{
    lifts_to_present();
    waiting.digest();
    'each_block: while let Some(file) = waiting.front() {
        let Some(decoding) = decodings.get(file) else {
            return Ok(false);
        };
        let Some(block) = waiting.take(decoding.index)? else {
            return Ok(false);
        };
        put_block(groups, &block.lifted(decoding.lift)?, filter)?;
    }
    Ok(true)
}

// Puts a block's matching rows into groups.
fn put_block(groups: &mut Groups, block: &Block, filter: &Filter) -> Result<(), GroupError>
    requires gathering { (given : List AnyRow) × HasPut groups.old given }
    requires filter { filter.now.kinds ≡ kinds_of (wanted_of groups.old).schema }
    requires form { AreRowsOf (wanted_of groups.old).schema block.now }
    ensures put { OnOk result ((given : List AnyRow) → HasPut groups.old given → HasPut groups.new (given ++ matching_rows filter.now block.now)) }
    ensures wanted { wanted_of groups.new ≡ wanted_of groups.old }
{
    'block: for i in 0..block.len() {
        put_matching(groups, block.row(i), filter)?;
    }
    Ok(())
}
