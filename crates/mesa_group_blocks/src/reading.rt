// The blocks of jobs read, by the one reader of each file.
ghost use Rattle.std.specs.Prelude.{◌≡◌, ◌<◌, ◌+◌, ◌++◌, [], ◌∷◌, length, map, false, true, IfOk, OnErr};
ghost use Rattle.mesa_open_files.specs.mesa_io.Causes.{HasFaultCause};
ghost use Rattle.mesa_delta.specs.declared.error.FileError.TheVariants as file_error;
ghost use Rattle.mesa_delta.specs.Ahead.{IsOfFile, Untested as AnyUntested};
ghost use Rattle.mesa_delta.specs.Reading.{index_of};
ghost use Rattle.mesa_scan.specs.Cursors.{reader_in};
ghost use Rattle.mesa_merge.specs.Faults.{HaveFaultCause, faults_of};
ghost use Rattle.mesa_merge.specs.Inputs.{knowns_of};
ghost use Rattle.mesa_answer.specs.Gathering.{Wanted};
ghost use Rattle.mesa_group_blocks.specs.Moved.{AreMoved, IsMoved, inputs_in};
ghost use Rattle.mesa_group_blocks.specs.Jobs.{AreRun, IsJob, pieces_in};
ghost use Rattle.mesa_group_blocks.specs.Pieces.{piece_of};

use crate::jobs::Job;
use crate::pieces::Piece;
use mesa_delta::{Ahead, FileError};
use mesa_disk::FileReader;
use mesa_filter::Filter;
use mesa_open_files::PinnedInput;

/// Reads the next blocks of each job, and says whether all were read.
pub(crate) fn read_jobs<R: FileReader>(
    files: &mut [PinnedInput<R>],
    filter: &Filter,
    jobs: &mut [Job],
) -> Result<bool, FileError>
    requires { (w : Wanted) × AreRun (knowns_of R.bytes (inputs_in files.old)) w filter.now jobs.old }
    ensures jobs { (w : Wanted) → AreRun (knowns_of R.bytes (inputs_in files.old)) w filter.now jobs.old → AreRun (knowns_of R.bytes (inputs_in files.old)) w filter.now jobs.new }
    ensures pieces { map pieces_in jobs.new ≡ map pieces_in jobs.old }
    ensures moved { AreMoved R.bytes R.size files.old files.new }
    ensures cause { HaveFaultCause (λ e. e ≡ file_error.Read) (faults_of R.faults (inputs_in files.old)) (faults_of R.faults (inputs_in files.new)) result }
{
    'each_job: for i in 0..jobs.len() {
        if !read_job(files, filter, &mut jobs[i])? {
            return Ok(false);
        }
    }
    Ok(true)
}

// Reads the next blocks of a job until no more may wait, and says whether they were read.
fn read_job<R: FileReader>(
    files: &mut [PinnedInput<R>],
    filter: &Filter,
    job: &mut Job,
) -> Result<bool, FileError>
    requires { (w : Wanted) × IsJob (knowns_of R.bytes (inputs_in files.old)) w filter.now job.old }
    ensures job { (w : Wanted) → IsJob (knowns_of R.bytes (inputs_in files.old)) w filter.now job.old → IsJob (knowns_of R.bytes (inputs_in files.old)) w filter.now job.new }
    ensures pieces { job.new.pieces ≡ job.old.pieces }
    ensures moved { AreMoved R.bytes R.size files.old files.new }
    ensures cause { HaveFaultCause (λ e. e ≡ file_error.Read) (faults_of R.faults (inputs_in files.old)) (faults_of R.faults (inputs_in files.new)) result }
{
    'each_piece: while job.next < job.pieces.len() && !job.waiting.is_full() {
        if !read_next(files, filter, job)? {
            return Ok(false);
        }
    }
    Ok(true)
}

// Reads the next block of a job, and says whether it was read.
fn read_next<R: FileReader>(
    files: &mut [PinnedInput<R>],
    filter: &Filter,
    job: &mut Job,
) -> Result<bool, FileError>
    requires job { (w : Wanted) × IsJob (knowns_of R.bytes (inputs_in files.old)) w filter.now job.old }
    requires more { job.old.next < length job.old.pieces.items }
    ensures job { (w : Wanted) → IsJob (knowns_of R.bytes (inputs_in files.old)) w filter.now job.old → IsJob (knowns_of R.bytes (inputs_in files.old)) w filter.now job.new }
    ensures pieces { job.new.pieces ≡ job.old.pieces }
    ensures next { IfOk result (λ read. read ≡ true → job.new.next ≡ job.old.next + 1) }
    ensures moved { AreMoved R.bytes R.size files.old files.new }
    ensures cause { HaveFaultCause (λ e. e ≡ file_error.Read) (faults_of R.faults (inputs_in files.old)) (faults_of R.faults (inputs_in files.new)) result }
{
    let piece = job.pieces[job.next];
    if !read_piece(&mut files[piece.file], piece, &mut job.waiting)? {
        return Ok(false);
    }
    job.next += 1;
    Ok(true)
}

// Reads a block of this file, and says whether it was read.
fn read_piece<R: FileReader>(
    file: &mut PinnedInput<R>,
    piece: Piece,
    waiting: &mut Ahead,
) -> Result<bool, FileError>
    requires { piece.block < length (index_of file.old.input.reader).entries }
    ensures more { IfOk result (λ read. read ≡ true → (u : AnyUntested) × (waiting.new ≡ waiting.old ++ u ∷ []) × (piece_of u ≡ piece) × IsOfFile (R.bytes (reader_in file.old.input)) (index_of file.old.input.reader) u) }
    ensures same { IfOk result (λ read. read ≡ false → waiting.new ≡ waiting.old) }
    ensures err { OnErr result (waiting.new ≡ waiting.old) }
    ensures moved { IsMoved R.bytes R.size file.old file.new }
    ensures cause { HasFaultCause (λ e. e ≡ file_error.Read) (R.faults (reader_in file.old.input)) (R.faults (reader_in file.new.input)) result }
{
    Ok(waiting.read(piece.file, &mut file.input.reader, piece.block)?)
}
