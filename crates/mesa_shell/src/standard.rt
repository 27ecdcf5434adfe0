// The program over the standard streams and a folder.
ghost use Rattle.std.specs.Prelude.{◌≡◌, IfOk, length};

use crate::shell::mesa;
use crate::{Done, statuses};
use mesa_dir::{DirBench, DirDisk, Host};
use mesa_io::{StdSink, StdSource};
use mesa_session::OpenGate;
use std::alloc::{AllocError, Global};
use std::env;
use std::io::ErrorKind;
use std::process::ExitCode;
use std::sync::Wait;
use std::thread::Threads;

// The folder of the store, within the current one.
const FOLDER: &str = "mesa-store";

// How many benches a call is given: one for each session that a script may have.
const BENCHES: usize = 8;

// Texts as slices.
fn slices(alloc: Global, texts: &[String]) -> Result<Vec<&str>, AllocError> {
    let mut slices = Vec::new(alloc);
    for text in texts {
        slices.push(text.as_str())?;
    }
    Ok(slices)
}

// The words behind the program's name; none where one of them is no text.
fn words(host: &HostRuntime) -> Result<Vec<String>, AllocError> {
    let mut words = Vec::new(host.alloc());
    match env::args(host) {
        Ok(args) => {
            for word in args.skip(1) {
                words.push(word)?;
            }
        }
        Err(error) if error.kind() == ErrorKind::InvalidData => {}
        Err(_) => return Err(AllocError),
    }
    Ok(words)
}

// A bench for each session that a script may have.
fn benches<R: Threads + Sync + Copy>(
    alloc: Global,
    disk: &DirDisk<Host<R>>,
) -> Result<Vec<DirBench<Host<R>>>, AllocError>
    ensures { IfOk result (λ all. length all.items ≡ 8) }
{
    let mut all = Vec::new(alloc);
    'sessions: for _ in 0..BENCHES {
        let bench = disk.bench()?;
        all.push(bench)?;
    }
    Ok(all)
}

// Runs the words over the standard streams and the folder. Nothing that is printed is held back: a
// block goes out in its turn, and where that fails, the call ends as one whose sink failed.
fn run_words<R: Threads + Wait + Sync + Copy + Send>(
    rt: &R,
    host: HostRuntime,
) -> Result<u8, AllocError> {
    let alloc = host.alloc();
    let words = words(&host)?;
    let words = slices(alloc, &words)?;
    let mut source = StdSource::new(host.reader());
    let out = StdSink::new(host.stdout());
    let disk = DirDisk::open(Host::new(*rt, host), FOLDER)?;
    let benches = benches(alloc, &disk)?;
    let Done {
        status,
        out: _out,
        disk: _disk,
        benches: _benches,
        history: _history,
    } = mesa(
        rt,
        alloc,
        &words,
        &mut source,
        out,
        disk,
        benches,
        &OpenGate,
    );
    Ok(status)
}

/// The program: takes the words behind its name, reads standard input where they ask for that, and runs or
/// checks over the store in the folder `mesa-store` of the current one, which is made where it is missing;
/// it prints to standard output.
pub fn program<R: Threads + Wait + Sync + Copy + Send>(rt: &R, host: HostRuntime) -> ExitCode {
    match run_words(rt, host) {
        Ok(status) => ExitCode::from(status),
        Err(AllocError) => ExitCode::from(statuses::NO_MEMORY),
    }
}
