// Which calls of the system a folder makes, and in which order.
use crate::dir::folders::remove;
use crate::dir::recorder::Recorder;
use crate::expected::expect_same;
use mesa_dir::{DirBench, DirDisk, DirDraft, DirMade, Host};
use mesa_disk::{Area, Bench, Disk, Draft, FileId};
use std::fs;
use std::process::Abort;
use std::thread::Threads;

// A system whose calls are lines of a new file.
fn recorder<R: Abort + Threads + Sync + Copy>(
    rt: R,
    files: HostRuntime,
    lines: &'static str,
    fails: &'static str,
) -> Recorder<R, Host<R>> {
    let _ = fs::remove_file(&files, lines);
    Recorder {
        rt,
        system: Host::new(rt, files),
        files,
        lines,
        fails,
    }
}

// Stops the test where other calls were made since the last look, or in another order.
fn expect_calls(rt: &impl Abort, files: HostRuntime, lines: &'static str, wanted: &str) {
    let found = match fs::read_to_string(&files, lines) {
        Ok(found) => found,
        Err(_) => String::new(files.alloc()),
    };
    let _ = fs::remove_file(&files, lines);
    expect_same(rt, &found.as_str(), &wanted, &lines);
}

// A folder that is new: its own name is synced before it is opened, and area 0 is locked before anything is done in it.
static MADE: &str = "open .\n\
     make folder mesa_dir_new\n\
     sync .\n\
     close .\n\
     open mesa_dir_new\n\
     open within mesa_dir_new/journal0\n\
     lock mesa_dir_new/journal0\n\
     open within mesa_dir_new/journal1\n\
     names mesa_dir_new\n\
     length mesa_dir_new/journal0\n\
     sync mesa_dir_new/journal0\n\
     length mesa_dir_new/journal1\n\
     sync mesa_dir_new/journal1\n\
     sync mesa_dir_new\n";

#[test]
fn a_new_folder(rt: HostRuntime) {
    let (name, lines) = ("mesa_dir_new", "mesa_dir_new.calls");
    let _ = fs::remove_dir_all(&rt, name);
    let disk = DirDisk::open(recorder(rt, rt, lines, ""), name).expect(&rt, "a disk");
    expect_calls(&rt, rt, lines, MADE);
    drop(disk);
    remove(&rt, rt, name);
}

// One that is found: drafts go behind the lock, and what stands in an area is written again before it is synced.
static FOUND: &str = "open .\n\
     make folder mesa_dir_found\n\
     sync .\n\
     close .\n\
     open mesa_dir_found\n\
     open within mesa_dir_found/journal0\n\
     lock mesa_dir_found/journal0\n\
     open within mesa_dir_found/journal1\n\
     names mesa_dir_found\n\
     remove mesa_dir_found/0000000000000001.draft\n\
     length mesa_dir_found/journal0\n\
     read 0 3 mesa_dir_found/journal0\n\
     write at 0 3 mesa_dir_found/journal0\n\
     sync mesa_dir_found/journal0\n\
     length mesa_dir_found/journal1\n\
     sync mesa_dir_found/journal1\n\
     sync mesa_dir_found\n";

static LEFT: [(&str, &str); 3] = [
    ("mesa_dir_found/journal0", "abc"),
    ("mesa_dir_found/0000000000000001.draft", "draft"),
    ("mesa_dir_found/0000000000000002.mesa", "file"),
];

#[test]
fn a_folder_that_is_found(rt: HostRuntime) {
    let (name, lines) = ("mesa_dir_found", "mesa_dir_found.calls");
    let _ = fs::remove_dir_all(&rt, name);
    fs::create_dir(&rt, name).expect(&rt, "a folder");
    for (path, text) in &LEFT {
        fs::write(&rt, *path, text.as_bytes()).expect(&rt, "a written file");
    }
    let disk = DirDisk::open(recorder(rt, rt, lines, ""), name).expect(&rt, "a disk");
    expect_calls(&rt, rt, lines, FOUND);
    drop(disk);
    remove(&rt, rt, name);
}

// A disk in a new folder, and no lines of the calls that opened it.
fn opened<R: Abort + Threads + Sync + Copy>(
    system: Recorder<R, Host<R>>,
    name: &str,
) -> DirDisk<Recorder<R, Host<R>>> {
    let (rt, files, lines) = (system.rt, system.files, system.lines);
    let _ = fs::remove_dir_all(&files, name);
    let disk = DirDisk::open(system, name).expect(&rt, "a disk");
    let _ = fs::remove_file(&files, lines);
    disk
}

// The file of two bytes.
fn made<R: Abort + Threads + Sync + Copy + Send>(
    rt: &R,
    bench: &mut DirBench<Recorder<R, Host<R>>>,
    id: FileId,
) -> DirMade<Recorder<R, Host<R>>> {
    let mut draft = bench.draft(id).expect(rt, "a draft");
    draft.append(b"ab".as_slice()).expect(rt, "written bytes");
    match draft.finish() {
        Ok(made) => made,
        Err(_) => panic!(rt; "not finished"),
    }
}

// Each call of a disk, and those of the system that it makes. What is clean isn't synced again.
fn go_on<R: Abort + Threads + Sync + Copy + Send>(
    rt: &R,
    system: Recorder<R, Host<R>>,
    disk: &mut DirDisk<Recorder<R, Host<R>>>,
) {
    let mut bench = disk.bench().expect(rt, "a bench");
    let (files, lines) = (system.files, system.lines);
    assert!(rt; disk.journal_write(Area::Zero, 0, b"abc".as_slice()).is_ok());
    assert!(rt; disk.journal_write(Area::Zero, 1, b"X".as_slice()).is_ok());
    expect_calls(rt, files, lines, WRITTEN);
    assert!(rt; disk.journal_sync().is_ok());
    assert!(rt; disk.journal_sync().is_ok());
    expect_calls(rt, files, lines, "sync bytes mesa_dir_told/journal0\n");
    let made = made(rt, &mut bench, FileId::of(5));
    expect_calls(rt, files, lines, FINISHED);
    assert!(rt; disk.adopt(made, FileId::of(7)).is_ok());
    expect_calls(rt, files, lines, ADOPTED);
    assert!(rt; disk.journal_write(Area::One, 0, b"de".as_slice()).is_ok());
    assert!(rt; disk.journal_sync().is_ok());
    assert!(rt; disk.journal_sync().is_ok());
    expect_calls(rt, files, lines, BESIDE);
}

// Removals, and the sync behind them.
fn remove_file<R: Abort + Threads + Sync + Copy + Send>(
    rt: &R,
    system: Recorder<R, Host<R>>,
    disk: &mut DirDisk<Recorder<R, Host<R>>>,
) {
    let (files, lines) = (system.files, system.lines);
    assert!(rt; disk.remove(FileId::of(7)).is_ok());
    expect_calls(
        rt,
        files,
        lines,
        "remove mesa_dir_told/0000000000000007.mesa\n",
    );
    assert!(rt; disk.remove(FileId::of(7)).is_ok());
    expect_calls(
        rt,
        files,
        lines,
        "remove mesa_dir_told/0000000000000007.mesa\n",
    );
    assert!(rt; disk.journal_sync().is_ok());
    assert!(rt; disk.journal_sync().is_ok());
    expect_calls(rt, files, lines, "sync mesa_dir_told\n");
}

static WRITTEN: &str = "write at 0 3 mesa_dir_told/journal0\n\
     write at 1 1 mesa_dir_told/journal0\n";

static FINISHED: &str = "make mesa_dir_told/0000000000000005.draft\n\
     write 2 mesa_dir_told/0000000000000005.draft\n\
     sync mesa_dir_told/0000000000000005.draft\n\
     close mesa_dir_told/0000000000000005.draft\n";

static ADOPTED: &str =
    "rename mesa_dir_told/0000000000000005.draft mesa_dir_told/0000000000000007.mesa\n";

// What the next sync makes last: the name of the file, beside the bytes that were written.
static BESIDE: &str = "write at 0 2 mesa_dir_told/journal1\n\
     sync bytes beside mesa_dir_told mesa_dir_told/journal1\n";

#[test]
fn each_call_of_a_disk(rt: HostRuntime) {
    let (name, lines) = ("mesa_dir_told", "mesa_dir_told.calls");
    let system = recorder(rt, rt, lines, "");
    let mut disk = opened(system, name);
    go_on(&rt, system, &mut disk);
    remove_file(&rt, system, &mut disk);
    drop(disk);
    remove(&rt, rt, name);
}

// Once a sync has failed none is tried again, and no file gets its name.
fn lose<R: Abort + Threads + Sync + Copy + Send>(
    rt: &R,
    system: Recorder<R, Host<R>>,
    disk: &mut DirDisk<Recorder<R, Host<R>>>,
) {
    let mut bench = disk.bench().expect(rt, "a bench");
    let (files, lines) = (system.files, system.lines);
    let made = made(rt, &mut bench, FileId::of(5));
    assert!(rt; disk.journal_write(Area::Zero, 0, b"abc".as_slice()).is_ok());
    let _ = fs::remove_file(&files, lines);
    assert!(rt; disk.journal_sync().is_err());
    expect_calls(rt, files, lines, "sync bytes mesa_dir_lost/journal0\n");
    assert!(rt; disk.journal_sync().is_err());
    expect_calls(rt, files, lines, "");
    assert!(rt; disk.adopt(made, FileId::of(7)).is_err());
    expect_calls(
        rt,
        files,
        lines,
        "discard mesa_dir_lost/0000000000000005.draft\n",
    );
}

#[test]
fn a_sync_that_failed(rt: HostRuntime) {
    let (name, lines) = ("mesa_dir_lost", "mesa_dir_lost.calls");
    let system = recorder(rt, rt, lines, "sync bytes");
    let mut disk = opened(system, name);
    lose(&rt, system, &mut disk);
    drop(disk);
    remove(&rt, rt, name);
}

// A draft that has failed.
fn fail<R: Abort + Threads + Sync + Copy + Send>(
    rt: &R,
    bench: &mut DirBench<Recorder<R, Host<R>>>,
) -> DirDraft<Recorder<R, Host<R>>> {
    let mut draft = bench.draft(FileId::of(5)).expect(rt, "a draft");
    assert!(rt; draft.append(b"ab".as_slice()).is_err());
    match draft.finish() {
        Ok(_) => panic!(rt; "finished"),
        Err((_, draft)) => draft,
    }
}

// A draft of which a write failed is never synced, and goes when it is let go.
static UNFINISHED: &str = "make mesa_dir_unwritten/0000000000000005.draft\n\
     write 2 mesa_dir_unwritten/0000000000000005.draft\n\
     discard mesa_dir_unwritten/0000000000000005.draft\n";

#[test]
fn a_write_that_failed(rt: HostRuntime) {
    let (name, lines) = ("mesa_dir_unwritten", "mesa_dir_unwritten.calls");
    let disk = opened(recorder(rt, rt, lines, "write 2"), name);
    let mut bench = disk.bench().expect(&rt, "a bench");
    let draft = fail(&rt, &mut bench);
    bench.spoil(draft);
    expect_calls(&rt, rt, lines, UNFINISHED);
    drop(bench);
    drop(disk);
    remove(&rt, rt, name);
}
