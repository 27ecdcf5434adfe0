// A system that records its calls and tells them.
ghost use Rattle.std.specs.Prelude.{◌≡◌, ◌∷◌, [], Some, string_bytes};
ghost use Rattle.mesa_dir.specs.mesa_os.Calls.{failure as failure_of};
ghost use Rattle.mesa_disk_tests.specs.Told.{call_of, calls_of};

use crate::told::Told;
use mesa_dir::System;
use std::alloc::Global;
use std::fs::{File, OpenOptions};
use std::io::{self, ErrorKind, Write};
use std::process::Abort;

/// A system whose calls are recorded, such as the machine's own. A handle tells its own, the newest first. All calls are lines of a
/// file, in their order: what was called, with the numbers of places and bytes, and the path. The calls whose lines
/// begin so, where that isn't empty, aren't made, and fail.
#[derive(Clone, Copy)]
pub struct Recorder<R: Abort + Copy, S: System<Handle = File>> {
    pub rt: R,
    pub system: S,
    pub files: HostRuntime,
    pub lines: &'static str,
    pub fails: &'static str,
}

/// An open file or folder, and the calls on it.
#[derive(Drop)]
pub struct Recorded {
    file: File,
    path: String,
    calls: Vec<Told>,
}

/// The calls on a file that was closed.
#[derive(Drop)]
pub struct RecordedClosed {
    calls: Vec<Told>,
}

// The kind of an error, where there is one.
fn failure<T>(answer: &io::Result<T>) -> Option<ErrorKind>
    ensures { result ≡ failure_of answer.now }
{
    match answer {
        Ok(_) => None,
        Err(error) => Some(error.kind()),
    }
}

impl<R: Abort + Copy, S: System<Handle = File>> Recorder<R, S> {
    fn text(&self, text: &str) -> String
        ensures { string_bytes result ≡ text.now }
    {
        String::from_str(self.files.alloc(), text).expect(&self.rt, "memory")
    }

    fn copy(&self, bytes: &[u8]) -> Vec<u8>
        ensures { result.items ≡ bytes.now }
    {
        Vec::from_slice(self.files.alloc(), bytes).expect(&self.rt, "memory")
    }

    // Adds a line, and fails where its call is to fail.
    fn begin(&self, call: &str, path: &str) -> io::Result<()> {
        let line = format!(in self.files.alloc(); "{call} {path}\n").expect(&self.rt, "memory");
        let mut file = OpenOptions::new()
            .append(true)
            .create(true)
            .open(&self.files, self.lines)
            .expect(&self.rt, "the file of the lines");
        file.write_all(line.as_bytes())
            .expect(&self.rt, "a written line");
        if !self.fails.is_empty() && line.as_str().starts_with(self.fails) {
            return Err(ErrorKind::Other.into());
        }
        Ok(())
    }

    // Records a call.
    fn note(&self, handle: &mut Recorded, call: Told)
        ensures { calls_of handle.new.calls.items ≡ call_of call ∷ calls_of handle.old.calls.items }
    {
        handle.calls.insert(0, call).expect(&self.rt, "memory");
    }

    // A handle on which one call was made.
    fn first(&self, file: File, path: &str, call: Told) -> Recorded
        ensures { calls_of result.calls.items ≡ call_of call ∷ [] }
    {
        let mut calls = Vec::new(self.files.alloc());
        calls.push(call).expect(&self.rt, "memory");
        let path = self.text(path);
        Recorded { file, path, calls }
    }
}

impl<R: Abort + Copy, S: System<Handle = File>> System for Recorder<R, S> {
    type Handle = Recorded;

    type Closed = RecordedClosed;

    ghost calls = { λ h. Some (calls_of h.calls.items) };

    ghost closed_calls = { λ c. Some (calls_of c.calls.items) };

    fn memory(&self) -> Global {
        self.files.alloc()
    }

    fn make_folder(&self, above: &mut Recorded, path: &str) -> io::Result<()> {
        let made = match self.begin("make folder", path) {
            Ok(()) => self.system.make_folder(&mut above.file, path),
            Err(error) => Err(error),
        };
        let answer = failure(&made);
        self.note(above, Told::MadeFolder(self.text(path), answer));
        made
    }

    fn open(&self, path: &str) -> io::Result<Recorded> {
        self.begin("open", path)?;
        let file = self.system.open(path)?;
        Ok(self.first(file, path, Told::Opened(self.text(path))))
    }

    fn open_within(&self, folder: &mut Recorded, path: &str) -> io::Result<Recorded> {
        let opened = match self.begin("open within", path) {
            Ok(()) => self.system.open_within(&mut folder.file, path),
            Err(error) => Err(error),
        };
        self.note(folder, Told::OpenedWithin(self.text(path), opened.is_ok()));
        Ok(self.first(opened?, path, Told::Opened(self.text(path))))
    }

    fn create(&self, path: &str) -> io::Result<Recorded> {
        self.begin("make", path)?;
        let file = self.system.create(path)?;
        Ok(self.first(file, path, Told::Created(self.text(path))))
    }

    fn lock(&self, folder: &mut Recorded, file: &mut Recorded) -> io::Result<()> {
        let locked = match self.begin("lock", file.path.as_str()) {
            Ok(()) => self.system.lock(&mut folder.file, &mut file.file),
            Err(error) => Err(error),
        };
        self.note(folder, Told::Locked(locked.is_ok()));
        self.note(file, Told::Locked(locked.is_ok()));
        locked
    }

    fn is_stream(&self, handle: &Recorded) -> bool {
        self.system.is_stream(&handle.file)
    }

    fn len(&self, file: &mut Recorded) -> io::Result<u64> {
        self.begin("length", file.path.as_str())?;
        let len = self.system.len(&mut file.file)?;
        self.note(file, Told::Measured(len));
        Ok(len)
    }

    fn read_at(&self, file: &mut Recorded, at: u64, buf: &mut [u8]) -> io::Result<()> {
        let call = format!(in self.memory(); "read {at} {}", buf.len()).expect(&self.rt, "memory");
        let read = match self.begin(call.as_str(), file.path.as_str()) {
            Ok(()) => self.system.read_at(&mut file.file, at, buf),
            Err(error) => Err(error),
        };
        self.note(file, Told::Read(at, self.copy(buf), read.is_ok()));
        read
    }

    fn write(&self, file: &mut Recorded, bytes: &[u8]) -> io::Result<()> {
        let call = format!(in self.memory(); "write {}", bytes.len()).expect(&self.rt, "memory");
        let written = match self.begin(call.as_str(), file.path.as_str()) {
            Ok(()) => self.system.write(&mut file.file, bytes),
            Err(error) => Err(error),
        };
        self.note(file, Told::Wrote(self.copy(bytes), written.is_ok()));
        written
    }

    fn write_at(&self, file: &mut Recorded, at: u64, bytes: &[u8]) -> io::Result<()> {
        let call = format!(in self.memory(); "write at {at} {}", bytes.len()).expect(
            &self.rt, "memory",
        );
        let written = match self.begin(call.as_str(), file.path.as_str()) {
            Ok(()) => self.system.write_at(&mut file.file, at, bytes),
            Err(error) => Err(error),
        };
        self.note(file, Told::WroteAt(at, self.copy(bytes), written.is_ok()));
        written
    }

    fn sync(&self, handle: &mut Recorded) -> io::Result<()> {
        let synced = match self.begin("sync", handle.path.as_str()) {
            Ok(()) => self.system.sync(&mut handle.file),
            Err(error) => Err(error),
        };
        self.note(handle, Told::Synced(synced.is_ok()));
        synced
    }

    fn sync_bytes(&self, file: &mut Recorded) -> io::Result<()> {
        let synced = match self.begin("sync bytes", file.path.as_str()) {
            Ok(()) => self.system.sync_bytes(&mut file.file),
            Err(error) => Err(error),
        };
        self.note(file, Told::SyncedBytes(synced.is_ok()));
        synced
    }

    fn sync_beside(
        &self,
        file: &mut Recorded,
        folder: &mut Recorded,
    ) -> (io::Result<()>, io::Result<()>) {
        let call = format!(in self.memory(); "sync bytes beside {}", folder.path.as_str()).expect(
            &self.rt, "memory",
        );
        let (bytes, names) = match self.begin(call.as_str(), file.path.as_str()) {
            Ok(()) => self.system.sync_beside(&mut file.file, &mut folder.file),
            Err(error) => (Err(error), Err(ErrorKind::Other.into())),
        };
        self.note(file, Told::SyncedBytes(bytes.is_ok()));
        self.note(folder, Told::Synced(names.is_ok()));
        (bytes, names)
    }

    fn close(&self, file: Recorded) -> RecordedClosed {
        let Recorded { file, path, calls } = file;
        let _told = self.begin("close", path.as_str());
        let _closed = self.system.close(file);
        RecordedClosed { calls }
    }

    fn rename(&self, folder: &mut Recorded, from: &str, to: &str) -> io::Result<()> {
        let call = format!(in self.memory(); "rename {from}").expect(&self.rt, "memory");
        let renamed = match self.begin(call.as_str(), to) {
            Ok(()) => self.system.rename(&mut folder.file, from, to),
            Err(error) => Err(error),
        };
        let told = Told::Renamed(self.text(from), self.text(to), renamed.is_ok());
        self.note(folder, told);
        renamed
    }

    fn remove(&self, folder: &mut Recorded, path: &str) -> io::Result<()> {
        let removed = match self.begin("remove", path) {
            Ok(()) => self.system.remove(&mut folder.file, path),
            Err(error) => Err(error),
        };
        let answer = failure(&removed);
        self.note(folder, Told::Removed(self.text(path), answer));
        removed
    }

    fn discard(&self, path: &str) {
        let _told = self.begin("discard", path);
        self.system.discard(path);
    }

    fn names(&self, path: &str) -> io::Result<Vec<io::Result<String>>> {
        self.begin("names", path)?;
        self.system.names(path)
    }
}
