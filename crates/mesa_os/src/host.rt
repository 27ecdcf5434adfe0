// The system itself. No contract sees what these lines do, so each hands one call on, or two side by side.
ghost use Rattle.std.specs.Prelude.{None};

use crate::System;
use std::alloc::Global;
use std::fs::{self, File, OpenOptions};
use std::io::{self, Write};
use std::os::fd::AsRawFd;
use std::os::unix::fs::FileExt;
use std::thread::{self, Threads};

// The last descriptor of a standard stream.
const LAST_STREAM: i32 = 2;

/// What is left of a file that the system closed.
#[derive(Drop)]
pub struct ClosedFile;

/// The system itself, with what starts the thread of a sync beside another.
#[derive(Clone, Copy)]
pub struct Host<R: Threads + Sync + Copy> {
    threads: R,
    files: HostRuntime,
}

impl<R: Threads + Sync + Copy> Host<R> {
    /// The system.
    pub fn new(threads: R, files: HostRuntime) -> Host<R> {
        Host { threads, files }
    }
}

impl<R: Threads + Sync + Copy> System for Host<R> {
    type Handle = File;

    type Closed = ClosedFile;

    ghost calls = { λ h. None };

    ghost closed_calls = { λ c. None };

    fn memory(&self) -> Global {
        self.files.alloc()
    }

    fn make_folder(&self, _above: &mut File, path: &str) -> io::Result<()> {
        fs::create_dir(&self.files, path)
    }

    fn open(&self, path: &str) -> io::Result<File> {
        fs::open(&self.files, path)
    }

    fn open_within(&self, _folder: &mut File, path: &str) -> io::Result<File> {
        OpenOptions::new()
            .read(true)
            .write(true)
            .create(true)
            .open(&self.files, path)
    }

    fn create(&self, path: &str) -> io::Result<File> {
        OpenOptions::new()
            .write(true)
            .create_new(true)
            .open(&self.files, path)
    }

    fn lock(&self, _folder: &mut File, file: &mut File) -> io::Result<()> {
        Ok(file.try_lock()?)
    }

    fn is_stream(&self, handle: &File) -> bool {
        handle.as_raw_fd() <= LAST_STREAM
    }

    fn len(&self, file: &mut File) -> io::Result<u64> {
        Ok(file.metadata()?.len())
    }

    fn read_at(&self, file: &mut File, at: u64, buf: &mut [u8]) -> io::Result<()> {
        file.read_exact_at(buf, at)
    }

    fn write(&self, file: &mut File, bytes: &[u8]) -> io::Result<()> {
        file.write_all(bytes)
    }

    fn write_at(&self, file: &mut File, at: u64, bytes: &[u8]) -> io::Result<()> {
        file.write_all_at(bytes, at)
    }

    fn sync(&self, handle: &mut File) -> io::Result<()> {
        handle.sync_all()
    }

    fn sync_bytes(&self, file: &mut File) -> io::Result<()> {
        file.sync_data()
    }

    fn sync_beside(&self, file: &mut File, folder: &mut File) -> (io::Result<()>, io::Result<()>) {
        let (file, folder) = (&*file, &*folder);
        thread::join(&self.threads, || file.sync_data(), || folder.sync_all())
    }

    fn close(&self, _file: File) -> ClosedFile {
        ClosedFile
    }

    fn rename(&self, _folder: &mut File, from: &str, to: &str) -> io::Result<()> {
        fs::rename(&self.files, from, to)
    }

    fn remove(&self, _folder: &mut File, path: &str) -> io::Result<()> {
        fs::remove_file(&self.files, path)
    }

    fn discard(&self, path: &str) {
        let _ = fs::remove_file(&self.files, path);
    }

    fn names(&self, path: &str) -> io::Result<Vec<io::Result<String>>> {
        let mut names = Vec::new(self.files.alloc());
        for entry in fs::read_dir(&self.files, path)? {
            names.push(match entry {
                Ok(entry) => Ok(String::from_str(self.files.alloc(), entry.file_name())?),
                Err(error) => Err(error),
            })?;
        }
        Ok(names)
    }
}
