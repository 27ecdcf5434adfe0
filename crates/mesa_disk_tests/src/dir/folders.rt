// Folders of tests, and what lies in them.
use crate::expected::expect_same;
use mesa_dir::{DirDisk, Host};
use std::fs;
use std::process::Abort;
use std::thread::Threads;

/// A disk in a folder that is new.
pub fn opened<R: Abort + Threads + Sync + Copy + Send>(
    rt: &R,
    files: HostRuntime,
    name: &str,
) -> DirDisk<Host<R>> {
    let _ = fs::remove_dir_all(&files, name);
    DirDisk::open(Host::new(*rt, files), name).expect(rt, "a disk")
}

/// Stops the test of a path at which there is a file, or none, though there shouldn't be.
pub fn expect_exists(rt: &impl Abort, files: HostRuntime, path: &str, exists: bool) {
    let found = fs::exists(&files, path).expect(rt, "a look at a path");
    expect_same(rt, &found, &exists, &path);
}

/// Removes the folder of a test.
pub fn remove(rt: &impl Abort, files: HostRuntime, name: &str) {
    fs::remove_dir_all(&files, name).expect(rt, "a folder that goes");
}
