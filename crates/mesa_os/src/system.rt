// What a folder asks of the system.
ghost use Rattle.std.specs.Prelude.{◌≡◌, List, Option, IfOk, is_ok};
ghost use Rattle.mesa_os.specs.Calls.{Call, Created, IsCreated, IsOpened, Locked, MadeFolder, Measured, Opened, OpenedWithin, Read, Removed, Renamed, Synced, SyncedBytes, Wrote, WroteAt, failure, with_call};

use std::alloc::Global;
use std::io;

/// The calls of the system that a folder makes. What a device does with them no contract can say. That each
/// was made, in which order, and how it was answered, a handle tells, or it tells nothing. What is proved of
/// a folder is proved over every system, so also over one that tells all.
pub trait System: Copy {
    /// A file or a folder that is open.
    type Handle: Drop;

    /// What is left of a file that was closed.
    type Closed: Drop;

    /// The calls that were made on a handle and on the names of its folder, the newest first, where they
    /// are told.
    ghost calls: { Self.Handle → Option (List Call) };

    /// The calls that were made on a file before it was closed.
    ghost closed_calls: { Self.Closed → Option (List Call) };

    /// What memory is taken from.
    fn memory(&self) -> Global;

    /// Makes a folder in an open one.
    fn make_folder(&self, above: &mut Self::Handle, path: &str) -> io::Result<()>
        ensures { calls above.new ≡ with_call (MadeFolder path.now (failure result)) (calls above.old) };

    /// Opens a file or a folder for reading.
    fn open(&self, path: &str) -> io::Result<Self::Handle>
        ensures { IfOk result (λ h. IsOpened path.now (calls h)) };

    /// Opens a file in an open folder, for reading and writing, and makes it where it is missing.
    fn open_within(&self, folder: &mut Self::Handle, path: &str) -> io::Result<Self::Handle>
        ensures file { IfOk result (λ h. IsOpened path.now (calls h)) }
        ensures folder { calls folder.new ≡ with_call (OpenedWithin path.now (is_ok result)) (calls folder.old) };

    /// Makes a file for writing. Where the name is there, it fails.
    fn create(&self, path: &str) -> io::Result<Self::Handle>
        ensures { IfOk result (λ h. IsCreated path.now (calls h)) };

    /// Locks a file of an open folder, as long as it is open; where another process has it locked, it fails.
    fn lock(&self, folder: &mut Self::Handle, file: &mut Self::Handle) -> io::Result<()>
        ensures folder { calls folder.new ≡ with_call (Locked (is_ok result)) (calls folder.old) }
        ensures file { calls file.new ≡ with_call (Locked (is_ok result)) (calls file.old) };

    /// Whether a handle has the place of a standard stream.
    fn is_stream(&self, handle: &Self::Handle) -> bool;

    /// How many bytes a file has.
    fn len(&self, file: &mut Self::Handle) -> io::Result<u64>
        ensures { IfOk result (λ n. calls file.new ≡ with_call (Measured n) (calls file.old)) };

    /// Fills the buffer with a file's bytes from this place on.
    fn read_at(&self, file: &mut Self::Handle, at: u64, buf: &mut [u8]) -> io::Result<()>
        ensures { calls file.new ≡ with_call (Read at buf.new (is_ok result)) (calls file.old) };

    /// Writes all these bytes behind those that were written by this handle before.
    fn write(&self, file: &mut Self::Handle, bytes: &[u8]) -> io::Result<()>
        ensures { calls file.new ≡ with_call (Wrote bytes.now (is_ok result)) (calls file.old) };

    /// Writes all these bytes from this place on.
    fn write_at(&self, file: &mut Self::Handle, at: u64, bytes: &[u8]) -> io::Result<()>
        ensures { calls file.new ≡ with_call (WroteAt at bytes.now (is_ok result)) (calls file.old) };

    /// Has the device take a file's bytes and all that is kept of it, or a folder's names.
    fn sync(&self, handle: &mut Self::Handle) -> io::Result<()>
        ensures { calls handle.new ≡ with_call (Synced (is_ok result)) (calls handle.old) };

    /// Has the device take a file's bytes and its length, which is all that reading needs.
    fn sync_bytes(&self, file: &mut Self::Handle) -> io::Result<()>
        ensures { calls file.new ≡ with_call (SyncedBytes (is_ok result)) (calls file.old) };

    /// Has the device take a file's bytes and its length, and beside them a folder's names, so that it waits
    /// for the longer of the two and not for one behind the other.
    fn sync_beside(
        &self,
        file: &mut Self::Handle,
        folder: &mut Self::Handle,
    ) -> (io::Result<()>, io::Result<()>)
        ensures file { calls file.new ≡ with_call (SyncedBytes (is_ok result.0)) (calls file.old) }
        ensures folder { calls folder.new ≡ with_call (Synced (is_ok result.1)) (calls folder.old) };

    /// Closes a file.
    fn close(&self, file: Self::Handle) -> Self::Closed
        ensures { closed_calls result ≡ calls file };

    /// Gives a file in an open folder another path there.
    fn rename(&self, folder: &mut Self::Handle, from: &str, to: &str) -> io::Result<()>
        ensures { calls folder.new ≡ with_call (Renamed from.now to.now (is_ok result)) (calls folder.old) };

    /// Takes a name in an open folder away.
    fn remove(&self, folder: &mut Self::Handle, path: &str) -> io::Result<()>
        ensures { calls folder.new ≡ with_call (Removed path.now (failure result)) (calls folder.old) };

    /// Takes a name away, if that can be done.
    fn discard(&self, path: &str);

    /// The names in a folder, with an error for each that can't be told.
    fn names(&self, path: &str) -> io::Result<Vec<io::Result<String>>>;
}
