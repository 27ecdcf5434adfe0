// Calls of the system, as they are recorded.
use std::io::ErrorKind;

/// A call on a handle, or on the names in its folder. A last `true` says that it was answered Ok.
#[derive(Drop)]
pub enum Told {
    Opened(String),
    Created(String),
    OpenedWithin(String, bool),
    /// With an error its kind.
    MadeFolder(String, Option<ErrorKind>),
    Locked(bool),
    Measured(u64),
    Read(u64, Vec<u8>, bool),
    Wrote(Vec<u8>, bool),
    WroteAt(u64, Vec<u8>, bool),
    Synced(bool),
    SyncedBytes(bool),
    Renamed(String, String, bool),
    /// With an error its kind.
    Removed(String, Option<ErrorKind>),
}
