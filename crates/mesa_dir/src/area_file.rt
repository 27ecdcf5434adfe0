// The file of a journal area.
ghost use Rattle.std.specs.Prelude.{◌≡◌, true};
ghost use Rattle.mesa_os.specs.Calls.{is_durable};

use crate::again::write_again;
use mesa_os::System;
use std::io;

// How many bytes are written again at once.
const PIECE: usize = 65_536;

/// An area's file, and whether the device has all that was written to it.
#[derive(Drop)]
pub(crate) struct AreaFile<S: System> {
    system: S,
    file: S::Handle,
    is_synced: bool,
    ghost settled: { is_synced ≡ true → is_durable (S.calls file) ≡ true },
}

impl<S: System> AreaFile<S> {
    ghost use Rattle.std.specs.Prelude.{◌⊎◌, IfOk, IsTrue, OnOk, is_ok};
    ghost use Rattle.mesa_os.specs.Calls.{Read, Synced, SyncedBytes, WroteAt, with_call};
    ghost use Rattle.mesa_dir.specs.Folders.{area_calls};
    ghost use Rattle.mesa_dir.specs.Opening.{IsSettled};

    /// An area and its length. A run that was killed may have left bytes that the device doesn't have yet,
    /// and after a sync that failed the system may hold bytes that it never wrote and doesn't take for
    /// unwritten: so all are written again, and synced, before any is read.
    pub(crate) fn settle(system: S, mut file: S::Handle) -> io::Result<(AreaFile<S>, u64)>
        ensures { IfOk result (λ r. IsSettled (S.calls file) r.1 (area_calls r.0)) }
    {
        let len = system.len(&mut file)?;
        let mut buffer = vec![in system.memory(); 0u8; PIECE]?;
        write_again(system, &mut file, len, &mut buffer)?;
        system.sync(&mut file)?;
        Ok((
            AreaFile {
                system,
                file,
                is_synced: true,
            },
            len,
        ))
    }

    /// Fills the buffer from this place on.
    pub(crate) fn read(&mut self, at: u64, buf: &mut [u8]) -> io::Result<()>
        ensures { area_calls self.new ≡ with_call (Read at buf.new (is_ok result)) (area_calls self.old) }
    {
        self.system.read_at(&mut self.file, at, buf)
    }

    /// Writes bytes from this place on.
    pub(crate) fn write(&mut self, at: u64, bytes: &[u8]) -> io::Result<()>
        ensures { area_calls self.new ≡ with_call (WroteAt at bytes.now (is_ok result)) (area_calls self.old) }
    {
        self.is_synced = false;
        self.system.write_at(&mut self.file, at, bytes)
    }

    /// Whether the device has all that was written.
    pub(crate) fn is_synced(&self) -> bool
        ensures { IsTrue result → is_durable (area_calls self.now) ≡ true }
    {
        self.is_synced
    }

    /// Syncs the bytes, where some may not be on the device, and with them the length, which is all of the
    /// file's own data that reading needs.
    pub(crate) fn sync(&mut self) -> io::Result<()>
        ensures synced { OnOk result (is_durable (area_calls self.new) ≡ true) }
        ensures calls { (area_calls self.new ≡ area_calls self.old) ⊎ (area_calls self.new ≡ with_call (SyncedBytes (is_ok result)) (area_calls self.old)) }
    {
        if !self.is_synced {
            self.system.sync_bytes(&mut self.file)?;
            self.is_synced = true;
        }
        Ok(())
    }

    /// Syncs the names of a folder, and beside them the bytes, where some may not be on the device.
    pub(crate) fn sync_beside(&mut self, folder: &mut S::Handle) -> (io::Result<()>, io::Result<()>)
        ensures synced { OnOk result.0 (is_durable (area_calls self.new) ≡ true) }
        ensures calls { (area_calls self.new ≡ area_calls self.old) ⊎ (area_calls self.new ≡ with_call (SyncedBytes (is_ok result.0)) (area_calls self.old)) }
        ensures folder { S.calls folder.new ≡ with_call (Synced (is_ok result.1)) (S.calls folder.old) }
    {
        if self.is_synced {
            return (Ok(()), self.system.sync(folder));
        }
        let (bytes, names) = self.system.sync_beside(&mut self.file, folder);
        self.is_synced = bytes.is_ok();
        (bytes, names)
    }
}
