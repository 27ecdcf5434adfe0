ghost use Rattle.std.specs.Prelude.{◌≡◌, ◌+◌, ◌*◌, ◌^◌, ◌<◌};

use std::marker::Model;

/// The id of a draft or of an adopted file.
#[derive(Clone, Copy, Debug, PartialEq, Eq)]
pub struct FileId(u64);

impl Model for FileId {
    ghost use Rattle.std.specs.Prelude.{ℕ};

    ghost Value = { ℕ };

    ghost view = { λ f. f.0 };

    ghost inverse = { λ n. record { 0 = n } };
}

impl FileId {
    /// The id of a session's draft with this serial number.
    pub fn new(run: u32, session: u8, serial: u32) -> FileId
        requires { run < 2 ^ 24 }
        ensures { result ≡ run * 2 ^ 40 + session * 2 ^ 32 + serial }
    {
        FileId((run as u64) * (1 << 40) + (session as u64) * (1 << 32) + serial as u64)
    }

    /// The id of the file that a run adopts as its k-th, counted from 0.
    pub fn adopted(run: u32, k: u64) -> FileId
        requires run { run < 2 ^ 24 }
        requires k { k < 2 ^ 40 }
        ensures { result ≡ run * 2 ^ 40 + k }
    {
        FileId((run as u64) * (1 << 40) + k)
    }

    /// The number of the id.
    pub fn number(&self) -> u64
        ensures { result ≡ self.now }
    {
        self.0
    }

    /// The id of this number, whatever it is.
    pub fn of(number: u64) -> FileId
        ensures { result ≡ number }
    {
        FileId(number)
    }
}
