// The entries of a history: one for each turn of the lock.
ghost use Rattle.std.specs.Prelude.{◌≡◌};

/// What a turn does for its command.
#[derive(Clone, Copy, Debug, PartialEq, Eq)]
pub enum Kind {
    /// A load's first turn: it takes the schemas by which its rows are read.
    Look,
    /// The turn that decides a command.
    Decide,
    /// The turn that ends a query or a work.
    Close,
    /// A work's first turn: it is given a lease.
    Grant,
    /// The turn before a work's last, once its rows are merged: the lease begins anew.
    Renew,
}

/// How a turn ended.
#[derive(Clone, Copy, Debug, PartialEq, Eq)]
pub enum Outcome {
    /// The reply is the reference warehouse's or the range machine's.
    Stands,
    /// Refused for want of memory.
    Memory,
    /// Refused since a stored file couldn't be read.
    ReadFault,
    /// Refused since the store couldn't be written.
    WriteFault,
    /// Refused since a stored file isn't as it was recorded.
    Damaged,
    /// Not done, since what was printed before couldn't be written.
    Skipped,
}

/// One turn. Its position in the history is its index there, counted from 0 in each run.
#[derive(Clone, Copy, Debug, PartialEq, Eq)]
pub struct Entry {
    pub session: u16,
    /// The number of the session's command, counted from 1.
    pub command: u32,
    pub kind: Kind,
    pub outcome: Outcome,
    /// The disk's clock at the end of the turn's last call of the disk.
    pub moment: u64,
}

impl Entry {
    ghost use Rattle.mesa_model.specs.Entry.{number_of};

    /// The entry as one number: its moment, command, session, kind and outcome, from the highest
    /// bits to the lowest.
    pub fn number(&self) -> u128
        ensures { result ≡ number_of self.now }
    {
        let turn = (self.kind as u64) * (1 << 8) + self.outcome as u64;
        let command = (self.command as u64) * (1 << 32) + (self.session as u64) * (1 << 16) + turn;
        (self.moment as u128) * (1 << 64) + command as u128
    }
}
