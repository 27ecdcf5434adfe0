// One lease, and the two refusals.

/// A lease on a table.
#[derive(Clone, Copy, Debug, PartialEq, Eq)]
pub struct Lease {
    /// Its number among all leases of the run, from 1.
    pub number: u64,
    /// The first position at which it no longer holds.
    pub until: u64,
    /// Whether its work was done or given up.
    pub ended: bool,
}

impl Lease {
    ghost use Rattle.std.specs.Prelude.{◌≡◌};
    ghost use Rattle.mesa_lease.specs.Book.{holds_at};

    /// Whether it holds at a position.
    pub fn holds(&self, position: u64) -> bool
        ensures { result ≡ holds_at position self.now }
    {
        position < self.until && !self.ended
    }
}

/// The table has a lease that holds.
#[derive(Clone, Copy, Debug, PartialEq, Eq)]
pub struct Busy {
    /// The lease that holds.
    pub lease: u64,
}

/// The lease isn't the table's last one, or doesn't hold any more.
#[derive(Clone, Copy, Debug, PartialEq, Eq)]
pub struct Lost {
    /// The lease that was lost.
    pub lease: u64,
    /// Another lease of the table that holds, if there is one.
    pub holder: Option<u64>,
}
