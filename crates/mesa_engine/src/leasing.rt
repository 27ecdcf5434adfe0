// Leases, and the end of a vault's work.
ghost use Rattle.std.specs.Prelude.{◌≡◌, ◌+◌, ◌<◌, ◌≤◌, ◌^◌, IsTrue, IfOk, IfErr, OnErr, OnOk, None};
ghost use Rattle.mesa_lease.specs.Book.{ended, granted, holder, is_held, IsLost, renewed};
ghost use Rattle.mesa_engine.specs.Turned.{shut_state, leased_state};
ghost use Rattle.mesa_engine.specs.Memory.{with_leases, with_state};

use crate::Metadata;
use mesa_lease::{Busy, Lost, TABLES};

impl Metadata {
    /// Grants a lease on the table, unless it has one that holds.
    pub fn grant(&mut self, table: u16, worker: u16, position: u64) -> Result<u64, Busy>
        requires table { table < TABLES }
        requires position { position < 2 ^ 60 }
        requires rising { self.old.leased ≤ position }
        ensures free { OnOk result (holder self.old.state.leases table position ≡ None) }
        ensures number { IfOk result (λ lease. lease ≡ self.old.state.leases.granted + 1) }
        ensures granted { OnOk result (self.new ≡ with_leases (granted table position self.old.state.leases) (position + 1) self.old) }
        ensures busy { IfErr result (λ b. holder self.old.state.leases table position ≡ Some b.lease) }
        ensures unchanged { OnErr result (self.new ≡ with_leases self.old.state.leases (position + 1) self.old) }
    {
        self.leases.grant(table, worker, position)
    }

    /// Lets a lease hold anew from this turn on.
    pub fn renew(&mut self, table: u16, lease: u64, position: u64) -> Result<(), Lost>
        requires table { table < TABLES }
        requires position { position < 2 ^ 60 }
        requires rising { self.old.leased ≤ position }
        ensures held { OnOk result (IsTrue (is_held self.old.state.leases table lease position)) }
        ensures renewed { OnOk result (self.new ≡ with_leases (renewed table lease position self.old.state.leases) (position + 1) self.old) }
        ensures lost { IfErr result (IsLost self.old.state.leases table lease position) }
        ensures unchanged { OnErr result (self.new ≡ with_leases self.old.state.leases (position + 1) self.old) }
    {
        self.leases.renew(table, lease, position)
    }

    /// Ends a lease, where it is the table's last one.
    pub fn end_lease(&mut self, table: u16, lease: u64)
        requires { table < TABLES }
        ensures { self.new ≡ with_state (leased_state self.old.state (ended table lease self.old.state.leases)) self.old }
    {
        self.leases.give_up(table, lease);
    }

    /// Closes the vault in the turn at the position.
    pub fn close(&mut self, position: u64)
        ensures { self.new ≡ with_state (shut_state self.old.state position) self.old }
    {
        self.closed = Some(position);
    }
}
