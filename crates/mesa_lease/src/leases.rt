// The last lease of each table.
use crate::{Busy, Lease, Lost};
use std::marker::Model;

/// How many tables there may be; they are numbered from 0.
pub const TABLES: usize = 32;

/// The leases of a run. Positions are those of turns; the calls that grant, renew or complete are
/// made at rising ones.
#[derive(Drop)]
pub struct Leases {
    turns: u32,
    granted: u64,
    next: u64,
    last: [Option<Lease>; TABLES],
}

impl Model for Leases {
    ghost use Rattle.std.specs.Prelude.{◌≤◌, ◌^◌};
    ghost use Rattle.mesa_lease.specs.Kept.{Kept};

    ghost Value = { Kept };

    ghost view = { λ l. record { book = record { turns = l.turns; granted = l.granted; last = l.last }; next = l.next } };

    ghost invariant = { λ l. (l.granted ≤ l.next) × (l.next ≤ 2 ^ 60) };
}

impl Leases {
    ghost use Rattle.std.specs.Prelude.{◌≡◌, ◌+◌, ◌<◌, ◌≤◌, ◌^◌, IsTrue, IfOk, IfErr, OnErr, OnOk};
    ghost use Rattle.mesa_lease.specs.Book.{begun, ended, granted, holder, is_held, IsLost, renewed};

    /// No lease yet; each will hold for so many turns.
    pub fn new(turns: u32) -> Self
        ensures book { result.book ≡ begun TABLES turns }
        ensures next { result.next ≡ 0 }
    {
        Leases {
            turns,
            granted: 0,
            next: 0,
            last: [None; TABLES],
        }
    }

    /// The table's lease that holds at the position.
    pub fn holds(&self, table: u16, position: u64) -> Option<u64>
        requires { table < TABLES }
        ensures { result ≡ holder self.now.book table position }
    {
        let last = self.last[table as usize];
        match last {
            Some(lease) if lease.holds(position) => Some(lease.number),
            _ => None,
        }
    }

    /// A new lease on the table, unless it has one that holds. Any worker may have it; who asks
    /// changes nothing.
    pub fn grant(&mut self, table: u16, _worker: u16, position: u64) -> Result<u64, Busy>
        requires table { table < TABLES }
        requires position { position < 2 ^ 60 }
        requires rising { self.old.next ≤ position }
        ensures free { OnOk result (holder self.old.book table position ≡ None) }
        ensures number { IfOk result (λ lease. lease ≡ self.old.book.granted + 1) }
        ensures granted { OnOk result (self.new.book ≡ granted table position self.old.book) }
        ensures busy { IfErr result (λ b. holder self.old.book table position ≡ Some b.lease) }
        ensures unchanged { OnErr result (self.new.book ≡ self.old.book) }
        ensures next { self.new.next ≡ position + 1 }
    {
        self.next = position + 1;
        if let Some(lease) = self.holds(table, position) {
            return Err(Busy { lease });
        }
        self.granted += 1;
        self.hold(table, self.granted, position);
        Ok(self.granted)
    }

    /// Lets the lease hold anew from this turn on.
    pub fn renew(&mut self, table: u16, lease: u64, position: u64) -> Result<(), Lost>
        requires table { table < TABLES }
        requires position { position < 2 ^ 60 }
        requires rising { self.old.next ≤ position }
        ensures held { OnOk result (IsTrue (is_held self.old.book table lease position)) }
        ensures renewed { OnOk result (self.new.book ≡ renewed table lease position self.old.book) }
        ensures lost { IfErr result (IsLost self.old.book table lease position) }
        ensures unchanged { OnErr result (self.new.book ≡ self.old.book) }
        ensures next { self.new.next ≡ position + 1 }
    {
        self.next = position + 1;
        self.check(table, lease, position)?;
        self.hold(table, lease, position);
        Ok(())
    }

    /// Ends the lease, whose work is accepted with that.
    pub fn complete(&mut self, table: u16, lease: u64, position: u64) -> Result<(), Lost>
        requires table { table < TABLES }
        requires position { position < 2 ^ 60 }
        requires rising { self.old.next ≤ position }
        ensures held { OnOk result (IsTrue (is_held self.old.book table lease position)) }
        ensures ended { OnOk result (self.new.book ≡ ended table lease self.old.book) }
        ensures lost { IfErr result (IsLost self.old.book table lease position) }
        ensures unchanged { OnErr result (self.new.book ≡ self.old.book) }
        ensures next { self.new.next ≡ position + 1 }
    {
        self.next = position + 1;
        self.check(table, lease, position)?;
        self.give_up(table, lease);
        Ok(())
    }

    /// Ends the lease where it is the table's last; its work isn't accepted.
    pub fn give_up(&mut self, table: u16, lease: u64)
        requires { table < TABLES }
        ensures book { self.new.book ≡ ended table lease self.old.book }
        ensures next { self.new.next ≡ self.old.next }
    {
        if let Some(last) = self.last[table as usize] {
            if last.number == lease {
                self.last[table as usize] = Some(Lease {
                    ended: true,
                    ..last
                });
            }
        }
    }

    /// Whether the lease is the table's last, and holds at the position.
    fn check(&self, table: u16, lease: u64, position: u64) -> Result<(), Lost>
        requires { table < TABLES }
        ensures held { OnOk result (IsTrue (is_held self.now.book table lease position)) }
        ensures lost { IfErr result (IsLost self.now.book table lease position) }
    {
        match self.holds(table, position) {
            Some(holder) if holder == lease => Ok(()),
            holder => Err(Lost { lease, holder }),
        }
    }

    /// The table's last lease is this one, which holds from the position on.
    fn hold(&mut self, table: u16, lease: u64, position: u64)
        requires table { table < TABLES }
        requires position { position < 2 ^ 60 }
        ensures book { self.new.book ≡ renewed table lease position self.old.book }
        ensures next { self.new.next ≡ self.old.next }
    {
        self.last[table as usize] = Some(Lease {
            number: lease,
            until: position + self.turns as u64,
            ended: false,
        });
    }
}
