// The plain warehouse.
ghost use Rattle.std.specs.Prelude.{◌≡◌, ◌==◌, ◌≤◌, ◌<◌, ◌-◌, ◌+◌, ℕ, ◌^◌, ◌⊎◌, if◌then◌else◌, length, None, Some, Ok, IfOk, IfErr, IfSome, OnOk, OnErr};
ghost use Rattle.mesa_filter.specs.declared.words.VersionWord.TheVariants as asks;
ghost use Rattle.mesa_model.specs.Load.{load_batch};
ghost use Rattle.mesa_model.specs.Step.{done_or_refused};
ghost use Rattle.mesa_model.specs.Versions.{common_oldest as oldest_of_all, expire_all as all_expired, expire_table as table_expired, expire_to, version_asked as version_of, version_checked};
ghost use Rattle.mesa_model.specs.Pins.{make_pin, next_token, release_pin};
ghost use Rattle.mesa_model.specs.Warehouse.{empty_warehouse, table_at};
ghost use Rattle.mesa_binding.specs.Told.{IsDue};

mod altering;
mod applying;
mod making;
mod querying;
mod recasting;
mod viewing;

use crate::gathering::gather;
use crate::pins::{PlainPin, counted, is_held, let_go, push_pin};
use mesa_batch::LoadRows;
use mesa_binding::Failure;
use mesa_filter::VersionWord;
use mesa_list::{Items, TryCopy};
use mesa_model::{Refusal, Reply};
use mesa_oracle_tables::PlainStore;
use mesa_schema::Words;
use std::alloc::{AllocError, Global};
use std::marker::Model;

/// How many versions there may be.
pub const MAX_VERSIONS: u32 = 0xffff_ffff;

/// How many pins all sessions together may hold.
pub const MAX_PINS: usize = 64;

/// The reference warehouse over whole lists in memory. It does each command as the definition has it, and no command closes it.
#[derive(Drop)]
pub struct PlainWarehouse {
    alloc: Global,
    store: PlainStore,
    // How many pins each session was given.
    given: Items<u32>,
    pins: Vec<PlainPin>,
}

impl Model for PlainWarehouse {
    ghost use Rattle.std.specs.Prelude.{map};
    ghost use Rattle.mesa_model.specs.Warehouse.{Warehouse};
    ghost use Rattle.mesa_test_oracle.specs.Pinned.{pin_seen, warehouse_of};

    ghost Value = { Warehouse };

    ghost view = { λ w. warehouse_of w.store w.given (map pin_seen w.pins.items) };
}

impl PlainWarehouse {
    /// A warehouse in which nothing was done yet.
    pub fn new(alloc: Global) -> Self
        ensures { result ≡ empty_warehouse }
    {
        PlainWarehouse {
            alloc,
            store: PlainStore::new(alloc),
            given: Items::new(alloc),
            pins: Vec::new(alloc),
        }
    }

    /// Loads a batch of rows: it is seen in all tables at once.
    pub fn load(&mut self, rows: &LoadRows) -> Result<Reply, AllocError>
        ensures done { IfOk result (λ reply. done_or_refused self.old (load_batch self.old rows.now) ≡ (self.new, reply)) }
        ensures kept { OnErr result (self.new ≡ self.old) }
    {
        match self.try_load(rows) {
            Ok(reply) => Ok(reply),
            Err(Failure::Refused(refusal)) => Ok(Reply::Refused(refusal)),
            Err(Failure::Memory) => Err(AllocError),
        }
    }

    fn try_load(&mut self, rows: &LoadRows) -> Result<Reply, Failure>
        ensures done { IfOk result (λ reply. load_batch self.old rows.now ≡ Ok (self.new, reply)) }
        ensures refused { IfErr result (IsDue (load_batch self.old rows.now)) }
        ensures kept { OnErr result (self.new ≡ self.old) }
    {
        let glance = self.store.glance(self.alloc)?;
        let batch = gather(self.alloc, &glance, rows)?;
        let version = self.store.next();
        if version >= MAX_VERSIONS {
            let limit = MAX_VERSIONS;
            return Err(Failure::Refused(Refusal::VersionsFull { limit }));
        }
        self.store.load(self.alloc, &batch)?;
        let rows = batch.len() as u64;
        Ok(Reply::Loaded { version, rows })
    }

    /// Lets the versions below this one go: those of a table that is named, or of all.
    pub fn expire(&mut self, table: &Option<Words>, version: u32) -> Result<Reply, AllocError>
        ensures done { IfOk result (λ reply. done_or_refused self.old (expire_to self.old table.now version) ≡ (self.new, reply)) }
        ensures kept { OnErr result (self.new ≡ self.old) }
    {
        match table {
            None => Ok(self.expire_all(version)),
            Some(name) => self.expire_table(name.as_slice(), version),
        }
    }

    fn expire_all(&mut self, version: u32) -> Reply
        ensures { done_or_refused self.old (all_expired self.old version) ≡ (self.new, result) }
    {
        if let Err(refusal) = self.check_version(self.store.floor(), version) {
            return Reply::Refused(refusal);
        }
        self.store.expire(version);
        Reply::Expired {
            table: None,
            oldest: version,
        }
    }

    fn expire_table(&mut self, name: &[u8], version: u32) -> Result<Reply, AllocError>
        ensures done { IfOk result (λ reply. done_or_refused self.old (table_expired self.old name.now version) ≡ (self.new, reply)) }
        ensures kept { OnErr result (self.new ≡ self.old) }
    {
        let Some(number) = self.store.number(name) else {
            return Ok(Reply::Refused(Refusal::NoTable { row: None }));
        };
        let oldest = self.store.oldest(number);
        if let Err(refusal) = self.check_version(oldest, version) {
            return Ok(Reply::Refused(refusal));
        }
        let table = self.store.name(number).copy()?;
        self.store.expire_table(number, version);
        Ok(Reply::Expired {
            table: Some(table),
            oldest: version,
        })
    }

    // Whether a version can be queried where this one is the oldest.
    fn check_version(&self, oldest: u32, version: u32) -> Result<(), Refusal>
        ensures checked { result ≡ version_checked self.now oldest version }
        ensures low { OnOk result (oldest ≤ version) }
        ensures high { OnOk result (version < self.now.next) }
    {
        if version < oldest {
            return Err(Refusal::Stale {
                asked: version,
                oldest,
            });
        }
        let next = self.store.next();
        if next <= version {
            return Err(Refusal::Future {
                asked: VersionWord::At(version),
                newest: newest(next),
            });
        }
        Ok(())
    }
}

impl PlainWarehouse {
    /// Pins the version that is asked for. The token of a session's pin is one more than that of its last one.
    pub fn pin(&mut self, session: u16, asked: VersionWord) -> Result<Reply, AllocError>
        // A token is a number of 32 bits.
        requires tokens { next_token self.old session < 2 ^ 32 }
        ensures done { IfOk result (λ reply. done_or_refused self.old (make_pin self.old session asked) ≡ (self.new, reply)) }
        ensures kept { OnErr result (self.new ≡ self.old) }
    {
        match self.try_pin(session, asked) {
            Ok(reply) => Ok(reply),
            Err(Failure::Refused(refusal)) => Ok(Reply::Refused(refusal)),
            Err(Failure::Memory) => Err(AllocError),
        }
    }

    fn try_pin(&mut self, session: u16, asked: VersionWord) -> Result<Reply, Failure>
        requires tokens { next_token self.old session < 2 ^ 32 }
        ensures done { IfOk result (λ reply. make_pin self.old session asked ≡ Ok (self.new, reply)) }
        ensures refused { IfErr result (IsDue (make_pin self.old session asked)) }
        ensures kept { OnErr result (self.new ≡ self.old) }
    {
        let oldest = self.store.common_oldest();
        let version = match self.version_asked(oldest, asked) {
            Ok(version) => version,
            Err(refusal) => return Err(Failure::Refused(refusal)),
        };
        if self.pins.len() >= MAX_PINS {
            let limit = MAX_PINS as u32;
            return Err(Failure::Refused(Refusal::PinsFull { limit }));
        }
        let given = counted(&self.given, session)?;
        let token = given.as_slice()[session as usize];
        let store = self.store.at(self.alloc, version)?;
        let pin = PlainPin {
            session,
            token,
            version,
            store,
        };
        push_pin(&mut self.pins, pin)?;
        self.given = given;
        Ok(Reply::Pinned { token, version })
    }

    // The version that is asked for where this one is the oldest, or its refusal.
    fn version_asked(&self, oldest: u32, asked: VersionWord) -> Result<u32, Refusal>
        requires { (oldest < self.now.next) ⊎ ((oldest ≡ 0) × (self.now.next ≡ 0)) }
        ensures asked { result ≡ version_of self.now oldest asked }
        ensures low { IfOk result (λ version. oldest ≤ version) }
        ensures there { IfOk result (λ version. version < self.now.next) }
    {
        match asked {
            VersionWord::Latest => self.newest_version(),
            VersionWord::At(version) => {
                self.check_version(oldest, version)?;
                Ok(version)
            }
            VersionWord::Pin(token) => Err(Refusal::NoPin { token }),
        }
    }

    // The newest version, or that there is none.
    fn newest_version(&self) -> Result<u32, Refusal>
        ensures asked { (oldest : ℕ) → result ≡ version_of self.now oldest asks.Latest }
        ensures newest { IfOk result (λ version. version + 1 ≡ self.now.next) }
    {
        let next = self.store.next();
        if next == 0 {
            return Err(Refusal::Future {
                asked: VersionWord::Latest,
                newest: None,
            });
        }
        Ok(next - 1)
    }

    /// Gives a pin of the session back; it takes no memory.
    pub fn release(&mut self, session: u16, token: u32) -> Reply
        ensures { done_or_refused self.old (release_pin self.old session token) ≡ (self.new, result) }
    {
        if !is_held(&self.pins, session, token) {
            return Reply::Refused(Refusal::NoPin { token });
        }
        let_go(&mut self.pins, session, token);
        Reply::Released { token }
    }
}

// The newest version, if there is one.
fn newest(next: u32) -> Option<u32>
    ensures { result ≡ (if next == 0 then None else Some (next - 1)) }
{
    if next == 0 { None } else { Some(next - 1) }
}
