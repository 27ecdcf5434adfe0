// A vault's memory, and what it is asked.
ghost use Rattle.std.specs.Prelude.{◌≡◌, ◌+◌, ◌<◌, ◌≤◌, ◌^◌, ℕ, find, length, option_map, None, Some, IfErr, OnOk};
ghost use Rattle.mesa_catalog.specs.Lookups.{generation_of};
ghost use Rattle.mesa_lease.specs.Book.{holder};
ghost use Rattle.mesa_engine.specs.EngineState.{next_id};
ghost use Rattle.mesa_engine.specs.Turned.{is_held_pin};
ghost use Rattle.mesa_engine.specs.Meaning.{pin_as};
ghost use Rattle.mesa_engine.specs.Memory.{opened_state};
ghost use Rattle.mesa_model.specs.declared.replies.Refusal.TheVariants as no;

use crate::holders::{Holders, Pin};
use mesa_catalog::Catalog;
use mesa_commit::{Dropped, Hold};
use mesa_disk::Area;
use mesa_file::FileId;
use mesa_lease::{Leases, TABLES};
use mesa_model::Refusal;
use std::alloc::Global;
use std::marker::Model;

/// What a vault has in its memory between turns.
pub struct Metadata {
    pub(crate) alloc: Global,
    pub(crate) catalog: Catalog,
    pub(crate) holders: Holders,
    // Files that are named no more and that a hold is on.
    pub(crate) trash: Vec<Dropped>,
    // How many files there is room for in the trash beside those that are there.
    pub(crate) room: usize,
    pub(crate) leases: Leases,
    // How many pins each session was given.
    pub(crate) given: Vec<u32>,
    // The position of the turn that closed the vault.
    pub(crate) closed: Option<u64>,
    // How many files the run has adopted.
    pub(crate) adopted: u64,
    // The journal's area, and where its next body goes there.
    pub(crate) area: Area,
    pub(crate) end: u64,
}

impl Model for Metadata {
    ghost use Rattle.std.specs.Prelude.{option_map};
    ghost use Rattle.mesa_catalog.specs.Lookups.{generation_of};
    ghost use Rattle.mesa_engine.specs.Meaning.{IsKept, pins_in, queries_in, readied};
    ghost use Rattle.mesa_engine.specs.Memory.{Memory};

    ghost Value = { Memory };

    ghost view = { λ m. record {
      state = record {
        catalogue = m.catalog.catalogue;
        generation = generation_of m.catalog.catalogue;
        pins = pins_in m.holders;
        queries = queries_in m.holders;
        trash = m.trash.items;
        leases = m.leases.book;
        given = m.given.items;
        closed = m.closed;
        adopted = m.adopted;
        area = m.area;
        end = m.end;
      };
      reserved = option_map (readied m.room) m.catalog.reserved;
      leased = m.leases.next;
    } };

    ghost invariant = { λ m. IsKept m.catalog m.holders m.trash m.room m.adopted };
}

// Each exit calls this, in place of letting go of each part itself.
impl Drop for Metadata {
    fn drop(self) {
        let Metadata {
            alloc: _,
            catalog: _,
            holders: _,
            trash: _,
            room: _,
            leases: _,
            given: _,
            closed: _,
            adopted: _,
            area: _,
            end: _,
        } = self;
    }
}

impl Metadata {
    /// The memory of a vault whose catalogue has this run as its last, before its first turn: the journal's next body goes to `end` in its area, and a lease will hold for `turns`.
    pub fn new(alloc: Global, catalog: Catalog, area: Area, end: u64, turns: u32) -> Self
        requires run { catalog.catalogue.run < 2 ^ 24 }
        requires free { catalog.reserved ≡ None }
        ensures { result ≡ record { state = opened_state catalog.catalogue area end turns; reserved = None; leased = 0 } }
    {
        Metadata {
            alloc,
            catalog,
            holders: Holders {
                pins: Vec::new(alloc),
                queries: Vec::new(alloc),
                index: Vec::new(alloc),
            },
            trash: Vec::new(alloc),
            room: 0,
            leases: Leases::new(turns),
            given: Vec::new(alloc),
            closed: None,
            adopted: 0,
            area,
            end,
        }
    }

    /// The catalogue.
    pub fn catalog(&self) -> &Catalog
        ensures { result.now.catalogue ≡ self.now.state.catalogue }
    {
        &self.catalog
    }

    /// The run's number.
    pub fn run(&self) -> u32
        ensures number { result ≡ self.now.state.catalogue.run }
        ensures few { result < 2 ^ 24 }
    {
        self.catalog.run()
    }

    /// How often the catalogue's tables, views and columns were made or changed.
    pub fn generation(&self) -> u64
        ensures state { result ≡ self.now.state.generation }
        ensures catalogue { result ≡ generation_of self.now.state.catalogue }
    {
        self.catalog.generation()
    }

    /// Refuses whatever is asked of a vault that has closed.
    pub fn check_open(&self) -> Result<(), Refusal>
        ensures opened { OnOk result (self.now.state.closed ≡ None) }
        ensures closed { IfErr result (λ x. (position : ℕ) × (self.now.state.closed ≡ Some position) × (x ≡ no.Closed position)) }
    {
        match self.closed {
            Some(position) => Err(Refusal::Closed { position }),
            None => Ok(()),
        }
    }

    /// The journal's area.
    pub fn area(&self) -> Area
        ensures { result ≡ self.now.state.area }
    {
        self.area
    }

    /// Where the journal's next body goes.
    pub fn end(&self) -> u64
        ensures { result ≡ self.now.state.end }
    {
        self.end
    }

    /// How many files the run has adopted.
    pub fn adopted(&self) -> u64
        ensures adopted { result ≡ self.now.state.adopted }
        ensures few { result < 2 ^ 40 }
        ensures run { self.now.state.catalogue.run < 2 ^ 24 }
    {
        self.adopted
    }

    /// The pin of a session with this token.
    pub fn pin_of(&self, session: u16, token: u32) -> Option<&Pin>
        ensures { option_map (λ p. pin_as p.now) result ≡ find (is_held_pin session token) self.now.state.pins }
    {
        self.holders.pin(session, token)
    }

    /// How many pins are held.
    pub fn pins(&self) -> usize
        ensures { result ≡ length self.now.state.pins }
    {
        self.holders.pins.len()
    }

    /// The table's lease that holds at the position.
    pub fn holder(&self, table: u16, position: u64) -> Option<u64>
        requires { table < TABLES }
        ensures { result ≡ holder self.now.state.leases table position }
    {
        self.leases.holds(table, position)
    }

    /// Lets all of it go.
    pub fn discard(self) {}

    // A hold of the turn at the position, on all files that are named in it.
    pub(crate) fn hold_now(&self, position: u64) -> Hold
        ensures at { result.at ≡ position }
        ensures next { result.next ≡ next_id self.now.state }
    {
        let next = FileId::adopted(self.catalog.run(), self.adopted);
        Hold {
            at: position,
            next: next.number(),
        }
    }
}
