// Who holds files: the pins, and the queries that are being answered.
ghost use Rattle.std.specs.Prelude.{◌≡◌, ◌+◌, ◌≤◌, ◌++◌, ◌&&◌, ◌==◌, filter, find, length, map, not, option_map, vec_capacity, vec_len, OnErr, OnOk, [], ◌∷◌};
ghost use Rattle.mesa_commit.specs.Holding.{is_held as is_held_by};
ghost use Rattle.mesa_engine.specs.Turned.{is_held_pin};
ghost use Rattle.mesa_engine.specs.declared.holders.Pin.{Pin as Held};
ghost use Rattle.mesa_engine.specs.declared.holders.Query.{Query as Asked};
ghost use Rattle.mesa_engine.specs.Meaning.{AreIndexed, HasRoom, holds_by, pin_as, pins_in, queries_in, query_as};
ghost use Rattle.mesa_engine.specs.Memory.{is_of_another};

use crate::index::{is_found, make_index};
use mesa_catalog::Catalog;
use mesa_commit::{Dropped, Hold};
use std::alloc::AllocError;

/// A version that a session keeps, with a copy of the catalogue of its own.
pub struct Pin {
    pub session: u16,
    pub token: u32,
    pub version: u32,
    /// The hold on the files that the copy names.
    pub hold: Hold,
    pub copy: Catalog,
}

// Each exit calls this, in place of letting go of each part itself.
impl Drop for Pin {
    fn drop(self) {
        let Pin {
            session: _,
            token: _,
            version: _,
            hold: _,
            copy: _,
        } = self;
    }
}

// A query that isn't closed yet and names no pin.
#[derive(Drop)]
pub(crate) struct Query {
    pub(crate) session: u16,
    pub(crate) hold: Hold,
}

#[derive(Drop)]
pub(crate) struct Holders {
    pub(crate) pins: Vec<Pin>,
    pub(crate) queries: Vec<Query>,
    // An index of the holds of both, with room for each of them.
    pub(crate) index: Vec<Hold>,
}

impl Holders {
    // Whether some hold is on the file.
    pub(crate) fn hold(&self, dropped: &Dropped) -> bool
        requires { AreIndexed self.now }
        ensures { result ≡ is_held_by (holds_by self.now) dropped.now }
    {
        is_found(&self.index, dropped)
    }

    // Takes the memory of one pin more.
    pub(crate) fn reserve_pin(&mut self) -> Result<(), AllocError>
        requires { AreIndexed self.old }
        ensures ok { OnOk result (HasRoom self.new × (vec_len self.new.pins + 1 ≤ vec_capacity self.new.pins)) }
        ensures pins { self.new.pins.items ≡ self.old.pins.items }
        ensures queries { self.new.queries ≡ self.old.queries }
        ensures indexed { AreIndexed self.new }
    {
        self.reserve_place()?;
        self.pins.reserve(1)
    }

    // Adds a pin whose memory is there.
    pub(crate) fn add_pin(&mut self, pin: Pin)
        requires place { HasRoom self.old }
        requires room { vec_len self.old.pins + 1 ≤ vec_capacity self.old.pins }
        ensures pins { pins_in self.new ≡ pins_in self.old ++ pin_as pin ∷ [] }
        ensures queries { self.new.queries ≡ self.old.queries }
        ensures indexed { AreIndexed self.new }
    {
        self.pins.push_reserved(pin);
        self.index_again();
    }

    // Adds a query.
    pub(crate) fn add_query(&mut self, query: Query) -> Result<(), AllocError>
        requires { AreIndexed self.old }
        ensures ok { OnOk result (queries_in self.new ≡ queries_in self.old ++ query_as query ∷ []) }
        ensures err { OnErr result (queries_in self.new ≡ queries_in self.old) }
        ensures pins { self.new.pins ≡ self.old.pins }
        ensures indexed { AreIndexed self.new }
    {
        self.reserve_place()?;
        self.queries.reserve(1)?;
        self.queries.push_reserved(query);
        self.index_again();
        Ok(())
    }

    // Takes the memory of the index for one hold more.
    fn reserve_place(&mut self) -> Result<(), AllocError>
        requires { AreIndexed self.old }
        ensures ok { OnOk result (HasRoom self.new) }
        ensures pins { self.new.pins ≡ self.old.pins }
        ensures queries { self.new.queries ≡ self.old.queries }
        ensures indexed { AreIndexed self.new }
    {
        let holds = self.pins.len() + self.queries.len();
        self.index
            .reserve((holds + 1).saturating_sub(self.index.len()))
    }

    // Indexes the holds again, once one came or went.
    fn index_again(&mut self)
        requires { length self.old.pins.items + length self.old.queries.items ≤ vec_capacity self.old.index }
        ensures pins { self.new.pins ≡ self.old.pins }
        ensures queries { self.new.queries ≡ self.old.queries }
        ensures indexed { AreIndexed self.new }
    {
        self.index.clear();
        push_pins(&mut self.index, &self.pins);
        push_queries(&mut self.index, &self.queries);
        make_index(&mut self.index);
    }

    // The pin of a session with this token.
    pub(crate) fn pin(&self, session: u16, token: u32) -> Option<&Pin>
        ensures { option_map (λ p. pin_as p.now) result ≡ find (is_held_pin session token) (pins_in self.now) }
    {
        find_pin(&self.pins, session, token)
    }

    // Lets a session's pin with this token go.
    pub(crate) fn release(&mut self, session: u16, token: u32)
        requires { AreIndexed self.old }
        ensures pins { pins_in self.new ≡ filter (λ p. not (is_held_pin session token p)) (pins_in self.old) }
        ensures queries { self.new.queries ≡ self.old.queries }
        ensures indexed { AreIndexed self.new }
    {
        let_go(&mut self.pins, session, token);
        self.index_again();
    }

    // Lets a session's open query go.
    pub(crate) fn answer(&mut self, session: u16)
        requires { AreIndexed self.old }
        ensures queries { queries_in self.new ≡ filter (is_of_another session) (queries_in self.old) }
        ensures pins { self.new.pins ≡ self.old.pins }
        ensures indexed { AreIndexed self.new }
    {
        let_answered(&mut self.queries, session);
        self.index_again();
    }
}

// Whether a pin is this session's, with this token.
fn is_of(pin: &Pin, session: u16, token: u32) -> bool
    ensures { result ≡ is_held_pin session token (pin_as pin.now) }
{
    pin.session == session && pin.token == token
}

fn find_pin(pins: &[Pin], session: u16, token: u32) -> Option<&Pin>
    ensures { option_map (λ p. p.now) result ≡ find (λ (p : Held). is_held_pin session token (pin_as p)) pins.now }
{
    pins.iter().find(|pin| is_of(pin, session, token))
}

fn let_go(pins: &mut Vec<Pin>, session: u16, token: u32)
    ensures { pins.new.items ≡ filter (λ (p : Held). not (is_held_pin session token (pin_as p))) pins.old.items }
{
    pins.retain(|pin| !is_of(pin, session, token));
}

fn let_answered(queries: &mut Vec<Query>, session: u16)
    ensures { queries.new.items ≡ filter (λ (q : Asked). is_of_another session (query_as q)) queries.old.items }
{
    queries.retain(|query| query.session != session);
}

// Puts the holds of pins behind others.
fn push_pins(index: &mut Vec<Hold>, pins: &[Pin])
    requires { vec_len index.old + length pins.now ≤ vec_capacity index.old }
    ensures items { index.new.items ≡ index.old.items ++ map (λ (p : Held). p.hold) pins.now }
    ensures room { vec_capacity index.new ≡ vec_capacity index.old }
{
    for pin in pins {
        index.push_reserved(pin.hold);
    }
}

// Puts the holds of queries behind others.
fn push_queries(index: &mut Vec<Hold>, queries: &[Query])
    requires { vec_len index.old + length queries.now ≤ vec_capacity index.old }
    ensures items { index.new.items ≡ index.old.items ++ map (λ (q : Asked). q.hold) queries.now }
    ensures room { vec_capacity index.new ≡ vec_capacity index.old }
{
    for query in queries {
        index.push_reserved(query.hold);
    }
}
