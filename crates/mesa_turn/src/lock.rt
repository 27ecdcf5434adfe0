// The lock.
ghost use Rattle.std.specs.Prelude.{◌≡◌, ℕ, ◌^◌, ◌<◌, ◌≤◌, [], IfOk, IfErr, IsTrue, length};
ghost use Rattle.mesa_turn.specs.Held.{HasOneMore, pass_of, position_of, value_of};
ghost use Rattle.mesa_turn.specs.History.{has};
ghost use Rattle.mesa_turn.specs.Passes.{Finds, HasAnother, HasNone, IsExact, Joins, after, during, joined, left_of, part_of, whole};

use crate::held::Held;
use crate::pass::Pass;
use crate::steps::{compare, cut, draw, give, look, merge};
use crate::view::{Rule, Turned, View};
use atomic_table::{Refused, Table};
use std::alloc::{AllocError, AllocFailed, Global};
use std::marker::{Brand, Model};
use std::sync::Wait;

/// A ticket lock. A contract sees which lock it is, so that a pass of another lock is of no use
/// here.
pub struct TurnLock<V: Turned> {
    table: Table<Option<V>, View, u64, Rule<V>, Global>,
}

impl<V: Turned> Model for TurnLock<V> {
    ghost use Rattle.atomic_table.specs.Seated.{TableId, table_id_coded};
    ghost use Rattle.mesa_turn.specs.Passes.{IsLockId};

    ghost Value = { TableId };

    ghost coded = { table_id_coded };

    ghost view = { λ l. l.table.shared.table_id };

    ghost invariant = { λ l. IsLockId l.table.shared.table_id };
}

impl<V: Turned> TurnLock<V> {
    /// A lock over a value without history, and the pass that holds all names, which are 0 to 7,
    /// and has this room: the number of turns that the lock can give in all.
    pub fn new(alloc: Global, value: V, room: u64) -> Result<(TurnLock<V>, Pass), (V, AllocError)>
        requires empty { V.history value ≡ [] }
        requires room { room < 2 ^ 60 }
        ensures whole { IfOk result (λ made. made.1 ≡ whole made.0 room) }
        ensures err { IfErr result (λ failed. failed.0 ≡ value) }
    {
        let mut slots = Vec::new(alloc);
        if let Err(AllocFailed { value }) = slots.push(Some(value)) {
            slots.destroy_empty();
            return Err((value.unwrap(), AllocError));
        }
        match Table::new(alloc, &[0, 0, 0], slots, &room) {
            Ok((table, seat)) => {
                let pass = Pass {
                    badge: seat.into_badge(),
                };
                Ok((TurnLock { table }, pass))
            }
            Err(Refused { mut slots }) => {
                let value = slots.pop().unwrap().unwrap();
                slots.destroy_empty();
                Err((value, AllocError))
            }
        }
    }

    /// Waits for a turn, and takes the value out of the lock. A thread whose turn hasn't come
    /// parks until another turn ends.
    pub fn enter<R: Wait>(&self, rt: &R, pass: Pass) -> Held<V>
        requires lock { pass.lock ≡ self.now }
        requires room { 0 < pass.room }
        ensures finds { Finds pass (position_of result) (V.history (value_of result)) }
        ensures exact { IsExact pass }
        ensures pass { pass_of result ≡ during (V.history (value_of result)) pass }
    {
        let Pass { badge } = pass;
        let mut seat = badge.into_seat::<Option<V>>();
        let desk = &self.table.shared;
        let position = draw(desk, &mut seat);
        for _ in rt.forever() {
            if let Some(value) = look(desk, &mut seat, position) {
                return Held {
                    value,
                    position,
                    seat,
                };
            }
            let served = desk.peek(1);
            if served != position {
                desk.park(rt, 1, (served & 0xffff_ffff) as u32);
            }
        }
        unreachable!()
    }

    /// Puts the value back with its one new entry, and passes the turn on. Waits for nobody, and
    /// takes no memory.
    pub fn leave(&self, held: Held<V>) -> Pass
        requires lock { (pass_of held).lock ≡ self.now }
        requires one { HasOneMore V.history held }
        ensures pass { result ≡ after (V.history (value_of held)) (pass_of held) }
        ensures exact { IsExact result }
    {
        let Held {
            value,
            position,
            mut seat,
        } = held;
        let desk = &self.table.shared;
        give(desk, &mut seat, value, position);
        desk.wake_all(1);
        Pass {
            badge: seat.into_badge(),
        }
    }

    /// Splits off a pass that holds this name alone and has this room. Waits for nobody, and takes
    /// no memory.
    pub fn split(&self, pass: Pass, name: u16, room: u64) -> (Pass, Pass)
        requires lock { pass.lock ≡ self.now }
        requires name { IsTrue (has pass.names name) }
        requires another { HasAnother name pass }
        requires none { HasNone name pass }
        requires room { room ≤ pass.room }
        ensures kept { result.0 ≡ left_of name room pass }
        ensures given { result.1 ≡ part_of name room pass }
        ensures exact { IsExact result.0 × IsExact result.1 }
    {
        let Pass { badge } = pass;
        let mut seat = badge.into_seat::<Option<V>>();
        let other = cut::<V, Brand>(&self.table.shared, &mut seat, name, room);
        let kept = Pass {
            badge: seat.into_badge(),
        };
        let given = Pass {
            badge: other.into_badge(),
        };
        (kept, given)
    }

    /// Makes one pass of two. Waits for nobody, and takes no memory.
    pub fn join(&self, a: Pass, b: Pass) -> Pass
        requires first_lock { a.lock ≡ self.now }
        requires second_lock { b.lock ≡ self.now }
        ensures pass { result ≡ joined a b }
        ensures joins { Joins a b result }
    {
        let Pass { badge: first } = a;
        let Pass { badge: second } = b;
        let desk = &self.table.shared;
        let mut seat = first.into_seat::<Option<V>>();
        merge(desk, &mut seat, second.into_seat());
        compare(desk, &mut seat);
        Pass {
            badge: seat.into_badge(),
        }
    }

    /// Ends the lock, and gives the value back, whose history is what the last pass has seen.
    /// Waits for nobody, and takes no memory.
    pub fn close(self, last: Pass) -> V
        requires lock { last.lock ≡ self }
        requires all { (n : ℕ) → n < 8 → IsTrue (has last.names n) }
        ensures history { V.history result ≡ last.seen }
        ensures exact { IsExact last }
        ensures own { (k : ℕ) → k < length last.seen → IsTrue (has last.own k) }
    {
        let TurnLock { table } = self;
        let Pass { badge } = last;
        let mut closed = table.close_with(badge.into_seat());
        let value = closed.take(0);
        closed.free();
        value.unwrap()
    }
}
