// The steps on the table: each is one atomic step on one word, but for the exchanges of the value,
// which happen while the seat has the slot.
ghost use Rattle.std.specs.Prelude.{◌≤◌, ◌≡◌, ◌≢◌, ◌<◌, [], ◌∷◌, ◌++◌, ℕ, Some, None, IfSome, IfNone, IsTrue, false};
ghost use Rattle.std.specs.List.{slice_get};
ghost use mathlib.Core.List.{IsPrefix};
ghost use Rattle.mesa_turn.specs.declared.view.Turn.TheVariants.{Come, Drawn, Idle};
ghost use Rattle.mesa_turn.specs.History.{Exactly, has, has_at, name_of, once};
ghost use Rattle.mesa_turn.specs.Passes.{IsLockId};
ghost use Rattle.mesa_turn.specs.Steps.{Found, both_of, called, compared, cut_of, drawn, entered, kept_of, rested};

use crate::plays::{Both, Compare, Cut, Cutting, Draw, Look, Mark, PassOn};
use crate::view::{Rule, Turned, View};
use atomic_table::{Seat, Shared};

/// The table without its owner.
pub(crate) type Desk<V> = Shared<Option<V>, View, u64, Rule<V>>;

/// A pass at the table.
pub(crate) type Place<V> = Seat<Option<V>, View>;

/// Draws a ticket.
pub(crate) fn draw<V: Turned>(desk: &Desk<V>, seat: &mut Place<V>) -> u64
    requires desk { (seat.old.table_id ≡ desk.now.table_id) × IsLockId desk.now.table_id }
    requires idle { seat.old.me.0.turn ≡ Idle }
    requires named { seat.old.me.0.names ≢ [] }
    requires room { 0 < seat.old.me.0.room }
    ensures desk { seat.new.table_id ≡ seat.old.table_id }
    ensures drawn { seat.new.me ≡ (drawn result seat.old.me.0, seat.old.me.1) }
{
    desk.fetch_add::<Draw>(seat, 0, 1)
}

/// Looks whether the ticket is served, and then takes the value.
pub(crate) fn look<V: Turned>(desk: &Desk<V>, seat: &mut Place<V>, ticket: u64) -> Option<V>
    requires desk { (seat.old.table_id ≡ desk.now.table_id) × IsLockId desk.now.table_id }
    requires drawn { seat.old.me.0.turn ≡ Drawn ticket }
    requires named { seat.old.me.0.names ≢ [] }
    requires empty { seat.old.me.1 ≡ [] }
    ensures desk { seat.new.table_id ≡ seat.old.table_id }
    ensures none { IfNone result (seat.new.me ≡ seat.old.me) }
    ensures found { IfSome result (λ x. Found seat.old.me.0 ticket (V.history x)) }
    ensures come { IfSome result (λ x. seat.new.me ≡ (called ticket (V.history x) seat.old.me.0, (0, None) ∷ [])) }
{
    if desk.load::<Look>(seat, 1) == ticket {
        Some(desk.exchange(seat, 0, None).unwrap())
    } else {
        None
    }
}

/// Gives the value back, counts its one new entry, and passes the turn on.
pub(crate) fn give<V: Turned>(desk: &Desk<V>, seat: &mut Place<V>, value: V, ticket: u64)
    requires desk { (seat.old.table_id ≡ desk.now.table_id) × IsLockId desk.now.table_id }
    requires come { seat.old.me.0.turn ≡ Come ticket }
    requires out { seat.old.me.1 ≡ (0, None) ∷ [] }
    requires more { (e : ℕ) × (V.history value ≡ seat.old.me.0.seen ++ e ∷ []) × IsTrue (has seat.old.me.0.names (name_of e)) }
    ensures desk { seat.new.table_id ≡ seat.old.table_id }
    ensures rested { seat.new.me ≡ (rested (entered (V.history value) seat.old.me.0), []) }
    ensures own { Exactly seat.new.me.0.own seat.new.me.0.names seat.new.me.0.seen }
{
    let none = desk.exchange(seat, 0, Some(value));
    let None = none else { unreachable!() };
    desk.fetch_add::<Mark>(seat, 2, 1);
    desk.fetch_add::<PassOn>(seat, 1, 1);
}

/// Cuts off a name and a room.
pub(crate) fn cut<V: Turned, C: Cutting>(
    desk: &Desk<V>,
    seat: &mut Place<V>,
    name: u16,
    room: u64,
) -> Place<V>
    requires desk { (seat.old.table_id ≡ desk.now.table_id) × IsLockId desk.now.table_id }
    requires picked { (name ≡ C.name) × (room ≡ C.room) }
    requires idle { (seat.old.me.0.turn ≡ Idle) × (seat.old.me.1 ≡ []) }
    requires room { room ≤ seat.old.me.0.room }
    requires name { IsTrue (has seat.old.me.0.names name) }
    requires another { (other : ℕ) × IsTrue (has seat.old.me.0.names other) × (other ≢ name) }
    requires clear { (k : ℕ) → IsTrue (has seat.old.me.0.own k) → has_at (name ∷ []) (slice_get seat.old.me.0.seen k) ≡ false }
    ensures desk { (seat.new.table_id ≡ seat.old.table_id) × (result.table_id ≡ seat.old.table_id) }
    ensures kept { seat.new.me ≡ (kept_of name room seat.old.me.0, []) }
    ensures given { result.me ≡ (cut_of name room seat.old.me.0, []) }
{
    desk.split_seat::<Cut<C>>(seat)
}

/// Takes in another pass's seat.
pub(crate) fn merge<V: Turned>(desk: &Desk<V>, seat: &mut Place<V>, other: Place<V>)
    requires desk { (seat.old.table_id ≡ desk.now.table_id) × (other.table_id ≡ desk.now.table_id) × IsLockId desk.now.table_id }
    requires idle { (seat.old.me.0.turn ≡ Idle) × (seat.old.me.1 ≡ []) }
    requires other_idle { (other.me.0.turn ≡ Idle) × (other.me.1 ≡ []) }
    requires named { seat.old.me.0.names ≢ [] }
    ensures desk { seat.new.table_id ≡ seat.old.table_id }
    ensures both { seat.new.me ≡ (both_of seat.old.me.0 other.me.0, []) }
{
    desk.join_seat::<Both>(seat, other);
}

/// Compares the two lists that were joined. A join itself tells nothing of the table, so this is
/// a load of its own.
pub(crate) fn compare<V: Turned>(desk: &Desk<V>, seat: &mut Place<V>)
    requires desk { (seat.old.table_id ≡ desk.now.table_id) × IsLockId desk.now.table_id }
    requires idle { (seat.old.me.0.turn ≡ Idle) × (seat.old.me.1 ≡ []) }
    ensures desk { seat.new.table_id ≡ seat.old.table_id }
    ensures compared { seat.new.me ≡ (compared seat.old.me.0, []) }
    ensures seen { IsPrefix seat.old.me.0.shorter seat.new.me.0.seen }
    ensures single { IsTrue (once seat.new.me.0.names) }
    ensures own { Exactly seat.new.me.0.own seat.new.me.0.names seat.new.me.0.seen }
{
    desk.load::<Compare>(seat, 0);
}
