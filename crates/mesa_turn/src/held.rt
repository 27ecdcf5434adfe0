// A value whose turn is under way.
ghost use Rattle.std.specs.Prelude.{◌≡◌, ◌≢◌, [], ◌∷◌, None};
ghost use Rattle.mesa_turn.specs.declared.view.Turn.TheVariants.{Come};

use crate::view::View;
use atomic_table::Seat;

/// The value, out of the lock, with the pass that took it. It can't be dropped: only
/// `TurnLock::leave` ends a turn.
pub struct Held<V> {
    pub(crate) value: V,
    pub(crate) position: u64,
    pub(crate) seat: Seat<Option<V>, View>,
    ghost out: { seat.me.1 ≡ (0, None) ∷ [] },
    ghost come: { seat.me.0.turn ≡ Come position },
    ghost named: { seat.me.0.names ≢ [] },
}

impl<V> Held<V> {
    ghost use types.Logic.{sem};
    ghost use denote.Follow.{follows};
    ghost use Rattle.mesa_turn.specs.contracts.held.Held.{the_row};
    ghost use Rattle.mesa_turn.specs.Held.{position_of, value_of, with_value};

    /// The turn's position in the history: the number of turns before it.
    pub fn position(&self) -> u64
        ensures { result ≡ position_of self.now }
    {
        self.position
    }

    /// The value, which has to get exactly one entry more before the turn is left.
    pub fn value(&mut self) -> &mut V
        ensures* lends { sem 𝓛 (follows (the_row V.row) V.row self.entry.ghost_name result.ghost_name (with_value self.old)) }
        ensures value { result.now ≡ value_of self.old }
    {
        &mut self.value
    }
}
