// What a pass knows, and the rule of the lock.
ghost use Rattle.std.specs.Prelude.{◌≡◌, ℕ, List, length};

use atomic_table::TableRule;
use std::collections::LinkedList;
use std::marker::PhantomData;

/// A value that stands for a list of numbers, its history. Each number tells the name under which
/// its turn was taken: the sixteen bits above the lowest sixteen.
pub trait Turned: Send {
    ghost history: { Self → List ℕ };

    /// How many turns the history has.
    fn length(&self) -> u64
        ensures { result ≡ length (history self.now) };
}

/// Where a pass stands with its ticket.
pub(crate) enum Turn {
    /// It has none.
    Idle,
    /// It has drawn this one.
    Drawn(u64),
    /// The turn has come, and the value is out.
    Come(u64),
    /// The turn's entry is counted.
    Marked(u64),
}

/// What a pass knows. No value of it is ever made: it stands in proofs alone.
pub(crate) struct View {
    pub(crate) names: LinkedList<u16>,
    pub(crate) seen: LinkedList<u128>,
    /// The shorter of two lists that were joined, until it is compared with the longer.
    pub(crate) shorter: LinkedList<u128>,
    pub(crate) own: LinkedList<u64>,
    pub(crate) room: u64,
    /// The room of the lock's first pass.
    pub(crate) limit: u64,
    pub(crate) turn: Turn,
}

/// The rule of the lock. Its key is the room of the first pass.
pub(crate) struct Rule<V> {
    value: PhantomData<V>,
}

impl<V: Turned> TableRule<Option<V>, View, u64> for Rule<V> {
    ghost use Rattle.mesa_turn.specs.Rule.{Turns, first_view};

    ghost holds = { λ room. Turns V.history room };

    ghost first = { first_view };
}
