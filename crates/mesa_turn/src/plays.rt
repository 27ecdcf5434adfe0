// What each step on the table tells.
ghost use Rattle.std.specs.Prelude.{ℕ};
ghost use Rattle.mesa_turn.specs.Steps.{compares, cut_of, drew, kept_of, looked, marked, passed};

use crate::view::{Turned, View};
use atomic_table::{Join, Play, Split};
use std::marker::{Brand, PhantomData};

pub(crate) struct Draw;

impl<V: Turned> Play<Option<V>, View> for Draw {
    ghost then = { drew };
}

pub(crate) struct Look;

impl<V: Turned> Play<Option<V>, View> for Look {
    ghost then = { looked V.history };
}

pub(crate) struct Mark;

impl<V: Turned> Play<Option<V>, View> for Mark {
    ghost then = { marked V.history };
}

pub(crate) struct PassOn;

impl<V: Turned> Play<Option<V>, View> for PassOn {
    ghost then = { passed };
}

pub(crate) struct Compare;

impl<V: Turned> Play<Option<V>, View> for Compare {
    ghost then = { compares };
}

/// The name and the room that are cut off. Each call of `cut` picks them.
pub(crate) trait Cutting {
    ghost name: { ℕ };

    ghost room: { ℕ };
}

impl Cutting for Brand {
    ghost name = { 0 };

    ghost room = { 0 };
}

pub(crate) struct Cut<C> {
    of: PhantomData<C>,
}

impl<C: Cutting> Split<View> for Cut<C> {
    ghost left = { kept_of C.name C.room };

    ghost right = { cut_of C.name C.room };
}

pub(crate) struct Both;

impl Join<View> for Both {
    ghost use Rattle.mesa_turn.specs.Rule.{spent_view};
    ghost use Rattle.mesa_turn.specs.Steps.{both_of};

    ghost both = { both_of };

    ghost spent = { spent_view };
}
