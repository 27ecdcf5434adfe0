// A pass, by which a thread takes turns.
use crate::view::View;
use atomic_table::Badge;
use std::marker::Model;

/// The right to take turns under some names. It has no bytes: what it has seen, its own positions
/// and its room stand in contracts alone.
#[derive(Drop)]
pub struct Pass {
    pub(crate) badge: Badge<View>,
}

impl Model for Pass {
    ghost use Rattle.mesa_turn.specs.Passes.{IsReady, Known, known, view_of};

    ghost Value = { Known };

    ghost view = { λ p. known p.badge.table_id (view_of p.badge.views) };

    ghost invariant = { λ p. IsReady p.badge.views };
}
