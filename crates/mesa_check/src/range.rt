// Ranges of versions, with their deltas.
ghost use Rattle.std.specs.Prelude.{◌≡◌};
ghost use Rattle.mesa_pick_files.specs.Lent.{now_if_any};
ghost use Rattle.mesa_check.specs.Held.{delta_of};

use mesa_catalog_table::Delta;
use mesa_record::Files;
use mesa_schema::Totals;

/// What a range is.
#[derive(Clone, Copy)]
pub(crate) enum Kind {
    Base,
    Single,
    Cumulative,
}

/// A range of versions, from its first to its last.
#[derive(Clone, Copy)]
pub(crate) struct Held<'a> {
    pub(crate) kind: Kind,
    pub(crate) from: u32,
    pub(crate) to: u32,
    /// None for a base that was there when its table was made.
    pub(crate) delta: Option<&'a Delta>,
}

impl<'a> Held<'a> {
    /// Its files, if it has rows.
    pub(crate) fn files(&self) -> Option<&'a Files>
        ensures { now_if_any result ≡ (delta_of self.now).files }
    {
        match self.delta {
            Some(delta) => delta.files.as_ref(),
            None => None,
        }
    }

    /// The totals that are recorded with it, if any are.
    pub(crate) fn totals(&self) -> Option<&'a Totals>
        ensures { now_if_any result ≡ (delta_of self.now).totals }
    {
        match self.delta {
            Some(delta) => delta.totals.as_ref(),
            None => None,
        }
    }

    /// The epoch of its rows.
    pub(crate) fn epoch(&self) -> u32
        ensures { result ≡ (delta_of self.now).epoch }
    {
        match self.delta {
            Some(delta) => delta.epoch,
            None => 0,
        }
    }
}
