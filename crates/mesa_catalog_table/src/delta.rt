// Deltas.
use mesa_record::Files;
use mesa_schema::Totals;
use std::marker::Model;

/// The rows of a range of versions of a table.
pub struct Delta {
    /// The epoch of the table's schema that the rows have; 0 for a version that brought the table no rows.
    pub epoch: u32,
    /// None where there are no rows.
    pub files: Option<Files>,
    /// For a singleton the absolute totals that were recorded with it.
    pub totals: Option<Totals>,
}

impl Model for Delta {
    ghost use Rattle.mesa_store_spec.specs.Catalog.{Delta as Known};

    ghost Value = { Known };

    ghost view = { λ d. record { epoch = d.epoch; files = d.files; totals = d.totals } };
}

// Each exit calls this, in place of letting go of each part itself.
impl Drop for Delta {
    fn drop(self) {
        let Delta {
            epoch: _,
            files: _,
            totals: _,
        } = self;
    }
}
