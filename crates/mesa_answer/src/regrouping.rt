// Rows of a table as rows of one of its views.
ghost use Rattle.std.specs.Prelude.{◌≡◌, ◌<◌, IsTrue, IfOk, IfSome, OnOk, length, slice_get};
ghost use Rattle.mesa_key.specs.Spelling.{is_spelling};
ghost use Rattle.mesa_model.specs.mesa_columns.declared.views.View.{View as Chosen};
ghost use Rattle.mesa_schema.specs.Changes.{columns_of};
ghost use Rattle.mesa_model.specs.mesa_columns.Columns.{Columns};
ghost use Rattle.mesa_model.specs.mesa_columns.Lent.{lent};
ghost use Rattle.mesa_model.specs.mesa_columns.Rows.{IsRowOf};
ghost use Rattle.mesa_schema.specs.Views.{view_columns};
ghost use Rattle.mesa_filter.specs.Query.{are_places};
ghost use Rattle.mesa_answer.specs.Regrouping.{places_seen, row_under};

use crate::groups::kinds_in;
use crate::hand::Hand;
use mesa_filter::chosen_places;
use mesa_key::KeyType;
use mesa_schema::{Evolving, LentRow};
use std::alloc::{AllocError, Global};
use std::marker::Model;

/// How rows of a table become rows of one of its views: each by itself goes under the view's key, with the view's values. It is made once for many rows.
pub struct Regrouping {
    kinds: Vec<KeyType>,
    columns: Vec<u16>,
    values: Vec<u16>,
}

impl Model for Regrouping {
    ghost use Rattle.mesa_answer.specs.Regrouping.{PlacesSeen};

    ghost Value = { PlacesSeen };

    ghost view = { λ r. record { kinds = r.kinds.items; columns = r.columns.items; values = r.values.items } };
}

// Each exit calls this, in place of letting go of each part itself.
impl Drop for Regrouping {
    fn drop(self) {
        let Regrouping {
            kinds: _,
            columns: _,
            values: _,
        } = self;
    }
}

impl Regrouping {
    /// By the columns of the view of a number.
    pub fn of(alloc: Global, evolving: &Evolving, view: u8) -> Result<Self, AllocError>
        requires there { view < length evolving.now.views }
        ensures seen { IfOk result (λ r. IfSome (slice_get evolving.now.views view) (λ v. r ≡ places_seen (columns_of evolving.now) v)) }
        ensures columns_there { IfOk result (λ r. IsTrue (are_places (columns_of evolving.now).keys r.columns)) }
        ensures values_there { IfOk result (λ r. IsTrue (are_places (columns_of evolving.now).values r.values)) }
    {
        let schema = evolving.present();
        let view = evolving.view(view);
        let kinds = kinds_in(alloc, schema.keys())?;
        let columns = chosen_places(alloc, view.keys.as_slice(), schema.keys())?;
        let values = chosen_places(alloc, view.values.as_slice(), schema.values())?;
        Ok(Regrouping {
            kinds,
            columns,
            values,
        })
    }

    /// The places of the view's key columns among the table's.
    pub fn columns(&self) -> &[u16]
        ensures { result.now ≡ self.now.columns }
    {
        &self.columns
    }

    /// The places of the view's value columns among the table's.
    pub fn values(&self) -> &[u16]
        ensures { result.now ≡ self.now.values }
    {
        &self.values
    }

    /// Takes a row of the table in hand, as one of the view.
    pub fn take(&self, row: LentRow, hand: &mut Hand) -> Result<(), AllocError>
        requires { IsTrue (is_spelling self.now.kinds row.key.now) }
        ensures regrouped { OnOk result (hand.new ≡ row_under self.now (lent row.entry)) }
        ensures form { OnOk result ((s : Columns) (v : Chosen) → self.now ≡ places_seen s v → IsRowOf s (lent row.entry) → IsRowOf (view_columns s v) hand.new) }
    {
        hand.take(&self.kinds, &self.columns, &self.values, row)
    }
}
