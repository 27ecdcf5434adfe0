// By which order a query is answered.
ghost use Rattle.std.specs.Prelude.{◌≡◌, ◌<◌, IfSome, IsTrue, length, map, slice_get, take};
ghost use Rattle.mesa_model.specs.mesa_columns.declared.views.View.{View as Chosen};
ghost use Rattle.mesa_schema.specs.Changes.{columns_of};
ghost use Rattle.mesa_model.specs.Orders.{choice, is_candidate};
ghost use Rattle.mesa_order.specs.Best.{better_of};

use crate::scoring::{table_score, view_score};
use mesa_filter::{Query, Term};
use mesa_schema::Evolving;

/// The best order so far, a table's own or that of one of its views, and its score.
#[derive(Clone, Copy)]
pub(crate) struct Best {
    pub(crate) score: usize,
    pub(crate) view: Option<u8>,
}

/// The number of the view by whose order a query of a table is answered; none is the table's own order. No memory is taken.
pub fn choose(evolving: &Evolving, query: &Query) -> Option<u8>
    ensures choice { result ≡ choice (columns_of evolving.now) evolving.now.views query.now.asked.values query.now.asked.terms }
    ensures there { IfSome result (λ view. view < length evolving.now.views) }
    ensures candidate { IfSome result (λ view. IfSome (slice_get evolving.now.views view) (λ v. IsTrue (is_candidate (columns_of evolving.now) query.now.asked.values v))) }
{
    best_order(evolving, query.values(), query.filter().terms())
}

/// The same by the values that are asked and the terms of the filter.
pub(crate) fn best_order(evolving: &Evolving, values: &[u16], terms: &[Term]) -> Option<u8>
    ensures choice { result ≡ choice (columns_of evolving.now) evolving.now.views values.now terms.now }
    ensures there { IfSome result (λ view. view < length evolving.now.views) }
    ensures candidate { IfSome result (λ view. IfSome (slice_get evolving.now.views view) (λ v. IsTrue (is_candidate (columns_of evolving.now) values.now v))) }
{
    let table = evolving.present();
    let mut best = Best {
        score: table_score(table.keys(), terms),
        view: None,
    };
    'orders: for view in 0..evolving.views() {
        let score = view_score(table, evolving.view(view), values, terms);
        best = better(best, view, score);
    }
    best.view
}

// The best so far, or the view of a number, where its score is greater.
fn better(best: Best, view: u8, score: usize) -> Best
    ensures { result ≡ better_of best view score }
{
    if best.score < score {
        return Best {
            score,
            view: Some(view),
        };
    }
    best
}
