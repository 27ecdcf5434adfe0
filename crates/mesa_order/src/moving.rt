// A query of a table, asked of a further order.
ghost use Rattle.std.specs.Prelude.{◌≡◌, ◌<◌, IfOk, IfSome, IsTrue, length, slice_get};
ghost use Rattle.mesa_schema.specs.Changes.{columns_of};
ghost use Rattle.mesa_schema.specs.Views.{view_columns};
ghost use Rattle.mesa_filter.specs.Query.{IsQueryOf};
ghost use Rattle.mesa_model.specs.Orders.{is_candidate};
ghost use Rattle.mesa_order.specs.Order.{query_through};

use mesa_filter::{Query, chosen_places};
use mesa_schema::Evolving;
use std::alloc::AllocError;

/// The same query, of the view of a number, which is a further order with every value asked. Its page and its resume keys are those of the query of the table.
pub fn through(evolving: &Evolving, view: u8, query: &Query) -> Result<Query, AllocError>
    requires there { view < length evolving.now.views }
    requires of_table { IsQueryOf (columns_of evolving.now) query.now }
    requires candidate { IfSome (slice_get evolving.now.views view) (λ v. IsTrue (is_candidate (columns_of evolving.now) query.now.asked.values v)) }
    ensures query { IfOk result (λ q. IfSome (slice_get evolving.now.views view) (λ v. q ≡ query_through (columns_of evolving.now) v query.now)) }
    ensures of_view { IfOk result (λ q. IfSome (slice_get evolving.now.views view) (λ v. IsQueryOf (view_columns (columns_of evolving.now) v) q)) }
{
    let table = evolving.present();
    let view = evolving.view(view);
    let alloc = view.keys.allocator();
    let keys = chosen_places(alloc, view.keys.as_slice(), table.keys())?;
    let values = chosen_places(alloc, view.values.as_slice(), table.values())?;
    let _terms = query.filter().terms();
    query.among(&keys, &values)
}
