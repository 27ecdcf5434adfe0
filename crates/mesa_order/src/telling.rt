// What is told of how a query would be answered.
ghost use Rattle.std.specs.Prelude.{◌≡◌, ◌<◌, ◌≤◌, IfOk, IfSome, length};
ghost use Rattle.mesa_model.specs.mesa_columns.declared.columns.ValueColumn.{ValueColumn as Value};
ghost use Rattle.mesa_schema.specs.Changes.{columns_of};
ghost use Rattle.mesa_model.specs.Orders.{choice, values_told};
ghost use Rattle.mesa_order.specs.Told.{kept_places};

use crate::choosing::best_order;
use mesa_filter::Filter;
use mesa_schema::{Evolving, ValueColumn};
use std::alloc::{AllocError, Global};

/// The number of the view by whose order a query of a table with this filter is answered that asks for all values but those of replace columns.
pub fn order_told(
    alloc: Global,
    evolving: &Evolving,
    filter: &Filter,
) -> Result<Option<u8>, AllocError>
    ensures choice { IfOk result (λ view. view ≡ choice (columns_of evolving.now) evolving.now.views (values_told (columns_of evolving.now)) filter.now.terms) }
    ensures there { IfOk result (λ found. IfSome found (λ view. view < length evolving.now.views)) }
{
    let values = told_places(alloc, evolving.present().values())?;
    Ok(best_order(evolving, &values, filter.terms()))
}

// The places of the columns but the replace columns.
fn told_places(alloc: Global, columns: &[ValueColumn]) -> Result<Vec<u16>, AllocError>
    requires { length columns.now ≤ 16 }
    ensures { IfOk result (λ places. places.items ≡ kept_places 0 columns.now) }
{
    let mut places = Vec::new(alloc);
    'places: for place in 0..columns.len() {
        if !columns[place].is_replace() {
            places.push(place as u16)?;
        }
    }
    Ok(places)
}
