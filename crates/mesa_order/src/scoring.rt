// How well an order serves a query: how many of its leading key columns have a term with `=`.
ghost use Rattle.std.specs.Prelude.{◌≡◌, map};
ghost use Rattle.std.specs.List.{list_all};
ghost use Rattle.mesa_model.specs.mesa_columns.declared.columns.KeyColumn.{KeyColumn as Key};
ghost use Rattle.mesa_model.specs.mesa_columns.Columns.{places_in};
ghost use Rattle.mesa_filter.specs.Asked.{places_below};
ghost use Rattle.mesa_schema.specs.Views.{view_value_places};
ghost use Rattle.mesa_model.specs.Orders.{has_equal as has_equal_term, has_place, is_candidate as is_candidate_of, is_further_order as is_order, leading, view_score as score_of_view};

use crate::marking::{all_marked, are_marked, marks};
use mesa_filter::{Comparison, Term};
use mesa_schema::{KeyColumn, Name, Schema, View, place_of};

/// The score of a table's own order.
pub(crate) fn table_score(columns: &[KeyColumn], terms: &[Term]) -> usize
    ensures { result ≡ leading terms.now (places_below columns.now) }
{
    'places: for place in 0..columns.len() {
        if !has_equal(terms, place) {
            return place;
        }
    }
    columns.len()
}

/// The score of a view of a table: nothing where it can't answer.
pub(crate) fn view_score(table: &Schema, view: &View, values: &[u16], terms: &[Term]) -> usize
    ensures { result ≡ score_of_view table.now values.now terms.now view.now }
{
    if !is_candidate(table, view, values) {
        return 0;
    }
    chosen_score(table.keys(), view.keys.as_slice(), terms)
}

// How many of the columns of these names, from the first on, have a term with `=`.
fn chosen_score(columns: &[KeyColumn], names: &[Name], terms: &[Term]) -> usize
    ensures { result ≡ leading terms.now (places_in (map (λ (c : Key). c.name) columns.now) names.now) }
{
    let mut count = 0;
    'names: for name in names {
        if let Some(place) = place_of(name.bytes(), columns) {
            if !has_equal(terms, place) {
                return count;
            }
            count += 1;
        }
    }
    count
}

// Whether the key column at a place has a term with `=`.
fn has_equal(terms: &[Term], place: usize) -> bool
    ensures { result ≡ has_equal_term terms.now place }
{
    terms.iter().any(|term| term.column as usize == place && term.comparison == Comparison::Equal)
}

// Whether a view has every key column of its table and every value asked.
fn is_candidate(table: &Schema, view: &View, values: &[u16]) -> bool
    ensures { result ≡ is_candidate_of table.now values.now view.now }
{
    is_further_order(table, view) && has_values(table, view, values)
}

// Whether a view has every key column of its table.
fn is_further_order(table: &Schema, view: &View) -> bool
    ensures { result ≡ is_order table.now view.now }
{
    let held = marks(view.keys.as_slice(), table.keys());
    all_marked(&held, table.keys().len())
}

// Whether a view has the value columns at these places of its table.
fn has_values(table: &Schema, view: &View, values: &[u16]) -> bool
    ensures { result ≡ list_all (has_place (view_value_places table.now view.now)) values.now }
{
    let held = marks(view.values.as_slice(), table.values());
    are_marked(&held, values)
}
